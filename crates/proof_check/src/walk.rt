ghost use Rattle.leaf_bounds.specs.Shown.{numbers_of, ArePlaces};
ghost use Rattle.leaf_bounds.specs.Tree.{lesser};
ghost use Rattle.leaf_bounds.specs.Verdict.{verdict_of};
ghost use Rattle.patterns.specs.Allowed.{FitsBook};
ghost use Rattle.proof_check.specs.Going.{Follows};
ghost use Rattle.proof_check.specs.Walk.{bound_told, checked_bound, is_number, is_over, node_due, state_of, IsSound, IsStep};
ghost use Rattle.proof_rules.specs.Fault.{after_end, start, tables_due};
ghost use Rattle.proof_file.specs.Kind.{is_in_range};
ghost use Rattle.std.specs.Prelude.{◌≡◌, ◌==◌, ◌&&◌, false, true, length, nat_lt, IfOk, IsTrue};

use crate::leaf::OpenLeaf;
use crate::splits::Splits;
use crate::stage::Stage;
use crate::stop::{Stop, placed};
use crate::tables::Tables;
use leaf_bounds::{Bound, Cut, Leaf, LeafFault, LeafValue, NumberValue, leaf_check};
use pair_prices::Case;
use patterns::Allowed;
use proof_file::{HeadRecord, ProofRecord, TableHead};
use proof_rules::ProofKind;
use std::alloc::{AllocError, Global};

/// What the records so far leave to do.
#[derive(Drop)]
pub(crate) struct Walk {
    /// 0 before the first record.
    pub version: u8,
    pub stage: Stage,
    pub tables: Tables,
    pub splits: Splits,
    pub leaf: Option<OpenLeaf>,
    /// The least bound of the leaves so far.
    pub least: Bound,
}

impl Walk {
    pub(crate) fn new(alloc: Global, case: &Case) -> Result<Walk, AllocError>
        ensures state { IfOk result (λ w. state_of w ≡ start) }
        ensures sound { IfOk result (IsSound case.now) }
    {
        let _station = case.station();
        Ok(Walk {
            version: 0,
            stage: Stage::Head,
            tables: Tables::new(alloc),
            splits: Splits::new(alloc, case.book())?,
            leaf: None,
            least: Bound::Nothing,
        })
    }

    /// Whether the last record was read.
    pub(crate) fn is_over(&self) -> bool
        ensures { result ≡ is_over self.now.stage }
    {
        self.stage.is_over()
    }

    /// The least bound of the leaves so far.
    pub(crate) fn least(&self) -> Bound
        ensures { result ≡ self.now.least }
    {
        self.least
    }

    /// Goes on by one record.
    pub(crate) fn step(
        &mut self,
        alloc: Global,
        case: &Case,
        read: &ProofRecord,
    ) -> Result<(), Stop>
        requires range { IsTrue (is_in_range read.now) }
        requires sound { IsSound case.now self.old }
        requires more { is_over self.old.stage ≡ false }
        ensures { IsStep case.now self.old read.now self.new result }
    {
        match read {
            ProofRecord::Head(x) => self.head(case, x),
            ProofRecord::Table(x) => self.table(alloc, case, x),
            ProofRecord::Ta(x) => self.table_alpha(case, x),
            ProofRecord::Tb(x) => self.table_beta(case, x),
            ProofRecord::Split(cut) => self.split(alloc, case, cut),
            ProofRecord::Leaf(q) => self.open_leaf(alloc, case, *q),
            ProofRecord::Close => self.close(alloc, case),
            ProofRecord::End(bound) => self.end(case, &Bound::AtLeast(*bound)),
            ProofRecord::Nothing => self.end(case, &Bound::Nothing),
            ProofRecord::U(_) => self.number(case, read),
            ProofRecord::V(_) => self.number(case, read),
            ProofRecord::A(_) => self.number(case, read),
            ProofRecord::B(_) => self.number(case, read),
            ProofRecord::Use(_) => self.number(case, read),
        }
    }

    /// Goes on by a record of the open leaf.
    fn number(&mut self, case: &Case, read: &ProofRecord) -> Result<(), Stop>
        requires range { IsTrue (is_in_range read.now) }
        requires number { is_number read.now ≡ true }
        requires sound { IsSound case.now self.old }
        ensures { IsStep case.now self.old read.now self.new result }
    {
        let Some(leaf) = &mut self.leaf else {
            return placed(false);
        };
        leaf.push(case, &self.tables, &self.splits, read)
    }

    fn head(&mut self, case: &Case, x: &HeadRecord) -> Result<(), Stop>
        requires range { IsTrue (is_in_range (ProofRecord.Head x.now)) }
        requires sound { IsSound case.now self.old }
        ensures { IsStep case.now self.old (ProofRecord.Head x.now) self.new result }
    {
        placed(self.is_head_due(case, x))?;
        self.version = x.version;
        self.stage = Stage::Start;
        Ok(())
    }

    fn is_head_due(&self, case: &Case, x: &HeadRecord) -> bool
        ensures { result ≡ (self.now.version == 0 && x.now.trains == length case.now.book) }
    {
        self.version == 0 && usize::from(x.trains) == case.book().trains()
    }

    /// Whether tables are due.
    fn has_tables(&self) -> bool
        ensures { result ≡ tables_due (state_of self.now) }
    {
        self.version == 2 && !self.stage.is_tree()
    }

    fn table(&mut self, alloc: Global, case: &Case, x: &TableHead) -> Result<(), Stop>
        requires { IsSound case.now self.old }
        ensures { IsStep case.now self.old (ProofRecord.Table x.now) self.new result }
    {
        placed(self.has_tables())?;
        self.tables.push(alloc, case.book(), x)
    }

    fn table_alpha(&mut self, case: &Case, x: &NumberValue) -> Result<(), Stop>
        requires { IsSound case.now self.old }
        ensures { IsStep case.now self.old (ProofRecord.Ta x.now) self.new result }
    {
        placed(self.has_tables())?;
        self.tables.push_alpha(case.book(), x)
    }

    fn table_beta(&mut self, case: &Case, x: &NumberValue) -> Result<(), Stop>
        requires { IsSound case.now self.old }
        ensures { IsStep case.now self.old (ProofRecord.Tb x.now) self.new result }
    {
        placed(self.has_tables())?;
        self.tables.push_beta(case.book(), x)
    }

    /// Whether a node is due.
    fn is_node_due(&self) -> bool
        ensures { result ≡ node_due self.now }
    {
        self.leaf.is_none() && self.stage.has_nodes()
    }

    fn split(&mut self, alloc: Global, case: &Case, cut: &Cut) -> Result<(), Stop>
        requires { IsSound case.now self.old }
        ensures { IsStep case.now self.old (ProofRecord.Split cut.now) self.new result }
    {
        placed(self.is_split_due(case, cut))?;
        self.splits.split(alloc, cut)?;
        self.stage = Stage::Tree;
        Ok(())
    }

    fn is_split_due(&self, case: &Case, cut: &Cut) -> bool
        ensures { result ≡ (node_due self.now && nat_lt cut.now.train (length case.now.book)) }
    {
        self.is_node_due() && usize::from(cut.train) < case.book().trains()
    }

    fn open_leaf(&mut self, alloc: Global, case: &Case, q: i128) -> Result<(), Stop>
        requires range { IsTrue (is_in_range (ProofRecord.Leaf q)) }
        requires sound { IsSound case.now self.old }
        ensures { IsStep case.now self.old (ProofRecord.Leaf q) self.new result }
    {
        placed(self.is_node_due())?;
        self.stage = Stage::Tree;
        self.leaf = Some(OpenLeaf::new(alloc, q));
        Ok(())
    }

    fn close(&mut self, alloc: Global, case: &Case) -> Result<(), Stop>
        requires { IsSound case.now self.old }
        ensures { IsStep case.now self.old ProofRecord.Close self.new result }
    {
        let Some(open) = self.leaf.take() else {
            return placed(false);
        };
        let leaf = open.into_leaf(alloc)?;
        let bound = bound_of_leaf(case, self.splits.lists(), &leaf)?;
        self.least = lesser(self.least, bound);
        let more = self.splits.advance(alloc)?;
        self.stage = Stage::after_leaf(more);
        Ok(())
    }

    fn end(&mut self, case: &Case, bound: &Bound) -> Result<(), Stop>
        requires sound { IsSound case.now self.old }
        requires more { is_over self.old.stage ≡ false }
        ensures { Follows (after_end (state_of self.old) bound.now) (λ s. (state_of self.new ≡ s) × IsSound case.now self.new) result }
    {
        placed(self.stage.is_last())?;
        if self.least != *bound {
            return Err(Stop::Refused(ProofKind::End));
        }
        self.stage = Stage::Over;
        Ok(())
    }
}

/// The bound of a leaf that stands.
fn bound_of_leaf(case: &Case, lists: &Allowed, leaf: &Leaf) -> Result<Bound, Stop>
    requires fits { FitsBook lists.now.lists case.now.book }
    requires places { ArePlaces case.now lists.now.lists leaf.now }
    ensures { result ≡ checked_bound (verdict_of case.now lists.now.lists (numbers_of leaf.now)) }
{
    match leaf_check(case, lists, leaf) {
        Ok(value) => Ok(bound_of(&value)),
        Err(LeafFault::Pair(_)) => Err(Stop::Refused(ProofKind::Pair)),
        Err(LeafFault::Pattern(_)) => Err(Stop::Refused(ProofKind::Pattern)),
    }
}

/// What a leaf says of the cost of plans.
fn bound_of(value: &LeafValue) -> Bound
    ensures { result ≡ bound_told value.now }
{
    if value.empty {
        Bound::Nothing
    } else {
        Bound::AtLeast(value.bound)
    }
}

/// The lesser of two bounds; nothing is above every number.
fn lesser(a: Bound, b: Bound) -> Bound
    ensures { result ≡ lesser a b }
{
    match (a, b) {
        (Bound::Nothing, b) => b,
        (a, Bound::Nothing) => a,
        (Bound::AtLeast(n), Bound::AtLeast(m)) => Bound::AtLeast(n.min(m)),
    }
}
