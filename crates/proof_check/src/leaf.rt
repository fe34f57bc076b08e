ghost use Rattle.leaf_bounds.specs.Listed.{minute_key, pair_key, Ascends, AreLeafLists, AreUses};
ghost use Rattle.patterns.specs.Allowed.{FitsBook};
ghost use Rattle.patterns.specs.Book.{IsBook};
ghost use Rattle.proof_check.specs.Going.{IsPlaced};
ghost use Rattle.proof_check.specs.Open.{a_due, b_due, leaf_of, u_due, v_due, AddsA, AddsB, AddsU, AddsV, IsClosed, IsLeaf, IsLeafStep, IsUsed};
ghost use Rattle.proof_check.specs.Sums.{AreKeyed, AreListed, AreLists};
ghost use Rattle.proof_check.specs.Tables.{AreThere, groups_of};
ghost use Rattle.proof_file.specs.Kind.{is_in_range};
ghost use Rattle.proof_rules.specs.Fault.{is_above, is_pair_due};
ghost use Rattle.std.specs.Prelude.{◌≡◌, ◌<◌, [], length, pos, IfOk, IsTrue};
ghost use Rattle.proof_check.specs.declared.side.Side.TheVariants.{First, Second};

use crate::order::{is_minute_next, is_pair_next, is_train_next, is_use_next};
use crate::potentials::Potentials;
use crate::side::Side;
use crate::splits::Splits;
use crate::stop::{Stop, placed};
use crate::sums::some_entries;
use crate::tables::Tables;
use leaf_bounds::{Leaf, MinuteValue, PairValue, TrainValue, UseOf};
use pair_prices::Case;
use proof_file::ProofRecord;
use sequence::Sequence;
use std::alloc::{AllocError, Global};

/// A leaf whose `close` is still to come.
#[derive(Drop)]
pub(crate) struct OpenLeaf {
    pub q: i128,
    pub u: Vec<TrainValue>,
    pub v: Vec<MinuteValue>,
    pub alpha: Potentials,
    pub beta: Potentials,
    pub uses: Vec<UseOf>,
}

impl OpenLeaf {
    pub(crate) fn new(alloc: Global, q: i128) -> OpenLeaf
        ensures q { result.q ≡ q }
        ensures u { result.u.items ≡ [] }
        ensures v { result.v.items ≡ [] }
        ensures alpha { result.alpha.listed.items ≡ [] }
        ensures beta { result.beta.listed.items ≡ [] }
        ensures alpha_sums { result.alpha.sums.entries ≡ [] }
        ensures beta_sums { result.beta.sums.entries ≡ [] }
        ensures uses { result.uses.items ≡ [] }
    {
        OpenLeaf {
            q,
            u: Vec::new(alloc),
            v: Vec::new(alloc),
            alpha: Potentials::new(alloc),
            beta: Potentials::new(alloc),
            uses: Vec::new(alloc),
        }
    }

    /// Goes on by a record of the leaf.
    pub(crate) fn push(
        &mut self,
        case: &Case,
        tables: &Tables,
        splits: &Splits,
        read: &ProofRecord,
    ) -> Result<(), Stop>
        requires range { IsTrue (is_in_range read.now) }
        requires book { IsBook case.now.book }
        requires fits { FitsBook splits.now.lists.lists case.now.book }
        requires tables { AreThere (length case.now.book) (groups_of tables.now) }
        requires leaf { IsLeaf case.now (groups_of tables.now) splits.now.lists.lists self.old }
        ensures { IsLeafStep case.now (groups_of tables.now) splits.now.lists.lists self.old read.now self.new result }
    {
        match read {
            ProofRecord::U(x) => self.push_u(case, x),
            ProofRecord::V(x) => self.push_v(case, x),
            ProofRecord::A(x) => self.push_a(case, splits, x),
            ProofRecord::B(x) => self.push_b(case, splits, x),
            ProofRecord::Use(x) => self.push_use(tables, splits, x),
            _ => placed(false),
        }
    }

    fn push_u(&mut self, case: &Case, x: &TrainValue) -> Result<(), Stop>
        requires { Ascends (λ y. pos y.train) self.old.u.items }
        ensures { IsPlaced (u_due case.now x.now (leaf_of self.old)) (AddsU self.old x.now self.new) result }
    {
        placed(self.is_u_due(case, x))?;
        self.u.push(*x)?;
        Ok(())
    }

    fn push_v(&mut self, case: &Case, x: &MinuteValue) -> Result<(), Stop>
        requires { Ascends minute_key self.old.v.items }
        ensures { IsPlaced (v_due case.now x.now (leaf_of self.old)) (AddsV self.old x.now self.new) result }
    {
        placed(self.is_v_due(case, x))?;
        self.v.push(*x)?;
        Ok(())
    }

    fn push_a(&mut self, case: &Case, splits: &Splits, x: &PairValue) -> Result<(), Stop>
        requires book { IsBook case.now.book }
        requires fits { FitsBook splits.now.lists.lists case.now.book }
        requires order { Ascends (λ y. pos (pair_key y)) self.old.alpha.listed.items }
        ensures { IsPlaced (a_due case.now splits.now.lists.lists x.now (leaf_of self.old)) (AddsA self.old x.now self.new) result }
    {
        placed(self.is_a_due(case, splits, x))?;
        self.alpha.push(x)?;
        Ok(())
    }

    fn push_b(&mut self, case: &Case, splits: &Splits, x: &PairValue) -> Result<(), Stop>
        requires book { IsBook case.now.book }
        requires fits { FitsBook splits.now.lists.lists case.now.book }
        requires order { Ascends (λ y. pos (pair_key y)) self.old.beta.listed.items }
        ensures { IsPlaced (b_due case.now splits.now.lists.lists x.now (leaf_of self.old)) (AddsB self.old x.now self.new) result }
    {
        placed(self.is_b_due(case, splits, x))?;
        self.beta.push(x)?;
        Ok(())
    }

    fn push_use(&mut self, tables: &Tables, splits: &Splits, x: &UseOf) -> Result<(), Stop>
        requires lists { AreLists splits.now.lists.lists }
        requires tables { AreThere (length splits.now.lists.lists) (groups_of tables.now) }
        requires order { AreUses self.old.uses.items }
        requires alpha_keyed { AreKeyed self.old.alpha.sums }
        requires beta_keyed { AreKeyed self.old.beta.sums }
        requires alpha_listed { AreListed splits.now.lists.lists First self.old.alpha.sums }
        requires beta_listed { AreListed splits.now.lists.lists Second self.old.beta.sums }
        ensures { IsUsed (groups_of tables.now) splits.now.lists.lists self.old x.now self.new result }
    {
        placed(is_use_next(&self.uses, x))?;
        let Some(table) = tables.get(x.table) else {
            return placed(false);
        };
        self.alpha.add(splits, Side::First, table, x)?;
        self.beta.add(splits, Side::Second, table, x)?;
        self.uses.push(*x)?;
        Ok(())
    }

    fn is_u_due(&self, case: &Case, x: &TrainValue) -> bool
        requires { Ascends (λ y. pos y.train) self.now.u.items }
        ensures { result ≡ u_due case.now x.now (leaf_of self.now) }
    {
        self.v.is_empty()
            && self.alpha.listed.is_empty()
            && self.beta.listed.is_empty()
            && self.uses.is_empty()
            && usize::from(x.train) < case.book().trains()
            && x.value != 0
            && is_train_next(&self.u, x)
    }

    fn is_v_due(&self, case: &Case, x: &MinuteValue) -> bool
        requires { Ascends minute_key self.now.v.items }
        ensures { result ≡ v_due case.now x.now (leaf_of self.now) }
    {
        self.alpha.listed.is_empty()
            && self.beta.listed.is_empty()
            && self.uses.is_empty()
            && usize::from(x.platform) < case.station().platforms.len()
            && x.value != 0
            && is_minute_next(&self.v, x)
    }

    fn is_a_due(&self, case: &Case, splits: &Splits, x: &PairValue) -> bool
        requires fits { FitsBook splits.now.lists.lists case.now.book }
        requires order { Ascends (λ y. pos (pair_key y)) self.now.alpha.listed.items }
        ensures { result ≡ a_due case.now splits.now.lists.lists x.now (leaf_of self.now) }
    {
        self.beta.listed.is_empty()
            && self.uses.is_empty()
            && is_pair_due(case, &self.alpha.listed, x)
            && splits.contains(x.first, x.number)
    }

    fn is_b_due(&self, case: &Case, splits: &Splits, x: &PairValue) -> bool
        requires fits { FitsBook splits.now.lists.lists case.now.book }
        requires order { Ascends (λ y. pos (pair_key y)) self.now.beta.listed.items }
        ensures { result ≡ b_due case.now splits.now.lists.lists x.now (leaf_of self.now) }
    {
        self.uses.is_empty()
            && is_pair_due(case, &self.beta.listed, x)
            && splits.contains(x.second, x.number)
    }

    /// The leaf with its uses.
    pub(crate) fn into_leaf(self, alloc: Global) -> Result<Leaf, AllocError>
        requires kept { AreLeafLists self.q self.u.items self.v.items self.alpha.listed.items self.beta.listed.items }
        requires alpha { AreKeyed self.alpha.sums }
        requires beta { AreKeyed self.beta.sums }
        ensures { IfOk result (IsClosed self) }
    {
        let alpha = some_entries(alloc, &self.alpha.sums)?;
        let beta = some_entries(alloc, &self.beta.sums)?;
        let OpenLeaf { q, u, v, .. } = self;
        Ok(Leaf {
            q,
            u: Sequence::from_vec(u),
            v: Sequence::from_vec(v),
            alpha: Sequence::from_vec(alpha),
            beta: Sequence::from_vec(beta),
        })
    }
}

/// Whether the two trains are there, in order, and the entry has a value and is behind those before it.
fn is_pair_due(case: &Case, entries: &[PairValue], x: &PairValue) -> bool
    requires { Ascends (λ y. pos (pair_key y)) entries.now }
    ensures { result ≡ is_pair_due case.now entries.now x.now }
{
    x.first < x.second
        && usize::from(x.second) < case.book().trains()
        && x.value != 0
        && is_pair_next(entries, x)
}
