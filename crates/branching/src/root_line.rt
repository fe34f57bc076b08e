ghost use Rattle.branching.specs.RootLine.{IsRoot, IsRootBy, root_bound};
ghost use Rattle.master_lp.specs.Bounds.{IsExact, IsWeak, MatchRelaxed, MayWeaken, column_count};
ghost use Rattle.pair_classes.specs.Meetings.{AreMeetings};
ghost use Rattle.pair_prices.specs.Case.{CaseRecord};
ghost use Rattle.patterns.specs.Allowed.{full_lists, FitsBook};
ghost use Rattle.pair_prices.specs.Top.{top_of};
ghost use Rattle.ratio.specs.Fraction.{IsSameFraction};
ghost use Rattle.std.specs.Prelude.{◌≡◌, ◌≤◌, None, Some, pos, length, IfOk, IfSome};

use crate::aid::Aid;
use crate::found::Root;
use leaf_bounds::{Bound, Leaf};
use master_lp::{ExactBound, Limits, RelaxHints, Relaxed, WeakBound, relax_with};
use pair_classes::Meetings;
use pair_prices::Case;
use patterns::Allowed;
use ratio::{Ratio, Width};
use std::alloc::{AllocError, Global};
use std::cmp::Ordering;

impl Root {
    /// What the value says of the cost of plans: `Nothing` where it is TOP or more, and else the value rounded up.
    pub fn bound(&self, case: &Case) -> Bound
        ensures { result ≡ root_bound case.now self.now.value }
    {
        let top = top_ratio(case);
        match self.value.cmp(&top) {
            Ordering::Less => Bound::AtLeast(self.value.ceil()),
            Ordering::Equal | Ordering::Greater => Bound::Nothing,
        }
    }
}

/// TOP as a fraction.
fn top_ratio(case: &Case) -> Ratio
    ensures { IsSameFraction result.num result.den (pos (top_of case.now)) (pos 1) }
{
    Ratio::new(case.top() as i128, 1)
}

/// What is known of all plans without a split and without a plan: the value of a leaf for all patterns of all trains, and whether
/// it is the least cost of a fractional plan.
///
/// # Errors
/// `AllocError` where no memory was found.
pub fn find_root(
    alloc: Global,
    case: &Case,
    limits: &Limits,
    width: &mut Width,
) -> Result<Root, AllocError>
    // The value is that of a leaf for all plans; unless it is weak, it is the root value of the case.
    ensures root { IfOk result (IsRoot case.now) }
    // It is weak only for a cause that the limits, the case and the ledger over this call allow.
    ensures cause { IfOk result (λ r. IfSome r.weak
        (MayWeaken limits.now (length case.now.book) (column_count case.now (full_lists case.now.book)) width.old width.new)) }
    ensures ledger { width.old ≤ width.new }
{
    let meetings = Meetings::new(alloc, case)?;
    let allowed = Allowed::all(alloc, case.book())?;
    let aid = Aid {
        meetings: &meetings,
        known: None,
    };
    let found = root_leaf(alloc, case, &allowed, &aid, limits, width)?;
    Ok(found.root)
}

/// The root line, and a leaf of its value.
#[derive(Drop)]
pub(crate) struct RootLeaf {
    pub root: Root,
    pub leaf: Leaf,
}

/// What is known of all plans without a split.
pub(crate) fn root_leaf(
    alloc: Global,
    case: &Case,
    allowed: &Allowed,
    aid: &Aid,
    limits: &Limits,
    width: &mut Width,
) -> Result<RootLeaf, AllocError>
    requires meetings { AreMeetings case.now aid.now.meetings.now }
    requires fits { FitsBook allowed.now.lists case.now.book }
    requires all { allowed.now.lists ≡ full_lists case.now.book }
    ensures root { IfOk result (λ r. IsRootBy case.now r.leaf r.root) }
    ensures cause { IfOk result (λ r. IfSome r.root.weak
        (MayWeaken limits.now (length case.now.book) (column_count case.now (full_lists case.now.book)) width.old width.new)) }
    ensures ledger { width.old ≤ width.new }
{
    let hints = RelaxHints {
        meetings: aid.meetings,
        seed: None,
        known: aid.known,
    };
    let relaxed = relax_with(alloc, case, allowed, limits, &hints, width)?;
    Ok(rooted(relaxed))
}

/// The root line of a bound.
fn rooted(relaxed: Relaxed) -> RootLeaf
    ensures root { (c : CaseRecord) → MatchRelaxed relaxed (IsExact c (full_lists c.book)) (IsWeak c (full_lists c.book))
        → IsRootBy c result.leaf result.root }
    ensures weak { MatchRelaxed relaxed (λ e. result.root.weak ≡ None) (λ w. result.root.weak ≡ Some w.cause) }
{
    match relaxed {
        Relaxed::Exact(bound) => exact_root(bound),
        Relaxed::Weak(bound) => weak_root(bound),
    }
}

fn exact_root(bound: ExactBound) -> RootLeaf
    ensures root { (c : CaseRecord) → IsExact c (full_lists c.book) bound → IsRootBy c result.leaf result.root }
    ensures weak { result.root.weak ≡ None }
{
    let ExactBound {
        value,
        leaf,
        fraction: _,
    } = bound;
    RootLeaf {
        root: Root { value, weak: None },
        leaf,
    }
}

fn weak_root(bound: WeakBound) -> RootLeaf
    ensures root { (c : CaseRecord) → IsWeak c (full_lists c.book) bound → IsRootBy c result.leaf result.root }
    ensures weak { result.root.weak ≡ Some bound.cause }
{
    let WeakBound { value, leaf, cause } = bound;
    RootLeaf {
        root: Root {
            value,
            weak: Some(cause),
        },
        leaf,
    }
}
