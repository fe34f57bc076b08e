// The two ends of a bound: exact, and weak.
ghost use Rattle.dual_ascent.specs.Plain.{IsAtLeastPlain};
ghost use Rattle.exact_lp.specs.Programs.{valued_leasts};
ghost use Rattle.leaf_bounds.specs.Leaf.{value_of};
ghost use Rattle.leaf_bounds.specs.Shown.{LeafStands, numbers_of};
ghost use Rattle.leaf_bounds.specs.Verdict.{answer_of};
ghost use Rattle.master_lp.specs.Bounds.{IfWeakBound, IsExact, IsWeak, IsWorth, IsWritten, MatchRelaxed};
ghost use Rattle.master_lp.specs.Exact.{IsEndCause, IsSolved, MeetsAll};
ghost use Rattle.station_rows.specs.Plans.{fraction_of_plan};
ghost use Rattle.patterns.specs.Allowed.{FitsBook};
ghost use Rattle.pattern_pricing.specs.Prices.{IsLayoutOf};
ghost use Rattle.station_rows.specs.Laws.{IsPlanWithin};
ghost use Rattle.std.specs.Prelude.{◌≡◌, ◌≤◌, ◌^◌, ◌*ℤ◌, ◌≤ℤ◌, pos, IfOk};

use crate::answer::{ExactBound, Relaxed, WeakBound};
use dual_ascent::Climbed;
use dual_leaves::{DualFault, leaf_of_duals};
use exact_lp::{Point, Solved, WeakCause};
use leaf_bounds::{Leaf, leaf_check};
use pair_prices::Case;
use pattern_pricing::Layout;
use patterns::Allowed;
use ratio::{Ratio, Width};
use station_rows::{
    FractionPlan, fraction_plan, least_points_bound_plans, points_are_plans, weights_of_point,
};
use std::alloc::{AllocError, Global};

/// The bound that the climbed leaf gives.
#[allow(unused_variables)]
pub(crate) fn weak_bound(
    case: &Case,
    allowed: &Allowed,
    climbed: Climbed,
    cause: WeakCause,
) -> WeakBound
    requires stands { LeafStands case.now allowed.now.lists climbed.leaf }
    requires worth { climbed.worth ≡ answer_of case.now (numbers_of climbed.leaf) }
    requires plain { IsAtLeastPlain case.now allowed.now.lists climbed.leaf }
    ensures weak { IsWeak case.now allowed.now.lists result }
    ensures cause { result.cause ≡ cause }
{
    let Climbed { leaf, worth, .. } = climbed;
    let value = Ratio::new(worth.value, leaf.q);
    WeakBound { value, leaf, cause }
}

/// The bound of a least point with duals that show it: exact, or that of the climbed leaf where the duals' numbers are too
/// great for a leaf.
pub(crate) fn exact_end(
    alloc: Global,
    case: &Case,
    allowed: &Allowed,
    layout: &Layout,
    solved: &Solved,
    climbed: Climbed,
    width: &mut Width,
) -> Result<Relaxed, AllocError>
    requires lists { FitsBook allowed.now.lists case.now.book }
    requires layout { IsLayoutOf case.now layout.now }
    requires same { layout.now.lists ≡ allowed.now.lists }
    requires solved { IsSolved case.now layout.now solved.now }
    requires stands { LeafStands case.now allowed.now.lists climbed.leaf }
    requires worth { climbed.worth ≡ answer_of case.now (numbers_of climbed.leaf) }
    requires plain { IsAtLeastPlain case.now allowed.now.lists climbed.leaf }
    ensures bound { IfOk result (λ r. MatchRelaxed r (IsExact case.now allowed.now.lists) (IsWeak case.now allowed.now.lists)) }
    ensures cause { IfOk result (λ r. IfWeakBound r (λ w. IsEndCause width.old width.new w.cause)) }
    ensures ledger { width.old ≤ width.new }
{
    match leaf_of_duals(alloc, case, allowed, layout, &solved.duals, width) {
        Ok(leaf) => {
            let fraction = plan_of(alloc, case, allowed, layout, &solved.point)?;
            let bound = exact_bound(case, allowed, layout, solved, leaf, fraction);
            Ok(Relaxed::Exact(bound))
        }
        Err(DualFault::Memory) => Err(AllocError),
        Err(DualFault::Left) => {
            let bound = weak_bound(case, allowed, climbed, WeakCause::Left);
            Ok(Relaxed::Weak(bound))
        }
        Err(DualFault::Scale(number)) => {
            let bound = weak_bound(case, allowed, climbed, WeakCause::Scale(number));
            Ok(Relaxed::Weak(bound))
        }
    }
}

/// The fractional plan of a point at which all rows hold.
fn plan_of(
    alloc: Global,
    case: &Case,
    allowed: &Allowed,
    layout: &Layout,
    point: &Point,
) -> Result<FractionPlan, AllocError>
    requires lists { FitsBook allowed.now.lists case.now.book }
    requires layout { IsLayoutOf case.now layout.now }
    requires same { layout.now.lists ≡ allowed.now.lists }
    requires rows { MeetsAll case.now layout.now point.now }
    requires scale { point.now.scale ≤ℤ pos (10 ^ 24) }
    ensures within { IfOk result (λ plan. IsPlanWithin case.now layout.now point.now (fraction_of_plan plan)) }
    ensures written { IfOk result (IsWritten case.now allowed.now.lists) }
{
    points_are_plans();
    let weights = weights_of_point(alloc, layout, point)?;
    let plan = fraction_plan(alloc, case, allowed, weights)?;
    Ok(plan)
}

/// The bound of a leaf of the value of the duals, and a fractional plan of the point.
#[allow(unused_variables)]
fn exact_bound(
    case: &Case,
    allowed: &Allowed,
    layout: &Layout,
    solved: &Solved,
    leaf: Leaf,
    fraction: FractionPlan,
) -> ExactBound
    requires lists { FitsBook allowed.now.lists case.now.book }
    requires layout { IsLayoutOf case.now layout.now }
    requires same { layout.now.lists ≡ allowed.now.lists }
    requires solved { IsSolved case.now layout.now solved.now }
    requires stands { LeafStands case.now allowed.now.lists leaf }
    requires value { value_of case.now (numbers_of leaf) *ℤ solved.now.duals.scale ≡ valued_leasts solved.now.duals.rows solved.now.duals.values *ℤ leaf.q }
    requires plan { IsPlanWithin case.now layout.now solved.now.point (fraction_of_plan fraction) }
    requires written { IsWritten case.now allowed.now.lists fraction }
    ensures { IsExact case.now allowed.now.lists result }
{
    least_points_bound_plans();
    let value = worth_of(case, allowed, &leaf);
    ExactBound {
        value,
        leaf,
        fraction,
    }
}

/// The leaf's value over its scale.
fn worth_of(case: &Case, allowed: &Allowed, leaf: &Leaf) -> Ratio
    requires lists { FitsBook allowed.now.lists case.now.book }
    requires stands { LeafStands case.now allowed.now.lists leaf.now }
    ensures { IsWorth case.now leaf.now result }
{
    match leaf_check(case, allowed, leaf) {
        Ok(found) => Ratio::new(found.value, leaf.q),
        Err(_) => unreachable!(),
    }
}
