// A look for a row that doesn't hold at a point: uses of platforms first, then minutes of platforms, then pairs of trains.
ghost use Rattle.clique_cuts.specs.Over.{NoneOver, fraction_of};
ghost use Rattle.exact_lp.specs.declared.row.Row.{Row};
ghost use Rattle.exact_lp.specs.Programs.{Holds};
ghost use Rattle.master_lp.specs.Looks.{AreRead, IsOff, IsOverUsed, UsesFit};
ghost use Rattle.master_lp.specs.Source.{MeetsOpening};
ghost use Rattle.pair_classes.specs.Meetings.{AreMeetings};
ghost use Rattle.pattern_pricing.specs.Prices.{IsLayoutOf};
ghost use Rattle.station_rows.specs.Rows.{StandsIn};
ghost use Rattle.std.specs.Prelude.{◌≡◌, ◌^◌, length, pos, ◌≤ℤ◌, IfOk, MatchOption};

use crate::cliques::clique_off;
use crate::minutes::Minutes;
use crate::pairs::worst_pair;
use exact_lp::{Point, Row};
use pair_classes::Meetings;
use pair_prices::Case;
use pattern_pricing::Layout;
use patterns::{Allowed, Weights};
use station_rows::{pair_row, use_row, weights_of_point};
use std::alloc::{AllocError, Global};

/// A row that stands and doesn't hold at the point, at which the opening rows hold. `None` comes only where every row that
/// stands holds. Uses above the scale come first, then minutes of platforms, then the cut on a pair of trains that is worth most
/// beside the point's value of the two.
///
/// Pairs that can't meet are never looked at: no cut on them is worth more than nothing.
pub(crate) fn violated_row(
    alloc: Global,
    case: &Case,
    allowed: &Allowed,
    layout: &Layout,
    meetings: &Meetings,
    minutes: &Minutes,
    point: &Point,
) -> Result<Option<Row>, AllocError>
    requires layout { IsLayoutOf case.now layout.now }
    requires lists { layout.now.lists ≡ allowed.now.lists }
    requires meetings { AreMeetings case.now meetings.now }
    requires opening { MeetsOpening layout.now point.now }
    requires scale { point.now.scale ≤ℤ pos (10 ^ 24) }
    ensures { IfOk result (λ o. MatchOption o ((row : Row) → StandsIn case.now layout.now row → Holds row point.now)
        (IsOff case.now layout.now point.now)) }
{
    let weights = read_weights(alloc, case, layout, point)?;
    match use_off(alloc, case, layout, point, &weights)? {
        Some(row) => Ok(Some(row)),
        None => violated_beside_uses(
            alloc, case, allowed, layout, meetings, minutes, point, &weights,
        ),
    }
}

/// The same where no use is above the scale.
fn violated_beside_uses(
    alloc: Global,
    case: &Case,
    allowed: &Allowed,
    layout: &Layout,
    meetings: &Meetings,
    minutes: &Minutes,
    point: &Point,
    weights: &Weights,
) -> Result<Option<Row>, AllocError>
    requires layout { IsLayoutOf case.now layout.now }
    requires lists { layout.now.lists ≡ allowed.now.lists }
    requires meetings { AreMeetings case.now meetings.now }
    requires read { AreRead case.now layout.now point.now weights.now }
    requires uses { UsesFit layout.now weights.now }
    ensures { IfOk result (λ o. MatchOption o ((row : Row) → StandsIn case.now layout.now row → Holds row point.now)
        (IsOff case.now layout.now point.now)) }
{
    match clique_off(alloc, case, allowed, layout, minutes, point, weights)? {
        Some(row) => Ok(Some(row)),
        None => violated_beside_cliques(alloc, case, allowed, layout, meetings, point, weights),
    }
}

/// The same where, beside that, no platform is held by more weight than its use.
fn violated_beside_cliques(
    alloc: Global,
    case: &Case,
    allowed: &Allowed,
    layout: &Layout,
    meetings: &Meetings,
    point: &Point,
    weights: &Weights,
) -> Result<Option<Row>, AllocError>
    requires layout { IsLayoutOf case.now layout.now }
    requires lists { layout.now.lists ≡ allowed.now.lists }
    requires meetings { AreMeetings case.now meetings.now }
    requires read { AreRead case.now layout.now point.now weights.now }
    requires uses { UsesFit layout.now weights.now }
    requires held { NoneOver case.now layout.now.lists (fraction_of weights.now) }
    ensures { IfOk result (λ o. MatchOption o ((row : Row) → StandsIn case.now layout.now row → Holds row point.now)
        (IsOff case.now layout.now point.now)) }
{
    match worst_pair(alloc, case, allowed, layout, meetings, point, weights)? {
        Some(excess) => {
            let row = pair_row(alloc, layout, &excess.cut)?;
            Ok(Some(row))
        }
        None => Ok(None),
    }
}

/// The weights and uses of the point.
fn read_weights(
    alloc: Global,
    case: &Case,
    layout: &Layout,
    point: &Point,
) -> Result<Weights, AllocError>
    requires layout { IsLayoutOf case.now layout.now }
    requires opening { MeetsOpening layout.now point.now }
    requires scale { point.now.scale ≤ℤ pos (10 ^ 24) }
    ensures { IfOk result (AreRead case.now layout.now point.now) }
{
    // The columns are those of the case.
    let _case = case;
    let weights = weights_of_point(alloc, layout, point)?;
    Ok(weights)
}

/// The row of the first use that is above the scale.
#[allow(unused_variables)]
fn use_off(
    alloc: Global,
    case: &Case,
    layout: &Layout,
    point: &Point,
    weights: &Weights,
) -> Result<Option<Row>, AllocError>
    requires layout { IsLayoutOf case.now layout.now }
    requires read { AreRead case.now layout.now point.now weights.now }
    ensures { IfOk result (λ o. MatchOption o (UsesFit layout.now weights.now) (IsOff case.now layout.now point.now)) }
{
    match over_used(layout, weights) {
        Some(platform) => {
            let row = use_row(alloc, layout, platform)?;
            Ok(Some(row))
        }
        None => Ok(None),
    }
}

/// The first platform whose use is above the scale.
#[allow(unused_variables)]
fn over_used(layout: &Layout, weights: &Weights) -> Option<usize>
    requires { length weights.now.uses ≡ layout.now.platforms }
    ensures { MatchOption result (UsesFit layout.now weights.now) (IsOverUsed layout.now weights.now) }
{
    let uses = weights.uses.as_slice();
    for platform in 0..uses.len() {
        if weights.scale < uses[platform] {
            return Some(platform);
        }
    }
    None
}
