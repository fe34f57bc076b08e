// Minutes of platforms that are held by more weight than the use.
ghost use Rattle.clique_cuts.specs.Over.{NoneOver, fraction_of};
ghost use Rattle.exact_lp.specs.Columns.{value_at, weighed_sum};
ghost use Rattle.exact_lp.specs.Programs.{Holds};
ghost use Rattle.master_lp.specs.Looks.{AreRead, IsOff};
ghost use Rattle.pattern_pricing.specs.Prices.{IsLayoutOf};
ghost use Rattle.std.specs.Prelude.{◌≡◌, ◌<◌, length, IsTrue, IfOk, IfSome, MatchOption};

use crate::minutes::Minutes;
use clique_cuts::{CliqueCut, violated_clique};
use exact_lp::{ColumnWeight, Point, Row};
use pair_prices::Case;
use pattern_pricing::Layout;
use patterns::{Allowed, Weights};
use station_rows::clique_row;
use std::alloc::{AllocError, Global};

/// The row of a minute at which a platform is held by more weight than its use: of the first of `minutes`, or else of the first
/// minute of all. `None` comes only where no platform is.
pub(crate) fn clique_off(
    alloc: Global,
    case: &Case,
    allowed: &Allowed,
    layout: &Layout,
    minutes: &Minutes,
    point: &Point,
    weights: &Weights,
) -> Result<Option<Row>, AllocError>
    requires layout { IsLayoutOf case.now layout.now }
    requires lists { layout.now.lists ≡ allowed.now.lists }
    requires read { AreRead case.now layout.now point.now weights.now }
    ensures { IfOk result (λ o. MatchOption o (NoneOver case.now layout.now.lists (fraction_of weights.now)) (IsOff case.now layout.now point.now)) }
{
    match preferred_off(alloc, case, allowed, layout, minutes, point, weights)? {
        Some(row) => Ok(Some(row)),
        None => first_off(alloc, case, allowed, layout, point, weights),
    }
}

/// The row of the first minute of all at which a platform is held by more weight than its use.
#[allow(unused_variables)]
fn first_off(
    alloc: Global,
    case: &Case,
    allowed: &Allowed,
    layout: &Layout,
    point: &Point,
    weights: &Weights,
) -> Result<Option<Row>, AllocError>
    requires layout { IsLayoutOf case.now layout.now }
    requires lists { layout.now.lists ≡ allowed.now.lists }
    requires read { AreRead case.now layout.now point.now weights.now }
    ensures { IfOk result (λ o. MatchOption o (NoneOver case.now layout.now.lists (fraction_of weights.now)) (IsOff case.now layout.now point.now)) }
{
    match violated_clique(case, allowed, weights) {
        Some(cut) => {
            let row = clique_row(alloc, case, layout, &cut)?;
            Ok(Some(row))
        }
        None => Ok(None),
    }
}

/// The row of the first of the minutes with too much weight, where it surely doesn't hold.
fn preferred_off(
    alloc: Global,
    case: &Case,
    allowed: &Allowed,
    layout: &Layout,
    minutes: &Minutes,
    point: &Point,
    weights: &Weights,
) -> Result<Option<Row>, AllocError>
    requires layout { IsLayoutOf case.now layout.now }
    requires read { AreRead case.now layout.now point.now weights.now }
    ensures { IfOk result (λ o. IfSome o (IsOff case.now layout.now point.now)) }
{
    let Some(cut) = minutes.first(alloc, case, allowed, layout, point, weights)? else {
        return Ok(None);
    };
    if cut.platform as usize >= layout.platforms() {
        return Ok(None);
    }
    row_off(alloc, case, layout, point, &cut)
}

/// The row of the minute, where it surely doesn't hold.
fn row_off(
    alloc: Global,
    case: &Case,
    layout: &Layout,
    point: &Point,
    cut: &CliqueCut,
) -> Result<Option<Row>, AllocError>
    requires layout { IsLayoutOf case.now layout.now }
    requires platform { cut.now.platform < layout.now.platforms }
    ensures { IfOk result (λ o. IfSome o (IsOff case.now layout.now point.now)) }
{
    let row = clique_row(alloc, case, layout, cut)?;
    if falls_short(&row, point) {
        return Ok(Some(row));
    }
    Ok(None)
}

/// Whether the row surely doesn't hold at the point.
fn falls_short(row: &Row, point: &Point) -> bool
    ensures { IsTrue result → ¬ (Holds row.now point.now) }
{
    let Some(total) = row_at(row, point.weights.as_slice()) else {
        return false;
    };
    let Some(least) = row.least.checked_mul(point.scale) else {
        return false;
    };
    !row.equal && total < least
}

/// What the row has at the weights, where it is a number of 128 bits.
fn row_at(row: &Row, weights: &[ColumnWeight]) -> Option<i128>
    ensures { IfSome result (λ total. total ≡ weighed_sum (value_at row.now.cells) weights.now) }
{
    let mut total = 0i128;
    for weight in weights {
        let part = row.value(weight.column).checked_mul(weight.weight)?;
        total = total.checked_add(part)?;
    }
    Some(total)
}
