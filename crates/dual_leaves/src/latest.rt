ghost use Rattle.dual_leaves.specs.Latest.{arrival_or, IsLatest, IsListed};
ghost use Rattle.exact_lp.specs.Outcomes.{NamesBelow};
ghost use Rattle.patterns.specs.Allowed.{FitsBook};
ghost use Rattle.pattern_pricing.specs.Layout.{columns_of};
ghost use Rattle.std.specs.Prelude.{◌≡◌, length, pos, neg_ℤ, ◌≤ℤ◌};

use crate::numbers::numbers_in;
use exact_lp::Row;
use pair_prices::Case;
use pattern_pricing::{Column, Layout};
use patterns::Allowed;

/// The first minute at which a pattern may arrive.
pub(crate) const FIRST_MINUTE: i32 = -30;

/// The latest arrival of the patterns at which the row has a value, and the first minute where there is none. At that minute all of
/// them hold their platform, if they hold it together at some minute.
pub(crate) fn latest_arrival(case: &Case, allowed: &Allowed, layout: &Layout, row: &Row) -> i32
    requires lists { FitsBook allowed.now.lists case.now.book }
    requires same { layout.now.lists ≡ allowed.now.lists }
    requires below { NamesBelow (length (columns_of layout.now)) row.now }
    ensures { IsLatest case.now layout.now row.now result }
{
    let mut latest = FIRST_MINUTE;
    let cells = row.cells.as_slice();
    for cell in cells {
        let column = layout.column(cell.column);
        latest = latest.max(arrival_or(case, allowed, &column, &cell.value));
    }
    latest
}

/// When the column's pattern arrives, where the column is one of a pattern and the value isn't 0; otherwise the first minute.
fn arrival_or(case: &Case, allowed: &Allowed, column: &Column, value: &i128) -> i32
    requires lists { FitsBook allowed.now.lists case.now.book }
    requires there { IsListed allowed.now.lists column.now }
    ensures value { result ≡ arrival_or case.now allowed.now.lists column.now value.now }
    ensures first { neg_ℤ (pos 30) ≤ℤ result }
    ensures last { result ≤ℤ pos 2909 }
{
    match column {
        Column::Weight(at) if *value != 0 => {
            let number = numbers_in(allowed, at.train)[at.place];
            let _limits = case.station();
            case.book().get(at.train, number).arrive
        }
        _ => FIRST_MINUTE,
    }
}
