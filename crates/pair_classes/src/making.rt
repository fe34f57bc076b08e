// The classes of one pair of trains.
ghost use Rattle.pair_classes.specs.Classes.{ArePriced};
ghost use Rattle.pair_classes.specs.Meetings.{AreFree, IsFound};
ghost use Rattle.pair_classes.specs.Windows.{AreWindows};
ghost use Rattle.std.specs.Prelude.{◌≡◌, ◌<◌, ◌≤◌, length, IfOk, IsTrue};

use crate::classes::Classes;
use crate::columns::{across, columns, joined};
use crate::group::group;
use crate::meeting::Meeting;
use crate::window::apart;
use pair_prices::Case;
use path_conflicts::Held;
use std::alloc::{AllocError, Global};

/// How many prices of one pair are looked at: 256 patterns by 256, more than trains with some minutes of shift and two paths a
/// way have. The table takes at most half a megabyte.
const PRICES_OF_PAIR: usize = 65_536;

/// The entry of two trains, or None where no two of their patterns can meet. `left` counts down the prices that may still be
/// looked at.
pub(crate) fn meeting(
    alloc: Global,
    case: &Case,
    windows: &[Held],
    first: usize,
    second: usize,
    left: &mut usize,
) -> Result<Option<Meeting>, AllocError>
    requires order { first < second }
    requires second { second < length case.now.book }
    requires windows { AreWindows case.now windows.now }
    ensures { IfOk result (IsFound case.now first second) }
{
    if are_trains_apart(case, windows, first, second) {
        return Ok(None);
    }
    if !may_look(case.book().count(first) * case.book().count(second), left) {
        return Ok(Some(Meeting {
            first,
            second,
            classes: None,
        }));
    }
    let classes = classes_of(alloc, case, first, second)?;
    if classes.are_free() {
        return Ok(None);
    }
    Ok(Some(Meeting {
        first,
        second,
        classes: Some(classes),
    }))
}

/// Whether the windows of the two trains are apart, so that no two of their patterns can meet.
fn are_trains_apart(case: &Case, windows: &[Held], first: usize, second: usize) -> bool
    requires order { first < second }
    requires second { second < length case.now.book }
    requires windows { AreWindows case.now windows.now }
    ensures { IsTrue result → AreFree case.now first second }
{
    let _station = case.station();
    apart(&windows[first], &windows[second])
}

/// Whether so many prices may be looked at, and if so, counts them.
fn may_look(prices: usize, left: &mut usize) -> bool {
    if PRICES_OF_PAIR < prices || *left < prices {
        return false;
    }
    *left -= prices;
    true
}

/// The patterns of the second train by their prices beside all of the first, and then those of the first by their prices
/// beside one of each class.
fn classes_of(
    alloc: Global,
    case: &Case,
    first: usize,
    second: usize,
) -> Result<Classes, AllocError>
    requires order { first < second }
    requires second { second < length case.now.book }
    ensures { IfOk result (ArePriced case.now first second) }
{
    let _station = case.station();
    let columns = columns(alloc, case, first, second)?;
    let by_column = group(alloc, &columns)?;
    let rows = across(alloc, &columns, &by_column.heads, case.book().count(first))?;
    let by_row = group(alloc, &rows)?;
    let prices = joined(alloc, &rows, &by_row.heads)?;
    Ok(Classes {
        rows: by_row.heads.len(),
        columns: by_column.heads.len(),
        of_first: by_row.classes,
        of_second: by_column.classes,
        prices,
    })
}
