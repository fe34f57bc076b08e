ghost use Rattle.diagram.specs.Signs.{signs};
ghost use Rattle.diagram.specs.Text.{path_line};
ghost use Rattle.diagram.specs.Uses.{count_sign, is_use, next_sign, path_sign, uses_of};
ghost use Rattle.pair_prices.specs.Plan.{Fits, chosen};
ghost use Rattle.patterns.specs.Sound.{IsSound};
ghost use Rattle.station.specs.Shown.{record_of};
ghost use Rattle.std.specs.Prelude.{◌≡◌, ℕ, ◌+◌, ◌++◌, ◌<◌, ◌≤◌, if◌then◌else◌, length, pos, slice_index, IfOk, OnOk};

use crate::lines::push_line;
use crate::names::path_name;
use crate::paint::{count_use, repeated};
use crate::trains::pattern_of;
use pair_prices::{Case, held_path, path_of};
use plan_cost::Plan;
use station::{PathWay, Pattern, Station};
use std::alloc::{AllocError, Global};

/// The signs of a path for `count` minutes.
fn path_row(
    alloc: Global,
    case: &Case,
    plan: &Plan,
    path: usize,
    from: u32,
    count: usize,
) -> Result<Vec<u8>, AllocError>
    requires fits { Fits case.now plan.now.choice }
    requires count { count ≤ 1440 }
    ensures { IfOk result (λ v. v.items ≡ signs (path_sign case.now plan.now.choice path) from count) }
{
    let mut row = repeated(alloc, b'.', count)?;
    count_uses(case, plan, path, from, &mut row);
    Ok(row)
}

/// Counts the uses of the path in a row of points.
fn count_uses(case: &Case, plan: &Plan, path: usize, from: u32, row: &mut [u8])
    requires fits { Fits case.now plan.now.choice }
    requires count { length row.old ≤ 1440 }
    requires points { (k : ℕ) → k < length row.old → slice_index row.old k ≡ 46 }
    ensures length { length row.new ≡ length row.old }
    ensures signs { (k : ℕ) → k < length row.old → slice_index row.new k ≡ path_sign case.now plan.now.choice path (pos (from + k)) }
{
    let trains = case.book().trains();
    for train in 0..trains {
        let pattern = pattern_of(case, plan, train);
        count_train(case.station(), &pattern, path, from, row);
    }
}

fn count_train(station: &Station, x: &Pattern, path: usize, from: u32, row: &mut [u8])
    requires sound { IsSound (record_of station.now) x.now }
    requires count { length row.old ≤ 1440 }
    ensures length { length row.new ≡ length row.old }
    ensures signs { (k n : ℕ) → k < length row.old → slice_index row.old k ≡ count_sign n →
        slice_index row.new k ≡ count_sign (n + uses_of (record_of station.now) path (pos (from + k)) x.now) }
{
    count_way(station, PathWay::In, x, path, from, row);
    count_way(station, PathWay::Out, x, path, from, row);
}

fn count_way(station: &Station, way: PathWay, x: &Pattern, path: usize, from: u32, row: &mut [u8])
    requires sound { IsSound (record_of station.now) x.now }
    requires count { length row.old ≤ 1440 }
    ensures length { length row.new ≡ length row.old }
    ensures signs { (k : ℕ) → k < length row.old →
        slice_index row.new k ≡ (if is_use (record_of station.now) way x.now path (pos (from + k)) then next_sign (slice_index row.old k) else slice_index row.old k) }
{
    let Some(used) = path_of(way, x) else {
        return;
    };
    if used as usize != path {
        return;
    }
    let span = held_path(station, way, x, used);
    count_use(row, from, &span);
}

pub(crate) fn push_path(
    alloc: Global,
    case: &Case,
    plan: &Plan,
    path: usize,
    from: u32,
    count: usize,
    into: &mut Vec<u8>,
) -> Result<(), AllocError>
    requires fits { Fits case.now plan.now.choice }
    requires count { count ≤ 1440 }
    ensures { OnOk result (into.new.items ≡ into.old.items ++ path_line case.now plan.now.choice from count path) }
{
    let row = path_row(alloc, case, plan, path, from, count)?;
    push_line(alloc, path_name(case.station(), path), &row, into)
}
