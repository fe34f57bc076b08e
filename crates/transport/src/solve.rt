//! The whole table: weight is placed in the rows and columns that have some, and potentials are given
//! to all of them last.

ghost use Rattle.std.specs.Prelude.{◌≡◌, ℕ, ◌<◌, ◌≤◌, ◌*◌, ◌^◌, length, map, slice_index, sum, sum_by, IfOk, All};
ghost use Rattle.transport.specs.Core.{IsSolved, cost_in};
ghost use Rattle.transport.specs.Kept.{IsPlacement, IsShownSolved, IsSolvedAt, kept_from};

use crate::Cost;
use crate::entries::Entry;
use crate::kept::{SomeColumns, SomeRows, places_of, weights_at, whole_entries};
use crate::plan::{Placement, place};
use crate::spread::{spread_columns, spread_rows};
use std::alloc::{AllocError, Global};

/// The weights placed, and the lifted potentials.
#[derive(Drop)]
pub struct Solved {
    pub entries: Vec<Entry>,
    pub rows: Vec<u64>,
    pub columns: Vec<u64>,
}

/// Places the weights in the table of the rows and columns that have some.
fn place_kept<C: Cost>(
    alloc: Global,
    part: &C,
    left: &[u128],
    right: &[u128],
    rows: &[usize],
    columns: &[usize],
) -> Result<Placement, AllocError>
    requires rows { rows.now ≡ kept_from 0 left.now }
    requires columns { columns.now ≡ kept_from 0 right.now }
    requires row_count { C.row_count part.now ≡ length rows.now }
    requires column_count { C.column_count part.now ≡ length columns.now }
    requires totals { sum left.now ≡ sum right.now }
    requires scale { sum left.now < 2 ^ 126 }
    ensures { IfOk result (λ p. IsPlacement (C.table part.now) (map (slice_index left.now) rows.now)
        (map (slice_index right.now) columns.now) p.entries.items p.rows.items p.columns.items) }
{
    let supply = weights_at(alloc, left, rows)?;
    let demand = weights_at(alloc, right, columns)?;
    place(alloc, part, &supply, &demand)
}

/// Places the weights, where the rows and columns with weight are known, and gives each row and
/// column a potential.
fn solve_kept<C: Cost>(
    alloc: Global,
    cost: &C,
    left: &[u128],
    right: &[u128],
    rows: &[usize],
    columns: &[usize],
) -> Result<Solved, AllocError>
    requires left { length left.now ≡ C.row_count cost.now }
    requires right { length right.now ≡ C.column_count cost.now }
    requires rows { rows.now ≡ kept_from 0 left.now }
    requires columns { columns.now ≡ kept_from 0 right.now }
    requires totals { sum left.now ≡ sum right.now }
    requires scale { sum left.now < 2 ^ 126 }
    ensures { IfOk result (λ s.
        IsSolved (C.table cost.now) left.now right.now s.entries.items s.rows.items s.columns.items) }
{
    let some_rows = SomeRows { cost, rows };
    let part = SomeColumns {
        cost: &some_rows,
        columns,
    };
    let placed = place_kept(alloc, &part, left, right, rows, columns)?;
    let column_prices = spread_columns(alloc, &some_rows, &placed.rows)?;
    let row_prices = spread_rows(alloc, cost, &column_prices)?;
    let entries = whole_entries(alloc, &placed.entries, rows, columns)?;
    Ok(Solved {
        entries,
        rows: row_prices,
        columns: column_prices,
    })
}

/// Places all weight at least cost, and gives each row and each column a potential.
pub fn solve<C: Cost>(
    alloc: Global,
    cost: &C,
    left: &[u128],
    right: &[u128],
) -> Result<Solved, AllocError>
    requires rows { length left.now ≡ C.row_count cost.now }
    requires columns { length right.now ≡ C.column_count cost.now }
    requires totals { sum left.now ≡ sum right.now }
    requires scale { sum left.now < 2 ^ 126 }
    ensures { IfOk result (λ s.
        IsSolved (C.table cost.now) left.now right.now s.entries.items s.rows.items s.columns.items) }
{
    let rows = places_of(alloc, left)?;
    let columns = places_of(alloc, right)?;
    solve_kept(alloc, cost, left, right, &rows, &columns)
}

/// Places the weights at least cost, where the rows and columns with weight are known.
fn entries_kept<C: Cost>(
    alloc: Global,
    cost: &C,
    left: &[u128],
    right: &[u128],
    rows: &[usize],
    columns: &[usize],
) -> Result<Vec<Entry>, AllocError>
    requires left { length left.now ≡ C.row_count cost.now }
    requires right { length right.now ≡ C.column_count cost.now }
    requires rows { rows.now ≡ kept_from 0 left.now }
    requires columns { columns.now ≡ kept_from 0 right.now }
    requires totals { sum left.now ≡ sum right.now }
    requires scale { sum left.now < 2 ^ 126 }
    ensures { IfOk result (λ es. IsShownSolved (C.table cost.now) left.now right.now es.items) }
{
    let some_rows = SomeRows { cost, rows };
    let part = SomeColumns {
        cost: &some_rows,
        columns,
    };
    let placed = place_kept(alloc, &part, left, right, rows, columns)?;
    let entries = whole_entries(alloc, &placed.entries, rows, columns)?;
    Ok(entries)
}

/// Places all weight at least cost. No potentials are spread.
pub fn solve_entries<C: Cost>(
    alloc: Global,
    cost: &C,
    left: &[u128],
    right: &[u128],
) -> Result<Vec<Entry>, AllocError>
    requires rows { length left.now ≡ C.row_count cost.now }
    requires columns { length right.now ≡ C.column_count cost.now }
    requires totals { sum left.now ≡ sum right.now }
    requires scale { sum left.now < 2 ^ 126 }
    ensures { IfOk result (λ es. IsShownSolved (C.table cost.now) left.now right.now es.items) }
{
    let rows = places_of(alloc, left)?;
    let columns = places_of(alloc, right)?;
    entries_kept(alloc, cost, left, right, &rows, &columns)
}

/// What an entry costs.
fn entry_cost<C: Cost>(cost: &C, entry: &Entry) -> u128
    requires row { entry.now.row < C.row_count cost.now }
    requires column { entry.now.column < C.column_count cost.now }
    requires fits { entry.now.weight ≤ 10 ^ 24 }
    ensures value { result ≡ C.table cost.now entry.now.row entry.now.column * entry.now.weight }
    ensures most { result ≤ 10 ^ 13 * entry.now.weight }
{
    cost.cost(entry.row, entry.column) as u128 * entry.weight
}

/// What the entries cost.
fn total_cost<C: Cost>(cost: &C, entries: &[Entry]) -> u128
    requires rows { All (λ e. e.row < C.row_count cost.now) entries.now }
    requires columns { All (λ e. e.column < C.column_count cost.now) entries.now }
    requires fits { sum_by (λ e. e.weight) entries.now ≤ 10 ^ 24 }
    ensures value { result ≡ cost_in (C.table cost.now) entries.now }
    ensures most { result ≤ 10 ^ 37 }
{
    let mut total = 0;
    for entry in entries {
        total += entry_cost(cost, entry);
    }
    total
}

/// The least cost of placing the weights, where the rows and columns with weight are known.
fn cost_kept<C: Cost>(
    alloc: Global,
    cost: &C,
    left: &[u128],
    right: &[u128],
    rows: &[usize],
    columns: &[usize],
) -> Result<u128, AllocError>
    requires left { length left.now ≡ C.row_count cost.now }
    requires right { length right.now ≡ C.column_count cost.now }
    requires rows { rows.now ≡ kept_from 0 left.now }
    requires columns { columns.now ≡ kept_from 0 right.now }
    requires totals { sum left.now ≡ sum right.now }
    requires scale { sum left.now ≤ 10 ^ 24 }
    ensures solved { IfOk result (λ n. IsSolvedAt (C.table cost.now) left.now right.now n) }
    ensures most { IfOk result (λ n. n ≤ 10 ^ 37) }
{
    let some_rows = SomeRows { cost, rows };
    let part = SomeColumns {
        cost: &some_rows,
        columns,
    };
    let placed = place_kept(alloc, &part, left, right, rows, columns)?;
    Ok(total_cost(&part, &placed.entries))
}

/// The least cost of placing all weight. No potentials are spread.
pub fn solve_cost<C: Cost>(
    alloc: Global,
    cost: &C,
    left: &[u128],
    right: &[u128],
) -> Result<u128, AllocError>
    requires rows { length left.now ≡ C.row_count cost.now }
    requires columns { length right.now ≡ C.column_count cost.now }
    requires totals { sum left.now ≡ sum right.now }
    requires scale { sum left.now ≤ 10 ^ 24 }
    ensures solved { IfOk result (λ n. IsSolvedAt (C.table cost.now) left.now right.now n) }
    ensures most { IfOk result (λ n. n ≤ 10 ^ 37) }
{
    let rows = places_of(alloc, left)?;
    let columns = places_of(alloc, right)?;
    cost_kept(alloc, cost, left, right, &rows, &columns)
}
