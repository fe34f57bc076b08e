//! Potentials of rows and columns. They are kept lifted by `LIFT`, so that none is below 0.

ghost use Rattle.std.specs.Prelude.{◌≡◌, ℕ, ◌<◌, ◌≤◌, ◌+◌, ◌-◌, ◌*◌, length, slice_index, true, false};
ghost use Rattle.transport.specs.Core.{lifted, IsReached, mark_at, is_inside};

use crate::Cost;
use crate::search::Mark;

/// The greatest cost.
pub const LIFT: u64 = 10_000_000_000_000;

/// The cost, lifted as a row's and a column's potential together.
pub fn lifted_cost<C: Cost>(cost: &C, row: usize, column: usize) -> u64
    requires row { row < C.row_count cost.now }
    requires column { column < C.column_count cost.now }
    ensures value { result ≡ lifted (C.table cost.now) row column }
    ensures bound { result ≤ 3 * LIFT }
{
    cost.cost(row, column) as u64 + 2 * LIFT
}

/// The greatest potential that a column can have, up to the greatest cost.
pub fn column_most<C: Cost>(cost: &C, rows: &[u64], column: usize) -> u64
    requires rows { length rows.now ≡ C.row_count cost.now }
    requires column { column < C.column_count cost.now }
    requires caps { (i : ℕ) → i < length rows.now → slice_index rows.now i ≤ 2 * LIFT }
    ensures below { (i : ℕ) → i < length rows.now
        → slice_index rows.now i + result ≤ lifted (C.table cost.now) i column }
    ensures greatest { (b : ℕ) → b ≤ 2 * LIFT
        → ((i : ℕ) → i < length rows.now → slice_index rows.now i + b ≤ lifted (C.table cost.now) i column)
        → b ≤ result }
    ensures bound { result ≤ 2 * LIFT }
{
    let mut most = 2 * LIFT;
    for (row, price) in rows.iter().enumerate() {
        most = most.min(lifted_cost(cost, row, column) - *price);
    }
    most
}

/// The greatest potential that a row can have.
pub fn row_most<C: Cost>(cost: &C, columns: &[u64], row: usize) -> u64
    requires columns { length columns.now ≡ C.column_count cost.now }
    requires row { row < C.row_count cost.now }
    requires caps { (j : ℕ) → j < length columns.now
        → slice_index columns.now j ≤ lifted (C.table cost.now) row j }
    ensures below { (j : ℕ) → j < length columns.now
        → result + slice_index columns.now j ≤ lifted (C.table cost.now) row j }
    ensures greatest { (b : ℕ) → b ≤ 3 * LIFT
        → ((j : ℕ) → j < length columns.now → b + slice_index columns.now j ≤ lifted (C.table cost.now) row j)
        → b ≤ result }
    ensures bound { result ≤ 3 * LIFT }
{
    let mut most = 3 * LIFT;
    for (column, price) in columns.iter().enumerate() {
        most = most.min(lifted_cost(cost, row, column) - *price);
    }
    most
}

/// Raises the potential of each row that was reached.
pub fn raise_rows(rows: &mut [u64], marks: &[Mark], gap: u64)
    requires lengths { length marks.now ≡ length rows.old }
    requires caps { (i : ℕ) → i < length rows.old → IsReached marks.now i
        → slice_index rows.old i + gap ≤ 2 * LIFT }
    ensures reached { (i : ℕ) → i < length rows.old → IsReached marks.now i
        → slice_index rows.new i ≡ slice_index rows.old i + gap }
    ensures others { (i : ℕ) → i < length rows.old → (mark_at marks.now i).order ≡ 0
        → slice_index rows.new i ≡ slice_index rows.old i }
{
    for (row, price) in rows.iter_mut().enumerate() {
        if marks[row].is_reached() {
            *price += gap;
        }
    }
}

/// Lowers the potential of each column inside, down to 0.
pub fn lower_columns(columns: &mut [u64], inside: &[bool], gap: u64)
    requires lengths { length inside.now ≡ length columns.old }
    ensures inside { (j : ℕ) → j < length columns.old → is_inside inside.now j ≡ true
        → slice_index columns.new j ≡ slice_index columns.old j - gap }
    ensures others { (j : ℕ) → j < length columns.old → is_inside inside.now j ≡ false
        → slice_index columns.new j ≡ slice_index columns.old j }
{
    for (column, price) in columns.iter_mut().enumerate() {
        if inside[column] {
            *price = price.saturating_sub(gap);
        }
    }
}
