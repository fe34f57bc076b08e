//! The potentials of all rows and columns, from those of the rows with weight.

ghost use Rattle.std.specs.Prelude.{◌≡◌, ℕ, ◌<◌, ◌≤◌, ◌+◌, ◌*◌, length, slice_index, IfOk};
ghost use Rattle.transport.specs.Core.{IsFeasible, lifted};
ghost use Rattle.transport.specs.Spread.{AreMostColumns, AreMostRows};

use crate::Cost;
use crate::potentials::{LIFT, column_most, row_most};
use std::alloc::{AllocError, Global};

/// The greatest potential of each column, beside those of the rows.
pub fn spread_columns<C: Cost>(
    alloc: Global,
    cost: &C,
    rows: &[u64],
) -> Result<Vec<u64>, AllocError>
    requires rows { length rows.now ≡ C.row_count cost.now }
    requires caps { (i : ℕ) → i < length rows.now → slice_index rows.now i ≤ 2 * LIFT }
    ensures length { IfOk result (λ v. length v.items ≡ C.column_count cost.now) }
    ensures most { IfOk result (λ v. AreMostColumns (C.table cost.now) rows.now v.items) }
{
    let mut columns = Vec::new(alloc);
    for column in 0..cost.columns() {
        columns.push(column_most(cost, rows, column))?;
    }
    Ok(columns)
}

/// The greatest potential of each row, beside those of the columns.
pub fn spread_rows<C: Cost>(
    alloc: Global,
    cost: &C,
    columns: &[u64],
) -> Result<Vec<u64>, AllocError>
    requires columns { length columns.now ≡ C.column_count cost.now }
    requires caps { (j : ℕ) → j < length columns.now → slice_index columns.now j ≤ 2 * LIFT }
    ensures length { IfOk result (λ v. length v.items ≡ C.row_count cost.now) }
    ensures most { IfOk result (λ v. AreMostRows (C.table cost.now) columns.now v.items) }
{
    let mut rows = Vec::new(alloc);
    for row in 0..cost.rows() {
        rows.push(row_most(cost, columns, row))?;
    }
    Ok(rows)
}
