//! What rows pay of the columns' prices.

ghost use Rattle.exact_lp.specs.Columns.{value_at};
ghost use Rattle.ratio.specs.Ledger.{Raised};
ghost use Rattle.exact_lp.specs.Programs.{paid_by_rows};
ghost use Rattle.pattern_pricing.specs.Reduced.{HaveRoom, at, cell_sizes, paid_by_cell, paid_sizes};
ghost use Rattle.std.specs.Prelude.{◌≡◌, ℕ, ◌≤◌, ◌<◌, length, ◌*ℤ◌, ◌-ℤ◌, unsigned_abs, OnOk, OnErr};

use exact_lp::{Duals, Row, RowCell};
use ratio::whole::{difference, product};
use ratio::{Left, Width};

/// Takes from each column's number what all rows pay of it.
pub(crate) fn pay_rows(reduced: &mut [i128], duals: &Duals, width: &mut Width) -> Result<(), Left>
    ensures value { OnOk result ((column : ℕ) → column < length reduced.old
        → at reduced.new column ≡ at reduced.old column -ℤ paid_by_rows duals.now.rows duals.now.values column) }
    ensures ledger { width.old ≤ width.new }
    ensures left { OnErr result (Raised width.old width.new) }
    ensures never { OnErr result (¬ (HaveRoom reduced.old (paid_sizes duals.now.rows duals.now.values))) }
{
    let rows = duals.rows.as_slice();
    let values = duals.values.as_slice();
    for place in 0..rows.len() {
        pay_row(reduced, &rows[place], &values[place], width)?;
    }
    Ok(())
}

/// Takes what one row of this value pays.
fn pay_row(reduced: &mut [i128], row: &Row, value: &i128, width: &mut Width) -> Result<(), Left>
    ensures value { OnOk result ((column : ℕ) → column < length reduced.old
        → at reduced.new column ≡ at reduced.old column -ℤ value.now *ℤ value_at row.now.cells column) }
    ensures ledger { width.old ≤ width.new }
    ensures left { OnErr result (Raised width.old width.new) }
    ensures never { OnErr result (¬ (HaveRoom reduced.old (cell_sizes value.now row.now.cells))) }
{
    if *value == 0 {
        return Ok(());
    }
    let cells = row.cells.as_slice();
    for cell in cells {
        pay_cell(reduced, cell, value, width)?;
    }
    Ok(())
}

/// Takes what one of its cells pays. A cell behind the last column pays nothing.
fn pay_cell(
    reduced: &mut [i128],
    cell: &RowCell,
    value: &i128,
    width: &mut Width,
) -> Result<(), Left>
    ensures value { OnOk result ((column : ℕ) → column < length reduced.old
        → at reduced.new column ≡ at reduced.old column -ℤ paid_by_cell value.now cell.now column) }
    ensures ledger { width.old ≤ width.new }
    ensures left { OnErr result (Raised width.old width.new) }
    ensures never { OnErr result (¬ (HaveRoom reduced.old (unsigned_abs (value.now *ℤ cell.now.value)))) }
{
    let column = cell.column as usize;
    if column >= reduced.len() {
        return Ok(());
    }
    let paid = product(*value, cell.value, width)?;
    reduced[column] = difference(reduced[column], paid, width)?;
    Ok(())
}
