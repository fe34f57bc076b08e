ghost use Rattle.std.specs.Prelude.{◌≡◌, ℕ, ◌≤◌, ◌<◌, ◌^◌, ◌↔◌, All, pos, ◌*ℤ◌, ◌≤ℤ◌, ◌<ℤ◌, IfOk, IfSome, IfNone, OnErr, IsErrOf, slice_index_or, length};
ghost use Rattle.ratio.specs.Ledger.{Raised};
ghost use Rattle.exact_lp.specs.Programs.{Improves, paid_by_rows, reduced_price};

use exact_lp::{Columns, Duals, Listed, LpFault, Row, RowCell};
use ratio::whole::{difference, product, sum};
use ratio::{Left, Width};
use std::alloc::Global;

/// Columns of listed prices, and further ones of one price.
#[derive(Drop)]
pub struct Prices {
    pub listed: Listed<u32>,
    pub rest: u32,
    pub count: u64,
    ghost bound: { count ≤ 2 ^ 40 },
}

impl Columns for Prices {
    ghost column_count = { λ p. p.count };

    ghost column_price = { λ p column. slice_index_or p.listed column p.rest };

    fn count(&self) -> u64 {
        self.count
    }

    fn price(&self, column: u64) -> i64 {
        price_among(self.listed.as_slice(), self.rest, column)
    }

    /// The first column with a negative reduced price. Behind the listed columns and those that a row names, each has the
    /// reduced price of one that no row names, which is at least 0.
    fn improving(
        &self,
        _alloc: Global,
        duals: &Duals,
        width: &mut Width,
    ) -> Result<Option<u64>, LpFault> {
        let last = last_named(duals.rows.as_slice());
        let listed = self.listed.as_slice().len() as u64;
        let end = listed.max(last.saturating_add(1)).min(self.count);
        for column in 0..end {
            let reduced = reduced_price_of(duals, self.price(column), column, width)?;
            if reduced < 0 {
                return Ok(Some(column));
            }
        }
        Ok(None)
    }
}

fn price_among(listed: &[u32], rest: u32, column: u64) -> i64
    ensures { result ≡ pos (slice_index_or listed.now column rest) }
{
    let price = listed.get(column as usize).copied().unwrap_or(rest);
    i64::from(price)
}

/// The greatest column that a row names.
fn last_named(rows: &[Row]) -> u64
    ensures { All (λ row. All (λ cell. cell.column ≤ result) row.cells) rows.now }
{
    let mut last = 0;
    for row in rows {
        last = last_among(row.cells.as_slice(), last);
    }
    last
}

/// The greatest column of the cells, or that of before.
fn last_among(cells: &[RowCell], before: u64) -> u64
    ensures kept { before ≤ result }
    ensures last { All (λ cell. cell.column ≤ result) cells.now }
{
    let mut last = before;
    for cell in cells {
        last = last.max(cell.column);
    }
    last
}

/// A column's reduced price.
fn reduced_price_of(duals: &Duals, price: i64, column: u64, width: &mut Width) -> Result<i128, Left>
    ensures value { IfOk result (λ reduced. reduced ≡ reduced_price price duals.now column) }
    ensures ledger { width.old ≤ width.new }
    ensures left { OnErr result (Raised width.old width.new) }
{
    let full = product(duals.scale, i128::from(price), width)?;
    let paid = paid_for(
        duals.rows.as_slice(),
        duals.values.as_slice(),
        column,
        width,
    )?;
    difference(full, paid, width)
}

/// What the rows pay for a column.
fn paid_for(rows: &[Row], values: &[i128], column: u64, width: &mut Width) -> Result<i128, Left>
    requires { length values.now ≡ length rows.now }
    ensures value { IfOk result (λ paid. paid ≡ paid_by_rows rows.now values.now column) }
    ensures ledger { width.old ≤ width.new }
    ensures left { OnErr result (Raised width.old width.new) }
{
    let mut total = 0i128;
    for i in 0..rows.len() {
        let part = product(values[i], rows[i].value(column), width)?;
        total = sum(total, part, width)?;
    }
    Ok(total)
}
