ghost use Rattle.std.specs.Prelude.{◌≡◌, ℕ, ◌≤◌, ◌<◌, ◌↔◌, ◌*ℤ◌, ◌<ℤ◌, All, pos, length, IfOk, OnErr, IsTrue};
ghost use Rattle.exact_lp.specs.Columns.{value_at, weighed_sum};
ghost use Rattle.ratio.specs.Ledger.{Raised};
ghost use Rattle.exact_lp.specs.Programs.{CostSame, Holds, IsWithin, valued_leasts};

use crate::duals::Duals;
use crate::point::{ColumnWeight, Point};
use crate::row::Row;
use crate::source::Columns;
use ratio::whole::{product, sum};
use ratio::{Left, Ratio, Width};
use std::cmp::Ordering;

/// The sum over the weighed columns of a row's value times the weight.
pub fn weighed_values(row: &Row, weights: &[ColumnWeight], width: &mut Width) -> Result<i128, Left>
    ensures value { IfOk result (λ total. total ≡ weighed_sum (value_at row.now.cells) weights.now) }
    ensures ledger { width.old ≤ width.new }
    ensures left { OnErr result (Raised width.old width.new) }
{
    let mut total = 0i128;
    for w in weights {
        let part = product(row.value(w.column), w.weight, width)?;
        total = sum(total, part, width)?;
    }
    Ok(total)
}

/// Whether the row holds at the point.
pub fn holds(row: &Row, point: &Point, width: &mut Width) -> Result<bool, Left>
    ensures value { IfOk result (λ yes. IsTrue yes ↔ Holds row.now point.now) }
    ensures ledger { width.old ≤ width.new }
    ensures left { OnErr result (Raised width.old width.new) }
{
    let total = weighed_values(row, point.weights.as_slice(), width)?;
    let least = product(row.least, point.scale, width)?;
    if row.equal {
        Ok(total == least)
    } else {
        Ok(least <= total)
    }
}

/// Whether each of the rows holds at the point.
pub fn all_hold(rows: &[Row], point: &Point, width: &mut Width) -> Result<bool, Left>
    ensures value { IfOk result (λ yes. IsTrue yes → All (λ row. Holds row point.now) rows.now) }
    ensures ledger { width.old ≤ width.new }
    ensures left { OnErr result (Raised width.old width.new) }
{
    for row in rows {
        if !holds(row, point, width)? {
            return Ok(false);
        }
    }
    Ok(true)
}

/// Whether each weighed column is below the count.
pub fn all_within(weights: &[ColumnWeight], count: u64) -> bool
    ensures { IsTrue result ↔ IsWithin count weights.now }
{
    weights.iter().all(|w| w.column < count)
}

/// The sum of price times weight.
pub fn point_cost<C: Columns>(
    columns: &C,
    weights: &[ColumnWeight],
    width: &mut Width,
) -> Result<i128, Left>
    requires { IsWithin (C.column_count columns.now) weights.now }
    ensures value { IfOk result (λ total. total ≡ weighed_sum (λ column. pos (C.column_price columns.now column)) weights.now) }
    ensures ledger { width.old ≤ width.new }
    ensures left { OnErr result (Raised width.old width.new) }
{
    let mut total = 0i128;
    for w in weights {
        let part = product(i128::from(columns.price(w.column)), w.weight, width)?;
        total = sum(total, part, width)?;
    }
    Ok(total)
}

/// The sum of dual value times least number.
pub fn duals_cost(rows: &[Row], values: &[i128], width: &mut Width) -> Result<i128, Left>
    requires { length values.now ≡ length rows.now }
    ensures value { IfOk result (λ total. total ≡ valued_leasts rows.now values.now) }
    ensures ledger { width.old ≤ width.new }
    ensures left { OnErr result (Raised width.old width.new) }
{
    let mut total = 0i128;
    for i in 0..rows.len() {
        let part = product(values[i], rows[i].least, width)?;
        total = sum(total, part, width)?;
    }
    Ok(total)
}

/// Whether two fractions are equal, by cross products that may be of any size.
pub fn same_fraction(num: i128, den: i128, other_num: i128, other_den: i128) -> bool
    requires den { pos 0 <ℤ den }
    requires other_den { pos 0 <ℤ other_den }
    ensures { IsTrue result → num *ℤ other_den ≡ other_num *ℤ den }
{
    Ratio::new(num, den).cmp(&Ratio::new(other_num, other_den)) == Ordering::Equal
}

/// Whether the point costs what the duals do.
pub fn same_cost<C: Columns>(
    columns: &C,
    point: &Point,
    duals: &Duals,
    width: &mut Width,
) -> Result<bool, Left>
    requires { IsWithin (C.column_count columns.now) point.now.weights }
    ensures value { IfOk result (λ yes. IsTrue yes → CostSame (λ column. pos (C.column_price columns.now column)) point.now duals.now) }
    ensures ledger { width.old ≤ width.new }
    ensures left { OnErr result (Raised width.old width.new) }
{
    let cost = point_cost(columns, point.weights.as_slice(), width)?;
    let value = duals_cost(duals.rows.as_slice(), duals.values.as_slice(), width)?;
    Ok(same_fraction(cost, point.scale, value, duals.scale))
}
