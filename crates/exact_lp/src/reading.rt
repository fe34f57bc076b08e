ghost use Rattle.std.specs.Prelude.{◌≡◌, ℕ, ◌≤◌, ◌<◌, ◌+◌, ◌↔◌, pos, ◌<ℤ◌, IsErrOf, OnErr, IsTrue, IfSome, MatchResult, IfOk, length};
ghost use Rattle.exact_lp.specs.Columns.{AreAscendingWeights, ArePositive};
ghost use Rattle.ratio.specs.Ledger.{Raised};
ghost use Rattle.exact_lp.specs.Signs.{AreSigned};

use crate::duals::Duals;
use crate::listed::Listed;
use crate::point::{ColumnWeight, Point};
use crate::row::Row;
use crate::source::LpFault;
use crate::stage::Swap;
use crate::table::{COST, SCALE, Table, Variable, cell, clear, place, turn_up};
use ratio::whole::{difference, product};
use ratio::{IntRow, Left, Ratio, Width};
use std::alloc::{AllocError, Global};

/// A column with its value in the basis.
#[derive(Clone, Copy)]
struct Share {
    column: u64,
    value: Ratio,
}

/// Weights over a scale, not yet tested to be a point.
#[derive(Drop)]
pub struct PointReading {
    pub scale: i128,
    pub weights: Vec<ColumnWeight>,
}

/// The basic values as weights over their least common scale.
pub fn read_point(alloc: Global, table: &Table, width: &mut Width) -> Result<PointReading, LpFault>
    ensures ledger { width.old ≤ width.new }
    ensures left { IsErrOf result LpFault.Left → Raised width.old width.new }
{
    let shares = read_shares(alloc, table, width)?;
    let scale = common_scale(&shares, width)?;
    let mut weights = Vec::new(alloc);
    for share in &shares {
        let weight = product(share.value.num, scale / share.value.den, width)?;
        weights.push(ColumnWeight {
            column: share.column,
            weight,
        })?;
    }
    weights.sort_by_key(|w| w.column)?;
    Ok(PointReading { scale, weights })
}

/// The columns in the basis with their values, where these aren't 0.
fn read_shares(alloc: Global, table: &Table, width: &mut Width) -> Result<Vec<Share>, LpFault>
    ensures ledger { width.old ≤ width.new }
    ensures left { IsErrOf result LpFault.Left → Raised width.old width.new }
{
    let mut shares = Vec::new(alloc);
    for (at, row) in table.rows.iter().enumerate() {
        let basic = table.basic(at);
        let entry = cell(row, place(basic));
        if let Some(Variable::Column(column)) = table.variables.get(basic) {
            if entry > 0 && cell(row, SCALE) != 0 {
                let least = difference(0, cell(row, SCALE), width)?;
                shares.push(Share {
                    column: *column,
                    value: Ratio::new(least, entry),
                })?;
            }
        }
    }
    Ok(shares)
}

/// The least number that each value's denominator divides.
fn common_scale(shares: &[Share], width: &mut Width) -> Result<i128, Left>
    ensures ledger { width.old ≤ width.new }
    ensures left { OnErr result (Raised width.old width.new) }
{
    let mut scale = 1i128;
    for share in shares {
        scale = product(scale, Ratio::new(scale, share.value.den).den, width)?;
    }
    Ok(scale)
}

/// The weights as a point, where they are one.
pub fn as_point(reading: PointReading) -> Option<Point>
    ensures { IfSome result (λ point. point.scale ≡ reading.scale) }
{
    let PointReading { scale, weights } = reading;
    if scale <= 0 || !are_ascending(&weights) || !are_positive(&weights) {
        return None;
    }
    Some(Point {
        scale,
        weights: Listed::new(weights),
    })
}

fn are_ascending(weights: &[ColumnWeight]) -> bool
    ensures { IsTrue result → AreAscendingWeights weights.now }
{
    for at in 1..weights.len() {
        if weights[at - 1].column >= weights[at].column {
            return false;
        }
    }
    true
}

fn are_positive(weights: &[ColumnWeight]) -> bool
    ensures { IsTrue result → ArePositive weights.now }
{
    weights.iter().all(|w| w.weight > 0)
}

/// The scale of the duals, and their values.
#[derive(Drop)]
pub struct DualsReading {
    pub scale: i128,
    pub values: Vec<i128>,
}

/// The duals that the cost row has at the spare variables.
pub fn read_duals(
    alloc: Global,
    table: &Table,
    rows: &[Row],
    width: &mut Width,
) -> Result<DualsReading, LpFault>
    ensures ledger { width.old ≤ width.new }
    ensures left { IsErrOf result LpFault.Left → Raised width.old width.new }
{
    let cells = dual_cells(alloc, table, &table.cost, 0)?;
    as_reading(alloc, cells.cells(), rows, width)
}

/// The duals that the pivot would leave. Only the cells that duals are read from are pivoted, and the table stays.
pub fn duals_ahead(
    alloc: Global,
    table: &Table,
    rows: &[Row],
    swap: Swap,
    width: &mut Width,
) -> Result<DualsReading, LpFault>
    ensures ledger { width.old ≤ width.new }
    ensures left { IsErrOf result LpFault.Left → Raised width.old width.new }
{
    let mut cost = dual_cells(alloc, table, &table.cost, swap.variable)?;
    if let Some(row) = table.rows.get(swap.at) {
        let mut pivot = dual_cells(alloc, table, row, swap.variable)?;
        turn_up(&mut pivot, PIVOT_CELL, width)?;
        clear(&mut cost, &pivot, PIVOT_CELL, width)?;
    }
    as_reading(alloc, cost.cells(), rows, width)
}

/// Where `dual_cells` has the cost's cell, that of the pivot's variable, and the first of a spare variable's.
const COST_CELL: usize = 0;

const PIVOT_CELL: usize = 1;

const SPARE_CELLS: usize = 2;

/// The cells of a row that duals are read from, with that of a pivot's variable.
fn dual_cells(
    alloc: Global,
    table: &Table,
    row: &IntRow,
    variable: usize,
) -> Result<IntRow, AllocError> {
    let mut cells = Vec::new(alloc);
    cells.push(cell(row, COST))?;
    cells.push(cell(row, place(variable)))?;
    for spare in &table.spares {
        cells.push(cell(row, place(*spare)))?;
    }
    Ok(IntRow::new(cells))
}

/// The cells of the cost row as duals: the value of an equal row is its spare variable's cell, that of another row the
/// negative of it.
fn as_reading(
    alloc: Global,
    cells: &[i128],
    rows: &[Row],
    width: &mut Width,
) -> Result<DualsReading, LpFault>
    ensures ledger { width.old ≤ width.new }
    ensures left { IsErrOf result LpFault.Left → Raised width.old width.new }
{
    let mut values = Vec::new(alloc);
    for (at, row) in rows.iter().enumerate() {
        let spare = at.saturating_add(SPARE_CELLS);
        let entry = cells.get(spare).copied().unwrap_or(0);
        let value = if row.equal {
            entry
        } else {
            difference(0, entry, width)?
        };
        values.push(value)?;
    }
    let scale = cells.get(COST_CELL).copied().unwrap_or(0);
    Ok(DualsReading { scale, values })
}

/// The values as duals over the rows, where they are, and otherwise the rows.
pub fn as_duals(reading: DualsReading, rows: Listed<Row>) -> Result<Duals, Listed<Row>>
    ensures { MatchResult result (λ duals. (duals.rows ≡ rows) × (duals.scale ≡ reading.scale)) (λ back. back ≡ rows) }
{
    let DualsReading { scale, values } = reading;
    if scale <= 0
        || values.len() != rows.as_slice().len()
        || !are_signed(rows.as_slice(), &values)
    {
        return Err(rows);
    }
    Ok(Duals {
        scale,
        rows,
        values: Listed::new(values),
    })
}

fn are_signed(rows: &[Row], values: &[i128]) -> bool
    requires { length values.now ≡ length rows.now }
    ensures { IsTrue result → AreSigned rows.now values.now }
{
    for at in 0..rows.len() {
        if !rows[at].equal && values[at] < 0 {
            return false;
        }
    }
    true
}
