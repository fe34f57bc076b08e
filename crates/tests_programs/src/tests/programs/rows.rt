ghost use Rattle.std.specs.Prelude.{◌≡◌, ℕ, ◌≤◌, ◌<◌, ◌≢◌, ◌↔◌, All, Contains, pos, ◌≤ℤ◌, false, IfOk, IfSome, IfNone, OnErr, IsErrOf, IsTrue, length, slice_index, slice_index_or, ◌==◌, if◌then◌else◌};
ghost use Rattle.exact_lp.specs.Columns.{AreAscendingCells, value_at};
ghost use Rattle.ratio.specs.Ledger.{Raised};
ghost use Rattle.exact_lp.specs.Outcomes.{NamesBelow};
ghost use Rattle.exact_lp.specs.Programs.{Holds};
ghost use Rattle.exact_lp.specs.Sources.{IsOpening, opening_sum};
ghost use Rattle.exact_lp.specs.declared.row.Row.{Row};

use exact_lp::{Cuts, Listed, LpFault, Opening, Point, Row, RowCell, holds};
use ratio::whole::{product, sum};
use ratio::{Left, Width};
use std::alloc::{AllocError, Global};

/// Listed opening rows with their own columns, and further rows that stand.
#[derive(Drop)]
pub struct Rows {
    pub opening: Listed<Row>,
    pub own: Listed<u64>,
    pub further: Listed<Row>,
    ghost opened: { IsOpening opening own },
    ghost above: { All (λ row. row.equal ≡ false) further },
    ghost met: { All (λ row. row.least ≤ℤ opening_sum row.cells opening own) further },
}

impl Cuts for Rows {
    ghost opening_rows = { λ r. r.opening };

    ghost stands = { λ r row. Contains r.further row };

    fn opening(&self, alloc: Global) -> Result<Opening, AllocError> {
        let rows = copy_of_rows(alloc, self.opening.as_slice())?;
        let columns = Listed::new(Vec::from_slice(alloc, self.own.as_slice())?);
        Ok(Opening { rows, columns })
    }

    fn violated(
        &mut self,
        alloc: Global,
        point: &Point,
        width: &mut Width,
    ) -> Result<Option<Row>, LpFault> {
        first_violated(alloc, self.further.as_slice(), point, width)
    }
}

/// The first of the rows that doesn't hold at the point.
fn first_violated(
    alloc: Global,
    rows: &[Row],
    point: &Point,
    width: &mut Width,
) -> Result<Option<Row>, LpFault>
    ensures some { IfOk result (λ found. IfSome found (λ row. Contains rows.now row × ¬ (Holds row point.now))) }
    ensures none { IfOk result (λ found. IfNone found (All (λ row. Holds row point.now) rows.now)) }
    ensures ledger { width.old ≤ width.new }
    ensures left { IsErrOf result LpFault.Left → Raised width.old width.new }
{
    for row in rows {
        if !holds(row, point, width)? {
            return Ok(Some(copy_of_row(alloc, row)?));
        }
    }
    Ok(None)
}

fn copy_of_row(alloc: Global, row: &Row) -> Result<Row, AllocError>
    ensures { IfOk result (λ copy. copy ≡ row.now) }
{
    let cells = Listed::new(Vec::from_slice(alloc, row.cells.as_slice())?);
    Ok(Row {
        least: row.least,
        equal: row.equal,
        cells,
    })
}

fn copy_of_rows(alloc: Global, rows: &[Row]) -> Result<Listed<Row>, AllocError>
    ensures { IfOk result (λ copies. copies ≡ rows.now) }
{
    let mut copies = Vec::new(alloc);
    for row in rows {
        copies.push(copy_of_row(alloc, row)?)?;
    }
    Ok(Listed::new(copies))
}

/// A row of these cells, where their columns ascend.
pub fn row_of(
    alloc: Global,
    least: i128,
    equal: bool,
    cells: &[RowCell],
) -> Result<Option<Row>, AllocError>
    ensures { IfOk result (λ found. IfSome found (λ row. (row.least ≡ least) × (row.equal ≡ equal) × (row.cells ≡ cells.now))) }
{
    if !are_ascending(cells) {
        return Ok(None);
    }
    let cells = Listed::new(Vec::from_slice(alloc, cells)?);
    Ok(Some(Row {
        least,
        equal,
        cells,
    }))
}

fn are_ascending(cells: &[RowCell]) -> bool
    ensures { IsTrue result → AreAscendingCells cells.now }
{
    for at in 1..cells.len() {
        if cells[at - 1].column >= cells[at].column {
            return false;
        }
    }
    true
}

/// Whether the rows name no column from the count on.
pub fn name_below(rows: &[Row], count: u64) -> bool
    ensures { IsTrue result → All (λ row. NamesBelow count row) rows.now }
{
    for row in rows {
        if !names_below(row, count) {
            return false;
        }
    }
    true
}

fn names_below(row: &Row, count: u64) -> bool
    ensures { IsTrue result → NamesBelow count row.now }
{
    row.cells.as_slice().iter().all(|cell| cell.column < count)
}

/// The rows as a source, where they may be one.
pub fn rows_of(opening: Listed<Row>, own: Listed<u64>, further: Listed<Row>) -> Option<Rows>
    ensures { IfSome result (λ rows. (rows.opening ≡ opening) × (rows.further ≡ further)) }
{
    if !is_opening(opening.as_slice(), own.as_slice()) {
        return None;
    }
    if !all_met(further.as_slice(), opening.as_slice(), own.as_slice()) {
        return None;
    }
    Some(Rows {
        opening,
        own,
        further,
    })
}

/// Whether these are opening rows with a column of its own for each.
fn is_opening(rows: &[Row], own: &[u64]) -> bool
    ensures { IsTrue result → IsOpening rows.now own.now }
{
    if own.len() != rows.len() {
        return false;
    }
    for at in 0..rows.len() {
        if !rows[at].equal || rows[at].least < 0 || !is_alone(&rows[at], own, at) {
            return false;
        }
    }
    true
}

/// Whether the row has 1 at its own column, and 0 at those of the others.
fn is_alone(row: &Row, own: &[u64], at: usize) -> bool
    ensures { IsTrue result → (k : ℕ) → k < length own.now → value_at row.now.cells (slice_index own.now k) ≡ (if k == at then pos 1 else pos 0) }
{
    for k in 0..own.len() {
        if row.value(own[k]) != i128::from(k == at) {
            return false;
        }
    }
    true
}

/// Whether no row is equal, and each holds at the point of the opening columns.
fn all_met(rows: &[Row], opening: &[Row], own: &[u64]) -> bool
    requires { length own.now ≡ length opening.now }
    ensures above { IsTrue result → All (λ row. row.equal ≡ false) rows.now }
    ensures met { IsTrue result → All (λ row. row.least ≤ℤ opening_sum row.cells opening.now own.now) rows.now }
{
    for row in rows {
        if row.equal || !is_met(row, opening, own) {
            return false;
        }
    }
    true
}

/// Whether the row's sum at the point of the opening columns is at least its least number.
fn is_met(row: &Row, opening: &[Row], own: &[u64]) -> bool
    requires { length own.now ≡ length opening.now }
    ensures { IsTrue result → row.now.least ≤ℤ opening_sum row.now.cells opening.now own.now }
{
    match met_by_opening(row, opening, own) {
        Ok(total) => row.least <= total,
        Err(Left) => false,
    }
}

/// The row's sum at the point of the opening columns.
fn met_by_opening(row: &Row, opening: &[Row], own: &[u64]) -> Result<i128, Left>
    requires { length own.now ≡ length opening.now }
    ensures { IfOk result (λ total. total ≡ opening_sum row.now.cells opening.now own.now) }
{
    let mut width = Width::new();
    let mut total = 0i128;
    for i in 0..opening.len() {
        let part = product(row.value(own[i]), opening[i].least, &mut width)?;
        total = sum(total, part, &mut width)?;
    }
    Ok(total)
}
