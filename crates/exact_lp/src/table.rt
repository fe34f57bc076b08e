ghost use Rattle.std.specs.Prelude.{◌≡◌, ◌≢◌, ℕ, ◌≤◌, ◌<◌, ◌+◌, ◌^◌, ◌++◌, ◌∷◌, [], map, pos, ◌<ℤ◌, length, OnOk, OnErr, IfOk, IfSome};
ghost use Rattle.ratio.specs.Cells.{cell_at};
ghost use Rattle.ratio.specs.Ledger.{Raised};
ghost use Rattle.exact_lp.specs.Places.{place_of};
ghost use Rattle.exact_lp.specs.Tables.{Clears, ClearsEach, IsTableOf, IsTurned, IsNewSpare, number_at, row_at};

use crate::row::Row;
use crate::stage::Swap;
use ratio::whole::difference;
use ratio::{IntRow, Left, Width};
use std::alloc::{AllocError, Global};
use std::mem;

/// A variable of the table: a column of the source, or the spare variable of a given row, which is what the row has
/// above its least number.
#[derive(Clone, Copy, Debug, PartialEq, Eq)]
pub enum Variable {
    Column(u64),
    Spare(usize),
}

/// The place of the scale's cell in a row, that of the cost's, and the first of a variable's.
pub const SCALE: usize = 0;

pub const COST: usize = 1;

pub const FIRST: usize = 2;

/// The given rows as equations, after the pivots so far: the scale, the cost and each variable have a cell in each row.
/// A row that isn't equal stands with its signs turned. The cost row has the negative reduced prices.
#[derive(Drop)]
pub struct Table {
    pub rows: Vec<IntRow>,
    pub cost: IntRow,
    pub variables: Vec<Variable>,
    pub basis: Vec<usize>,
    pub spares: Vec<usize>,
}

/// The cell at a place, and 0 past the end.
pub fn cell(row: &IntRow, at: usize) -> i128
    ensures { result ≡ cell_at row.now at }
{
    row.cells().get(at).copied().unwrap_or(0)
}

/// The place of a variable's cell.
pub fn place(variable: usize) -> usize
    ensures { result ≡ place_of variable }
{
    variable.saturating_add(FIRST)
}

/// Adds a cell at the end of a row.
pub fn append(alloc: Global, row: &mut IntRow, value: i128) -> Result<(), AllocError>
    ensures added { OnOk result (row.new ≡ row.old ++ value ∷ []) }
    ensures fits { OnOk result (length row.new < 2 ^ 64) }
{
    let mut cells = mem::replace(row, IntRow::new(Vec::new(alloc))).into_cells();
    cells.push(value)?;
    *row = IntRow::new(cells);
    Ok(())
}

/// Adds a cell of 0 at the end of each row.
fn append_each(alloc: Global, rows: &mut [IntRow]) -> Result<(), AllocError>
    ensures { OnOk result (rows.new ≡ map (λ row. row ++ pos 0 ∷ []) rows.old) }
{
    for row in rows.iter_mut() {
        append(alloc, row, 0)?;
    }
    Ok(())
}

/// Takes a column out of a row by a row that has a positive cell there. A row that has 0 there stays as it is.
pub fn clear(row: &mut IntRow, pivot: &IntRow, at: usize, width: &mut Width) -> Result<(), Left>
    ensures cleared { OnOk result (Clears pivot.now at row.old row.new) }
    ensures ledger { width.old ≤ width.new }
    ensures left { OnErr result (Raised width.old width.new) }
{
    if row.cells().len() != pivot.cells().len() {
        return Ok(());
    }
    if cell(pivot, at) <= 0 {
        return Ok(());
    }
    if cell(row, at) == 0 {
        return Ok(());
    }
    row.eliminate(pivot, at, width)
}

/// Clears a column in each of the rows.
fn clear_all(rows: &mut [IntRow], pivot: &IntRow, at: usize, width: &mut Width) -> Result<(), Left>
    ensures cleared { OnOk result (ClearsEach pivot.now at rows.old rows.new) }
    ensures ledger { width.old ≤ width.new }
    ensures left { OnErr result (Raised width.old width.new) }
{
    for row in rows.iter_mut() {
        clear(row, pivot, at, width)?;
    }
    Ok(())
}

/// Turns the row's signs where its cell at the place is negative.
pub fn turn_up(row: &mut IntRow, at: usize, width: &mut Width) -> Result<(), Left>
    ensures turned { OnOk result (IsTurned row.old row.new) }
    ensures above { OnOk result (cell_at row.old at ≢ pos 0 → pos 0 <ℤ cell_at row.new at) }
    ensures ledger { width.old ≤ width.new }
    ensures left { OnErr result (Raised width.old width.new) }
{
    if cell(row, at) >= 0 {
        return Ok(());
    }
    row.negate(width)
}

/// The value of a given row at a column, with its sign in the table.
pub fn signed_value(row: &Row, column: u64, width: &mut Width) -> Result<i128, Left>
    ensures ledger { width.old ≤ width.new }
    ensures left { OnErr result (Raised width.old width.new) }
{
    let value = row.value(column);
    if row.equal {
        Ok(value)
    } else {
        difference(0, value, width)
    }
}

/// The scale's cell of a given row.
pub fn signed_least(row: &Row, width: &mut Width) -> Result<i128, Left>
    ensures ledger { width.old ≤ width.new }
    ensures left { OnErr result (Raised width.old width.new) }
{
    if row.equal {
        difference(0, row.least, width)
    } else {
        Ok(row.least)
    }
}

impl Table {
    /// The place among the variables.
    pub fn variable(&self, wanted: Variable) -> Option<usize>
        ensures { IfSome result (λ variable. variable < length self.now.variables.items) }
    {
        self.variables.iter().position(|v| *v == wanted)
    }

    /// The cell of a row at a variable.
    pub fn entry(&self, at: usize, variable: usize) -> i128
        ensures { result ≡ cell_at (row_at self.now.rows.items at) (place_of variable) }
    {
        self.rows
            .get(at)
            .map_or(0, |row| cell(row, place(variable)))
    }

    /// The variable that is basic in the row.
    pub fn basic(&self, at: usize) -> usize
        ensures { result ≡ number_at self.now.basis.items at }
    {
        self.basis.get(at).copied().unwrap_or(0)
    }

    /// How many columns of the source the table has.
    pub fn columns(&self) -> usize {
        self.variables.len().saturating_sub(self.spares.len())
    }

    /// Adds the spare variable of a row to come, with a cell of 0 in each row.
    pub fn add_spare(&mut self, alloc: Global, number: usize) -> Result<usize, AllocError>
        requires { IsTableOf self.old }
        ensures table { OnOk result (IsTableOf self.new) }
        ensures spare { IfOk result (IsNewSpare self.new) }
    {
        let at = self.variables.len();
        self.variables.push(Variable::Spare(number))?;
        append_each(alloc, &mut self.rows)?;
        append(alloc, &mut self.cost, 0)?;
        self.spares.push(at)?;
        Ok(at)
    }

    /// Makes the variable basic in the row, whose signs are turned first where its cell there is negative. Where that cell is
    /// 0, or no such row or variable is there, nothing changes.
    pub fn swap(&mut self, alloc: Global, swap: Swap, width: &mut Width) -> Result<(), Left>
        requires { IsTableOf self.old }
        ensures table { OnOk result (IsTableOf self.new) }
        ensures ledger { width.old ≤ width.new }
        ensures left { OnErr result (Raised width.old width.new) }
    {
        if swap.variable >= self.variables.len() || self.entry(swap.at, swap.variable) == 0 {
            return Ok(());
        }
        if swap.at >= self.rows.len() || swap.at >= self.basis.len() {
            return Ok(());
        }
        let at = place(swap.variable);
        let mut row = mem::replace(&mut self.rows[swap.at], IntRow::new(Vec::new(alloc)));
        turn_up(&mut row, at, width)?;
        clear_all(&mut self.rows, &row, at, width)?;
        clear(&mut self.cost, &row, at, width)?;
        self.rows[swap.at] = row;
        self.basis[swap.at] = swap.variable;
        Ok(())
    }
}
