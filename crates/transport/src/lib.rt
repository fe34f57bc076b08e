//! Least couplings of two lists of weights, with the potentials that show that no coupling costs less.
#![tactic(auto)]

ghost use Rattle.std.specs.Prelude.{◌≡◌, ℕ, ◌<◌, ◌≤◌, ◌+◌, ◌*◌, ◌^◌, ℤ, pos, ◌+ℤ◌, ◌≤ℤ◌, ◌<ℤ◌, List, length, IfOk, OnOk, unsigned_abs, sum, Err, ◌↔◌};
ghost use Rattle.std.specs.List.{All, sum_by};
ghost use Rattle.transport.specs.Core.{IsSolved, IsTidy};
ghost use Rattle.transport.specs.Coupling.{total, IsLeastCost, IsLeastCoupling, IsShownLeast, IsTotalAbove};
ghost use Rattle.transport.specs.Kept.{IsShownSolved};

use std::alloc::{AllocError, Global};
use std::marker::Model;

mod convert;
mod entries;
mod kept;
mod order;
mod plan;
mod potentials;
mod search;
mod solve;
mod spread;

use convert::{cells_of, sizes, total_size, unlifted};
use entries::Entry;
use order::tidied;
use solve::{Solved, solve, solve_cost, solve_entries};

/// A table of costs. `table` is its meaning: what a row and a column cost together, in price units, from 0 to 10^13.
pub trait Cost {
    ghost row_count: { Self → ℕ };

    ghost column_count: { Self → ℕ };

    ghost table: { Self → ℕ → ℕ → ℕ };

    /// The number of rows.
    fn rows(&self) -> usize
        ensures { result ≡ row_count self.now };

    /// The number of columns.
    fn columns(&self) -> usize
        ensures { result ≡ column_count self.now };

    /// What row `i` and column `j` cost together.
    fn cost(&self, i: usize, j: usize) -> i64
        requires row { i < row_count self.now }
        requires column { j < column_count self.now }
        ensures { result ≡ pos (table self.now i j) };

    ghost bounded: { (costs : Self) (i j : ℕ) → i < row_count costs → j < column_count costs
        → table costs i j ≤ 10000000000000 };
}

/// Some weight in a place of the table.
#[derive(Clone, Copy, Debug, PartialEq, Eq)]
pub struct TableCell {
    pub row: usize,
    pub column: usize,
    pub weight: i128,
}

/// The cells of a coupling, as a list.
#[derive(Debug, Drop)]
pub struct Cells {
    items: Vec<TableCell>,
}

impl Model for Cells {
    ghost use Rattle.std.specs.Prelude.{List};
    ghost use Rattle.transport.specs.declared.TableCell.{TableCell};

    ghost Value = { List TableCell };

    ghost view = { λ c. c.items.items };
}

impl Cells {
    /// The list of these cells.
    pub fn new(items: Vec<TableCell>) -> Cells
        ensures { result ≡ items.items }
    {
        Cells { items }
    }

    /// The cells.
    pub fn as_slice(&self) -> &[TableCell]
        ensures { result.now ≡ self.now }
    {
        self.items.as_slice()
    }

    /// Gives the cells back.
    pub fn into_vec(self) -> Vec<TableCell>
        ensures { result.items ≡ self }
    {
        self.items
    }
}

/// Potentials, as a list of numbers.
#[derive(Debug, Drop)]
pub struct Numbers {
    items: Vec<i128>,
}

impl Model for Numbers {
    ghost use Rattle.std.specs.Prelude.{List, ℤ};

    ghost Value = { List ℤ };

    ghost view = { λ n. n.items.items };
}

impl Numbers {
    /// The list of these numbers.
    pub fn new(items: Vec<i128>) -> Numbers
        ensures { result ≡ items.items }
    {
        Numbers { items }
    }

    /// The numbers.
    pub fn as_slice(&self) -> &[i128]
        ensures { result.now ≡ self.now }
    {
        self.items.as_slice()
    }

    /// Gives the numbers back.
    pub fn into_vec(self) -> Vec<i128>
        ensures { result.items ≡ self }
    {
        self.items
    }
}

/// A least coupling, and a potential for each row and each column, in price units.
#[derive(Debug, Drop)]
pub struct Coupled {
    /// The cells with weight, ascending by row and then by column.
    pub cells: Cells,
    /// The potentials of the rows, at most 10^14 in size.
    pub alpha: Numbers,
    /// The potentials of the columns, at most 10^14 in size.
    pub beta: Numbers,
}

/// Why there is no answer.
#[derive(Debug, Drop)]
pub enum NoCouple {
    /// There was no memory.
    Memory,
    /// The total is above 10^24. It is given.
    Scale(i128),
}

impl From<AllocError> for NoCouple {
    ghost use Rattle.std.specs.Prelude.{◌≡◌};
    ghost use Rattle.transport.specs.declared.NoCouple.TheVariants.{Memory};

    ghost from_gives = { λ _ fault. fault ≡ Memory };

    fn from(_fault: AllocError) -> NoCouple {
        NoCouple::Memory
    }
}

/// The greatest total that is taken.
const MOST_TOTAL: u128 = 1_000_000_000_000_000_000_000_000;

/// A least coupling of two lists of weights with equal totals, and potentials of its rows and
/// columns.
///
/// The cells are in ascending order and have weight. No two potentials pass a cost, and together
/// they are worth what the cells cost, so no coupling costs less. Rows and columns without weight
/// have potentials too, as great as the others let them be. `Scale` comes exactly where the total is
/// above 10^24, and has the total.
///
/// Time: the search goes over the rows and columns with weight alone. The potentials look at each
/// place of the table once, and at those of the rows with weight once more.
pub fn couple<C: Cost>(
    alloc: Global,
    left: &[i128],
    right: &[i128],
    cost: &C,
) -> Result<Coupled, NoCouple>
    requires rows { length left.now ≡ C.row_count cost.now }
    requires columns { length right.now ≡ C.column_count cost.now }
    requires some_row { 0 < length left.now }
    requires some_column { 0 < length right.now }
    requires left_weights { All (λ w. pos 0 ≤ℤ w) left.now }
    requires right_weights { All (λ w. pos 0 ≤ℤ w) right.now }
    requires totals { total left.now ≡ total right.now }
    requires bounded { total left.now <ℤ pos (2 ^ 127) }
    ensures coupled { IfOk result (λ c.
        IsLeastCoupling (C.table cost.now) left.now right.now c.cells c.alpha c.beta) }
    ensures scale { (n : ℤ) → (result ≡ Err (NoCouple.Scale n)) ↔ IsTotalAbove left.now n }
{
    check_total(left)?;
    Ok(couple_within(alloc, left, right, cost)?)
}

/// The cells of a least coupling, as `couple` gives them, without its potentials. Conditions and faults are those of
/// `couple`.
///
/// Time: the search of `couple`. Rows and columns without weight cost one look at the weight.
pub fn couple_cells<C: Cost>(
    alloc: Global,
    left: &[i128],
    right: &[i128],
    cost: &C,
) -> Result<Cells, NoCouple>
    requires rows { length left.now ≡ C.row_count cost.now }
    requires columns { length right.now ≡ C.column_count cost.now }
    requires some_row { 0 < length left.now }
    requires some_column { 0 < length right.now }
    requires left_weights { All (λ w. pos 0 ≤ℤ w) left.now }
    requires right_weights { All (λ w. pos 0 ≤ℤ w) right.now }
    requires totals { total left.now ≡ total right.now }
    requires bounded { total left.now <ℤ pos (2 ^ 127) }
    ensures coupled { IfOk result (λ cells. IsShownLeast (C.table cost.now) left.now right.now cells) }
    ensures scale { (n : ℤ) → (result ≡ Err (NoCouple.Scale n)) ↔ IsTotalAbove left.now n }
{
    check_total(left)?;
    Ok(cells_within(alloc, left, right, cost)?)
}

/// The least cost of a coupling of two lists of weights with equal totals, at most 10^37. Conditions
/// and faults are those of `couple`.
///
/// Time: the search of `couple` without its potentials. Rows and columns without weight cost one look
/// at the weight.
pub fn least_cost<C: Cost>(
    alloc: Global,
    left: &[i128],
    right: &[i128],
    cost: &C,
) -> Result<i128, NoCouple>
    requires rows { length left.now ≡ C.row_count cost.now }
    requires columns { length right.now ≡ C.column_count cost.now }
    requires some_row { 0 < length left.now }
    requires some_column { 0 < length right.now }
    requires left_weights { All (λ w. pos 0 ≤ℤ w) left.now }
    requires right_weights { All (λ w. pos 0 ≤ℤ w) right.now }
    requires totals { total left.now ≡ total right.now }
    requires bounded { total left.now <ℤ pos (2 ^ 127) }
    ensures least { IfOk result (λ n. IsLeastCost (C.table cost.now) left.now right.now n) }
    ensures scale { (n : ℤ) → (result ≡ Err (NoCouple.Scale n)) ↔ IsTotalAbove left.now n }
{
    check_total(left)?;
    Ok(cost_within(alloc, left, right, cost)?)
}

/// Refuses a total that is too great.
fn check_total(weights: &[i128]) -> Result<(), NoCouple>
    requires weights { All (λ w. pos 0 ≤ℤ w) weights.now }
    requires bounded { total weights.now <ℤ pos (2 ^ 127) }
    ensures taken { OnOk result (sum_by unsigned_abs weights.now ≤ 10 ^ 24) }
    ensures scale { (n : ℤ) → (result ≡ Err (NoCouple.Scale n)) ↔ IsTotalAbove weights.now n }
{
    let total = total_size(weights);
    if total > MOST_TOTAL {
        return Err(NoCouple::Scale(total as i128));
    }
    Ok(())
}

/// The answer of `couple` for a total that is taken.
fn couple_within<C: Cost>(
    alloc: Global,
    left: &[i128],
    right: &[i128],
    cost: &C,
) -> Result<Coupled, AllocError>
    requires rows { length left.now ≡ C.row_count cost.now }
    requires columns { length right.now ≡ C.column_count cost.now }
    requires left_weights { All (λ w. pos 0 ≤ℤ w) left.now }
    requires right_weights { All (λ w. pos 0 ≤ℤ w) right.now }
    requires totals { total left.now ≡ total right.now }
    requires scale { sum_by unsigned_abs left.now ≤ 10 ^ 24 }
    ensures { IfOk result (λ c.
        IsLeastCoupling (C.table cost.now) left.now right.now c.cells c.alpha c.beta) }
{
    let supply = sizes(alloc, left)?;
    let demand = sizes(alloc, right)?;
    let solved = best(alloc, cost, &supply, &demand)?;
    let cells = cells_of(alloc, &solved.entries)?;
    let alpha = unlifted(alloc, &solved.rows)?;
    let beta = unlifted(alloc, &solved.columns)?;
    Ok(Coupled {
        cells: Cells::new(cells),
        alpha: Numbers::new(alpha),
        beta: Numbers::new(beta),
    })
}

/// The answer of `couple_cells` for a total that is taken.
fn cells_within<C: Cost>(
    alloc: Global,
    left: &[i128],
    right: &[i128],
    cost: &C,
) -> Result<Cells, AllocError>
    requires rows { length left.now ≡ C.row_count cost.now }
    requires columns { length right.now ≡ C.column_count cost.now }
    requires left_weights { All (λ w. pos 0 ≤ℤ w) left.now }
    requires right_weights { All (λ w. pos 0 ≤ℤ w) right.now }
    requires totals { total left.now ≡ total right.now }
    requires scale { sum_by unsigned_abs left.now ≤ 10 ^ 24 }
    ensures { IfOk result (λ cells. IsShownLeast (C.table cost.now) left.now right.now cells) }
{
    let supply = sizes(alloc, left)?;
    let demand = sizes(alloc, right)?;
    let entries = best_entries(alloc, cost, &supply, &demand)?;
    let cells = cells_of(alloc, &entries)?;
    Ok(Cells::new(cells))
}

/// The weights placed at least cost, in order.
fn best_entries<C: Cost>(
    alloc: Global,
    cost: &C,
    left: &[u128],
    right: &[u128],
) -> Result<Vec<Entry>, AllocError>
    requires rows { length left.now ≡ C.row_count cost.now }
    requires columns { length right.now ≡ C.column_count cost.now }
    requires totals { sum left.now ≡ sum right.now }
    requires scale { sum left.now ≤ 10 ^ 24 }
    ensures solved { IfOk result (λ es. IsShownSolved (C.table cost.now) left.now right.now es.items) }
    ensures tidy { IfOk result (λ es. IsTidy es.items) }
    ensures fits { IfOk result (λ es. All (λ e. e.weight < 2 ^ 127) es.items) }
{
    let entries = solve_entries(alloc, cost, left, right)?;
    let merged = tidied(alloc, entries)?;
    Ok(merged)
}

/// The answer of `least_cost` for a total that is taken.
fn cost_within<C: Cost>(
    alloc: Global,
    left: &[i128],
    right: &[i128],
    cost: &C,
) -> Result<i128, AllocError>
    requires rows { length left.now ≡ C.row_count cost.now }
    requires columns { length right.now ≡ C.column_count cost.now }
    requires left_weights { All (λ w. pos 0 ≤ℤ w) left.now }
    requires right_weights { All (λ w. pos 0 ≤ℤ w) right.now }
    requires totals { total left.now ≡ total right.now }
    requires scale { sum_by unsigned_abs left.now ≤ 10 ^ 24 }
    ensures { IfOk result (λ n. IsLeastCost (C.table cost.now) left.now right.now n) }
{
    let supply = sizes(alloc, left)?;
    let demand = sizes(alloc, right)?;
    let least = solve_cost(alloc, cost, &supply, &demand)?;
    Ok(least as i128)
}

/// The weights placed at least cost, in order, and the lifted potentials.
fn best<C: Cost>(
    alloc: Global,
    cost: &C,
    left: &[u128],
    right: &[u128],
) -> Result<Solved, AllocError>
    requires rows { length left.now ≡ C.row_count cost.now }
    requires columns { length right.now ≡ C.column_count cost.now }
    requires totals { sum left.now ≡ sum right.now }
    requires scale { sum left.now ≤ 10 ^ 24 }
    ensures solved { IfOk result (λ s.
        IsSolved (C.table cost.now) left.now right.now s.entries.items s.rows.items s.columns.items) }
    ensures tidy { IfOk result (λ s. IsTidy s.entries.items) }
    ensures fits { IfOk result (λ s. All (λ e. e.weight < 2 ^ 127) s.entries.items) }
{
    let solved = solve(alloc, cost, left, right)?;
    Ok(Solved {
        entries: tidied(alloc, solved.entries)?,
        rows: solved.rows,
        columns: solved.columns,
    })
}
