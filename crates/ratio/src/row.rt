ghost use Rattle.std.specs.Prelude.{◌≡◌, ℕ, ℤ, ◌+◌, ◌<◌, ◌≤◌, ◌↔◌, ◌^◌, pos, ◌<ℤ◌, ◌*ℤ◌, ◌-ℤ◌, neg_ℤ, IsOk, OnOk, OnErr, IsTrue, length, map, All, unsigned_abs, int_div, FitsSigned};
ghost use Rattle.std.specs.Int.{IsGcd, w128, ◌∣◌};
ghost use Rattle.ratio.specs.Cells.{cell_at, combined, divided, CellFits, CombinationFits, EliminationFits, IsContent, IsEliminated, KeepsSolutions};
ghost use Rattle.ratio.specs.Ledger.{Rose};

use crate::common::{common_divisor, gcd, quotient, size_quotient};
use crate::width::{Left, Width};
use std::marker::Model;

/// A row of whole numbers. Read as an equation, it says that the cells times the values sum to 0.
#[derive(Drop)]
pub struct IntRow {
    cells: Vec<i128>,
}

impl Model for IntRow {
    ghost use Rattle.std.specs.Prelude.{List, ℤ};

    ghost Value = { List ℤ };

    ghost view = { λ r. r.cells.items };
}

impl IntRow {
    /// The row of these cells.
    pub fn new(cells: Vec<i128>) -> IntRow
        ensures { result ≡ cells.items }
    {
        IntRow { cells }
    }

    /// The cells.
    pub fn cells(&self) -> &[i128]
        ensures { result.now ≡ self.now }
    {
        &self.cells
    }

    /// Gives the cells back.
    pub fn into_cells(self) -> Vec<i128>
        ensures { result.items ≡ self }
    {
        let IntRow { cells } = self;
        cells
    }

    /// Changes the sign of each cell. `Left` comes exactly where some cell is the least number of its type, and the row
    /// is then unchanged.
    pub fn negate(&mut self, width: &mut Width) -> Result<(), Left>
        ensures fits { IsOk result ↔ All (λ x. FitsSigned w128 (neg_ℤ x)) self.old }
        ensures ok { OnOk result (self.new ≡ map neg_ℤ self.old) }
        ensures err { OnErr result (self.new ≡ self.old) }
        ensures kept { OnOk result (width.new ≡ width.old) }
        ensures left { OnErr result (Rose width.old width.new) }
    {
        if !negations_fit(&self.cells) {
            return Err(width.record_left());
        }
        negate_all(&mut self.cells);
        Ok(())
    }

    /// Takes the column out of the row.
    ///
    /// With `p` in the column of the other row, `s` in that of this row and `g` their greatest common divisor, each
    /// cell becomes `(p / g) * own - (s / g) * other`. The row is then divided by the greatest common divisor of its
    /// cells, if that isn't 0. Read as equations, the other row and the new one have the solutions of the other row
    /// and the old one. `Left` comes exactly where a product or a difference leaves 128 bits, and the row is then
    /// unchanged. It takes no memory; most rows cost three passes, and a row with 0 in the column the division alone.
    pub fn eliminate(
        &mut self,
        other: &IntRow,
        column: usize,
        width: &mut Width,
    ) -> Result<(), Left>
        requires lengths { length self.old ≡ length other.now }
        requires inside { column < length self.old }
        requires positive { pos 0 <ℤ cell_at other.now column }
        ensures fits { IsOk result
            ↔ EliminationFits (cell_at other.now column) (cell_at self.old column) self.old other.now }
        ensures ok { OnOk result
            (IsEliminated (cell_at other.now column) (cell_at self.old column) other.now self.old self.new) }
        ensures solutions { OnOk result (KeepsSolutions other.now self.old self.new) }
        ensures err { OnErr result (self.new ≡ self.old) }
        ensures kept { OnOk result (width.new ≡ width.old) }
        ensures left { OnErr result (Rose width.old width.new) }
    {
        eliminate_cells(&mut self.cells, &other.cells, column, width)
    }
}

/// Whether each cell has its negative in 128 bits.
fn negations_fit(cells: &[i128]) -> bool
    ensures { IsTrue result ↔ All (λ x. FitsSigned w128 (neg_ℤ x)) cells.now }
{
    for x in cells {
        if *x == i128::MIN {
            return false;
        }
    }
    true
}

fn negate_all(cells: &mut [i128])
    requires { All (λ x. FitsSigned w128 (neg_ℤ x)) cells.old }
    ensures { cells.new ≡ map neg_ℤ cells.old }
{
    for x in cells.iter_mut() {
        *x = -*x;
    }
}

fn cell_fits(p: i128, s: i128, x: i128, y: i128) -> bool
    ensures { IsTrue result ↔ CellFits p s x y }
{
    let Some(own) = p.checked_mul(x) else {
        return false;
    };
    let Some(other) = s.checked_mul(y) else {
        return false;
    };
    own.checked_sub(other).is_some()
}

fn combined_cell(p: i128, s: i128, x: i128, y: i128) -> i128
    requires { CellFits p s x y }
    ensures { result ≡ p *ℤ x -ℤ s *ℤ y }
{
    p * x - s * y
}

/// The greatest size of a cell.
fn most_size(cells: &[i128]) -> u128
    ensures { All (λ x. unsigned_abs x ≤ result) cells.now }
{
    let mut most = 0u128;
    for x in cells {
        most = most.max(x.unsigned_abs());
    }
    most
}

/// Whether each product with the factor is surely below 2^126 in size.
fn are_products_small(factor: i128, cells: &[i128]) -> bool
    ensures { IsTrue result → All (λ x. unsigned_abs (factor *ℤ x) < 2 ^ 126) cells.now }
{
    match factor.unsigned_abs().checked_mul(most_size(cells)) {
        Some(most) => most < 1 << 126,
        None => false,
    }
}

/// Whether `combine` stays in 128 bits, cell by cell.
fn each_cell_fits(p: i128, s: i128, cells: &[i128], other: &[i128]) -> bool
    requires { length cells.now ≡ length other.now }
    ensures { IsTrue result ↔ CombinationFits p s cells.now other.now }
{
    for i in 0..cells.len() {
        if !cell_fits(p, s, cells[i], other[i]) {
            return false;
        }
    }
    true
}

/// Whether the sizes alone show that `combine` stays in 128 bits.
fn are_sizes_small(p: i128, s: i128, cells: &[i128], other: &[i128]) -> bool
    requires { length cells.now ≡ length other.now }
    ensures { IsTrue result → CombinationFits p s cells.now other.now }
{
    are_products_small(p, cells) && are_products_small(s, other)
}

/// Whether `combine` stays in 128 bits.
fn combination_fits(p: i128, s: i128, cells: &[i128], other: &[i128]) -> bool
    requires { length cells.now ≡ length other.now }
    ensures { IsTrue result ↔ CombinationFits p s cells.now other.now }
{
    if are_sizes_small(p, s, cells, other) {
        return true;
    }
    each_cell_fits(p, s, cells, other)
}

/// Each cell becomes `p` times itself minus `s` times the other row's cell.
fn combine(p: i128, s: i128, cells: &mut [i128], other: &[i128])
    requires lengths { length cells.old ≡ length other.now }
    requires fits { CombinationFits p s cells.old other.now }
    ensures { cells.new ≡ combined p s cells.old other.now }
{
    for i in 0..cells.len() {
        cells[i] = combined_cell(p, s, cells[i], other[i]);
    }
}

/// The greatest common divisor of the cells.
fn content(cells: &[i128]) -> u128
    ensures { IsContent result cells.now }
{
    let mut common = 0u128;
    for x in cells {
        common = gcd(common, x.unsigned_abs());
        if common == 1 {
            return 1;
        }
    }
    common
}

/// A cell by a divisor of it that is above 1.
fn divided_cell(x: i128, g: u128) -> i128
    requires { 1 < g }
    ensures { result ≡ int_div x (pos g) }
{
    let size = size_quotient(x.unsigned_abs(), g) as i128;
    if x < 0 { -size } else { size }
}

fn divide_all(cells: &mut [i128], g: u128)
    requires { 1 < g }
    ensures { cells.new ≡ map (λ x. int_div x (pos g)) cells.old }
{
    for x in cells.iter_mut() {
        *x = divided_cell(*x, g);
    }
}

/// Divides the cells by their greatest common divisor, if that isn't 0.
fn divide_by_content(cells: &mut [i128])
    ensures { (g : ℕ) → IsContent g cells.old → cells.new ≡ divided g cells.old }
{
    let common = content(cells);
    if common > 1 {
        divide_all(cells, common);
    }
}

/// Notes that each cell is a number of 128 bits. There is no work in it.
fn note_ranges(cells: &[i128])
    ensures { All (λ x. FitsSigned w128 x) cells.now }
{
    for place in 0..cells.len() {
        let _cell = cells[place];
    }
}

/// `IntRow::eliminate` on the cells themselves.
fn eliminate_cells(
    cells: &mut [i128],
    other: &[i128],
    column: usize,
    width: &mut Width,
) -> Result<(), Left>
    requires lengths { length cells.old ≡ length other.now }
    requires inside { column < length cells.old }
    requires positive { pos 0 <ℤ cell_at other.now column }
    ensures fits { IsOk result
        ↔ EliminationFits (cell_at other.now column) (cell_at cells.old column) cells.old other.now }
    ensures ok { OnOk result
        (IsEliminated (cell_at other.now column) (cell_at cells.old column) other.now cells.old cells.new) }
    ensures solutions { OnOk result (KeepsSolutions other.now cells.old cells.new) }
    ensures err { OnErr result (cells.new ≡ cells.old) }
    ensures kept { OnOk result (width.new ≡ width.old) }
    ensures left { OnErr result (Rose width.old width.new) }
{
    let pivot = other[column];
    let cell = cells[column];
    if cell == 0 {
        // The factors are 1 and 0, so only what the cells have in common is taken out.
        note_ranges(cells);
        divide_by_content(cells);
        return Ok(());
    }
    let common = common_divisor(cell, pivot);
    let factor = quotient(pivot, common);
    let taken = quotient(cell, common);
    if !combination_fits(factor, taken, cells, other) {
        return Err(width.record_left());
    }
    combine(factor, taken, cells, other);
    divide_by_content(cells);
    Ok(())
}
