ghost use Rattle.std.specs.Prelude.{◌≡◌};
ghost use Rattle.exact_lp.specs.Columns.{AreAscendingCells, value_at};

use crate::listed::Listed;

/// A row's value at a column.
#[derive(Clone, Copy, Debug, PartialEq, Eq)]
pub struct RowCell {
    pub column: u64,
    pub value: i128,
}

/// A row of a linear program. It holds at a point where the sum of value times weight is at least `least` times the
/// point's scale, or equal to it where the row is `equal`. A column that isn't listed has the value 0.
#[derive(Debug, Drop)]
pub struct Row {
    pub least: i128,
    pub equal: bool,
    pub cells: Listed<RowCell>,
    ghost ascending: { AreAscendingCells cells },
}

impl Row {
    /// The value at a column, found by halves: rows may have very many cells.
    pub fn value(&self, column: u64) -> i128
        ensures { result ≡ value_at self.now.cells column }
    {
        value_among(self.cells.as_slice(), column)
    }
}

/// The value at a column among ascending cells.
fn value_among(cells: &[RowCell], column: u64) -> i128
    requires { AreAscendingCells cells.now }
    ensures { result ≡ value_at cells.now column }
{
    match cells.binary_search_by_key(&column, |cell| cell.column) {
        Ok(at) => cells[at].value,
        Err(_) => 0,
    }
}
