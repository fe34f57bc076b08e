ghost use Rattle.std.specs.Prelude.{◌≡◌, ℕ, ℤ, ◌<◌, ◌≤◌, ◌^◌, ◌↔◌, All, List, pos, ◌≤ℤ◌, ◌<ℤ◌, IfOk, OnOk, IfSome, IfNone, OnSome, IsErrOf};
ghost use Rattle.exact_lp.specs.declared.source.LpFault.TheVariants.{Memory, Left as LeftFault};
ghost use Rattle.ratio.specs.Ledger.{Raised};
ghost use Rattle.exact_lp.specs.Programs.{Holds, Improves, reduced_price};
ghost use Rattle.exact_lp.specs.Sources.{IsOpening, OpeningMeets};
ghost use Rattle.exact_lp.specs.declared.row.Row.{Row};

use crate::duals::Duals;
use crate::listed::Listed;
use crate::point::Point;
use crate::row::Row;
use ratio::{Left, Width};
use std::alloc::{AllocError, AllocFailed, Global};

/// Why a source gave no answer.
#[derive(Clone, Copy, Debug, PartialEq, Eq)]
pub enum LpFault {
    /// No memory was found.
    Memory,
    /// A number left 128 bits, which the ledger has counted.
    Left,
}

impl From<AllocError> for LpFault {
    ghost from_gives = { λ _ e. e ≡ Memory };

    fn from(_: AllocError) -> Self {
        LpFault::Memory
    }
}

impl<T: Drop> From<AllocFailed<T>> for LpFault {
    ghost from_gives = { λ _ e. e ≡ Memory };

    fn from(_: AllocFailed<T>) -> Self {
        LpFault::Memory
    }
}

impl From<Left> for LpFault {
    ghost from_gives = { λ _ e. e ≡ LeftFault };

    fn from(_: Left) -> Self {
        LpFault::Left
    }
}

/// A source of columns with their prices.
pub trait Columns {
    /// How many columns there are.
    ghost column_count: { Self → ℕ };

    /// The price of a column.
    ghost column_price: { Self → ℕ → ℕ };

    /// The columns are those below it, at most 2^40.
    fn count(&self) -> u64
        ensures count { result ≡ column_count self.now }
        ensures bound { result ≤ 2 ^ 40 };

    /// The price of a column below the count, at least 0.
    fn price(&self, column: u64) -> i64
        requires { column < column_count self.now }
        ensures { result ≡ pos (column_price self.now column) };

    /// A column with a negative reduced price under the duals, whose scale is at most 10^24. `None` comes only where no
    /// column has one.
    fn improving(
        &self,
        alloc: Global,
        duals: &Duals,
        width: &mut Width,
    ) -> Result<Option<u64>, LpFault>
        requires { duals.now.scale ≤ℤ pos (10 ^ 24) }
        ensures some { IfOk result (λ found. IfSome found (λ column. Improves (column_price self.now) (column_count self.now) duals.now column)) }
        ensures none { IfOk result (λ found. IfNone found ((column : ℕ) → column < column_count self.now → pos 0 ≤ℤ reduced_price (pos (column_price self.now column)) duals.now column)) }
        ensures ledger { width.old ≤ width.new }
        ensures left { IsErrOf result LpFault.Left → Raised width.old width.new };
}

/// The opening rows of a source, and a column of its own for each: it has the value 1 there, and 0 in the other opening rows.
#[derive(Debug, Drop)]
pub struct Opening {
    pub rows: Listed<Row>,
    pub columns: Listed<u64>,
}

/// A source of rows: some that are given at first, and others that stand and are found by need.
pub trait Cuts {
    /// The opening rows.
    ghost opening_rows: { Self → List Row };

    /// The rows that stand.
    ghost stands: { Self → Row → Type 0 };

    /// The opening rows with their own columns. The point of scale 1 that gives each own column its row's least number
    /// meets every row that stands.
    fn opening(&self, alloc: Global) -> Result<Opening, AllocError>
        ensures rows { IfOk result (λ opening. opening.rows ≡ opening_rows self.now) }
        ensures opening { IfOk result (λ opening. IsOpening opening.rows opening.columns) }
        ensures meets { IfOk result (λ opening. (row : Row) → stands self.now row → OpeningMeets opening.rows opening.columns row) };

    /// A row that stands and doesn't hold at the point, which meets the opening rows and has a scale of at most 10^24.
    /// `None` comes only where every row that stands holds. Neither meaning of the source changes.
    fn violated(
        &mut self,
        alloc: Global,
        point: &Point,
        width: &mut Width,
    ) -> Result<Option<Row>, LpFault>
        requires opening { All (λ row. Holds row point.now) (opening_rows self.old) }
        requires scale { point.now.scale ≤ℤ pos (10 ^ 24) }
        ensures some { IfOk result (λ found. IfSome found (λ row. stands self.new row × ¬ (Holds row point.now))) }
        ensures none { IfOk result (λ found. IfNone found ((row : Row) → stands self.new row → Holds row point.now)) }
        ensures same_opening { opening_rows self.new ≡ opening_rows self.old }
        ensures same_standing { (row : Row) → stands self.new row ↔ stands self.old row }
        ensures ledger { width.old ≤ width.new }
        ensures left { IsErrOf result LpFault.Left → Raised width.old width.new };
}
