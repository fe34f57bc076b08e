ghost use Rattle.ratio.specs.Ledger.{Raised};
ghost use Rattle.exact_lp.specs.Programs.{Improves, reduced_price};
ghost use Rattle.pattern_pricing.specs.Picks.{IsPick};
ghost use Rattle.pattern_pricing.specs.Prices.{IsLayoutOf, column_count, column_price};
ghost use Rattle.pattern_pricing.specs.Reduced.{AreSmall, reduced_at};
ghost use Rattle.patterns.specs.Allowed.{FitsBook};
ghost use Rattle.std.specs.Prelude.{◌≡◌, ℕ, ◌≤◌, ◌<◌, ◌^◌, length, pos, ◌≤ℤ◌, IfOk, IfSome, IfNone, IsErrOf};

use crate::layout::Layout;
use crate::pick::pick;
use crate::prices::price_of;
use crate::reduced::reduced_prices;
use exact_lp::{Columns, Duals, LpFault};
use pair_prices::Case;
use ratio::Width;
use std::alloc::Global;
use std::marker::Model;

/// The columns of a layout at the prices of a case: a pattern's price, TOP for a left-out weight, the platform's price, and 1
/// for a pair value. No column is listed in a table.
#[derive(Drop)]
pub struct PatternPricing<'a> {
    case: &'a Case,
    layout: &'a Layout,
}

impl<'a> Model for PatternPricing<'a> {
    ghost use Rattle.pattern_pricing.specs.Prices.{IsLayoutOf, PricingRecord};

    ghost Value = { PricingRecord };

    ghost view = { λ p. record { case = p.case.now; layout = p.layout.now } };

    ghost invariant = { λ p. IsLayoutOf p.case.now p.layout.now };
}

impl<'a> PatternPricing<'a> {
    /// A source of the layout's columns. It takes no memory.
    pub fn new(case: &'a Case, layout: &'a Layout) -> PatternPricing<'a>
        requires lists { FitsBook layout.now.lists case.now.book }
        requires platforms { layout.now.platforms ≡ length case.now.station.platforms }
        ensures case { result.case ≡ case.now }
        ensures layout { result.layout ≡ layout.now }
    {
        PatternPricing { case, layout }
    }
}

impl<'a> Columns for PatternPricing<'a> {
    ghost column_count = { column_count };

    ghost column_price = { column_price };

    fn count(&self) -> u64 {
        self.layout.count()
    }

    fn price(&self, column: u64) -> i64 {
        // No price is above TOP, which is small.
        let _top = self.case.top();
        price_of(self.case, self.layout, &self.layout.column(column)) as i64
    }

    /// The column of least reduced price among the patterns of the first train that has a negative one, or among the other
    /// columns where no train has one.
    ///
    /// # Errors
    /// `Left` where a number on the way leaves 128 bits, and `Memory` where none was found.
    fn improving(
        &self,
        alloc: Global,
        duals: &Duals,
        width: &mut Width,
    ) -> Result<Option<u64>, LpFault>
        requires { duals.now.scale ≤ℤ pos (10 ^ 24) }
        ensures some { IfOk result (λ found. IfSome found (λ column. Improves (column_price self.now) (column_count self.now) duals.now column)) }
        ensures none { IfOk result (λ found. IfNone found ((column : ℕ) → column < column_count self.now → pos 0 ≤ℤ reduced_price (pos (column_price self.now column)) duals.now column)) }
        ensures ledger { width.old ≤ width.new }
        ensures left { IsErrOf result LpFault.Left → Raised width.old width.new }
        ensures pick { IfOk result (λ found. IfSome found (IsPick self.now.layout (reduced_at self.now duals.now))) }
        // Never where the scale times TOP and the sizes of all values times cells are together at most i128's greatest number.
        ensures never { IsErrOf result LpFault.Left → ¬ (AreSmall self.now.case duals.now) }
    {
        let reduced = reduced_prices(alloc, self.case, self.layout, duals, width)?;
        Ok(pick(self.layout, &reduced))
    }
}
