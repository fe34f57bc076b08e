//! Sums, products and differences of whole numbers of 128 bits. Where one doesn't fit, the ledger counts it.

ghost use Rattle.ratio.specs.Ledger.{Raised};
ghost use Rattle.std.specs.Int.{w128};
ghost use Rattle.std.specs.Prelude.{◌≡◌, ◌≤◌, pos, ◌*ℤ◌, ◌+ℤ◌, ◌-ℤ◌, FitsSigned, IfOk, OnErr};

use crate::fraction::Ratio;
use crate::width::{Left, Width};

/// The whole number as a fraction.
fn as_fraction(a: i128) -> Ratio
    ensures num { result.num ≡ a }
    ensures den { result.den ≡ pos 1 }
{
    Ratio::new(a, 1)
}

/// The product. `Left`, with the ledger raised, comes exactly where it isn't one of 128 bits.
pub fn product(a: i128, b: i128, width: &mut Width) -> Result<i128, Left>
    ensures value { IfOk result (λ c. c ≡ a *ℤ b) }
    ensures ledger { width.old ≤ width.new }
    ensures left { OnErr result (Raised width.old width.new) }
    ensures never { OnErr result (¬ (FitsSigned w128 (a *ℤ b))) }
{
    match a.checked_mul(b) {
        Some(found) => Ok(found),
        None => counted_product(a, b, width),
    }
}

/// The product by fractions, which count what leaves 128 bits.
#[cold]
fn counted_product(a: i128, b: i128, width: &mut Width) -> Result<i128, Left>
    ensures value { IfOk result (λ c. c ≡ a *ℤ b) }
    ensures ledger { width.old ≤ width.new }
    ensures left { OnErr result (Raised width.old width.new) }
{
    Ok(as_fraction(a).mul(as_fraction(b), width)?.num)
}

/// The sum. `Left`, with the ledger raised, comes exactly where it isn't one of 128 bits.
pub fn sum(a: i128, b: i128, width: &mut Width) -> Result<i128, Left>
    ensures value { IfOk result (λ c. c ≡ a +ℤ b) }
    ensures ledger { width.old ≤ width.new }
    ensures left { OnErr result (Raised width.old width.new) }
    ensures never { OnErr result (¬ (FitsSigned w128 (a +ℤ b))) }
{
    match a.checked_add(b) {
        Some(found) => Ok(found),
        None => counted_sum(a, b, width),
    }
}

/// The sum by fractions, which count what leaves 128 bits.
#[cold]
fn counted_sum(a: i128, b: i128, width: &mut Width) -> Result<i128, Left>
    ensures value { IfOk result (λ c. c ≡ a +ℤ b) }
    ensures ledger { width.old ≤ width.new }
    ensures left { OnErr result (Raised width.old width.new) }
{
    Ok(as_fraction(a).add(as_fraction(b), width)?.num)
}

/// The difference. `Left`, with the ledger raised, comes exactly where it isn't one of 128 bits.
pub fn difference(a: i128, b: i128, width: &mut Width) -> Result<i128, Left>
    ensures value { IfOk result (λ c. c ≡ a -ℤ b) }
    ensures ledger { width.old ≤ width.new }
    ensures left { OnErr result (Raised width.old width.new) }
    ensures never { OnErr result (¬ (FitsSigned w128 (a -ℤ b))) }
{
    match a.checked_sub(b) {
        Some(found) => Ok(found),
        None => counted_difference(a, b, width),
    }
}

/// The difference by fractions, which count what leaves 128 bits.
#[cold]
fn counted_difference(a: i128, b: i128, width: &mut Width) -> Result<i128, Left>
    ensures value { IfOk result (λ c. c ≡ a -ℤ b) }
    ensures ledger { width.old ≤ width.new }
    ensures left { OnErr result (Raised width.old width.new) }
{
    Ok(as_fraction(a).sub(as_fraction(b), width)?.num)
}
