ghost use Rattle.std.specs.Prelude.{◌≡◌, ℕ, ◌↔◌, pos, ◌+ℤ◌, ◌-ℤ◌, ◌*ℤ◌, ◌<ℤ◌, MatchOption, IfSome, IsSome, ◌*◌, IfOk, OnOk, OnErr, IsOk, unsigned_abs, int_div, FitsSigned};
ghost use Rattle.std.specs.Int.{IsGcd};
ghost use Rattle.std.specs.Ordering.{int_cmp, nat_cmp};
ghost use Rattle.ratio.specs.Fraction.{IsLowest, IsSameFraction, SumFits, DifferenceFits, HasRatio, IsCeiling, ExtendedSumFits, ExtendedDifferenceFits};
ghost use Rattle.ratio.specs.Ledger.{Rose};

use crate::common::{common_divisor, quotient};
use crate::width::{Left, Width};
use std::cmp::Ordering;

/// A fraction in lowest terms, with a positive denominator.
#[derive(Clone, Copy, Debug, PartialEq, Eq)]
pub struct Ratio {
    pub num: i128,
    pub den: i128,
    pub ghost positive: { pos 0 <ℤ den },
    pub ghost lowest: { IsLowest num den },
}

impl Ratio {
    /// The fraction `num / den` in lowest terms. The denominator is positive.
    pub fn new(num: i128, den: i128) -> Ratio
        requires { pos 0 <ℤ den }
        ensures { IsSameFraction result.num result.den num den }
    {
        let common = common_divisor(num, den);
        Ratio {
            num: quotient(num, common),
            den: quotient(den, common),
        }
    }

    /// The sum.
    ///
    /// For `a / b` and `c / d`, with `g` the greatest common divisor of `b` and `d`, `Left` comes exactly where
    /// `a * (d / g)`, `c * (b / g)`, their sum or `b * (d / g)` leaves 128 bits.
    pub fn add(self, other: Ratio, width: &mut Width) -> Result<Ratio, Left>
        ensures value { IfOk result (λ r. IsSameFraction r.num r.den
            (self.num *ℤ other.den +ℤ other.num *ℤ self.den) (self.den *ℤ other.den)) }
        ensures fits { (g : ℕ) → IsGcd (unsigned_abs self.den) (unsigned_abs other.den) g
            → IsOk result ↔ SumFits self.num self.den other.num other.den g }
        ensures kept { OnOk result (width.new ≡ width.old) }
        ensures left { OnErr result (Rose width.old width.new) }
    {
        let common = common_divisor(self.den, other.den);
        let own = quotient(other.den, common);
        let others = quotient(self.den, common);
        match extended_sum(self.num, self.den, other.num, own, others) {
            Some(sum) => Ok(Ratio::new(sum.num, sum.den)),
            None => Err(width.record_left()),
        }
    }

    /// The difference. `Left` comes as in `add`, with the difference in place of the sum.
    pub fn sub(self, other: Ratio, width: &mut Width) -> Result<Ratio, Left>
        ensures value { IfOk result (λ r. IsSameFraction r.num r.den
            (self.num *ℤ other.den -ℤ other.num *ℤ self.den) (self.den *ℤ other.den)) }
        ensures fits { (g : ℕ) → IsGcd (unsigned_abs self.den) (unsigned_abs other.den) g
            → IsOk result ↔ DifferenceFits self.num self.den other.num other.den g }
        ensures kept { OnOk result (width.new ≡ width.old) }
        ensures left { OnErr result (Rose width.old width.new) }
    {
        let common = common_divisor(self.den, other.den);
        let own = quotient(other.den, common);
        let others = quotient(self.den, common);
        match extended_difference(self.num, self.den, other.num, own, others) {
            Some(rest) => Ok(Ratio::new(rest.num, rest.den)),
            None => Err(width.record_left()),
        }
    }

    /// The product. It is `Left` exactly where the product in lowest terms leaves 128 bits.
    pub fn mul(self, other: Ratio, width: &mut Width) -> Result<Ratio, Left>
        ensures value { IfOk result (λ r. IsSameFraction r.num r.den
            (self.num *ℤ other.num) (self.den *ℤ other.den)) }
        ensures fits { IsOk result ↔ HasRatio (self.num *ℤ other.num) (self.den *ℤ other.den) }
        ensures kept { OnOk result (width.new ≡ width.old) }
        ensures left { OnErr result (Rose width.old width.new) }
    {
        match product(self, other) {
            Some(product) => Ok(product),
            None => Err(width.record_left()),
        }
    }

    /// Compares the two fractions. It never fails, whatever the numbers.
    pub fn cmp(&self, other: &Ratio) -> Ordering
        ensures { result
            ≡ int_cmp (self.now.num *ℤ other.now.den) (other.now.num *ℤ self.now.den) }
    {
        cmp_products(self.num, other.den, other.num, self.den)
    }

    /// The least whole number that the fraction does not exceed. It always fits.
    pub fn ceil(self) -> i128
        ensures { IsCeiling self.num self.den result }
    {
        let down = self.num.div_euclid(self.den);
        if self.num.rem_euclid(self.den) == 0 {
            down
        } else {
            down + 1
        }
    }
}

/// A numerator and a denominator, not yet in lowest terms.
#[derive(Clone, Copy)]
struct Parts {
    num: i128,
    den: i128,
}

/// `a / b + c / d`, with `x` and `y` as the factors that extend the fractions to one denominator.
fn extended_sum(a: i128, b: i128, c: i128, x: i128, y: i128) -> Option<Parts>
    ensures { MatchOption result (¬ (ExtendedSumFits a b c x y))
        (λ p. ExtendedSumFits a b c x y × (p.num ≡ a *ℤ x +ℤ c *ℤ y) × (p.den ≡ b *ℤ x)) }
{
    let first = a.checked_mul(x)?;
    let second = c.checked_mul(y)?;
    let num = first.checked_add(second)?;
    let den = b.checked_mul(x)?;
    Some(Parts { num, den })
}

/// `a / b - c / d`, likewise.
fn extended_difference(a: i128, b: i128, c: i128, x: i128, y: i128) -> Option<Parts>
    ensures { MatchOption result (¬ (ExtendedDifferenceFits a b c x y))
        (λ p. ExtendedDifferenceFits a b c x y × (p.num ≡ a *ℤ x -ℤ c *ℤ y) × (p.den ≡ b *ℤ x)) }
{
    let first = a.checked_mul(x)?;
    let second = c.checked_mul(y)?;
    let num = first.checked_sub(second)?;
    let den = b.checked_mul(x)?;
    Some(Parts { num, den })
}

/// The product in lowest terms, where it fits.
fn product(left: Ratio, right: Ratio) -> Option<Ratio>
    ensures some { IfSome result (λ r. IsSameFraction r.num r.den
        (left.num *ℤ right.num) (left.den *ℤ right.den)) }
    ensures fits { IsSome result ↔ HasRatio (left.num *ℤ right.num) (left.den *ℤ right.den) }
{
    let across = common_divisor(left.num, right.den);
    let back = common_divisor(right.num, left.den);
    let num = quotient(left.num, across).checked_mul(quotient(right.num, back))?;
    let den = quotient(left.den, back).checked_mul(quotient(right.den, across))?;
    Some(Ratio { num, den })
}

/// Compares `a * b` with `c * d`, where `b` and `d` are positive.
fn cmp_products(a: i128, b: i128, c: i128, d: i128) -> Ordering
    requires first { pos 0 <ℤ b }
    requires second { pos 0 <ℤ d }
    ensures { result ≡ int_cmp (a *ℤ b) (c *ℤ d) }
{
    if a < 0 && c < 0 {
        cmp_sizes(c.unsigned_abs(), d as u128, a.unsigned_abs(), b as u128)
    } else if a < 0 {
        Ordering::Less
    } else if c < 0 {
        Ordering::Greater
    } else {
        cmp_sizes(a as u128, b as u128, c as u128, d as u128)
    }
}

/// Compares `a * b` with `c * d`.
fn cmp_sizes(a: u128, b: u128, c: u128, d: u128) -> Ordering
    ensures { result ≡ nat_cmp (a * b) (c * d) }
{
    let (left_low, left_high) = a.carrying_mul(b, 0);
    let (right_low, right_high) = c.carrying_mul(d, 0);
    if left_high == right_high {
        left_low.cmp(&right_low)
    } else {
        left_high.cmp(&right_high)
    }
}
