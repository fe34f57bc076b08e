ghost use Rattle.dual_leaves.specs.Divided.{Divides, DivideAll, AreSmall};
ghost use Rattle.std.specs.Map.{values_of};
ghost use Rattle.std.specs.Prelude.{◌≡◌, ◌^◌, ◌<◌, pos, ◌<ℤ◌, All, int_div, unsigned_abs, IfSome, IfNone};

use crate::account::Account;
use ratio::Ratio;
use std::collections::BTreeMap;

/// No number of a leaf but its scale is greater in size.
const MOST_SIZE: u128 = 1_000_000_000_000_000_000_000_000_000_000;

/// The greatest common divisor of the scale and all numbers of the account that the leaf will have.
pub(crate) fn divisor_of(scale: &i128, account: &Account) -> i128
    requires { pos 0 <ℤ scale.now }
    ensures positive { pos 0 <ℤ result }
    ensures scale { Divides result scale.now }
    ensures u { DivideAll result (values_of account.now.u.entries) }
    ensures v { DivideAll result (values_of account.now.v.entries) }
    ensures alpha { DivideAll result (values_of account.now.alpha.entries) }
    ensures beta { DivideAll result (values_of account.now.beta.entries) }
{
    let with_u = common_divisor(scale, &account.u);
    let with_v = common_divisor(&with_u, &account.v);
    let with_alpha = common_divisor(&with_v, &account.alpha);
    common_divisor(&with_alpha, &account.beta)
}

/// The greatest common divisor of a positive number and all numbers of a map.
fn common_divisor<K: Ord>(start: &i128, sums: &BTreeMap<K, i128>) -> i128
    requires { pos 0 <ℤ start.now }
    ensures positive { pos 0 <ℤ result }
    ensures start { Divides result start.now }
    ensures each { DivideAll result (values_of sums.now.entries) }
{
    let mut divisor = *start;
    for value in sums.values() {
        divisor = gcd(&divisor, value);
    }
    divisor
}

/// The greatest common divisor of a positive number and another one.
fn gcd(positive: &i128, other: &i128) -> i128
    requires { pos 0 <ℤ positive.now }
    ensures positive { pos 0 <ℤ result }
    ensures first { Divides result positive.now }
    ensures second { Divides result other.now }
{
    quotient(*positive, Ratio::new(*other, *positive).den)
}

/// The quotient by a positive number, rounded toward zero.
pub(crate) fn quotient(number: i128, divisor: i128) -> i128
    requires { pos 0 <ℤ divisor }
    ensures { result ≡ int_div number divisor }
{
    number / divisor
}

/// The first of the map's numbers that stays too great in size for a leaf when it is divided.
pub(crate) fn too_wide<K: Ord>(sums: &BTreeMap<K, i128>, divisor: &i128) -> Option<i128>
    requires { pos 0 <ℤ divisor.now }
    ensures some { IfSome result (λ n. 10 ^ 30 < unsigned_abs n) }
    ensures none { IfNone result (AreSmall divisor.now (values_of sums.now.entries)) }
{
    for value in sums.values() {
        let number = quotient(*value, *divisor);
        if number.unsigned_abs() > MOST_SIZE {
            return Some(number);
        }
    }
    None
}
