ghost use Rattle.std.specs.Prelude.{◌≡◌, ◌<◌, ◌≤◌, ◌/◌, ◌<ℤ◌, pos, unsigned_abs, int_div};
ghost use Rattle.std.specs.Int.{IsGcd};

/// The greatest number of 64 bits. Division of numbers up to it is much faster.
const MOST_SMALL: u128 = 0xFFFF_FFFF_FFFF_FFFF;

/// The greatest common divisor.
pub fn gcd(a: u128, b: u128) -> u128
    ensures { IsGcd a b result }
{
    if a < b {
        gcd_downward(b, a)
    } else {
        gcd_downward(a, b)
    }
}

/// The greatest common divisor of a number and one that is not greater.
fn gcd_downward(a: u128, b: u128) -> u128
    requires { b ≤ a }
    ensures { IsGcd a b result }
{
    let mut x = a;
    let mut y = b;
    while x > MOST_SMALL {
        if y == 0 {
            return x;
        }
        let rest = x % y;
        x = y;
        y = rest;
    }
    u128::from(small_gcd(x as u64, y as u64))
}

/// The greatest common divisor of numbers of 64 bits.
fn small_gcd(a: u64, b: u64) -> u64
    ensures { IsGcd a b result }
{
    let mut x = a;
    let mut y = b;
    while y != 0 {
        let rest = x % y;
        x = y;
        y = rest;
    }
    x
}

/// The greatest common divisor of a number and a positive one.
pub fn common_divisor(a: i128, b: i128) -> i128
    requires { pos 0 <ℤ b }
    ensures positive { pos 0 <ℤ result }
    ensures greatest { IsGcd (unsigned_abs a) (unsigned_abs b) (unsigned_abs result) }
{
    gcd(a.unsigned_abs(), b.unsigned_abs()) as i128
}

/// The quotient of two sizes, rounded down.
pub fn size_quotient(size: u128, divisor: u128) -> u128
    requires { 0 < divisor }
    ensures { result ≡ size / divisor }
{
    if size <= MOST_SMALL && divisor <= MOST_SMALL {
        u128::from(size as u64 / divisor as u64)
    } else {
        size / divisor
    }
}

/// The quotient by a positive number, rounded toward zero.
pub fn quotient(a: i128, b: i128) -> i128
    requires { pos 0 <ℤ b }
    ensures { result ≡ int_div a b }
{
    a / b
}
