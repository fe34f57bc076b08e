ghost use Rattle.leaf_bounds.specs.Leaf.{ceiling, excess, scaled, value_of};
ghost use Rattle.leaf_bounds.specs.Listed.{u_listed};
ghost use Rattle.leaf_bounds.specs.Shown.{numbers_of};
ghost use Rattle.leaf_bounds.specs.Total.{total};
ghost use Rattle.leaf_bounds.specs.Verdict.{answer_of};
ghost use Rattle.pair_prices.specs.Plan.{platform_price};
ghost use Rattle.pair_prices.specs.Top.{top_of};
ghost use Rattle.station.specs.Allowed.{numbers};
ghost use Rattle.std.specs.Prelude.{◌≡◌, ◌*◌, ◌<◌, ◌≤◌, ◌^◌, ◌≤ℤ◌, length, pos, unsigned_abs};

use crate::check::LeafValue;
use crate::leaf::Leaf;
use crate::minutes::sum_within;
use crate::sums::u_of;
use pair_prices::Case;
use path_conflicts::Held;

/// What a leaf that stands says of the plans of its lists.
pub(crate) fn leaf_value(case: &Case, leaf: &Leaf) -> LeafValue
    ensures { result ≡ answer_of case.now (numbers_of leaf.now) }
{
    let value = value_at_scale(case, leaf);
    LeafValue {
        value,
        empty: top_at_scale(case, leaf) <= value,
        bound: rounded_up(value, leaf.q),
    }
}

fn value_at_scale(case: &Case, leaf: &Leaf) -> i128
    ensures value { result ≡ value_of case.now (numbers_of leaf.now) }
    ensures size { unsigned_abs result ≤ 10 ^ 38 }
{
    u_total(case, leaf) - excess_total(case, leaf)
}

fn top_at_scale(case: &Case, leaf: &Leaf) -> i128
    ensures value { result ≡ scaled (numbers_of leaf.now) (top_of case.now) }
    ensures size { unsigned_abs result ≤ 10 ^ 31 }
{
    leaf.q * case.top() as i128
}

/// The sum of the trains' numbers.
fn u_total(case: &Case, leaf: &Leaf) -> i128
    ensures value { result ≡ total (u_listed leaf.now.u) (numbers (length case.now.book)) }
    ensures size { unsigned_abs result ≤ 200 * (200 * 10 ^ 30) }
{
    let trains = case.book().trains() as u16;
    let mut sum = 0;
    for train in 0..trains {
        sum += u_of(leaf, train);
    }
    sum
}

/// By how much the platforms' numbers are more than their prices.
fn excess_total(case: &Case, leaf: &Leaf) -> i128
    ensures value { result ≡ total (excess case.now (numbers_of leaf.now)) (numbers (length case.now.station.platforms)) }
    ensures size { unsigned_abs result ≤ 64 * 10 ^ 36 }
{
    let platforms = case.station().platforms.len() as u16;
    let mut sum = 0;
    for platform in 0..platforms {
        sum += excess_of(case, leaf, platform);
    }
    sum
}

fn excess_of(case: &Case, leaf: &Leaf, platform: u16) -> i128
    ensures value { result ≡ excess case.now (numbers_of leaf.now) platform }
    ensures size { unsigned_abs result ≤ 10 ^ 36 }
{
    let all = Held {
        start: -90,
        end: 2969,
    };
    let sum = sum_within(leaf.v.as_slice(), platform, &all);
    (sum - price_at_scale(case, leaf, platform)).max(0)
}

fn price_at_scale(case: &Case, leaf: &Leaf, platform: u16) -> i128
    ensures value { result ≡ scaled (numbers_of leaf.now) (platform_price case.now platform) }
    ensures least { pos 0 ≤ℤ result }
    ensures size { unsigned_abs result ≤ 10 ^ 28 }
{
    leaf.q * price_of_platform(case, platform) as i128
}

pub(crate) fn price_of_platform(case: &Case, platform: u16) -> u32
    ensures { result ≡ platform_price case.now platform }
{
    match case.station().platforms.get(platform as usize) {
        Some(platform) => platform.price,
        None => 0,
    }
}

/// The value over the scale, rounded up.
fn rounded_up(value: i128, scale: i128) -> i128
    requires value { unsigned_abs value ≤ 10 ^ 38 }
    requires least { pos 1 ≤ℤ scale }
    requires most { scale ≤ℤ pos (10 ^ 18) }
    ensures { result ≡ ceiling value scale }
{
    let size = value.unsigned_abs();
    let parts = scale.unsigned_abs();
    if value < 0 {
        -((size / parts) as i128)
    } else {
        ((size + (parts - 1)) / parts) as i128
    }
}
