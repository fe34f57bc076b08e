ghost use Rattle.leaf_bounds.specs.Fixed.{is_train, opener, opening, paid, pairs_paid, sealed_at};
ghost use Rattle.pair_prices.specs.Plan.{chosen, Fits};
ghost use Rattle.patterns.specs.Book.{price_at};
ghost use Rattle.std.specs.Prelude.{◌≡◌, ◌*◌, ◌<◌, ◌≤◌, ◌^◌, length, slice_index, IfSome};

use crate::value::price_of_platform;
use pair_prices::Case;
use station::Pattern;

/// The pattern that the plan gives the train.
pub(crate) fn chosen_of(case: &Case, plan: &[u16], train: u16) -> Pattern
    requires fits { Fits case.now plan.now }
    requires train { train < length case.now.book }
    ensures { result ≡ chosen case.now plan.now train }
{
    case.book().get(train as usize, plan[train as usize])
}

/// The first train of the plan on the platform.
pub(crate) fn opener_of(case: &Case, plan: &[u16], platform: u16) -> Option<u16>
    requires { Fits case.now plan.now }
    ensures value { result ≡ opener case.now plan.now platform }
    ensures there { IfSome result (λ t. t < length case.now.book) }
{
    let trains = case.book().trains() as u16;
    for train in 0..trains {
        if chosen_of(case, plan, train).platform as u16 == platform {
            return Some(train);
        }
    }
    None
}

/// What the train pays: its pattern, its platform where it is the first on it, and its pairs with later trains.
pub(crate) fn paid_by(case: &Case, plan: &[u16], train: u16) -> u64
    requires fits { Fits case.now plan.now }
    requires train { train < length case.now.book }
    ensures { result ≡ paid case.now plan.now train }
{
    price_by(case, plan, train) + opening_by(case, plan, train) + pairs_by(case, plan, train)
}

fn price_by(case: &Case, plan: &[u16], train: u16) -> u64
    requires fits { Fits case.now plan.now }
    requires train { train < length case.now.book }
    ensures value { result ≡ price_at case.now.book train (slice_index plan.now train) }
    ensures limit { result ≤ 10 ^ 10 }
{
    case.book().price_of(train as usize, plan[train as usize]) as u64
}

fn opening_by(case: &Case, plan: &[u16], train: u16) -> u64
    requires fits { Fits case.now plan.now }
    requires train { train < length case.now.book }
    ensures value { result ≡ opening case.now plan.now train }
    ensures limit { result < 2 ^ 32 }
{
    let platform = chosen_of(case, plan, train).platform as u16;
    let first = is_that(opener_of(case, plan, platform), train);
    if first {
        price_of_platform(case, platform) as u64
    } else {
        0
    }
}

fn is_that(opener: Option<u16>, train: u16) -> bool
    ensures { result ≡ is_train train opener }
{
    match opener {
        Some(first) => first == train,
        None => false,
    }
}

fn pairs_by(case: &Case, plan: &[u16], train: u16) -> u64
    requires fits { Fits case.now plan.now }
    requires train { train < length case.now.book }
    ensures value { result ≡ pairs_paid case.now plan.now train }
    ensures limit { result ≤ 200 * 10 ^ 13 }
{
    let trains = case.book().trains() as u16;
    let mut sum = 0;
    for second in train + 1..trains {
        sum += sealed_by(case, plan, train, second);
    }
    sum
}

pub(crate) fn sealed_by(case: &Case, plan: &[u16], first: u16, second: u16) -> u64
    requires fits { Fits case.now plan.now }
    requires order { first < second }
    requires there { second < length case.now.book }
    ensures value { result ≡ sealed_at case.now plan.now (record { first = first; second = second }) }
    ensures limit { result ≤ 10 ^ 13 }
{
    let _limits = case.station();
    let price = case.sealed(
        first as usize,
        plan[first as usize],
        second as usize,
        plan[second as usize],
    );
    price as u64
}
