// What a pattern of the next train adds to the cost of earlier choices.
ghost use Rattle.pair_prices.specs.Plan.{platform_price};
ghost use Rattle.patterns.specs.Book.{offers_of, pattern_at, price_at};
ghost use Rattle.primal_heuristic.specs.Greedy.{is_taken, price_if_new};
ghost use Rattle.primal_heuristic.specs.Looks.{AreEarlier, price_against, prices_beside};
ghost use Rattle.std.specs.Prelude.{◌≡◌, ◌<◌, ◌≤◌, length, IfSome};

use pair_prices::{Case, Pair};

/// What the pattern costs beside all earlier choices, or `None` where it is forbidden with one of them.
pub(crate) fn prices_beside(case: &Case, earlier: &[u16], number: u16) -> Option<u64>
    requires earlier { AreEarlier case.now earlier.now }
    requires number { number < length (offers_of case.now.book (length earlier.now)) }
    ensures value { result ≡ prices_beside case.now earlier.now number }
    ensures most { IfSome result (λ n. n ≤ 60_000_000_000) }
{
    // A case has at most 200 trains.
    let _trains = case.book().trains();
    let mut total = 0;
    for train in 0..earlier.len() {
        total += price_against(case, earlier, number, train)?;
    }
    Some(total)
}

/// What the pattern costs beside the choice of an earlier train, or `None` where the two are forbidden together.
fn price_against(case: &Case, earlier: &[u16], number: u16, train: usize) -> Option<u64>
    requires earlier { AreEarlier case.now earlier.now }
    requires number { number < length (offers_of case.now.book (length earlier.now)) }
    requires train { train < length earlier.now }
    ensures value { result ≡ price_against case.now earlier.now number train }
    ensures most { IfSome result (λ n. n ≤ 300_000_000) }
{
    // The station keeps the limits of the prices.
    let _station = case.station();
    match case.pair(train, earlier[train], earlier.len(), number) {
        Pair::Price(price) => Some(price as u64),
        Pair::Forbidden(_) => None,
    }
}

pub(crate) fn pattern_price(case: &Case, earlier: &[u16], number: u16) -> u64
    requires earlier { AreEarlier case.now earlier.now }
    requires number { number < length (offers_of case.now.book (length earlier.now)) }
    ensures value { result ≡ price_at case.now.book (length earlier.now) number }
    ensures most { result ≤ 10_000_000_000 }
{
    case.book().price_of(earlier.len(), number) as u64
}

/// What the pattern's platform costs if no earlier train uses it.
#[tactic(auto, unfolding(crate::specs::Greedy::price_if_new))]
pub(crate) fn platform_price(case: &Case, earlier: &[u16], number: u16) -> u64
    requires earlier { AreEarlier case.now earlier.now }
    requires number { number < length (offers_of case.now.book (length earlier.now)) }
    ensures value { result ≡ price_if_new case.now earlier.now (pattern_at case.now.book (length earlier.now) number).platform }
    ensures most { result ≤ 1_000_000_000 }
{
    let platform = case.book().get(earlier.len(), number).platform;
    if is_taken(case, earlier, platform) {
        0
    } else {
        price_of_platform(case, platform)
    }
}

fn is_taken(case: &Case, earlier: &[u16], platform: u8) -> bool
    requires { AreEarlier case.now earlier.now }
    ensures { result ≡ is_taken case.now earlier.now platform }
{
    for train in 0..earlier.len() {
        if case.book().get(train, earlier[train]).platform == platform {
            return true;
        }
    }
    false
}

fn price_of_platform(case: &Case, platform: u8) -> u64
    ensures value { result ≡ platform_price case.now platform }
    ensures most { result ≤ 1_000_000_000 }
{
    match case.station().platforms.get(platform as usize) {
        Some(platform) => platform.price as u64,
        None => 0,
    }
}
