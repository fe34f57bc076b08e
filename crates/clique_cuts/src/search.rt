ghost use Rattle.clique_cuts.specs.Over.{HasUses, IsFirstCut, IsFirstOver, NoneOver, arrival, fraction_of};
ghost use Rattle.clique_cuts.specs.Looked.{IsEarlier, IsLooked, IsTrainLooked};
ghost use Rattle.patterns.specs.Allowed.{FitsBook, list_of};
ghost use Rattle.patterns.specs.Weights.{FitsLists};
ghost use Rattle.std.specs.Prelude.{◌≡◌, ◌^◌, ◌<◌, length, pos, ◌≤ℤ◌, slice_index_or, MatchOption};

use crate::cut::CliqueCut;
use crate::held::{Spot, count_of, held, pattern_at, weight_at};
use pair_prices::Case;
use patterns::{Allowed, Weights};

/// The first platform, and on it the first minute, at which the weights of the patterns that hold it are more than its use.
/// A listed pattern with weight arrives there at that minute. `None` comes exactly where no minute of any platform is such.
///
/// The weights are of lists that fit the case, at least 0, and each train's are the scale in total, at most 10^24. It takes
/// no memory: of each arrival with weight on a platform it goes once over all weights.
pub fn violated_clique(case: &Case, allowed: &Allowed, weights: &Weights) -> Option<CliqueCut>
    requires lists { FitsBook allowed.now.lists case.now.book }
    requires weights { FitsLists allowed.now.lists weights.now }
    requires uses { HasUses case.now weights.now }
    requires scale { weights.now.scale ≤ℤ pos (10 ^ 24) }
    ensures { MatchOption result (NoneOver case.now allowed.now.lists (fraction_of weights.now))
        (IsFirstCut case.now allowed.now.lists (fraction_of weights.now)) }
{
    for platform in 0..case.station().platforms.len() {
        let found = first_minute(case, allowed, weights, platform);
        if let Some(minute) = found {
            return Some(CliqueCut {
                platform: platform as u8,
                minute,
            });
        }
    }
    None
}

/// The first minute at which the platform is over.
fn first_minute(case: &Case, allowed: &Allowed, weights: &Weights, platform: usize) -> Option<i32>
    requires lists { FitsBook allowed.now.lists case.now.book }
    requires weights { FitsLists allowed.now.lists weights.now }
    requires uses { HasUses case.now weights.now }
    requires scale { weights.now.scale ≤ℤ pos (10 ^ 24) }
    requires platform { platform < length case.now.station.platforms }
    ensures { IsFirstOver case.now allowed.now.lists (fraction_of weights.now) platform result }
{
    // The patterns keep the limits of the case.
    let _station = case.station();
    let mut first = None;
    for train in 0..case.book().trains() {
        let found = first_of_train(case, allowed, weights, platform, train);
        first = earlier(first, found);
    }
    first
}

/// The first of the train's arrivals at which the platform is over.
fn first_of_train(
    case: &Case,
    allowed: &Allowed,
    weights: &Weights,
    platform: usize,
    train: usize,
) -> Option<i32>
    requires lists { FitsBook allowed.now.lists case.now.book }
    requires weights { FitsLists allowed.now.lists weights.now }
    requires uses { HasUses case.now weights.now }
    requires scale { weights.now.scale ≤ℤ pos (10 ^ 24) }
    requires platform { platform < length case.now.station.platforms }
    requires train { train < length case.now.book }
    ensures { IsTrainLooked case.now allowed.now.lists (fraction_of weights.now) platform train (length (list_of allowed.now.lists train)) result }
{
    let count = count_of(allowed, train);
    let mut first = None;
    for place in 0..count {
        let found = over_at(case, allowed, weights, platform, train, place);
        first = earlier(first, found);
    }
    first
}

/// The pattern's arrival, where the pattern has weight on the platform and the platform is over then.
fn over_at(
    case: &Case,
    allowed: &Allowed,
    weights: &Weights,
    platform: usize,
    train: usize,
    place: usize,
) -> Option<i32>
    requires lists { FitsBook allowed.now.lists case.now.book }
    requires weights { FitsLists allowed.now.lists weights.now }
    requires uses { HasUses case.now weights.now }
    requires scale { weights.now.scale ≤ℤ pos (10 ^ 24) }
    requires platform { platform < length case.now.station.platforms }
    requires train { train < length case.now.book }
    requires place { place < length (list_of allowed.now.lists train) }
    ensures { IsLooked case.now allowed.now.lists (fraction_of weights.now) platform train place result }
{
    if weight_at(allowed, weights, train, place) == 0 {
        return None;
    }
    let pattern = pattern_at(case, allowed, train, place);
    if pattern.platform as usize != platform {
        return None;
    }
    let spot = Spot {
        platform,
        minute: pattern.arrive,
    };
    let uses = use_of(weights, platform);
    if uses < held(case, allowed, weights, &spot) {
        Some(pattern.arrive)
    } else {
        None
    }
}

/// The platform's use.
fn use_of(weights: &Weights, platform: usize) -> u128
    requires { platform < length weights.now.uses }
    ensures { result ≡ (fraction_of weights.now).use platform }
{
    weights.uses.as_slice()[platform].unsigned_abs()
}

/// The earlier of two minutes, where there are any.
fn earlier(a: Option<i32>, b: Option<i32>) -> Option<i32>
    ensures { IsEarlier a b result }
{
    match (a, b) {
        (None, _) => b,
        (_, None) => a,
        (Some(m), Some(n)) => { if m <= n { a } else { b } }
    }
}
