ghost use Rattle.clique_cuts.specs.Over.{fraction_of};
ghost use Rattle.pair_prices.specs.Fraction.{held_by_train, held_weight, holds_there, pattern_of};
ghost use Rattle.path_conflicts.specs.Minutes.{free_from, headway_of, holds_platform};
ghost use Rattle.patterns.specs.Sound.{IsSound};
ghost use Rattle.station.specs.Shown.{record_of};
ghost use Rattle.patterns.specs.Allowed.{FitsBook, list_of};
ghost use Rattle.patterns.specs.Weights.{FitsLists};
ghost use Rattle.std.specs.Prelude.{◌≡◌, ◌*◌, ◌^◌, ◌≤◌, ◌<◌, slice_get, if◌then◌else◌, length, pos, ◌≤ℤ◌};

use pair_prices::Case;
use patterns::{Allowed, Weights};
use station::{Pattern, Station};

/// A platform at a minute.
#[derive(Clone, Copy, Drop)]
pub(crate) struct Spot {
    pub platform: usize,
    pub minute: i32,
}

/// The weight of the patterns that hold the platform at that minute.
pub(crate) fn held(case: &Case, allowed: &Allowed, weights: &Weights, spot: &Spot) -> u128
    requires lists { FitsBook allowed.now.lists case.now.book }
    requires weights { FitsLists allowed.now.lists weights.now }
    requires scale { weights.now.scale ≤ℤ pos (10 ^ 24) }
    ensures { result ≡ held_weight case.now allowed.now.lists (fraction_of weights.now) spot.now.platform spot.now.minute }
{
    let mut total = 0;
    for train in 0..case.book().trains() {
        total += held_by(case, allowed, weights, spot, train);
    }
    total
}

/// The same of one train's patterns.
fn held_by(case: &Case, allowed: &Allowed, weights: &Weights, spot: &Spot, train: usize) -> u128
    requires lists { FitsBook allowed.now.lists case.now.book }
    requires weights { FitsLists allowed.now.lists weights.now }
    requires scale { weights.now.scale ≤ℤ pos (10 ^ 24) }
    requires train { train < length case.now.book }
    ensures value { result ≡ held_by_train case.now allowed.now.lists (fraction_of weights.now) spot.now.platform spot.now.minute train }
    ensures most { result ≤ 10 ^ 24 }
{
    let count = count_of(allowed, train);
    let mut total = 0;
    for place in 0..count {
        total += held_at(case, allowed, weights, spot, train, place);
    }
    total
}

/// The number of the train's allowed patterns.
pub(crate) fn count_of(allowed: &Allowed, train: usize) -> usize
    requires { train < length allowed.now.lists }
    ensures { result ≡ length (list_of allowed.now.lists train) }
{
    allowed.lists.as_slice()[train].len()
}

/// The pattern's weight, where it holds the platform at that minute.
fn held_at(
    case: &Case,
    allowed: &Allowed,
    weights: &Weights,
    spot: &Spot,
    train: usize,
    place: usize,
) -> u128
    requires lists { FitsBook allowed.now.lists case.now.book }
    requires weights { FitsLists allowed.now.lists weights.now }
    requires scale { weights.now.scale ≤ℤ pos (10 ^ 24) }
    requires train { train < length case.now.book }
    requires place { place < length (list_of allowed.now.lists train) }
    ensures value { result ≡ (if holds_there case.now spot.now.platform spot.now.minute (pattern_of case.now allowed.now.lists train place)
        then (fraction_of weights.now).weight train place else 0) }
    ensures most { result ≤ (fraction_of weights.now).weight train place }
{
    let weight = weight_at(allowed, weights, train, place);
    // Most patterns have no weight.
    if weight == 0 {
        return 0;
    }
    let pattern = pattern_at(case, allowed, train, place);
    if holds(case, &pattern, spot) {
        weight
    } else {
        0
    }
}

/// The pattern at a place of the train's list.
pub(crate) fn pattern_at(case: &Case, allowed: &Allowed, train: usize, place: usize) -> Pattern
    requires lists { FitsBook allowed.now.lists case.now.book }
    requires train { train < length case.now.book }
    requires place { place < length (list_of allowed.now.lists train) }
    ensures value { result ≡ pattern_of case.now allowed.now.lists train place }
    ensures sound { IsSound case.now.station result }
{
    // The patterns keep the limits of the case.
    let _station = case.station();
    listed(case, allowed, train, place)
}

/// The same, with no word on the limits of the case.
fn listed(case: &Case, allowed: &Allowed, train: usize, place: usize) -> Pattern
    requires lists { FitsBook allowed.now.lists case.now.book }
    requires train { train < length case.now.book }
    requires place { place < length (list_of allowed.now.lists train) }
    ensures { result ≡ pattern_of case.now allowed.now.lists train place }
{
    let number = allowed.lists.as_slice()[train].as_slice()[place];
    case.book().get(train, number)
}

/// The weight of the pattern at a place of the train's list.
#[allow(unused_variables)]
pub(crate) fn weight_at(allowed: &Allowed, weights: &Weights, train: usize, place: usize) -> u128
    requires weights { FitsLists allowed.now.lists weights.now }
    requires scale { weights.now.scale ≤ℤ pos (10 ^ 24) }
    requires train { train < length allowed.now.lists }
    requires place { place < length (list_of allowed.now.lists train) }
    ensures value { result ≡ (fraction_of weights.now).weight train place }
    ensures most { result ≤ 10 ^ 24 }
{
    weights.weight.as_slice()[train].as_slice()[place].unsigned_abs()
}

/// Whether the pattern holds the platform at that minute.
fn holds(case: &Case, pattern: &Pattern, spot: &Spot) -> bool
    requires { IsSound case.now.station pattern.now }
    ensures { result ≡ holds_there case.now spot.now.platform spot.now.minute pattern.now }
{
    pattern.platform as usize == spot.platform && is_held(case.station(), pattern, spot)
}

/// The same of a pattern on that platform.
fn is_held(station: &Station, pattern: &Pattern, spot: &Spot) -> bool
    requires { IsSound (record_of station.now) pattern.now }
    ensures { result ≡ holds_platform (record_of station.now) pattern.now spot.now.minute }
{
    let free = free_at(station, pattern);
    pattern.arrive <= spot.minute && spot.minute < free
}

/// The minute at which the platform is free again.
fn free_at(station: &Station, pattern: &Pattern) -> i32
    requires { IsSound (record_of station.now) pattern.now }
    ensures { result ≡ free_from (record_of station.now) pattern.now }
{
    pattern.depart + headway_at(station, pattern.platform as usize)
}

/// The platform's headway in minutes, from 0 to 60.
fn headway_at(station: &Station, platform: usize) -> i32
    ensures value { result ≡ pos (headway_of (slice_get station.now.platforms platform)) }
    ensures most { headway_of (slice_get station.now.platforms platform) ≤ 60 }
{
    match station.platforms.get(platform) {
        Some(platform) => platform.headway as i32,
        None => 0,
    }
}
