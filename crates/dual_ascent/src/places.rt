// Whether a leaf names only what is there.
ghost use Rattle.leaf_bounds.specs.Shown.{ArePlaces, IsPairThere};
ghost use Rattle.patterns.specs.Allowed.{list_of};
ghost use Rattle.std.specs.Prelude.{◌<◌, length, All, Contains, IsTrue};

use crate::lists::numbers_in;
use leaf_bounds::{Leaf, MinuteValue, PairValue, TrainValue};
use pair_prices::Case;
use patterns::Allowed;

/// Whether each train, platform and pattern number of the leaf is in the case and the lists, as `leaf_check` wants it.
pub fn are_places(case: &Case, allowed: &Allowed, leaf: &Leaf) -> bool
    ensures { IsTrue result → ArePlaces case.now allowed.now.lists leaf.now }
{
    if !are_trains(case, leaf.u.as_slice()) {
        return false;
    }
    if !are_platforms(case, leaf.v.as_slice()) {
        return false;
    }
    if !are_pairs(case, leaf.alpha.as_slice()) {
        return false;
    }
    if !are_pairs(case, leaf.beta.as_slice()) {
        return false;
    }
    if !are_numbers_of_first(allowed, leaf.alpha.as_slice()) {
        return false;
    }
    are_numbers_of_second(allowed, leaf.beta.as_slice())
}

fn are_trains(case: &Case, u: &[TrainValue]) -> bool
    ensures { IsTrue result → All (λ x. x.train < length case.now.book) u.now }
{
    let trains = case.book().trains();
    u.iter().all(|x| (x.train as usize) < trains)
}

fn are_platforms(case: &Case, v: &[MinuteValue]) -> bool
    ensures { IsTrue result → All (λ x. x.platform < length case.now.station.platforms) v.now }
{
    let platforms = case.station().platforms.len();
    v.iter().all(|x| (x.platform as usize) < platforms)
}

fn are_pairs(case: &Case, entries: &[PairValue]) -> bool
    ensures { IsTrue result → All (IsPairThere case.now) entries.now }
{
    for x in entries {
        if !is_pair_there(case, x) {
            return false;
        }
    }
    true
}

fn is_pair_there(case: &Case, x: &PairValue) -> bool
    ensures { IsTrue result → IsPairThere case.now x.now }
{
    x.first < x.second && (x.second as usize) < case.book().trains()
}

fn are_numbers_of_first(allowed: &Allowed, entries: &[PairValue]) -> bool
    ensures { IsTrue result → All (λ x. Contains (list_of allowed.now.lists x.first) x.number) entries.now }
{
    for x in entries {
        if !has_number(allowed, x.first, x.number) {
            return false;
        }
    }
    true
}

fn are_numbers_of_second(allowed: &Allowed, entries: &[PairValue]) -> bool
    ensures { IsTrue result → All (λ x. Contains (list_of allowed.now.lists x.second) x.number) entries.now }
{
    for x in entries {
        if !has_number(allowed, x.second, x.number) {
            return false;
        }
    }
    true
}

fn has_number(allowed: &Allowed, train: u16, number: u16) -> bool
    ensures { IsTrue result → Contains (list_of allowed.now.lists train) number }
{
    if train as usize >= allowed.lists.len() {
        return false;
    }
    let list = numbers_in(allowed, train as usize);
    list.binary_search(&number).is_ok()
}
