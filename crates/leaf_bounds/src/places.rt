ghost use Rattle.leaf_bounds.specs.Listed.{is_at, pair_key, pair_listed, IsPairValue, IsSmall};
ghost use Rattle.leaf_bounds.specs.Places.{is_below, key_at, ArePairValues, AreBelow, IsPlace};
ghost use Rattle.leaf_bounds.specs.Total.{only_if};
ghost use Rattle.std.specs.Prelude.{◌≡◌, ℕ, ◌+◌, ◌*◌, ◌<◌, ◌≤◌, false, length, pos, slice_get};

use crate::number::PairValue;
use sequence::Sequence;

/// A pattern of one train of a pair.
#[derive(Clone, Copy, Drop)]
pub(crate) struct PairNumber {
    pub first: u16,
    pub second: u16,
    pub number: u16,
}

/// Where it stands in the order of the lists.
fn key_of_number(at: &PairNumber) -> u32
    requires first { at.now.first < 200 }
    requires second { at.now.second < 200 }
    requires number { at.now.number ≤ 4096 }
    ensures { result ≡ key_at at.now.first at.now.second at.now.number }
{
    (200 * at.first as u32 + at.second as u32) * 4096 + at.number as u32
}

fn key_of_entry(x: &PairValue) -> u32
    requires { IsPairValue x.now }
    ensures { result ≡ pair_key x.now }
{
    (200 * x.first as u32 + x.second as u32) * 4096 + x.number as u32
}

/// The first place from `from` on whose entry is not below the number.
pub(crate) fn place_from(xs: &Sequence<PairValue>, from: usize, at: &PairNumber) -> usize
    requires values { ArePairValues xs.now }
    requires first { at.now.first < 200 }
    requires second { at.now.second < 200 }
    requires number { at.now.number ≤ 4096 }
    requires below { AreBelow xs.now (key_at at.now.first at.now.second at.now.number) from }
    ensures { IsPlace xs.now (key_at at.now.first at.now.second at.now.number) result }
{
    let key = key_of_number(at);
    let count = xs.len();
    for place in from..count {
        if !comes_before(xs, place, key) {
            return place;
        }
    }
    count
}

fn comes_before(xs: &Sequence<PairValue>, place: usize, key: u32) -> bool
    requires { ArePairValues xs.now }
    ensures { result ≡ is_below (slice_get xs.now place) key }
{
    match xs.get(place) {
        Some(x) => key_of_entry(x) < key,
        None => true,
    }
}

/// What is listed for the pattern, whose place this is.
pub(crate) fn value_at(xs: &Sequence<PairValue>, place: usize, at: &PairNumber) -> i128
    requires values { ArePairValues xs.now }
    requires place { IsPlace xs.now (key_at at.now.first at.now.second at.now.number) place }
    ensures value { result ≡ pair_listed xs.now (record { first = at.now.first; second = at.now.second }) at.now.number }
    ensures small { IsSmall result }
{
    match xs.get(place) {
        Some(x) => value_if(x, at),
        None => 0,
    }
}

fn value_if(x: &PairValue, at: &PairNumber) -> i128
    requires { IsPairValue x.now }
    ensures value { result ≡ only_if (is_at (record { first = at.now.first; second = at.now.second }) at.now.number x.now) x.now.value }
    ensures small { IsSmall result }
{
    if x.first == at.first && x.second == at.second && x.number == at.number {
        x.value
    } else {
        0
    }
}

/// Whether the pair has an entry, where this is the place of its first number. If not, nothing is listed for it.
pub(crate) fn has_pair(xs: &Sequence<PairValue>, place: usize, first: u16, second: u16) -> bool
    requires values { ArePairValues xs.now }
    requires first { first < 200 }
    requires second { second < 200 }
    requires place { IsPlace xs.now (key_at first second 0) place }
    ensures { result ≡ false → (i : ℕ) → i < 4096 → pair_listed xs.now (record { first = first; second = second }) i ≡ pos 0 }
{
    let end = key_of_number(&PairNumber {
        first,
        second,
        number: 4096,
    });
    match xs.get(place) {
        Some(x) => key_of_entry(x) < end,
        None => false,
    }
}
