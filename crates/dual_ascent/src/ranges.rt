// Whether numbers are in the order and the ranges of a leaf.
ghost use Rattle.dual_ascent.specs.Order.{AscendsInMinutes, AscendsInPairs, AscendsInTrains};
ghost use Rattle.leaf_bounds.specs.Building.{AreTrainValues};
ghost use Rattle.leaf_bounds.specs.Listed.{IsMinuteValue, IsPairValue, IsTrainValue, minute_key, pair_key};
ghost use Rattle.leaf_bounds.specs.Places.{AreMinuteValues, ArePairValues};
ghost use Rattle.std.specs.Prelude.{◌≡◌, ◌<◌, ◌≤◌, ◌^◌, All, IsTrue, pos, ◌≤ℤ◌, ◌<ℤ◌};

use leaf_bounds::{MinuteValue, PairValue, TrainValue};

/// The greatest scale, and the greatest size of another number.
const MOST_SCALE: i128 = 1_000_000_000_000_000_000;

const MOST_NUMBER: u128 = 1_000_000_000_000_000_000_000_000_000_000;

pub(crate) fn is_scale(q: &i128) -> bool
    ensures least { IsTrue result → pos 1 ≤ℤ q.now }
    ensures most { IsTrue result → q.now ≤ℤ pos (10 ^ 18) }
{
    1 <= *q && *q <= MOST_SCALE
}

pub(crate) fn are_train_values(u: &[TrainValue]) -> bool
    ensures { IsTrue result → AreTrainValues u.now }
{
    if !are_each_of_train(u) {
        return false;
    }
    ascend_in_trains(u)
}

fn are_each_of_train(u: &[TrainValue]) -> bool
    ensures { IsTrue result → All IsTrainValue u.now }
{
    for x in u {
        if !is_train_value(x) {
            return false;
        }
    }
    true
}

fn is_train_value(x: &TrainValue) -> bool
    ensures { IsTrue result → IsTrainValue x.now }
{
    let size = x.value.unsigned_abs();
    x.train < 200 && size <= MOST_NUMBER && 1 <= size
}

fn ascend_in_trains(u: &[TrainValue]) -> bool
    ensures { IsTrue result → AscendsInTrains u.now }
{
    for at in 1..u.len() {
        if u[at].train <= u[at - 1].train {
            return false;
        }
    }
    true
}

pub(crate) fn are_minute_values(v: &[MinuteValue]) -> bool
    ensures { IsTrue result → AreMinuteValues v.now }
{
    if !are_each_of_minute(v) {
        return false;
    }
    ascend_in_minutes(v)
}

fn are_each_of_minute(v: &[MinuteValue]) -> bool
    ensures { IsTrue result → All IsMinuteValue v.now }
{
    for x in v {
        if !is_minute_value(x) {
            return false;
        }
    }
    true
}

fn is_minute_value(x: &MinuteValue) -> bool
    ensures { IsTrue result → IsMinuteValue x.now }
{
    x.platform < 64
        && -30 <= x.minute
        && x.minute <= 2968
        && x.value <= MOST_NUMBER as i128
        && 1 <= x.value
}

fn ascend_in_minutes(v: &[MinuteValue]) -> bool
    ensures { IsTrue result → AscendsInMinutes v.now }
{
    for at in 1..v.len() {
        if key_of_minute(&v[at]) <= key_of_minute(&v[at - 1]) {
            return false;
        }
    }
    true
}

fn key_of_minute(x: &MinuteValue) -> i64
    ensures { result ≡ minute_key x.now }
{
    10_000 * x.platform as i64 + x.minute as i64
}

pub(crate) fn are_pair_values(xs: &[PairValue]) -> bool
    ensures { IsTrue result → ArePairValues xs.now }
{
    if !are_each_of_pair(xs) {
        return false;
    }
    ascend_in_pairs(xs)
}

fn are_each_of_pair(xs: &[PairValue]) -> bool
    ensures { IsTrue result → All IsPairValue xs.now }
{
    for x in xs {
        if !is_pair_value(x) {
            return false;
        }
    }
    true
}

fn is_pair_value(x: &PairValue) -> bool
    ensures { IsTrue result → IsPairValue x.now }
{
    let size = x.value.unsigned_abs();
    x.first < 200 && x.second < 200 && x.number < 4096 && size <= MOST_NUMBER && 1 <= size
}

fn ascend_in_pairs(xs: &[PairValue]) -> bool
    ensures { IsTrue result → AscendsInPairs xs.now }
{
    for at in 1..xs.len() {
        if key_of_pair(&xs[at]) <= key_of_pair(&xs[at - 1]) {
            return false;
        }
    }
    true
}

fn key_of_pair(x: &PairValue) -> u64
    ensures { result ≡ pair_key x.now }
{
    (200 * x.first as u64 + x.second as u64) * 4096 + x.number as u64
}
