//! Whether an entry is behind those before it, in an ascending list.

ghost use Rattle.leaf_bounds.specs.Listed.{minute_key, pair_key, Ascends, AreUses};
ghost use Rattle.proof_rules.specs.Fault.{is_above};
ghost use Rattle.std.specs.Prelude.{◌≡◌, int_lt, pos};

use leaf_bounds::{MinuteValue, NumberValue, PairValue, TrainValue, UseOf};

pub(crate) fn is_train_next(entries: &[TrainValue], x: &TrainValue) -> bool
    requires { Ascends (λ y. pos y.train) entries.now }
    ensures { result ≡ is_above (λ y. pos y.train) entries.now x.now }
{
    match entries.last() {
        Some(y) => y.train < x.train,
        None => true,
    }
}

pub(crate) fn is_minute_next(entries: &[MinuteValue], x: &MinuteValue) -> bool
    requires { Ascends minute_key entries.now }
    ensures { result ≡ is_above minute_key entries.now x.now }
{
    match entries.last() {
        Some(y) => is_minute_before(y, x),
        None => true,
    }
}

pub(crate) fn is_pair_next(entries: &[PairValue], x: &PairValue) -> bool
    requires { Ascends (λ y. pos (pair_key y)) entries.now }
    ensures { result ≡ is_above (λ y. pos (pair_key y)) entries.now x.now }
{
    match entries.last() {
        Some(y) => is_pair_before(y, x),
        None => true,
    }
}

pub(crate) fn is_number_next(entries: &[NumberValue], x: &NumberValue) -> bool
    requires { Ascends (λ y. pos y.number) entries.now }
    ensures { result ≡ is_above (λ y. pos y.number) entries.now x.now }
{
    match entries.last() {
        Some(y) => y.number < x.number,
        None => true,
    }
}

pub(crate) fn is_use_next(entries: &[UseOf], x: &UseOf) -> bool
    requires { AreUses entries.now }
    ensures { result ≡ is_above (λ y. pos y.table) entries.now x.now }
{
    match entries.last() {
        Some(y) => y.table < x.table,
        None => true,
    }
}

fn is_minute_before(y: &MinuteValue, x: &MinuteValue) -> bool
    ensures { result ≡ int_lt (minute_key y.now) (minute_key x.now) }
{
    minute_place(y) < minute_place(x)
}

/// Where an entry stands in the order of a leaf's list.
fn minute_place(x: &MinuteValue) -> i64
    ensures { result ≡ minute_key x.now }
{
    10_000 * i64::from(x.platform) + i64::from(x.minute)
}

fn is_pair_before(y: &PairValue, x: &PairValue) -> bool
    ensures { result ≡ int_lt (pos (pair_key y.now)) (pos (pair_key x.now)) }
{
    pair_place(y) < pair_place(x)
}

fn pair_place(x: &PairValue) -> u64
    ensures { result ≡ pair_key x.now }
{
    (200 * u64::from(x.first) + u64::from(x.second)) * 4096 + u64::from(x.number)
}
