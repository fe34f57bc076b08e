ghost use Rattle.leaf_bounds.specs.Listed.{minute_key};
ghost use Rattle.leaf_bounds.specs.Places.{value_below, value_within, AreMinuteValues, IsMinutePlace};
ghost use Rattle.leaf_bounds.specs.Total.{total};
ghost use Rattle.path_conflicts.specs.Meeting.{IsHeld};
ghost use Rattle.std.specs.Prelude.{◌≡◌, ◌*◌, ◌≤◌, ◌^◌, pos, ◌+ℤ◌, int_le, length, unsigned_abs};

use crate::number::MinuteValue;
use path_conflicts::Held;

/// Where minutes of a platform stand in the order of the list: from `start` up to `end`, which is left out.
#[derive(Clone, Copy, Drop)]
pub(crate) struct Keys {
    pub start: i64,
    pub end: i64,
}

fn keys_of(platform: u16, span: &Held) -> Keys
    ensures start { result.start ≡ pos (10_000 * platform) +ℤ span.now.start }
    ensures end { result.end ≡ pos (10_000 * platform) +ℤ span.now.end }
{
    let first = 10_000 * platform as i64;
    Keys {
        start: first + span.start as i64,
        end: first + span.end as i64,
    }
}

fn key_of_minute(x: &MinuteValue) -> i64
    ensures { result ≡ minute_key x.now }
{
    10_000 * x.platform as i64 + x.minute as i64
}

/// What is listed for the platform in the minutes of the span.
pub(crate) fn sum_within(values: &[MinuteValue], platform: u16, span: &Held) -> i128
    requires values { AreMinuteValues values.now }
    requires held { IsHeld span.now }
    ensures value { result ≡ total (value_within platform span.now.start span.now.end) values.now }
    ensures size { unsigned_abs result ≤ 10 ^ 36 }
{
    let keys = keys_of(platform, span);
    let from = first_place(values, &keys);
    sum_below(&values[from..], &keys)
}

/// The first place that is not before the start.
fn first_place(values: &[MinuteValue], keys: &Keys) -> usize
    requires { AreMinuteValues values.now }
    ensures place { IsMinutePlace values.now keys.now.start result }
    ensures within { result ≤ length values.now }
{
    values.partition_point(|x| key_of_minute(x) < keys.start)
}

/// What is listed before the end.
fn sum_below(values: &[MinuteValue], keys: &Keys) -> i128
    requires { AreMinuteValues values.now }
    ensures value { result ≡ total (value_below keys.now.end) values.now }
    ensures size { unsigned_abs result ≤ 10 ^ 36 }
{
    let mut sum = 0;
    for x in values {
        let past = is_past(x, keys);
        if past {
            return sum;
        }
        sum += x.value;
    }
    sum
}

fn is_past(x: &MinuteValue, keys: &Keys) -> bool
    ensures { result ≡ int_le keys.now.end (minute_key x.now) }
{
    keys.end <= key_of_minute(x)
}
