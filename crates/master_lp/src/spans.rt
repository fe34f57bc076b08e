// Holds of platforms by listed patterns, and cells for platforms and minutes.
ghost use Rattle.patterns.specs.Book.{offers_of};
ghost use Rattle.std.specs.Prelude.{◌<◌, length};

use pair_prices::{Case, held_platform};
use patterns::Allowed;

/// How many minutes have a cell: those from -100 on.
pub(crate) const MINUTES: usize = 3_200;

const FIRST: i64 = -100;

/// The minutes in which a pattern holds its platform, the last one excluded.
#[derive(Clone, Copy, Drop)]
pub(crate) struct Span {
    pub platform: usize,
    pub start: i32,
    pub end: i32,
}

/// The hold of the pattern at a place of the train's list, if it is there.
pub(crate) fn span_at(case: &Case, allowed: &Allowed, train: usize, place: usize) -> Option<Span> {
    let number = number_at(allowed, train, place)?;
    if train >= case.book().trains() || number as usize >= case.book().count(train) {
        return None;
    }
    Some(span_of(case, train, number))
}

fn span_of(case: &Case, train: usize, number: u16) -> Span
    requires train { train < length case.now.book }
    requires number { number < length (offers_of case.now.book train) }
{
    let pattern = case.book().get(train, number);
    let span = held_platform(case.station(), &pattern);
    Span {
        platform: pattern.platform as usize,
        start: span.start,
        end: span.end,
    }
}

fn number_at(allowed: &Allowed, train: usize, place: usize) -> Option<u16> {
    let list = allowed.lists.as_slice().get(train)?;
    list.as_slice().get(place).copied()
}

/// The cell of a platform at a minute. A minute that has none is given one that isn't there.
pub(crate) fn place_of(platform: usize, minute: i32) -> usize {
    let offset = (i64::from(minute) - FIRST).unsigned_abs() as usize;
    if i64::from(minute) < FIRST || offset >= MINUTES {
        return usize::MAX;
    }
    platform.saturating_mul(MINUTES).saturating_add(offset)
}

/// The minute of a cell of a platform.
pub(crate) fn minute_of(offset: usize) -> i32 {
    offset.min(MINUTES) as i32 - 100
}
