ghost use Rattle.pair_classes.specs.Meetings.{AreMeetings, IsMeeting};
ghost use Rattle.patterns.specs.Allowed.{FitsBook};
ghost use Rattle.std.specs.Prelude.{◌≤◌, ◌<◌, length, All};

use crate::lists::numbers_in;
use pair_classes::{Classes, Meeting, Meetings};
use pair_prices::Case;
use patterns::Allowed;
use std::alloc::{AllocError, Global};

/// The classes of a train's listed patterns beside another train, numbered anew without those that no listed pattern has.
#[derive(Drop)]
pub(crate) struct Kinds {
    /// For each listed pattern its kind.
    pub of: Vec<u16>,
    /// For each kind its class.
    pub classes: Vec<u16>,
}

/// Two trains that can meet. Without classes there are no kinds.
#[derive(Drop)]
pub(crate) struct Pairing {
    pub first: usize,
    pub second: usize,
    pub rows: Kinds,
    pub columns: Kinds,
    /// The greatest price of two kinds that aren't forbidden together, at least 1, once it was asked for. Before, 0.
    pub cap: i64,
}

/// The pairs that can meet, in their order.
pub(crate) fn pairings(
    alloc: Global,
    case: &Case,
    allowed: &Allowed,
    meetings: &Meetings,
) -> Result<Vec<Pairing>, AllocError>
    requires fits { FitsBook allowed.now.lists case.now.book }
    requires meetings { AreMeetings case.now meetings.now }
{
    let mut pairings = Vec::new(alloc);
    for meeting in meetings.pairs() {
        let pairing = pairing_of(alloc, case, allowed, meeting)?;
        pairings.push(pairing)?;
    }
    Ok(pairings)
}

fn pairing_of(
    alloc: Global,
    _case: &Case,
    allowed: &Allowed,
    meeting: &Meeting,
) -> Result<Pairing, AllocError>
    requires fits { FitsBook allowed.now.lists _case.now.book }
    requires meeting { IsMeeting _case.now meeting.now }
{
    let (rows, columns) = match &meeting.classes {
        Some(classes) => (
            rows_of(alloc, classes, numbers_in(allowed, meeting.first))?,
            columns_of(alloc, classes, numbers_in(allowed, meeting.second))?,
        ),
        None => (no_kinds(alloc), no_kinds(alloc)),
    };
    Ok(Pairing {
        first: meeting.first,
        second: meeting.second,
        rows,
        columns,
        cap: 0,
    })
}

fn no_kinds(alloc: Global) -> Kinds {
    Kinds {
        of: Vec::new(alloc),
        classes: Vec::new(alloc),
    }
}

fn rows_of(alloc: Global, classes: &Classes, numbers: &[u16]) -> Result<Kinds, AllocError>
    requires { All (λ n. n < length classes.now.of_first) numbers.now }
{
    let mut of = Vec::with_capacity(alloc, numbers.len())?;
    for number in numbers {
        of.push(classes.of_first(*number))?;
    }
    numbered(alloc, of, classes.first_count())
}

fn columns_of(alloc: Global, classes: &Classes, numbers: &[u16]) -> Result<Kinds, AllocError>
    requires { All (λ n. n < length classes.now.of_second) numbers.now }
{
    let mut of = Vec::with_capacity(alloc, numbers.len())?;
    for number in numbers {
        of.push(classes.of_second(*number))?;
    }
    numbered(alloc, of, classes.second_count())
}

/// What stands for a class that has no number yet.
const NEW: u16 = u16::MAX;

/// Numbers the classes in the order in which they come.
fn numbered(alloc: Global, of: Vec<u16>, count: usize) -> Result<Kinds, AllocError> {
    let mut kinds = Kinds {
        of,
        classes: Vec::new(alloc),
    };
    let mut known = vec![in alloc; NEW; count]?;
    for place in 0..kinds.of.len() {
        let class = kinds.of[place];
        let kind = kind_of(class, &mut known, &mut kinds.classes)?;
        kinds.of[place] = kind;
    }
    Ok(kinds)
}

fn kind_of(class: u16, known: &mut [u16], classes: &mut Vec<u16>) -> Result<u16, AllocError> {
    let at = class as usize;
    if at >= known.len() {
        return Ok(0);
    }
    if known[at] == NEW {
        known[at] = u16::try_from(classes.len()).unwrap_or(0);
        classes.push(class)?;
    }
    Ok(known[at])
}

/// What two classes cost together, and 0 where there are no such classes.
pub(crate) fn price_of(classes: &Classes, first: u16, second: u16) -> i64 {
    if (first as usize) < classes.first_count() && (second as usize) < classes.second_count() {
        classes.price(first, second)
    } else {
        0
    }
}
