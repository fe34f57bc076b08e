ghost use Rattle.pair_prices.specs.Case.{CaseRecord};
ghost use Rattle.pair_classes.specs.Meetings.{AreListedTo, AreMeetings, IsFound, IsMeeting, meeting_of, places_with};
ghost use Rattle.pair_classes.specs.Windows.{AreWindows};
ghost use Rattle.std.specs.Prelude.{◌≡◌, ◌+◌, ◌*◌, ◌<◌, ◌≤◌, ◌++◌, length, IfOk, OnOk, IfSome};
ghost use Rattle.std.specs.Option.{option_copied, option_to_list};

use crate::by_train::by_train;
use crate::making::meeting;
use crate::meeting::Meeting;
use crate::places::Places;
use crate::window::windows;
use pair_prices::Case;
use path_conflicts::Held;
use sequence::Sequence;
use std::alloc::{AllocError, Global};
use std::marker::Model;

/// How many prices are looked at in all, so that a station of many trains with long lists is indexed in some seconds and 256
/// megabytes. The pairs behind stay listed without classes.
const PRICES_IN_ALL: usize = 33_554_432;

/// The pairs of trains that can meet, ascending. A pair of trains that isn't here costs nothing: each two of their patterns
/// have the sealed price 0.
#[derive(Drop)]
pub struct Meetings {
    trains: usize,
    pairs: Vec<Meeting>,
    places: Places,
    of_trains: Vec<Sequence<u16>>,
}

impl Model for Meetings {
    ghost use Rattle.pair_classes.specs.Meetings.{MeetingList};
    ghost use Rattle.pair_classes.specs.Kept.{IsKept};

    ghost Value = { MeetingList };

    ghost view = { λ m. record { trains = m.trains; pairs = m.pairs.items } };

    ghost invariant = { λ m. IsKept m.trains m.pairs.items m.places m.of_trains.items };
}

impl Meetings {
    /// The pairs of the case that can meet, with their prices as they stand.
    ///
    /// # Errors
    /// `AllocError` where lists and tables find no memory. No other call takes any.
    pub fn new(alloc: Global, case: &Case) -> Result<Meetings, AllocError>
        ensures { IfOk result (AreMeetings case.now) }
    {
        let windows = windows(alloc, case)?;
        let trains = case.book().trains();
        let mut pairs = Vec::new(alloc);
        let mut left = PRICES_IN_ALL;
        for first in 0..trains {
            add_pairs(alloc, case, &windows, first, &mut pairs, &mut left)?;
        }
        let places = Places::of(alloc, &pairs)?;
        let of_trains = by_train(alloc, &pairs, trains)?;
        Ok(Meetings {
            trains,
            pairs,
            places,
            of_trains,
        })
    }

    /// All pairs, ascending by first and then by second.
    pub fn pairs(&self) -> &[Meeting]
        ensures { result.now ≡ self.now.pairs }
    {
        &self.pairs
    }

    /// The places in `pairs` of all pairs of the train, ascending.
    pub fn of_train(&self, train: usize) -> &[u16]
        requires { train < self.now.trains }
        ensures { result.now ≡ places_with self.now.pairs train }
    {
        self.of_trains[train].as_slice()
    }

    /// The pair of these two trains, the first before the second, if they can meet. One look into a table.
    pub fn find(&self, first: usize, second: usize) -> Option<&Meeting>
        requires first { first < self.now.trains }
        requires second { second < self.now.trains }
        ensures value { option_copied result ≡ meeting_of self.now.pairs first second }
        // Of the pairs of a case: without an entry the two trains cost nothing together, and with one it is theirs.
        ensures found { (c : CaseRecord) → AreMeetings c self.now → first < second → IsFound c first second (option_copied result) }
    {
        self.entry(first, second)
    }

    fn entry(&self, first: usize, second: usize) -> Option<&Meeting>
        requires first { first < self.now.trains }
        requires second { second < self.now.trains }
        ensures { option_copied result ≡ meeting_of self.now.pairs first second }
    {
        match self.places.get(first, second) {
            Some(place) => self.pairs.get(place as usize),
            None => None,
        }
    }
}

/// Appends the pairs of one train and a later one.
fn add_pairs(
    alloc: Global,
    case: &Case,
    windows: &[Held],
    first: usize,
    pairs: &mut Vec<Meeting>,
    left: &mut usize,
) -> Result<(), AllocError>
    requires first { first < length case.now.book }
    requires windows { AreWindows case.now windows.now }
    requires listed { AreListedTo case.now (201 * first + 1) pairs.old.items }
    ensures { OnOk result (AreListedTo case.now (201 * first + 202) pairs.new.items) }
{
    for second in first + 1..case.book().trains() {
        let found = meeting(alloc, case, windows, first, second, left)?;
        push_found(found, pairs)?;
    }
    Ok(())
}

fn push_found(found: Option<Meeting>, pairs: &mut Vec<Meeting>) -> Result<(), AllocError>
    ensures { OnOk result (pairs.new.items ≡ pairs.old.items ++ option_to_list found) }
{
    if let Some(meeting) = found {
        pairs.push(meeting)?;
    }
    Ok(())
}
