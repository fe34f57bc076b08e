ghost use Rattle.patterns.specs.Book.{offers_of};
ghost use Rattle.pair_classes.specs.Classes.{sealed_at};
ghost use Rattle.pair_classes.specs.Meetings.{IsMeeting};
ghost use Rattle.std.specs.Prelude.{◌≡◌, ◌<◌, ◌≤◌, length, pos};

use crate::classes::Classes;
use pair_prices::Case;

/// Two trains that can meet, the first before the second.
#[derive(Drop)]
pub struct Meeting {
    pub first: usize,
    pub second: usize,
    /// None where the two have so many patterns that a table would be very large.
    pub classes: Option<Classes>,
}

impl Meeting {
    /// The sealed price of two patterns: from the table where there is one, or else asked of the case.
    pub fn price(&self, case: &Case, first: u16, second: u16) -> i64
        requires meeting { IsMeeting case.now self.now }
        requires first { first < length (offers_of case.now.book self.now.first) }
        requires second { second < length (offers_of case.now.book self.now.second) }
        ensures value { result ≡ pos (sealed_at case.now self.now.first self.now.second first second) }
        ensures most { sealed_at case.now self.now.first self.now.second first second ≤ 10_000_000_000_000 }
    {
        let _station = case.station();
        match &self.classes {
            Some(classes) => classes.price(classes.of_first(first), classes.of_second(second)),
            None => case.sealed(self.first, first, self.second, second),
        }
    }
}
