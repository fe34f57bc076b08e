// Where a search reads its prices. All calls take any numbers: what isn't there costs as much as what is forbidden.
ghost use Rattle.pair_classes.specs.Classes.{ArePriced};
ghost use Rattle.pair_classes.specs.Meetings.{IsMeeting};
ghost use Rattle.std.specs.Prelude.{◌<◌, length};

use crate::candidates::Candidate;
use pair_classes::{Classes, Meeting, Meetings};
use pair_prices::Case;
use std::marker::Model;

/// A case, and its pairs of trains that can meet.
#[derive(Drop)]
pub(crate) struct Prices<'a> {
    pub(crate) case: &'a Case,
    pub(crate) meetings: &'a Meetings,
}

impl<'a> Model for Prices<'a> {
    ghost use Rattle.primal_heuristic.specs.Prices.{AreOfCase, CaseMeetings};

    ghost Value = { CaseMeetings };

    ghost view = { λ p. record { case = p.case.now; meetings = p.meetings.now } };

    ghost invariant = { λ p. AreOfCase (record { case = p.case.now; meetings = p.meetings.now }) };
}

impl<'a> Prices<'a> {
    /// The places of the train's pairs.
    pub(crate) fn places(&self, train: usize) -> &[u16] {
        if train < self.case.book().trains() {
            self.meetings.of_train(train)
        } else {
            &[]
        }
    }

    /// The other train of the pair at that place.
    pub(crate) fn other(&self, place: u16, train: usize) -> usize {
        match self.meetings.pairs().get(place as usize) {
            Some(meeting) => {
                if meeting.first == train {
                    meeting.second
                } else {
                    meeting.first
                }
            }
            None => train,
        }
    }

    /// The class of the train's pattern in the pair at that place, or its number where the pair has no classes.
    pub(crate) fn class(&self, place: u16, train: usize, number: u16) -> u16 {
        match self.meetings.pairs().get(place as usize) {
            Some(meeting) => class_in(self.case, meeting, train, number),
            None => number,
        }
    }

    /// What patterns of these classes cost in the pair at that place, `own` being the train's.
    pub(crate) fn between(&self, place: u16, train: usize, own: u16, other: u16) -> i64 {
        match self.meetings.pairs().get(place as usize) {
            Some(meeting) => {
                if meeting.first == train {
                    price_in(self.case, meeting, own, other)
                } else {
                    price_in(self.case, meeting, other, own)
                }
            }
            None => self.case.top(),
        }
    }

    /// The pattern of that number, if it is there.
    pub(crate) fn candidate(&self, train: usize, number: u16) -> Option<Candidate> {
        let book = self.case.book();
        if train < book.trains() {
            candidate_of(self.case, train, number)
        } else {
            None
        }
    }
}

fn candidate_of(case: &Case, train: usize, number: u16) -> Option<Candidate>
    requires { train < length case.now.book }
{
    let book = case.book();
    if (number as usize) < book.count(train) {
        Some(Candidate {
            price: book.price_of(train, number),
            number,
            platform: book.get(train, number).platform,
        })
    } else {
        None
    }
}

fn class_in(case: &Case, meeting: &Meeting, train: usize, number: u16) -> u16
    requires { IsMeeting case.now meeting.now }
{
    match &meeting.classes {
        Some(classes) => {
            if meeting.first == train {
                first_class(case, meeting, classes, number)
            } else {
                second_class(case, meeting, classes, number)
            }
        }
        None => number,
    }
}

fn first_class(case: &Case, meeting: &Meeting, classes: &Classes, number: u16) -> u16
    requires meeting { IsMeeting case.now meeting.now }
    requires classes { ArePriced case.now meeting.now.first meeting.now.second classes.now }
{
    if (number as usize) < case.book().count(meeting.first) {
        classes.of_first(number)
    } else {
        number
    }
}

fn second_class(case: &Case, meeting: &Meeting, classes: &Classes, number: u16) -> u16
    requires meeting { IsMeeting case.now meeting.now }
    requires classes { ArePriced case.now meeting.now.first meeting.now.second classes.now }
{
    if (number as usize) < case.book().count(meeting.second) {
        classes.of_second(number)
    } else {
        number
    }
}

fn price_in(case: &Case, meeting: &Meeting, first: u16, second: u16) -> i64
    requires { IsMeeting case.now meeting.now }
{
    match &meeting.classes {
        Some(classes) => class_price(case, classes, first, second),
        None => sealed_price(case, meeting, first, second),
    }
}

fn class_price(case: &Case, classes: &Classes, first: u16, second: u16) -> i64 {
    if (first as usize) < classes.first_count() && (second as usize) < classes.second_count() {
        classes.price(first, second)
    } else {
        case.top()
    }
}

fn sealed_price(case: &Case, meeting: &Meeting, first: u16, second: u16) -> i64
    requires { IsMeeting case.now meeting.now }
{
    let book = case.book();
    if (first as usize) < book.count(meeting.first)
        && (second as usize) < book.count(meeting.second)
    {
        case.sealed(meeting.first, first, meeting.second, second)
    } else {
        case.top()
    }
}
