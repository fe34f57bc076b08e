// The listed patterns of a case, with the minutes that they hold their platform.
ghost use Rattle.patterns.specs.Allowed.{FitsBook};
ghost use Rattle.patterns.specs.Book.{offers_of};
ghost use Rattle.std.specs.Prelude.{◌<◌, length};

use crate::lists::numbers_in;
use pair_prices::{Case, held_platform};
use patterns::Allowed;
use std::alloc::{AllocError, Global};

/// A listed pattern. The order is that of packings: by platform, and then by the end of the hold.
#[derive(Clone, Copy, PartialEq, Eq, PartialOrd, Ord, Drop)]
pub(crate) struct Hold {
    pub platform: u16,
    pub end: i32,
    /// Where it stands in the order of trains and lists.
    pub listed: usize,
    pub start: i32,
    pub train: u16,
    pub number: u16,
    pub price: i64,
}

/// All listed patterns, by train and number.
pub(crate) fn listed_holds(
    alloc: Global,
    case: &Case,
    allowed: &Allowed,
) -> Result<Vec<Hold>, AllocError>
    requires { FitsBook allowed.now.lists case.now.book }
{
    let trains = case.book().trains() as u16;
    let mut holds = Vec::new(alloc);
    for train in 0..trains {
        push_holds(case, allowed, train, &mut holds)?;
    }
    Ok(holds)
}

fn push_holds(
    case: &Case,
    allowed: &Allowed,
    train: u16,
    holds: &mut Vec<Hold>,
) -> Result<(), AllocError>
    requires fits { FitsBook allowed.now.lists case.now.book }
    requires train { train < length case.now.book }
{
    for number in numbers_in(allowed, train as usize) {
        let listed = holds.len();
        holds.push(hold_of(case, train, *number, listed))?;
    }
    Ok(())
}

fn hold_of(case: &Case, train: u16, number: u16, listed: usize) -> Hold
    requires train { train < length case.now.book }
    requires number { number < length (offers_of case.now.book train) }
{
    let pattern = case.book().get(train as usize, number);
    let span = held_platform(case.station(), &pattern);
    Hold {
        platform: pattern.platform as u16,
        end: span.end,
        listed,
        start: span.start,
        train,
        number,
        price: case.book().price_of(train as usize, number),
    }
}
