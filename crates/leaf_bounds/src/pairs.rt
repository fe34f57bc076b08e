ghost use Rattle.leaf_bounds.specs.Leaf.{scaled};
ghost use Rattle.leaf_bounds.specs.Listed.{pair_listed, IsSmall};
ghost use Rattle.leaf_bounds.specs.Places.{key_at, AreBelow, IsPlace};
ghost use Rattle.leaf_bounds.specs.Row.{row_places, AreBelowBoth, ArePlacesOf, IsRow};
ghost use Rattle.leaf_bounds.specs.Shown.{numbers_of};
ghost use Rattle.leaf_bounds.specs.Verdict.{first_pair, pair_fails, pair_places};
ghost use Rattle.pair_prices.specs.Top.{sealed_price};
ghost use Rattle.pair_prices.specs.Trains.{pairs_with};
ghost use Rattle.patterns.specs.Allowed.{list_of, FitsBook};
ghost use Rattle.patterns.specs.Book.{offers_of, pattern_at};
ghost use Rattle.std.specs.Prelude.{◌≡◌, ◌+◌, ◌<◌, ◌≤◌, ◌*◌, ◌^◌, false, find, flat_map, int_lt, length, pos, unsigned_abs, All};

use crate::check::PairPlace;
use crate::leaf::Leaf;
use crate::lists::numbers_in;
use crate::places::{PairNumber, has_pair, place_from, value_at};
use pair_prices::Case;
use patterns::Allowed;

/// Where the numbers of a pair begin in a leaf's two lists.
#[derive(Clone, Copy, Drop)]
pub(crate) struct Places {
    pub alpha: usize,
    pub beta: usize,
}

/// A pattern of the first train of a pair, and the leaf's number there.
#[derive(Clone, Copy, Drop)]
pub(crate) struct Row {
    pub first: u16,
    pub second: u16,
    pub number: u16,
    pub alpha: i128,
}

/// The first pair of trains and numbers at which the leaf doesn't stand.
pub(crate) fn first_pair_fault(case: &Case, allowed: &Allowed, leaf: &Leaf) -> Option<PairPlace>
    requires fits { FitsBook allowed.now.lists case.now.book }
    ensures { result ≡ first_pair case.now allowed.now.lists (numbers_of leaf.now) }
{
    let trains = case.book().trains() as u16;
    let mut at = Places { alpha: 0, beta: 0 };
    for first in 0..trains {
        at = places_from(leaf, &at, first, 0);
        let fault = fault_with(case, allowed, leaf, trains, first, &at);
        if fault.is_some() {
            return fault;
        }
    }
    None
}

/// Where the pair's numbers begin, from earlier places on.
pub(crate) fn places_from(leaf: &Leaf, from: &Places, first: u16, second: u16) -> Places
    requires first { first < 200 }
    requires second { second < 200 }
    requires below { AreBelowBoth leaf.now (key_at first second 0) from.now }
    ensures { ArePlacesOf leaf.now (key_at first second 0) result }
{
    let at = PairNumber {
        first,
        second,
        number: 0,
    };
    Places {
        alpha: place_from(&leaf.alpha, from.alpha, &at),
        beta: place_from(&leaf.beta, from.beta, &at),
    }
}

/// The same beside one first train.
fn fault_with(
    case: &Case,
    allowed: &Allowed,
    leaf: &Leaf,
    trains: u16,
    first: u16,
    from: &Places,
) -> Option<PairPlace>
    requires fits { FitsBook allowed.now.lists case.now.book }
    requires trains { trains ≡ length case.now.book }
    requires first { first < trains }
    requires below { AreBelowBoth leaf.now (key_at first 0 0) from.now }
    ensures { result ≡ find (pair_fails case.now (numbers_of leaf.now))
        (flat_map (pair_places allowed.now.lists) (pairs_with trains first)) }
{
    let _limits = case.book().trains();
    let mut at = *from;
    for second in first + 1..trains {
        at = places_from(leaf, &at, first, second);
        let fault = pair_fault(case, allowed, leaf, first, second, &at);
        if fault.is_some() {
            return fault;
        }
    }
    None
}

/// The first numbers of the pair at which the leaf doesn't stand. Where none is listed nothing is looked at.
fn pair_fault(
    case: &Case,
    allowed: &Allowed,
    leaf: &Leaf,
    first: u16,
    second: u16,
    at: &Places,
) -> Option<PairPlace>
    requires fits { FitsBook allowed.now.lists case.now.book }
    requires order { first < second }
    requires second { second < length case.now.book }
    requires places { ArePlacesOf leaf.now (key_at first second 0) at.now }
    ensures { result ≡ find (pair_fails case.now (numbers_of leaf.now))
        (pair_places allowed.now.lists (record { first = first; second = second })) }
{
    let _limits = case.book().trains();
    let beta = has_pair(&leaf.beta, at.beta, first, second);
    if !has_pair(&leaf.alpha, at.alpha, first, second) && !beta {
        return None;
    }
    let numbers = numbers_in(allowed, first);
    let mut place = at.alpha;
    for number in numbers {
        let row_at = PairNumber {
            first,
            second,
            number: *number,
        };
        place = place_from(&leaf.alpha, place, &row_at);
        let row = Row {
            first,
            second,
            number: *number,
            alpha: value_at(&leaf.alpha, place, &row_at),
        };
        let fault = row_fault(case, allowed, leaf, &row, at.beta);
        if fault.is_some() {
            return fault;
        }
    }
    None
}

/// The first number of the second train at which the row doesn't stand.
fn row_fault(
    case: &Case,
    allowed: &Allowed,
    leaf: &Leaf,
    row: &Row,
    from: usize,
) -> Option<PairPlace>
    requires fits { FitsBook allowed.now.lists case.now.book }
    requires row { IsRow case.now leaf.now row.now }
    requires below { AreBelow leaf.now.beta (key_at row.now.first row.now.second 0) from }
    ensures { result ≡ find (pair_fails case.now (numbers_of leaf.now))
        (row_places allowed.now.lists (record { first = row.now.first; second = row.now.second }) row.now.number) }
{
    let _limits = case.book().trains();
    let numbers = numbers_in(allowed, row.second);
    let mut place = from;
    for number in numbers {
        let at = PairNumber {
            first: row.first,
            second: row.second,
            number: *number,
        };
        place = place_from(&leaf.beta, place, &at);
        if is_over(case, leaf, row, &at, place) {
            return Some(PairPlace {
                first: row.first,
                second: row.second,
                i: row.number,
                j: *number,
            });
        }
    }
    None
}

/// Whether the two numbers are more than the sealed price. It is looked up only where they are above 0.
fn is_over(case: &Case, leaf: &Leaf, row: &Row, at: &PairNumber, place: usize) -> bool
    requires row { IsRow case.now leaf.now row.now }
    requires first { at.now.first ≡ row.now.first }
    requires second { at.now.second ≡ row.now.second }
    requires number { at.now.number < length (offers_of case.now.book row.now.second) }
    requires place { IsPlace leaf.now.beta (key_at at.now.first at.now.second at.now.number) place }
    ensures { result ≡ pair_fails case.now (numbers_of leaf.now)
        (record { first = row.now.first; second = row.now.second; i = row.now.number; j = at.now.number }) }
{
    let worth = row.alpha + value_at(&leaf.beta, place, at);
    worth > 0 && price_of(case, leaf, row, at) < worth
}

/// The sealed price at the leaf's scale.
fn price_of(case: &Case, leaf: &Leaf, row: &Row, at: &PairNumber) -> i128
    requires row { IsRow case.now leaf.now row.now }
    requires number { at.now.number < length (offers_of case.now.book row.now.second) }
    ensures { result ≡ scaled (numbers_of leaf.now) (sealed_price case.now
        (pattern_at case.now.book row.now.first row.now.number) (pattern_at case.now.book row.now.second at.now.number)) }
{
    leaf.q
        * case.sealed(
            row.first as usize,
            row.number,
            row.second as usize,
            at.number,
        ) as i128
}
