ghost use Rattle.leaf_bounds.specs.Leaf.{held, potentials, scaled};
ghost use Rattle.leaf_bounds.specs.Listed.{u_listed};
ghost use Rattle.leaf_bounds.specs.Shown.{numbers_of, ArePlaces, IsPairThere};
ghost use Rattle.leaf_bounds.specs.Sides.{AreWithin, IsRowOf};
ghost use Rattle.leaf_bounds.specs.Verdict.{first_pattern, pattern_fails, pattern_places};
ghost use Rattle.patterns.specs.Allowed.{FitsBook};
ghost use Rattle.patterns.specs.Book.{offers_of, pattern_at, price_at};
ghost use Rattle.std.specs.Prelude.{◌≡◌, ◌*◌, ◌<◌, ◌≤◌, ◌^◌, ◌+ℤ◌, find, length, unsigned_abs, All};

use crate::check::PatternPlace;
use crate::leaf::Leaf;
use crate::lists::numbers_in;
use crate::minutes::sum_within;
use crate::number::TrainValue;
use crate::potentials::potentials_of;
use crate::sums::u_of;
use pair_prices::{Case, held_platform};
use patterns::Allowed;

/// A train has at most so many patterns.
const MOST_PATTERNS: usize = 4096;

/// The first train and number at which the leaf doesn't stand.
pub(crate) fn first_pattern_fault(
    case: &Case,
    allowed: &Allowed,
    leaf: &Leaf,
) -> Option<PatternPlace>
    requires fits { FitsBook allowed.now.lists case.now.book }
    requires places { ArePlaces case.now allowed.now.lists leaf.now }
    ensures { result ≡ first_pattern case.now allowed.now.lists (numbers_of leaf.now) }
{
    let trains = case.book().trains() as u16;
    let mut room = zeros::<MOST_PATTERNS>();
    for train in 0..trains {
        let fault = train_fault(case, allowed, leaf, train, &mut room);
        if fault.is_some() {
            return fault;
        }
    }
    None
}

fn zeros<const N: usize>() -> [i128; N]
    ensures { length result ≡ N }
{
    [0; N]
}

/// The same of one train. The room is for its potentials.
fn train_fault(
    case: &Case,
    allowed: &Allowed,
    leaf: &Leaf,
    train: u16,
    room: &mut [i128],
) -> Option<PatternPlace>
    requires fits { FitsBook allowed.now.lists case.now.book }
    requires places { ArePlaces case.now allowed.now.lists leaf.now }
    requires train { train < length case.now.book }
    requires room { 4096 ≤ length room.old }
    ensures { result ≡ find (pattern_fails case.now (numbers_of leaf.now)) (pattern_places allowed.now.lists train) }
{
    let count = case.book().count(train as usize);
    let row = &mut room[..count];
    potentials_of(leaf, train, row);
    first_over(case, allowed, leaf, train, row)
}

/// The same, by the train's potentials at its patterns.
fn first_over(
    case: &Case,
    allowed: &Allowed,
    leaf: &Leaf,
    train: u16,
    row: &[i128],
) -> Option<PatternPlace>
    requires fits { FitsBook allowed.now.lists case.now.book }
    requires places { ArePlaces case.now allowed.now.lists leaf.now }
    requires train { train < length case.now.book }
    requires row { IsRowOf leaf.now train row.now }
    requires count { length row.now ≡ length (offers_of case.now.book train) }
    requires within { AreWithin (400 * 10 ^ 30) row.now }
    ensures { result ≡ find (pattern_fails case.now (numbers_of leaf.now)) (pattern_places allowed.now.lists train) }
{
    let own = TrainValue {
        train,
        value: u_of(leaf, train),
    };
    let numbers = numbers_in(allowed, train);
    for number in numbers {
        let at = PatternPlace {
            train,
            number: *number,
        };
        if is_under(case, leaf, row, &own, &at) {
            return Some(at);
        }
    }
    None
}

/// Whether the pattern pays less than the train's number.
fn is_under(case: &Case, leaf: &Leaf, row: &[i128], own: &TrainValue, at: &PatternPlace) -> bool
    requires alpha { All (IsPairThere case.now) leaf.now.alpha }
    requires beta { All (IsPairThere case.now) leaf.now.beta }
    requires train { at.now.train < length case.now.book }
    requires number { at.now.number < length (offers_of case.now.book at.now.train) }
    requires own { own.now.value ≡ u_listed leaf.now.u at.now.train }
    requires row { IsRowOf leaf.now at.now.train row.now }
    requires count { length row.now ≡ length (offers_of case.now.book at.now.train) }
    requires within { AreWithin (400 * 10 ^ 30) row.now }
    ensures { result ≡ pattern_fails case.now (numbers_of leaf.now) at.now }
{
    pays_at(case, leaf, at, row) < own.value
}

/// What the pattern pays at the leaf's scale, with all that pairs and minutes give it.
fn pays_at(case: &Case, leaf: &Leaf, at: &PatternPlace, row: &[i128]) -> i128
    requires alpha { All (IsPairThere case.now) leaf.now.alpha }
    requires beta { All (IsPairThere case.now) leaf.now.beta }
    requires train { at.now.train < length case.now.book }
    requires number { at.now.number < length (offers_of case.now.book at.now.train) }
    requires row { IsRowOf leaf.now at.now.train row.now }
    requires count { length row.now ≡ length (offers_of case.now.book at.now.train) }
    requires within { AreWithin (400 * 10 ^ 30) row.now }
    ensures value { let l = numbers_of leaf.now in let t = at.now.train in let i = at.now.number in
        result ≡ (scaled l (price_at case.now.book t i) +ℤ potentials case.now l t i) +ℤ held case.now l (pattern_at case.now.book t i) }
    ensures size { unsigned_abs result ≤ 10 ^ 37 }
{
    price_of_pattern(case, leaf, at) + row[at.number as usize] + held_at(case, leaf, at)
}

fn price_of_pattern(case: &Case, leaf: &Leaf, at: &PatternPlace) -> i128
    requires train { at.now.train < length case.now.book }
    requires number { at.now.number < length (offers_of case.now.book at.now.train) }
    ensures value { result ≡ scaled (numbers_of leaf.now) (price_at case.now.book at.now.train at.now.number) }
    ensures size { unsigned_abs result ≤ 10 ^ 28 }
{
    leaf.q * case.book().price_of(at.train as usize, at.number) as i128
}

/// What the pattern is charged for the minutes that it holds its platform.
fn held_at(case: &Case, leaf: &Leaf, at: &PatternPlace) -> i128
    requires train { at.now.train < length case.now.book }
    requires number { at.now.number < length (offers_of case.now.book at.now.train) }
    ensures value { result ≡ held case.now (numbers_of leaf.now) (pattern_at case.now.book at.now.train at.now.number) }
    ensures size { unsigned_abs result ≤ 10 ^ 36 }
{
    let pattern = case.book().get(at.train as usize, at.number);
    let span = held_platform(case.station(), &pattern);
    sum_within(leaf.v.as_slice(), pattern.platform as u16, &span)
}
