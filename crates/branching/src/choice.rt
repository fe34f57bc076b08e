ghost use Rattle.branching.specs.Lists.{AreNumbers, IsCut, IsCutIfAny, IsLong, IsUndecided};
ghost use Rattle.patterns.specs.Allowed.{list_of, FitsBook, Lists};
ghost use Rattle.patterns.specs.Book.{offers_of};
ghost use Rattle.std.specs.Prelude.{◌≡◌, ◌<◌, ◌≤◌, ℕ, length};

use crate::kind::long_train;
use leaf_bounds::Cut;
use pair_prices::Case;
use patterns::Allowed;

/// A cut, and what speaks for it.
#[derive(Clone, Copy, Drop)]
pub(crate) struct Choice {
    pub cut: Cut,
    /// By how much the least prices of its two parts differ: so much the bound of one part rises.
    gain: u64,
    /// How many numbers it divides.
    count: usize,
}

/// The most promising cut of a part: of a train whose split raises the bound of one side most, and of such trains one with most
/// numbers. It looks twice at each number.
pub(crate) fn choose_cut(case: &Case, allowed: &Allowed) -> Cut
    requires fits { FitsBook allowed.now.lists case.now.book }
    requires undecided { IsUndecided allowed.now.lists }
    ensures { IsCut allowed.now.lists result }
{
    let trains = case.book().trains();
    let first = first_long(allowed);
    let mut best = cut_of(case, allowed, first);
    for train in 0..trains {
        best = preferred(best, cut_if_long(case, allowed, train));
    }
    best.cut
}

fn first_long(allowed: &Allowed) -> usize
    requires { IsUndecided allowed.now.lists }
    ensures { IsLong allowed.now.lists result }
{
    match long_train(allowed) {
        Some(train) => train,
        None => 0,
    }
}

/// The better of two cuts.
pub(crate) fn preferred(best: Choice, other: Option<Choice>) -> Choice
    ensures { (lists : Lists) → IsCut lists best.cut → IsCutIfAny lists other → IsCut lists result.cut }
{
    match other {
        None => best,
        Some(other) => if is_preferred(&other, &best) {
            other
        } else {
            best
        },
    }
}

fn is_preferred(other: &Choice, best: &Choice) -> bool {
    other.gain > best.gain || (other.gain == best.gain && other.count > best.count)
}

/// The cut of a train that has two numbers or more.
pub(crate) fn cut_if_long(case: &Case, allowed: &Allowed, train: usize) -> Option<Choice>
    requires fits { FitsBook allowed.now.lists case.now.book }
    requires train { train < length allowed.now.lists }
    ensures { IsCutIfAny allowed.now.lists result }
{
    if allowed.lists.as_slice()[train].len() < 2 {
        return None;
    }
    Some(cut_of(case, allowed, train))
}

/// The cut of one train's numbers.
fn cut_of(case: &Case, allowed: &Allowed, train: usize) -> Choice
    requires fits { FitsBook allowed.now.lists case.now.book }
    requires long { IsLong allowed.now.lists train }
    ensures { IsCut allowed.now.lists result.cut }
{
    let _trains = case.book().trains();
    let numbers = allowed.lists.as_slice()[train].as_slice();
    let place = border(case, train, numbers);
    let below = least_between(case, train, numbers, 0, place);
    let rest = least_between(case, train, numbers, place, numbers.len());
    Choice {
        cut: Cut {
            train: train as u16,
            at: numbers[place],
        },
        gain: below.abs_diff(rest),
        count: numbers.len(),
    }
}

/// The place nearest to the middle at which another platform begins, or the middle where all are of one platform.
fn border(case: &Case, train: usize, numbers: &[u16]) -> usize
    requires train { train < length case.now.book }
    requires there { AreNumbers case.now.book train numbers.now }
    requires two { 2 ≤ length numbers.now }
    ensures some { 1 ≤ result }
    ensures there { result < length numbers.now }
{
    let middle = numbers.len() / 2;
    let mut best = 0;
    for place in 1..numbers.len() {
        best = nearer_border(case, train, numbers, place, best);
    }
    if best == 0 { middle } else { best }
}

/// The place if another platform begins there and it is nearer to the middle.
fn nearer_border(case: &Case, train: usize, numbers: &[u16], place: usize, best: usize) -> usize
    requires train { train < length case.now.book }
    requires there { AreNumbers case.now.book train numbers.now }
    requires place { place < length numbers.now }
    requires some { 1 ≤ place }
    requires best { best < length numbers.now }
    ensures { result < length numbers.now }
{
    let middle = numbers.len() / 2;
    let before = case.book().get(train, numbers[place - 1]).platform;
    let here = case.book().get(train, numbers[place]).platform;
    if before != here && place.abs_diff(middle) < best.abs_diff(middle) {
        place
    } else {
        best
    }
}

/// The least price of the numbers from one place to before another.
fn least_between(case: &Case, train: usize, numbers: &[u16], from: usize, to: usize) -> u64
    requires train { train < length case.now.book }
    requires there { AreNumbers case.now.book train numbers.now }
    requires to { to ≤ length numbers.now }
{
    let mut least = u64::MAX;
    for place in from..to {
        let price = case.book().price_of(train, numbers[place]) as u64;
        least = price.min(least);
    }
    least
}
