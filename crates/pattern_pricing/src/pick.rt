ghost use Rattle.pattern_pricing.specs.Layout.{columns_of};
ghost use Rattle.pattern_pricing.specs.Picks.{IsLeastOf, IsPick, NoneNegative};
ghost use Rattle.pattern_pricing.specs.Reduced.{at};
ghost use Rattle.std.specs.Prelude.{◌≡◌, ℕ, ◌+◌, ◌<◌, ◌≤◌, length, pos, IfSome, MatchOption};

use crate::layout::Layout;

/// The column of least reduced price among the patterns of the first train that has a negative one, or among all other
/// columns where no train has one.
pub(crate) fn pick(layout: &Layout, reduced: &[i128]) -> Option<u64>
    requires { length reduced.now ≡ length (columns_of layout.now) }
    ensures { MatchOption result (NoneNegative (at reduced.now) 0 (length reduced.now)) (IsPick layout.now (at reduced.now)) }
{
    let count = layout.count();
    for train in 0..layout.trains() {
        let found = least_negative(reduced, layout.start(train), layout.start(train + 1));
        if let Some(column) = found {
            return Some(column);
        }
    }
    least_negative(reduced, layout.lefts(), count)
}

/// The place of the least of these numbers, where it is negative.
fn least_negative(reduced: &[i128], from: u64, to: u64) -> Option<u64>
    requires order { from ≤ to }
    requires inside { to ≤ length reduced.now }
    ensures { IsLeastOf (at reduced.now) from to result }
{
    let mut best = None;
    for next in from..to {
        best = better(reduced, best, next);
    }
    best
}

/// The next place, where its number is less than the best so far, or the first negative one.
fn better(reduced: &[i128], best: Option<u64>, next: u64) -> Option<u64>
    requires inside { next < length reduced.now }
    requires best { IfSome best (λ place. place < length reduced.now) }
    ensures { (from : ℕ) → from ≤ next → IsLeastOf (at reduced.now) from next best → IsLeastOf (at reduced.now) from (next + 1) result }
{
    if reduced[next as usize] < best_value(reduced, best) {
        Some(next)
    } else {
        best
    }
}

/// The number at the best place, and 0 where there is none.
fn best_value(reduced: &[i128], best: Option<u64>) -> i128
    requires { IfSome best (λ place. place < length reduced.now) }
    ensures { MatchOption best (result ≡ pos 0) (λ place. result ≡ at reduced.now place) }
{
    match best {
        Some(place) => reduced[place as usize],
        None => 0,
    }
}
