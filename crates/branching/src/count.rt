ghost use Rattle.branching.specs.Answer.{split_bound};
ghost use Rattle.std.specs.Prelude.{◌≡◌};

use pair_prices::Case;

/// How many splits decide a case at most: one less than there are plans that fit, 0 where a train has no pattern, and u128's
/// greatest number where there are more. It takes no memory.
pub fn split_bound(case: &Case) -> u128
    ensures { result ≡ split_bound case.now }
{
    let book = case.book();
    let trains = book.trains();
    let mut bound: u128 = 0;
    for train in 0..trains {
        let count = book.count(train) as u128;
        if count == 0 {
            return 0;
        }
        bound = bound.saturating_mul(count).saturating_add(count - 1);
    }
    bound
}
