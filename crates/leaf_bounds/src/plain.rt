ghost use Rattle.leaf_bounds.specs.Made.{least_price, IsPlainLeaf};
ghost use Rattle.patterns.specs.Allowed.{FitsBook};
ghost use Rattle.patterns.specs.Book.{offers_of, price_at};
ghost use Rattle.std.specs.Prelude.{◌≡◌, ◌<◌, length, IfOk};

use crate::bare::{bare_leaf, push_value};
use crate::leaf::Leaf;
use crate::lists::numbers_in;
use pair_prices::Case;
use patterns::Allowed;
use std::alloc::{AllocError, Global};

/// The leaf of the least prices in the trains' lists. Its value is their sum, where an empty list counts 0.
///
/// # Errors
/// `AllocError` where the leaf finds no memory.
pub fn plain_leaf(alloc: Global, case: &Case, allowed: &Allowed) -> Result<Leaf, AllocError>
    requires { FitsBook allowed.now.lists case.now.book }
    ensures { IfOk result (λ l. IsPlainLeaf case.now allowed.now.lists l) }
{
    let trains = case.book().trains() as u16;
    let mut u = Vec::new(alloc);
    for train in 0..trains {
        let price = least_price_of(case, allowed, train);
        push_value(&mut u, train, price)?;
    }
    Ok(bare_leaf(alloc, u))
}

fn least_price_of(case: &Case, allowed: &Allowed, train: u16) -> u64
    requires fits { FitsBook allowed.now.lists case.now.book }
    requires train { train < length case.now.book }
    ensures { result ≡ least_price case.now allowed.now.lists train }
{
    let numbers = numbers_in(allowed, train);
    if numbers.is_empty() {
        return 0;
    }
    let mut least = price_of(case, train, numbers[0]);
    for number in numbers {
        least = price_of(case, train, *number).min(least);
    }
    least
}

pub(crate) fn price_of(case: &Case, train: u16, number: u16) -> u64
    requires train { train < length case.now.book }
    requires number { number < length (offers_of case.now.book train) }
    ensures { result ≡ price_at case.now.book train number }
{
    case.book().price_of(train as usize, number) as u64
}
