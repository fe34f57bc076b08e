ghost use Rattle.leaf_bounds.specs.Made.{IsMissingLeaf, LacksMember};
ghost use Rattle.patterns.specs.Allowed.{list_of, FitsBook};
ghost use Rattle.std.specs.Prelude.{◌≡◌, ◌<◌, ◌≤◌, ◌^◌, ◌∷◌, [], length, pos, ◌≤ℤ◌, IfOk};

use crate::bare::{bare_leaf, push_value};
use crate::leaf::Leaf;
use pair_prices::Case;
use patterns::Allowed;
use std::alloc::{AllocError, Global};

/// A leaf for lists of which one has no member. It is empty.
///
/// # Errors
/// `AllocError` where the leaf finds no memory.
pub fn missing_leaf(alloc: Global, case: &Case, allowed: &Allowed) -> Result<Leaf, AllocError>
    requires fits { FitsBook allowed.now.lists case.now.book }
    requires missing { LacksMember allowed.now.lists }
    ensures { IfOk result (λ l. IsMissingLeaf case.now allowed.now.lists l) }
{
    let _trains = case.book().trains();
    let train = first_missing(allowed);
    let mut u = Vec::new(alloc);
    push_value(&mut u, train as u16, case.top() as u64)?;
    Ok(bare_leaf(alloc, u))
}

/// The first train whose list has no member.
fn first_missing(allowed: &Allowed) -> usize
    requires { LacksMember allowed.now.lists }
    ensures there { result < length allowed.now.lists }
    ensures missing { list_of allowed.now.lists result ≡ [] }
{
    for train in 0..allowed.lists.len() {
        if allowed.lists.as_slice()[train].len() == 0 {
            return train;
        }
    }
    0
}
