// The better of a leaf that was found and the leaf of least prices.
ghost use Rattle.dual_ascent.specs.Plain.{least_prices, IsAtLeastPlain};
ghost use Rattle.leaf_bounds.specs.Shown.{numbers_of, LeafStands};
ghost use Rattle.leaf_bounds.specs.Verdict.{answer_of};
ghost use Rattle.patterns.specs.Allowed.{FitsBook};
ghost use Rattle.std.specs.Prelude.{◌≡◌, ◌*ℤ◌, ◌≤ℤ◌, pos, IfOk, IfSome, IsTrue};

use crate::places::are_places;
use leaf_bounds::{Leaf, LeafValue, leaf_check, plain_leaf};
use pair_prices::Case;
use patterns::Allowed;
use std::alloc::{AllocError, Global};

/// A leaf that stands, and what it says of the plans of its lists.
#[derive(Drop)]
pub(crate) struct Judged {
    pub leaf: Leaf,
    pub worth: LeafValue,
}

/// The leaf that was found, where it stands and is worth at least as much as the leaf of least prices, and otherwise that one.
pub(crate) fn better_leaf(
    alloc: Global,
    case: &Case,
    allowed: &Allowed,
    found: Option<Leaf>,
) -> Result<Judged, AllocError>
    requires { FitsBook allowed.now.lists case.now.book }
    ensures stands { IfOk result (λ j. LeafStands case.now allowed.now.lists j.leaf) }
    ensures worth { IfOk result (λ j. j.worth ≡ answer_of case.now (numbers_of j.leaf)) }
    ensures at_least_plain { IfOk result (λ j. IsAtLeastPlain case.now allowed.now.lists j.leaf) }
{
    let plain = checked_plain(alloc, case, allowed)?;
    if let Some(leaf) = found {
        if let Some(judged) = checked(case, allowed, leaf) {
            if is_as_good(&judged, &plain) {
                return Ok(judged);
            }
        }
    }
    Ok(plain)
}

/// The leaf of least prices.
fn checked_plain(alloc: Global, case: &Case, allowed: &Allowed) -> Result<Judged, AllocError>
    requires { FitsBook allowed.now.lists case.now.book }
    ensures stands { IfOk result (λ j. LeafStands case.now allowed.now.lists j.leaf) }
    ensures worth { IfOk result (λ j. j.worth ≡ answer_of case.now (numbers_of j.leaf)) }
    ensures plain { IfOk result (λ j. j.worth.value ≡ pos (least_prices case.now allowed.now.lists)) }
    ensures at_least_plain { IfOk result (λ j. IsAtLeastPlain case.now allowed.now.lists j.leaf) }
{
    let leaf = plain_leaf(alloc, case, allowed)?;
    match leaf_check(case, allowed, &leaf) {
        Ok(worth) => Ok(Judged { leaf, worth }),
        Err(_) => unreachable!(),
    }
}

/// The leaf with what it says, where it stands.
fn checked(case: &Case, allowed: &Allowed, leaf: Leaf) -> Option<Judged>
    requires { FitsBook allowed.now.lists case.now.book }
    ensures stands { IfSome result (λ j. LeafStands case.now allowed.now.lists j.leaf) }
    ensures worth { IfSome result (λ j. j.worth ≡ answer_of case.now (numbers_of j.leaf)) }
{
    if !are_places(case, allowed, &leaf) {
        return None;
    }
    match leaf_check(case, allowed, &leaf) {
        Ok(worth) => Some(Judged { leaf, worth }),
        Err(_) => None,
    }
}

/// Whether the leaf's value over its scale is at least a value over scale 1.
fn is_as_good(judged: &Judged, plain: &Judged) -> bool
    ensures { IsTrue result → (judged.now.leaf.q *ℤ plain.now.worth.value) ≤ℤ judged.now.worth.value }
{
    match judged.leaf.q.checked_mul(plain.worth.value) {
        Some(least) => least <= judged.worth.value,
        None => false,
    }
}
