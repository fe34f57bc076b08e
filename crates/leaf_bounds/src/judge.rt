ghost use Rattle.leaf_bounds.specs.Shown.{numbers_of, ArePlaces, LeafStands};
ghost use Rattle.leaf_bounds.specs.Verdict.{verdict_of};
ghost use Rattle.patterns.specs.Allowed.{FitsBook};
ghost use Rattle.std.specs.Prelude.{◌≡◌, ◌↔◌, IsOk};

use crate::check::{LeafFault, LeafValue};
use crate::laws::check_is_exact;
use crate::leaf::Leaf;
use crate::pairs::first_pair_fault;
use crate::trains::first_pattern_fault;
use crate::value::leaf_value;
use pair_prices::Case;
use patterns::Allowed;

/// What the leaf says of the plans of these lists, where it stands for them: `docs/PROOFS.md`, "Leaves". Its value, whether it
/// is empty, and its value over its scale rounded up.
///
/// # Errors
/// The first pair of trains and numbers at which the leaf doesn't stand, ascending, and where there is none the first
/// train and number.
///
/// It takes no memory.
pub fn leaf_check(case: &Case, allowed: &Allowed, leaf: &Leaf) -> Result<LeafValue, LeafFault>
    requires fits { FitsBook allowed.now.lists case.now.book }
    requires places { ArePlaces case.now allowed.now.lists leaf.now }
    ensures verdict { result ≡ verdict_of case.now allowed.now.lists (numbers_of leaf.now) }
    // It says yes exactly where the leaf stands.
    ensures stands { IsOk result ↔ LeafStands case.now allowed.now.lists leaf.now }
{
    check_is_exact();
    match first_pair_fault(case, allowed, leaf) {
        Some(place) => Err(LeafFault::Pair(place)),
        None => match first_pattern_fault(case, allowed, leaf) {
            Some(place) => Err(LeafFault::Pattern(place)),
            None => Ok(leaf_value(case, leaf)),
        },
    }
}
