ghost use Rattle.dual_ascent.specs.Plain.{IsAtLeastPlain};
ghost use Rattle.leaf_bounds.specs.Shown.{numbers_of, LeafStands};
ghost use Rattle.leaf_bounds.specs.Verdict.{answer_of};
ghost use Rattle.pair_classes.specs.Meetings.{AreMeetings};
ghost use Rattle.patterns.specs.Allowed.{FitsBook};
ghost use Rattle.std.specs.Prelude.{◌≡◌, IfOk};

use crate::ascend::{ascend, best_bound};
use crate::better::better_leaf;
use crate::draft::leaf_of;
use crate::hints::{Climbed, Hints};
use pair_prices::Case;
use patterns::Allowed;
use std::alloc::{AllocError, Global};

/// A leaf that stands for the lists, mostly with a bound close to the best there is. Its value over its scale is at least the
/// sum of the least prices, and with a seed mostly at least the seed's.
///
/// The greater part of a call are its iterations: each looks at every listed pattern and every minute of a platform once.
///
/// # Errors
/// `AllocError` where the ascent finds no memory.
pub fn climb(
    alloc: Global,
    case: &Case,
    allowed: &Allowed,
    hints: &Hints,
) -> Result<Climbed, AllocError>
    requires fits { FitsBook allowed.now.lists case.now.book }
    requires meetings { AreMeetings case.now hints.now.meetings.now }
    ensures stands { IfOk result (λ c. LeafStands case.now allowed.now.lists c.leaf) }
    ensures worth { IfOk result (λ c. c.worth ≡ answer_of case.now (numbers_of c.leaf)) }
    ensures at_least_plain { IfOk result (λ c. IsAtLeastPlain case.now allowed.now.lists c.leaf) }
{
    let ascended = ascend(alloc, case, allowed, hints)?;
    let better = better_leaf(alloc, case, allowed, leaf_of(ascended.draft))?;
    Ok(Climbed {
        leaf: better.leaf,
        worth: better.worth,
        support: ascended.support,
    })
}

/// A guess at the bound that `climb` would give, without the check of a leaf: what compares lists is a search's choice, and
/// nothing is promised of it.
///
/// # Errors
/// `AllocError` where the ascent finds no memory.
pub fn probe(
    alloc: Global,
    case: &Case,
    allowed: &Allowed,
    hints: &Hints,
) -> Result<i64, AllocError>
    requires fits { FitsBook allowed.now.lists case.now.book }
    requires meetings { AreMeetings case.now hints.now.meetings.now }
{
    best_bound(alloc, case, allowed, hints)
}
