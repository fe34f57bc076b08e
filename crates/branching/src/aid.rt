ghost use Rattle.leaf_bounds.specs.Shown.{LeafStands};
ghost use Rattle.pair_classes.specs.Meetings.{AreMeetings};
ghost use Rattle.patterns.specs.Allowed.{FitsBook};
ghost use Rattle.std.specs.Prelude.{All, IfOk};

use dual_ascent::{Hints, climb};
use leaf_bounds::Leaf;
use pair_classes::Meetings;
use pair_prices::Case;
use patterns::Allowed;
use std::alloc::{AllocError, Global};

/// How far the ascent goes for a part of a split: it keeps a split within milliseconds. It ends before where it has shown that no
/// plan is cheaper than the known one.
const PART_STEPS: u32 = 150;

/// What helps a part to a strong bound.
#[derive(Drop)]
pub(crate) struct Aid<'a> {
    /// The pairs of trains that can meet.
    pub meetings: &'a Meetings,
    /// The cost of the best known plan.
    pub known: Option<i64>,
}

/// A leaf by ascent for a part of lists for which the seed stood.
pub(crate) fn part_leaves(
    alloc: Global,
    case: &Case,
    allowed: &Allowed,
    aid: &Aid,
    seed: &Leaf,
) -> Result<Vec<Leaf>, AllocError>
    requires fits { FitsBook allowed.now.lists case.now.book }
    requires meetings { AreMeetings case.now aid.now.meetings.now }
    ensures { IfOk result (λ v. All (LeafStands case.now allowed.now.lists) v.items) }
{
    let hints = Hints {
        meetings: aid.meetings,
        known: aid.known,
        seed: Some(seed),
        iterations: PART_STEPS,
    };
    let found = climb(alloc, case, allowed, &hints)?;
    let mut leaves = Vec::new(alloc);
    leaves.push(found.leaf)?;
    Ok(leaves)
}
