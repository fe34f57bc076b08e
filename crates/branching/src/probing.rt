// The choice of a cut by probing.
ghost use Rattle.branching.specs.Lists.{IsCut, IsCutIfAny, IsUndecided};
ghost use Rattle.pair_classes.specs.Meetings.{AreMeetings};
ghost use Rattle.patterns.specs.Allowed.{FitsBook, Lists};
ghost use Rattle.std.specs.Prelude.{◌≡◌, IfOk};

use crate::aid::Aid;
use crate::choice::{Choice, choose_cut, cut_if_long, preferred};
use crate::part::Part;
use dual_ascent::{Hints, probe};
use leaf_bounds::{Cut, Leaf};
use pair_prices::Case;
use patterns::{Allowed, TwoParts};
use std::alloc::{AllocError, Global};

/// How many cuts are probed, of as many trains.
const PROBED: usize = 4;

/// The most steps of the ascent on one side of a cut.
const PROBE_STEPS: u32 = 80;

/// A cut, and what the plans on its two sides were found to cost.
#[derive(Clone, Copy, Drop)]
pub(crate) struct Probed {
    cut: Cut,
    least: i64,
    greatest: i64,
}

/// Where a part is split: of a few cuts that promise much, the one whose cheaper side is found to cost most. What is chosen decides how
/// long a search takes, and nothing else.
pub(crate) fn probed_cut(
    alloc: Global,
    case: &Case,
    aid: &Aid,
    part: &Part,
) -> Result<Cut, AllocError>
    requires meetings { AreMeetings case.now aid.now.meetings.now }
    requires fits { FitsBook part.now.allowed.lists case.now.book }
    requires undecided { IsUndecided part.now.allowed.lists }
    ensures { IfOk result (λ cut. IsCut part.now.allowed.lists cut) }
{
    let first = choose_cut(case, &part.allowed);
    let mut taken = Vec::new(alloc);
    taken.push(first.train)?;
    let mut best = try_cut(alloc, case, aid, part, first)?;
    for _rank in 1..PROBED {
        if let Some(choice) = best_beside(case, &part.allowed, &taken) {
            taken.push(choice.cut.train)?;
            let other = try_cut(alloc, case, aid, part, choice.cut)?;
            best = dearer(best, other);
        }
    }
    Ok(best.cut)
}

/// The most promising cut of a train that isn't among these.
fn best_beside(case: &Case, allowed: &Allowed, taken: &[u16]) -> Option<Choice>
    requires fits { FitsBook allowed.now.lists case.now.book }
    ensures { IsCutIfAny allowed.now.lists result }
{
    let trains = case.book().trains();
    let mut best = None;
    for train in 0..trains {
        if !taken.contains(&(train as u16)) {
            best = preferred_of(best, cut_if_long(case, allowed, train));
        }
    }
    best
}

fn preferred_of(best: Option<Choice>, other: Option<Choice>) -> Option<Choice>
    ensures { (lists : Lists) → IsCutIfAny lists best → IsCutIfAny lists other → IsCutIfAny lists result }
{
    match best {
        Some(best) => Some(preferred(best, other)),
        None => other,
    }
}

/// Probes both sides of a cut.
fn try_cut(
    alloc: Global,
    case: &Case,
    aid: &Aid,
    part: &Part,
    cut: Cut,
) -> Result<Probed, AllocError>
    requires meetings { AreMeetings case.now aid.now.meetings.now }
    requires fits { FitsBook part.now.allowed.lists case.now.book }
    requires cut { IsCut part.now.allowed.lists cut }
    ensures { IfOk result (λ p. p.cut ≡ cut) }
{
    // Both sides have a number, so only memory may be missing.
    let Ok(sides) = part.allowed.split(alloc, cut.train as usize, cut.at) else {
        return Err(AllocError);
    };
    let TwoParts { below, rest } = sides;
    let below = side_bound(alloc, case, aid, &below, &part.leaf)?;
    let rest = side_bound(alloc, case, aid, &rest, &part.leaf)?;
    Ok(Probed {
        cut,
        least: below.min(rest),
        greatest: below.max(rest),
    })
}

/// What a short ascent finds that the plans of these lists cost.
fn side_bound(
    alloc: Global,
    case: &Case,
    aid: &Aid,
    allowed: &Allowed,
    seed: &Leaf,
) -> Result<i64, AllocError>
    requires meetings { AreMeetings case.now aid.now.meetings.now }
    requires fits { FitsBook allowed.now.lists case.now.book }
{
    let hints = Hints {
        meetings: aid.meetings,
        known: aid.known,
        seed: Some(seed),
        iterations: PROBE_STEPS,
    };
    probe(alloc, case, allowed, &hints)
}

fn dearer(best: Probed, other: Probed) -> Probed
    ensures { (lists : Lists) → IsCut lists best.cut → IsCut lists other.cut → IsCut lists result.cut }
{
    if is_dearer(&other, &best) {
        other
    } else {
        best
    }
}

fn is_dearer(other: &Probed, best: &Probed) -> bool {
    other.least > best.least || (other.least == best.least && other.greatest > best.greatest)
}
