ghost use Rattle.pair_classes.specs.Meetings.{AreMeetings};
ghost use Rattle.patterns.specs.Allowed.{FitsBook};

use crate::cuts::Cuts;
use crate::draft::Draft;
use crate::drawing::draw;
use crate::field::Field;
use crate::goal::Goal;
use crate::hints::Hints;
use crate::numbers::narrowed;
use crate::pairing::pairings;
use crate::seeds::{seeded_cuts, start};
use crate::separation::{View, separate};
use crate::support::support_of;
use crate::walk::{Next, Walk};
use pair_classes::Meetings;
use pair_prices::Case;
use patterns::Allowed;
use sequence::Sequence;
use std::alloc::{AllocError, Global};

/// New cuts are looked for after so many steps each.
const SEPARATION: u32 = 40;

/// What an ascent found: the numbers of a leaf, not checked yet, and the choices of late.
#[derive(Drop)]
pub(crate) struct Ascended {
    pub draft: Draft,
    pub support: Sequence<Sequence<u32>>,
}

pub(crate) fn ascend(
    alloc: Global,
    case: &Case,
    allowed: &Allowed,
    hints: &Hints,
) -> Result<Ascended, AllocError>
    requires fits { FitsBook allowed.now.lists case.now.book }
    requires meetings { AreMeetings case.now hints.now.meetings.now }
{
    let mut field = Field::new(alloc, case, allowed)?;
    let cuts = first_cuts(alloc, case, allowed, &field, hints)?;
    let walk = walk_on(alloc, case, &mut field, cuts, hints)?;
    Ok(Ascended {
        draft: draw(alloc, &field, &walk)?,
        support: support_of(alloc, &field, &walk.average)?,
    })
}

/// The best value of an ascent over its scale, rounded up.
pub(crate) fn best_bound(
    alloc: Global,
    case: &Case,
    allowed: &Allowed,
    hints: &Hints,
) -> Result<i64, AllocError>
    requires fits { FitsBook allowed.now.lists case.now.book }
    requires meetings { AreMeetings case.now hints.now.meetings.now }
{
    let mut field = Field::new(alloc, case, allowed)?;
    let cuts = first_cuts(alloc, case, allowed, &field, hints)?;
    let walk = walk_on(alloc, case, &mut field, cuts, hints)?;
    let scale = field.scale as i128;
    let above = walk.best.saturating_add(scale.saturating_sub(1));
    Ok(narrowed(above.checked_div(scale).unwrap_or(0)))
}

/// Goes on until the goal is reached, the steps are too short or as many as were asked for.
fn walk_on(
    alloc: Global,
    case: &Case,
    field: &mut Field,
    cuts: Cuts,
    hints: &Hints,
) -> Result<Walk, AllocError> {
    let goal = Goal::new(case, field, hints.known);
    let u = start(alloc, field, hints.seed)?;
    let mut walk = Walk::new(alloc, field, u, cuts, hints.seed.is_some())?;
    walk.cuts.go_back(field);
    for step in 0..hints.iterations.max(1) {
        let next = walk.step(field, &goal)?;
        if next == Next::End {
            break;
        }
        if next == Next::Cuts || step % SEPARATION == SEPARATION - 1 {
            let found = look_for_cuts(alloc, case, field, hints.meetings, &mut walk)?;
            if next == Next::Cuts && !found {
                break;
            }
        }
    }
    walk.cuts.go_back(field);
    Ok(walk)
}

/// Adds cuts, if the choices of late break some.
fn look_for_cuts(
    alloc: Global,
    case: &Case,
    field: &Field,
    meetings: &Meetings,
    walk: &mut Walk,
) -> Result<bool, AllocError> {
    let view = View {
        meetings,
        average: &walk.average,
        top: case.top(),
    };
    let found = separate(alloc, &view, field, &mut walk.cuts)?;
    if found {
        walk.refresh();
    }
    Ok(found)
}

/// The cuts to begin with.
fn first_cuts(
    alloc: Global,
    case: &Case,
    allowed: &Allowed,
    field: &Field,
    hints: &Hints,
) -> Result<Cuts, AllocError>
    requires fits { FitsBook allowed.now.lists case.now.book }
    requires meetings { AreMeetings case.now hints.now.meetings.now }
{
    let pairings = pairings(alloc, case, allowed, hints.meetings)?;
    let cuts = seeded_cuts(alloc, field, hints.meetings, &pairings, hints.seed)?;
    Cuts::new(alloc, pairings, cuts)
}
