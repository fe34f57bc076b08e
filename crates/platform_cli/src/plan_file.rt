// The plan that a command judges: the bytes of its file are read, and then they are read as a plan.
ghost use Rattle.std.specs.Prelude.{◌≡◌, ◌<◌, List, ℕ, IfOk, IsErrOf};
ghost use Rattle.shelf.specs.Outside.{Same};
ghost use Rattle.pair_prices.specs.Plan.{Fits};
ghost use Rattle.plan_cost.specs.PlanReading.{plan_reading};
ghost use Rattle.platform_cli.specs.Instance.{IsPlan};
ghost use Rattle.platform_cli.specs.View.{FitsGiven, plan_reading_of};

use crate::instance::read_stop_of;
use crate::output::Stop;
use crate::reading::read_whole;
use pair_prices::Case;
use plan_cost::{Plan, PlanFault, PlanRefused, read_plan};
use shelf::Shelf;
use std::alloc::{AllocError, Global};

/// The most bytes of a plan that are read. They decide what the whole file is read as, since a record takes at most 81
/// bytes and a plan has at most 202 of them.
const MOST_BYTES: usize = 65_536;

/// What the bytes of a plan are read as.
#[derive(Drop)]
pub(crate) enum GivenPlan {
    Taken(Plan),
    Refused(PlanRefused),
}

/// Reads the plan of this name.
pub(crate) fn read_given_plan<S: Shelf>(
    alloc: Global,
    shelf: &mut S,
    name: &str,
    case: &Case,
) -> Result<GivenPlan, Stop>
    ensures read { IfOk result (λ given. IsPlan S.tells (S.held shelf.old) name.now case.now (plan_reading_of given)) }
    ensures fits { IfOk result (λ given. FitsGiven case.now given) }
    ensures held { Same (S.held shelf.old) (S.held shelf.new) }
    ensures cause { IsErrOf result Stop.ReadFault → S.read_faults shelf.old name.now < S.read_faults shelf.new name.now }
    ensures no_write { IsErrOf result Stop.WriteFault → ⊥ }
    ensures writes { Same (S.write_faults shelf.old) (S.write_faults shelf.new) }
{
    // A case keeps the limits of its numbers.
    let _trains = case.book().trains();
    match read_whole(alloc, shelf, name, MOST_BYTES) {
        Ok(bytes) => Ok(plan_in(alloc, case, &bytes)?),
        Err(fault) => Err(read_stop_of(fault)),
    }
}

fn plan_in(alloc: Global, case: &Case, bytes: &[u8]) -> Result<GivenPlan, AllocError>
    ensures read { IfOk result (λ given. plan_reading case.now bytes.now ≡ plan_reading_of given) }
    ensures fits { IfOk result (λ given. FitsGiven case.now given) }
{
    match read_plan(alloc, case, bytes) {
        Ok(plan) => Ok(GivenPlan::Taken(plan)),
        Err(PlanFault::Refused(refused)) => Ok(GivenPlan::Refused(refused)),
        Err(PlanFault::Memory) => Err(AllocError),
    }
}
