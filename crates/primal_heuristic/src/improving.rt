ghost use Rattle.pair_classes.specs.Meetings.{AreMeetings};
ghost use Rattle.pair_prices.specs.Plan.{IsFeasible, cost};
ghost use Rattle.primal_heuristic.specs.Better.{IsKnown, IsNoDearer};
ghost use Rattle.primal_heuristic.specs.Greedy.{IsFeasibleIfAny};
ghost use Rattle.std.specs.Prelude.{◌≤◌, IfOk};

use crate::beam::{Aim, beam};
use crate::board::Board;
use crate::known::Known;
use crate::openings::all;
use crate::prices::Prices;
use crate::rounds::{Spent, round};
use pair_classes::Meetings;
use pair_prices::Case;
use patterns::Allowed;
use plan_cost::{Plan, Verdict, judge};
use sequence::Sequence;
use std::alloc::{AllocError, Global};

/// How many rounds of searches there are at most. Each makes the plan cheaper.
const ROUNDS: usize = 40;

/// A feasible plan that costs at most what this one costs.
///
/// # Errors
/// `AllocError` where the search finds no memory. The plan is lost then.
pub fn improve(alloc: Global, case: &Case, plan: Plan) -> Result<Plan, AllocError>
    requires { IsFeasible case.now plan.choice }
    ensures feasible { IfOk result (λ p. IsFeasible case.now p.choice) }
    ensures cost { IfOk result (λ p. cost case.now p.choice ≤ cost case.now plan.choice) }
{
    let meetings = Meetings::new(alloc, case)?;
    let allowed = Allowed::all(alloc, case.book())?;
    improve_in(alloc, case, &meetings, &allowed, plan)
}

/// The same by a search among the numbers of the lists, for callers that have the pairs that can meet. The given plan's own numbers need
/// not be in the lists.
///
/// # Errors
/// `AllocError` where the search finds no memory. The plan is lost then.
pub fn improve_in(
    alloc: Global,
    case: &Case,
    meetings: &Meetings,
    allowed: &Allowed,
    plan: Plan,
) -> Result<Plan, AllocError>
    requires meetings { AreMeetings case.now meetings.now }
    requires feasible { IsFeasible case.now plan.choice }
    ensures feasible { IfOk result (λ p. IsFeasible case.now p.choice) }
    ensures cost { IfOk result (λ p. cost case.now p.choice ≤ cost case.now plan.choice) }
{
    match judge(case, &plan) {
        Verdict::Cost(costs) => {
            let known = Known {
                plan,
                cost: costs.total,
            };
            let board = Board::new(alloc, Prices { case, meetings }, allowed)?;
            let best = best(alloc, case, &board, known)?;
            Ok(best.plan)
        }
        Verdict::Conflict(_) => Ok(plan),
    }
}

/// The best plan that rounds of searches find from this one on.
fn best(alloc: Global, case: &Case, board: &Board, known: Known) -> Result<Known, AllocError>
    requires { IsKnown case.now known }
    ensures { IfOk result (IsNoDearer case.now known) }
{
    let mut spent = Spent::new(alloc);
    let mut best = known;
    for _ in 0..ROUNDS {
        let numbers = best.plan.choice.as_slice();
        match round(alloc, board, numbers, best.cost, &mut spent)? {
            Some(numbers) => best = better(case, best, numbers),
            None => return Ok(best),
        }
        if spent.is_over() {
            return Ok(best);
        }
    }
    Ok(best)
}

/// The plan with these numbers if it is feasible and costs less, or else the known one.
fn better(case: &Case, known: Known, numbers: Vec<u16>) -> Known
    requires { IsKnown case.now known }
    ensures { IsNoDearer case.now known result }
{
    let plan = Plan {
        choice: Sequence::from_vec(numbers),
    };
    if !plan.fits(case) {
        return known;
    }
    match judge(case, &plan) {
        Verdict::Cost(costs) => {
            if costs.total < known.cost {
                Known {
                    plan,
                    cost: costs.total,
                }
            } else {
                known
            }
        }
        Verdict::Conflict(_) => known,
    }
}

/// A feasible plan whose numbers are looked for in the lists, by a search that keeps `width` beginnings at a time. It may find none
/// where there are some.
///
/// # Errors
/// `AllocError` where the search finds no memory.
pub fn plan_in(
    alloc: Global,
    case: &Case,
    meetings: &Meetings,
    allowed: &Allowed,
    width: usize,
) -> Result<Option<Plan>, AllocError>
    requires { AreMeetings case.now meetings.now }
    ensures { IfOk result (IsFeasibleIfAny case.now) }
{
    let board = Board::new(alloc, Prices { case, meetings }, allowed)?;
    let aim = Aim {
        open: all(&board),
        paid: 0,
        limit: case.top(),
        width,
    };
    let mut looks = 0;
    match beam(alloc, &board, &aim, &mut looks)? {
        Some(numbers) => Ok(feasible(case, numbers)),
        None => Ok(None),
    }
}

/// The plan with these numbers, if it is feasible.
fn feasible(case: &Case, numbers: Vec<u16>) -> Option<Plan>
    ensures { IsFeasibleIfAny case.now result }
{
    let plan = Plan {
        choice: Sequence::from_vec(numbers),
    };
    if !plan.fits(case) {
        return None;
    }
    match judge(case, &plan) {
        Verdict::Cost(_) => Some(plan),
        Verdict::Conflict(_) => None,
    }
}
