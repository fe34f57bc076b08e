ghost use Rattle.branching.specs.Known.{is_settled, IsKnown, IsNoDearer, IsPriced, IsPricedIfAny};
ghost use Rattle.pair_prices.specs.Case.{CaseRecord};
ghost use Rattle.pair_prices.specs.Plan.{Fits, IsFeasible};
ghost use Rattle.std.specs.Prelude.{◌≡◌, IfOk, MatchOption};

use crate::found::Priced;
use leaf_bounds::Bound;
use pair_prices::Case;
use plan_cost::{Plan, Verdict, judge};
use primal_heuristic::{greedy, improve};
use std::alloc::{AllocError, Global};

/// Whether the bound is at least the cost of the known plan, or there is no plan under it.
pub(crate) fn is_settled(best: &Option<Priced>, bound: &Bound) -> bool
    ensures { result ≡ is_settled best.now bound.now }
{
    match bound {
        Bound::Nothing => true,
        Bound::AtLeast(least) => match best {
            None => false,
            Some(priced) => priced.cost as i128 <= *least,
        },
    }
}

/// The plan with its cost, if it is feasible.
pub(crate) fn priced(case: &Case, plan: Plan) -> Option<Priced>
    requires { Fits case.now plan.choice }
    ensures priced { IsPricedIfAny case.now result }
    ensures value { MatchOption result (IsFeasible case.now plan.choice → ⊥) (λ p. p.plan ≡ plan) }
{
    match judge(case, &plan) {
        Verdict::Cost(costs) => Some(Priced {
            plan,
            cost: costs.total,
        }),
        Verdict::Conflict(_) => None,
    }
}

/// The greedy plan, made better.
pub(crate) fn first_plan(alloc: Global, case: &Case) -> Result<Option<Priced>, AllocError>
    ensures { IfOk result (IsKnown case.now) }
{
    match greedy(alloc, case)? {
        None => Ok(None),
        Some(plan) => {
            let better = improve(alloc, case, plan)?;
            Ok(priced(case, better))
        }
    }
}

/// The cheaper of two plans, the first of two that cost the same.
pub(crate) fn cheaper(best: Option<Priced>, found: Option<Priced>) -> Option<Priced>
    ensures best { IsNoDearer best result }
    ensures found { IsNoDearer found result }
    ensures known { (c : CaseRecord) → IsKnown c best → IsPricedIfAny c found → IsKnown c result }
{
    match (best, found) {
        (None, found) => found,
        (Some(a), None) => Some(a),
        (Some(a), Some(b)) => if a.cost <= b.cost { Some(a) } else { Some(b) },
    }
}

/// The cost of the plan, if there is one.
pub(crate) fn cost_of(best: &Option<Priced>) -> Option<i64> {
    match best {
        Some(priced) => Some(priced.cost),
        None => None,
    }
}
