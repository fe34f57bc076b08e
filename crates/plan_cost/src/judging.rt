ghost use Rattle.pair_prices.specs.Plan.{Fits, IsFeasible};
ghost use Rattle.plan_cost.specs.Verdict.{is_cost, verdict_of};
ghost use Rattle.std.specs.Prelude.{◌≡◌, ◌↔◌, IsTrue};

use crate::clash::find_clash;
use crate::costs::costs;
use crate::plan::Plan;
use crate::verdict::Verdict;
use pair_prices::Case;

/// The plan's costs, or its first clash (docs/RULES.md). It takes no memory.
pub fn judge(case: &Case, plan: &Plan) -> Verdict
    requires { Fits case.now plan.now.choice }
    ensures value { result ≡ verdict_of case.now plan.now.choice }
    ensures feasible { IsTrue (is_cost result) ↔ IsFeasible case.now plan.now.choice }
{
    match find_clash(case, plan) {
        Some(clash) => Verdict::Conflict(clash),
        None => Verdict::Cost(costs(case, plan)),
    }
}
