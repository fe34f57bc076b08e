ghost use Rattle.pair_prices.specs.Plan.{IsFeasible};
ghost use Rattle.plan_cost.specs.Verdict.{costs_of};
ghost use Rattle.reports.specs.Text.{amount_line, cost_text};
ghost use Rattle.std.specs.Prelude.{◌≡◌, ◌++◌, IfOk, OnOk};

use crate::words::{push_last, push_word};
use diagram::timetable;
use pair_prices::Case;
use plan_cost::{Costs, Plan};
use std::alloc::{AllocError, Global};

/// What a feasible plan costs, and the lines of its trains (docs/FORMATS.md).
pub fn cost_report(
    alloc: Global,
    case: &Case,
    plan: &Plan,
    costs: &Costs,
) -> Result<Vec<u8>, AllocError>
    requires feasible { IsFeasible case.now plan.now.choice }
    requires own { costs.now ≡ costs_of case.now plan.now.choice }
    ensures { IfOk result (λ text. text.items ≡ cost_text case.now plan.now.choice) }
{
    let trains = timetable(alloc, case, plan)?;
    let mut text = Vec::new(alloc);
    push_amount("cost", &costs.total, &mut text)?;
    push_amount("platforms", &costs.platforms, &mut text)?;
    push_amount("patterns", &costs.patterns, &mut text)?;
    push_amount("pairs", &costs.pairs, &mut text)?;
    text.extend_from_slice(&trains)?;
    Ok(text)
}

fn push_amount(name: &str, amount: &i64, into: &mut Vec<u8>) -> Result<(), AllocError>
    ensures { OnOk result (into.new.items ≡ into.old.items ++ amount_line name.now amount.now) }
{
    push_word(name.as_bytes(), into)?;
    push_last(*amount, into)?;
    Ok(())
}
