// `cost`, `platforms` and `paths`: a plan is judged, and reported where it is feasible.
ghost use Rattle.std.specs.Prelude.{◌≡◌, ◌⊎◌, ◌<◌, List, ℕ, None, Some, Ok, IfOk, IsErrOf, Option};
ghost use Rattle.command_words.specs.Command.{CommandView};
ghost use Rattle.shelf.specs.Outside.{Same};
ghost use Rattle.station.specs.Shown.{record_of};
ghost use Rattle.pair_prices.specs.Case.{rule_case};
ghost use Rattle.pair_prices.specs.Plan.{Fits, IsFeasible};
ghost use Rattle.plan_cost.specs.Verdict.{costs_of};
ghost use Rattle.platform_cli.specs.Asked.{Reads, bad_window, requested};
ghost use Rattle.platform_cli.specs.Judge.{IsJudged, IsJudgedFile};
ghost use Rattle.platform_cli.specs.Outcome.{IsOutcome};
ghost use Rattle.platform_cli.specs.Given.{text_outcome};
ghost use Rattle.platform_cli.specs.Report.{report_text};
ghost use Rattle.reports.specs.Text.{conflict_text, plan_refused_text};
ghost use Rattle.platform_cli.specs.View.{asked_view, outcome_of};

use crate::asked::{Asked, Report, bad_window};
use crate::instance::{Instance, read_instance, refused_output};
use crate::output::{Ending, Output, Stop};
use crate::plan_file::{GivenPlan, read_given_plan};
use diagram::{ChartFault, path_chart, platform_chart};
use pair_prices::Case;
use plan_cost::{Clash, Costs, Plan, PlanRefused, Verdict, judge};
use reports::{conflict_report, cost_report, plan_refused_report, window_report};
use shelf::Shelf;
use station::Station;
use std::alloc::{AllocError, Global};

/// Tests a chart's minutes, reads the instance and the plan, and reports what is asked for.
pub(crate) fn report_on_plan<S: Shelf>(
    alloc: Global,
    shelf: &mut S,
    asked: &Asked<'_>,
) -> Result<Output, Stop>
    ensures outcome { (command : Option CommandView) → requested command ≡ Some (asked_view asked.now)
        → IfOk result (λ output. IsOutcome S.tells (S.held shelf.old) command (outcome_of output)) }
    ensures held { Same (S.held shelf.old) (S.held shelf.new) }
    ensures cause { (command : Option CommandView) → requested command ≡ Some (asked_view asked.now)
        → IsErrOf result Stop.ReadFault → (name : List ℕ) × Reads S.tells (S.held shelf.old) command name × (S.read_faults shelf.old name < S.read_faults shelf.new name) }
    ensures no_write { IsErrOf result Stop.WriteFault → ⊥ }
    ensures writes { Same (S.write_faults shelf.old) (S.write_faults shelf.new) }
{
    if let Some(window) = bad_window(&asked.report) {
        let text = window_report(alloc, window.from, window.to)?;
        return Ok(Output::of_text(alloc, Ending::Window, text));
    }
    match read_instance(alloc, shelf, asked.instance)? {
        Instance::Taken(station) => judge_file(alloc, shelf, asked, station),
        Instance::Refused(refused) => Ok(refused_output(alloc, &refused)?),
    }
}

// Reads the plan, and judges it.
fn judge_file<S: Shelf>(
    alloc: Global,
    shelf: &mut S,
    asked: &Asked<'_>,
    station: Station,
) -> Result<Output, Stop>
    requires { bad_window asked.now.report ≡ None }
    ensures outcome { IfOk result (λ output. IsJudgedFile S.tells (S.held shelf.old) asked.now.plan.now (report_text asked.now.report (rule_case (record_of station))) (rule_case (record_of station)) (outcome_of output)) }
    ensures held { Same (S.held shelf.old) (S.held shelf.new) }
    ensures cause { IsErrOf result Stop.ReadFault → S.read_faults shelf.old asked.now.plan.now < S.read_faults shelf.new asked.now.plan.now }
    ensures no_write { IsErrOf result Stop.WriteFault → ⊥ }
    ensures writes { Same (S.write_faults shelf.old) (S.write_faults shelf.new) }
{
    let case = Case::new(alloc, station)?;
    match read_given_plan(alloc, shelf, asked.plan, &case)? {
        GivenPlan::Taken(plan) => Ok(judged_output(alloc, &case, &plan, &asked.report)?),
        GivenPlan::Refused(refused) => Ok(plan_refused_output(alloc, &refused)?),
    }
}

fn judged_output(
    alloc: Global,
    case: &Case,
    plan: &Plan,
    report: &Report,
) -> Result<Output, AllocError>
    requires fits { Fits case.now plan.now.choice }
    requires drawn { bad_window report.now ≡ None }
    ensures { IfOk result (λ output. IsJudged (report_text report.now case.now) case.now plan.now.choice (outcome_of output)) }
{
    match judge(case, plan) {
        Verdict::Cost(costs) => {
            let text = feasible_text(alloc, case, plan, &costs, report)?;
            Ok(Output::of_text(alloc, Ending::Done, text))
        }
        Verdict::Conflict(clash) => conflict_output(alloc, case, &clash),
    }
}

pub(crate) fn plan_refused_output(
    alloc: Global,
    refused: &PlanRefused,
) -> Result<Output, AllocError>
    ensures { IfOk result (λ output. outcome_of output ≡ text_outcome 4 (plan_refused_text refused.now)) }
{
    let text = plan_refused_report(alloc, refused)?;
    Ok(Output::of_text(alloc, Ending::PlanRefused, text))
}

pub(crate) fn conflict_output(
    alloc: Global,
    case: &Case,
    clash: &Clash,
) -> Result<Output, AllocError>
    ensures { IfOk result (λ output. outcome_of output ≡ text_outcome 9 (conflict_text case.now.station clash.now)) }
{
    let text = conflict_report(alloc, case, clash)?;
    Ok(Output::of_text(alloc, Ending::Conflict, text))
}

fn feasible_text(
    alloc: Global,
    case: &Case,
    plan: &Plan,
    costs: &Costs,
    report: &Report,
) -> Result<Vec<u8>, AllocError>
    requires feasible { IsFeasible case.now plan.now.choice }
    requires own { costs.now ≡ costs_of case.now plan.now.choice }
    requires drawn { bad_window report.now ≡ None }
    ensures { IfOk result (λ text. text.items ≡ report_text report.now case.now plan.now.choice) }
{
    match report {
        Report::Cost => cost_report(alloc, case, plan, costs),
        Report::Platforms(window) => {
            drawn(platform_chart(alloc, case, plan, window.from, window.to))
        }
        Report::Paths(window) => drawn(path_chart(alloc, case, plan, window.from, window.to)),
    }
}

// The minutes were tested before any file was read.
fn drawn(chart: Result<Vec<u8>, ChartFault>) -> Result<Vec<u8>, AllocError>
    requires { IsErrOf chart ChartFault.Window → ⊥ }
    ensures { IfOk result (λ text. chart ≡ Ok text) }
{
    match chart {
        Ok(text) => Ok(text),
        Err(ChartFault::Memory) => Err(AllocError),
        Err(ChartFault::Window) => unreachable!(),
    }
}
