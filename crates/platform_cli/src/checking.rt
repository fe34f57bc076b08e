// `check`: a proof is checked, and a plan is judged beside its bound.
ghost use Rattle.std.specs.Prelude.{◌≡◌, ◌⊎◌, ◌<◌, List, ℕ, Some, IfOk, IsErrOf};
ghost use Rattle.std.specs.Option.{option_map};
ghost use Rattle.command_words.specs.Command.{check};
ghost use Rattle.shelf.specs.Outside.{Same};
ghost use Rattle.station.specs.Shown.{record_of};
ghost use Rattle.pair_prices.specs.Case.{IsCase, rule_case};
ghost use Rattle.pair_prices.specs.Plan.{Fits, cost};
ghost use Rattle.platform_cli.specs.Asked.{Reads};
ghost use Rattle.platform_cli.specs.Check.{IsBoundGiven, IsCheckedFile};
ghost use Rattle.platform_cli.specs.Given.{text_outcome};
ghost use Rattle.platform_cli.specs.Judge.{IsJudged, IsJudgedFile};
ghost use Rattle.platform_cli.specs.Outcome.{IsOutcome};
ghost use Rattle.platform_cli.specs.Report.{accepted_text, checked_text, proof_refused_text};
ghost use Rattle.platform_cli.specs.View.{check_view, outcome_of};

use crate::given_proof::{GivenProof, read_given_proof};
use crate::instance::{Instance, read_instance, refused_output};
use crate::judging::{conflict_output, plan_refused_output};
use crate::output::{Ending, Output, Stop};
use crate::plan_file::{GivenPlan, read_given_plan};
use crate::proof_report::{accepted_text, checked_text, proof_refused_text};
use command_words::Check;
use leaf_bounds::Bound;
use pair_prices::Case;
use plan_cost::{Plan, Verdict, judge};
use proof_file::texts_of_trees;
use proof_rules::{ProofRefused, accepted_exactly};
use shelf::Shelf;
use station::Station;
use std::alloc::{AllocError, Global};

/// Reads the instance, checks the proof, and judges the plan where one is named.
pub(crate) fn check<S: Shelf>(
    alloc: Global,
    shelf: &mut S,
    words: &Check<'_>,
) -> Result<Output, Stop>
    ensures outcome { IfOk result (λ output. IsOutcome S.tells (S.held shelf.old) (Some (check (check_view words.now))) (outcome_of output)) }
    ensures held { Same (S.held shelf.old) (S.held shelf.new) }
    ensures cause { IsErrOf result Stop.ReadFault → (name : List ℕ) × Reads S.tells (S.held shelf.old) (Some (check (check_view words.now))) name
        × (S.read_faults shelf.old name < S.read_faults shelf.new name) }
    ensures no_write { IsErrOf result Stop.WriteFault → ⊥ }
    ensures writes { Same (S.write_faults shelf.old) (S.write_faults shelf.new) }
{
    // Whoever wrote a proof that is accepted, every feasible plan keeps to its bound.
    accepted_exactly();
    texts_of_trees();
    match read_instance(alloc, shelf, words.instance)? {
        Instance::Taken(station) => check_file(alloc, shelf, words, station),
        Instance::Refused(refused) => Ok(refused_output(alloc, &refused)?),
    }
}

// Checks the proof.
fn check_file<S: Shelf>(
    alloc: Global,
    shelf: &mut S,
    words: &Check<'_>,
    station: Station,
) -> Result<Output, Stop>
    ensures outcome { IfOk result (λ output. IsCase (rule_case (record_of station)) × IsCheckedFile S.tells (S.held shelf.old) (check_view words.now) (rule_case (record_of station)) (outcome_of output)) }
    ensures held { Same (S.held shelf.old) (S.held shelf.new) }
    ensures cause { IsErrOf result Stop.ReadFault → (name : List ℕ) × ((check_view words.now).proof ≡ name ⊎ (check_view words.now).plan ≡ Some name) × (S.read_faults shelf.old name < S.read_faults shelf.new name) }
    ensures no_write { IsErrOf result Stop.WriteFault → ⊥ }
    ensures writes { Same (S.write_faults shelf.old) (S.write_faults shelf.new) }
{
    let case = Case::new(alloc, station)?;
    let _limits = case.station();
    match read_given_proof(alloc, shelf, words.proof, &case)? {
        GivenProof::Accepted(bound) => give_bound(alloc, shelf, words.plan, &case, &bound),
        GivenProof::Refused(refused) => Ok(refused_proof_output(alloc, &refused)?),
    }
}

/// The kind and the record of a refused proof.
pub(crate) fn refused_proof_output(
    alloc: Global,
    refused: &ProofRefused,
) -> Result<Output, AllocError>
    ensures { IfOk result (λ output. outcome_of output ≡ text_outcome 5 (proof_refused_text refused.now)) }
{
    let text = proof_refused_text(alloc, refused)?;
    Ok(Output::of_text(alloc, Ending::ProofRefused, text))
}

// Gives the bound, and reads and judges the plan where one is named.
fn give_bound<S: Shelf>(
    alloc: Global,
    shelf: &mut S,
    plan: Option<&str>,
    case: &Case,
    bound: &Bound,
) -> Result<Output, Stop>
    ensures outcome { IfOk result (λ output. IsBoundGiven S.tells (S.held shelf.old) (option_map (λ name. name.now) plan.entry) case.now bound.now (outcome_of output)) }
    ensures held { Same (S.held shelf.old) (S.held shelf.new) }
    ensures cause { IsErrOf result Stop.ReadFault → (name : List ℕ) × (option_map (λ n. n.now) plan.entry ≡ Some name)
        × (S.read_faults shelf.old name < S.read_faults shelf.new name) }
    ensures no_write { IsErrOf result Stop.WriteFault → ⊥ }
    ensures writes { Same (S.write_faults shelf.old) (S.write_faults shelf.new) }
{
    match plan {
        Some(name) => judge_beside(alloc, shelf, name, case, bound),
        None => {
            let text = accepted_text(alloc, bound)?;
            Ok(Output::of_text(alloc, Ending::Done, text))
        }
    }
}

fn judge_beside<S: Shelf>(
    alloc: Global,
    shelf: &mut S,
    name: &str,
    case: &Case,
    bound: &Bound,
) -> Result<Output, Stop>
    ensures outcome { IfOk result (λ output. IsJudgedFile S.tells (S.held shelf.old) name.now (λ plan. checked_text bound.now (cost case.now plan)) case.now (outcome_of output)) }
    ensures held { Same (S.held shelf.old) (S.held shelf.new) }
    ensures cause { IsErrOf result Stop.ReadFault → S.read_faults shelf.old name.now < S.read_faults shelf.new name.now }
    ensures no_write { IsErrOf result Stop.WriteFault → ⊥ }
    ensures writes { Same (S.write_faults shelf.old) (S.write_faults shelf.new) }
{
    match read_given_plan(alloc, shelf, name, case)? {
        GivenPlan::Taken(plan) => Ok(beside_output(alloc, case, &plan, bound)?),
        GivenPlan::Refused(refused) => Ok(plan_refused_output(alloc, &refused)?),
    }
}

fn beside_output(
    alloc: Global,
    case: &Case,
    plan: &Plan,
    bound: &Bound,
) -> Result<Output, AllocError>
    requires { Fits case.now plan.now.choice }
    ensures { IfOk result (λ output. IsJudged (λ p. checked_text bound.now (cost case.now p)) case.now plan.now.choice (outcome_of output)) }
{
    match judge(case, plan) {
        Verdict::Cost(costs) => {
            let text = checked_text(alloc, bound, costs.total.unsigned_abs())?;
            Ok(Output::of_text(alloc, Ending::Done, text))
        }
        Verdict::Conflict(clash) => conflict_output(alloc, case, &clash),
    }
}
