// `trial`: a station is made from a number and solved, and the proof of this run is checked.
ghost use Rattle.std.specs.Prelude.{◌≡◌, ◌≤◌, List, ℕ, IfOk, IsErrOf, Some, pos};
ghost use Rattle.branching.specs.Answer.{IsNoPlan, IsOpen, IsOptimal};
ghost use Rattle.branching.specs.RootLine.{IsTopOrMore, ReachesGreedy};
ghost use Rattle.leaf_bounds.specs.declared.tree.Bound.TheVariants.{AtLeast, Nothing};
ghost use Rattle.shared_trees.specs.Written.{IsShownBy};
ghost use Rattle.command_words.specs.View.{generated_view};
ghost use Rattle.branching.specs.Known.{IsKnown};
ghost use Rattle.pair_prices.specs.Case.{CaseRecord};
ghost use Rattle.pair_prices.specs.Plan.{IsFeasible, cost};
ghost use Rattle.platform_cli.specs.Given.{text_outcome};
ghost use Rattle.platform_cli.specs.Report.{trial_text};
ghost use Rattle.platform_cli.specs.Solve.{HasNoPlan, IsRootLine, IsUndecided};
ghost use Rattle.platform_cli.specs.Statuses.{ending_code};
ghost use Rattle.platform_cli.specs.Trial.{IsNoPlanTrial, IsOpenTrial, IsOptimalTrial, IsProvable, IsTrial, known_price, trial_case, trial_splits};
ghost use Rattle.platform_cli.specs.View.{known_plan, outcome_of};

use crate::checking::refused_proof_output;
use crate::given_proof::{GivenProof, check_text};
use crate::limits::TRIAL_LIMITS;
use crate::output::{Ending, Output, Stop};
use crate::proof_report::{bound_of, bound_of_cost};
use crate::report::{Summary, trial_text};
use branching::{Best, Found, Priced, Shown, Stopped};
use command_words::Generated;
use leaf_bounds::{Bound, Tree, bound_of_tree};
use pair_prices::Case;
use proof_rules::accepted_exactly;
use ratio::Width;
use shared_trees::written_proof;
use station_gen::make;
use std::alloc::Global;

/// How often a trial may split.
const TRIAL_SPLITS: u64 = 50;

/// Solves the station that the numbers make, checks the proof, and sums up.
pub(crate) fn trial_output(alloc: Global, words: &Generated) -> Result<Output, Stop>
    ensures outcome { IfOk result (λ output. IsTrial (trial_case (generated_view words.now)) words.now.trains (outcome_of output)) }
    ensures no_read { IsErrOf result Stop.ReadFault → ⊥ }
    ensures no_write { IsErrOf result Stop.WriteFault → ⊥ }
{
    let station = make(alloc, words.number, words.trains)?;
    let case = Case::new(alloc, station)?;
    tried(alloc, &case, words.trains)
}

fn tried(alloc: Global, case: &Case, trains: u8) -> Result<Output, Stop>
    ensures outcome { IfOk result (λ output. IsTrial case.now trains (outcome_of output)) }
    ensures no_read { IsErrOf result Stop.ReadFault → ⊥ }
    ensures no_write { IsErrOf result Stop.WriteFault → ⊥ }
{
    let mut width = Width::new();
    let found = branching::solve(alloc, case, TRIAL_SPLITS, &TRIAL_LIMITS, &mut width)?;
    match &found {
        Found::Optimal(best) => optimal_trial(alloc, case, trains, best),
        Found::NoPlan(shown) => no_plan_trial(alloc, case, trains, shown),
        Found::Open(stopped) => open_trial(alloc, case, trains, stopped),
    }
}

fn optimal_trial(alloc: Global, case: &Case, trains: u8, best: &Best) -> Result<Output, Stop>
    requires optimal { IsOptimal case.now trial_splits best.now }
    requires least { (plan : List ℕ) → IsFeasible case.now plan → cost case.now best.now.plan.choice ≤ cost case.now plan }
    requires root { IsRootLine case.now (AtLeast (pos (cost case.now best.now.plan.choice))) best.now.root }
    requires below_top { IsTopOrMore case.now best.now.root.value → ⊥ }
    ensures outcome { IfOk result (λ output. IsOptimalTrial case.now trains (outcome_of output)) }
    ensures no_read { IsErrOf result Stop.ReadFault → ⊥ }
    ensures no_write { IsErrOf result Stop.WriteFault → ⊥ }
{
    let _limits = case.station();
    let summary = Summary {
        trains,
        ending: Ending::Done,
        word: "Optimal",
        cost: least_cost(best),
        root: &best.root,
    };
    let bound = bound_of_cost(&best.cost);
    let output = summed_up(alloc, case, &best.tree, &bound, &summary)?;
    Ok(output)
}

fn no_plan_trial(alloc: Global, case: &Case, trains: u8, shown: &Shown) -> Result<Output, Stop>
    requires shown { IsNoPlan case.now trial_splits shown.now }
    requires none { HasNoPlan case.now }
    requires root { IsRootLine case.now Nothing shown.now.root }
    requires unreached { ReachesGreedy case.now shown.now.root.value → ⊥ }
    ensures outcome { IfOk result (λ output. IsNoPlanTrial case.now trains (outcome_of output)) }
    ensures no_read { IsErrOf result Stop.ReadFault → ⊥ }
    ensures no_write { IsErrOf result Stop.WriteFault → ⊥ }
{
    let _limits = case.station();
    let summary = Summary {
        trains,
        ending: Ending::NoPlan,
        word: "NoPlan",
        cost: None,
        root: &shown.root,
    };
    let output = summed_up(alloc, case, &shown.tree, &Bound::Nothing, &summary)?;
    Ok(output)
}

fn open_trial(alloc: Global, case: &Case, trains: u8, stopped: &Stopped) -> Result<Output, Stop>
    requires answer { IsOpen case.now trial_splits stopped.now }
    requires root { IsRootLine case.now (AtLeast stopped.now.bound) stopped.now.root }
    requires undecided { IsUndecided case.now stopped.now.root }
    ensures outcome { IfOk result (λ output. IsOpenTrial case.now trains (outcome_of output)) }
    ensures no_read { IsErrOf result Stop.ReadFault → ⊥ }
    ensures no_write { IsErrOf result Stop.WriteFault → ⊥ }
{
    let _limits = case.station();
    bound_of_tree();
    let summary = Summary {
        trains,
        ending: Ending::Open,
        word: "Open",
        cost: known_cost(&stopped.plan),
        root: &stopped.root,
    };
    let bound = bound_of(&stopped.bound);
    let output = summed_up(alloc, case, &stopped.tree, &bound, &summary)?;
    Ok(output)
}

fn least_cost(best: &Best) -> Option<i64>
    ensures { result ≡ Some best.now.cost }
{
    Some(best.cost)
}

fn known_cost(plan: &Option<Priced>) -> Option<i64>
    ensures { (c : CaseRecord) → IsKnown c plan.now → result ≡ known_price c (known_plan plan.now) }
{
    match plan {
        Some(priced) => Some(priced.cost),
        None => None,
    }
}

// The summary with the bound that the checker finds in the tree's text.
fn summed_up(
    alloc: Global,
    case: &Case,
    tree: &Tree,
    bound: &Bound,
    summary: &Summary<'_>,
) -> Result<Output, Stop>
    requires shown { IsShownBy case.now tree.now.nodes bound.now }
    ensures provable { IfOk result (λ output. IsProvable case.now bound.now) }
    ensures told { IfOk result (λ output. outcome_of output ≡ text_outcome (ending_code summary.now.ending)
        (trial_text summary.now.trains summary.now.word.now summary.now.cost bound.now summary.now.root.now)) }
    ensures no_read { IsErrOf result Stop.ReadFault → ⊥ }
    ensures no_write { IsErrOf result Stop.WriteFault → ⊥ }
{
    // The text of a tree that stands is accepted with its bound.
    accepted_exactly();
    let _limits = case.station();
    let text = written_proof(alloc, case, tree, bound)?;
    match check_text(alloc, case, &text)? {
        GivenProof::Accepted(found) => {
            let text = trial_text(alloc, summary, &found)?;
            Ok(Output::of_text(alloc, summary.ending, text))
        }
        GivenProof::Refused(refused) => Ok(refused_proof_output(alloc, &refused)?),
    }
}
