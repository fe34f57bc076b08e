// `solve`: a search for a feasible plan of least cost.
ghost use Rattle.std.specs.Prelude.{◌≡◌, ◌<◌, ◌≤◌, ◌++◌, List, ℕ, Some, IfOk, OnOk, IsErrOf, map, pos};
ghost use Rattle.std.specs.Option.{option_map};
ghost use Rattle.branching.specs.Answer.{IsNoPlan, IsOpen, IsOptimal};
ghost use Rattle.branching.specs.Known.{IsKnown};
ghost use Rattle.branching.specs.RootLine.{IsTopOrMore, ReachesGreedy};
ghost use Rattle.leaf_bounds.specs.declared.tree.Bound.TheVariants.{AtLeast, Nothing};
ghost use Rattle.command_words.specs.Command.{solve};
ghost use Rattle.leaf_bounds.specs.Shown.{IsTreeOf};
ghost use Rattle.leaf_bounds.specs.Tree.{SplitTree};
ghost use Rattle.leaf_bounds.specs.declared.leaf.Leaf.{Leaf as LeafOf};
ghost use Rattle.shared_trees.specs.Written.{IsShownBy};
ghost use Rattle.shelf.specs.Outside.{Same};
ghost use Rattle.station.specs.Shown.{record_of};
ghost use Rattle.pair_prices.specs.Case.{rule_case};
ghost use Rattle.pair_prices.specs.Plan.{Fits, IsFeasible, cost};
ghost use Rattle.platform_cli.specs.Given.{NewFile};
ghost use Rattle.platform_cli.specs.Outcome.{IsOutcome};
ghost use Rattle.platform_cli.specs.Solve.{HasNoPlan, IsNoPlanFor, IsOpenFor, IsOptimalFor, IsProofFile, IsRootLine, IsSolved, IsUndecided, known_files, plan_files};
ghost use Rattle.platform_cli.specs.View.{file_of, known_plan, outcome_of, solve_view};

use crate::instance::{Instance, read_instance, refused_output};
use crate::limits::SEARCH_LIMITS;
use crate::output::{Ending, Output, OutputFile, Stop};
use crate::proof_report::{bound_of, bound_of_cost};
use crate::report::{no_plan_text, open_text, optimal_text};
use branching::{Best, Found, Priced, Shown, Stopped};
use command_words::Solve;
use leaf_bounds::{Bound, Tree, bound_of_tree};
use pair_prices::Case;
use plan_cost::{Plan, write_plan};
use ratio::Width;
use shared_trees::written_proof;
use shelf::Shelf;
use station::Station;
use std::alloc::{AllocError, Global};

/// Reads the instance, and searches for its plan of least cost.
pub(crate) fn solve<S: Shelf>(
    alloc: Global,
    shelf: &mut S,
    words: &Solve<'_>,
) -> Result<Output, Stop>
    ensures outcome { IfOk result (λ output. IsOutcome S.tells (S.held shelf.old) (Some (solve (solve_view words.now))) (outcome_of output)) }
    ensures held { Same (S.held shelf.old) (S.held shelf.new) }
    ensures cause { IsErrOf result Stop.ReadFault → S.read_faults shelf.old words.now.instance.now < S.read_faults shelf.new words.now.instance.now }
    ensures no_write { IsErrOf result Stop.WriteFault → ⊥ }
    ensures writes { Same (S.write_faults shelf.old) (S.write_faults shelf.new) }
{
    match read_instance(alloc, shelf, words.instance)? {
        Instance::Taken(station) => Ok(solved(alloc, station, words)?),
        Instance::Refused(refused) => Ok(refused_output(alloc, &refused)?),
    }
}

fn solved(alloc: Global, station: Station, words: &Solve<'_>) -> Result<Output, AllocError>
    ensures { IfOk result (λ output. IsSolved (rule_case (record_of station)) (solve_view words.now) (outcome_of output)) }
{
    let case = Case::new(alloc, station)?;
    let mut width = Width::new();
    let found = branching::solve(alloc, &case, words.splits, &SEARCH_LIMITS, &mut width)?;
    match &found {
        Found::Optimal(best) => optimal_output(alloc, &case, words, best),
        Found::NoPlan(shown) => no_plan_output(alloc, &case, words, shown),
        Found::Open(stopped) => open_output(alloc, &case, words, stopped),
    }
}

fn optimal_output(
    alloc: Global,
    case: &Case,
    words: &Solve<'_>,
    best: &Best,
) -> Result<Output, AllocError>
    requires optimal { IsOptimal case.now words.now.splits best.now }
    requires least { (plan : List ℕ) → IsFeasible case.now plan → cost case.now best.now.plan.choice ≤ cost case.now plan }
    requires root { IsRootLine case.now (AtLeast (pos (cost case.now best.now.plan.choice))) best.now.root }
    requires below_top { IsTopOrMore case.now best.now.root.value → ⊥ }
    ensures { IfOk result (λ output. IsOptimalFor case.now (solve_view words.now) (outcome_of output)) }
{
    let _limits = case.station();
    let text = optimal_text(alloc, case, &best.plan, best.cost, &best.root)?;
    let mut files = Vec::new(alloc);
    push_plan(alloc, case, &best.plan, words.plan, &mut files)?;
    let bound = bound_of_cost(&best.cost);
    push_proof(alloc, case, &best.tree, &bound, words.proof, &mut files)?;
    Ok(Output {
        ending: Ending::Done,
        text,
        files,
    })
}

fn no_plan_output(
    alloc: Global,
    case: &Case,
    words: &Solve<'_>,
    shown: &Shown,
) -> Result<Output, AllocError>
    requires shown { IsNoPlan case.now words.now.splits shown.now }
    requires none { HasNoPlan case.now }
    requires root { IsRootLine case.now Nothing shown.now.root }
    requires unreached { ReachesGreedy case.now shown.now.root.value → ⊥ }
    ensures { IfOk result (λ output. IsNoPlanFor case.now (solve_view words.now) (outcome_of output)) }
{
    let _limits = case.station();
    let text = no_plan_text(alloc, &shown.root)?;
    let mut files = Vec::new(alloc);
    push_proof(
        alloc,
        case,
        &shown.tree,
        &Bound::Nothing,
        words.proof,
        &mut files,
    )?;
    Ok(Output {
        ending: Ending::NoPlan,
        text,
        files,
    })
}

fn open_output(
    alloc: Global,
    case: &Case,
    words: &Solve<'_>,
    stopped: &Stopped,
) -> Result<Output, AllocError>
    requires answer { IsOpen case.now words.now.splits stopped.now }
    requires root { IsRootLine case.now (AtLeast stopped.now.bound) stopped.now.root }
    requires undecided { IsUndecided case.now stopped.now.root }
    ensures { IfOk result (λ output. IsOpenFor case.now (solve_view words.now) (outcome_of output)) }
{
    let _limits = case.station();
    bound_of_tree();
    let text = open_text(alloc, case, stopped, words.splits)?;
    let mut files = Vec::new(alloc);
    push_known(alloc, case, &stopped.plan, words.plan, &mut files)?;
    let bound = bound_of(&stopped.bound);
    push_proof(alloc, case, &stopped.tree, &bound, words.proof, &mut files)?;
    Ok(Output {
        ending: Ending::Open,
        text,
        files,
    })
}

// Adds the text of the plan that is known.
fn push_known(
    alloc: Global,
    case: &Case,
    known: &Option<Priced>,
    file: Option<&str>,
    files: &mut Vec<OutputFile>,
) -> Result<(), AllocError>
    requires { IsKnown case.now known.now }
    ensures { OnOk result (map file_of files.new.items ≡ map file_of files.old.items ++ known_files (option_map (λ name. name.now) file.entry) (known_plan known.now)) }
{
    match known {
        Some(priced) => push_plan(alloc, case, &priced.plan, file, files),
        None => Ok(()),
    }
}

// Adds the plan's text under the name that is asked for.
fn push_plan(
    alloc: Global,
    case: &Case,
    plan: &Plan,
    file: Option<&str>,
    files: &mut Vec<OutputFile>,
) -> Result<(), AllocError>
    requires { Fits case.now plan.now.choice }
    ensures { OnOk result (map file_of files.new.items ≡ map file_of files.old.items ++ plan_files (option_map (λ name. name.now) file.entry) plan.now.choice) }
{
    // A plan that fits can be written.
    let _fits = plan.fits(case);
    if let Some(name) = file {
        files.push(OutputFile {
            name: String::from_str(alloc, name)?,
            bytes: write_plan(alloc, plan)?,
        })?;
    }
    Ok(())
}

// Adds the proof under the name that is asked for.
fn push_proof(
    alloc: Global,
    case: &Case,
    tree: &Tree,
    bound: &Bound,
    file: Option<&str>,
    files: &mut Vec<OutputFile>,
) -> Result<(), AllocError>
    requires { IsShownBy case.now tree.now.nodes bound.now }
    ensures { (shown : SplitTree LeafOf) → IsTreeOf tree.now.nodes shown → OnOk result ((proofs : List NewFile)
        × IsProofFile case.now bound.now shown (option_map (λ name. name.now) file.entry) proofs
        × (map file_of files.new.items ≡ map file_of files.old.items ++ proofs)) }
{
    if let Some(name) = file {
        files.push(OutputFile {
            name: String::from_str(alloc, name)?,
            bytes: written_proof(alloc, case, tree, bound)?,
        })?;
    }
    Ok(())
}
