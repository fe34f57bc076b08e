// The texts that runs put.
ghost use Rattle.std.specs.Prelude.{◌≡◌, IfOk, pos};
ghost use Rattle.pair_prices.specs.Plan.{IsFeasible, cost};
ghost use Rattle.platform_cli.specs.Report.{bound_line, bound_text, cause_text, known_cost, known_timetable, line, price_line, trial_text, root_text, spent_lines, standing_text, open_text, optimal_text, no_plan_text, refused_line, refused_text, class_text};
ghost use Rattle.platform_cli.specs.View.{known_plan};
ghost use Rattle.branching.specs.Known.{IsKnown};
ghost use Rattle.pair_prices.specs.Case.{CaseRecord};

use crate::output::Ending;
use branching::{Priced, Root, Stopped};
use diagram::timetable;
use leaf_bounds::Bound;
use master_lp::WeakCause;
use pair_prices::Case;
use plan_cost::Plan;
use station_reader::{Refused, RefusedKind};
use std::alloc::{AllocError, Global};

/// The plan of least cost: its cost, the root line, and a line for each train.
pub(crate) fn optimal_text(
    alloc: Global,
    case: &Case,
    plan: &Plan,
    price: i64,
    root: &Root,
) -> Result<Vec<u8>, AllocError>
    requires feasible { IsFeasible case.now plan.now.choice }
    requires cost { price ≡ pos (cost case.now plan.now.choice) }
    ensures { IfOk result (λ text. text.items ≡ optimal_text case.now plan.now.choice root.now) }
{
    let heading = format!(in alloc; "Optimal\ncost {price}\n")?;
    let mut text = heading.into_bytes();
    text.extend_from_slice(&root_text(alloc, root)?)?;
    text.extend_from_slice(&timetable(alloc, case, plan)?)?;
    Ok(text)
}

/// The root line.
#[tactic(auto, unfolding(crate::specs::Report::root_text))]
pub(crate) fn root_text(alloc: Global, root: &Root) -> Result<Vec<u8>, AllocError>
    ensures { IfOk result (λ text. text.items ≡ root_text root.now) }
{
    let num = root.value.num;
    let den = root.value.den;
    let mut text = format!(in alloc; "root {num}/{den} ")?.into_bytes();
    text.extend_from_slice(&standing_text(alloc, &root.weak)?)?;
    text.push(b'\n')?;
    Ok(text)
}

fn standing_text(alloc: Global, weak: &Option<WeakCause>) -> Result<Vec<u8>, AllocError>
    ensures { IfOk result (λ text. text.items ≡ standing_text weak.now) }
{
    match weak {
        None => Vec::from_slice(alloc, b"exact"),
        Some(cause) => {
            let word = cause_text(cause);
            let text = format!(in alloc; "weak {word}")?;
            Ok(text.into_bytes())
        }
    }
}

fn cause_text(cause: &WeakCause) -> &'static str
    ensures { result.now ≡ cause_text cause.now }
{
    match cause {
        WeakCause::Left => "left",
        WeakCause::Pivots(_) => "pivots",
        WeakCause::Rounds(_) => "rounds",
        WeakCause::Cells(_) => "cells",
        WeakCause::Scale(_) => "scale",
    }
}

/// The root line, and what it says of the cost of plans.
#[tactic(auto, unfolding(crate::specs::Report::bound_text))]
pub(crate) fn bound_text(alloc: Global, case: &Case, root: &Root) -> Result<Vec<u8>, AllocError>
    ensures { IfOk result (λ text. text.items ≡ bound_text case.now root.now) }
{
    let mut text = root_text(alloc, root)?;
    text.extend_from_slice(&bound_line(alloc, &root.bound(case))?)?;
    Ok(text)
}

fn bound_line(alloc: Global, bound: &Bound) -> Result<Vec<u8>, AllocError>
    ensures { IfOk result (λ text. text.items ≡ bound_line bound.now) }
{
    match bound {
        Bound::AtLeast(number) => {
            let number = *number;
            let text = format!(in alloc; "bound {number}\n")?;
            Ok(text.into_bytes())
        }
        Bound::Nothing => Vec::from_slice(alloc, b"bound none\n"),
    }
}

/// What a trial says of its search.
#[derive(Drop)]
pub(crate) struct Summary<'a> {
    pub(crate) trains: u8,
    pub(crate) ending: Ending,
    /// How the search ended, in a word.
    pub(crate) word: &'a str,
    pub(crate) cost: Option<i64>,
    pub(crate) root: &'a Root,
}

/// The summary of a trial whose proof is accepted with this bound.
#[tactic(auto, unfolding(crate::specs::Report::trial_text))]
pub(crate) fn trial_text(
    alloc: Global,
    summary: &Summary<'_>,
    bound: &Bound,
) -> Result<Vec<u8>, AllocError>
    ensures { IfOk result (λ text. text.items ≡ trial_text summary.now.trains summary.now.word.now summary.now.cost bound.now summary.now.root.now) }
{
    let trains = summary.trains;
    let word = summary.word;
    let mut text = format!(in alloc; "trains {trains}\n{word}\n")?.into_bytes();
    text.extend_from_slice(&price_line(alloc, summary.cost)?)?;
    text.extend_from_slice(&bound_line(alloc, bound)?)?;
    text.extend_from_slice(&root_text(alloc, summary.root)?)?;
    text.extend_from_slice(b"proof accepted\n")?;
    Ok(text)
}

fn price_line(alloc: Global, cost: Option<i64>) -> Result<Vec<u8>, AllocError>
    ensures { IfOk result (λ text. text.items ≡ price_line cost) }
{
    match cost {
        Some(price) => {
            let text = format!(in alloc; "cost {price}\n")?;
            Ok(text.into_bytes())
        }
        None => Vec::from_slice(alloc, b"cost none\n"),
    }
}

/// Where the splits are spent: the cost of the plan that is known, the bound, the splits, the root line, and a line for each train.
pub(crate) fn open_text(
    alloc: Global,
    case: &Case,
    stopped: &Stopped,
    splits: u64,
) -> Result<Vec<u8>, AllocError>
    requires { IsKnown case.now stopped.now.plan }
    ensures { IfOk result (λ text. text.items ≡ open_text case.now (known_plan stopped.now.plan) stopped.now.bound splits stopped.now.root) }
{
    let mut text = Vec::from_slice(alloc, b"Open\n")?;
    text.extend_from_slice(&known_cost_line(alloc, &stopped.plan)?)?;
    text.extend_from_slice(&spent_lines(alloc, stopped.bound, splits)?)?;
    text.extend_from_slice(&root_text(alloc, &stopped.root)?)?;
    text.extend_from_slice(&known_timetable(alloc, case, &stopped.plan)?)?;
    Ok(text)
}

fn known_cost_line(alloc: Global, plan: &Option<Priced>) -> Result<Vec<u8>, AllocError>
    ensures { (c : CaseRecord) → IsKnown c plan.now → IfOk result (λ text. text.items ≡ line (known_cost c (known_plan plan.now))) }
{
    match plan {
        Some(priced) => {
            let price = priced.cost;
            let text = format!(in alloc; "cost {price}\n")?;
            Ok(text.into_bytes())
        }
        None => Vec::from_slice(alloc, b"cost none\n"),
    }
}

#[tactic(auto, unfolding(crate::specs::Report::spent_lines))]
fn spent_lines(alloc: Global, bound: i128, splits: u64) -> Result<Vec<u8>, AllocError>
    ensures { IfOk result (λ text. text.items ≡ spent_lines bound splits) }
{
    let text = format!(in alloc; "bound {bound}\nsplits {splits}\n")?;
    Ok(text.into_bytes())
}

fn known_timetable(alloc: Global, case: &Case, plan: &Option<Priced>) -> Result<Vec<u8>, AllocError>
    requires { IsKnown case.now plan.now }
    ensures { IfOk result (λ text. text.items ≡ known_timetable case.now (known_plan plan.now)) }
{
    match plan {
        Some(priced) => timetable(alloc, case, &priced.plan),
        None => Ok(Vec::new(alloc)),
    }
}

pub(crate) fn no_plan_text(alloc: Global, root: &Root) -> Result<Vec<u8>, AllocError>
    ensures { IfOk result (λ text. text.items ≡ no_plan_text root.now) }
{
    let mut text = Vec::from_slice(alloc, b"NoPlan\n")?;
    text.extend_from_slice(&root_text(alloc, root)?)?;
    Ok(text)
}

/// The class and the place of a refused instance.
pub(crate) fn refused_text(alloc: Global, refused: &Refused) -> Result<Vec<u8>, AllocError>
    ensures { IfOk result (λ text. text.items ≡ refused_text refused.now.kind refused.now.place) }
{
    refused_line(alloc, class_text(refused.kind), refused.place.bytes())
}

fn refused_line(alloc: Global, class: &str, place: &[u8]) -> Result<Vec<u8>, AllocError>
    ensures { IfOk result (λ text. text.items ≡ refused_line class.now place.now) }
{
    let mut text = format!(in alloc; "Instance refused {class} at ")?.into_bytes();
    text.extend_from_slice(place)?;
    text.push(b'\n')?;
    Ok(text)
}

fn class_text(kind: RefusedKind) -> &'static str
    ensures { result.now ≡ class_text kind }
{
    match kind {
        RefusedKind::Long => "0 Long",
        RefusedKind::NotJson => "1 NotJson",
        RefusedKind::Version => "2 Version",
        RefusedKind::Shape => "3 Shape",
        RefusedKind::Count => "4 Count",
        RefusedKind::Name => "5 Name",
        RefusedKind::Double => "6 Double",
        RefusedKind::Unknown => "7 Unknown",
        RefusedKind::Range => "8 Range",
        RefusedKind::Patterns => "9 Patterns",
    }
}
