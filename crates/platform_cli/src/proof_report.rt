// The lines on a proof: its bound, a plan beside it, or why it is refused.
ghost use Rattle.std.specs.Prelude.{◌≡◌, IfOk, pos};
ghost use Rattle.leaf_bounds.specs.declared.tree.Bound.TheVariants.{AtLeast};
ghost use Rattle.platform_cli.specs.Report.{accepted_text, checked_text, is_shown, kind_text, proof_refused_text, shown_line};

use leaf_bounds::Bound;
use proof_rules::{ProofKind, ProofRefused};
use std::alloc::{AllocError, Global};

/// The kind and the record of a refused proof.
#[tactic(auto, unfolding(crate::specs::Report::proof_refused_text))]
pub(crate) fn proof_refused_text(
    alloc: Global,
    refused: &ProofRefused,
) -> Result<Vec<u8>, AllocError>
    ensures { IfOk result (λ text. text.items ≡ proof_refused_text refused.now) }
{
    let kind = kind_text(refused.kind);
    let line = format!(in alloc; "Proof refused {kind} at {}\n", refused.at)?;
    Ok(line.into_bytes())
}

fn kind_text(kind: ProofKind) -> &'static str
    ensures { result.now ≡ kind_text kind }
{
    match kind {
        ProofKind::Shape => "1 Shape",
        ProofKind::Number => "2 Number",
        ProofKind::Place => "3 Place",
        ProofKind::Part => "4 Part",
        ProofKind::Pair => "5 Pair",
        ProofKind::Pattern => "6 Pattern",
        ProofKind::End => "7 End",
        ProofKind::Trail => "8 Trail",
        ProofKind::Cut => "9 Cut",
        ProofKind::Long => "10 Long",
        ProofKind::Sum => "11 Sum",
    }
}

/// A plan's cost as a bound.
pub(crate) fn bound_of_cost(cost: &i64) -> Bound
    ensures { result ≡ AtLeast cost.now }
{
    Bound::AtLeast(*cost as i128)
}

/// A number as a bound.
pub(crate) fn bound_of(number: &i128) -> Bound
    ensures { result ≡ AtLeast number.now }
{
    Bound::AtLeast(*number)
}

/// The bound of an accepted proof.
#[tactic(auto, unfolding(crate::specs::Report::accepted_text))]
pub(crate) fn accepted_text(alloc: Global, bound: &Bound) -> Result<Vec<u8>, AllocError>
    ensures { IfOk result (λ text. text.items ≡ accepted_text bound.now) }
{
    match bound {
        Bound::AtLeast(least) => {
            let line = format!(in alloc; "accepted bound {least}\n")?;
            Ok(line.into_bytes())
        }
        Bound::Nothing => Vec::from_slice(alloc, b"accepted no plan\n"),
    }
}

/// The bound of an accepted proof, a plan's cost beside it, and whether they are the same.
#[tactic(auto, unfolding(crate::specs::Report::checked_text))]
pub(crate) fn checked_text(alloc: Global, bound: &Bound, cost: u64) -> Result<Vec<u8>, AllocError>
    ensures { IfOk result (λ text. text.items ≡ checked_text bound.now cost) }
{
    let mut text = accepted_text(alloc, bound)?;
    let line = format!(in alloc; "cost {cost}\n")?.into_bytes();
    text.extend_from_slice(&line)?;
    text.extend_from_slice(shown_line(is_shown(bound, cost)))?;
    Ok(text)
}

fn is_shown(bound: &Bound, cost: u64) -> bool
    ensures { result ≡ is_shown bound.now cost }
{
    match bound {
        Bound::AtLeast(least) => *least == cost as i128,
        Bound::Nothing => false,
    }
}

fn shown_line(shown: bool) -> &'static [u8]
    ensures { result.now ≡ shown_line shown }
{
    if shown {
        b"shown optimal\n"
    } else {
        b"not shown optimal\n"
    }
}
