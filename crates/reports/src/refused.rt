ghost use Rattle.reports.specs.Text.{kind_number, kind_word, plan_refused_text, window_text};
ghost use Rattle.std.specs.Prelude.{◌≡◌, IfOk};

use crate::words::{push_last, push_number, push_word};
use plan_cost::{PlanKind, PlanRefused};
use std::alloc::{AllocError, Global};

/// The record of a plan file that is refused, and why (docs/FORMATS.md).
#[tactic(auto, unfolding(crate::specs::Text::plan_refused_text))]
pub fn plan_refused_report(alloc: Global, refused: &PlanRefused) -> Result<Vec<u8>, AllocError>
    ensures { IfOk result (λ text. text.items ≡ plan_refused_text refused.now) }
{
    let mut text = Vec::new(alloc);
    push_word(b"Plan refused", &mut text)?;
    push_number(kind_number(refused.kind), &mut text)?;
    push_word(kind_word(refused.kind).as_bytes(), &mut text)?;
    push_word(b"at", &mut text)?;
    push_last(refused.at, &mut text)?;
    Ok(text)
}

fn kind_number(kind: PlanKind) -> u8
    ensures { result ≡ kind_number kind }
{
    kind as u8
}

fn kind_word(kind: PlanKind) -> &'static str
    ensures { result.now ≡ kind_word kind }
{
    match kind {
        PlanKind::Record => "Record",
        PlanKind::Train => "Train",
        PlanKind::Choice => "Choice",
        PlanKind::Short => "Short",
        PlanKind::Trail => "Trail",
    }
}

/// A window that isn't 1 to 1,440 minutes long (docs/FORMATS.md).
#[tactic(auto, unfolding(crate::specs::Text::window_text))]
pub fn window_report(alloc: Global, from: u32, to: u32) -> Result<Vec<u8>, AllocError>
    ensures { IfOk result (λ text. text.items ≡ window_text from to) }
{
    Ok(format!(in alloc; "Window {from} {to}\n")?.into_bytes())
}
