ghost use Rattle.reports.specs.Text.{conflict_text, way_word, why_words};
ghost use Rattle.std.specs.Prelude.{◌≡◌, ◌++◌, IfOk, OnOk};

use crate::names::train_name;
use crate::words::push_word;
use pair_prices::{Case, Why};
use plan_cost::Clash;
use station::PathWay;
use std::alloc::{AllocError, Global};

/// Two trains whose patterns are forbidden together, and why (docs/FORMATS.md).
#[tactic(auto, unfolding(crate::specs::Text::conflict_text))]
pub fn conflict_report(alloc: Global, case: &Case, clash: &Clash) -> Result<Vec<u8>, AllocError>
    ensures { IfOk result (λ text. text.items ≡ conflict_text case.now.station clash.now) }
{
    let station = case.station();
    let why = why_line(alloc, clash.why)?;
    let mut text = Vec::from_slice(alloc, b"Conflict ")?;
    push_word(train_name(station, clash.first), &mut text)?;
    push_word(train_name(station, clash.second), &mut text)?;
    text.extend_from_slice(&why)?;
    Ok(text)
}

fn why_line(alloc: Global, why: Why) -> Result<Vec<u8>, AllocError>
    ensures { IfOk result (λ text. text.items ≡ why_words why) }
{
    match why {
        Why::Platform => Vec::from_slice(alloc, b"platform\n"),
        Why::Paths(over) => {
            let first = way_word(over.first);
            let second = way_word(over.second);
            let minutes = over.minutes;
            Ok(format!(in alloc; "{first} {second} {minutes}\n")?.into_bytes())
        }
    }
}

fn way_word(way: PathWay) -> &'static str
    ensures { result.now ≡ way_word way }
{
    match way {
        PathWay::In => "in",
        PathWay::Out => "out",
    }
}
