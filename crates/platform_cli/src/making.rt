// `make`: a station that is made from a number.
ghost use Rattle.std.specs.Prelude.{◌≡◌, IfOk};
ghost use Rattle.platform_cli.specs.Given.{text_outcome};
ghost use Rattle.platform_cli.specs.Report.{made_text};
ghost use Rattle.platform_cli.specs.View.{outcome_of};

use crate::output::{Ending, Output};
use command_words::Generated;
use station_gen::{make, to_json};
use std::alloc::{AllocError, Global};

/// The text of the station that the number makes.
pub(crate) fn made_output(alloc: Global, words: &Generated) -> Result<Output, AllocError>
    ensures { IfOk result (λ output. outcome_of output ≡ text_outcome 0 (made_text words.now.number words.now.trains)) }
{
    let text = made_text(alloc, words)?;
    Ok(Output::of_text(alloc, Ending::Done, text))
}

#[tactic(auto, unfolding(crate::specs::Report::made_text))]
fn made_text(alloc: Global, words: &Generated) -> Result<Vec<u8>, AllocError>
    ensures { IfOk result (λ text. text.items ≡ made_text words.now.number words.now.trains) }
{
    let station = make(alloc, words.number, words.trains)?;
    let mut text = to_json(alloc, &station)?;
    text.push(b'\n')?;
    Ok(text)
}
