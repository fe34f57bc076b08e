// The usage text.
ghost use Rattle.std.specs.Prelude.{◌≡◌, IfOk};
ghost use Rattle.command_words.specs.Usage.{usage_text};

use crate::table::commands;
use plain_words::push_usage_line;
use std::alloc::{AllocError, Global};

/// The usage text: the line `Usage`, and then a line for each command that is built, as
/// `solve INSTANCE [--plan FILE]`, in the order of the table.
pub fn usage(alloc: Global) -> Result<Vec<u8>, AllocError>
    ensures { IfOk result (λ text. text.items ≡ usage_text) }
{
    let mut text = String::from_str(alloc, "Usage\n")?;
    for row in commands() {
        push_usage_line(&row.row, &mut text)?;
    }
    Ok(text.into_bytes())
}
