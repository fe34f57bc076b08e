// The words of a line, each with a space or the newline behind it.
ghost use Rattle.diagram.specs.Text.{word};
ghost use Rattle.reports.specs.Text.{last_word};
ghost use Rattle.std.specs.Prelude.{◌≡◌, ◌++◌, OnOk};

use itoa::{Buffer, Integer};
use std::alloc::AllocError;

pub(crate) fn push_word(text: &[u8], into: &mut Vec<u8>) -> Result<(), AllocError>
    ensures { OnOk result (into.new.items ≡ into.old.items ++ word text.now) }
{
    into.extend_from_slice(text)?;
    into.push(b' ')?;
    Ok(())
}

pub(crate) fn push_number<I: Integer>(number: I, into: &mut Vec<u8>) -> Result<(), AllocError>
    ensures { OnOk result (into.new.items ≡ into.old.items ++ word (I.text number)) }
{
    let mut buffer = Buffer::new();
    push_word(buffer.format(number).as_bytes(), into)
}

/// The last word of a line, and its newline.
pub(crate) fn push_last<I: Integer>(number: I, into: &mut Vec<u8>) -> Result<(), AllocError>
    ensures { OnOk result (into.new.items ≡ into.old.items ++ last_word (I.text number)) }
{
    let mut buffer = Buffer::new();
    into.extend_from_slice(buffer.format(number).as_bytes())?;
    into.push(b'\n')?;
    Ok(())
}
