// Plain words read with `clap`.
ghost use Rattle.std.specs.Prelude.{◌≡◌, ◌++◌, ℕ, List, [], true, Some, IfOk, map, drop, slice_get, string_bytes};
ghost use Rattle.clap.specs.Words.{app_of, first_value, found_of};
ghost use Rattle.plain_words.specs.Form.{Text, is_readable, option_names};
ghost use Rattle.plain_words.specs.Rules.{are_plain, is_option, named_words, option_value, option_word};
ghost use Rattle.plain_words.specs.View.{form_of};
ghost use Rattle.plain_words.specs.App.{app_of_form};

use crate::command_row::CommandRow;
use clap::error::ErrorKind;
use clap::{Arg, ArgMatches, Command};
use std::alloc::{AllocError, Global};

/// Reads the words of a command with `clap`, its own word first, where the words behind it are plain. An argument's
/// value is under its name, and an option's under its name without dashes.
///
/// That `clap`'s written meaning takes all plain words is proved. So its refusal is want of memory alone.
pub fn plain_matches<'a>(
    alloc: Global,
    row: &CommandRow,
    words: &'a [String],
) -> Result<ArgMatches<'a>, AllocError>
    requires readable { is_readable (form_of row.now) ≡ true }
    requires plain { are_plain (form_of row.now) (drop 1 (map string_bytes words.now)) ≡ true }
    ensures arguments { IfOk result (λ matches. (k : ℕ) (name : Text) → slice_get (form_of row.now).arguments k ≡ Some name
        → first_value (found_of matches) name ≡ slice_get (named_words (drop 1 (map string_bytes words.entry.now))) k) }
    ensures options { IfOk result (λ matches. (name : Text) → is_option (option_names (form_of row.now)) (option_word name) ≡ true
        → first_value (found_of matches) name ≡ option_value name (drop 1 (map string_bytes words.entry.now))) }
{
    match clap_command(alloc, row)?.try_get_matches_from(words) {
        Ok(matches) => Ok(matches),
        Err(error) => match error.kind() {
            ErrorKind::OutOfMemory => Err(AllocError),
            _ => unreachable!(),
        },
    }
}

// The command of a row. No argument is required, has a default or an action. A later use may replace an earlier
// one: so `clap` refuses no words for an option that stands again, which the rules exclude before.
fn clap_command<'a>(alloc: Global, row: &CommandRow) -> Result<Command<'a>, AllocError>
    ensures { IfOk result (λ command. app_of command ≡ app_of_form (form_of row.now)) }
{
    let mut command = Command::new(alloc, row.word).args_override_self(true);
    for argument in row.arguments {
        command = command.arg(Arg::new(alloc, *argument))?;
    }
    for option in row.options {
        command = command.arg(Arg::new(alloc, option.name).long(option.name))?;
    }
    Ok(command)
}
