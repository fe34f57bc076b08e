// A command as the usage text shows it.
ghost use Rattle.std.specs.Prelude.{◌≡◌, ◌++◌, OnOk, map, string_bytes};
ghost use Rattle.std.specs.List.{flat_map};
ghost use Rattle.plain_words.specs.Usage.{argument_text, missing_text, option_text, usage_line};
ghost use Rattle.plain_words.specs.View.{form_of, option_form};

use crate::command_row::{CommandRow, OptionRow};
use std::alloc::AllocError;

/// Appends a command's line of the usage text, with its newline: the word, the named arguments, in brackets where they
/// may be missing, and each option with the name of its value in brackets, as in `solve INSTANCE [--plan FILE]`.
pub fn push_usage_line(row: &CommandRow, text: &mut String) -> Result<(), AllocError>
    ensures { OnOk result (string_bytes text.new ≡ string_bytes text.old ++ usage_line (form_of row.now)) }
{
    let (needed, missing) = row
        .arguments
        .split_at(row.arguments.len().saturating_sub(row.missing));
    text.push_str(row.word)?;
    push_arguments(needed, text)?;
    push_missing(missing, text)?;
    push_options(row.options, text)?;
    text.push_str("\n")
}

fn push_arguments(arguments: &[&str], text: &mut String) -> Result<(), AllocError>
    ensures { OnOk result (string_bytes text.new ≡ string_bytes text.old ++ flat_map argument_text (map (λ argument. argument.now) arguments.now)) }
{
    for argument in arguments {
        push_argument(argument, text)?;
    }
    Ok(())
}

fn push_argument(argument: &str, text: &mut String) -> Result<(), AllocError>
    ensures { OnOk result (string_bytes text.new ≡ string_bytes text.old ++ argument_text argument.now) }
{
    text.push_str(" ")?;
    text.push_str(argument)
}

fn push_missing(arguments: &[&str], text: &mut String) -> Result<(), AllocError>
    ensures { OnOk result (string_bytes text.new ≡ string_bytes text.old ++ flat_map missing_text (map (λ argument. argument.now) arguments.now)) }
{
    for argument in arguments {
        push_bracketed(argument, text)?;
    }
    Ok(())
}

fn push_bracketed(argument: &str, text: &mut String) -> Result<(), AllocError>
    ensures { OnOk result (string_bytes text.new ≡ string_bytes text.old ++ missing_text argument.now) }
{
    text.push_str(" [")?;
    text.push_str(argument)?;
    text.push_str("]")
}

fn push_options(options: &[OptionRow], text: &mut String) -> Result<(), AllocError>
    ensures { OnOk result (string_bytes text.new ≡ string_bytes text.old ++ flat_map option_text (map option_form options.now)) }
{
    for option in options {
        push_option(option, text)?;
    }
    Ok(())
}

fn push_option(option: &OptionRow, text: &mut String) -> Result<(), AllocError>
    ensures { OnOk result (string_bytes text.new ≡ string_bytes text.old ++ option_text (option_form option.now)) }
{
    text.push_str(" [--")?;
    text.push_str(option.name)?;
    text.push_str(" ")?;
    text.push_str(option.value)?;
    text.push_str("]")
}
