// Words as a command.
ghost use Rattle.std.specs.Prelude.{◌≡◌, ◌<◌, IfOk, drop, length, map, string_bytes, Some};
ghost use Rattle.std.specs.Option.{option_map};
ghost use Rattle.clap.specs.Words.{first_value, found_of};
ghost use Rattle.command_words.specs.Command.{are_apart, are_one, chart_of, command_of, generated_of, is_file, minute_of, picked_row, row_command, solve_of, splits_of};
ghost use Rattle.command_words.specs.Values.{chart_from, command_from, generated_from, values_command};
ghost use Rattle.command_words.specs.View.{chart_view, generated_view, row_view, view_of};

use crate::command::{Bound, Chart, Check, Command, Cost, Generated, Patterns, Solve};
use crate::number::number_up_to;
use crate::table::{CommandName, TableRow, commands, find_row};
use clap::ArgMatches;
use plain_words::{are_plain, plain_matches};
use std::alloc::{AllocError, Global};

/// The last minute that a chart may be asked for.
const LAST_MINUTE: u64 = 9_999;

/// The most trains of a station.
const MOST_TRAINS: u64 = 200;

/// The most splits that may be asked for, and those of a search for which no number is given.
const MOST_SPLITS: u64 = 1_099_511_627_776;

const USUAL_SPLITS: u64 = 10_000;

/// The command that the words are, if they are one. The words leave out the program's own name.
///
/// The first word picks a row of the table, and the others have to be plain for it (`plain_words::are_plain`). They
/// are then read with `clap`, whose written meaning takes all plain words. The commands stand in `docs/COMMANDS.md`.
pub fn read_words(alloc: Global, words: &[String]) -> Result<Option<Command<'_>>, AllocError>
    ensures { IfOk result (λ command. option_map view_of command ≡ command_of (map string_bytes words.now)) }
{
    match picked_row(words) {
        Some(row) => read_row(alloc, &row, words),
        None => Ok(None),
    }
}

fn picked_row(words: &[String]) -> Option<TableRow>
    ensures { option_map row_view result ≡ picked_row (map string_bytes words.now) }
{
    let word = words.first()?;
    find_row(commands(), word.as_str())
}

fn read_row<'a>(
    alloc: Global,
    row: &TableRow,
    words: &'a [String],
) -> Result<Option<Command<'a>>, AllocError>
    requires picked { picked_row (map string_bytes words.now) ≡ Some (row_view row.now) }
    requires some { 0 < length words.now }
    ensures { IfOk result (λ command. option_map view_of command ≡ row_command (row_view row.now) (drop 1 (map string_bytes words.entry.now))) }
{
    if !are_plain(&row.row, &words[1..]) {
        return Ok(None);
    }
    let matches = plain_matches(alloc, &row.row, words)?;
    Ok(values_command(row.name, &matches))
}

fn values_command<'a>(name: CommandName, matches: &ArgMatches<'a>) -> Option<Command<'a>>
    ensures { option_map view_of result ≡ values_command name (first_value (found_of matches.now)) }
{
    if let CommandName::Make = name {
        return Some(Command::Make(generated_from(matches)?));
    }
    if let CommandName::Trial = name {
        return Some(Command::Trial(generated_from(matches)?));
    }
    let instance = matches.get_str("INSTANCE")?;
    command_from(name, instance, matches)
}

fn generated_from(matches: &ArgMatches<'_>) -> Option<Generated>
    ensures { option_map generated_view result ≡ generated_from (first_value (found_of matches.now)) }
{
    let number = matches.get_str("NUMBER")?;
    let trains = matches.get_str("TRAINS")?;
    generated_of(number, trains)
}

fn generated_of(number: &str, trains: &str) -> Option<Generated>
    ensures { option_map generated_view result ≡ generated_of number.now trains.now }
{
    let number = number_up_to(u64::MAX, number)?;
    let trains = number_up_to(MOST_TRAINS, trains)? as u8;
    Some(Generated { number, trains })
}

// A command that reads a station.
fn command_from<'a>(
    name: CommandName,
    instance: &'a str,
    matches: &ArgMatches<'a>,
) -> Option<Command<'a>>
    ensures { option_map view_of result ≡ command_from name (first_value (found_of matches.now)) instance.entry.now }
{
    match name {
        CommandName::Solve => {
            let splits = matches.get_str("splits");
            let plan = matches.get_str("plan");
            solve_of(instance, splits, plan, matches.get_str("proof"))
        }
        CommandName::Check => {
            let proof = matches.get_str("PROOF")?;
            let plan = matches.get_str("PLAN");
            Some(Command::Check(Check {
                instance,
                proof,
                plan,
            }))
        }
        CommandName::Cost => {
            let plan = matches.get_str("PLAN")?;
            Some(Command::Cost(Cost { instance, plan }))
        }
        CommandName::Bound => Some(Command::Bound(Bound { instance })),
        CommandName::Patterns => Some(Command::Patterns(Patterns { instance })),
        CommandName::Platforms => Some(Command::Platforms(chart_from(instance, matches)?)),
        CommandName::Paths => Some(Command::Paths(chart_from(instance, matches)?)),
        CommandName::Make | CommandName::Trial => None,
    }
}

fn solve_of<'a>(
    instance: &'a str,
    splits: Option<&'a str>,
    plan: Option<&'a str>,
    proof: Option<&'a str>,
) -> Option<Command<'a>>
    ensures { option_map view_of result ≡ solve_of instance.entry.now (option_map (λ word. word.now) splits.entry)
        (option_map (λ file. file.now) plan.entry) (option_map (λ file. file.now) proof.entry) }
{
    let splits = splits_of(splits)?;
    if !are_apart(instance, plan, proof) {
        return None;
    }
    Some(Command::Solve(Solve {
        instance,
        splits,
        plan,
        proof,
    }))
}

fn splits_of(splits: Option<&str>) -> Option<u64>
    ensures { result ≡ splits_of (option_map (λ word. word.now) splits.entry) }
{
    match splits {
        Some(word) => number_up_to(MOST_SPLITS, word),
        None => Some(USUAL_SPLITS),
    }
}

// A file that is written may not be the instance, since writing it would destroy the station, nor the other file.
fn are_apart(instance: &str, plan: Option<&str>, proof: Option<&str>) -> bool
    ensures { result ≡ are_apart instance.now (option_map (λ file. file.now) plan.entry) (option_map (λ file. file.now) proof.entry) }
{
    !is_file(plan, instance) && !is_file(proof, instance) && !are_one(plan, proof)
}

fn is_file(file: Option<&str>, name: &str) -> bool
    ensures { result ≡ is_file (option_map (λ f. f.now) file.entry) name.now }
{
    match file {
        Some(file) => file == name,
        None => false,
    }
}

fn are_one(first: Option<&str>, second: Option<&str>) -> bool
    ensures { result ≡ are_one (option_map (λ f. f.now) first.entry) (option_map (λ f. f.now) second.entry) }
{
    match second {
        Some(file) => is_file(first, file),
        None => false,
    }
}

fn chart_from<'a>(instance: &'a str, matches: &ArgMatches<'a>) -> Option<Chart<'a>>
    ensures { option_map chart_view result ≡ chart_from (first_value (found_of matches.now)) instance.entry.now }
{
    let plan = matches.get_str("PLAN")?;
    let from = matches.get_str("FROM")?;
    let to = matches.get_str("TO")?;
    chart_of(instance, plan, from, to)
}

fn chart_of<'a>(instance: &'a str, plan: &'a str, from: &str, to: &str) -> Option<Chart<'a>>
    ensures { option_map chart_view result ≡ chart_of instance.entry.now plan.entry.now from.now to.now }
{
    let from = minute_of(from)?;
    let to = minute_of(to)?;
    Some(Chart {
        instance,
        plan,
        from,
        to,
    })
}

fn minute_of(word: &str) -> Option<u32>
    ensures { result ≡ minute_of word.now }
{
    let number = number_up_to(LAST_MINUTE, word)?;
    Some(number as u32)
}
