// What the words ask for: files are read, and the output is made.
ghost use Rattle.std.specs.Prelude.{◌≡◌, ◌⊎◌, ◌<◌, List, ℕ, map, string_bytes, None, Some, IfOk, IsErrOf};
ghost use Rattle.command_words.specs.Command.{command_of};
ghost use Rattle.command_words.specs.Usage.{usage_text};
ghost use Rattle.command_words.specs.View.{view_of};
ghost use Rattle.shelf.specs.Outside.{Same};
ghost use Rattle.platform_cli.specs.Asked.{Reads};
ghost use Rattle.platform_cli.specs.Given.{text_outcome};
ghost use Rattle.platform_cli.specs.Outcome.{IsOutcome};
ghost use Rattle.platform_cli.specs.View.{asked_view, chart_asked, outcome_of};

use crate::asked::{Asked, Report, Window};
use crate::bounding::bound_plans;
use crate::checking::check;
use crate::judging::report_on_plan;
use crate::listing::list_patterns;
use crate::making::made_output;
use crate::output::{Ending, Output, Stop};
use crate::solve::solve;
use crate::trial::trial_output;
use command_words::{Chart, Command, read_words, usage};
use shelf::Shelf;
use std::alloc::{AllocError, Global};

/// Reads the files of the command that the words are, and makes its output. It writes nothing.
pub(crate) fn work<S: Shelf>(alloc: Global, words: &[String], shelf: &mut S) -> Result<Output, Stop>
    ensures outcome { IfOk result (λ output. IsOutcome S.tells (S.held shelf.old) (command_of (map string_bytes words.now)) (outcome_of output)) }
    ensures held { Same (S.held shelf.old) (S.held shelf.new) }
    ensures cause { IsErrOf result Stop.ReadFault → (name : List ℕ) × Reads S.tells (S.held shelf.old) (command_of (map string_bytes words.now)) name × (S.read_faults shelf.old name < S.read_faults shelf.new name) }
    ensures no_write { IsErrOf result Stop.WriteFault → ⊥ }
    ensures writes { Same (S.write_faults shelf.old) (S.write_faults shelf.new) }
{
    match read_words(alloc, words)? {
        Some(command) => command_output(alloc, shelf, &command),
        None => Ok(usage_output(alloc)?),
    }
}

fn usage_output(alloc: Global) -> Result<Output, AllocError>
    ensures { IfOk result (λ output. outcome_of output ≡ text_outcome 2 usage_text) }
{
    let text = usage(alloc)?;
    Ok(Output::of_text(alloc, Ending::Usage, text))
}

fn command_output<S: Shelf>(
    alloc: Global,
    shelf: &mut S,
    command: &Command<'_>,
) -> Result<Output, Stop>
    ensures outcome { IfOk result (λ output. IsOutcome S.tells (S.held shelf.old) (Some (view_of command.now)) (outcome_of output)) }
    ensures held { Same (S.held shelf.old) (S.held shelf.new) }
    ensures cause { IsErrOf result Stop.ReadFault → (name : List ℕ) × Reads S.tells (S.held shelf.old) (Some (view_of command.now)) name × (S.read_faults shelf.old name < S.read_faults shelf.new name) }
    ensures no_write { IsErrOf result Stop.WriteFault → ⊥ }
    ensures writes { Same (S.write_faults shelf.old) (S.write_faults shelf.new) }
{
    match command {
        Command::Solve(words) => solve(alloc, shelf, words),
        Command::Check(words) => check(alloc, shelf, words),
        Command::Cost(words) => {
            let asked = Asked {
                instance: words.instance,
                plan: words.plan,
                report: Report::Cost,
            };
            report_on_plan(alloc, shelf, &asked)
        }
        Command::Bound(words) => bound_plans(alloc, shelf, words.instance),
        Command::Patterns(words) => list_patterns(alloc, shelf, words.instance),
        Command::Platforms(chart) => {
            let report = Report::Platforms(window_of(chart));
            report_on_plan(alloc, shelf, &chart_asked(chart, report))
        }
        Command::Paths(chart) => {
            let report = Report::Paths(window_of(chart));
            report_on_plan(alloc, shelf, &chart_asked(chart, report))
        }
        Command::Make(words) => Ok(made_output(alloc, words)?),
        Command::Trial(words) => trial_output(alloc, words),
    }
}

fn window_of(chart: &Chart<'_>) -> Window
    ensures { result ≡ record { from = chart.now.from; to = chart.now.to } }
{
    Window {
        from: chart.from,
        to: chart.to,
    }
}

fn chart_asked<'a>(chart: &Chart<'a>, report: Report) -> Asked<'a>
    ensures { asked_view result ≡ chart_asked chart.now report }
{
    Asked {
        instance: chart.instance,
        plan: chart.plan,
        report,
    }
}
