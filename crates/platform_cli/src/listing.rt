// `patterns`: the patterns of all trains.
ghost use Rattle.std.specs.Prelude.{◌≡◌, ◌<◌, List, ℕ, Some, IfOk, IsErrOf};
ghost use Rattle.command_words.specs.Command.{patterns};
ghost use Rattle.reports.specs.Text.{patterns_text};
ghost use Rattle.shelf.specs.Outside.{Same};
ghost use Rattle.station.specs.Shown.{record_of};
ghost use Rattle.pair_prices.specs.Case.{rule_case};
ghost use Rattle.platform_cli.specs.Given.{text_outcome};
ghost use Rattle.platform_cli.specs.Outcome.{IsOutcome};
ghost use Rattle.platform_cli.specs.View.{outcome_of};

use crate::instance::{Instance, read_instance, refused_output};
use crate::output::{Ending, Output, Stop};
use pair_prices::Case;
use reports::patterns_report;
use shelf::Shelf;
use station::Station;
use std::alloc::{AllocError, Global};

/// Reads the instance, and lists its patterns.
pub(crate) fn list_patterns<S: Shelf>(
    alloc: Global,
    shelf: &mut S,
    instance: &str,
) -> Result<Output, Stop>
    ensures outcome { IfOk result (λ output. IsOutcome S.tells (S.held shelf.old) (Some (patterns instance.now)) (outcome_of output)) }
    ensures held { Same (S.held shelf.old) (S.held shelf.new) }
    ensures cause { IsErrOf result Stop.ReadFault → S.read_faults shelf.old instance.now < S.read_faults shelf.new instance.now }
    ensures no_write { IsErrOf result Stop.WriteFault → ⊥ }
    ensures writes { Same (S.write_faults shelf.old) (S.write_faults shelf.new) }
{
    match read_instance(alloc, shelf, instance)? {
        Instance::Taken(station) => Ok(listed_output(alloc, station)?),
        Instance::Refused(refused) => Ok(refused_output(alloc, &refused)?),
    }
}

fn listed_output(alloc: Global, station: Station) -> Result<Output, AllocError>
    ensures { IfOk result (λ output. outcome_of output ≡ text_outcome 0 (patterns_text (rule_case (record_of station)))) }
{
    let case = Case::new(alloc, station)?;
    let text = patterns_report(alloc, &case)?;
    Ok(Output::of_text(alloc, Ending::Done, text))
}
