// `bound`: what is known of all plans without a search.
ghost use Rattle.std.specs.Prelude.{◌≡◌, ◌<◌, List, ℕ, Some, IfOk, IsErrOf};
ghost use Rattle.branching.specs.RootLine.{IsRoot};
ghost use Rattle.branching.specs.declared.found.Root.{Root as RootOf};
ghost use Rattle.command_words.specs.Command.{bound_all};
ghost use Rattle.shelf.specs.Outside.{Same};
ghost use Rattle.station.specs.Shown.{record_of};
ghost use Rattle.pair_prices.specs.Case.{rule_case};
ghost use Rattle.platform_cli.specs.Given.{text_outcome};
ghost use Rattle.platform_cli.specs.Outcome.{IsOutcome};
ghost use Rattle.platform_cli.specs.Report.{bound_text};
ghost use Rattle.platform_cli.specs.View.{outcome_of};

use crate::instance::{Instance, read_instance, refused_output};
use crate::limits::SEARCH_LIMITS;
use crate::output::{Ending, Output, Stop};
use crate::report::bound_text;
use branching::find_root;
use pair_prices::Case;
use ratio::Width;
use shelf::Shelf;
use station::Station;
use std::alloc::{AllocError, Global};

/// Reads the instance, and bounds the cost of its plans.
pub(crate) fn bound_plans<S: Shelf>(
    alloc: Global,
    shelf: &mut S,
    instance: &str,
) -> Result<Output, Stop>
    ensures outcome { IfOk result (λ output. IsOutcome S.tells (S.held shelf.old) (Some (bound_all instance.now)) (outcome_of output)) }
    ensures held { Same (S.held shelf.old) (S.held shelf.new) }
    ensures cause { IsErrOf result Stop.ReadFault → S.read_faults shelf.old instance.now < S.read_faults shelf.new instance.now }
    ensures no_write { IsErrOf result Stop.WriteFault → ⊥ }
    ensures writes { Same (S.write_faults shelf.old) (S.write_faults shelf.new) }
{
    match read_instance(alloc, shelf, instance)? {
        Instance::Taken(station) => Ok(bounded_output(alloc, station)?),
        Instance::Refused(refused) => Ok(refused_output(alloc, &refused)?),
    }
}

fn bounded_output(alloc: Global, station: Station) -> Result<Output, AllocError>
    ensures { IfOk result (λ output. (root : RootOf) × IsRoot (rule_case (record_of station)) root
        × (outcome_of output ≡ text_outcome 0 (bound_text (rule_case (record_of station)) root))) }
{
    let case = Case::new(alloc, station)?;
    let mut width = Width::new();
    let root = find_root(alloc, &case, &SEARCH_LIMITS, &mut width)?;
    let text = bound_text(alloc, &case, &root)?;
    Ok(Output::of_text(alloc, Ending::Done, text))
}
