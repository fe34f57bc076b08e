// The instance of a command: its bytes are read whole, and then they are read as a station.
ghost use Rattle.std.specs.Prelude.{◌≡◌, ◌<◌, ◌≤◌, List, ℕ, IfOk, IsErrOf};
ghost use Rattle.shelf.specs.Outside.{Same};
ghost use Rattle.station_reader.specs.Reading.{reading};
ghost use Rattle.platform_cli.specs.Given.{text_outcome};
ghost use Rattle.platform_cli.specs.Instance.{IsInstance};
ghost use Rattle.platform_cli.specs.Report.{refused_text};
ghost use Rattle.platform_cli.specs.Statuses.{read_stop_of};
ghost use Rattle.platform_cli.specs.View.{outcome_of, reading_of};

use crate::output::{Ending, Output, Stop};
use crate::reading::read_whole;
use crate::report::refused_text;
use shelf::{Shelf, ShelfFault};
use station::Station;
use station_reader::{Refused, StationFault, read_station};
use std::alloc::{AllocError, Global};

/// The most bytes that are read: one more than an instance may have, so that a longer one is refused.
const MOST_BYTES: usize = 16_777_217;

/// What the bytes of an instance are read as.
#[derive(Drop)]
pub(crate) enum Instance {
    Taken(Station),
    Refused(Refused),
}

/// Reads the instance of this name.
pub(crate) fn read_instance<S: Shelf>(
    alloc: Global,
    shelf: &mut S,
    name: &str,
) -> Result<Instance, Stop>
    ensures read { IfOk result (λ instance. IsInstance S.tells (S.held shelf.old) name.now (reading_of instance)) }
    ensures held { Same (S.held shelf.old) (S.held shelf.new) }
    ensures cause { IsErrOf result Stop.ReadFault → S.read_faults shelf.old name.now < S.read_faults shelf.new name.now }
    ensures later { (other : List ℕ) → S.read_faults shelf.old other ≤ S.read_faults shelf.new other }
    ensures no_write { IsErrOf result Stop.WriteFault → ⊥ }
    ensures writes { Same (S.write_faults shelf.old) (S.write_faults shelf.new) }
{
    match read_whole(alloc, shelf, name, MOST_BYTES) {
        Ok(bytes) => Ok(instance_of(alloc, &bytes)?),
        Err(fault) => Err(read_stop_of(fault)),
    }
}

/// The stop for a fault of a read.
pub(crate) fn read_stop_of(fault: ShelfFault) -> Stop
    ensures { result ≡ read_stop_of fault }
{
    match fault {
        ShelfFault::Failed => Stop::ReadFault,
        ShelfFault::Memory => Stop::Memory,
    }
}

fn instance_of(alloc: Global, bytes: &[u8]) -> Result<Instance, AllocError>
    ensures { IfOk result (λ instance. reading bytes.now ≡ reading_of instance) }
{
    match read_station(alloc, bytes) {
        Ok(station) => Ok(Instance::Taken(station)),
        Err(StationFault::Refused(refused)) => Ok(Instance::Refused(refused)),
        Err(StationFault::Memory) => Err(AllocError),
    }
}

/// The output for a refused instance.
pub(crate) fn refused_output(alloc: Global, refused: &Refused) -> Result<Output, AllocError>
    ensures { IfOk result (λ output. outcome_of output ≡ text_outcome 3 (refused_text refused.now.kind refused.now.place)) }
{
    let text = refused_text(alloc, refused)?;
    Ok(Output::of_text(alloc, Ending::InstanceRefused, text))
}
