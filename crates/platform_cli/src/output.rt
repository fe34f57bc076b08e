// What a run gives.
ghost use Rattle.std.specs.Prelude.{◌≡◌, []};
ghost use Rattle.platform_cli.specs.Given.{text_outcome};
ghost use Rattle.platform_cli.specs.Statuses.{ending_code};
ghost use Rattle.platform_cli.specs.View.{outcome_of};
ghost use Rattle.platform_cli.specs.declared.output.Stop.TheVariants.{Memory};

use std::alloc::{AllocError, Global};

/// A file that a run writes.
#[derive(Drop)]
pub(crate) struct OutputFile {
    pub(crate) name: String,
    pub(crate) bytes: Vec<u8>,
}

/// How a run ends whose output is whole.
#[derive(Clone, Copy, Debug, PartialEq, Eq)]
pub(crate) enum Ending {
    Done,
    Usage,
    InstanceRefused,
    PlanRefused,
    ProofRefused,
    Conflict,
    NoPlan,
    Open,
    Window,
}

impl Ending {
    pub(crate) fn code(self) -> u8
        ensures { result ≡ ending_code self }
    {
        match self {
            Ending::Done => 0,
            Ending::Usage => 2,
            Ending::InstanceRefused => 3,
            Ending::PlanRefused => 4,
            Ending::ProofRefused => 5,
            Ending::Conflict => 9,
            Ending::NoPlan => 10,
            Ending::Open => 11,
            Ending::Window => 12,
        }
    }
}

/// How a run ends, the text that it puts, and the files that it writes before, in their order.
#[derive(Drop)]
pub(crate) struct Output {
    pub(crate) ending: Ending,
    pub(crate) text: Vec<u8>,
    pub(crate) files: Vec<OutputFile>,
}

impl Output {
    /// An output that writes no file.
    pub(crate) fn of_text(alloc: Global, ending: Ending, text: Vec<u8>) -> Output
        ensures { outcome_of result ≡ text_outcome (ending_code ending) text.items }
    {
        Output {
            ending,
            text,
            files: Vec::new(alloc),
        }
    }
}

/// Why a run ended before its work was done or its output was whole.
#[derive(Clone, Copy, Debug, PartialEq, Eq)]
pub(crate) enum Stop {
    ReadFault,
    WriteFault,
    Memory,
}

impl From<AllocError> for Stop {
    ghost from_gives = { λ _ stop. stop ≡ Memory };

    fn from(_: AllocError) -> Self {
        Stop::Memory
    }
}
