ghost use Rattle.plan_cost.specs.declared.refusal.PlanFault.TheVariants.{Memory, Refused};
ghost use Rattle.std.specs.Prelude.{◌≡◌};

use std::alloc::{AllocError, AllocFailed};

/// Why a record of a plan file is refused, in the order in which the reasons are tried.
#[derive(Clone, Copy, PartialEq, Eq, Debug, Drop)]
pub enum PlanKind {
    /// The line is too long, is no record, or is one that can't be due there.
    Record = 1,
    /// Another number of trains than the station's, or another train's choice than the next.
    Train = 2,
    /// The train has no pattern of that number.
    Choice = 3,
    /// The bytes end before the record does.
    Short = 4,
    /// Something stands behind the last record.
    Trail = 5,
}

/// The first record of a plan file that is refused. Records are numbered from 1.
#[derive(Clone, Copy, PartialEq, Eq, Debug, Drop)]
pub struct PlanRefused {
    pub kind: PlanKind,
    pub at: u64,
}

/// Why no plan was read.
#[derive(Clone, Copy, PartialEq, Eq, Debug, Drop)]
pub enum PlanFault {
    /// Memory ran out.
    Memory,
    Refused(PlanRefused),
}

impl From<AllocError> for PlanFault {
    ghost from_gives = { λ _ fault. fault ≡ Memory };

    fn from(_: AllocError) -> Self {
        PlanFault::Memory
    }
}

impl<T: Drop> From<AllocFailed<T>> for PlanFault {
    ghost from_gives = { λ _ fault. fault ≡ Memory };

    fn from(_: AllocFailed<T>) -> Self {
        PlanFault::Memory
    }
}

impl From<PlanRefused> for PlanFault {
    ghost from_gives = { λ refused fault. fault ≡ Refused refused };

    fn from(refused: PlanRefused) -> Self {
        PlanFault::Refused(refused)
    }
}
