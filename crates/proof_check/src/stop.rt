ghost use Rattle.proof_check.specs.declared.stop.Stop.TheVariants.{Memory, Refused};
ghost use Rattle.proof_check.specs.Going.{fault_at, placed};
ghost use Rattle.std.specs.Prelude.{◌≡◌};

use crate::refused::CheckFault;
use proof_rules::{ProofKind, ProofRefused};
use std::alloc::{AllocError, AllocFailed};

/// Why a record leads to nothing.
#[derive(Clone, Copy, PartialEq, Eq, Debug, Drop)]
pub(crate) enum Stop {
    /// Memory ran out.
    Memory,
    Refused(ProofKind),
}

impl Stop {
    /// The fault at the record of this number.
    pub(crate) fn at(self, number: u64) -> CheckFault
        ensures { result ≡ fault_at number self }
    {
        match self {
            Stop::Memory => CheckFault::Memory,
            Stop::Refused(kind) => CheckFault::Refused(ProofRefused { kind, at: number }),
        }
    }
}

/// Whether a record is due.
pub(crate) fn placed(is_due: bool) -> Result<(), Stop>
    ensures { result ≡ placed is_due }
{
    if is_due {
        Ok(())
    } else {
        Err(Stop::Refused(ProofKind::Place))
    }
}

impl From<AllocError> for Stop {
    ghost from_gives = { λ _ stop. stop ≡ Memory };

    fn from(_: AllocError) -> Self {
        Stop::Memory
    }
}

impl<T: Drop> From<AllocFailed<T>> for Stop {
    ghost from_gives = { λ _ stop. stop ≡ Memory };

    fn from(_: AllocFailed<T>) -> Self {
        Stop::Memory
    }
}
