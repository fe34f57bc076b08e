ghost use Rattle.proof_check.specs.declared.refused.CheckFault.TheVariants.{Memory};
ghost use Rattle.std.specs.Prelude.{◌≡◌};

use proof_rules::ProofRefused;
use std::alloc::{AllocError, AllocFailed};

/// Why no bound was given.
#[derive(Clone, Copy, PartialEq, Eq, Debug, Drop)]
pub enum CheckFault {
    /// Memory ran out.
    Memory,
    Refused(ProofRefused),
}

impl From<AllocError> for CheckFault {
    ghost from_gives = { λ _ fault. fault ≡ Memory };

    fn from(_: AllocError) -> Self {
        CheckFault::Memory
    }
}

impl<T: Drop> From<AllocFailed<T>> for CheckFault {
    ghost from_gives = { λ _ fault. fault ≡ Memory };

    fn from(_: AllocFailed<T>) -> Self {
        CheckFault::Memory
    }
}
