ghost use Rattle.std.specs.Prelude.{◌≡◌};
ghost use Rattle.dual_leaves.specs.Faults.{fault_of};
ghost use Rattle.dual_leaves.specs.declared.fault.DualFault.TheVariants.{Memory};

use exact_lp::LpFault;
use std::alloc::{AllocError, AllocFailed};

/// Why duals gave no leaf.
#[derive(Clone, Copy, Debug, PartialEq, Eq)]
pub enum DualFault {
    /// No memory was found.
    Memory,
    /// The leaf would have this number: a scale above 10^18, or another number above 10^30 in size.
    Scale(i128),
    /// A sum left 128 bits, which the ledger has counted.
    Left,
}

impl From<AllocError> for DualFault {
    ghost from_gives = { λ _ e. e ≡ Memory };

    fn from(_: AllocError) -> Self {
        DualFault::Memory
    }
}

impl<T: Drop> From<AllocFailed<T>> for DualFault {
    ghost from_gives = { λ _ e. e ≡ Memory };

    fn from(_: AllocFailed<T>) -> Self {
        DualFault::Memory
    }
}

impl From<LpFault> for DualFault {
    ghost from_gives = { λ fault e. e ≡ fault_of fault };

    fn from(fault: LpFault) -> Self {
        match fault {
            LpFault::Memory => DualFault::Memory,
            LpFault::Left => DualFault::Left,
        }
    }
}
