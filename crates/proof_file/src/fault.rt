ghost use Rattle.proof_file.specs.declared.fault.ReaderFault.TheVariants.{Memory};
ghost use Rattle.proof_file.specs.Reading.{fault_at};
ghost use Rattle.std.specs.Prelude.{◌≡◌};

use std::alloc::AllocFailed;

/// Why a line is no record.
#[derive(Clone, Copy, PartialEq, Eq, Debug, Drop)]
pub(crate) enum LineFault {
    /// It is longer than 80 bytes, or no spelling of a record of its version.
    Shape,
    /// It is the spelling of a record, and one of the numbers is out of its range.
    Number,
}

/// Why the reader of a proof file stopped. The number is that of the record, from 1.
#[derive(Clone, Copy, PartialEq, Eq, Debug, Drop)]
pub enum ReaderFault {
    /// Memory ran out.
    Memory,
    /// A line is longer than 80 bytes, or no spelling of a record of the file's version.
    Shape(u64),
    /// A number of the record is out of its range.
    Number(u64),
    /// The bytes end inside the record's line.
    Cut(u64),
}

impl LineFault {
    /// The fault of the line of this number.
    pub(crate) fn at(self, number: u64) -> ReaderFault
        ensures { result ≡ fault_at number self }
    {
        match self {
            LineFault::Shape => ReaderFault::Shape(number),
            LineFault::Number => ReaderFault::Number(number),
        }
    }
}

impl<T: Drop> From<AllocFailed<T>> for ReaderFault {
    ghost from_gives = { λ _ fault. fault ≡ Memory };

    fn from(_: AllocFailed<T>) -> Self {
        ReaderFault::Memory
    }
}
