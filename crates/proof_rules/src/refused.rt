/// Why a record of a proof file is refused, in the order in which the reasons are tried at one record; `Sum` comes last.
#[derive(Clone, Copy, PartialEq, Eq, Debug, Drop)]
pub enum ProofKind {
    /// The line is too long, or no spelling of a record of the file's version.
    Shape = 1,
    /// A number is out of its field's range.
    Number = 2,
    /// The record isn't due there, or names what isn't there.
    Place = 3,
    /// One part of the split has no number.
    Part = 4,
    /// The leaf doesn't stand at two patterns.
    Pair = 5,
    /// The leaf doesn't stand at one pattern.
    Pattern = 6,
    /// The tree has another bound.
    End = 7,
    /// Something stands behind the last record.
    Trail = 8,
    /// The bytes end before the last record does.
    Cut = 9,
    /// There are 2^63 bytes without another refusal.
    Long = 10,
    /// With this use a number of the leaf is above 10^30 in size.
    Sum = 11,
}

/// The first record of a proof file that is refused. Records are numbered from 1.
#[derive(Clone, Copy, PartialEq, Eq, Debug, Drop)]
pub struct ProofRefused {
    pub kind: ProofKind,
    pub at: u64,
}
