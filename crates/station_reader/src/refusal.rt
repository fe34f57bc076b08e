// Why a text is no station.
use crate::place::Place;

/// The classes of refusal, in the order in which they are tried ("Refusals of the instance" in
/// docs/FORMATS.md).
#[derive(Clone, Copy, PartialEq, Eq, Debug, Drop)]
pub enum RefusedKind {
    /// More than 16,777,216 bytes.
    Long = 0,
    /// The bytes are no JSON value.
    NotJson = 1,
    /// No object with the format's name and a version that is read, 1 or 2.
    Version = 2,
    /// A member is missing, unknown or of the wrong kind.
    Shape = 3,
    /// A list's length is outside its limits.
    Count = 4,
    /// A declared name isn't 1 to 24 of the bytes of names.
    Name = 5,
    /// A name stands again in its list.
    Double = 6,
    /// A name that is used isn't declared, a path names a dummy platform, or a way is no way.
    Unknown = 7,
    /// An integer is outside its limits.
    Range = 8,
    /// A train has more than 4,096 allowed patterns.
    Patterns = 9,
}

/// The class of a refusal, and its first failing place.
#[derive(Drop)]
pub struct Refused {
    pub kind: RefusedKind,
    pub place: Place,
}

/// Why there is no station.
#[derive(Drop)]
pub enum StationFault {
    /// Memory was refused, which says nothing of the text.
    Memory,
    /// The text describes no station.
    Refused(Refused),
}
