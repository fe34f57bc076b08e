/// The side of a pair of trains: which of the two an entry's number is a pattern of.
#[derive(Clone, Copy, PartialEq, Eq, Debug, Drop)]
pub(crate) enum Side {
    First,
    Second,
}
