/// A platform at a minute.
#[derive(Clone, Copy, PartialEq, Eq, PartialOrd, Ord, Debug)]
pub(crate) struct MinuteKey {
    pub platform: u16,
    pub minute: i32,
}

/// A pattern of one of two trains.
#[derive(Clone, Copy, PartialEq, Eq, PartialOrd, Ord, Debug)]
pub(crate) struct PairKey {
    pub first: u16,
    pub second: u16,
    pub number: u16,
}

/// One of two trains.
#[derive(Clone, Copy)]
pub(crate) enum Side {
    First,
    Second,
}
