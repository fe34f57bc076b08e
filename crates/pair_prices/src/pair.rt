use station::PathWay;

/// Two path uses that overlap for more minutes than the threshold: the ways of the first and of the second pattern, and the
/// minutes of the overlap.
#[derive(Clone, Copy, PartialEq, Eq, Debug, Drop)]
pub struct PathsOver {
    pub first: PathWay,
    pub second: PathWay,
    pub minutes: u32,
}

/// Why two patterns are forbidden together.
#[derive(Clone, Copy, PartialEq, Eq, Debug, Drop)]
pub enum Why {
    /// Both hold one platform at some minute.
    Platform,
    /// The first of the path uses that overlap for too long.
    Paths(PathsOver),
}

/// What two patterns of two trains cost together.
#[derive(Clone, Copy, PartialEq, Eq, Debug, Drop)]
pub enum Pair {
    /// They may stand in one plan, at this price.
    Price(i64),
    /// No plan has both.
    Forbidden(Why),
}
