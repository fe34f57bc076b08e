use pair_prices::Why;

/// What a plan costs, in its parts and in total: each platform that some train uses, each train's pattern, and each
/// pair of trains (docs/RULES.md).
#[derive(Clone, Copy, PartialEq, Eq, Debug, Drop)]
pub struct Costs {
    pub platforms: i64,
    pub patterns: i64,
    pub pairs: i64,
    pub total: i64,
}

/// Two trains, the first below the second, whose patterns are forbidden together.
#[derive(Clone, Copy, PartialEq, Eq, Debug, Drop)]
pub struct Clash {
    pub first: usize,
    pub second: usize,
    pub why: Why,
}

/// What is to be said of a plan.
#[derive(Clone, Copy, PartialEq, Eq, Debug, Drop)]
pub enum Verdict {
    /// It is feasible.
    Cost(Costs),
    /// It isn't: the first two trains, in ascending order, whose patterns are forbidden together.
    Conflict(Clash),
}
