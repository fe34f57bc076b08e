/// A pattern, by its place in the train's list of allowed numbers.
#[derive(Clone, Copy, PartialEq, Eq, Debug)]
pub struct WeightAt {
    pub train: usize,
    pub place: usize,
}

/// A pair of trains, the first below the second.
#[derive(Clone, Copy, PartialEq, Eq, Debug)]
pub struct PairAt {
    pub first: usize,
    pub second: usize,
}

/// What a column of the bound stands for: a number of a fractional plan, or what its table of a pair costs.
#[derive(Clone, Copy, PartialEq, Eq, Debug)]
pub enum Column {
    /// The weight of a pattern.
    Weight(WeightAt),
    /// The weight of leaving a train out.
    LeftOut(usize),
    /// The use of a platform.
    PlatformUse(usize),
    /// What two trains' weights cost together.
    PairValue(PairAt),
}
