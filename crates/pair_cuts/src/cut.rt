use sequence::Sequence;

/// A number for each choice of two trains, in price units, at most 10^15 in size. At two patterns the numbers are together
/// at most the sealed price, and where a train is left out at most 0: `docs/PROOFS.md`, "Fractional plans".
#[derive(Drop)]
pub struct PairCut {
    pub first: usize,
    pub second: usize,
    /// At the allowed patterns of the first train.
    pub alpha: Sequence<i128>,
    /// Where the first train is left out.
    pub alpha_left: i128,
    /// At the allowed patterns of the second train.
    pub beta: Sequence<i128>,
    /// Where the second train is left out.
    pub beta_left: i128,
}

/// Why there is no answer.
#[derive(Debug, Drop)]
pub enum CutFault {
    /// No memory was found.
    Memory,
    /// The scale, which is above 10^24.
    Scale(i128),
}
