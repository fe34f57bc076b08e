use patterns::Weights;
use sequence::Sequence;
use transport::Cells;

/// A table of two trains' weights, the first train's choices in rows and the second's in columns. A choice is a place in the train's list of
/// allowed numbers; the place after the last is to be left out.
#[derive(Drop)]
pub struct PairTable {
    pub first: usize,
    pub second: usize,
    pub cells: Cells,
}

/// A fractional plan: weights and uses over one scale, and a table for each two trains, the first below the second:
/// `docs/PROOFS.md`, "Fractional plans".
#[derive(Drop)]
pub struct FractionPlan {
    pub weights: Weights,
    pub tables: Sequence<PairTable>,
}
