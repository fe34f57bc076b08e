use crate::duals::Duals;
use crate::point::Point;

/// How far the engine may go: pivots in a round, rounds, and cells of the table. A round is pivoting until no column
/// improves, and then one look for a violated row.
#[derive(Clone, Copy, Debug, PartialEq, Eq)]
pub struct Limits {
    pub pivots: u32,
    pub rounds: u32,
    pub cells: u64,
}

/// Why an answer isn't exact.
#[derive(Clone, Copy, Debug, PartialEq, Eq)]
pub enum WeakCause {
    /// A number left 128 bits: the ledger rose in this call, or stands at its last value.
    Left,
    /// So many pivots were made in one round, which is the limit, and another was wanted.
    Pivots(u32),
    /// So many rounds were made, which is the limit, and the last one found a violated row.
    Rounds(u32),
    /// The next table would have had so many cells, more than the limit.
    Cells(u64),
    /// A point or duals would have had this scale, above 10^24.
    Scale(i128),
}

/// A least point, and duals that show it.
#[derive(Debug, Drop)]
pub struct Solved {
    pub point: Point,
    /// Their rows are opening rows and rows that stand, and they cost what the point does.
    pub duals: Duals,
}

/// What the engine found.
#[derive(Debug, Drop)]
pub enum Outcome {
    /// A least point, with duals that show it.
    Exact(Solved),
    /// No exact answer, for this cause.
    Weak(WeakCause),
}
