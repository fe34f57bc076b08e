use crate::answer::WeakCause;
use crate::duals::Duals;
use crate::listed::Listed;
use crate::point::Point;
use crate::row::Row;

/// A point and duals that passed the tests of an exact end, but for rows that the source hasn't shown.
#[derive(Drop)]
pub struct Ready {
    pub point: Point,
    pub duals: Duals,
}

/// How a round's pivoting ended.
#[derive(Drop)]
pub enum Settled {
    Shown(Ready),
    Given(WeakCause),
}

/// A pivot: the variable becomes basic in the row.
#[derive(Clone, Copy)]
pub struct Swap {
    pub at: usize,
    pub variable: usize,
}

/// What is to be done next: a pivot, a new column with its pivot, or the round again from the opening columns, which
/// counts as a pivot.
#[derive(Clone, Copy)]
pub enum Step {
    Pivot(Swap),
    Enter(u64),
    Restart,
}

/// The given rows, with what is to be done next.
#[derive(Drop)]
pub struct Planned {
    pub rows: Listed<Row>,
    pub step: Step,
}

/// What a round does next, or how its pivoting ended.
#[derive(Drop)]
pub enum Plan {
    Next(Planned),
    End(Settled),
}

/// What a look at the duals behind a pivot came to: the pivot may be made, or a column that they would let improve has
/// come into the table, or the round ends.
#[derive(Drop)]
pub enum Ahead {
    Clear(Listed<Row>),
    Entered(Listed<Row>),
    Stopped(WeakCause),
}
