use leaf_bounds::{Cut, MinuteValue, NumberValue, PairValue, TrainValue, UseOf};

/// The first record: the version of the file, and the station's number of trains.
#[derive(Clone, Copy, PartialEq, Eq, Debug, Drop)]
pub struct HeadRecord {
    pub version: u8,
    pub trains: u16,
}

/// The head of a table of potentials of one pair of trains. Tables are numbered from 0.
#[derive(Clone, Copy, PartialEq, Eq, Debug, Drop)]
pub struct TableHead {
    pub table: u32,
    pub first: u16,
    pub second: u16,
}

/// One line of a proof file.
#[derive(Clone, Copy, PartialEq, Eq, Debug, Drop)]
pub enum ProofRecord {
    Head(HeadRecord),
    Table(TableHead),
    /// A potential of a table at a pattern of its first train.
    Ta(NumberValue),
    /// A potential of a table at a pattern of its second train.
    Tb(NumberValue),
    Split(Cut),
    /// The scale of a leaf, whose numbers follow.
    Leaf(i128),
    U(TrainValue),
    V(MinuteValue),
    A(PairValue),
    B(PairValue),
    Use(UseOf),
    /// The end of a leaf.
    Close,
    /// The last record: the bound of the tree.
    End(i128),
    /// The last record where the tree shows that there is no plan.
    Nothing,
}
