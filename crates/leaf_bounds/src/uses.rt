/// A use of a table: each of its potentials, times the factor.
#[derive(Clone, Copy, PartialEq, Eq, Debug, Drop)]
pub struct UseOf {
    pub table: u32,
    pub factor: i128,
}

/// The two trains of a table.
#[derive(Clone, Copy, Drop)]
pub(crate) struct TablePair {
    pub first: u16,
    pub second: u16,
}
