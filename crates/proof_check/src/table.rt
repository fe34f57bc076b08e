ghost use Rattle.leaf_bounds.specs.Listed.{IsTable};

use leaf_bounds::NumberValue;

/// Potentials of one pair of trains.
#[derive(Drop)]
pub(crate) struct Table {
    pub first: u16,
    pub second: u16,
    pub alpha: Vec<NumberValue>,
    pub beta: Vec<NumberValue>,
    pub ghost kept: { IsTable first second alpha.items beta.items },
}
