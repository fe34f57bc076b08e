use exact_lp::WeakCause;
use leaf_bounds::Leaf;
use ratio::Ratio;
use station_rows::FractionPlan;

/// The bound of a node.
#[derive(Drop)]
pub enum Relaxed {
    /// The least cost of a fractional plan over the node's lists.
    Exact(ExactBound),
    /// A leaf's value alone.
    Weak(WeakBound),
}

/// The least cost of a fractional plan, with a leaf of that value and a fractional plan of that cost.
#[derive(Drop)]
pub struct ExactBound {
    /// In price units.
    pub value: Ratio,
    pub leaf: Leaf,
    pub fraction: FractionPlan,
}

/// The value of a leaf over its scale, and why the least cost of a fractional plan isn't known.
#[derive(Drop)]
pub struct WeakBound {
    /// In price units.
    pub value: Ratio,
    pub leaf: Leaf,
    pub cause: WeakCause,
}
