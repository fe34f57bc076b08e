use leaf_bounds::Tree;
use master_lp::WeakCause;
use plan_cost::Plan;
use ratio::Ratio;

/// What a search comes to. Its tree of leaves stands for all patterns of all trains.
#[derive(Drop)]
pub enum Found {
    /// The plan costs least: its cost is the tree's bound.
    Optimal(Best),
    /// No plan is feasible.
    NoPlan(Shown),
    /// The stated splits are spent.
    Open(Stopped),
}

#[derive(Drop)]
pub struct Best {
    pub plan: Plan,
    pub cost: i64,
    pub tree: Tree,
    pub root: Root,
}

#[derive(Drop)]
pub struct Shown {
    pub tree: Tree,
    pub root: Root,
}

#[derive(Drop)]
pub struct Stopped {
    /// The best known plan. There is none only where there is no greedy plan.
    pub plan: Option<Priced>,
    /// The tree's bound, below the plan's cost.
    pub bound: i128,
    pub tree: Tree,
    pub root: Root,
}

/// What was known of all plans before any split: `docs/PROOFS.md`, "Fractional plans".
#[derive(Clone, Copy, PartialEq, Eq, Debug)]
pub struct Root {
    /// The value of a leaf for all patterns of all trains, over its scale, in price units.
    pub value: Ratio,
    /// Why that may be another value than the least cost of a fractional plan. `None` where it is that cost.
    pub weak: Option<WeakCause>,
}

/// A feasible plan with its cost.
#[derive(Drop)]
pub struct Priced {
    pub plan: Plan,
    pub cost: i64,
}
