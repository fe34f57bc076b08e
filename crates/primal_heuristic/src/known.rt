use plan_cost::Plan;

/// A feasible plan and its cost.
#[derive(Drop)]
pub(crate) struct Known {
    pub(crate) plan: Plan,
    pub(crate) cost: i64,
}
