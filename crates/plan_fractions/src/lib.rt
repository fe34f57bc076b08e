//! Feasible plans as fractional plans: what the root value of a case says of its plans. `docs/PROOFS.md`, "Fractional plans".
#![tactic(auto)]

mod laws;

pub use laws::{plan_is_fractional, root_value_bounds, top_means_no_plan};
