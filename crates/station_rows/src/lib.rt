//! The rows of the bound of a node of the search, over the columns of a layout, and what points at which they hold say of
//! fractional plans: `docs/PROOFS.md`, "Fractional plans".
#![tactic(auto)]

mod cells;
mod fraction;
mod laws;
mod opening_rows;
mod planning;
mod reading;
mod row;

pub use fraction::{FractionPlan, PairTable};
pub use laws::{least_points_bound_plans, plans_are_points, points_are_plans, tables_make_plans};
pub use opening_rows::opening;
pub use planning::fraction_plan;
pub use reading::{pair_value_at, weights_of_point};
pub use row::{clique_row, pair_row, train_row, use_row};
