// Plans: whether one is feasible, what it costs, and its text.
#![tactic(auto)]

mod clash;
mod costs;
mod judging;
mod laws;
mod plan;
mod reading;
mod record;
mod refusal;
mod verdict;
mod writing;

pub use judging::judge;
pub use laws::texts_are_unique;
pub use plan::Plan;
pub use reading::read_plan;
pub use refusal::{PlanFault, PlanKind, PlanRefused};
pub use verdict::{Clash, Costs, Verdict};
pub use writing::write_plan;
