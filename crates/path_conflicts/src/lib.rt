//! Which paths can't be used at once, and for how many minutes two spans are held at once: `docs/RULES.md`, "Minutes
//! held" and "Conflicts".
#![tactic(auto)]

mod held;
mod table;

pub use held::{Held, meet_minutes};
pub use table::Conflicts;
