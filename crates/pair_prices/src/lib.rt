//! Cases: what two patterns cost together or why they are forbidden, and a number above every plan's cost. What a plan and
//! its cost are is defined here (`docs/RULES.md`), and what a fractional plan is (`docs/PROOFS.md`).
#![tactic(auto)]

mod case;
mod overlaps;
mod pair;
mod top;
mod verdict;

pub use case::Case;
pub use overlaps::{held_path, held_platform, path_of};
pub use pair::{Pair, PathsOver, Why};
