//! The bound of a node of the search: a leaf that stands for the node's lists, and where it is exact a fractional plan of its value.
//! `docs/ALGORITHM.md`, and `docs/PROOFS.md`, "Fractional plans" and "Leaves".
#![tactic(auto)]

mod answer;
mod cliques;
mod ends;
mod hints;
mod look;
mod minutes;
mod pairs;
mod relaxing;
mod source;
mod spans;

pub use answer::{ExactBound, Relaxed, WeakBound};
pub use exact_lp::{Limits, WeakCause};
pub use hints::RelaxHints;
pub use relaxing::{relax, relax_with};
pub use station_rows::{FractionPlan, PairTable};
