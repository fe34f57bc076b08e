//! Rows for platforms in a fractional plan: the first minute of a platform at which the weights of the patterns that hold it
//! are more than its use. `docs/PROOFS.md`, "Fractional plans".
#![tactic(auto)]

mod cut;
mod held;
mod laws;
mod search;

pub use cut::CliqueCut;
pub use laws::arrivals_suffice;
pub use search::violated_clique;
