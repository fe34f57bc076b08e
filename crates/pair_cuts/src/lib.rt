//! Cuts on pairs of trains in a fractional plan: numbers that bound from below what the two trains' weights cost together, taken
//! from a least coupling of them. `docs/PROOFS.md`, "Fractional plans".
#![tactic(auto)]

mod capped;
mod costs;
mod coupled;
mod cut;
mod potentials;
mod separation;

pub use coupled::least_table;
pub use cut::{CutFault, PairCut};
pub use separation::violated_pair;
