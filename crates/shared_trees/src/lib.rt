//! Trees that share potentials stand for the trees that they were made of, and so do their written proofs.
#![tactic(auto)]

mod laws;
mod write;

pub use laws::{expansions_are_leaves, shared_tree_stands};
pub use write::written_proof;
