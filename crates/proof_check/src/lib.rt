//! The checker of proof files: a bound where the file is the text of a tree that stands, and else the first record that isn't.
#![tactic(auto)]

mod checker;
mod leaf;
mod order;
mod potentials;
mod progress;
mod reading;
mod refused;
mod side;
mod splits;
mod stage;
mod stop;
mod sums;
mod table;
mod tables;
mod walk;
mod whole;

pub use checker::Checker;
pub use proof_rules::{ProofKind, ProofRefused};
pub use refused::CheckFault;
pub use whole::check_proof;
