//! Exact duals of the bound of a node as a leaf, which stands for the node's lists and has the very value of the duals:
//! `docs/ALGORITHM.md` and `docs/PROOFS.md`, "Leaves".
#![tactic(auto)]

mod account;
mod divide;
mod excess;
mod fault;
mod key;
mod kind;
mod latest;
mod leaf;
mod lists;
mod numbers;
mod pairs;
mod read;
mod sums;

pub use fault::DualFault;
pub use leaf::leaf_of_duals;
