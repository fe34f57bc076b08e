//! The columns of the bound of a node, numbered by a layout, and a source of them that prices them by need:
//! `docs/PROOFS.md`, "Fractional plans".
#![tactic(auto)]

mod column;
mod layout;
mod paid;
mod pick;
mod prices;
mod pricing;
mod reduced;
mod starts;

pub use column::{Column, PairAt, WeightAt};
pub use layout::Layout;
pub use pricing::PatternPricing;
