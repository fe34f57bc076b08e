//! The allowed patterns of each train, and their prices: `docs/RULES.md`, "Allowed patterns" and "The price of a
//! pattern".
#![tactic(auto)]

mod allowed;
mod book;
mod charge;
mod list;
mod offer;
mod row;
mod weights;

pub use allowed::{Allowed, SplitFault, TwoParts};
pub use book::Book;
pub use charge::price;
pub use list::patterns_of;
pub use offer::Offer;
pub use weights::Weights;
