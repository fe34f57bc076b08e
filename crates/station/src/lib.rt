//! A station: its parts, their limits, the names that it may declare, and the patterns that its rules allow a train.
#![tactic(auto)]

mod copy;
mod name;
mod part;
mod rules;
mod station;

pub use name::Name;
pub use part::{Path, PathPair, PathWay, Pattern, Platform, Surcharge, Train};
pub use rules::lists_allowed_patterns;
pub use station::Station;
