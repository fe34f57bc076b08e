//! A lower bound for the plans of given lists, by subgradient ascent in whole numbers. How the ascent goes isn't proved: what is
//! handed out is a leaf that was checked.
#![tactic(auto)]

mod ascend;
mod better;
mod climbing;
mod coupling;
mod cut;
mod cuts;
mod draft;
mod drawing;
mod field;
mod goal;
mod headroom;
mod hints;
mod holds;
mod lists;
mod numbers;
mod packing;
mod pairing;
mod places;
mod potentials;
mod price_table;
mod ranges;
mod seeds;
mod separation;
mod support;
mod walk;

pub use climbing::{climb, probe};
pub use draft::{Draft, leaf_of};
pub use hints::{Climbed, Hints};
pub use places::are_places;
