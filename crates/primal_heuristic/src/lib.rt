//! First plans: a greedy one, and plans found by a search that keeps the best few beginnings. What is proved of a plan is that it is
//! feasible and not dearer than the one that was given; how good it is depends on choices that are measured.
#![tactic(auto)]

mod added;
mod beam;
mod beginning;
mod board;
mod candidates;
mod greedy_plan;
mod hashes;
mod improving;
mod known;
mod links;
mod openings;
mod prices;
mod rounds;
mod single_moves;
mod steps;

pub use greedy_plan::greedy;
pub use improving::{improve, improve_in, plan_in};
