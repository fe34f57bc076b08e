// The texts of the reports: what a plan costs, all patterns, a conflict, and refusals.
#![tactic(auto)]

mod conflict;
mod cost;
mod listing;
mod names;
mod refused;
mod words;

pub use conflict::conflict_report;
pub use cost::cost_report;
pub use listing::patterns_report;
pub use refused::{plan_refused_report, window_report};

#[cfg(test)]
mod tests;
