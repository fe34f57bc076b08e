//! The one call that the program makes: `run` carries out the command that its words name.
#![tactic(auto)]

mod asked;
mod bounding;
mod checking;
mod delivery;
mod given_proof;
mod instance;
mod judging;
mod limits;
mod listing;
mod making;
mod output;
mod plan_file;
mod proof_report;
mod reading;
mod report;
mod solve;
mod top;
mod trial;
mod work;

pub use top::{Status, run};
