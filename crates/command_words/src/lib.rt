//! The words of the program: the command that they are, with its names and numbers, and the usage text.
//!
//! One table of commands decides which words are plain, what `clap` reads them by, and what the usage text says.
#![tactic(auto)]

mod command;
mod number;
mod reading;
mod table;
mod usage_text;

pub use command::{Bound, Chart, Check, Command, Cost, Generated, Patterns, Solve};
pub use reading::read_words;
pub use usage_text::usage;

#[cfg(test)]
mod tests;
