//! The words of a program's command: its options, each with a value, and its named arguments.
//!
//! Which words are plain is tested by five rules of its own. Plain words are then read with `clap`, as a simple
//! command that has exactly the arguments of a row of the program's table.
#![tactic(auto)]

mod command_row;
mod parsing;
mod plain;
mod usage;

pub use command_row::{CommandRow, OptionRow};
pub use parsing::plain_matches;
pub use plain::are_plain;
pub use usage::push_usage_line;

#[cfg(test)]
mod tests;
