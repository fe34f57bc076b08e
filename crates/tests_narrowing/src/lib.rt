//! A leaf that is narrowed to fewer patterns, on a station that can be worked through by hand.
#![tactic(auto)]

#[cfg(test)]
mod tests;
