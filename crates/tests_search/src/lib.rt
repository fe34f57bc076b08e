//! Stations, plans, pairs that can meet, the ascent, and how many splits always decide.
#![tactic(auto)]

#[cfg(test)]
mod tests;
