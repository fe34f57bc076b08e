//! Linear programs and couplings that can be worked through by hand, and the columns of a station.
#![tactic(auto)]

#[cfg(test)]
mod tests;
