//! Leaves, trees that share potentials, and texts of proofs, read and checked in pieces.
#![tactic(auto)]

#[cfg(test)]
mod tests;
