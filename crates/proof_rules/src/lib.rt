//! What the records of a proof file come to: a bound, or the first record that is refused (`docs/FORMATS.md`).
#![tactic(auto)]

mod laws;
mod refused;

pub use laws::{accepted_exactly, refusals_stay};
pub use refused::{ProofKind, ProofRefused};
