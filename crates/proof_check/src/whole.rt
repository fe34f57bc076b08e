ghost use Rattle.proof_check.specs.Check.{answered};
ghost use Rattle.proof_file.specs.Accepted.{IsAccepted};
ghost use Rattle.proof_rules.specs.Verdict.{verdict};
ghost use Rattle.std.specs.Prelude.{◌≡◌, ◌≢◌, ◌↔◌, Err, Ok, IfOk};

use crate::checker::Checker;
use crate::refused::CheckFault;
use leaf_bounds::Bound;
use pair_prices::Case;
use proof_rules::accepted_exactly;
use std::alloc::Global;

/// The bound of a proof file that is accepted (`docs/FORMATS.md`).
///
/// # Errors
/// `Refused` with the first record at which the bytes are no such file, or `Memory`.
pub fn check_proof(alloc: Global, case: &Case, bytes: &[u8]) -> Result<Bound, CheckFault>
    ensures accepted { IfOk result (λ bound. IsAccepted case.now bound bytes.now) }
    ensures exact { (bound : Bound) → (verdict case.now bytes.now ≡ Ok bound) ↔ IsAccepted case.now bound bytes.now }
    ensures answer { result ≢ Err CheckFault.Memory → result ≡ answered (verdict case.now bytes.now) }
{
    accepted_exactly();
    let _ = case.station();
    let mut checker = Checker::new(alloc, case)?;
    checker.feed(bytes)?;
    checker.finish()
}
