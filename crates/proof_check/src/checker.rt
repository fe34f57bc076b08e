ghost use Rattle.proof_check.specs.Reads.{IsSomewhere};
ghost use Rattle.proof_check.specs.Walk.{IsSound};
ghost use Rattle.proof_file.specs.Reader.{fed_of};
ghost use Rattle.std.proofs.Props.{props};
ghost use Rattle.std.specs.Prelude.{◌≡◌, ◌<◌, ◌^◌, None};

use crate::reading::Reading;
use crate::refused::CheckFault;
use leaf_bounds::Bound;
use pair_prices::Case;
use std::alloc::{AllocError, Global};

/// A proof has fewer bytes than this.
const MOST_BYTES: u64 = 1 << 63;

/// Checks a proof file that comes in pieces of any cut (`docs/FORMATS.md`). It keeps the tables, the open leaf, the open splits
/// with their lists and the line that isn't whole, and not the text.
#[derive(Drop)]
pub struct Checker<'a> {
    alloc: Global,
    case: &'a Case,
    reading: Reading,
    fault: Option<CheckFault>,
    ghost room: { fault ≡ None → fed_of reading.reader < 2 ^ 63 },
    ghost sound: { fault ≡ None → IsSound case.now reading.progress.walk } by { Prim.hlevel props },
    ghost somewhere: { fault ≡ None → IsSomewhere case.now reading },
}

impl<'a> Checker<'a> {
    ghost use Rattle.proof_check.specs.Check.{answered, case_in, fault_met, StandsFor};
    ghost use Rattle.proof_check.specs.Reads.{told};
    ghost use Rattle.proof_rules.specs.Verdict.{refusal_of, verdict};
    ghost use Rattle.std.specs.Result.{result_err};
    ghost use Rattle.std.specs.Prelude.{◌≡◌, ◌≢◌, ℕ, [], ◌++◌, List, Some, None, Err, IfOk};

    /// A checker that was fed no bytes.
    ///
    /// # Errors
    /// `AllocError` where the lists find no memory.
    pub fn new(alloc: Global, case: &'a Case) -> Result<Checker<'a>, AllocError>
        ensures stands { IfOk result (λ k. StandsFor k []) }
        ensures case { IfOk result (λ k. case_in k ≡ case.now) }
    {
        Ok(Checker {
            alloc,
            case,
            reading: Reading::new(alloc, case)?,
            fault: None,
        })
    }

    /// Checks the bytes up to the end of this piece.
    ///
    /// # Errors
    /// `Refused` with the first record that breaks a rule of proofs, or that stands behind the last, or with `Long` where 2^63
    /// bytes were fed, or `Memory`. Each later call answers it again.
    pub fn feed(&mut self, piece: &[u8]) -> Result<(), CheckFault>
        ensures case { case_in self.new ≡ case_in self.old }

        // Where it stood for bytes, it stands for them and the piece, and answers what is refused in them.
        ensures stands { (bytes : List ℕ) → StandsFor self.old bytes → result ≢ Err CheckFault.Memory
            → StandsFor self.new (bytes ++ piece.now) }
        ensures answer { (bytes : List ℕ) → StandsFor self.old bytes → result ≢ Err CheckFault.Memory
            → result ≡ told (refusal_of (case_in self.old) (bytes ++ piece.now)) }

        // A fault that was met is answered again.
        ensures met { fault_met self.new ≡ result_err result }
        ensures again { (fault : CheckFault) → fault_met self.old ≡ Some fault → result ≡ Err fault }
    {
        if let Some(fault) = self.fault {
            return Err(fault);
        }
        let read = self
            .reading
            .read_within(self.alloc, self.case, piece, MOST_BYTES);
        self.fault = read.err();
        read
    }

    /// The bound, where the bytes fed are a whole proof.
    ///
    /// # Errors
    /// The fault that `feed` answered, or `Cut` where the bytes end before the last record does.
    pub fn finish(self) -> Result<Bound, CheckFault>
        ensures answer { (bytes : List ℕ) → StandsFor self.entry bytes → fault_met self.entry ≡ None
            → result ≡ answered (verdict (case_in self.entry) bytes) }
        ensures again { (fault : CheckFault) → fault_met self.entry ≡ Some fault → result ≡ Err fault }
        ensures memory { result ≡ Err CheckFault.Memory → fault_met self.entry ≡ Some CheckFault.Memory }
    {
        if let Some(fault) = self.fault {
            return Err(fault);
        }
        self.reading.finish()
    }
}
