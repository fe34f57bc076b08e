// The proof that a command checks: each piece that is read of its file is fed to a checker, and no more is read once the
// checker has refused it.
ghost use Rattle.std.specs.Prelude.{◌≡◌, ◌<◌, ◌≤◌, List, ℕ, length, IfOk, OnOk, IsErrOf, IsSome, IsTrue, None, Some};
ghost use Rattle.shelf.specs.Outside.{Same};
ghost use Rattle.platform_cli.specs.Instance.{IsProof};
ghost use Rattle.platform_cli.specs.Fed.{IsFed, IsFedOn};
ghost use Rattle.platform_cli.specs.View.{proof_reading_of};
ghost use Rattle.proof_check.specs.Check.{StandsFor, case_in};
ghost use Rattle.proof_rules.specs.Verdict.{refusal_of, verdict};
ghost use Rattle.std.specs.declared.option.Option.{Option};

use crate::instance::read_stop_of;
use crate::output::Stop;
use crate::reading::zeros;
use leaf_bounds::Bound;
use pair_prices::Case;
use proof_check::{CheckFault, Checker, ProofRefused};
use shelf::Shelf;
use std::alloc::Global;

/// How many bytes are asked for at once.
const PIECE: usize = 65_536;

/// A proof has fewer bytes: a checker refuses one that goes on for as many.
const MOST_BYTES: u64 = 1 << 63;

/// What the bytes of a proof come to.
#[derive(Clone, Copy, Drop)]
pub(crate) enum GivenProof {
    Accepted(Bound),
    Refused(ProofRefused),
}

/// What a read of the file brought.
#[derive(Clone, Copy, Drop)]
pub(crate) enum Fed {
    /// So many bytes more.
    More(u64),
    End,
    Refused(ProofRefused),
}

/// Reads the proof of this name, and checks it.
pub(crate) fn read_given_proof<S: Shelf>(
    alloc: Global,
    shelf: &mut S,
    name: &str,
    case: &Case,
) -> Result<GivenProof, Stop>
    ensures read { IfOk result (λ given. IsProof S.tells (S.held shelf.old) name.now case.now (proof_reading_of given)) }
    ensures held { Same (S.held shelf.old) (S.held shelf.new) }
    ensures cause { IsErrOf result Stop.ReadFault → S.read_faults shelf.old name.now < S.read_faults shelf.new name.now }
    ensures later { (other : List ℕ) → S.read_faults shelf.old other ≤ S.read_faults shelf.new other }
    ensures no_write { IsErrOf result Stop.WriteFault → ⊥ }
    ensures writes { Same (S.write_faults shelf.old) (S.write_faults shelf.new) }
{
    let mut piece = zeros(alloc, PIECE)?;
    let checker = Checker::new(alloc, case)?;
    check_by_pieces(shelf, name, checker, &mut piece)
}

// Goes on until the file ends, or the checker refuses it: at the latest where it was fed 2^63 bytes.
fn check_by_pieces<S: Shelf>(
    shelf: &mut S,
    name: &str,
    mut checker: Checker<'_>,
    piece: &mut [u8],
) -> Result<GivenProof, Stop>
    requires room { 0 < length piece.old }
    requires fed { (held : Option (List ℕ)) → IsFed held (case_in checker) checker 0 }
    ensures read { IfOk result (λ given. IsProof S.tells (S.held shelf.old) name.now (case_in checker.entry) (proof_reading_of given)) }
    ensures held { Same (S.held shelf.old) (S.held shelf.new) }
    ensures cause { IsErrOf result Stop.ReadFault → S.read_faults shelf.old name.now < S.read_faults shelf.new name.now }
    ensures later { (other : List ℕ) → S.read_faults shelf.old other ≤ S.read_faults shelf.new other }
    ensures no_write { IsErrOf result Stop.WriteFault → ⊥ }
    ensures writes { Same (S.write_faults shelf.old) (S.write_faults shelf.new) }
{
    let mut from = 0;
    while from < MOST_BYTES {
        match feed_piece(shelf, name, from, &mut checker, piece)? {
            Fed::More(count) => from += count,
            Fed::End => return finished(checker),
            Fed::Refused(refused) => return Ok(GivenProof::Refused(refused)),
        }
    }
    finished(checker)
}

// Reads once, and feeds what was read.
fn feed_piece<S: Shelf>(
    shelf: &mut S,
    name: &str,
    from: u64,
    checker: &mut Checker<'_>,
    piece: &mut [u8],
) -> Result<Fed, Stop>
    requires room { 0 < length piece.old }
    requires fed { IsFed (S.held shelf.old name.now) (case_in checker.old) checker.old from }
    ensures fed { IfOk result (λ fed. IsFedOn (S.held shelf.old name.now) (case_in checker.old) checker.new from fed) }
    ensures case { case_in checker.new ≡ case_in checker.old }
    ensures room { length piece.new ≡ length piece.old }
    ensures told { OnOk result (IsTrue S.tells → IsSome (S.held shelf.old name.now)) }
    ensures held { Same (S.held shelf.old) (S.held shelf.new) }
    ensures cause { IsErrOf result Stop.ReadFault → S.read_faults shelf.old name.now < S.read_faults shelf.new name.now }
    ensures later { (other : List ℕ) → S.read_faults shelf.old other ≤ S.read_faults shelf.new other }
    ensures no_write { IsErrOf result Stop.WriteFault → ⊥ }
    ensures writes { Same (S.write_faults shelf.old) (S.write_faults shelf.new) }
{
    let count = shelf.read(name, from, piece).map_err(read_stop_of)?;
    if count == 0 {
        return Ok(Fed::End);
    }
    match checker.feed(&piece[..count]) {
        Ok(()) => Ok(Fed::More(count as u64)),
        Err(CheckFault::Refused(refused)) => Ok(Fed::Refused(refused)),
        Err(CheckFault::Memory) => Err(Stop::Memory),
    }
}

/// Checks the text of a proof, in pieces as a file's are read.
pub(crate) fn check_text(alloc: Global, case: &Case, text: &[u8]) -> Result<GivenProof, Stop>
    ensures read { IfOk result (λ given. proof_reading_of given ≡ verdict case.now text.now) }
    ensures no_read { IsErrOf result Stop.ReadFault → ⊥ }
    ensures no_write { IsErrOf result Stop.WriteFault → ⊥ }
{
    let checker = Checker::new(alloc, case)?;
    check_text_by_pieces(checker, text)
}

fn check_text_by_pieces(mut checker: Checker<'_>, text: &[u8]) -> Result<GivenProof, Stop>
    requires fed { IsFed (Some text.now) (case_in checker) checker 0 }
    ensures read { IfOk result (λ given. proof_reading_of given ≡ verdict (case_in checker.entry) text.now) }
    ensures no_read { IsErrOf result Stop.ReadFault → ⊥ }
    ensures no_write { IsErrOf result Stop.WriteFault → ⊥ }
{
    let mut from = 0;
    while from < text.len() {
        let end = text.len().min(from + PIECE);
        match checker.feed(&text[from..end]) {
            Ok(()) => from = end,
            Err(CheckFault::Refused(refused)) => return Ok(GivenProof::Refused(refused)),
            Err(CheckFault::Memory) => return Err(Stop::Memory),
        }
    }
    finished(checker)
}

fn finished(checker: Checker<'_>) -> Result<GivenProof, Stop>
    ensures answer { (bytes : List ℕ) → StandsFor checker.entry bytes → refusal_of (case_in checker.entry) bytes ≡ None
        → IfOk result (λ given. proof_reading_of given ≡ verdict (case_in checker.entry) bytes) }
    ensures no_read { IsErrOf result Stop.ReadFault → ⊥ }
    ensures no_write { IsErrOf result Stop.WriteFault → ⊥ }
{
    match checker.finish() {
        Ok(bound) => Ok(GivenProof::Accepted(bound)),
        Err(CheckFault::Refused(refused)) => Ok(GivenProof::Refused(refused)),
        Err(CheckFault::Memory) => Err(Stop::Memory),
    }
}
