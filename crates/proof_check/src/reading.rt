ghost use Rattle.proof_check.specs.Reads.{behind_told, fault_told, finished, is_no_memory, IsAt, IsSomewhere, ReadsOn, ReadsWithin};
ghost use Rattle.proof_check.specs.Walk.{state_of, IsSound};
ghost use Rattle.proof_file.specs.Reader.{StandsFor as IsReaderOf, fed_of, told as reader_told};
ghost use Rattle.proof_file.specs.Reading.{fault_of, open_line};
ghost use Rattle.std.specs.Prelude.{◌≡◌, ◌≢◌, ℕ, ◌+◌, ◌<◌, ◌≤◌, ◌^◌, ◌++◌, [], false, List, length, IfOk, OnOk};
ghost use Rattle.proof_rules.specs.Verdict.{refused};
ghost use Rattle.proof_check.specs.declared.refused.CheckFault.TheVariants.{Refused};

use crate::progress::Progress;
use crate::refused::CheckFault;
use leaf_bounds::Bound;
use pair_prices::Case;
use proof_file::{ProofReader, ProofRecord, ReaderFault};
use proof_rules::{ProofKind, ProofRefused};
use std::alloc::{AllocError, Global};

/// Of how many bytes the records are held at a time.
const PART_BYTES: usize = 4096;

/// A proof file that is being read.
#[derive(Drop)]
pub(crate) struct Reading {
    pub reader: ProofReader,
    /// The records of the part that is being read.
    pub records: Vec<ProofRecord>,
    pub progress: Progress,
}

impl Reading {
    pub(crate) fn new(alloc: Global, case: &Case) -> Result<Reading, AllocError>
        ensures at { IfOk result (λ r. IsAt case.now r []) }
        ensures sound { IfOk result (λ r. IsSound case.now r.progress.walk) }
    {
        Ok(Reading {
            reader: ProofReader::new(alloc),
            records: Vec::new(alloc),
            progress: Progress::new(alloc, case)?,
        })
    }

    /// The bound, where the bytes read are a whole proof.
    pub(crate) fn finish(&self) -> Result<Bound, CheckFault>
        ensures { result ≡ finished self.now }
    {
        if self.progress.is_over() {
            Ok(self.progress.least())
        } else {
            Err(self.progress.refused(ProofKind::Cut))
        }
    }

    /// Reads on, up to `most` bytes in all, which are too many.
    pub(crate) fn read_within(
        &mut self,
        alloc: Global,
        case: &Case,
        piece: &[u8],
        most: u64,
    ) -> Result<(), CheckFault>
        requires limit { most ≤ 2 ^ 63 }
        requires room { fed_of self.old.reader < most }
        requires sound { IsSound case.now self.old.progress.walk }
        requires somewhere { IsSomewhere case.now self.old }
        ensures fed { OnOk result (fed_of self.new.reader < most) }
        ensures sound { OnOk result (IsSound case.now self.new.progress.walk) }
        ensures reads { (bytes : List ℕ) → IsAt case.now self.old bytes
            → ReadsWithin case.now most self.new bytes piece.now result }
    {
        let room = most - self.reader.fed();
        let count = room.min(piece.len() as u64) as usize;
        self.read(alloc, case, &piece[..count])?;
        if self.reader.fed() == most {
            return Err(self.progress.refused(ProofKind::Long));
        }
        Ok(())
    }

    /// Reads on, in parts.
    fn read(&mut self, alloc: Global, case: &Case, piece: &[u8]) -> Result<(), CheckFault>
        requires room { fed_of self.old.reader + length piece.now ≤ 2 ^ 63 }
        requires sound { IsSound case.now self.old.progress.walk }
        requires somewhere { IsSomewhere case.now self.old }
        ensures fed { OnOk result (fed_of self.new.reader ≡ fed_of self.old.reader + length piece.now) }
        ensures sound { OnOk result (IsSound case.now self.new.progress.walk) }
        ensures reads { (bytes : List ℕ) → IsAt case.now self.old bytes → ReadsOn case.now self.new bytes piece.now result }
    {
        let mut rest = piece;
        while !rest.is_empty() {
            let (part, behind) = rest.split_at(rest.len().min(PART_BYTES));
            self.read_part(alloc, case, part)?;
            rest = behind;
        }
        Ok(())
    }

    fn read_part(&mut self, alloc: Global, case: &Case, part: &[u8]) -> Result<(), CheckFault>
        requires room { fed_of self.old.reader + length part.now ≤ 2 ^ 63 }
        requires sound { IsSound case.now self.old.progress.walk }
        requires somewhere { IsSomewhere case.now self.old }
        ensures fed { fed_of self.new.reader ≡ fed_of self.old.reader + length part.now }
        ensures sound { OnOk result (IsSound case.now self.new.progress.walk) }
        ensures reads { (bytes : List ℕ) → IsAt case.now self.old bytes → ReadsOn case.now self.new bytes part.now result }
    {
        self.records.clear();
        let read = self.reader.feed(part, &mut self.records);
        if is_no_memory(&read) {
            return Err(CheckFault::Memory);
        }
        self.progress.go_on(alloc, case, self.records.as_slice())?;
        self.behind(read)
    }

    /// What is wrong with what stands behind the records.
    fn behind(&self, read: Result<(), ReaderFault>) -> Result<(), CheckFault>
        requires { is_no_memory read ≡ false }
        ensures { (bytes : List ℕ) → IsReaderOf self.now.reader bytes → read ≡ reader_told (fault_of bytes)
            → result ≡ behind_told (state_of self.now.progress.walk) self.now.progress.number (fault_of bytes) (open_line bytes) }
    {
        if !self.progress.is_over() {
            return read.map_err(fault_of);
        }
        match self.reader.finish() {
            Ok(()) => Ok(()),
            Err(_) => Err(self.progress.refused(ProofKind::Trail)),
        }
    }
}

/// Whether the reader found no memory.
fn is_no_memory(read: &Result<(), ReaderFault>) -> bool
    ensures { result ≡ is_no_memory read.now }
{
    matches!(read, Err(ReaderFault::Memory))
}

/// What the reader's fault says of the file.
fn fault_of(fault: ReaderFault) -> CheckFault
    ensures { result ≡ fault_told fault }
{
    match fault {
        ReaderFault::Memory => CheckFault::Memory,
        ReaderFault::Shape(at) => refused(ProofKind::Shape, at),
        ReaderFault::Number(at) => refused(ProofKind::Number, at),
        ReaderFault::Cut(at) => refused(ProofKind::Cut, at),
    }
}

fn refused(kind: ProofKind, at: u64) -> CheckFault
    ensures { result ≡ Refused (refused kind at) }
{
    CheckFault::Refused(ProofRefused { kind, at })
}
