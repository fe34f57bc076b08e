ghost use Rattle.proof_file.specs.Reader.{AddsFront, StandsFor, cut_of, fault_met, fed_of, new_records, told};
ghost use Rattle.proof_file.specs.Reading.{fault_of};
ghost use Rattle.std.specs.Option.{option_or};
ghost use Rattle.std.specs.Result.{result_err};
ghost use Rattle.std.specs.Prelude.{◌≡◌, ◌≢◌, ℕ, ◌+◌, ◌≤◌, ◌^◌, [], ◌++◌, List, length, Some, None};

use crate::fault::ReaderFault;
use crate::lines::LineReader;
use crate::record::ProofRecord;
use std::alloc::Global;

/// Reads a proof file that comes in pieces of any cut (`docs/FORMATS.md`). It stands for the bytes fed, and keeps of them
/// their count, the version, the line that isn't whole and its number, and the first fault.
#[derive(Drop)]
pub struct ProofReader {
    fed: u64,
    fault: Option<ReaderFault>,
    lines: LineReader,
}

impl ProofReader {
    /// A reader that stands for no bytes. It takes no memory.
    pub fn new(_alloc: Global) -> ProofReader
        ensures { StandsFor result [] }
    {
        ProofReader {
            fed: 0,
            fault: None,
            lines: LineReader::new(),
        }
    }

    /// The count of bytes fed.
    pub fn fed(&self) -> u64
        ensures { result ≡ fed_of self.now }
    {
        self.fed
    }

    /// Adds the records of all lines that end in this piece, up to the first fault. It reads on behind an `end` or `none` record.
    ///
    /// # Errors
    /// The first fault of the bytes fed, or `Memory`. Each later call answers it again, and adds nothing.
    pub fn feed(&mut self, piece: &[u8], into: &mut Vec<ProofRecord>) -> Result<(), ReaderFault>
        requires { fed_of self.old + length piece.now ≤ 2 ^ 63 }
        ensures fed { fed_of self.new ≡ fed_of self.old + length piece.now }

        // Where it stood for bytes, it stands for them and the piece: it answers their fault, and has added their records.
        ensures stands { (bytes : List ℕ) → StandsFor self.old bytes → result ≢ Err ReaderFault.Memory
            → StandsFor self.new (bytes ++ piece.now) }
        ensures answer { (bytes : List ℕ) → StandsFor self.old bytes → result ≢ Err ReaderFault.Memory
            → result ≡ told (fault_of (bytes ++ piece.now)) }
        ensures records { (bytes : List ℕ) → StandsFor self.old bytes → result ≢ Err ReaderFault.Memory
            → into.new.items ≡ into.old.items ++ new_records bytes piece.now }
        ensures memory { (bytes : List ℕ) → StandsFor self.old bytes → result ≡ Err ReaderFault.Memory
            → AddsFront into.old.items into.new.items (new_records bytes piece.now) }

        // A fault that was met is answered again.
        ensures met { fault_met self.new ≡ result_err result }
        ensures again { (fault : ReaderFault) → fault_met self.old ≡ Some fault
            → (result ≡ Err fault) × (into.new.items ≡ into.old.items) }
    {
        self.fed += piece.len() as u64;
        if let Some(fault) = self.fault {
            return Err(fault);
        }
        let read = self.lines.read(piece, into);
        self.fault = read.err();
        read
    }

    /// Whether the bytes fed are whole lines. It changes nothing: a later piece may complete the line.
    ///
    /// # Errors
    /// The fault that `feed` answered, or `Cut` where the bytes end inside a line.
    pub fn finish(&self) -> Result<(), ReaderFault>
        ensures answer { (bytes : List ℕ) → StandsFor self.now bytes
            → result ≡ told (option_or (fault_of bytes) (cut_of bytes)) }
        ensures again { (fault : ReaderFault) → fault_met self.now ≡ Some fault → result ≡ Err fault }
        ensures memory { result ≡ Err ReaderFault.Memory → fault_met self.now ≡ Some ReaderFault.Memory }
    {
        if let Some(fault) = self.fault {
            return Err(fault);
        }
        match self.lines.cut() {
            Some(fault) => Err(fault),
            None => Ok(()),
        }
    }
}
