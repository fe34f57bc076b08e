ghost use Rattle.proof_file.specs.Reader.{IsAt, IsSplitAtLine, ReadsOn, cut_at};
ghost use Rattle.proof_file.specs.Reading.{is_newline, line_read, version_after};
ghost use Rattle.std.specs.List.{list_any, position};
ghost use Rattle.std.specs.Prelude.{◌≡◌, ℕ, ◌+◌, ◌<◌, ◌≤◌, ◌^◌, [], ◌∷◌, ◌++◌, List, length, false, IfNone, IfSome, OnOk};

use crate::fault::{LineFault, ReaderFault};
use crate::kept::KeptLine;
use crate::line::record_in;
use crate::record::ProofRecord;

/// Where reading is in a file whose lines have no fault so far.
#[derive(Drop)]
pub(crate) struct LineReader {
    /// That of record 1, or 1.
    version: u8,
    /// The number of the line that isn't whole, from 1.
    number: u64,
    /// That line's bytes.
    kept: KeptLine,
}

impl LineReader {
    pub(crate) fn new() -> LineReader
        ensures { IsAt result [] }
    {
        LineReader {
            version: 1,
            number: 1,
            kept: KeptLine::new(),
        }
    }

    /// The fault of a line that the bytes end in.
    pub(crate) fn cut(&self) -> Option<ReaderFault>
        ensures { result ≡ cut_at self.now.number self.now.kept }
    {
        if self.kept.bytes().is_empty() {
            None
        } else {
            Some(ReaderFault::Cut(self.number))
        }
    }

    /// Adds the records of all lines that end in the piece, and keeps what stands behind them.
    pub(crate) fn read(
        &mut self,
        piece: &[u8],
        into: &mut Vec<ProofRecord>,
    ) -> Result<(), ReaderFault>
        ensures { (bytes : List ℕ) → IsAt self.old bytes → length bytes + length piece.now ≤ 2 ^ 63
            → ReadsOn bytes piece.now self.new into.old.items into.new.items result }
    {
        let mut rest = piece;
        while let Some((part, behind)) = split_line(rest) {
            self.end_line(part, into)?;
            rest = behind;
        }
        self.keep(rest)
    }

    /// Adds the record of the line that ends with this part.
    fn end_line(&mut self, part: &[u8], into: &mut Vec<ProofRecord>) -> Result<(), ReaderFault>
        ensures { (bytes : List ℕ) → IsAt self.old bytes → length bytes + length part.now < 2 ^ 63
            → list_any is_newline part.now ≡ false
            → ReadsOn bytes (part.now ++ 10 ∷ []) self.new into.old.items into.new.items result }
    {
        let record = match self.whole_line(part) {
            Ok(record) => record,
            Err(fault) => return Err(fault.at(self.number)),
        };
        into.push(record)?;
        self.version = version_after(self.number, self.version, &record);
        self.number = self.number.saturating_add(1);
        Ok(())
    }

    /// The record of the line that ends with this part.
    fn whole_line(&mut self, part: &[u8]) -> Result<ProofRecord, LineFault>
        ensures value { result ≡ line_read self.old.version (self.old.kept ++ part.now) }
        ensures same { self.new ≡ record self.old { kept = self.new.kept } }
        ensures kept { OnOk result (self.new.kept ≡ []) }
    {
        if self.kept.bytes().is_empty() {
            return record_in(self.version, part);
        }
        if !self.kept.extend(part) {
            return Err(LineFault::Shape);
        }
        let record = record_in(self.version, self.kept.bytes());
        self.kept.clear();
        record
    }

    /// Keeps a part of the line that isn't whole.
    fn keep(&mut self, part: &[u8]) -> Result<(), ReaderFault>
        ensures { (bytes : List ℕ) → IsAt self.old bytes → list_any is_newline part.now ≡ false
            → (records : List ProofRecord) → ReadsOn bytes part.now self.new records records result }
    {
        if self.kept.extend(part) {
            Ok(())
        } else {
            Err(ReaderFault::Shape(self.number))
        }
    }
}

/// The version once the record of this number was read.
fn version_after(number: u64, version: u8, read: &ProofRecord) -> u8
    ensures { result ≡ version_after number version read.now }
{
    match read {
        ProofRecord::Head(head) if number == 1 => head.version,
        _ => version,
    }
}

/// What stands before and behind the first newline.
fn split_line(bytes: &[u8]) -> Option<(&[u8], &[u8])>
    ensures found { IfSome result (λ parts. IsSplitAtLine bytes.now parts.0.now parts.1.now) }
    ensures none { IfNone result (list_any is_newline bytes.now ≡ false) }
{
    let end = newline_in(bytes)?;
    Some((&bytes[..end], &bytes[end + 1..]))
}

/// Where the first newline stands.
fn newline_in(bytes: &[u8]) -> Option<usize>
    ensures place { result ≡ position is_newline bytes.now }
    ensures within { IfSome result (λ end. end < length bytes.now) }
{
    bytes.iter().position(|byte| *byte == b'\n')
}
