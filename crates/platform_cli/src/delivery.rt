// An output given: its files are written, and then its text is put line by line.
ghost use Rattle.std.specs.Prelude.{◌≡◌, ◌⊎◌, ◌<◌, ◌≤◌, ◌≢◌, ◌-◌, List, ℕ, map, length, OnOk, OnErr, IsErrOf, slice_index, All, take, drop};
ghost use Rattle.std.specs.Io.KnownBytes.{Appends, Keeps};
ghost use Rattle.shelf.specs.Outside.{Same, AppendsPrefix, Rose, HasSinkCause};
ghost use Rattle.platform_cli.specs.Run.{HoldsFiles, IsGivenInPart, IsNamed, StopsAtFile};
ghost use Rattle.platform_cli.specs.Statuses.{stop_of};
ghost use Rattle.platform_cli.specs.View.{file_of, outcome_of};

use crate::output::{Output, OutputFile, Stop};
use shelf::{Shelf, ShelfFault, Sink};

/// Writes the files of an output, and then puts its text.
pub(crate) fn deliver<S: Shelf, K: Sink>(
    shelf: &mut S,
    out: &mut K,
    output: &Output,
) -> Result<(), Stop>
    ensures files { OnOk result (HoldsFiles S.tells (map file_of output.now.files.items) (S.held shelf.old) (S.held shelf.new)) }
    ensures text { OnOk result (Appends (K.written out.old) (K.written out.new) output.now.text.items) }
    ensures part { OnErr result (IsGivenInPart S.tells (outcome_of output.now) (S.held shelf.old) (S.held shelf.new)
        (S.write_faults shelf.old) (S.write_faults shelf.new) (K.written out.old) (K.written out.new)) }
    ensures cause { IsErrOf result Stop.WriteFault →
        ((name : List ℕ) × IsNamed (map file_of output.now.files.items) name × (S.write_faults shelf.old name < S.write_faults shelf.new name))
        ⊎ Rose (K.faults out.old) (K.faults out.new) }
    ensures no_read { IsErrOf result Stop.ReadFault → ⊥ }
    ensures reads { Same (S.read_faults shelf.old) (S.read_faults shelf.new) }
{
    write_files(shelf, &output.files).map_err(stop_of)?;
    put_lines(out, &output.text).map_err(stop_of)
}

fn stop_of(fault: ShelfFault) -> Stop
    ensures { result ≡ stop_of fault }
{
    match fault {
        ShelfFault::Failed => Stop::WriteFault,
        ShelfFault::Memory => Stop::Memory,
    }
}

fn write_files<S: Shelf>(shelf: &mut S, files: &[OutputFile]) -> Result<(), ShelfFault>
    ensures files { OnOk result (HoldsFiles S.tells (map file_of files.now) (S.held shelf.old) (S.held shelf.new)) }
    ensures stopped { OnErr result (StopsAtFile S.tells (map file_of files.now) (S.held shelf.old) (S.held shelf.new)
        (S.write_faults shelf.old) (S.write_faults shelf.new)) }
    ensures cause { IsErrOf result ShelfFault.Failed →
        (name : List ℕ) × IsNamed (map file_of files.now) name × (S.write_faults shelf.old name < S.write_faults shelf.new name) }
    ensures reads { Same (S.read_faults shelf.old) (S.read_faults shelf.new) }
{
    for file in files {
        shelf.write(&file.name, &file.bytes)?;
    }
    Ok(())
}

/// Puts a text, each line with its newline by one put.
fn put_lines<K: Sink>(out: &mut K, text: &[u8]) -> Result<(), ShelfFault>
    ensures text { OnOk result (Appends (K.written out.old) (K.written out.new) text.now) }
    ensures front { OnErr result (AppendsPrefix (K.written out.old) (K.written out.new) text.now) }
    ensures cause { HasSinkCause (K.faults out.old) (K.faults out.new) result }
{
    let mut done = 0;
    while done < text.len() {
        let end = line_end(text, done);
        out.put(&text[done..end])?;
        done = end;
    }
    Ok(())
}

// Where the line that begins at a place ends: behind its newline, or at the text's end.
fn line_end(text: &[u8], from: usize) -> usize
    requires { from < length text.now }
    ensures some { from < result }
    ensures within { result ≤ length text.now }
    ensures one_line { All (λ byte. byte ≢ 10) (take (result - 1 - from) (drop from text.now)) }
    ensures ended { (result ≡ length text.now) ⊎ (slice_index text.now (result - 1) ≡ 10) }
{
    match text[from..].iter().position(|byte| *byte == b'\n') {
        Some(length) => from + length + 1,
        None => text.len(),
    }
}
