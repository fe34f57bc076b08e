// A file of the host that is read on from where it was left.
ghost use Rattle.std.specs.Prelude.{◌≤◌, length, IfOk};

use crate::ShelfFault;
use std::alloc::Global;
use std::io::{ErrorKind, Read};
use std::rt::Files;
use std::{fs, io};

/// A file that was opened under a name, with the offset up to which it was read.
#[derive(Drop)]
pub(crate) struct HostInput<F> {
    name: String,
    file: F,
    reached: u64,
}

/// Reads once: on in the input that is open, if it is of this name and was read up to there, and else in the file that the name has
/// now, from its front. After an `Err` no input is open.
pub(crate) fn read_next<R: Files>(
    host: &R,
    alloc: Global,
    input: &mut Option<HostInput<R::File>>,
    name: &str,
    from: u64,
    into: &mut [u8],
) -> Result<usize, ShelfFault>
    ensures { IfOk result (λ count. count ≤ length into.old) }
{
    let mut open = match input.take() {
        Some(open) if open.reached == from && open.name.as_str() == name => open,
        _ => open_input(host, alloc, name, from)?,
    };
    match read_once(&mut open.file, into) {
        Ok(count) => {
            open.reached = from.saturating_add(count as u64);
            *input = Some(open);
            Ok(count)
        }
        Err(_) => Err(ShelfFault::Failed),
    }
}

// A file can't be begun behind its front, since a pipe has no way there.
fn open_input<R: Files>(
    host: &R,
    alloc: Global,
    name: &str,
    from: u64,
) -> Result<HostInput<R::File>, ShelfFault> {
    if from != 0 {
        return Err(ShelfFault::Failed);
    }
    let name = String::from_str(alloc, name)?;
    match fs::open(host, name.as_str()) {
        Ok(file) => Ok(HostInput {
            name,
            file,
            reached: 0,
        }),
        Err(_) => Err(ShelfFault::Failed),
    }
}

// A read that a signal interrupts is tried again.
fn read_once<F: Read>(file: &mut F, into: &mut [u8]) -> io::Result<usize>
    ensures { IfOk result (λ count. count ≤ length into.old) }
{
    for _ in 0..u64::MAX {
        match file.read(into) {
            Err(error) if error.kind() == ErrorKind::Interrupted => {}
            done => return done,
        }
    }
    Err(io::Error::from(ErrorKind::Interrupted))
}
