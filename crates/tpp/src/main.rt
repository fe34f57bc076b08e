//! The train platforming planner for one station: runs the command that the words name.
#![tactic(auto)]

mod look;

use look::{Finding, look_at_files};
use platform_cli::{Status, run};
use shelf::{HostShelf, HostSink};
use std::alloc::AllocError;
use std::env;
use std::io::ErrorKind;
use std::process::ExitCode;
use std::rt::Env;

/// The status where memory ran out before the work.
const MEMORY: Status = Status { code: 8 };

/// The status where a file can't be written.
const WRITE_FAULT: Status = Status { code: 7 };

/// The words after the program's name. Where they aren't all text there are none.
fn words<R: Env + AllocGlobal>(rt: &R) -> Result<Vec<String>, AllocError> {
    let mut words = Vec::new(rt.alloc());
    match env::args(rt) {
        Ok(all) => {
            for word in all.skip(1) {
                words.push(word)?;
            }
        }
        Err(error) => {
            if error.kind() == ErrorKind::OutOfMemory {
                return Err(AllocError);
            }
        }
    }
    Ok(words)
}

// The words are carried out over the host's files and its standard output.
fn run_words(rt: &HostRuntime, words: &[String]) -> Status {
    let mut shelf = HostShelf::new(rt, rt.alloc());
    let mut sink = HostSink::new(rt);
    run(rt.alloc(), words, &mut shelf, &mut sink)
}

// Names of one file are refused as equal names are: by the usage text.
fn run_looked(rt: &HostRuntime, words: &[String]) -> Status {
    match look_at_files(rt, words) {
        Ok(Finding::Usable) => run_words(rt, words),
        Ok(Finding::OneFile) => run_words(rt, &[]),
        Ok(Finding::Unwritable) => WRITE_FAULT,
        Err(_) => MEMORY,
    }
}

fn main(rt: HostRuntime) -> ExitCode {
    let status = match words(&rt) {
        Ok(words) => run_looked(&rt, &words),
        Err(_) => MEMORY,
    };
    ExitCode::from(status.code)
}
