// What the host says of a command's files before its work.
use command_words::{Command, read_words};
use shelf::{ShelfFault, are_one_file, try_write};
use std::alloc::AllocError;

/// The report of a command goes here.
const REPORT: &str = "/dev/stdout";

/// What the files that a command writes are on the host.
#[derive(Clone, Copy)]
pub(crate) enum Finding {
    /// Nothing stands against the work.
    Usable,
    /// One of them is the instance too, the other one, or the file that takes the report.
    OneFile,
    /// One of them can't be written.
    Unwritable,
}

/// Looks at the files that the command of these words writes. A command without such files is `Usable`, and so are words
/// that are no command.
pub(crate) fn look_at_files(rt: &HostRuntime, words: &[String]) -> Result<Finding, AllocError> {
    match read_words(rt.alloc(), words) {
        Ok(Some(Command::Solve(solve))) => look_at_solve(
            rt,
            solve.instance,
            solve.plan,
            solve.proof,
        ),
        Ok(_) => Ok(Finding::Usable),
        Err(error) => Err(error),
    }
}

fn look_at_solve(
    rt: &HostRuntime,
    instance: &str,
    plan: Option<&str>,
    proof: Option<&str>,
) -> Result<Finding, AllocError> {
    if is_taken(rt, plan, instance)?
        || is_taken(rt, proof, instance)?
        || are_one(rt, plan, proof)?
    {
        return Ok(Finding::OneFile);
    }
    if can_write(rt, plan)? && can_write(rt, proof)? {
        Ok(Finding::Usable)
    } else {
        Ok(Finding::Unwritable)
    }
}

// Whether a file is the instance, or takes the report.
fn is_taken(rt: &HostRuntime, file: Option<&str>, instance: &str) -> Result<bool, AllocError> {
    match file {
        Some(file) => Ok(is_file(rt, file, instance)? || is_file(rt, file, REPORT)?),
        None => Ok(false),
    }
}

fn are_one(rt: &HostRuntime, plan: Option<&str>, proof: Option<&str>) -> Result<bool, AllocError> {
    match (plan, proof) {
        (Some(plan), Some(proof)) => is_file(rt, plan, proof),
        _ => Ok(false),
    }
}

fn is_file(rt: &HostRuntime, file: &str, name: &str) -> Result<bool, AllocError> {
    are_one_file(rt, rt.alloc(), file, name)
}

fn can_write(rt: &HostRuntime, file: Option<&str>) -> Result<bool, AllocError> {
    let Some(file) = file else {
        return Ok(true);
    };
    match try_write(rt, rt.alloc(), file) {
        Ok(()) => Ok(true),
        Err(ShelfFault::Failed) => Ok(false),
        Err(ShelfFault::Memory) => Err(AllocError),
    }
}
