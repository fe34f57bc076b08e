// Files of the host that are written.
use crate::ShelfFault;
use crate::host_place::{end_of_links, split_place};
use std::alloc::{AllocError, Global};
use std::fs::{Metadata, OpenFile, OpenOptions, Permissions};
use std::io::{ErrorKind, Write};
use std::os::unix::fs::{MetadataExt, OpenOptionsExt, PermissionsExt};
use std::rt::Files;
use std::{fs, io};

/// The most files beside a name that are passed over, since they are there already.
const MOST_BESIDE: u32 = 10_000;

/// How a name is written.
#[derive(Drop)]
enum Way {
    /// It is opened and written to: a pipe, a device, or a file that has lost its name.
    Directly,
    /// A file is made beside this place, and renamed. It gets the permissions of the one that is there.
    Beside(String, Option<Permissions>),
}

/// A file that was made in the folder of a place.
#[derive(Drop)]
struct Beside<F> {
    name: String,
    file: F,
}

/// Whether a name can be written, as far as that is known before: nothing is written, and what the name holds stays
/// as it is. `Failed` says that it can't.
pub fn try_write<R: Files>(host: &R, alloc: Global, name: &str) -> Result<(), ShelfFault> {
    if let Way::Beside(place, permissions) = way_to(host, alloc, name)? {
        let beside = make_beside(host, alloc, place.as_str(), &permissions)?;
        fs::remove_file(host, beside.name.as_str()).map_err(fault_of)?;
    }
    Ok(())
}

/// Replaces what a name holds. At any moment a regular file holds its old bytes or the new ones. `Memory` comes before
/// anything was changed.
pub(crate) fn replace_file<R: Files>(
    host: &R,
    alloc: Global,
    name: &str,
    bytes: &[u8],
) -> Result<(), ShelfFault> {
    let written = match way_to(host, alloc, name)? {
        Way::Directly => write_directly(host, name, bytes),
        Way::Beside(place, permissions) => {
            let beside = make_beside(host, alloc, place.as_str(), &permissions)?;
            write_beside(host, beside, place.as_str(), permissions, bytes)
        }
    };
    written.map_err(|_| ShelfFault::Failed)
}

fn fault_of(error: io::Error) -> ShelfFault {
    if error.kind() == ErrorKind::OutOfMemory {
        ShelfFault::Memory
    } else {
        ShelfFault::Failed
    }
}

fn way_to<R: Files>(host: &R, alloc: Global, name: &str) -> Result<Way, ShelfFault> {
    match fs::metadata(host, name) {
        Ok(found) => way_over(host, alloc, name, &found).map_err(fault_of),
        Err(error) if error.kind() == ErrorKind::NotFound => {
            let place = end_of_links(host, alloc, name).map_err(fault_of)?;
            Ok(Way::Beside(place, None))
        }
        Err(error) => Err(fault_of(error)),
    }
}

// A file that may not be written isn't replaced either, so it is opened for that.
fn way_over<R: Files>(host: &R, alloc: Global, name: &str, found: &Metadata) -> io::Result<Way> {
    if found.is_dir() {
        return Err(io::Error::from(ErrorKind::IsADirectory));
    }
    if !found.is_file() || found.nlink() == 0 {
        return Ok(Way::Directly);
    }
    OpenOptions::new().write(true).open(host, name)?;
    let place = end_of_links(host, alloc, name)?;
    Ok(Way::Beside(place, Some(found.permissions())))
}

fn write_directly<R: Files>(host: &R, name: &str, bytes: &[u8]) -> io::Result<()> {
    let mut file = OpenOptions::new()
        .write(true)
        .truncate(true)
        .open(host, name)?;
    file.write_all(bytes)
}

// Makes a file with a new name in the folder of a place.
fn make_beside<R: Files>(
    host: &R,
    alloc: Global,
    place: &str,
    permissions: &Option<Permissions>,
) -> Result<Beside<R::File>, ShelfFault> {
    for number in 0..MOST_BESIDE {
        let name = beside_name(alloc, place, number)?;
        match options_of(permissions).open(host, name.as_str()) {
            Ok(file) => return Ok(Beside { name, file }),
            Err(error) if error.kind() == ErrorKind::AlreadyExists => {}
            Err(error) => return Err(fault_of(error)),
        }
    }
    Err(ShelfFault::Failed)
}

fn beside_name(alloc: Global, place: &str, number: u32) -> Result<String, AllocError> {
    let (folder, _) = split_place(place);
    format!(in alloc; "{folder}.tpp-{number}")
}

// Nobody may read the new file who may not read the old one.
fn options_of(permissions: &Option<Permissions>) -> OpenOptions {
    let mut options = OpenOptions::new();
    options.write(true).create_new(true);
    if let Some(permissions) = permissions {
        options.mode(permissions.mode() & 0o777);
    }
    options
}

// Where it fails, the file beside is removed.
fn write_beside<R: Files>(
    host: &R,
    beside: Beside<R::File>,
    place: &str,
    permissions: Option<Permissions>,
    bytes: &[u8],
) -> io::Result<()> {
    let Beside { name, file } = beside;
    let written = match fill(file, permissions, bytes) {
        Ok(()) => fs::rename(host, name.as_str(), place),
        Err(error) => Err(error),
    };
    if written.is_err() {
        let _ = fs::remove_file(host, name.as_str());
    }
    written
}

// Once its bytes are on the disk, closing it can't lose any.
fn fill<F: Write + OpenFile + Drop>(
    mut file: F,
    permissions: Option<Permissions>,
    bytes: &[u8],
) -> io::Result<()> {
    if let Some(permissions) = permissions {
        file.set_permissions(permissions)?;
    }
    file.write_all(bytes)?;
    file.sync_all()
}
