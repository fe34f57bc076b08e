// What a name stands for on the host.
use std::alloc::{AllocError, Global};
use std::fs::Metadata;
use std::io::ErrorKind;
use std::os::unix::fs::MetadataExt;
use std::rt::Files;
use std::{fs, io};

/// The most links that are followed from one name.
const MOST_LINKS: u32 = 40;

/// Whether two names stand for one regular file, or, where nothing is there yet, for one place of a folder. It is
/// `false` where the host doesn't say.
pub fn are_one_file<R: Files>(
    host: &R,
    alloc: Global,
    first: &str,
    second: &str,
) -> Result<bool, AllocError> {
    match (fs::metadata(host, first), fs::metadata(host, second)) {
        (Ok(first), Ok(second)) => Ok(first.is_file() && is_same_node(&first, &second)),
        (Err(_), Err(_)) => are_one_place(host, alloc, first, second),
        _ => Ok(false),
    }
}

fn is_same_node(first: &Metadata, second: &Metadata) -> bool {
    first.dev() == second.dev() && first.ino() == second.ino()
}

fn are_one_place<R: Files>(
    host: &R,
    alloc: Global,
    first: &str,
    second: &str,
) -> Result<bool, AllocError> {
    let first = match end_of_links(host, alloc, first) {
        Ok(place) => place,
        Err(error) => return unknown_unless_memory(&error),
    };
    let second = match end_of_links(host, alloc, second) {
        Ok(place) => place,
        Err(error) => return unknown_unless_memory(&error),
    };
    let (first_folder, first_entry) = split_place(first.as_str());
    let (second_folder, second_entry) = split_place(second.as_str());
    Ok(first_entry == second_entry && are_one_folder(host, first_folder, second_folder))
}

fn unknown_unless_memory(error: &io::Error) -> Result<bool, AllocError> {
    if error.kind() == ErrorKind::OutOfMemory {
        Err(AllocError)
    } else {
        Ok(false)
    }
}

fn are_one_folder<R: Files>(host: &R, first: &str, second: &str) -> bool {
    match (folder_metadata(host, first), folder_metadata(host, second)) {
        (Ok(first), Ok(second)) => is_same_node(&first, &second),
        _ => false,
    }
}

fn folder_metadata<R: Files>(host: &R, folder: &str) -> io::Result<Metadata> {
    fs::metadata(host, if folder.is_empty() { "." } else { folder })
}

/// The name at the end of a name's links, whether or not something is there.
pub(crate) fn end_of_links<R: Files>(host: &R, alloc: Global, name: &str) -> io::Result<String> {
    let mut place = String::from_str(alloc, name)?;
    for _ in 0..MOST_LINKS {
        match fs::symlink_metadata(host, place.as_str()) {
            Ok(found) if found.is_symlink() => {}
            Ok(_) => return Ok(place),
            Err(error) if error.kind() == ErrorKind::NotFound => return Ok(place),
            Err(error) => return Err(error),
        }
        let link = host.read_link(alloc, place.as_str())?.into_string();
        place = linked_place(alloc, place.as_str(), link.as_str())?;
    }
    Err(io::Error::from(ErrorKind::FilesystemLoop))
}

// A link leads on from the folder that it is in.
fn linked_place(alloc: Global, place: &str, link: &str) -> Result<String, AllocError> {
    if link.starts_with('/') {
        String::from_str(alloc, link)
    } else {
        let (folder, _) = split_place(place);
        format!(in alloc; "{folder}{link}")
    }
}

/// A name's folder, with its slash, and the entry there. The folder is empty where it is the current one.
pub(crate) fn split_place(place: &str) -> (&str, &str) {
    match place.rfind('/') {
        Some(at) => place.split_at(at + 1),
        None => ("", place),
    }
}
