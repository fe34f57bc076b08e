// What no run of the program can show.
mod bounds;
mod faults;

use std::alloc::{AllocError, Global};

/// The words of a text.
fn words(alloc: Global, text: &str) -> Result<Vec<String>, AllocError> {
    let mut words = Vec::new(alloc);
    for word in text.split_whitespace() {
        words.push(String::from_str(alloc, word)?)?;
    }
    Ok(words)
}
