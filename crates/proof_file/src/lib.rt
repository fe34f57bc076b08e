//! The text of a proof: its records, their lines, writers of both versions, and a reader that takes the text in pieces of any cut.
#![tactic(auto)]

mod fault;
mod kept;
mod kinds;
mod laws;
mod line;
mod lines;
mod reader;
mod record;
mod write;

pub use fault::ReaderFault;
pub use laws::{
    cuts_make_no_difference, records_are_lines, texts_are_unique, texts_of_trees,
    trees_can_be_written,
};
pub use reader::ProofReader;
pub use record::{HeadRecord, ProofRecord, TableHead};
pub use write::{write_proof, write_shared};
