//! Generated stations, and the JSON text of a station.
#![tactic(auto)]

mod entry;
mod generator;
mod made;
mod named;
mod pairs;
mod parts;
mod text;
mod train_entry;
mod trains;
mod version;

pub use made::make;
pub use text::to_json;
