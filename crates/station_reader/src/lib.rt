// Reads the JSON text of a station: the station, or the first reason why the text is refused.
#![tactic(auto)]

mod convert;
mod count;
mod draft;
mod form;
mod member;
mod name_table;
mod names;
mod pair_table;
mod pairs;
mod paths;
mod patterns;
mod place;
mod range;
mod reader;
mod refusal;
mod shape;
mod trains;
mod tree;
mod unknown;
mod walk;

pub use place::Place;
pub use reader::read_station;
pub use refusal::{Refused, RefusedKind, StationFault};
