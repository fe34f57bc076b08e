//! The pairs of trains that can meet, and for each of them classes of patterns that cost the same beside every pattern of the
//! other train, with a table of their prices. Searches go over this list: other pairs of trains cost nothing.
#![tactic(auto)]

mod by_train;
mod classes;
mod columns;
mod group;
mod making;
mod meeting;
mod meetings;
mod places;
mod window;

pub use classes::Classes;
pub use meeting::Meeting;
pub use meetings::Meetings;
