//! The search for a plan of least cost: a tree of splits over leaves that bound the plans of their parts, grown where the bound is
//! least, until it shows that the best known plan is optimal, that there is none, or the stated splits are spent. The bound before any split
//! comes from a linear program.
#![tactic(auto)]

mod aid;
mod choice;
mod count;
mod ending;
mod found;
mod kind;
mod known;
mod leaf;
mod node;
mod outline;
mod part;
mod probing;
mod root_line;
mod search;
mod solving;
mod waiting;

pub use count::split_bound;
pub use found::{Best, Found, Priced, Root, Shown, Stopped};
pub use root_line::find_root;
pub use solving::solve;
