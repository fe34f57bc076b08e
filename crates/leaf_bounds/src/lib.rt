//! Lower bounds on the cost of plans: leaves of dual numbers, trees of splits over them, and trees that share potentials.
#![tactic(auto)]

mod bare;
mod check;
mod fixed;
mod groups;
mod judge;
mod laws;
mod leaf;
mod lists;
mod made;
mod minutes;
mod narrow;
mod number;
mod paid;
mod pairs;
mod places;
mod plain;
mod potentials;
mod shared;
mod shared_leaf;
mod sharing;
mod sums;
mod table;
mod trains;
mod tree;
mod uses;
mod value;

pub use check::{LeafFault, LeafValue, PairPlace, PatternPlace};
pub use fixed::fixed_leaf;
pub use judge::leaf_check;
pub use laws::{
    bound_of_leaf, bound_of_shared_tree, bound_of_tree, bounds_are_rounded_up, check_is_exact,
    narrow_leaf_stands, splits_of_tree, trees_of_nodes,
};
pub use leaf::Leaf;
pub use made::missing_leaf;
pub use narrow::narrow_leaf;
pub use number::{MinuteValue, NumberValue, PairValue, TrainValue};
pub use plain::plain_leaf;
pub use shared::{SharedLeaf, SharedNode, SharedTree};
pub use sharing::share;
pub use table::PotTable;
pub use tree::{Bound, Cut, Node, Tree};
pub use uses::UseOf;
