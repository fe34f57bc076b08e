use leaf_bounds::{Leaf, LeafValue};
use pair_classes::Meetings;
use sequence::Sequence;

/// What an ascent is given beside the lists.
#[derive(Drop)]
pub struct Hints<'a> {
    /// The pairs of trains of the case that can meet.
    pub meetings: &'a Meetings,
    /// The cost of a known plan. The ascent ends where it has shown that no plan of the lists is cheaper.
    pub known: Option<i64>,
    /// A leaf to begin at: of a leaf that stands for lists that contain these, the first value is mostly kept.
    pub seed: Option<&'a Leaf>,
    /// The most steps that are taken, at least one.
    pub iterations: u32,
}

/// Where an ascent ended.
#[derive(Drop)]
pub struct Climbed {
    pub leaf: Leaf,
    /// What the leaf says of the plans of the lists.
    pub worth: LeafValue,
    /// For each train and each number of its list how often the ascent chose the pattern of late, in parts of 2^16 of the
    /// train's choices. It hints at what a fractional plan of least cost weighs, and nothing is promised of it.
    pub support: Sequence<Sequence<u32>>,
}
