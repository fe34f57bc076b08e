use leaf_bounds::Leaf;
use pair_classes::Meetings;

/// What is known beside the lists of a node. None of it changes what an answer says; it only saves time.
#[derive(Drop)]
pub struct RelaxHints<'a> {
    /// The pairs of trains of the case that can meet.
    pub meetings: &'a Meetings,
    /// A leaf that stands for lists that contain the node's.
    pub seed: Option<&'a Leaf>,
    /// The cost of a known plan.
    pub known: Option<i64>,
}
