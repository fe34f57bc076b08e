use leaf_bounds::Leaf;
use patterns::Allowed;

/// A part of the plans: the numbers that the trains may take in it, and a leaf that bounds its plans. Of a part that no search
/// goes on from only the leaf is kept.
#[derive(Drop)]
pub(crate) struct Part {
    pub allowed: Allowed,
    pub leaf: Leaf,
}
