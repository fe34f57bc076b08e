ghost use Rattle.shared_trees.specs.Laws.{ExpansionsAreLeaves, SharedTreesStandIn};

/// The expansion of each leaf of a shared tree, over lists in which all the leaf's numbers lie, is the leaf of the tree
/// that was shared.
pub fn expansions_are_leaves()
    ensures { ExpansionsAreLeaves }
{}

/// Where a tree stands for the full lists, so does its shared tree, with the same bound, and each leaf's expansion over
/// the lists at that leaf is that leaf of the tree.
pub fn shared_tree_stands()
    ensures { SharedTreesStandIn }
{}
