ghost use Rattle.proof_check.specs.Walk.{has_nodes, is_head, is_last, is_over, is_tree, stage_by};
ghost use Rattle.std.specs.Prelude.{◌≡◌};

/// What is due.
#[derive(Clone, Copy, PartialEq, Eq, Debug, Drop)]
pub(crate) enum Stage {
    /// The first record.
    Head,
    /// Tables, in version 2, or the first node.
    Start,
    /// Nodes, or the records of the open leaf.
    Tree,
    /// The last record.
    Last,
    /// Nothing.
    Over,
}

impl Stage {
    pub(crate) fn is_head(self) -> bool
        ensures { result ≡ is_head self }
    {
        matches!(self, Stage::Head)
    }

    /// Whether a node may be due.
    pub(crate) fn has_nodes(self) -> bool
        ensures { result ≡ has_nodes self }
    {
        matches!(self, Stage::Start | Stage::Tree)
    }

    /// Whether a node was read.
    pub(crate) fn is_tree(self) -> bool
        ensures { result ≡ is_tree self }
    {
        matches!(self, Stage::Tree | Stage::Last | Stage::Over)
    }

    pub(crate) fn is_last(self) -> bool
        ensures { result ≡ is_last self }
    {
        matches!(self, Stage::Last)
    }

    pub(crate) fn is_over(self) -> bool
        ensures { result ≡ is_over self }
    {
        matches!(self, Stage::Over)
    }

    /// The stage after a leaf, where more is due, or nothing.
    pub(crate) fn after_leaf(more: bool) -> Stage
        ensures { result ≡ stage_by more }
    {
        if more { Stage::Tree } else { Stage::Last }
    }
}
