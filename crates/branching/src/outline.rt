ghost use Rattle.branching.specs.declared.outline.Entry.TheVariants.{Leaf};
ghost use Rattle.branching.specs.Outline.{grown_entries, is_leaf};
ghost use Rattle.std.specs.Prelude.{◌≡◌, ◌<◌, ◌∷◌, [], count_by, length, slice_get, IfOk, OnOk, Some};

use leaf_bounds::Cut;
use std::alloc::{AllocError, Global};
use std::marker::Model;

/// An entry of a tree: a split, or the slot of a leaf.
#[derive(Clone, Copy, PartialEq, Eq, Debug, Drop)]
pub(crate) enum Entry {
    Split(Cut),
    Leaf(usize),
}

/// The tree of a search in pre-order. An entry is small, so that a split may move those behind it.
#[derive(Drop)]
pub(crate) struct Outline {
    entries: Vec<Entry>,
}

impl Model for Outline {
    ghost use Rattle.std.specs.Prelude.{List};
    ghost use Rattle.branching.specs.declared.outline.Entry.{Entry};

    ghost Value = { List Entry };

    ghost view = { λ o. o.entries.items };
}

impl Outline {
    /// The leaf in slot 0 alone.
    pub(crate) fn new(alloc: Global) -> Result<Outline, AllocError>
        ensures { IfOk result (λ o. o ≡ Leaf 0 ∷ []) }
    {
        let mut entries = Vec::new(alloc);
        entries.push(Entry::Leaf(0))?;
        Ok(Outline { entries })
    }

    pub(crate) fn entries(&self) -> &[Entry]
        ensures { result.now ≡ self.now }
    {
        &self.entries
    }

    /// Splits the leaf in the slot into itself and a new leaf.
    pub(crate) fn grow(&mut self, slot: usize, cut: Cut, new: usize) -> Result<(), AllocError>
        requires { count_by (is_leaf slot) self.old ≡ 1 }
        ensures { OnOk result (self.new ≡ grown_entries slot cut new self.old) }
    {
        let place = place_of(&self.entries, slot);
        self.entries[place] = Entry::Split(cut);
        self.entries.insert(place + 1, Entry::Leaf(new))?;
        self.entries.insert(place + 1, Entry::Leaf(slot))?;
        Ok(())
    }
}

/// Where the leaf in the slot stands.
fn place_of(entries: &[Entry], slot: usize) -> usize
    requires { count_by (is_leaf slot) entries.now ≡ 1 }
    ensures { slice_get entries.now result ≡ Some (Leaf slot) }
{
    for place in 0..entries.len() {
        if entries[place] == Entry::Leaf(slot) {
            return place;
        }
    }
    0
}
