ghost use Rattle.branching.specs.Known.{is_settled};
ghost use Rattle.branching.specs.Searching.{keys_for};
ghost use Rattle.branching.specs.Keys.{IsNext, IsNoneNext};
ghost use Rattle.std.specs.Prelude.{◌≡◌, ◌++◌, ◌∷◌, [], if◌then◌else◌, OnOk, MatchOption};
ghost use Rattle.std.specs.List.Sorted.{IsPermutation};

use crate::found::Priced;
use crate::known::is_settled;
use leaf_bounds::Bound;
use std::alloc::{AllocError, Global};
use std::cmp::Reverse;
use std::collections::BinaryHeap;
use std::marker::Model;

/// Where a leaf comes among those that wait to be split: least bounds first, and of equal bounds the leaf that was made first.
#[derive(Clone, Copy, PartialEq, Eq, PartialOrd, Ord, Debug, Drop)]
pub(crate) struct Key {
    pub bound: i128,
    /// How many slots there were when the leaf was made.
    pub order: usize,
    pub slot: usize,
}

/// The leaves that wait to be split.
#[derive(Drop)]
pub(crate) struct Waiting {
    heap: BinaryHeap<Reverse<Key>>,
}

impl Model for Waiting {
    ghost use Rattle.std.specs.Prelude.{List, map};
    ghost use Rattle.std.specs.BinaryHeap.{IsHeap, heap_items};
    ghost use Rattle.std.specs.Ordering.{int_cmp, nat_cmp, ordering_then};
    ghost use Rattle.branching.specs.declared.waiting.Key.{Key};

    ghost Value = { List Key };

    ghost view = { λ w. map (λ r. r.0) (heap_items w.heap) };

    ghost invariant = { λ w. IsHeap (λ x y. ordering_then (int_cmp y.0.bound x.0.bound) (ordering_then (nat_cmp y.0.order x.0.order) (nat_cmp y.0.slot x.0.slot))) (heap_items w.heap) };
}

impl Waiting {
    pub(crate) fn new(alloc: Global) -> Waiting
        ensures { result ≡ [] }
    {
        Waiting {
            heap: BinaryHeap::new(alloc),
        }
    }

    /// Adds the key of a leaf, unless its bound is settled.
    pub(crate) fn add(
        &mut self,
        best: &Option<Priced>,
        bound: &Bound,
        order: usize,
        slot: usize,
    ) -> Result<(), AllocError>
        ensures { OnOk result (IsPermutation (keys_for best.now bound.now order slot ++ self.old) self.new) }
    {
        match bound {
            Bound::Nothing => Ok(()),
            Bound::AtLeast(least) => {
                let key = Key {
                    bound: *least,
                    order,
                    slot,
                };
                self.add_unless(is_settled(best, bound), key)
            }
        }
    }

    fn add_unless(&mut self, settled: bool, key: Key) -> Result<(), AllocError>
        ensures { OnOk result (IsPermutation ((if settled then [] else (key ∷ [])) ++ self.old) self.new) }
    {
        if !settled {
            self.heap.push(Reverse(key))?;
        }
        Ok(())
    }

    /// Takes the key of least bound, unless that is settled.
    pub(crate) fn next(&mut self, best: &Option<Priced>) -> Option<Key>
        ensures { MatchOption result (IsNoneNext best.now self.old self.new) (IsNext best.now self.old self.new) }
    {
        let least = self.heap.peek()?.0.bound;
        if is_settled(best, &Bound::AtLeast(least)) {
            return None;
        }
        let key = self.heap.pop()?.0;
        Some(key)
    }
}
