ghost use Rattle.branching.specs.Answer.{is_open, AnswerIs};
ghost use Rattle.branching.specs.Ended.{node_at, AreOthersKept, ArePartsOf, IsPartOf};
ghost use Rattle.branching.specs.Known.{is_settled};
ghost use Rattle.branching.specs.Outline.{is_leaf};
ghost use Rattle.branching.specs.Bounds.{IsNoLess};
ghost use Rattle.branching.specs.RootLine.{root_bound, root_of, IsOpenAboveRoot};
ghost use Rattle.branching.specs.Searching.{AreSlots, IsSearch};
ghost use Rattle.branching.specs.declared.part.Part.{Part};
ghost use Rattle.leaf_bounds.specs.declared.tree.Bound.TheVariants.{AtLeast};
ghost use Rattle.std.specs.Prelude.{◌≡◌, ◌+◌, ◌^◌, ◌<◌, ◌≤◌, ◌∷◌, ◌≤ℤ◌, ℕ, true, false, length, map, All, IfOk};

use crate::found::{Best, Found, Shown, Stopped};
use crate::outline::{Entry, Outline};
use crate::part::Part;
use crate::search::Search;
use crate::waiting::Key;
use leaf_bounds::{Leaf, Node, Tree, bound_of_tree};
use pair_prices::Case;
use sequence::Sequence;
use std::alloc::{AllocError, Global};
use std::mem;

/// The answer of a search in which all bounds are settled.
pub(crate) fn decided(alloc: Global, case: &Case, search: Search) -> Result<Found, AllocError>
    requires search { IsSearch case.now search.outline search.parts.items search.waiting search.best }
    requires settled { All (λ other. is_settled search.best (AtLeast other.bound) ≡ true) search.waiting }
    ensures answer { (splits : ℕ) → length search.parts.items ≤ splits + 1 → IfOk result (AnswerIs case.now splits) }
    ensures closed { IfOk result (λ f. is_open f ≡ false) }
    ensures root { IfOk result (λ f. root_of f ≡ search.root) }
    ensures above { IfOk result (IsOpenAboveRoot case.now) }
{
    let _limits = case.station();
    bound_of_tree();
    let Search {
        outline,
        parts,
        waiting: _,
        best,
        root,
    } = search;
    let tree = tree_of(alloc, &outline, parts)?;
    match best {
        Some(priced) => Ok(Found::Optimal(Best {
            plan: priced.plan,
            cost: priced.cost,
            tree,
            root,
        })),
        None => Ok(Found::NoPlan(Shown { tree, root })),
    }
}

/// The answer of a search that has no splits left, where the key of least bound was taken and isn't settled.
pub(crate) fn stopped(
    alloc: Global,
    case: &Case,
    search: Search,
    key: Key,
) -> Result<Found, AllocError>
    requires search { IsSearch case.now search.outline search.parts.items (key ∷ search.waiting) search.best }
    requires least { All (λ other. key.bound ≤ℤ other.bound) search.waiting }
    requires unsettled { is_settled search.best (AtLeast key.bound) ≡ false }
    requires above { IsNoLess (root_bound case.now search.root.value) (AtLeast key.bound) }
    ensures answer { (splits : ℕ) → splits < 2 ^ 64 → length search.parts.items ≡ splits + 1 → IfOk result (AnswerIs case.now splits) }
    ensures root { IfOk result (λ f. root_of f ≡ search.root) }
    ensures above { IfOk result (IsOpenAboveRoot case.now) }
{
    let Search {
        outline,
        parts,
        waiting: _,
        best,
        root,
    } = search;
    let tree = tree_of(alloc, &outline, parts)?;
    Ok(Found::Open(Stopped {
        plan: best,
        bound: key.bound,
        tree,
        root,
    }))
}

/// The tree, with the leaf of each slot.
fn tree_of(alloc: Global, outline: &Outline, mut parts: Vec<Part>) -> Result<Tree, AllocError>
    requires { AreSlots outline.now (length parts.items) }
    ensures { (part : ℕ → Part) → ArePartsOf part parts.items → IfOk result (λ t. t.nodes ≡ map (node_at part) outline.now) }
{
    let mut nodes = Vec::new(alloc);
    for entry in outline.entries() {
        nodes.push(taken(alloc, entry, &mut parts))?;
    }
    Ok(Tree {
        nodes: Sequence::from_vec(nodes),
    })
}

/// The node of an entry. Its leaf is taken out of the slot.
fn taken(alloc: Global, entry: &Entry, parts: &mut [Part]) -> Node
    requires { (slot : ℕ) → is_leaf slot entry.now ≡ true → slot < length parts.old }
    ensures node { (part : ℕ → Part) → IsPartOf part entry.now parts.old → result ≡ node_at part entry.now }
    ensures others { AreOthersKept entry.now parts.old parts.new }
{
    match entry {
        Entry::Split(cut) => Node::Split(*cut),
        Entry::Leaf(slot) => Node::Leaf(mem::replace(&mut parts[*slot].leaf, no_leaf(alloc))),
    }
}

/// What stands where a leaf was.
fn no_leaf(alloc: Global) -> Leaf {
    Leaf {
        q: 1,
        u: Sequence::from_vec(Vec::new(alloc)),
        v: Sequence::from_vec(Vec::new(alloc)),
        alpha: Sequence::from_vec(Vec::new(alloc)),
        beta: Sequence::from_vec(Vec::new(alloc)),
    }
}
