ghost use Rattle.branching.specs.Known.{is_settled};
ghost use Rattle.branching.specs.RootLine.{AreAboveRoot, IsRoot};
ghost use Rattle.branching.specs.Searching.{IsSearch};
ghost use Rattle.master_lp.specs.Bounds.{MayWeaken, column_count};
ghost use Rattle.pair_classes.specs.Meetings.{AreMeetings};
ghost use Rattle.patterns.specs.Allowed.{full_lists};
ghost use Rattle.std.specs.Prelude.{◌≡◌, ◌+◌, ◌<◌, ◌≤◌, ◌++◌, ◌∷◌, [], ◌≤ℤ◌, false, length, slice_set, All, IfOk, IfSome};
ghost use Rattle.leaf_bounds.specs.declared.tree.Bound.TheVariants.{AtLeast};

use crate::aid::Aid;
use crate::found::{Priced, Root};
use crate::known::{cheaper, cost_of, first_plan, is_settled};
use crate::node::{Children, Node, RootNode, root_node, split_part};
use crate::outline::Outline;
use crate::part::Part;
use crate::waiting::{Key, Waiting};
use master_lp::Limits;
use pair_classes::Meetings;
use pair_prices::Case;
use patterns::Allowed;
use ratio::Width;
use sequence::Sequence;
use std::alloc::{AllocError, Global};

/// A search between two splits.
#[derive(Drop)]
pub(crate) struct Search {
    pub outline: Outline,
    /// The part of each slot. A leaf of the outline is the number of one.
    pub parts: Vec<Part>,
    pub waiting: Waiting,
    /// The cheapest plan that is known.
    pub best: Option<Priced>,
    /// What was known of all plans before any split.
    pub root: Root,
}

/// A search with the part of all plans alone.
pub(crate) fn start(
    alloc: Global,
    case: &Case,
    meetings: &Meetings,
    limits: &Limits,
    width: &mut Width,
) -> Result<Search, AllocError>
    requires { AreMeetings case.now meetings.now }
    ensures search { IfOk result (λ s. IsSearch case.now s.outline s.parts.items s.waiting s.best) }
    ensures one { IfOk result (λ s. length s.parts.items ≡ 1) }
    ensures root { IfOk result (λ s. IsRoot case.now s.root) }
    ensures above { IfOk result (λ s. AreAboveRoot case.now s.root s.waiting) }
    ensures cause { IfOk result (λ s. IfSome s.root.weak
        (MayWeaken limits.now (length case.now.book) (column_count case.now (full_lists case.now.book)) width.old width.new)) }
    ensures ledger { width.old ≤ width.new }
{
    let greedy = first_plan(alloc, case)?;
    let aid = Aid {
        meetings,
        known: cost_of(&greedy),
    };
    let RootNode { node, root } = root_node(alloc, case, &aid, limits, width)?;
    let Node { part, bound, plan } = node;
    let best = cheaper(greedy, plan);
    let mut waiting = Waiting::new(alloc);
    waiting.add(&best, &bound, 0, 0)?;
    let mut parts = Vec::new(alloc);
    parts.push(part)?;
    let outline = Outline::new(alloc)?;
    Ok(Search {
        outline,
        parts,
        waiting,
        best,
        root,
    })
}

/// Splits the leaf of the key, which is that of least bound. Its slot goes to the side below the cut, a new slot to the other.
pub(crate) fn split_leaf(
    alloc: Global,
    case: &Case,
    meetings: &Meetings,
    search: Search,
    key: Key,
) -> Result<Search, AllocError>
    requires meetings { AreMeetings case.now meetings.now }
    requires search { IsSearch case.now search.outline search.parts.items (key ∷ search.waiting) search.best }
    requires least { All (λ other. key.bound ≤ℤ other.bound) search.waiting }
    requires unsettled { is_settled search.best (AtLeast key.bound) ≡ false }
    ensures search { IfOk result (λ s. IsSearch case.now s.outline s.parts.items s.waiting s.best) }
    ensures one_more { IfOk result (λ s. length s.parts.items ≡ length search.parts.items + 1) }
    // No bound is below that of the leaf that was split.
    ensures above { IfOk result (λ s. All (λ other. key.bound ≤ℤ other.bound) s.waiting) }
    ensures root { IfOk result (λ s. s.root ≡ search.root) }
{
    let Search {
        mut outline,
        parts,
        mut waiting,
        best,
        root,
    } = search;
    let aid = Aid {
        meetings,
        known: cost_of(&best),
    };
    let slot = key.slot;
    let new = parts.as_slice().len();
    let Children { cut, below, rest } = split_part(alloc, case, &aid, &parts[slot])?;
    let Node {
        part: low,
        bound: low_bound,
        plan: low_plan,
    } = below;
    let Node {
        part: high,
        bound: high_bound,
        plan: high_plan,
    } = rest;
    let best = cheaper(cheaper(best, low_plan), high_plan);
    outline.grow(slot, cut, new)?;
    waiting.add(&best, &low_bound, new, slot)?;
    waiting.add(&best, &high_bound, new, new)?;
    let low = stored(alloc, low, is_settled(&best, &low_bound));
    let high = stored(alloc, high, is_settled(&best, &high_bound));
    let parts = placed(parts, slot, low, high)?;
    Ok(Search {
        outline,
        parts,
        waiting,
        best,
        root,
    })
}

/// The parts with the two sides: one in its slot, the other in a new slot.
fn placed(mut parts: Vec<Part>, slot: usize, low: Part, high: Part) -> Result<Vec<Part>, AllocError>
    requires { slot < length parts.items }
    ensures { IfOk result (λ ps. ps.items ≡ slice_set parts.items slot low ++ high ∷ []) }
{
    parts[slot] = low;
    parts.push(high)?;
    Ok(parts)
}

/// The part, without its lists where no search goes on from it.
fn stored(alloc: Global, part: Part, settled: bool) -> Part
    ensures leaf { result.leaf ≡ part.leaf }
    ensures lists { settled ≡ false → result.allowed ≡ part.allowed }
{
    if settled {
        let Part { allowed: _, leaf } = part;
        return Part {
            allowed: Allowed {
                lists: Sequence::from_vec(Vec::new(alloc)),
            },
            leaf,
        };
    }
    part
}
