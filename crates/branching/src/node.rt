ghost use Rattle.branching.specs.Bounds.{least_sum, IsAtLeast, IsNoLess};
ghost use Rattle.branching.specs.Lists.{IsUndecided, IsCut};
ghost use Rattle.branching.specs.Grown.{AreChildren};
ghost use Rattle.branching.specs.Node.{cost_bound, IsNode};
ghost use Rattle.branching.specs.RootLine.{root_bound, IsRoot};
ghost use Rattle.leaf_bounds.specs.declared.leaf.Leaf.{Leaf};
ghost use Rattle.leaf_bounds.specs.declared.tree.Bound.{Bound};
ghost use Rattle.leaf_bounds.specs.Made.{plan_of, ArePartOf, HasOnePlan, LacksMember};
ghost use Rattle.leaf_bounds.specs.Shown.{bound_of_leaf, LeafStands};
ghost use Rattle.master_lp.specs.Bounds.{MayWeaken, column_count};
ghost use Rattle.pair_classes.specs.Meetings.{AreMeetings};
ghost use Rattle.patterns.specs.Allowed.{full_lists, FitsBook, Lists};
ghost use Rattle.std.specs.Prelude.{◌≡◌, ◌≤◌, length, pos, slice_index, All, Contains, IfOk, IfSome};

use crate::aid::{Aid, part_leaves};
use crate::found::{Priced, Root};
use crate::kind::{Kind, kind_of};
use crate::known::priced;
use crate::leaf::{best_leaf, valued};
use crate::part::Part;
use crate::probing::probed_cut;
use crate::root_line::{RootLeaf, root_leaf};
use leaf_bounds::{Bound, Cut, Leaf, fixed_leaf, missing_leaf, narrow_leaf, plain_leaf};
use master_lp::Limits;
use pair_prices::Case;
use patterns::{Allowed, TwoParts};
use plan_cost::Plan;
use ratio::Width;
use sequence::Sequence;
use std::alloc::{AllocError, Global};

/// A leaf with what it says of the plans of its lists.
#[derive(Drop)]
pub(crate) struct Valued {
    pub leaf: Leaf,
    pub bound: Bound,
}

/// A part of the plans, with what its leaf says of them.
#[derive(Drop)]
pub(crate) struct Node {
    pub part: Part,
    pub bound: Bound,
    /// The plan of a part that has only one, where it is feasible.
    pub plan: Option<Priced>,
}

/// The part of all plans, and what was known of it before any split.
#[derive(Drop)]
pub(crate) struct RootNode {
    pub node: Node,
    pub root: Root,
}

/// A split of a part, and its two sides.
#[derive(Drop)]
pub(crate) struct Children {
    pub cut: Cut,
    pub below: Node,
    pub rest: Node,
}

/// The part of all plans, and the root line. Its bound isn't below the line.
pub(crate) fn root_node(
    alloc: Global,
    case: &Case,
    aid: &Aid,
    limits: &Limits,
    width: &mut Width,
) -> Result<RootNode, AllocError>
    requires { AreMeetings case.now aid.now.meetings.now }
    ensures node { IfOk result (λ r. IsNode case.now (full_lists case.now.book) r.node) }
    ensures root { IfOk result (λ r. IsRoot case.now r.root) }
    ensures above { IfOk result (λ r. IsNoLess (root_bound case.now r.root.value) r.node.bound) }
    ensures cause { IfOk result (λ r. IfSome r.root.weak
        (MayWeaken limits.now (length case.now.book) (column_count case.now (full_lists case.now.book)) width.old width.new)) }
    ensures ledger { width.old ≤ width.new }
{
    let allowed = Allowed::all(alloc, case.book())?;
    let RootLeaf { root, leaf } = root_leaf(alloc, case, &allowed, aid, limits, width)?;
    let node = first_node(alloc, case, allowed, leaf, root.weak.is_none())?;
    Ok(RootNode { node, root })
}

/// The part of all plans, with a leaf for it. If the leaf's value is the least cost of a fractional plan, it is the one that the
/// search begins with, unless there is nothing to decide.
fn first_node(
    alloc: Global,
    case: &Case,
    allowed: Allowed,
    leaf: Leaf,
    exact: bool,
) -> Result<Node, AllocError>
    requires fits { FitsBook allowed.lists case.now.book }
    requires stands { LeafStands case.now allowed.lists leaf }
    requires plain { IsAtLeast (pos (least_sum case.now allowed.lists)) (bound_of_leaf case.now allowed.lists leaf) }
    ensures node { IfOk result (IsNode case.now allowed.lists) }
    ensures above { IfOk result (λ n. IsNoLess (bound_of_leaf case.now allowed.lists leaf) n.bound) }
{
    match kind_of(&allowed) {
        Kind::Missing => missing_node(alloc, case, allowed),
        Kind::Fixed => fixed_node(alloc, case, allowed),
        Kind::Open => if exact {
            Ok(exact_node(case, allowed, leaf))
        } else {
            weak_node(alloc, case, allowed, leaf)
        },
    }
}

/// A part that may be split, with this leaf.
fn exact_node(case: &Case, allowed: Allowed, leaf: Leaf) -> Node
    requires fits { FitsBook allowed.lists case.now.book }
    requires undecided { IsUndecided allowed.lists }
    requires stands { LeafStands case.now allowed.lists leaf }
    requires plain { IsAtLeast (pos (least_sum case.now allowed.lists)) (bound_of_leaf case.now allowed.lists leaf) }
    ensures node { IsNode case.now allowed.lists result }
    ensures above { IsNoLess (bound_of_leaf case.now allowed.lists leaf) result.bound }
{
    let Valued { leaf, bound } = valued(case, &allowed, leaf);
    Node {
        part: Part { allowed, leaf },
        bound,
        plan: None,
    }
}

/// A part that may be split, with the better of its plain leaf and this leaf.
fn weak_node(alloc: Global, case: &Case, allowed: Allowed, leaf: Leaf) -> Result<Node, AllocError>
    requires fits { FitsBook allowed.lists case.now.book }
    requires undecided { IsUndecided allowed.lists }
    requires stands { LeafStands case.now allowed.lists leaf }
    ensures node { IfOk result (IsNode case.now allowed.lists) }
    ensures above { IfOk result (λ n. IsNoLess (bound_of_leaf case.now allowed.lists leaf) n.bound) }
{
    let mut leaves = Vec::new(alloc);
    leaves.push(leaf)?;
    open_node(alloc, case, allowed, leaves)
}

/// Splits a part. Neither side's bound is below that of the part.
pub(crate) fn split_part(
    alloc: Global,
    case: &Case,
    aid: &Aid,
    part: &Part,
) -> Result<Children, AllocError>
    requires meetings { AreMeetings case.now aid.now.meetings.now }
    requires fits { FitsBook part.now.allowed.lists case.now.book }
    requires undecided { IsUndecided part.now.allowed.lists }
    requires stands { LeafStands case.now part.now.allowed.lists part.now.leaf }
    ensures { IfOk result (AreChildren case.now part.now) }
{
    let cut = probed_cut(alloc, case, aid, part)?;
    // Both sides have a number, so only memory may be missing.
    let Ok(sides) = part.allowed.split(alloc, cut.train as usize, cut.at) else {
        return Err(AllocError);
    };
    let TwoParts { below, rest } = sides;
    let below = child(alloc, case, aid, part, below)?;
    let rest = child(alloc, case, aid, part, rest)?;
    Ok(Children { cut, below, rest })
}

/// The part of the plans of lists within the lists of another part.
fn child(
    alloc: Global,
    case: &Case,
    aid: &Aid,
    parent: &Part,
    allowed: Allowed,
) -> Result<Node, AllocError>
    requires meetings { AreMeetings case.now aid.now.meetings.now }
    requires wide_fits { FitsBook parent.now.allowed.lists case.now.book }
    requires fits { FitsBook allowed.lists case.now.book }
    requires within { ArePartOf allowed.lists parent.now.allowed.lists }
    requires stands { LeafStands case.now parent.now.allowed.lists parent.now.leaf }
    ensures node { IfOk result (IsNode case.now allowed.lists) }
    ensures above { IfOk result (λ n. IsNoLess (bound_of_leaf case.now parent.now.allowed.lists parent.now.leaf) n.bound) }
{
    match kind_of(&allowed) {
        Kind::Missing => missing_node(alloc, case, allowed),
        Kind::Fixed => fixed_node(alloc, case, allowed),
        Kind::Open => narrower_node(alloc, case, aid, parent, allowed),
    }
}

fn narrower_node(
    alloc: Global,
    case: &Case,
    aid: &Aid,
    parent: &Part,
    allowed: Allowed,
) -> Result<Node, AllocError>
    requires meetings { AreMeetings case.now aid.now.meetings.now }
    requires wide_fits { FitsBook parent.now.allowed.lists case.now.book }
    requires fits { FitsBook allowed.lists case.now.book }
    requires within { ArePartOf allowed.lists parent.now.allowed.lists }
    requires undecided { IsUndecided allowed.lists }
    requires stands { LeafStands case.now parent.now.allowed.lists parent.now.leaf }
    ensures node { IfOk result (IsNode case.now allowed.lists) }
    ensures above { IfOk result (λ n. IsNoLess (bound_of_leaf case.now parent.now.allowed.lists parent.now.leaf) n.bound) }
{
    let inherited = narrow_leaf(alloc, case, &parent.allowed, &allowed, &parent.leaf)?;
    let mut leaves = part_leaves(alloc, case, &allowed, aid, &parent.leaf)?;
    leaves.push(inherited)?;
    open_node(alloc, case, allowed, leaves)
}

/// A part that may be split, with the best of its plain leaf and these.
fn open_node(
    alloc: Global,
    case: &Case,
    allowed: Allowed,
    leaves: Vec<Leaf>,
) -> Result<Node, AllocError>
    requires fits { FitsBook allowed.lists case.now.book }
    requires undecided { IsUndecided allowed.lists }
    requires leaves { All (LeafStands case.now allowed.lists) leaves.items }
    ensures node { IfOk result (IsNode case.now allowed.lists) }
    ensures above { (l : Leaf) → Contains leaves.items l → IfOk result (λ n. IsNoLess (bound_of_leaf case.now allowed.lists l) n.bound) }
{
    let plain = plain_leaf(alloc, case, &allowed)?;
    let Valued { leaf, bound } = best_leaf(case, &allowed, plain, leaves);
    Ok(Node {
        part: Part { allowed, leaf },
        bound,
        plan: None,
    })
}

/// A part without plans, since some train has no number.
fn missing_node(alloc: Global, case: &Case, allowed: Allowed) -> Result<Node, AllocError>
    requires fits { FitsBook allowed.lists case.now.book }
    requires missing { LacksMember allowed.lists }
    ensures node { IfOk result (IsNode case.now allowed.lists) }
    ensures above { (b : Bound) → IfOk result (λ n. IsNoLess b n.bound) }
{
    let leaf = missing_leaf(alloc, case, &allowed)?;
    Ok(Node {
        part: Part { allowed, leaf },
        bound: Bound::Nothing,
        plan: None,
    })
}

/// A part with one plan. No leaf of lists in which that plan is has a greater bound.
fn fixed_node(alloc: Global, case: &Case, allowed: Allowed) -> Result<Node, AllocError>
    requires fits { FitsBook allowed.lists case.now.book }
    requires one { HasOnePlan allowed.lists }
    ensures node { IfOk result (IsNode case.now allowed.lists) }
    ensures above { (wide : Lists) (l : Leaf) → ArePartOf allowed.lists wide → LeafStands case.now wide l
        → IfOk result (λ n. IsNoLess (bound_of_leaf case.now wide l) n.bound) }
{
    let _limits = case.station();
    let leaf = fixed_leaf(alloc, case, &allowed)?;
    let plan = only_plan(alloc, &allowed)?;
    let plan = priced(case, plan);
    Ok(Node {
        part: Part { allowed, leaf },
        bound: cost_of(&plan),
        plan,
    })
}

/// The plan of the first numbers.
fn only_plan(alloc: Global, allowed: &Allowed) -> Result<Plan, AllocError>
    ensures { IfOk result (λ p. p.choice ≡ plan_of allowed.now.lists) }
{
    let mut numbers = Vec::new(alloc);
    for list in allowed.lists.as_slice() {
        numbers.push(first_number(list.as_slice()))?;
    }
    Ok(Plan {
        choice: Sequence::from_vec(numbers),
    })
}

/// The first of some numbers, and 0 where there is none.
fn first_number(numbers: &[u16]) -> u16
    ensures { result ≡ slice_index numbers.now 0 }
{
    match numbers.first() {
        Some(number) => *number,
        None => 0,
    }
}

/// What the only plan costs, if there is one.
fn cost_of(plan: &Option<Priced>) -> Bound
    ensures { result ≡ cost_bound plan.now }
{
    match plan {
        Some(priced) => Bound::AtLeast(priced.cost as i128),
        None => Bound::Nothing,
    }
}
