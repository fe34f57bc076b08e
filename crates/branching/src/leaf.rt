ghost use Rattle.branching.specs.Bounds.{IsNoLess};
ghost use Rattle.branching.specs.Node.{IsValued};
ghost use Rattle.leaf_bounds.specs.declared.leaf.Leaf.{Leaf};
ghost use Rattle.leaf_bounds.specs.Leaf.{bound_of};
ghost use Rattle.leaf_bounds.specs.Shown.{bound_of_leaf, numbers_of, LeafStands};
ghost use Rattle.leaf_bounds.specs.Verdict.{answer_of};
ghost use Rattle.patterns.specs.Allowed.{FitsBook, Lists};
ghost use Rattle.pair_prices.specs.Case.{CaseRecord};
ghost use Rattle.std.specs.Prelude.{◌≡◌, All, Contains, MatchBool};

use crate::node::Valued;
use leaf_bounds::{Bound, Leaf, LeafValue, leaf_check};
use pair_prices::Case;
use patterns::Allowed;

/// The leaf that a node takes: of these, which all stand for its lists, one of greatest bound, where an empty one comes before all.
/// The first is always there, and of two with one bound the earlier found is kept.
pub(crate) fn best_leaf(
    case: &Case,
    allowed: &Allowed,
    first: Leaf,
    mut others: Vec<Leaf>,
) -> Valued
    requires fits { FitsBook allowed.now.lists case.now.book }
    requires first { LeafStands case.now allowed.now.lists first }
    requires others { All (LeafStands case.now allowed.now.lists) others.items }
    ensures valued { IsValued case.now allowed.now.lists result }
    ensures first { IsNoLess (bound_of_leaf case.now allowed.now.lists first) result.bound }
    ensures others { (l : Leaf) → Contains others.items l → IsNoLess (bound_of_leaf case.now allowed.now.lists l) result.bound }
{
    let mut best = valued(case, allowed, first);
    while let Some(leaf) = others.pop() {
        best = greater(best, valued(case, allowed, leaf));
    }
    best
}

/// The leaf with what a check says of it.
pub(crate) fn valued(case: &Case, allowed: &Allowed, leaf: Leaf) -> Valued
    requires fits { FitsBook allowed.now.lists case.now.book }
    requires stands { LeafStands case.now allowed.now.lists leaf }
    ensures valued { IsValued case.now allowed.now.lists result }
    ensures same { result.leaf ≡ leaf }
{
    let value = leaf_check(case, allowed, &leaf).unwrap();
    let bound = bound_by(&value);
    Valued { leaf, bound }
}

fn bound_by(value: &LeafValue) -> Bound
    ensures { (c : CaseRecord) (l : Leaf) → value.now ≡ answer_of c (numbers_of l) → result ≡ bound_of c (numbers_of l) }
{
    if value.empty {
        Bound::Nothing
    } else {
        Bound::AtLeast(value.bound)
    }
}

/// The one of greater bound, the first of two with one bound.
fn greater(a: Valued, b: Valued) -> Valued
    ensures valued { (c : CaseRecord) (lists : Lists) → IsValued c lists a → IsValued c lists b → IsValued c lists result }
    ensures first { IsNoLess a.bound result.bound }
    ensures second { IsNoLess b.bound result.bound }
{
    if is_less(&a.bound, &b.bound) { b } else { a }
}

fn is_less(a: &Bound, b: &Bound) -> bool
    ensures { MatchBool result (IsNoLess a.now b.now) (IsNoLess b.now a.now) }
{
    match (a, b) {
        (Bound::Nothing, _) => false,
        (Bound::AtLeast(_), Bound::Nothing) => true,
        (Bound::AtLeast(n), Bound::AtLeast(m)) => *n < *m,
    }
}
