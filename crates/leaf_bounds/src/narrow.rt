ghost use Rattle.leaf_bounds.specs.declared.potentials.Side.TheVariants.{First, Second};
ghost use Rattle.leaf_bounds.specs.Expansion.{in_list};
ghost use Rattle.leaf_bounds.specs.Leaf.{value_of};
ghost use Rattle.leaf_bounds.specs.Made.{ArePartOf, IsNarrowed};
ghost use Rattle.leaf_bounds.specs.Shown.{numbers_of, LeafStands};
ghost use Rattle.leaf_bounds.specs.Sides.{kept_entries, train_on};
ghost use Rattle.patterns.specs.Allowed.{FitsBook};
ghost use Rattle.std.specs.Prelude.{◌≡◌, ◌<◌, ◌++◌, ◌∷◌, [], if◌then◌else◌, length, All, IfOk, OnOk};

use crate::leaf::Leaf;
use crate::lists::{copy_plain, numbers_in};
use crate::number::PairValue;
use crate::potentials::{Side, train_at};
use pair_prices::Case;
use patterns::Allowed;
use sequence::Sequence;
use std::alloc::{AllocError, Global};

/// The leaf without its numbers at patterns that aren't in narrower lists. It stands for these with the same value.
///
/// # Errors
/// `AllocError` where the leaf finds no memory.
pub fn narrow_leaf(
    alloc: Global,
    case: &Case,
    wide: &Allowed,
    allowed: &Allowed,
    leaf: &Leaf,
) -> Result<Leaf, AllocError>
    requires wide_fits { FitsBook wide.now.lists case.now.book }
    requires fits { FitsBook allowed.now.lists case.now.book }
    requires stands { LeafStands case.now wide.now.lists leaf.now }
    requires part { ArePartOf allowed.now.lists wide.now.lists }
    ensures narrowed { IfOk result (λ n. IsNarrowed allowed.now.lists leaf.now n) }
    ensures stands { IfOk result (λ n. LeafStands case.now allowed.now.lists n) }
    ensures value { IfOk result (λ n. value_of case.now (numbers_of n) ≡ value_of case.now (numbers_of leaf.now)) }
{
    let narrowed = without_others(alloc, allowed, leaf)?;
    Ok(narrowed)
}

/// The leaf with those of its numbers at patterns that are in the lists.
fn without_others(alloc: Global, allowed: &Allowed, leaf: &Leaf) -> Result<Leaf, AllocError>
    requires alpha { All (λ x. train_on First x < length allowed.now.lists) leaf.now.alpha }
    requires beta { All (λ x. train_on Second x < length allowed.now.lists) leaf.now.beta }
    ensures { IfOk result (λ n. IsNarrowed allowed.now.lists leaf.now n) }
{
    Ok(Leaf {
        q: leaf.q,
        u: copy_plain(alloc, leaf.u.as_slice())?,
        v: copy_plain(alloc, leaf.v.as_slice())?,
        alpha: kept_of(alloc, allowed, leaf.alpha.as_slice(), Side::First)?,
        beta: kept_of(alloc, allowed, leaf.beta.as_slice(), Side::Second)?,
    })
}

/// The entries whose number is in the list of the train on that side.
fn kept_of(
    alloc: Global,
    allowed: &Allowed,
    entries: &[PairValue],
    side: Side,
) -> Result<Sequence<PairValue>, AllocError>
    requires { All (λ x. train_on side x < length allowed.now.lists) entries.now }
    ensures { IfOk result (λ s. s ≡ kept_entries allowed.now.lists side entries.now) }
{
    let mut kept = Vec::new(alloc);
    for x in entries {
        let keep = is_allowed(allowed, train_at(side, x), x.number);
        push_kept(&mut kept, x, keep)?;
    }
    Ok(Sequence::from_vec(kept))
}

pub(crate) fn push_kept(
    kept: &mut Vec<PairValue>,
    x: &PairValue,
    keep: bool,
) -> Result<(), AllocError>
    ensures { OnOk result (kept.new.items ≡ kept.old.items ++ (if keep then (x.now ∷ []) else [])) }
{
    if keep {
        kept.push(*x)?;
    }
    Ok(())
}

fn is_allowed(allowed: &Allowed, train: u16, number: u16) -> bool
    requires { train < length allowed.now.lists }
    ensures { result ≡ in_list allowed.now.lists train number }
{
    numbers_in(allowed, train).iter().any(|n| *n == number)
}
