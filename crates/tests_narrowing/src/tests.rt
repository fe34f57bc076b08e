ghost use Rattle.leaf_bounds.specs.Made.{ArePartOf};
ghost use Rattle.leaf_bounds.specs.Shown.{LeafStands};
ghost use Rattle.patterns.specs.Allowed.{FitsBook};
ghost use Rattle.patterns.specs.declared.offer.Offer.{Offer};
ghost use Rattle.std.specs.Prelude.{◌<◌, List, length, IfOk, IfSome};

use dual_ascent::{Draft, are_places, leaf_of};
use leaf_bounds::{Leaf, PairValue, TrainValue, leaf_check, narrow_leaf};
use pair_prices::Case;
use patterns::{Allowed, TwoParts};
use std::alloc::{AllocError, Global};
use std::test::Fail;
use tests_stations::{F, case_of, plain_station};

const fn of_first_pair(number: u16, value: i128) -> PairValue {
    PairValue {
        first: 0,
        second: 1,
        number,
        value,
    }
}

/// Both trains of the first pair have 5 at `a` and -5 at `b`.
fn leaf_of_letters(alloc: Global) -> Result<Option<Leaf>, AllocError> {
    let low = |train| TrainValue { train, value: -5 };
    Ok(leaf_of(Draft {
        q: 1,
        u: vec![in alloc; low(0), low(1)]?,
        v: Vec::new(alloc),
        alpha: vec![in alloc; of_first_pair(0, 5), of_first_pair(1, -5)]?,
        beta: vec![in alloc; of_first_pair(0, 5), of_first_pair(1, -5)]?,
    }))
}

/// The patterns of the first train below number 1, and all of the others. None where that isn't a part.
fn first_below(alloc: Global, all: &Allowed) -> Result<Option<Allowed>, AllocError>
    requires { 0 < length all.now.lists }
    ensures part { IfOk result (λ o. IfSome o (λ a. ArePartOf a.lists all.now.lists)) }
    ensures fits { (book : List (List Offer)) → FitsBook all.now.lists book → IfOk result (λ o. IfSome o (λ a. FitsBook a.lists book)) }
{
    match all.split(alloc, 0, 1) {
        Ok(TwoParts { below, rest: _ }) => Ok(Some(below)),
        Err(_) => Ok(None),
    }
}

/// The value of the leaf for the lists. None where it doesn't stand.
fn value_in(case: &Case, allowed: &Allowed, leaf: &Leaf) -> Option<i128>
    requires { FitsBook allowed.now.lists case.now.book }
    ensures { IfSome result (λ _. LeafStands case.now allowed.now.lists leaf.now) }
{
    if !are_places(case, allowed, leaf) {
        return None;
    }
    match leaf_check(case, allowed, leaf) {
        Ok(worth) => Some(worth.value),
        Err(_) => None,
    }
}

/// The leaf narrowed to the patterns of the first train below number 1, with its value. None where it doesn't stand.
fn narrowed(alloc: Global, case: &Case, leaf: &Leaf) -> Result<Option<(Leaf, i128)>, AllocError> {
    let all = Allowed::all(alloc, case.book())?;
    if all.lists.len() == 0 {
        return Ok(None);
    }
    let Some(_value) = value_in(case, &all, leaf) else {
        return Ok(None);
    };
    let Some(below) = first_below(alloc, &all)? else {
        return Ok(None);
    };
    let narrow = narrow_leaf(alloc, case, &all, &below, leaf)?;
    match value_in(case, &below, &narrow) {
        Some(value) => Ok(Some((narrow, value))),
        None => Ok(None),
    }
}

// The leaf keeps its value of -10, and loses what it has at the pattern that the part doesn't have.
#[test]
fn narrows_potentials(rt: HostRuntime) -> Result<(), Fail> {
    let alloc = rt.alloc();
    let case = case_of(alloc, &plain_station(alloc, &F)?)?;
    let Some(leaf) = leaf_of_letters(alloc)? else {
        return Err(Fail::from("no leaf"));
    };
    let Some((narrow, value)) = narrowed(alloc, &case, &leaf)? else {
        return Err(Fail::from("it doesn't stand"));
    };
    assert_eq!(rt; value, -10);
    assert_eq!(rt; narrow.q, 1);
    assert_eq!(rt; narrow.u.as_slice(), leaf.u.as_slice());
    assert_eq!(rt; narrow.v.len(), 0);
    assert_eq!(rt; narrow.alpha.as_slice(), [of_first_pair(0, 5)].as_slice());
    assert_eq!(rt; narrow.beta.as_slice(), leaf.beta.as_slice());
    Ok(())
}
