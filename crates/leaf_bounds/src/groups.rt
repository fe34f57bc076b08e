ghost use Rattle.leaf_bounds.specs.Group.{group_in};
ghost use Rattle.leaf_bounds.specs.Places.{key_at, ArePairValues, IsPlace};
ghost use Rattle.leaf_bounds.specs.Row.{AreBelowBoth, ArePlacesOf};
ghost use Rattle.leaf_bounds.specs.Sharing.{entries_of, entry_list, group_of, groups_of, is_some_group, most_trains, same_entries, same_group};
ghost use Rattle.pair_prices.specs.Trains.{pairs_with};
ghost use Rattle.std.specs.Prelude.{◌≡◌, ◌<◌, ◌++◌, ◌∷◌, [], if◌then◌else◌, filter, map, slice_get, IfOk, OnOk};

use crate::leaf::Leaf;
use crate::number::{NumberValue, PairValue};
use crate::pairs::{Places, places_from};
use crate::places::{PairNumber, place_from};
use crate::table::PotTable;
use sequence::Sequence;
use std::alloc::{AllocError, Global};

/// There are at most so many trains.
const MOST_TRAINS: u16 = 200;

/// The potentials that the leaf lists, a table for each pair of trains that has some, by pair.
pub(crate) fn groups_in(alloc: Global, leaf: &Leaf) -> Result<Vec<PotTable>, AllocError>
    ensures { IfOk result (λ v. map group_in v.items ≡ groups_of leaf.now) }
{
    let mut groups = Vec::new(alloc);
    push_groups_of(alloc, leaf, &mut groups)?;
    Ok(groups)
}

/// Adds them to others.
pub(crate) fn push_groups_of(
    alloc: Global,
    leaf: &Leaf,
    groups: &mut Vec<PotTable>,
) -> Result<(), AllocError>
    ensures { OnOk result (map group_in groups.new.items ≡ map group_in groups.old.items ++ groups_of leaf.now) }
{
    let mut at = Places { alpha: 0, beta: 0 };
    for first in 0..MOST_TRAINS {
        at = places_from(leaf, &at, first, 0);
        push_groups(alloc, leaf, first, &at, groups)?;
    }
    Ok(())
}

/// Adds those of one first train.
fn push_groups(
    alloc: Global,
    leaf: &Leaf,
    first: u16,
    from: &Places,
    groups: &mut Vec<PotTable>,
) -> Result<(), AllocError>
    requires first { first < 200 }
    requires below { AreBelowBoth leaf.now (key_at first 0 0) from.now }
    ensures { OnOk result (map group_in groups.new.items
        ≡ map group_in groups.old.items ++ filter is_some_group (map (group_of leaf.now) (pairs_with most_trains first))) }
{
    let mut at = *from;
    for second in first + 1..MOST_TRAINS {
        at = places_from(leaf, &at, first, second);
        push_group(alloc, leaf, first, second, &at, groups)?;
    }
    Ok(())
}

/// Adds the pair's table, unless it is empty.
fn push_group(
    alloc: Global,
    leaf: &Leaf,
    first: u16,
    second: u16,
    at: &Places,
    groups: &mut Vec<PotTable>,
) -> Result<(), AllocError>
    requires order { first < second }
    requires second { second < 200 }
    requires places { ArePlacesOf leaf.now (key_at first second 0) at.now }
    ensures { let g = group_of leaf.now (record { first = first; second = second }) in
        OnOk result (map group_in groups.new.items ≡ map group_in groups.old.items ++ (if is_some_group g then (g ∷ []) else [])) }
{
    let table = table_of(alloc, leaf, first, second, at)?;
    if table.alpha.len() > 0 || table.beta.len() > 0 {
        groups.push(table)?;
    }
    Ok(())
}

fn table_of(
    alloc: Global,
    leaf: &Leaf,
    first: u16,
    second: u16,
    at: &Places,
) -> Result<PotTable, AllocError>
    requires order { first < second }
    requires second { second < 200 }
    requires places { ArePlacesOf leaf.now (key_at first second 0) at.now }
    ensures { IfOk result (λ t. group_in t ≡ group_of leaf.now (record { first = first; second = second })) }
{
    Ok(PotTable {
        first,
        second,
        alpha: numbers_of_pair(alloc, &leaf.alpha, first, second, at.alpha)?,
        beta: numbers_of_pair(alloc, &leaf.beta, first, second, at.beta)?,
    })
}

/// The pair's entries, which begin at that place.
fn numbers_of_pair(
    alloc: Global,
    xs: &Sequence<PairValue>,
    first: u16,
    second: u16,
    place: usize,
) -> Result<Sequence<NumberValue>, AllocError>
    requires values { ArePairValues xs.now }
    requires first { first < 200 }
    requires second { second < 200 }
    requires place { IsPlace xs.now (key_at first second 0) place }
    ensures { IfOk result (λ s. s ≡ entries_of (record { first = first; second = second }) xs.now) }
{
    let after = PairNumber {
        first,
        second,
        number: 4096,
    };
    let end = place_from(xs, place, &after);
    let mut numbers = Vec::new(alloc);
    for at in place..end {
        push_entry(&mut numbers, xs, at)?;
    }
    Ok(Sequence::from_vec(numbers))
}

fn push_entry(
    numbers: &mut Vec<NumberValue>,
    xs: &Sequence<PairValue>,
    at: usize,
) -> Result<(), AllocError>
    ensures { OnOk result (numbers.new.items ≡ numbers.old.items ++ entry_list (slice_get xs.now at)) }
{
    if let Some(x) = xs.get(at) {
        numbers.push(NumberValue {
            number: x.number,
            value: x.value,
        })?;
    }
    Ok(())
}

/// Whether two tables are of one pair and have the same numbers.
pub(crate) fn is_same(a: &PotTable, b: &PotTable) -> bool
    ensures { result ≡ same_group (group_in a.now) (group_in b.now) }
{
    a.first == b.first
        && a.second == b.second
        && are_same(a.alpha.as_slice(), b.alpha.as_slice())
        && are_same(a.beta.as_slice(), b.beta.as_slice())
}

fn are_same(a: &[NumberValue], b: &[NumberValue]) -> bool
    ensures { result ≡ same_entries a.now b.now }
{
    if a.len() != b.len() {
        return false;
    }
    for k in 0..a.len() {
        if a[k] != b[k] {
            return false;
        }
    }
    true
}
