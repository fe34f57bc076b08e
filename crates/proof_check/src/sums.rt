ghost use Rattle.leaf_bounds.specs.Listed.{pair_key, IsSmall};
ghost use Rattle.patterns.specs.Allowed.{list_of};
ghost use Rattle.proof_check.specs.Sums.{AreKeyed, AreListed, AreLists, IsAdded, IsEntryAdded, IsNumberAdded, numbers_on, is_some_entry, pair_of, some_entries, train_at, value_at};
ghost use Rattle.proof_check.specs.Tables.{group_of};
ghost use Rattle.std.specs.BTreeMap.{insert_entry, IsOrdered};
ghost use Rattle.std.specs.Ordering.{nat_cmp};
ghost use Rattle.std.specs.Prelude.{◌≡◌, ◌≤◌, ◌<◌, ◌^◌, ◌*ℤ◌, ◌+ℤ◌, [], ◌∷◌, ◌++◌, filter, length, unsigned_abs, IfOk, OnOk, IfSome, IfNone};

use crate::side::Side;
use crate::splits::Splits;
use crate::stop::Stop;
use crate::table::Table;
use leaf_bounds::{NumberValue, PairValue, UseOf};
use proof_rules::ProofKind;
use std::alloc::{AllocError, Global};
use std::collections::BTreeMap;

/// No sum is above this in size.
const MOST: u128 = 1_000_000_000_000_000_000_000_000_000_000;

/// Sums of potentials, each at its place in the order of a leaf's lists.
pub(crate) type Sums = BTreeMap<u32, PairValue>;

/// Puts an entry in the place of what stood there.
pub(crate) fn put(sums: &mut Sums, x: &PairValue) -> Result<(), AllocError>
    requires first { x.now.first < 200 }
    requires second { x.now.second < 200 }
    ensures entries { OnOk result (sums.new.entries ≡ insert_entry nat_cmp sums.old.entries (pair_key x.now) x.now) }
    ensures ordered { OnOk result (IsOrdered nat_cmp sums.new) }
{
    sums.insert(place_of(x), *x)?;
    Ok(())
}

/// Adds a table's numbers, times the factor of the use, at the train's allowed numbers.
pub(crate) fn add_table(
    sums: &mut Sums,
    splits: &Splits,
    side: Side,
    table: &Table,
    used: &UseOf,
) -> Result<(), Stop>
    requires lists { AreLists splits.now.lists.lists }
    requires there { table.now.second < length splits.now.lists.lists }
    requires keyed { AreKeyed sums.old }
    requires listed { AreListed splits.now.lists.lists side sums.old }
    ensures { IsAdded splits.now.lists.lists side (group_of table.now) used.now.factor sums.old sums.new result }
{
    let numbers = numbers_on(table, side);
    for x in numbers {
        add_number(sums, splits, side, table, x, used)?;
    }
    Ok(())
}

/// Adds a table's number, times the factor, where it is of an allowed pattern.
fn add_number(
    sums: &mut Sums,
    splits: &Splits,
    side: Side,
    table: &Table,
    x: &NumberValue,
    used: &UseOf,
) -> Result<(), Stop>
    requires lists { AreLists splits.now.lists.lists }
    requires there { table.now.second < length splits.now.lists.lists }
    requires keyed { AreKeyed sums.old }
    requires listed { AreListed splits.now.lists.lists side sums.old }
    ensures { IsNumberAdded splits.now.lists.lists side (group_of table.now) used.now.factor x.now sums.old sums.new result }
{
    if !splits.contains(train_on(table, side), x.number) {
        return Ok(());
    }
    let entry = PairValue {
        first: table.first,
        second: table.second,
        number: x.number,
        value: x.value,
    };
    add_entry(sums, &entry, used)?;
    Ok(())
}

/// Adds an entry, times the factor.
fn add_entry(sums: &mut Sums, x: &PairValue, used: &UseOf) -> Result<(), Stop>
    requires keyed { AreKeyed sums.old }
    requires order { x.now.first < x.now.second }
    requires second { x.now.second < 200 }
    requires number { x.now.number < 4096 }
    ensures { IsEntryAdded x.now used.now.factor sums.old sums.new result }
{
    let Some(value) = sum_of(value_at(sums, place_of(x)), used.factor, x.value) else {
        return Err(Stop::Refused(ProofKind::Sum));
    };
    let sum = PairValue {
        first: x.first,
        second: x.second,
        number: x.number,
        value,
    };
    put(sums, &sum)?;
    Ok(())
}

fn value_at(sums: &Sums, place: u32) -> i128
    ensures { result ≡ value_at sums.now place }
{
    match sums.get(&place) {
        Some(x) => x.value,
        None => 0,
    }
}

/// The entries that aren't 0, ascending.
pub(crate) fn some_entries(alloc: Global, sums: &Sums) -> Result<Vec<PairValue>, AllocError>
    ensures { IfOk result (λ v. v.items ≡ some_entries sums.now) }
{
    let mut entries = Vec::new(alloc);
    for x in sums.values() {
        push_some(&mut entries, x)?;
    }
    Ok(entries)
}

fn push_some(entries: &mut Vec<PairValue>, x: &PairValue) -> Result<(), AllocError>
    ensures { OnOk result (entries.new.items ≡ entries.old.items ++ filter is_some_entry (x.now ∷ [])) }
{
    if x.value != 0 {
        entries.push(*x)?;
    }
    Ok(())
}

/// Where an entry stands in the order of a leaf's lists.
pub(crate) fn place_of(x: &PairValue) -> u32
    requires first { x.now.first < 200 }
    requires second { x.now.second < 200 }
    ensures { result ≡ pair_key x.now }
{
    (200 * u32::from(x.first) + u32::from(x.second)) * 4096 + u32::from(x.number)
}

/// The train whose patterns a table has numbers for, on this side.
fn train_on(table: &Table, side: Side) -> u16
    ensures { result ≡ train_at side (pair_of (group_of table.now)) }
{
    match side {
        Side::First => table.first,
        Side::Second => table.second,
    }
}

/// A table's numbers on this side.
fn numbers_on(table: &Table, side: Side) -> &[NumberValue]
    ensures { result.now ≡ numbers_on side (group_of table.now) }
{
    match side {
        Side::First => table.alpha.as_slice(),
        Side::Second => table.beta.as_slice(),
    }
}

/// The earlier value and the factor times the other, if that is small enough.
fn sum_of(earlier: i128, factor: i128, value: i128) -> Option<i128>
    requires { unsigned_abs earlier ≤ 10 ^ 30 }
    ensures found { IfSome result (λ sum. (sum ≡ factor *ℤ value +ℤ earlier) × (unsigned_abs sum ≤ 10 ^ 30)) }
    ensures none { IfNone result (10 ^ 30 < unsigned_abs (factor *ℤ value +ℤ earlier)) }
{
    let sum = factor.checked_mul(value)?.checked_add(earlier)?;
    if sum.unsigned_abs() <= MOST {
        Some(sum)
    } else {
        None
    }
}
