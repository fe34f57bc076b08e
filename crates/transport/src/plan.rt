//! The plan: weight is placed row by row, until none is left.

ghost use Rattle.std.specs.Prelude.{◌≡◌, ℕ, ◌<◌, ◌≤◌, ◌+◌, ◌*◌, ◌^◌, List, [], length, slice_index, vec_len, IfOk, OnOk, sum};
ghost use Rattle.transport.specs.Core.{IsPlan, KeepsRows, ArePotentials, lifted};
ghost use Rattle.transport.specs.Kept.{IsPlacement};

use crate::Cost;
use crate::entries::{Entry, shift};
use crate::potentials::{LIFT, column_most};
use crate::search::find;
use std::alloc::{AllocError, Global};

/// Places some weight of a row.
fn place_some<C: Cost>(
    alloc: Global,
    cost: &C,
    rows: &mut [u64],
    columns: &mut [u64],
    entries: &mut Vec<Entry>,
    supply: &mut [u128],
    demand: &mut [u128],
    right: &[u128],
    root: usize,
) -> Result<(), AllocError>
    requires rows { length rows.old ≡ C.row_count cost.now }
    requires columns { length columns.old ≡ C.column_count cost.now }
    requires plan { IsPlan (C.table cost.now) right.now supply.old demand.old entries.old.items rows.old columns.old }
    requires root { root < length supply.old }
    requires some { 0 < slice_index supply.old root }
    ensures plan { OnOk result
        (IsPlan (C.table cost.now) right.now supply.new demand.new entries.new.items rows.new columns.new) }
    ensures keeps { OnOk result (KeepsRows entries.old.items supply.old entries.new.items supply.new) }
    ensures less { OnOk result (slice_index supply.new root < slice_index supply.old root) }
    ensures others { OnOk result ((i : ℕ) → (i ≡ root → ⊥) → slice_index supply.new i ≡ slice_index supply.old i) }
{
    let way = find(
        alloc,
        cost,
        rows,
        columns,
        entries,
        demand,
        right,
        root,
        supply[root],
    )?;
    let row = way.end.row;
    let column = way.end.column;
    let amount = demand[column].min(way.search.marks[row].room);
    shift(entries, &way.search.marks, root, row, column, amount)?;
    supply[root] -= amount;
    demand[column] -= amount;
    Ok(())
}

/// Places all weight of a row.
fn place_row<C: Cost>(
    alloc: Global,
    cost: &C,
    rows: &mut [u64],
    columns: &mut [u64],
    entries: &mut Vec<Entry>,
    supply: &mut [u128],
    demand: &mut [u128],
    right: &[u128],
    root: usize,
) -> Result<(), AllocError>
    requires rows { length rows.old ≡ C.row_count cost.now }
    requires columns { length columns.old ≡ C.column_count cost.now }
    requires plan { IsPlan (C.table cost.now) right.now supply.old demand.old entries.old.items rows.old columns.old }
    requires root { root < length supply.old }
    ensures plan { OnOk result
        (IsPlan (C.table cost.now) right.now supply.new demand.new entries.new.items rows.new columns.new) }
    ensures keeps { OnOk result (KeepsRows entries.old.items supply.old entries.new.items supply.new) }
    ensures none { OnOk result (slice_index supply.new root ≡ 0) }
    ensures others { OnOk result ((i : ℕ) → (i ≡ root → ⊥) → slice_index supply.new i ≡ slice_index supply.old i) }
{
    while supply[root] > 0 {
        place_some(
            alloc, cost, rows, columns, entries, supply, demand, right, root,
        )?;
    }
    Ok(())
}

/// Places all weight.
fn place_all<C: Cost>(
    alloc: Global,
    cost: &C,
    rows: &mut [u64],
    columns: &mut [u64],
    entries: &mut Vec<Entry>,
    supply: &mut [u128],
    demand: &mut [u128],
    right: &[u128],
) -> Result<(), AllocError>
    requires rows { length rows.old ≡ C.row_count cost.now }
    requires columns { length columns.old ≡ C.column_count cost.now }
    requires plan { IsPlan (C.table cost.now) right.now supply.old demand.old entries.old.items rows.old columns.old }
    ensures plan { OnOk result
        (IsPlan (C.table cost.now) right.now supply.new demand.new entries.new.items rows.new columns.new) }
    ensures keeps { OnOk result (KeepsRows entries.old.items supply.old entries.new.items supply.new) }
    ensures none { OnOk result ((i : ℕ) → slice_index supply.new i ≡ 0) }
{
    for root in 0..supply.len() {
        place_row(
            alloc, cost, rows, columns, entries, supply, demand, right, root,
        )?;
    }
    Ok(())
}

/// The first potential of a column of this weight, where each row has `LIFT`.
fn open_column<C: Cost>(cost: &C, rows: &[u64], column: usize, weight: u128) -> u64
    requires rows { length rows.now ≡ C.row_count cost.now }
    requires column { column < C.column_count cost.now }
    requires lifts { (i : ℕ) → i < length rows.now → slice_index rows.now i ≡ LIFT }
    ensures below { (i : ℕ) → i < length rows.now
        → slice_index rows.now i + result ≤ lifted (C.table cost.now) i column }
    ensures cap { result ≤ 2 * LIFT }
    ensures wanting { 0 < weight → LIFT ≤ result }
{
    if weight > 0 {
        column_most(cost, rows, column)
    } else {
        0
    }
}

/// The first potentials of the columns, where each row has `LIFT`.
fn open_columns<C: Cost>(
    alloc: Global,
    cost: &C,
    rows: &[u64],
    right: &[u128],
) -> Result<Vec<u64>, AllocError>
    requires rows { length rows.now ≡ C.row_count cost.now }
    requires columns { length right.now ≡ C.column_count cost.now }
    requires lifts { (i : ℕ) → i < length rows.now → slice_index rows.now i ≡ LIFT }
    ensures { IfOk result (λ columns.
        ArePotentials (C.table cost.now) rows.now columns.items [] right.now × (length columns.items ≡ length right.now)) }
{
    let mut columns = Vec::new(alloc);
    for (column, weight) in right.iter().enumerate() {
        columns.push(open_column(cost, rows, column, *weight))?;
    }
    Ok(columns)
}

/// Places all weight, where none is placed yet.
fn complete<C: Cost>(
    alloc: Global,
    cost: &C,
    rows: &mut [u64],
    columns: &mut [u64],
    entries: &mut Vec<Entry>,
    supply: &mut [u128],
    demand: &mut [u128],
    right: &[u128],
) -> Result<(), AllocError>
    requires rows { length rows.old ≡ C.row_count cost.now }
    requires columns { length columns.old ≡ C.column_count cost.now }
    requires empty { entries.old.items ≡ [] }
    requires plan { IsPlan (C.table cost.now) right.now supply.old demand.old entries.old.items rows.old columns.old }
    ensures { OnOk result
        (IsPlacement (C.table cost.now) supply.old right.now entries.new.items rows.new columns.new) }
{
    place_all(alloc, cost, rows, columns, entries, supply, demand, right)?;
    Ok(())
}

/// The weights placed, and the lifted potentials.
#[derive(Drop)]
pub struct Placement {
    pub entries: Vec<Entry>,
    pub rows: Vec<u64>,
    pub columns: Vec<u64>,
}

/// Places all weight at least cost.
pub fn place<C: Cost>(
    alloc: Global,
    cost: &C,
    left: &[u128],
    right: &[u128],
) -> Result<Placement, AllocError>
    requires rows { length left.now ≡ C.row_count cost.now }
    requires columns { length right.now ≡ C.column_count cost.now }
    requires totals { sum left.now ≡ sum right.now }
    requires scale { sum left.now < 2 ^ 126 }
    ensures { IfOk result (λ p.
        IsPlacement (C.table cost.now) left.now right.now p.entries.items p.rows.items p.columns.items) }
{
    let mut supply = left.to_vec(alloc)?;
    let mut demand = right.to_vec(alloc)?;
    let mut rows = vec![in alloc; LIFT; left.len()]?;
    let mut columns = open_columns(alloc, cost, &rows, right)?;
    let mut entries = Vec::new(alloc);
    complete(
        alloc,
        cost,
        &mut rows,
        &mut columns,
        &mut entries,
        &mut supply,
        &mut demand,
        right,
    )?;
    Ok(Placement {
        entries,
        rows,
        columns,
    })
}
