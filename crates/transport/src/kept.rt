//! The rows and columns with weight. The search looks at no others.

ghost use Rattle.std.specs.Prelude.{◌≡◌, ℕ, ◌<◌, ◌++◌, List, length, map, slice_index, IfOk, OnOk, All};
ghost use Rattle.transport.specs.Kept.{kept_from, kept_one, whole_entry};

use crate::Cost;
use crate::entries::Entry;
use std::alloc::{AllocError, Global};

/// Some of a table's rows, by their numbers.
#[derive(Drop)]
pub struct SomeRows<'a, C: Cost> {
    pub cost: &'a C,
    pub rows: &'a [usize],
    ghost inside: { (k : ℕ) → k < length rows.now
        → slice_index rows.now k < C.row_count cost.now },
}

impl<'a, C: Cost> Cost for SomeRows<'a, C> {
    ghost row_count = { λ s. length s.rows.now };

    ghost column_count = { λ s. C.column_count s.cost.now };

    ghost table = { λ s k j. C.table s.cost.now (slice_index s.rows.now k) j };

    fn rows(&self) -> usize {
        self.rows.len()
    }

    fn columns(&self) -> usize {
        self.cost.columns()
    }

    fn cost(&self, i: usize, j: usize) -> i64 {
        self.cost.cost(self.rows[i], j)
    }

    ghost bounded = { λ s k j row column.
        C.bounded s.cost.now (slice_index s.rows.now k) j (s.inside k row) column };
}

/// Some of a table's columns, by their numbers.
#[derive(Drop)]
pub struct SomeColumns<'a, C: Cost> {
    pub cost: &'a C,
    pub columns: &'a [usize],
    ghost inside: { (k : ℕ) → k < length columns.now
        → slice_index columns.now k < C.column_count cost.now },
}

impl<'a, C: Cost> Cost for SomeColumns<'a, C> {
    ghost row_count = { λ s. C.row_count s.cost.now };

    ghost column_count = { λ s. length s.columns.now };

    ghost table = { λ s i k. C.table s.cost.now i (slice_index s.columns.now k) };

    fn rows(&self) -> usize {
        self.cost.rows()
    }

    fn columns(&self) -> usize {
        self.columns.len()
    }

    fn cost(&self, i: usize, j: usize) -> i64 {
        self.cost.cost(i, self.columns[j])
    }

    ghost bounded = { λ s i k row column.
        C.bounded s.cost.now i (slice_index s.columns.now k) row (s.inside k column) };
}

/// Keeps the place, if it has weight.
fn keep(places: &mut Vec<usize>, place: usize, weight: u128) -> Result<(), AllocError>
    ensures { OnOk result (places.new.items ≡ places.old.items ++ kept_one place weight) }
{
    if weight > 0 {
        places.push(place)?;
    }
    Ok(())
}

/// The places with weight.
pub fn places_of(alloc: Global, weights: &[u128]) -> Result<Vec<usize>, AllocError>
    ensures { IfOk result (λ v. v.items ≡ kept_from 0 weights.now) }
{
    let mut places = Vec::new(alloc);
    for (place, weight) in weights.iter().enumerate() {
        keep(&mut places, place, *weight)?;
    }
    Ok(places)
}

/// The weights at the places.
pub fn weights_at(
    alloc: Global,
    weights: &[u128],
    places: &[usize],
) -> Result<Vec<u128>, AllocError>
    requires { (k : ℕ) → k < length places.now → slice_index places.now k < length weights.now }
    ensures { IfOk result (λ v. v.items ≡ map (slice_index weights.now) places.now) }
{
    let mut some = Vec::new(alloc);
    for place in places {
        some.push(weights[*place])?;
    }
    Ok(some)
}

/// The entries in the whole table.
pub fn whole_entries(
    alloc: Global,
    entries: &[Entry],
    rows: &[usize],
    columns: &[usize],
) -> Result<Vec<Entry>, AllocError>
    requires rows { All (λ e. e.row < length rows.now) entries.now }
    requires columns { All (λ e. e.column < length columns.now) entries.now }
    ensures { IfOk result (λ v. v.items ≡ map (whole_entry rows.now columns.now) entries.now) }
{
    let mut whole = Vec::new(alloc);
    for entry in entries {
        whole.push(Entry {
            row: rows[entry.row],
            column: columns[entry.column],
            weight: entry.weight,
        })?;
    }
    Ok(whole)
}
