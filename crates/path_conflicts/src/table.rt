ghost use Rattle.path_conflicts.specs.Overlap.{is_pair_of, are_incompatible};
ghost use Rattle.path_conflicts.specs.Table.{IsTableOf, is_marked, mark_at};
ghost use Rattle.station.specs.Shown.{record_of};
ghost use Rattle.std.specs.List.{list_any};
ghost use Rattle.std.specs.Prelude.{◌≡◌, ℕ, ◌*◌, ◌<◌, ◌≤◌, ◌==◌, ◌&&◌, ◌||◌, false, length, IfOk};

use station::{PathPair, Station};
use std::alloc::{AllocError, Global};
use std::marker::Model;

/// Which paths of a station are incompatible: each with itself, and two others where their pair is listed. Contracts see
/// the table of marks.
#[derive(Drop)]
pub struct Conflicts {
    count: usize,
    marks: Vec<bool>,
}

impl Model for Conflicts {
    ghost use Rattle.path_conflicts.specs.Table.{Table, IsTable};

    ghost Value = { Table };

    ghost view = { λ c. record { count = c.count; marks = c.marks.items } };

    ghost invariant = { λ c. IsTable (record { count = c.count; marks = c.marks.items }) };
}

impl Conflicts {
    /// The table of a station, with one mark for each two of its at most 500 paths.
    ///
    /// # Errors
    /// `AllocError` where the table finds no memory.
    pub fn new(alloc: Global, station: &Station) -> Result<Conflicts, AllocError>
        ensures { IfOk result (λ c. IsTableOf (record_of station.now) c) }
    {
        let count = station.paths.len();
        let mut marks = vec![in alloc; false; count * count]?;
        mark_same(&mut marks, count);
        mark_listed(&mut marks, count, station);
        Ok(Conflicts { count, marks })
    }

    /// Whether the two paths can't be used at once. One look into the table, and no memory.
    pub fn incompatible(&self, p: u16, q: u16) -> bool
        requires first { p < self.now.count }
        requires second { q < self.now.count }
        ensures { result ≡ is_marked self.now p q }
    {
        self.marks[p as usize * self.count + q as usize]
    }
}

/// Marks one place.
fn mark(marks: &mut [bool], count: usize, p: usize, q: usize)
    requires size { length marks.old ≡ count * count }
    requires limit { count ≤ 500 }
    requires first { p < count }
    requires second { q < count }
    ensures { (i j : ℕ) → i < count → j < count →
        mark_at marks.new count i j ≡ ((p == i && q == j) || mark_at marks.old count i j) }
{
    marks[p * count + q] = true;
}

/// Marks the two places of a pair.
fn mark_pair(marks: &mut [bool], count: usize, pair: PathPair)
    requires size { length marks.old ≡ count * count }
    requires limit { count ≤ 500 }
    requires first { pair.first < count }
    requires second { pair.second < count }
    ensures { (i j : ℕ) → i < count → j < count →
        mark_at marks.new count i j ≡ (is_pair_of i j pair || mark_at marks.old count i j) }
{
    mark(marks, count, pair.first as usize, pair.second as usize);
    mark(marks, count, pair.second as usize, pair.first as usize);
}

/// Marks each path beside itself.
fn mark_same(marks: &mut [bool], count: usize)
    requires size { length marks.old ≡ count * count }
    requires limit { count ≤ 500 }
    ensures { (i j : ℕ) → i < count → j < count → mark_at marks.new count i j ≡ (i == j || mark_at marks.old count i j) }
{
    for p in 0..count {
        mark(marks, count, p, p);
    }
}

/// Marks the listed pairs.
fn mark_listed(marks: &mut [bool], count: usize, station: &Station)
    requires size { length marks.old ≡ count * count }
    requires paths { count ≡ length station.now.paths }
    ensures { (i j : ℕ) → i < count → j < count →
        mark_at marks.new count i j ≡ (mark_at marks.old count i j || list_any (is_pair_of i j) station.now.incompatible) }
{
    for pair in station.incompatible.as_slice() {
        mark_pair(marks, count, *pair);
    }
}
