// The pairs of incompatible paths of a station.
ghost use Rattle.std.specs.Prelude.{◌≡◌, ◌≤◌, ◌<◌, ◌++◌, IfOk, OnOk, map, filter, cond, ◌∷◌, [], length};
ghost use Rattle.serde_json.specs.View.{view};
ghost use Rattle.station_reader.specs.Tree.{entries};
ghost use Rattle.station_reader.specs.Classes.{path_names};
ghost use Rattle.station_reader.specs.Reading.{incompatible_pairs, listed_pair, pairs_with, pairs_below, second_text};
ghost use Rattle.station_reader.specs.Marked.{is_marked, IsNumbered, MarksListed};

use crate::form::Naming;
use crate::member::Member;
use crate::name_table::NameTable;
use crate::names::name_in;
use crate::pair_table::PairTable;
use crate::tree::{entries, entries_at, text};
use sequence::Sequence;
use serde_json::Value;
use station::PathPair;
use std::alloc::{AllocError, Global};

/// The listed pairs of two different paths, ascending, each once.
pub(crate) fn incompatible_pairs(
    alloc: Global,
    tree: &Value,
    paths: &NameTable<'_>,
) -> Result<Sequence<PathPair>, AllocError>
    requires names { paths.now ≡ path_names (view tree.now) }
    requires few { length paths.now ≤ 500 }
    ensures { IfOk result (λ s. s ≡ incompatible_pairs (view tree.now)) }
{
    let table = marked_pairs(alloc, paths, entries_at(Member::Incompatible, tree))?;
    let found = pairs_among(alloc, entries_at(Member::Paths, tree).len(), &table)?;
    Ok(Sequence::from_vec(found))
}

/// A table in which the listed pairs are marked.
fn marked_pairs(
    alloc: Global,
    paths: &NameTable<'_>,
    entries: &[Value],
) -> Result<PairTable, AllocError>
    requires { length paths.now ≤ 500 }
    ensures { IfOk result (λ t. MarksListed t (map (listed_pair paths.now) (map view entries.now))) }
{
    let mut table = PairTable::new(alloc)?;
    for entry in entries {
        table.mark(listed_pair(paths, entry));
    }
    Ok(table)
}

/// The numbers of the paths that an entry names.
fn listed_pair(paths: &NameTable<'_>, entry: &Value) -> PathPair
    requires { length paths.now ≤ 500 }
    ensures value { result ≡ listed_pair paths.now (view entry.now) }
    ensures numbered { IsNumbered result }
{
    PathPair {
        first: paths.number(name_in(Naming::Charge, entry)) as u16,
        second: paths.number(second_text(entry)) as u16,
    }
}

fn second_text(entry: &Value) -> &str
    ensures { result.now ≡ second_text (entries (view entry.now)) }
{
    match entries(entry) {
        [_, second, ..] => text(second),
        _ => "",
    }
}

/// The marked pairs of paths below `count`.
fn pairs_among(alloc: Global, count: usize, table: &PairTable) -> Result<Vec<PathPair>, AllocError>
    requires { count ≤ 500 }
    ensures { IfOk result (λ v. v.items ≡ filter (is_marked table.now) (pairs_below count)) }
{
    let mut found = Vec::new(alloc);
    for first in 0..count {
        push_row(&mut found, count, first, table)?;
    }
    Ok(found)
}

/// Appends the marked pairs with this first path.
fn push_row(
    found: &mut Vec<PathPair>,
    count: usize,
    first: usize,
    table: &PairTable,
) -> Result<(), AllocError>
    requires few { count ≤ 500 }
    requires within { first < count }
    ensures { OnOk result (found.new.items ≡ found.old.items ++ filter (is_marked table.now) (pairs_with count first)) }
{
    for second in first + 1..count {
        let pair = PathPair {
            first: first as u16,
            second: second as u16,
        };
        push_if_marked(found, pair, table)?;
    }
    Ok(())
}

fn push_if_marked(
    found: &mut Vec<PathPair>,
    pair: PathPair,
    table: &PairTable,
) -> Result<(), AllocError>
    requires { IsNumbered pair }
    ensures { OnOk result (found.new.items ≡ found.old.items ++ cond (is_marked table.now pair) (pair ∷ []) []) }
{
    if table.is_marked(pair) {
        found.push(pair)?;
    }
    Ok(())
}
