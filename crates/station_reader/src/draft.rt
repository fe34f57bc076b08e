// A station's parts, made from a tree that passed the classes.
ghost use Rattle.std.specs.Prelude.{◌≡◌, IfOk};
ghost use Rattle.serde_json.specs.View.{view};
ghost use Rattle.station_reader.specs.Classes.{path_names as names_of_paths};
ghost use Rattle.station_reader.specs.Drafted.{draft_record};
ghost use Rattle.station_reader.specs.Passes.{TreePasses};
ghost use Rattle.station_reader.specs.Reading.{station_record};

use crate::convert::{directions, natural_at, platforms};
use crate::member::Member;
use crate::name_table::NameTable;
use crate::pairs::incompatible_pairs;
use crate::paths::paths;
use crate::trains::trains;
use crate::tree::entries_at;
use sequence::Sequence;
use serde_json::Value;
use station::{Name, Path, PathPair, Platform, Train};
use std::alloc::{AllocError, Global};

/// A station's parts before the patterns of its trains are counted.
#[derive(Drop)]
pub(crate) struct Draft {
    pub(crate) threshold: u32,
    pub(crate) conflict_price: u32,
    pub(crate) buffer_price: u32,
    pub(crate) directions: Sequence<Name>,
    pub(crate) platforms: Sequence<Platform>,
    pub(crate) paths: Sequence<Path>,
    pub(crate) incompatible: Sequence<PathPair>,
    pub(crate) trains: Sequence<Train>,
}

#[tactic(auto, unfolding(crate::specs::Reading::station_record))]
pub(crate) fn make_draft(
    alloc: Global,
    tree: &Value,
    path_names: &NameTable<'_>,
) -> Result<Draft, AllocError>
    requires passes { TreePasses (view tree.now) }
    requires names { path_names.now ≡ names_of_paths (view tree.now) }
    ensures { IfOk result (λ s. draft_record s ≡ station_record (view tree.now)) }
{
    Ok(Draft {
        threshold: natural_at(Member::Threshold, tree),
        conflict_price: natural_at(Member::ConflictPrice, tree),
        buffer_price: natural_at(Member::BufferPrice, tree),
        directions: directions(alloc, entries_at(Member::Directions, tree))?,
        platforms: platforms(alloc, entries_at(Member::Platforms, tree))?,
        paths: paths(alloc, tree)?,
        incompatible: incompatible_pairs(alloc, tree, path_names)?,
        trains: trains(alloc, tree)?,
    })
}
