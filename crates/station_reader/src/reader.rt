// From a text to a station, or to the first reason why it is refused.
ghost use Rattle.std.specs.Prelude.{◌≡◌, IfSome, IfNone};
ghost use Rattle.serde_json.specs.View.{view};
ghost use Rattle.station_reader.specs.PlaceText.{spot_text};
ghost use Rattle.station_reader.specs.Shape.{edition};
ghost use Rattle.station_reader.specs.Reading.{reading, reading_in, judged, classes, station_record, refused};
ghost use Rattle.station_reader.specs.Classes.{path_names};
ghost use Rattle.station_reader.specs.Passes.{IsNamed, IsClear};
ghost use Rattle.station.specs.Station.{IsStation};
ghost use Rattle.station_reader.specs.Drafted.{draft_record};
ghost use Rattle.station.specs.Shown.{record_of};
ghost use Rattle.station_reader.specs.Answers.{Answers, IsRefusal};

use crate::count::count;
use crate::draft::{Draft, make_draft};
use crate::form::{Edition, Naming};
use crate::member::Member;
use crate::name_table::NameTable;
use crate::names::{double, name};
use crate::patterns::patterns;
use crate::place::{Place, Spot};
use crate::range::range;
use crate::refusal::{Refused, RefusedKind, StationFault};
use crate::shape::{edition, shape};
use crate::tree::entries_at;
use crate::unknown::unknown;
use serde_json::Value;
use station::Station;
use std::alloc::Global;

/// The most bytes of a text.
const LONGEST: usize = 16_777_216;

/// The station that the text describes ("The instance" in docs/FORMATS.md).
///
/// # Errors
///
/// `Refused` exactly where the text describes none: with the first class that has a failing place,
/// and the first such place. `Memory` where memory is refused.
pub fn read_station(alloc: Global, bytes: &[u8]) -> Result<Station, StationFault>
    ensures { Answers (reading bytes.now) result }
{
    if bytes.len() > LONGEST {
        return Err(refusal(alloc, RefusedKind::Long, Spot::Top));
    }
    match Value::from_slice(alloc, bytes) {
        Ok(tree) => station_of(alloc, &tree),
        Err(error) => {
            if error.is_memory() {
                Err(StationFault::Memory)
            } else {
                Err(refusal(alloc, RefusedKind::NotJson, Spot::Top))
            }
        }
    }
}

fn refusal(alloc: Global, kind: RefusedKind, spot: Spot) -> StationFault
    ensures { IsRefusal kind (spot_text spot) result }
{
    match Place::of(alloc, spot) {
        Ok(place) => StationFault::Refused(Refused { kind, place }),
        Err(_) => StationFault::Memory,
    }
}

fn station_of(alloc: Global, tree: &Value) -> Result<Station, StationFault>
    ensures { Answers (reading_in (view tree.now) (edition (view tree.now))) result }
{
    let Some(edition) = edition(tree) else {
        return Err(refusal(alloc, RefusedKind::Version, Spot::Top));
    };
    match early_class(edition, tree) {
        Some((kind, spot)) => Err(refusal(alloc, kind, spot)),
        None => station_named(alloc, edition, tree),
    }
}

/// The first of the classes up to repeated names that has a failing place.
fn early_class(edition: Edition, tree: &Value) -> Option<(RefusedKind, Spot)>
    ensures found { IfSome result (λ x. judged (classes edition (view tree.now)) (station_record (view tree.now)) ≡ refused x.0 (spot_text x.1)) }
    ensures clear { IfNone result (IsNamed edition (view tree.now)) }
{
    if let Some(spot) = shape(edition, tree) {
        return Some((RefusedKind::Shape, spot));
    }
    if let Some(spot) = count(tree) {
        return Some((RefusedKind::Count, spot));
    }
    if let Some(spot) = name(tree) {
        return Some((RefusedKind::Name, spot));
    }
    if let Some(spot) = double(tree) {
        return Some((RefusedKind::Double, spot));
    }
    None
}

/// The answer for a tree whose declared names are names and differ.
fn station_named(alloc: Global, edition: Edition, tree: &Value) -> Result<Station, StationFault>
    requires { IsNamed edition (view tree.now) }
    ensures { Answers (judged (classes edition (view tree.now)) (station_record (view tree.now))) result }
{
    let Ok(paths) = NameTable::of(alloc, Naming::Name, entries_at(Member::Paths, tree)) else {
        return Err(StationFault::Memory);
    };
    match late_class(edition, tree, &paths) {
        Some((kind, spot)) => Err(refusal(alloc, kind, spot)),
        None => station_with(alloc, edition, tree, &paths),
    }
}

/// The first of the later classes that has a failing place, but for the last, which counts patterns.
fn late_class(edition: Edition, tree: &Value, paths: &NameTable<'_>) -> Option<(RefusedKind, Spot)>
    requires named { IsNamed edition (view tree.now) }
    requires paths { paths.now ≡ path_names (view tree.now) }
    ensures found { IfSome result (λ x. judged (classes edition (view tree.now)) (station_record (view tree.now)) ≡ refused x.0 (spot_text x.1)) }
    ensures clear { IfNone result (IsClear edition (view tree.now)) }
{
    if let Some(spot) = unknown(tree, paths) {
        return Some((RefusedKind::Unknown, spot));
    }
    if let Some(spot) = range(tree) {
        return Some((RefusedKind::Range, spot));
    }
    None
}

/// The station of a tree in which no class but the last has a failing place.
fn station_with(
    alloc: Global,
    edition: Edition,
    tree: &Value,
    paths: &NameTable<'_>,
) -> Result<Station, StationFault>
    requires clear { IsClear edition (view tree.now) }
    requires paths { paths.now ≡ path_names (view tree.now) }
    ensures { Answers (judged (classes edition (view tree.now)) (station_record (view tree.now))) result }
{
    let Ok(parts) = make_draft(alloc, tree, paths) else {
        return Err(StationFault::Memory);
    };
    match patterns(&parts) {
        Some(spot) => Err(refusal(alloc, RefusedKind::Patterns, spot)),
        None => Ok(finished(parts)),
    }
}

fn finished(parts: Draft) -> Station
    requires { IsStation (draft_record parts) }
    ensures { record_of result ≡ draft_record parts }
{
    Station {
        threshold: parts.threshold,
        conflict_price: parts.conflict_price,
        buffer_price: parts.buffer_price,
        directions: parts.directions,
        platforms: parts.platforms,
        paths: parts.paths,
        incompatible: parts.incompatible,
        trains: parts.trains,
    }
}
