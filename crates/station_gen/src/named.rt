// The names that numbers stand for, as text.
ghost use Rattle.std.specs.Prelude.{◌≡◌, IfOk, [], slice_index_or};
ghost use Rattle.serde_json.specs.View.{view};
ghost use Rattle.station.specs.Shown.{record_of};
ghost use Rattle.station_gen.specs.Json.{named_if_json, platform_names, path_names};

use serde_json::Value;
use station::{Name, Station};
use std::alloc::{AllocError, Global};

pub(crate) fn text_of(name: &Name) -> &str
    ensures { result.now ≡ name.now }
{
    match str::from_utf8(name.bytes()) {
        Ok(text) => text,
        // A name's bytes are ASCII.
        Err(_) => unreachable!(),
    }
}

pub(crate) fn direction_name(station: &Station, number: u8) -> &str
    ensures { result.now ≡ slice_index_or (record_of station.now).directions number [] }
{
    match station.directions.get(number as usize) {
        Some(name) => text_of(name),
        None => "",
    }
}

pub(crate) fn platform_name(station: &Station, number: u8) -> &str
    ensures { result.now ≡ slice_index_or (platform_names (record_of station.now)) number [] }
{
    match station.platforms.get(number as usize) {
        Some(platform) => text_of(&platform.name),
        None => "",
    }
}

pub(crate) fn path_name(station: &Station, number: u16) -> &str
    ensures { result.now ≡ slice_index_or (path_names (record_of station.now)) number [] }
{
    match station.paths.get(number as usize) {
        Some(path) => text_of(&path.name),
        None => "",
    }
}

/// A direction's name, and `null` where a train has none.
pub(crate) fn direction_json(
    alloc: Global,
    station: &Station,
    number: Option<u8>,
) -> Result<Value, AllocError>
    ensures { IfOk result (λ v. view v ≡ named_if_json (record_of station.now).directions number) }
{
    match number {
        Some(number) => Value::try_from_str(alloc, direction_name(station, number)),
        None => Ok(Value::Null),
    }
}
