// The JSON text of a station.
ghost use Rattle.std.specs.Prelude.{◌≡◌, IfOk, OnOk, string_bytes};
ghost use Rattle.std.specs.Str.{IsUtf8};
ghost use Rattle.serde_json.specs.View.{view, members_view};
ghost use Rattle.serde_json.specs.Written.{compact_text};
ghost use Rattle.station.specs.Shown.{record_of};
ghost use Rattle.station_reader.specs.Reading.{reading, taken};
ghost use Rattle.station_gen.specs.Json.{members_json, buffer_price_json, station_json, json_of};
ghost use Rattle.station_gen.specs.Put.{with_limits, with_lists_of};

use crate::entry::{Members, list_json};
use crate::version::{Version, version_of};
use serde_json::{Map, Value, put};
use station::Station;
use std::alloc::{AllocError, Global};

/// The station as compact JSON ("The instance as it is written" in docs/FORMATS.md): members in ascending order of
/// their bytes, no spaces, lists in the station's order and no newline at the end. It is of version 1 where that can
/// say the station, and of version 2 otherwise. `read_station` gives the same station back.
///
/// # Errors
///
/// Want of memory.
pub fn to_json(alloc: Global, station: &Station) -> Result<Vec<u8>, AllocError>
    ensures text { IfOk result (λ v. v.items ≡ compact_text (json_of (record_of station.now))) }
    ensures reads_back { IfOk result (λ v. reading v.items ≡ taken (record_of station.now)) }
{
    let tree = station_json(alloc, version_of(station), station)?;
    let text = tree.to_string(alloc)?;
    Ok(bytes_of(text))
}

fn bytes_of(text: String) -> Vec<u8>
    ensures bytes { result.items ≡ string_bytes text }
    ensures utf8 { IsUtf8 result.items }
{
    // That the bytes are UTF-8 is known of a `&str`.
    let _text = text.as_str();
    text.into_bytes()
}

#[tactic(auto, unfolding(crate::specs::Json::station_json))]
fn station_json(alloc: Global, version: Version, station: &Station) -> Result<Value, AllocError>
    ensures { IfOk result (λ v. view v ≡ station_json version (record_of station.now)) }
{
    let mut members = buffer_price(alloc, version, station)?;
    put_limits(alloc, version, station, &mut members)?;
    put_lists(alloc, version, station, &mut members)?;
    Ok(Value::Object(members))
}

/// The price of buffers, which version 1 doesn't have.
fn buffer_price(alloc: Global, version: Version, station: &Station) -> Result<Members, AllocError>
    ensures { IfOk result (λ m. members_view m.entries ≡ members_json (buffer_price_json version (record_of station.now))) }
{
    let mut members = Map::new(alloc);
    match version {
        Version::One => {}
        Version::Two => {
            let price = Value::from(station.buffer_price);
            put(&mut members, alloc, "buffer_price", price)?
        }
    }
    Ok(members)
}

fn put_limits(
    alloc: Global,
    version: Version,
    station: &Station,
    members: &mut Members,
) -> Result<(), AllocError>
    ensures { OnOk result (members_view members.new.entries ≡ with_limits version (record_of station.now) (members_view members.old.entries)) }
{
    let format = Value::try_from_str(alloc, "tpp-station")?;
    put(
        members,
        alloc,
        "conflict_price",
        Value::from(station.conflict_price),
    )?;
    put(members, alloc, "format", format)?;
    put(members, alloc, "threshold", Value::from(station.threshold))?;
    put(members, alloc, "version", Value::from(version.number()))?;
    Ok(())
}

fn put_lists(
    alloc: Global,
    version: Version,
    station: &Station,
    members: &mut Members,
) -> Result<(), AllocError>
    ensures { OnOk result (members_view members.new.entries ≡ with_lists_of version (record_of station.now) (members_view members.old.entries)) }
{
    let directions = list_json(alloc, version, station, station.directions.as_slice())?;
    put(members, alloc, "directions", directions)?;
    let incompatible = list_json(alloc, version, station, station.incompatible.as_slice())?;
    put(members, alloc, "incompatible", incompatible)?;
    let paths = list_json(alloc, version, station, station.paths.as_slice())?;
    put(members, alloc, "paths", paths)?;
    let platforms = list_json(alloc, version, station, station.platforms.as_slice())?;
    put(members, alloc, "platforms", platforms)?;
    let trains = list_json(alloc, version, station, station.trains.as_slice())?;
    put(members, alloc, "trains", trains)?;
    Ok(())
}
