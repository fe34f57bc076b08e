// The JSON trees of what stands in a station's lists.
ghost use Rattle.std.specs.Prelude.{◌≡◌, IfOk, map, ◌∷◌, []};
ghost use Rattle.serde_json.specs.Data.{Data, string};
ghost use Rattle.serde_json.specs.View.{view, members_view};
ghost use Rattle.station.specs.Allowed.{StationRecord};
ghost use Rattle.station.specs.Shown.{record_of};
ghost use Rattle.station_gen.specs.declared.version.Version.{Version};
ghost use Rattle.station_gen.specs.Json.{list_json, members_json, named_json, platform_names, buffer_json, platform_json, way_text, path_json, pair_json, charge_json};

use crate::named::{direction_name, path_name, platform_name, text_of};
use crate::version::Version;
use serde_json::{Map, Value, put};
use station::{Name, Path, PathPair, PathWay, Platform, Station, Surcharge};
use std::alloc::{AllocError, Global};

/// An object that is being made.
pub(crate) type Members = Map<String, Value>;

/// What stands in a list.
pub(crate) trait Entry {
    ghost json: { Self → Version → StationRecord → Data };

    fn json(&self, alloc: Global, version: Version, station: &Station) -> Result<Value, AllocError>
        ensures { IfOk result (λ v. view v ≡ json self.now version (record_of station.now)) };
}

pub(crate) fn list_json<T: Entry>(
    alloc: Global,
    version: Version,
    station: &Station,
    entries: &[T],
) -> Result<Value, AllocError>
    ensures { IfOk result (λ v. view v ≡ list_json (map (λ x. T.json x version (record_of station.now)) entries.now)) }
{
    let mut found = Vec::new(alloc);
    for entry in entries {
        found.push(entry.json(alloc, version, station)?)?;
    }
    Ok(Value::Array(found))
}

/// A list of two values.
fn two(alloc: Global, first: Value, second: Value) -> Result<Value, AllocError>
    ensures { IfOk result (λ v. view v ≡ list_json (view first ∷ view second ∷ [])) }
{
    Ok(Value::Array(vec![in alloc; first, second]?))
}

impl Entry for Name {
    ghost json = { λ n v r. string n };

    fn json(
        &self,
        alloc: Global,
        _version: Version,
        _station: &Station,
    ) -> Result<Value, AllocError> {
        Value::try_from_str(alloc, text_of(self))
    }
}

/// The number of a platform.
impl Entry for u8 {
    ghost json = { λ p v r. named_json (platform_names r) p };

    fn json(
        &self,
        alloc: Global,
        _version: Version,
        station: &Station,
    ) -> Result<Value, AllocError> {
        Value::try_from_str(alloc, platform_name(station, *self))
    }
}

impl Entry for Platform {
    ghost json = { λ p v r. platform_json v p };

    #[tactic(auto, unfolding(crate::specs::Json::platform_json))]
    fn json(
        &self,
        alloc: Global,
        version: Version,
        _station: &Station,
    ) -> Result<Value, AllocError> {
        let mut members = buffer(alloc, version, self)?;
        put(&mut members, alloc, "dummy", Value::from(self.dummy))?;
        put(&mut members, alloc, "headway", Value::from(self.headway))?;
        let name = Value::try_from_str(alloc, text_of(&self.name))?;
        put(&mut members, alloc, "name", name)?;
        put(&mut members, alloc, "price", Value::from(self.price))?;
        Ok(Value::Object(members))
    }
}

/// The buffer, which version 1 doesn't have.
fn buffer(alloc: Global, version: Version, platform: &Platform) -> Result<Members, AllocError>
    ensures { IfOk result (λ m. members_view m.entries ≡ members_json (buffer_json version platform.now)) }
{
    let mut members = Map::new(alloc);
    match version {
        Version::One => {}
        Version::Two => put(&mut members, alloc, "buffer", Value::from(platform.buffer))?,
    }
    Ok(members)
}

impl Entry for Path {
    ghost json = { λ p v r. path_json r p };

    #[tactic(auto, unfolding(crate::specs::Json::path_json))]
    fn json(
        &self,
        alloc: Global,
        _version: Version,
        station: &Station,
    ) -> Result<Value, AllocError> {
        let direction = Value::try_from_str(alloc, direction_name(station, self.direction))?;
        let name = Value::try_from_str(alloc, text_of(&self.name))?;
        let platform = Value::try_from_str(alloc, platform_name(station, self.platform))?;
        let way = Value::try_from_str(alloc, way_text(self.way))?;
        let mut members = Map::new(alloc);
        put(&mut members, alloc, "direction", direction)?;
        put(&mut members, alloc, "minutes", Value::from(self.minutes))?;
        put(&mut members, alloc, "name", name)?;
        put(&mut members, alloc, "platform", platform)?;
        put(&mut members, alloc, "price", Value::from(self.price))?;
        put(&mut members, alloc, "way", way)?;
        Ok(Value::Object(members))
    }
}

fn way_text(way: PathWay) -> &'static str
    ensures { result.now ≡ way_text way }
{
    match way {
        PathWay::In => "in",
        PathWay::Out => "out",
    }
}

impl Entry for PathPair {
    ghost json = { λ x v r. pair_json r x };

    #[tactic(auto, unfolding(crate::specs::Json::pair_json))]
    fn json(
        &self,
        alloc: Global,
        _version: Version,
        station: &Station,
    ) -> Result<Value, AllocError> {
        let first = Value::try_from_str(alloc, path_name(station, self.first))?;
        let second = Value::try_from_str(alloc, path_name(station, self.second))?;
        two(alloc, first, second)
    }
}

impl Entry for Surcharge {
    ghost json = { λ s v r. charge_json r s };

    #[tactic(auto, unfolding(crate::specs::Json::charge_json))]
    fn json(
        &self,
        alloc: Global,
        _version: Version,
        station: &Station,
    ) -> Result<Value, AllocError> {
        let platform = Value::try_from_str(alloc, platform_name(station, self.platform))?;
        two(alloc, platform, Value::from(self.price))
    }
}
