// The JSON tree of a train.
ghost use Rattle.std.specs.Prelude.{◌≡◌, IfOk, OnOk};
ghost use Rattle.serde_json.specs.View.{view, members_view};
ghost use Rattle.station.specs.Shown.{record_of};
ghost use Rattle.station_gen.specs.Json.{train_json};
ghost use Rattle.station_gen.specs.Put.{with_times, with_shifts, with_prices, with_names, with_lists};

use crate::entry::{Entry, Members, list_json};
use crate::named::{direction_json, text_of};
use crate::version::Version;
use serde_json::{Map, Value, put};
use station::{Station, Train};
use std::alloc::{AllocError, Global};

impl Entry for Train {
    ghost json = { λ t v r. train_json r t };

    #[tactic(auto, unfolding(crate::specs::Json::train_json))]
    fn json(
        &self,
        alloc: Global,
        version: Version,
        station: &Station,
    ) -> Result<Value, AllocError> {
        let mut members = Map::new(alloc);
        put_times(alloc, self, &mut members)?;
        put_shifts(alloc, self, &mut members)?;
        put_prices(alloc, self, &mut members)?;
        put_names(alloc, station, self, &mut members)?;
        put_lists(alloc, version, station, self, &mut members)?;
        Ok(Value::Object(members))
    }
}

fn put_times(alloc: Global, train: &Train, members: &mut Members) -> Result<(), AllocError>
    ensures { OnOk result (members_view members.new.entries ≡ with_times train.now (members_view members.old.entries)) }
{
    put(members, alloc, "arrive", Value::from(train.arrive))?;
    put(members, alloc, "depart", Value::from(train.depart))?;
    put(members, alloc, "dwell", Value::from(train.dwell))?;
    Ok(())
}

fn put_shifts(alloc: Global, train: &Train, members: &mut Members) -> Result<(), AllocError>
    ensures { OnOk result (members_view members.new.entries ≡ with_shifts train.now (members_view members.old.entries)) }
{
    put(
        members,
        alloc,
        "arrive_early",
        Value::from(train.arrive_early),
    )?;
    put(
        members,
        alloc,
        "arrive_late",
        Value::from(train.arrive_late),
    )?;
    put(
        members,
        alloc,
        "depart_early",
        Value::from(train.depart_early),
    )?;
    put(
        members,
        alloc,
        "depart_late",
        Value::from(train.depart_late),
    )?;
    Ok(())
}

fn put_prices(alloc: Global, train: &Train, members: &mut Members) -> Result<(), AllocError>
    ensures { OnOk result (members_view members.new.entries ≡ with_prices train.now (members_view members.old.entries)) }
{
    put(members, alloc, "off_price", Value::from(train.off_price))?;
    put(
        members,
        alloc,
        "shift_price",
        Value::from(train.shift_price),
    )?;
    Ok(())
}

fn put_names(
    alloc: Global,
    station: &Station,
    train: &Train,
    members: &mut Members,
) -> Result<(), AllocError>
    ensures { OnOk result (members_view members.new.entries ≡ with_names (record_of station.now) train.now (members_view members.old.entries)) }
{
    let name = Value::try_from_str(alloc, text_of(&train.name))?;
    let from = direction_json(alloc, station, train.from)?;
    let to = direction_json(alloc, station, train.to)?;
    put(members, alloc, "name", name)?;
    put(members, alloc, "from", from)?;
    put(members, alloc, "to", to)?;
    Ok(())
}

fn put_lists(
    alloc: Global,
    version: Version,
    station: &Station,
    train: &Train,
    members: &mut Members,
) -> Result<(), AllocError>
    ensures { OnOk result (members_view members.new.entries ≡ with_lists (record_of station.now) train.now (members_view members.old.entries)) }
{
    let platforms = list_json(alloc, version, station, train.platforms.as_slice())?;
    let prefer = list_json(alloc, version, station, train.prefer.as_slice())?;
    let surcharges = list_json(alloc, version, station, train.surcharges.as_slice())?;
    put(members, alloc, "platforms", platforms)?;
    put(members, alloc, "prefer", prefer)?;
    put(members, alloc, "surcharges", surcharges)?;
    Ok(())
}
