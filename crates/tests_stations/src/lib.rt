//! Stations as texts that can be worked through by hand, for the tests of the crates above.
#![tactic(auto)]

use pair_prices::Case;
use station_reader::read_station;
use std::alloc::{AllocError, Global};
use std::test::Fail;

/// The case of a station's text.
pub fn case_of(alloc: Global, text: &str) -> Result<Case, Fail> {
    match read_station(alloc, text.as_bytes()) {
        Ok(station) => Ok(Case::new(alloc, station)?),
        Err(_) => Err("no station")?,
    }
}

/// The paths of S: one in and one out, at platform `1`.
pub const S_PATHS: &str =
    r#"{"name":"w1","direction":"W","platform":"1","way":"in","minutes":2,"price":0},
{"name":"e1","direction":"E","platform":"1","way":"out","minutes":2,"price":0}"#;

/// A train of S. It costs 100 more on `D`, and 10 for each minute that it is shifted.
#[derive(Clone, Copy)]
pub struct Train {
    pub name: &'static str,
    pub arrive: u32,
    pub depart: u32,
    /// How early and how late it may arrive.
    pub arrival: (u32, u32),
    /// How early and how late it may depart.
    pub departure: (u32, u32),
    pub platforms: &'static str,
}

/// R1 of S.
pub const R1: Train = Train {
    name: "R1",
    arrive: 10,
    depart: 15,
    arrival: (0, 0),
    departure: (0, 0),
    platforms: r#""1","D""#,
};

/// R1 that may stand on `1` alone.
pub const ON_THE_REGULAR_PLATFORM: Train = Train {
    platforms: r#""1""#,
    ..R1
};

/// R1 under another name, at other times.
pub fn r2(arrive: u32, depart: u32, shift: u32) -> Train {
    Train {
        name: "R2",
        arrive,
        depart,
        arrival: (shift, shift),
        departure: (shift, shift),
        ..R1
    }
}

/// S with these paths and trains: a platform `1` of price 1,000, and a dummy platform `D` of price 100,000.
pub fn s(alloc: Global, paths: &str, trains: &[Train]) -> Result<String, AllocError> {
    let mut entries = String::new(alloc);
    for train in trains {
        push_entry(&mut entries, &train_text(alloc, train)?)?;
    }
    format!(in alloc;
        r#"{{"format":"tpp-station","version":1,"threshold":2,"conflict_price":5,
"directions":["W","E"],
"platforms":[{{"name":"1","dummy":false,"price":1000,"headway":2}},
{{"name":"D","dummy":true,"price":100000,"headway":0}}],
"paths":[{paths}],"incompatible":[],"trains":[{entries}]}}"#
    )
}

fn train_text(alloc: Global, train: &Train) -> Result<String, AllocError> {
    let Train {
        name,
        arrive,
        depart,
        arrival,
        departure,
        platforms,
    } = *train;
    let (arrive_early, arrive_late) = arrival;
    let (depart_early, depart_late) = departure;
    format!(in alloc;
        r#"{{"name":"{name}","from":"W","to":"E","arrive":{arrive},"depart":{depart},"dwell":1,
"arrive_early":{arrive_early},"arrive_late":{arrive_late},"depart_early":{depart_early},"depart_late":{depart_late},
"platforms":[{platforms}],"prefer":["1"],"off_price":100,"shift_price":10,"surcharges":[]}}"#
    )
}

/// A station where only conflicts cost: each platform has a path in and a path out, named after it.
#[derive(Clone, Copy)]
pub struct Plain<'a> {
    pub platforms: &'a [&'a str],
    /// What the names of the paths in and out begin with.
    pub ways: (&'a str, &'a str),
    pub minutes_in: u32,
    pub incompatible: &'a str,
    /// The name, the departure and the platforms of each train. All arrive at 10.
    pub trains: &'a [(&'a str, u32, &'a str)],
}

/// P: two platforms whose paths in are incompatible, and a train on each.
pub const P: Plain = Plain {
    platforms: &["1", "2"],
    ways: ("w", "e"),
    minutes_in: 2,
    incompatible: r#"["w1","w2"]"#,
    trains: &[("R1", 15, r#""1""#), ("R2", 20, r#""2""#)],
};

/// F: three trains, each on a platform `a` or `b`, and paths in of like letters are incompatible.
pub const F: Plain = Plain {
    platforms: &["a1", "b1", "a2", "b2", "a3", "b3"],
    ways: ("i", "o"),
    minutes_in: 2,
    incompatible: r#"["ia1","ia2"],["ia1","ia3"],["ia2","ia3"],["ib1","ib2"],["ib1","ib3"],["ib2","ib3"]"#,
    trains: &[
        ("R1", 15, r#""a1","b1""#),
        ("R2", 15, r#""a2","b2""#),
        ("R3", 15, r#""a3","b3""#),
    ],
};

/// K: three trains at one time, and two platforms.
pub const K: Plain = Plain {
    platforms: &["1", "2"],
    ways: ("w", "e"),
    minutes_in: 2,
    incompatible: "",
    trains: &[
        ("R1", 15, r#""1","2""#),
        ("R2", 15, r#""1","2""#),
        ("R3", 15, r#""1","2""#),
    ],
};

pub fn plain_station(alloc: Global, station: &Plain) -> Result<String, AllocError> {
    let mut platforms = String::new(alloc);
    let mut paths = String::new(alloc);
    for name in station.platforms {
        push_entry(&mut platforms, &platform_text(alloc, name)?)?;
        push_entry(&mut paths, &path_in(alloc, station, name)?)?;
        push_entry(&mut paths, &path_out(alloc, station, name)?)?;
    }
    let mut trains = String::new(alloc);
    for train in station.trains {
        push_entry(&mut trains, &plain_train(alloc, train.0, train.1, train.2)?)?;
    }
    let incompatible = station.incompatible;
    format!(in alloc;
        r#"{{"format":"tpp-station","version":1,"threshold":2,"conflict_price":5,
"directions":["W","E"],"platforms":[{platforms}],"paths":[{paths}],
"incompatible":[{incompatible}],"trains":[{trains}]}}"#
    )
}

fn platform_text(alloc: Global, name: &str) -> Result<String, AllocError> {
    format!(in alloc; r#"{{"name":"{name}","dummy":false,"price":0,"headway":0}}"#)
}

fn path_in(alloc: Global, station: &Plain, platform: &str) -> Result<String, AllocError> {
    let way = station.ways.0;
    let minutes = station.minutes_in;
    format!(in alloc;
        r#"{{"name":"{way}{platform}","direction":"W","platform":"{platform}","way":"in","minutes":{minutes},"price":0}}"#
    )
}

fn path_out(alloc: Global, station: &Plain, platform: &str) -> Result<String, AllocError> {
    let way = station.ways.1;
    format!(in alloc;
        r#"{{"name":"{way}{platform}","direction":"E","platform":"{platform}","way":"out","minutes":2,"price":0}}"#
    )
}

fn plain_train(
    alloc: Global,
    name: &str,
    depart: u32,
    platforms: &str,
) -> Result<String, AllocError> {
    format!(in alloc;
        r#"{{"name":"{name}","from":"W","to":"E","arrive":10,"depart":{depart},"dwell":1,
"arrive_early":0,"arrive_late":0,"depart_early":0,"depart_late":0,
"platforms":[{platforms}],"prefer":[{platforms}],"off_price":0,"shift_price":0,"surcharges":[]}}"#
    )
}

fn push_entry(list: &mut String, entry: &str) -> Result<(), AllocError> {
    if !list.is_empty() {
        list.push(',')?;
    }
    list.push_str(entry)
}
