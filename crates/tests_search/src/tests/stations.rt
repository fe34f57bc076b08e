use station::{Name, PathPair, Station, Surcharge};
use station_reader::read_station;
use std::alloc::{AllocError, Global};
use std::test::Fail;
use tests_stations::{R1, S_PATHS, s};

/// `text` with the first `old` replaced.
fn edited(alloc: Global, text: &str, old: &str, new: &str) -> Result<String, AllocError> {
    match text.split_once(old) {
        Some((before, after)) => format!(in alloc; "{before}{new}{after}"),
        None => String::from_str(alloc, "no such text"),
    }
}

fn is_as_written(station: &Station) -> bool {
    let pairs = station.incompatible.as_slice();
    let (Some(platform), Some(path), Some(train)) = (
        station.platforms.get(1),
        station.paths.get(1),
        station.trains.get(0),
    ) else {
        return false;
    };
    pairs
        == [PathPair {
            first: 0,
            second: 1,
        }]
        .as_slice()
        && platform.name.bytes() == b"D".as_slice()
        && path.direction == 1
        && train.prefer.as_slice() == [0u8, 1].as_slice()
        && train.surcharges.as_slice()
            == [Surcharge {
                platform: 1,
                price: 7,
            }]
            .as_slice()
        && train.from == Some(0)
        && train.arrive == 10
}

#[test]
fn keeps_what_is_written(rt: HostRuntime) -> Result<(), Fail> {
    let alloc = rt.alloc();
    let pairs = "\"incompatible\":[[\"e1\",\"w1\"],[\"w1\",\"w1\"],[\"w1\",\"e1\"]]";
    let text = edited(
        alloc,
        &s(alloc, S_PATHS, &[R1])?,
        "\"incompatible\":[]",
        pairs,
    )?;
    let text = edited(
        alloc,
        &text,
        "\"prefer\":[\"1\"]",
        "\"prefer\":[\"D\",\"1\"]",
    )?;
    let text = edited(
        alloc,
        &text,
        "\"surcharges\":[]",
        "\"surcharges\":[[\"D\",7]]",
    )?;
    let Ok(station) = read_station(alloc, text.as_bytes()) else {
        return Err(Fail::from("refused"));
    };
    assert!(rt; is_as_written(&station));
    let copy = station.copy(alloc)?;
    assert!(rt; is_as_written(&copy));
    let name = Name::new(alloc, b"a-1")?;
    assert_eq!(rt; name.bytes(), b"a-1".as_slice());
    Ok(())
}
