ghost use Rattle.patterns.specs.Products.{allowed_for, at_arrival, at_arrival_path, at_paths, at_platform, is_choice, may_stop, pattern_with, products, way_choices};
ghost use Rattle.station.specs.Allowed.{allowed_list, leads, same_way};
ghost use Rattle.station.specs.Shown.{record_of};
ghost use Rattle.station.specs.Station.{IsTrain};
ghost use Rattle.std.specs.Prelude.{◌≡◌, [], ◌∷◌, ◌++◌, ◌<◌, ◌≤◌, ◌≤ℤ◌, ◌+ℤ◌, ◌-ℤ◌, if◌then◌else◌, flat_map, int_le, length, neg_ℤ, pos, slice_get, IfOk, OnOk};

use station::{PathWay, Pattern, Station, Train};
use std::alloc::{AllocError, Global};

/// All patterns that the rules allow the train, ascending by platform, paths (none first) and minutes; a pattern's number
/// is its place here.
///
/// # Errors
/// `AllocError` where the list finds no memory.
pub fn patterns_of(
    alloc: Global,
    station: &Station,
    train: usize,
) -> Result<Vec<Pattern>, AllocError>
    requires { train < length station.now.trains }
    ensures { IfOk result (λ v. v.items ≡ allowed_for (record_of station.now) (slice_get station.now.trains train)) }
{
    match station.trains.get(train) {
        Some(train) => allowed_patterns(alloc, station, train),
        None => Ok(Vec::new(alloc)),
    }
}

pub(crate) fn allowed_patterns(
    alloc: Global,
    station: &Station,
    train: &Train,
) -> Result<Vec<Pattern>, AllocError>
    requires { IsTrain (record_of station.now) train.now }
    ensures { IfOk result (λ v. v.items ≡ allowed_list (record_of station.now) train.now) }
{
    let mut patterns = Vec::new(alloc);
    push_products(alloc, station, train, &mut patterns)?;
    Ok(patterns)
}

/// A platform and the paths to and from it.
#[derive(Clone, Copy, Drop)]
struct Stop {
    platform: u8,
    path_in: Option<u16>,
    path_out: Option<u16>,
}

fn push_products(
    alloc: Global,
    station: &Station,
    train: &Train,
    into: &mut Vec<Pattern>,
) -> Result<(), AllocError>
    requires { IsTrain (record_of station.now) train.now }
    ensures { OnOk result (into.new.items ≡ into.old.items ++ products (record_of station.now) train.now) }
{
    for platform in 0..station.platforms.len() as u8 {
        push_platform(alloc, station, train, platform, into)?;
    }
    Ok(())
}

fn is_stop(train: &Train, platform: u8) -> bool
    ensures { result ≡ may_stop train.now platform }
{
    train.platforms.as_slice().iter().any(|p| *p == platform)
}

fn push_platform(
    alloc: Global,
    station: &Station,
    train: &Train,
    platform: u8,
    into: &mut Vec<Pattern>,
) -> Result<(), AllocError>
    requires { IsTrain (record_of station.now) train.now }
    ensures { OnOk result (into.new.items ≡ into.old.items ++
        (if may_stop train.now platform then at_platform (record_of station.now) train.now platform else [])) }
{
    if !is_stop(train, platform) {
        return Ok(());
    }
    let arrivals = choices(alloc, station, PathWay::In, train.from, platform)?;
    let departures = choices(alloc, station, PathWay::Out, train.to, platform)?;
    for path_in in &arrivals {
        push_stops(station, train, platform, *path_in, &departures, into)?;
    }
    Ok(())
}

fn push_stops(
    station: &Station,
    train: &Train,
    platform: u8,
    path_in: Option<u16>,
    departures: &[Option<u16>],
    into: &mut Vec<Pattern>,
) -> Result<(), AllocError>
    requires { IsTrain (record_of station.now) train.now }
    ensures { OnOk result (into.new.items ≡ into.old.items ++ flat_map (at_paths train.now platform path_in) departures.now) }
{
    for path_out in departures {
        let stop = Stop {
            platform,
            path_in,
            path_out: *path_out,
        };
        push_arrivals(station, train, stop, into)?;
    }
    Ok(())
}

fn push_arrivals(
    station: &Station,
    train: &Train,
    stop: Stop,
    into: &mut Vec<Pattern>,
) -> Result<(), AllocError>
    requires { IsTrain (record_of station.now) train.now }
    ensures { OnOk result (into.new.items ≡ into.old.items ++ at_paths train.now stop.platform stop.path_in stop.path_out) }
{
    for later in 0..train.arrive_early + train.arrive_late + 1 {
        let arrival = arrival_at(train, stop, later);
        push_departures(station, train, arrival, into)?;
    }
    Ok(())
}

/// A stop from a minute on.
#[derive(Clone, Copy, Drop)]
struct Arrival {
    stop: Stop,
    arrive: i32,
}

fn arrival_at(train: &Train, stop: Stop, later: u32) -> Arrival
    requires least { pos 0 ≤ℤ train.now.arrive }
    requires most { train.now.arrive ≤ℤ pos 2879 }
    requires early { train.now.arrive_early ≤ 30 }
    requires later { later ≤ 60 }
    ensures stop { result.stop ≡ stop }
    ensures arrive { result.arrive ≡ (train.now.arrive -ℤ pos train.now.arrive_early) +ℤ pos later }
{
    let arrive = train.arrive - train.arrive_early as i32 + later as i32;
    Arrival { stop, arrive }
}

fn push_departures(
    station: &Station,
    train: &Train,
    arrival: Arrival,
    into: &mut Vec<Pattern>,
) -> Result<(), AllocError>
    requires train { IsTrain (record_of station.now) train.now }
    requires least { neg_ℤ (pos 30) ≤ℤ arrival.arrive }
    requires most { arrival.arrive ≤ℤ pos 2909 }
    ensures { let s = arrival.stop in
        OnOk result (into.new.items ≡ into.old.items ++ at_arrival train.now s.platform s.path_in s.path_out arrival.arrive) }
{
    for later in 0..train.depart_early + train.depart_late + 1 {
        let pattern = pattern_at(train, arrival, later);
        let keep = leaves_dwell(train, &pattern);
        push_kept(keep, pattern, into)?;
    }
    Ok(())
}

fn pattern_at(train: &Train, arrival: Arrival, later: u32) -> Pattern
    requires least { pos 0 ≤ℤ train.now.depart }
    requires most { train.now.depart ≤ℤ pos 2879 }
    requires early { train.now.depart_early ≤ 30 }
    requires later { later ≤ 60 }
    ensures { let depart = (train.now.depart -ℤ pos train.now.depart_early) +ℤ pos later in
        result ≡ pattern_with arrival.stop.platform arrival.stop.path_in arrival.stop.path_out arrival.arrive depart }
{
    let depart = train.depart - train.depart_early as i32 + later as i32;
    Pattern {
        platform: arrival.stop.platform,
        path_in: arrival.stop.path_in,
        path_out: arrival.stop.path_out,
        arrive: arrival.arrive,
        depart,
    }
}

fn leaves_dwell(train: &Train, pattern: &Pattern) -> bool
    requires least { neg_ℤ (pos 30) ≤ℤ pattern.now.arrive }
    requires most { pattern.now.arrive ≤ℤ pos 2909 }
    requires dwell { train.now.dwell ≤ 2879 }
    ensures { result ≡ int_le (pattern.now.arrive +ℤ pos train.now.dwell) pattern.now.depart }
{
    pattern.arrive + train.dwell as i32 <= pattern.depart
}

/// Adds the item where it is to be kept.
fn push_kept<T: Copy + Drop>(keep: bool, item: T, into: &mut Vec<T>) -> Result<(), AllocError>
    ensures { OnOk result (into.new.items ≡ into.old.items ++ (if keep then item ∷ [] else [])) }
{
    if keep {
        into.push(item)?;
    }
    Ok(())
}

/// The paths that a train from or to the direction may take at the platform: none, or one by its number.
fn choices(
    alloc: Global,
    station: &Station,
    way: PathWay,
    direction: Option<u8>,
    platform: u8,
) -> Result<Vec<Option<u16>>, AllocError>
    ensures { IfOk result (λ v. v.items ≡ way_choices (record_of station.now) way direction platform) }
{
    let mut found = Vec::new(alloc);
    push_kept(
        may_take(station, way, direction, platform, None),
        None,
        &mut found,
    )?;
    for path in 0..station.paths.len() as u16 {
        let choice = Some(path);
        let keep = may_take(station, way, direction, platform, choice);
        push_kept(keep, choice, &mut found)?;
    }
    Ok(found)
}

fn may_take(
    station: &Station,
    way: PathWay,
    direction: Option<u8>,
    platform: u8,
    path: Option<u16>,
) -> bool
    ensures { result ≡ is_choice (record_of station.now) way direction platform path }
{
    let dummy = match station.platforms.get(platform as usize) {
        Some(platform) => platform.dummy,
        None => false,
    };
    if dummy {
        return path.is_none();
    }
    match direction {
        Some(direction) => is_path_of(station, way, direction, platform, path),
        None => path.is_none(),
    }
}

fn is_path_of(
    station: &Station,
    way: PathWay,
    direction: u8,
    platform: u8,
    path: Option<u16>,
) -> bool
    ensures { result ≡ leads (record_of station.now) way direction platform path }
{
    match path {
        Some(number) => match station.paths.get(number as usize) {
            Some(path) => is_same_way(way, path.way)
                && path.direction == direction
                && path.platform == platform,
            None => false,
        },
        None => false,
    }
}

fn is_same_way(a: PathWay, b: PathWay) -> bool
    ensures { result ≡ same_way a b }
{
    match (a, b) {
        (PathWay::In, PathWay::In) | (PathWay::Out, PathWay::Out) => true,
        (PathWay::In, PathWay::Out) | (PathWay::Out, PathWay::In) => false,
    }
}
