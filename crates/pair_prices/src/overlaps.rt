ghost use Rattle.path_conflicts.specs.Meeting.{IsHeld};
ghost use Rattle.path_conflicts.specs.Minutes.{headway_of, path_minutes, path_used};
ghost use Rattle.path_conflicts.specs.Overlap.{overlap};
ghost use Rattle.path_conflicts.specs.Table.{IsTableOf};
ghost use Rattle.patterns.specs.Sound.{IsSound};
ghost use Rattle.pair_prices.specs.Overlaps.{AreOverlaps};
ghost use Rattle.pair_prices.specs.Spans.{path_span, platform_span};
ghost use Rattle.station.specs.Shown.{record_of};
ghost use Rattle.std.specs.Prelude.{◌≡◌, ◌≤◌, pos, slice_get};

use path_conflicts::{Conflicts, Held, meet_minutes};
use station::{PathWay, Pattern, Station};

/// For how many minutes each path use of one pattern overlaps each of another: 0 where the paths aren't incompatible.
#[derive(Clone, Copy, Drop)]
pub struct Overlaps {
    pub in_in: u32,
    pub in_out: u32,
    pub out_in: u32,
    pub out_out: u32,
}

pub(crate) fn four_overlaps(
    station: &Station,
    conflicts: &Conflicts,
    x: &Pattern,
    y: &Pattern,
) -> Overlaps
    requires table { IsTableOf (record_of station.now) conflicts.now }
    requires first { IsSound (record_of station.now) x.now }
    requires second { IsSound (record_of station.now) y.now }
    ensures { AreOverlaps (record_of station.now) x.now y.now result }
{
    Overlaps {
        in_in: overlap_of(station, conflicts, PathWay::In, x, PathWay::In, y),
        in_out: overlap_of(station, conflicts, PathWay::In, x, PathWay::Out, y),
        out_in: overlap_of(station, conflicts, PathWay::Out, x, PathWay::In, y),
        out_out: overlap_of(station, conflicts, PathWay::Out, x, PathWay::Out, y),
    }
}

fn overlap_of(
    station: &Station,
    conflicts: &Conflicts,
    v: PathWay,
    x: &Pattern,
    w: PathWay,
    y: &Pattern,
) -> u32
    requires table { IsTableOf (record_of station.now) conflicts.now }
    requires first { IsSound (record_of station.now) x.now }
    requires second { IsSound (record_of station.now) y.now }
    ensures { result ≡ overlap (record_of station.now) v x.now w y.now }
{
    match (path_of(v, x), path_of(w, y)) {
        (Some(p), Some(q)) => {
            if conflicts.incompatible(p, q) {
                meet_minutes(held_path(station, v, x, p), held_path(station, w, y, q))
            } else {
                0
            }
        }
        (Some(_), None) | (None, _) => 0,
    }
}

/// The path that the pattern uses that way, if it uses one.
pub fn path_of(way: PathWay, x: &Pattern) -> Option<u16>
    ensures { result ≡ path_used way x.now }
{
    match way {
        PathWay::In => x.path_in,
        PathWay::Out => x.path_out,
    }
}

/// The minutes in which the pattern holds a path that it uses that way: before its arrival, or after its departure.
pub fn held_path(station: &Station, way: PathWay, x: &Pattern, path: u16) -> Held
    requires { IsSound (record_of station.now) x.now }
    ensures value { result ≡ path_span (record_of station.now) way x.now path }
    ensures held { IsHeld result }
{
    let minutes = minutes_of(station, path);
    match way {
        PathWay::In => Held {
            start: x.arrive - minutes,
            end: x.arrive,
        },
        PathWay::Out => Held {
            start: x.depart,
            end: x.depart + minutes,
        },
    }
}

fn minutes_of(station: &Station, path: u16) -> i32
    ensures value { result ≡ pos (path_minutes (slice_get station.now.paths path)) }
    ensures most { path_minutes (slice_get station.now.paths path) ≤ 60 }
{
    match station.paths.get(path as usize) {
        Some(path) => path.minutes as i32,
        None => 0,
    }
}

/// The minutes in which the pattern holds its platform, the headway after its departure among them.
pub fn held_platform(station: &Station, x: &Pattern) -> Held
    requires { IsSound (record_of station.now) x.now }
    ensures value { result ≡ platform_span (record_of station.now) x.now }
    ensures held { IsHeld result }
{
    Held {
        start: x.arrive,
        end: x.depart + headway_at(station, x.platform),
    }
}

fn headway_at(station: &Station, platform: u8) -> i32
    ensures value { result ≡ pos (headway_of (slice_get station.now.platforms platform)) }
    ensures most { headway_of (slice_get station.now.platforms platform) ≤ 60 }
{
    match station.platforms.get(platform as usize) {
        Some(platform) => platform.headway as i32,
        None => 0,
    }
}
