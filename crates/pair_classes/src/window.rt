// The minutes within which trains can meet.
ghost use Rattle.path_conflicts.specs.Minutes.{path_used};
ghost use Rattle.patterns.specs.Book.{offers_of, pattern_at};
ghost use Rattle.patterns.specs.Sound.{IsSound};
ghost use Rattle.pair_prices.specs.Pair.{buffer_of};
ghost use Rattle.pair_prices.specs.Spans.{path_span};
ghost use Rattle.pair_classes.specs.Windows.{AreWindows, Covers, CoversTrain, Encloses, are_apart, buffered_span};
ghost use Rattle.station.specs.Shown.{record_of};
ghost use Rattle.std.specs.Prelude.{◌≡◌, ℕ, ◌<◌, ◌≤◌, length, pos, slice_get, IfOk, Some};

use pair_prices::{Case, held_path, held_platform, path_of};
use path_conflicts::Held;
use station::{PathWay, Pattern, Station};
use std::alloc::{AllocError, Global};

/// For each train the span from its first held minute to its last, wished buffers included.
pub(crate) fn windows(alloc: Global, case: &Case) -> Result<Vec<Held>, AllocError>
    ensures { IfOk result (λ v. AreWindows case.now v.items) }
{
    let mut windows = Vec::new(alloc);
    for train in 0..case.book().trains() {
        windows.push(window_of(case, train))?;
    }
    Ok(windows)
}

/// The span of one train. Without patterns it holds no minute.
fn window_of(case: &Case, train: usize) -> Held
    requires { train < length case.now.book }
    ensures { CoversTrain case.now train result }
{
    let mut window = Held {
        start: i32::MAX,
        end: i32::MIN,
    };
    for number in 0..case.book().count(train) as u16 {
        window = join(&window, &reach_of(case, train, number));
    }
    window
}

fn reach_of(case: &Case, train: usize, number: u16) -> Held
    requires train { train < length case.now.book }
    requires number { number < length (offers_of case.now.book train) }
    ensures { Covers case.now.station (pattern_at case.now.book train number) result }
{
    reach(case.station(), &case.book().get(train, number))
}

/// A span of all minutes that the pattern holds, and of the buffer behind them.
fn reach(station: &Station, x: &Pattern) -> Held
    requires { IsSound (record_of station.now) x.now }
    ensures { Covers (record_of station.now) x.now result }
{
    let platform = buffered(station, x);
    let arriving = with_path(station, PathWay::In, x, &platform);
    with_path(station, PathWay::Out, x, &arriving)
}

fn buffered(station: &Station, x: &Pattern) -> Held
    requires { IsSound (record_of station.now) x.now }
    ensures { result ≡ buffered_span (record_of station.now) x.now }
{
    let held = held_platform(station, x);
    Held {
        start: held.start,
        end: held.end + buffer_at(station, x.platform),
    }
}

fn buffer_at(station: &Station, platform: u8) -> i32
    ensures value { result ≡ pos (buffer_of (slice_get station.now.platforms platform)) }
    ensures most { buffer_of (slice_get station.now.platforms platform) ≤ 60 }
{
    match station.platforms.get(platform as usize) {
        Some(platform) => platform.buffer as i32,
        None => 0,
    }
}

/// The span, with the minutes of the path that the pattern uses that way.
fn with_path(station: &Station, way: PathWay, x: &Pattern, span: &Held) -> Held
    requires { IsSound (record_of station.now) x.now }
    ensures span { Encloses result span.now }
    ensures path { (p : ℕ) → path_used way x.now ≡ Some p → Encloses result (path_span (record_of station.now) way x.now p) }
{
    match path_of(way, x) {
        Some(path) => join(span, &held_path(station, way, x, path)),
        None => *span,
    }
}

/// The least span round two.
fn join(a: &Held, b: &Held) -> Held
    ensures first { Encloses result a.now }
    ensures second { Encloses result b.now }
{
    Held {
        start: a.start.min(b.start),
        end: a.end.max(b.end),
    }
}

/// Whether no minute lies in both.
pub(crate) fn apart(a: &Held, b: &Held) -> bool
    ensures { result ≡ are_apart a.now b.now }
{
    a.end <= b.start || b.end <= a.start
}
