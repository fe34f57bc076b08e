ghost use Rattle.std.specs.Prelude.{◌≡◌};
ghost use Rattle.std.specs.List.{list_all};
ghost use Rattle.station.specs.Shown.{record_of};
ghost use Rattle.station_gen.specs.Json.{has_no_buffer, runs_through, version_of, version_number};

use station::{Platform, Station, Train};

/// The versions of the format.
#[derive(Clone, Copy, PartialEq, Eq, Debug, Drop)]
pub(crate) enum Version {
    One,
    Two,
}

impl Version {
    pub(crate) fn number(self) -> u32
        ensures { result ≡ version_number self }
    {
        match self {
            Version::One => 1,
            Version::Two => 2,
        }
    }
}

/// The lowest version that can say the station.
#[tactic(auto, unfolding(crate::specs::Json::version_of))]
pub(crate) fn version_of(station: &Station) -> Version
    ensures { result ≡ version_of (record_of station.now) }
{
    if station.buffer_price == 0
        && have_no_buffer(station.platforms.as_slice())
        && run_through(station.trains.as_slice())
    {
        Version::One
    } else {
        Version::Two
    }
}

fn have_no_buffer(platforms: &[Platform]) -> bool
    ensures { result ≡ list_all has_no_buffer platforms.now }
{
    platforms.iter().all(|platform| platform.buffer == 0)
}

fn run_through(trains: &[Train]) -> bool
    ensures { result ≡ list_all runs_through trains.now }
{
    trains
        .iter()
        .all(|train| train.from.is_some() && train.to.is_some())
}
