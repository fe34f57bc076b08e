ghost use Rattle.diagram.specs.Signs.{stage_span};
ghost use Rattle.patterns.specs.Sound.{IsSound};
ghost use Rattle.station.specs.Shown.{record_of};
ghost use Rattle.std.specs.Prelude.{◌≡◌};

use pair_prices::held_platform;
use path_conflicts::Held;
use station::{Pattern, Station};

/// What a train does at its platform.
#[derive(Clone, Copy, PartialEq, Eq, Debug, Drop)]
pub(crate) enum Stage {
    Arrival,
    Standing,
    Headway,
}

pub(crate) fn stage_span(station: &Station, x: &Pattern, stage: Stage) -> Held
    requires { IsSound (record_of station.now) x.now }
    ensures { result ≡ stage_span (record_of station.now) x.now stage }
{
    match stage {
        Stage::Arrival => Held {
            start: x.arrive,
            end: x.arrive + 1,
        },
        Stage::Standing => Held {
            start: x.arrive + 1,
            end: x.depart,
        },
        Stage::Headway => Held {
            start: x.depart,
            end: held_platform(station, x).end,
        },
    }
}
