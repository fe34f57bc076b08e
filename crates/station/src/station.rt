ghost use Rattle.station.specs.Station.{IsStation};

use crate::copy::{copy_all, copy_plain};
use crate::name::Name;
use crate::part::{Path, PathPair, Platform, Train};
use sequence::Sequence;
use std::alloc::{AllocError, Global};

/// A station and its timetable. Numbers of directions, platforms, paths and trains are their places
/// in these lists, from 0. Each station keeps the limits of docs/FORMATS.md (`kept`).
#[derive(Drop)]
pub struct Station {
    /// Minutes for which two incompatible paths may be held at once, at most 60.
    pub threshold: u32,
    /// What each such minute costs, at most 10^6.
    pub conflict_price: u32,
    /// What each missing minute of a platform's buffer costs, at most 10^6.
    pub buffer_price: u32,
    /// 1 to 64 names, all different, as those of the platforms, paths and trains are.
    pub directions: Sequence<Name>,
    /// 1 to 64.
    pub platforms: Sequence<Platform>,
    /// At most 500.
    pub paths: Sequence<Path>,
    /// Ascending, each pair once.
    pub incompatible: Sequence<PathPair>,
    /// At most 200, each with at most 4,096 allowed patterns.
    pub trains: Sequence<Train>,
    pub ghost kept: { IsStation (record { threshold = threshold; conflict_price = conflict_price; buffer_price = buffer_price; directions = directions; platforms = platforms; paths = paths; incompatible = incompatible; trains = trains }) },
}

impl Station {
    ghost use Rattle.std.specs.Prelude.{◌≡◌, IfOk};
    ghost use Rattle.station.specs.Shown.{record_of};

    /// An equal station. The error is want of memory.
    pub fn copy(&self, alloc: Global) -> Result<Station, AllocError>
        ensures { IfOk result (λ s. record_of s ≡ record_of self.now) }
    {
        let directions = copy_all(alloc, self.directions.as_slice())?;
        let platforms = copy_all(alloc, self.platforms.as_slice())?;
        let paths = copy_all(alloc, self.paths.as_slice())?;
        let incompatible = copy_plain(alloc, self.incompatible.as_slice())?;
        let trains = copy_all(alloc, self.trains.as_slice())?;
        Ok(Station {
            threshold: self.threshold,
            conflict_price: self.conflict_price,
            buffer_price: self.buffer_price,
            directions,
            platforms,
            paths,
            incompatible,
            trains,
        })
    }
}
