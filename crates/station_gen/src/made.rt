ghost use Rattle.std.specs.Prelude.{◌≡◌, ◌≤◌, IfOk};
ghost use Rattle.station.specs.Shown.{record_of};
ghost use Rattle.station_gen.specs.declared.version.Version.TheVariants.{One};
ghost use Rattle.station_gen.specs.Json.{version_of};
ghost use Rattle.station_gen.specs.Made.{made_station};

use crate::pairs::alike_pairs;
use crate::parts::{directions, paths, platforms};
use crate::trains::drawn_trains;
use station::Station;
use std::alloc::{AllocError, Global};

/// The generated station of a number, with so many trains ("The generator" in docs/FORMATS.md).
///
/// # Errors
///
/// Want of memory.
pub fn make(alloc: Global, number: u64, trains: u8) -> Result<Station, AllocError>
    requires { trains ≤ 200 }
    ensures station { IfOk result (λ s. record_of s ≡ made_station number trains) }
    // Its text is of version 1.
    ensures version { IfOk result (λ s. version_of (record_of s) ≡ One) }
{
    let directions = directions(alloc)?;
    let platforms = platforms(alloc)?;
    let paths = paths(alloc)?;
    let incompatible = alike_pairs(alloc, paths.as_slice())?;
    let trains = drawn_trains(alloc, number, trains)?;
    Ok(Station {
        threshold: 1,
        conflict_price: 20,
        buffer_price: 0,
        directions,
        platforms,
        paths,
        incompatible,
        trains,
    })
}
