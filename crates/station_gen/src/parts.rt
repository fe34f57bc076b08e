// The directions, platforms and paths, which are the same in each generated station.
ghost use Rattle.std.specs.Prelude.{◌≡◌, ◌<◌, ◌++◌, [], IfOk, OnOk, slice_index_or, decimal, ◌+◌};
ghost use Rattle.station_gen.specs.Made.{made_directions, regular, dummy, made_platforms, letter, path_name, made_path, paths_between, paths_of, made_paths};

use sequence::Sequence;
use station::{Name, Path, PathWay, Platform};
use std::alloc::{AllocError, Global};

const DIRECTIONS: u8 = 4;

/// How many platforms have paths. The dummy one comes after them.
const REGULAR: u8 = 5;

#[tactic(auto, unfolding(crate::specs::Made::made_directions))]
fn direction_name(direction: u8) -> &'static str
    requires { direction < 4 }
    ensures { result.now ≡ slice_index_or made_directions direction [] }
{
    match direction {
        0 => "N",
        1 => "E",
        2 => "S",
        _ => "W",
    }
}

pub(crate) fn directions(alloc: Global) -> Result<Sequence<Name>, AllocError>
    ensures { IfOk result (λ s. s ≡ made_directions) }
{
    let mut found = Vec::new(alloc);
    for direction in 0..DIRECTIONS {
        found.push(Name::new(alloc, direction_name(direction).as_bytes())?)?;
    }
    Ok(Sequence::from_vec(found))
}

pub(crate) fn platforms(alloc: Global) -> Result<Sequence<Platform>, AllocError>
    ensures { IfOk result (λ s. s ≡ made_platforms) }
{
    let mut found = Vec::new(alloc);
    for number in 0..REGULAR {
        found.push(regular(alloc, number)?)?;
    }
    found.push(dummy(alloc)?)?;
    Ok(Sequence::from_vec(found))
}

#[tactic(auto, unfolding(crate::specs::Made::regular))]
fn regular(alloc: Global, number: u8) -> Result<Platform, AllocError>
    requires { number < 5 }
    ensures { IfOk result (λ p. p ≡ regular number) }
{
    Ok(Platform {
        name: regular_name(alloc, number)?,
        dummy: false,
        price: 1_000,
        headway: 2,
        buffer: 0,
    })
}

#[tactic(auto, using(crate::proofs::Names::name_regular))]
fn regular_name(alloc: Global, number: u8) -> Result<Name, AllocError>
    requires { number < 5 }
    ensures { IfOk result (λ n. n ≡ decimal (number + 1)) }
{
    let text = format!(in alloc; "{}", number + 1)?;
    Name::new(alloc, text.as_bytes())
}

#[tactic(auto, using(crate::proofs::Names::name_dummy), unfolding(crate::specs::Made::dummy))]
fn dummy(alloc: Global) -> Result<Platform, AllocError>
    ensures { IfOk result (λ p. p ≡ dummy) }
{
    Ok(Platform {
        name: Name::new(alloc, b"D")?,
        dummy: true,
        price: 100_000,
        headway: 0,
        buffer: 0,
    })
}

pub(crate) fn paths(alloc: Global) -> Result<Sequence<Path>, AllocError>
    ensures { IfOk result (λ s. s ≡ made_paths) }
{
    let mut found = Vec::new(alloc);
    for direction in 0..DIRECTIONS {
        push_paths_of(alloc, direction, &mut found)?;
    }
    Ok(Sequence::from_vec(found))
}

/// Appends the paths of a direction.
fn push_paths_of(alloc: Global, direction: u8, found: &mut Vec<Path>) -> Result<(), AllocError>
    requires { direction < 4 }
    ensures { OnOk result (found.new.items ≡ found.old.items ++ paths_of direction) }
{
    for platform in 0..REGULAR {
        push_paths_between(alloc, direction, platform, found)?;
    }
    Ok(())
}

/// Appends the path in and the path out.
fn push_paths_between(
    alloc: Global,
    direction: u8,
    platform: u8,
    found: &mut Vec<Path>,
) -> Result<(), AllocError>
    requires direction { direction < 4 }
    requires platform { platform < 5 }
    ensures { OnOk result (found.new.items ≡ found.old.items ++ paths_between direction platform) }
{
    found.push(path(alloc, direction, platform, PathWay::In)?)?;
    found.push(path(alloc, direction, platform, PathWay::Out)?)?;
    Ok(())
}

#[tactic(auto, unfolding(crate::specs::Made::made_path, crate::specs::Made::regular))]
fn path(alloc: Global, direction: u8, platform: u8, way: PathWay) -> Result<Path, AllocError>
    requires direction { direction < 4 }
    requires platform { platform < 5 }
    ensures { IfOk result (λ p. p ≡ made_path direction platform way) }
{
    Ok(Path {
        name: path_name(alloc, direction, platform, way)?,
        direction,
        platform,
        way,
        minutes: 2,
        price: 0,
    })
}

/// The direction, `I` or `O`, and the platform, as in `NI1`.
#[tactic(auto, using(crate::proofs::Names::name_path))]
fn path_name(alloc: Global, direction: u8, platform: u8, way: PathWay) -> Result<Name, AllocError>
    requires direction { direction < 4 }
    requires platform { platform < 5 }
    ensures { IfOk result (λ n. n ≡ path_name direction platform way) }
{
    let text = format!(in alloc;
        "{}{}{}",
        direction_name(direction),
        letter(way),
        platform + 1
    )?;
    Name::new(alloc, text.as_bytes())
}

fn letter(way: PathWay) -> &'static str
    ensures { result.now ≡ letter way }
{
    match way {
        PathWay::In => "I",
        PathWay::Out => "O",
    }
}
