// The pairs of incompatible paths.
ghost use Rattle.std.specs.Prelude.{◌≡◌, ◌≤◌, ◌<◌, ◌++◌, IfOk, OnOk, filter, cond, ◌∷◌, [], length};
ghost use Rattle.station_reader.specs.Reading.{pairs_with};
ghost use Rattle.station_gen.specs.Made.{is_alike_pair, alike_pairs};

use sequence::Sequence;
use station::{Path, PathPair};
use std::alloc::{AllocError, Global};

/// Every two paths of the same direction and the same way, ascending.
pub(crate) fn alike_pairs(alloc: Global, paths: &[Path]) -> Result<Sequence<PathPair>, AllocError>
    requires { length paths.now ≤ 500 }
    ensures { IfOk result (λ s. s ≡ alike_pairs paths.now) }
{
    let count = paths.len();
    let mut found = Vec::new(alloc);
    for first in 0..count {
        push_row(&mut found, first, paths)?;
    }
    Ok(Sequence::from_vec(found))
}

/// Appends the pairs with this first path.
fn push_row(found: &mut Vec<PathPair>, first: usize, paths: &[Path]) -> Result<(), AllocError>
    requires few { length paths.now ≤ 500 }
    requires within { first < length paths.now }
    ensures { OnOk result (found.new.items ≡ found.old.items ++ filter (is_alike_pair paths.now) (pairs_with (length paths.now) first)) }
{
    let count = paths.len();
    for second in first + 1..count {
        let pair = PathPair {
            first: first as u16,
            second: second as u16,
        };
        push_if_alike(found, pair, paths)?;
    }
    Ok(())
}

fn push_if_alike(
    found: &mut Vec<PathPair>,
    pair: PathPair,
    paths: &[Path],
) -> Result<(), AllocError>
    ensures { OnOk result (found.new.items ≡ found.old.items ++ cond (is_alike_pair paths.now pair) (pair ∷ []) []) }
{
    if is_alike_pair(paths, pair) {
        found.push(pair)?;
    }
    Ok(())
}

fn is_alike_pair(paths: &[Path], pair: PathPair) -> bool
    ensures { result ≡ is_alike_pair paths.now pair }
{
    match (
        paths.get(pair.first as usize),
        paths.get(pair.second as usize),
    ) {
        (Some(first), Some(second)) => {
            first.direction == second.direction && first.way == second.way
        }
        _ => false,
    }
}
