// Sets of platforms to be opened.
use crate::board::Board;
use crate::hashes::{bit, has};
use std::alloc::{AllocError, Global};

/// The platforms that the trains stand on with these numbers, one bit each.
pub(crate) fn used(board: &Board, numbers: &[u16]) -> u64 {
    let mut used = 0;
    for (train, number) in numbers.iter().enumerate() {
        if let Some(candidate) = board.prices.candidate(train, *number) {
            used = used | bit(candidate.platform as usize);
        }
    }
    used
}

/// All platforms.
pub(crate) fn all(board: &Board) -> u64 {
    let mut all = 0;
    for platform in 0..board.fees.len() {
        all = all | bit(platform);
    }
    all
}

/// The set, those that have one platform more or less, and then those that have one in place of another.
pub(crate) fn neighbours(alloc: Global, board: &Board, set: u64) -> Result<Vec<u64>, AllocError> {
    let count = board.fees.len();
    let mut sets = Vec::new(alloc);
    sets.push(set)?;
    for platform in 0..count {
        sets.push(set ^ bit(platform))?;
    }
    for platform in 0..count {
        for other in 0..count {
            if has(set, platform) && !has(set, other) {
                sets.push(set ^ bit(platform) ^ bit(other))?;
            }
        }
    }
    Ok(sets)
}
