ghost use Rattle.pattern_pricing.specs.Kept.{AreStarts};
ghost use Rattle.std.specs.Prelude.{◌≡◌, ℕ, ◌+◌, ◌-◌, ◌<◌, ◌≤◌, length, slice_index, IfOk};
ghost use Rattle.patterns.specs.Allowed.{list_of};

use sequence::Sequence;
use std::alloc::{AllocError, Global};

/// The numbers of entries in the lists before each list, and in all.
pub(crate) fn starts_of(alloc: Global, lists: &[Sequence<u16>]) -> Result<Vec<u64>, AllocError>
    requires lists { length lists.now ≤ 200 }
    requires sizes { (train : ℕ) → train < length lists.now → length (list_of lists.now train) ≤ 4096 }
    ensures { IfOk result (λ v. AreStarts (λ train. length (list_of lists.now train)) (length lists.now) v.items) }
{
    let mut starts = Vec::new(alloc);
    starts.push(0)?;
    let mut total = 0;
    for train in 0..lists.len() {
        total += lists[train].len() as u64;
        starts.push(total)?;
    }
    Ok(starts)
}

/// The numbers of pairs whose first train is before each train, and of all pairs.
pub(crate) fn pair_starts_of(alloc: Global, trains: usize) -> Result<Vec<u64>, AllocError>
    requires { trains ≤ 200 }
    ensures { IfOk result (λ v. AreStarts (λ train. trains - (train + 1)) trains v.items) }
{
    let mut starts = Vec::new(alloc);
    starts.push(0)?;
    let mut total = 0;
    for train in 0..trains {
        total += (trains - (train + 1)) as u64;
        starts.push(total)?;
    }
    Ok(starts)
}

/// The part that the number is in: it is not below the part's start, and below the next one's. Found by halves.
pub(crate) fn part_at(starts: &[u64], number: u64) -> usize
    requires some { 1 < length starts.now }
    requires first { slice_index starts.now 0 ≤ number }
    requires last { number < slice_index starts.now (length starts.now - 1) }
    ensures inside { result + 1 < length starts.now }
    ensures begins { slice_index starts.now result ≤ number }
    ensures ends { number < slice_index starts.now (result + 1) }
{
    let mut low = 0;
    let mut high = starts.len() - 1;
    while low + 1 < high {
        let middle = low + (high - low) / 2;
        if starts[middle] <= number {
            low = middle;
        } else {
            high = middle;
        }
    }
    low
}
