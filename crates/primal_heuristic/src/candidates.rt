// The patterns of a train that a search looks at.
use crate::hashes::joined;
use crate::prices::Prices;
use std::alloc::{AllocError, Global};

/// How many patterns of a train are looked at, and how many at each platform: those of least price. Patterns that are equal for all other
/// trains are counted once, so that shorter lists are looked at whole.
const MOST_CANDIDATES: usize = 1_024;

const MOST_AT_PLATFORM: u16 = 64;

/// A pattern that a train may take.
#[derive(Clone, Copy, PartialEq, Eq, PartialOrd, Ord, Drop)]
pub(crate) struct Candidate {
    pub(crate) price: i64,
    pub(crate) number: u16,
    pub(crate) platform: u8,
}

/// A candidate with a number that stands for its platform and its classes in all pairs of its train.
#[derive(Clone, Copy, PartialEq, Eq, PartialOrd, Ord, Drop)]
struct Marked {
    mark: u64,
    candidate: Candidate,
}

/// The candidates of the train among these numbers, by price. Of those that are equal for all other trains there is the cheapest alone.
pub(crate) fn candidates(
    alloc: Global,
    prices: &Prices,
    train: usize,
    numbers: &[u16],
) -> Result<Vec<Candidate>, AllocError> {
    let mut marked = Vec::new(alloc);
    for number in numbers {
        if let Some(candidate) = prices.candidate(train, *number) {
            let mark = mark(prices, train, &candidate);
            marked.push(Marked { mark, candidate })?;
        }
    }
    marked.sort()?;
    marked.dedup_by_key(|m| m.mark);
    let mut all = Vec::new(alloc);
    for one in &marked {
        all.push(one.candidate)?;
    }
    all.sort()?;
    thinned(alloc, &all)
}

fn mark(prices: &Prices, train: usize, candidate: &Candidate) -> u64 {
    let mut mark = candidate.platform as u64;
    for place in prices.places(train) {
        let class = prices.class(*place, train, candidate.number);
        mark = joined(mark, class as u64);
    }
    mark
}

/// The first few of each platform, and not too many in all.
fn thinned(alloc: Global, all: &[Candidate]) -> Result<Vec<Candidate>, AllocError> {
    let mut counts = [0u16; 256];
    let mut some = Vec::new(alloc);
    for candidate in all {
        let count = counts[candidate.platform as usize];
        if count < MOST_AT_PLATFORM && some.len() < MOST_CANDIDATES {
            some.push(*candidate)?;
            counts[candidate.platform as usize] = count + 1;
        }
    }
    Ok(some)
}
