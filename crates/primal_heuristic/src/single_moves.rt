// Moves of one train at a time.
use crate::board::{Board, Turn};
use std::alloc::{AllocError, Global};

/// How often all trains are moved at most. Two or three times are the rule.
const SWEEPS: usize = 5;

/// The numbers after each train has moved to its cheapest candidate beside the others, until none moves any more.
pub(crate) fn moved(alloc: Global, board: &Board, numbers: &[u16]) -> Result<Vec<u16>, AllocError> {
    let mut numbers = Vec::from_slice(alloc, numbers)?;
    let mut counts = counts(alloc, board, &numbers)?;
    for _ in 0..SWEEPS {
        let mut is_moved = false;
        for turn in &board.turns {
            if move_one(alloc, board, turn, &mut numbers, &mut counts)? {
                is_moved = true;
            }
        }
        if !is_moved {
            return Ok(numbers);
        }
    }
    Ok(numbers)
}

/// How many trains stand on each platform.
fn counts(alloc: Global, board: &Board, numbers: &[u16]) -> Result<Vec<u32>, AllocError> {
    let mut counts = vec![in alloc; 0u32; board.fees.len()]?;
    for (train, number) in numbers.iter().enumerate() {
        if let Some(candidate) = board.prices.candidate(train, *number) {
            count_more(&mut counts, candidate.platform as usize);
        }
    }
    Ok(counts)
}

fn count_more(counts: &mut [u32], platform: usize) {
    if let Some(count) = counts.get_mut(platform) {
        *count = count.saturating_add(1);
    }
}

fn count_less(counts: &mut [u32], platform: usize) {
    if let Some(count) = counts.get_mut(platform) {
        *count = count.saturating_sub(1);
    }
}

/// Whether the train has moved to another number.
fn move_one(
    alloc: Global,
    board: &Board,
    turn: &Turn,
    numbers: &mut [u16],
    counts: &mut [u32],
) -> Result<bool, AllocError> {
    let Some(before) = numbers.get(turn.train).copied() else {
        return Ok(false);
    };
    let Some(old) = board.prices.candidate(turn.train, before) else {
        return Ok(false);
    };
    count_less(counts, old.platform as usize);
    let others = others(alloc, board, turn, numbers)?;
    let now = turn
        .candidates
        .iter()
        .position(|candidate| candidate.number == before);
    let best = cheapest(board, turn, &others, counts, now);
    let Some(new) = best.and_then(|candidate| turn.candidates.get(candidate)) else {
        count_more(counts, old.platform as usize);
        return Ok(false);
    };
    count_more(counts, new.platform as usize);
    if let Some(number) = numbers.get_mut(turn.train) {
        *number = new.number;
    }
    Ok(new.number != before)
}

/// The class of the other train's choice in each pair of the train.
fn others(
    alloc: Global,
    board: &Board,
    turn: &Turn,
    numbers: &[u16],
) -> Result<Vec<u16>, AllocError> {
    let mut others = Vec::new(alloc);
    for link in &turn.links {
        let number = numbers.get(link.other).copied().unwrap_or(0);
        others.push(board.prices.class(link.place, link.other, number))?;
    }
    Ok(others)
}

/// The candidate that costs least beside the others: the present one unless another is cheaper.
fn cheapest(
    board: &Board,
    turn: &Turn,
    others: &[u16],
    counts: &[u32],
    now: Option<usize>,
) -> Option<usize> {
    let mut best = now;
    let mut least = match now {
        Some(number) => cost_up_to(board, turn, number, others, counts, i64::MAX),
        None => i64::MAX,
    };
    for number in 0..turn.candidates.len() {
        let cost = cost_up_to(board, turn, number, others, counts, least);
        if cost < least {
            least = cost;
            best = Some(number);
        }
    }
    best
}

/// What the candidate costs beside the others, its platform's price with it if no other train stands there. A cost above `most` may be
/// answered as `most`.
fn cost_up_to(
    board: &Board,
    turn: &Turn,
    number: usize,
    others: &[u16],
    counts: &[u32],
    most: i64,
) -> i64 {
    let Some(candidate) = turn.candidates.get(number) else {
        return most;
    };
    let platform = candidate.platform as usize;
    let is_paid = counts.get(platform).copied().unwrap_or(0) > 0;
    let fee = if is_paid { 0 } else { board.fee(platform) };
    let alone = candidate.price.saturating_add(fee);
    if alone >= most {
        return most;
    }
    alone.saturating_add(beside(board, turn, number, others))
}

fn beside(board: &Board, turn: &Turn, candidate: usize, others: &[u16]) -> i64 {
    let mut cost = 0i64;
    for (link, other) in others.iter().enumerate() {
        if let Some(pair) = turn.links.get(link) {
            let own = turn.class(candidate, link);
            cost = cost.saturating_add(board.prices.between(pair.place, turn.train, own, *other));
        }
    }
    cost
}
