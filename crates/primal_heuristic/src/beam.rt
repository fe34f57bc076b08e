// A search for a plan that places the trains one by one, and keeps the cheapest beginnings.
use crate::beginning::Beginning;
use crate::board::{Board, Turn};
use crate::hashes::has;
use crate::steps::{Pick, Step, picks, steps};
use std::alloc::{AllocError, Global};

/// How many prices one search looks at, half a second's worth. Where lists are so long that this doesn't suffice, fewer beginnings go on.
const LOOKS_OF_SEARCH: u64 = 20_000_000;

/// What a search goes by.
#[derive(Clone, Copy, Drop)]
pub(crate) struct Aim {
    /// The platforms that may be used, one bit each.
    pub(crate) open: u64,
    /// The platforms that are paid from the start.
    pub(crate) paid: u64,
    /// Only plans below this cost are wanted.
    pub(crate) limit: i64,
    /// How many beginnings are kept.
    pub(crate) width: usize,
}

/// The numbers of a plan that seems to cost less than the limit. `looks` counts the prices that are looked at.
pub(crate) fn beam(
    alloc: Global,
    board: &Board,
    aim: &Aim,
    looks: &mut u64,
) -> Result<Option<Vec<u16>>, AllocError> {
    let Some(rest) = rest(alloc, board, aim.open)? else {
        return Ok(None);
    };
    let share = LOOKS_OF_SEARCH / (board.turns.len() as u64).max(1);
    let mut beginnings = Vec::new(alloc);
    beginnings.push(Beginning {
        cost: fees(board, aim.paid),
        paid: aim.paid,
        classes: Vec::new(alloc),
    })?;
    let mut trail = Vec::new(alloc);
    for (turn, rest) in board.turns.iter().zip(&rest) {
        let picks = picks(alloc, board, turn, aim.open)?;
        beginnings.truncate(affordable(turn, &picks, share));
        count(looks, beginnings.len(), turn, &picks);
        let room = aim.limit.saturating_sub(*rest);
        let mut steps = steps(alloc, board, turn, &beginnings, &picks, room)?;
        steps.truncate(aim.width);
        if steps.is_empty() {
            return Ok(None);
        }
        beginnings = next_beginnings(alloc, turn, &beginnings, &steps)?;
        trail.push(steps)?;
    }
    Ok(Some(numbers(alloc, board, &trail)?))
}

/// For each train what all trains after it cost at least, or None where a train has no candidate on an open platform.
fn rest(alloc: Global, board: &Board, open: u64) -> Result<Option<Vec<i64>>, AllocError> {
    let mut rest = Vec::new(alloc);
    let mut total = 0i64;
    for turn in board.turns.iter().rev() {
        let Some(price) = least_price(turn, open) else {
            return Ok(None);
        };
        rest.push(total)?;
        total = total.saturating_add(price);
    }
    rest.reverse();
    Ok(Some(rest))
}

fn least_price(turn: &Turn, open: u64) -> Option<i64> {
    for candidate in &turn.candidates {
        if has(open, candidate.platform as usize) {
            return Some(candidate.price);
        }
    }
    None
}

fn fees(board: &Board, platforms: u64) -> i64 {
    let mut total = 0i64;
    for (platform, fee) in board.fees.iter().enumerate() {
        if has(platforms, platform) {
            total = total.saturating_add(*fee);
        }
    }
    total
}

/// How many prices are looked at for one beginning.
fn looks_for_one(turn: &Turn, picks: &[Pick]) -> u64 {
    let each = (turn.past.len() as u64).saturating_add(1);
    (picks.len() as u64).saturating_mul(each)
}

/// How many beginnings may go on with the train, at least one.
fn affordable(turn: &Turn, picks: &[Pick], share: u64) -> usize {
    (share / looks_for_one(turn, picks).max(1)).max(1) as usize
}

fn count(looks: &mut u64, beginnings: usize, turn: &Turn, picks: &[Pick]) {
    let spent = (beginnings as u64).saturating_mul(looks_for_one(turn, picks));
    *looks = looks.saturating_add(spent);
}

fn next_beginnings(
    alloc: Global,
    turn: &Turn,
    beginnings: &[Beginning],
    steps: &[Step],
) -> Result<Vec<Beginning>, AllocError> {
    let mut next = Vec::new(alloc);
    for step in steps {
        if let Some(beginning) = beginnings.get(step.from) {
            next.push(beginning.next(alloc, turn, step)?)?;
        }
    }
    Ok(next)
}

/// The numbers that the trains take on the way to the cheapest of the last steps.
fn numbers(alloc: Global, board: &Board, trail: &[Vec<Step>]) -> Result<Vec<u16>, AllocError> {
    let mut numbers = vec![in alloc; 0u16; board.turns.len()]?;
    let mut at = 0;
    for (turn, steps) in board.turns.iter().zip(trail).rev() {
        let Some(step) = steps.get(at) else {
            return Ok(numbers);
        };
        let candidate = turn.candidates.get(step.candidate);
        if let (Some(candidate), Some(number)) = (candidate, numbers.get_mut(turn.train)) {
            *number = candidate.number;
        }
        at = step.from;
    }
    Ok(numbers)
}
