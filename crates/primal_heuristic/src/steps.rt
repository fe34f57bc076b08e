// How beginnings of plans go on with one more train.
use crate::beginning::Beginning;
use crate::board::{Board, Turn};
use crate::hashes::{bit, has, joined};
use std::alloc::{AllocError, Global};
use std::collections::HashMap;

/// The most candidates that a beginning goes on with, those of least price.
const MOST_PICKS: usize = 256;

/// A beginning with one more train: which beginning, and which candidate.
#[derive(Clone, Copy, PartialEq, Eq, PartialOrd, Ord, Drop)]
pub(crate) struct Step {
    pub(crate) cost: i64,
    pub(crate) from: usize,
    pub(crate) candidate: usize,
}

/// A candidate on an open platform: what it costs alone, and a number that stands for the classes that it leaves behind.
#[derive(Clone, Copy, Drop)]
pub(crate) struct Pick {
    candidate: usize,
    price: i64,
    fee: i64,
    platform: u64,
    mark: u64,
}

/// The candidates of the train on open platforms, by price.
pub(crate) fn picks(
    alloc: Global,
    board: &Board,
    turn: &Turn,
    open: u64,
) -> Result<Vec<Pick>, AllocError> {
    let mut picks = Vec::new(alloc);
    for (number, candidate) in turn.candidates.iter().enumerate() {
        let platform = candidate.platform as usize;
        if has(open, platform) && picks.len() < MOST_PICKS {
            picks.push(Pick {
                candidate: number,
                price: candidate.price,
                fee: board.fee(platform),
                platform: bit(platform),
                mark: mark(turn, number),
            })?;
        }
    }
    Ok(picks)
}

/// A number that stands for the classes of the candidate that later trains ask for.
fn mark(turn: &Turn, candidate: usize) -> u64 {
    let mut mark = 1;
    for link in &turn.later {
        mark = joined(mark, turn.class(candidate, *link) as u64);
    }
    mark
}

/// A number that stands for the classes of the beginning that later trains ask for.
fn kept_mark(turn: &Turn, beginning: &Beginning) -> u64 {
    let mut mark = 2;
    for at in &turn.kept {
        mark = joined(mark, beginning.class(*at) as u64);
    }
    mark
}

/// The steps of these beginnings that cost less than `room`, by cost. Of steps that are equal for all further trains there is the
/// cheapest alone.
pub(crate) fn steps(
    alloc: Global,
    board: &Board,
    turn: &Turn,
    beginnings: &[Beginning],
    picks: &[Pick],
    room: i64,
) -> Result<Vec<Step>, AllocError> {
    let mut found = HashMap::new(alloc);
    for (from, beginning) in beginnings.iter().enumerate() {
        go_on(board, turn, beginning, from, picks, room, &mut found)?;
    }
    let mut steps = Vec::new(alloc);
    for step in found.values() {
        steps.push(*step)?;
    }
    steps.sort()?;
    Ok(steps)
}

fn go_on(
    board: &Board,
    turn: &Turn,
    beginning: &Beginning,
    from: usize,
    picks: &[Pick],
    room: i64,
    found: &mut HashMap<u64, Step>,
) -> Result<(), AllocError> {
    let kept = kept_mark(turn, beginning);
    for pick in picks {
        let alone = beginning.cost.saturating_add(pick.price);
        // The picks come by price, so none of the rest has room either.
        if alone >= room {
            return Ok(());
        }
        let cost = alone
            .saturating_add(fee(beginning, pick))
            .saturating_add(beside(board, turn, beginning, pick));
        if cost < room {
            let mark = joined(joined(kept, pick.mark), beginning.paid | pick.platform);
            let candidate = pick.candidate;
            keep_least(
                found,
                mark,
                Step {
                    cost,
                    from,
                    candidate,
                },
            )?;
        }
    }
    Ok(())
}

fn fee(beginning: &Beginning, pick: &Pick) -> i64 {
    if beginning.paid & pick.platform == 0 {
        pick.fee
    } else {
        0
    }
}

/// What the candidate costs beside the trains of the beginning.
fn beside(board: &Board, turn: &Turn, beginning: &Beginning, pick: &Pick) -> i64 {
    let mut cost = 0i64;
    for past in &turn.past {
        let own = turn.class(pick.candidate, past.own);
        let other = beginning.class(past.at);
        let price = board.prices.between(past.place, turn.train, own, other);
        cost = cost.saturating_add(price);
    }
    cost
}

fn keep_least(found: &mut HashMap<u64, Step>, mark: u64, step: Step) -> Result<(), AllocError> {
    match found.get_mut(&mark) {
        Some(known) => {
            if step < *known {
                *known = step;
            }
        }
        None => {
            found.insert(mark, step)?;
        }
    }
    Ok(())
}
