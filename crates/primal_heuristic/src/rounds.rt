// Rounds of searches over the sets of open platforms.
use crate::beam::{Aim, beam};
use crate::board::Board;
use crate::openings::{neighbours, used};
use crate::single_moves::moved;
use plan_cost::{Plan, Verdict, judge};
use sequence::Sequence;
use std::alloc::{AllocError, Global};
use std::collections::HashSet;

/// How many beginnings the first search of a set keeps, and the second one of the best sets. With 20 and 200 it takes half the time and
/// misses the best plan more often.
const FIRST_WIDTH: usize = 60;

const SECOND_WIDTH: usize = 400;

/// How many sets get a second search in each round.
const BEST_SETS: usize = 4;

/// How many prices all rounds look at, a few seconds' worth. Stations with up to 64 trains of some dozens of patterns need a tenth.
const MOST_LOOKS: u64 = 100_000_000;

/// What the rounds have spent.
#[derive(Drop)]
pub(crate) struct Spent {
    /// The sets of platforms that were tried.
    tried: HashSet<u64>,
    /// How many prices were looked at.
    looks: u64,
}

impl Spent {
    pub(crate) fn new(alloc: Global) -> Spent {
        Spent {
            tried: HashSet::new(alloc),
            looks: 0,
        }
    }

    /// Whether all prices that may be looked at were.
    pub(crate) fn is_over(&self) -> bool {
        self.looks >= MOST_LOOKS
    }
}

/// Numbers of a plan with its cost, and the set of platforms that it was found with.
#[derive(Drop)]
struct Found {
    cost: i64,
    set: u64,
    numbers: Vec<u16>,
}

/// The numbers of a plan that costs less than `cost`, what the plan with these numbers costs, if one is found.
pub(crate) fn round(
    alloc: Global,
    board: &Board,
    numbers: &[u16],
    cost: i64,
    spent: &mut Spent,
) -> Result<Option<Vec<u16>>, AllocError> {
    let found = first_searches(alloc, board, numbers, cost, spent)?;
    match second_searches(alloc, board, found, cost, spent)? {
        Some(numbers) => Ok(Some(numbers)),
        None => moved_below(alloc, board, numbers, cost),
    }
}

/// What is found with the sets next to the platforms of these numbers, below that cost.
fn first_searches(
    alloc: Global,
    board: &Board,
    numbers: &[u16],
    cost: i64,
    spent: &mut Spent,
) -> Result<Vec<Found>, AllocError> {
    let mut found = Vec::new(alloc);
    for set in &neighbours(alloc, board, used(board, numbers))? {
        if !spent.is_over() && !spent.tried.contains(set) {
            spent.tried.insert(*set)?;
            if let Some(one) = search(alloc, board, *set, cost, FIRST_WIDTH, spent)? {
                found.push(one)?;
            }
        }
    }
    Ok(found)
}

/// The numbers of the cheapest plan, after the best sets were searched again.
fn second_searches(
    alloc: Global,
    board: &Board,
    mut found: Vec<Found>,
    cost: i64,
    spent: &mut Spent,
) -> Result<Option<Vec<u16>>, AllocError> {
    found.sort_by_key(|one| (one.cost, one.set))?;
    found.truncate(BEST_SETS);
    let mut least = cost;
    let mut cheapest = None;
    for one in found {
        let limit = least.min(one.cost);
        let one = match search(alloc, board, one.set, limit, SECOND_WIDTH, spent)? {
            Some(wider) => wider,
            None => one,
        };
        if one.cost < least {
            least = one.cost;
            cheapest = Some(one.numbers);
        }
    }
    Ok(cheapest)
}

/// The plan that a search finds with the platforms of the set, if it costs less than the limit.
fn search(
    alloc: Global,
    board: &Board,
    set: u64,
    limit: i64,
    width: usize,
    spent: &mut Spent,
) -> Result<Option<Found>, AllocError> {
    let aim = Aim {
        open: set,
        paid: set,
        limit,
        width,
    };
    let Some(numbers) = beam(alloc, board, &aim, &mut spent.looks)? else {
        return Ok(None);
    };
    match cost_of(alloc, board, &numbers)? {
        Some(cost) if cost < limit => Ok(Some(Found { cost, set, numbers })),
        _ => Ok(None),
    }
}

/// The numbers after moves of single trains, if they cost less than that.
fn moved_below(
    alloc: Global,
    board: &Board,
    numbers: &[u16],
    cost: i64,
) -> Result<Option<Vec<u16>>, AllocError> {
    let moved = moved(alloc, board, numbers)?;
    match cost_of(alloc, board, &moved)? {
        Some(new) if new < cost => Ok(Some(moved)),
        _ => Ok(None),
    }
}

/// What a plan with these numbers costs, if it is feasible.
fn cost_of(alloc: Global, board: &Board, numbers: &[u16]) -> Result<Option<i64>, AllocError> {
    let case = board.prices.case;
    let plan = Plan {
        choice: Sequence::from_vec(Vec::from_slice(alloc, numbers)?),
    };
    if !plan.fits(case) {
        return Ok(None);
    }
    match judge(case, &plan) {
        Verdict::Cost(costs) => Ok(Some(costs.total)),
        Verdict::Conflict(_) => Ok(None),
    }
}
