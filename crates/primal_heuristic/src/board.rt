// What a search knows of each train before it begins.
use crate::candidates::{Candidate, candidates};
use crate::links::Link;
use crate::prices::Prices;
use patterns::Allowed;
use std::alloc::{AllocError, Global};

/// A pair of the train with one that is placed before it: where the other's class stands among those that a beginning keeps, and
/// which of the train's own classes goes with it.
#[derive(Clone, Copy, Drop)]
pub(crate) struct Past {
    pub(crate) place: u16,
    pub(crate) at: usize,
    pub(crate) own: usize,
}

/// A train in the order in which they are placed.
#[derive(Drop)]
pub(crate) struct Turn {
    pub(crate) train: usize,
    pub(crate) candidates: Vec<Candidate>,
    /// The pairs of the train.
    pub(crate) links: Vec<Link>,
    /// The classes of each candidate in these pairs, a row for each candidate.
    pub(crate) classes: Vec<u16>,
    pub(crate) past: Vec<Past>,
    /// Which of the classes that a beginning keeps are still wanted after this train.
    pub(crate) kept: Vec<usize>,
    /// The pairs with trains that are placed after it.
    pub(crate) later: Vec<usize>,
}

/// The trains by their arrival, and the prices of the platforms.
#[derive(Drop)]
pub(crate) struct Board<'a> {
    pub(crate) prices: Prices<'a>,
    pub(crate) turns: Vec<Turn>,
    pub(crate) fees: Vec<i64>,
}

impl Turn {
    /// The class of a candidate in one of the train's pairs.
    pub(crate) fn class(&self, candidate: usize, link: usize) -> u16 {
        let at = candidate
            .saturating_mul(self.links.len())
            .saturating_add(link);
        self.classes.get(at).copied().unwrap_or(0)
    }
}

impl<'a> Board<'a> {
    /// A board for searches that take the numbers of these lists alone.
    pub(crate) fn new(
        alloc: Global,
        prices: Prices<'a>,
        allowed: &Allowed,
    ) -> Result<Board<'a>, AllocError> {
        let order = order(alloc, &prices)?;
        let positions = positions(alloc, &order)?;
        let mut pending = Vec::new(alloc);
        let mut turns = Vec::new(alloc);
        for train in &order {
            let turn = turn_of(alloc, &prices, allowed, *train, &positions, &mut pending)?;
            turns.push(turn)?;
        }
        let mut fees = Vec::new(alloc);
        for platform in prices.case.station().platforms.as_slice() {
            fees.push(platform.price as i64)?;
        }
        Ok(Board {
            prices,
            turns,
            fees,
        })
    }

    pub(crate) fn fee(&self, platform: usize) -> i64 {
        self.fees.get(platform).copied().unwrap_or(0)
    }
}

/// The trains by the minute of arrival.
fn order(alloc: Global, prices: &Prices) -> Result<Vec<usize>, AllocError> {
    let mut arrivals = Vec::new(alloc);
    for (train, timetabled) in prices.case.station().trains.as_slice().iter().enumerate() {
        arrivals.push((timetabled.arrive, train))?;
    }
    arrivals.sort()?;
    let mut order = Vec::new(alloc);
    for (_, train) in &arrivals {
        order.push(*train)?;
    }
    Ok(order)
}

/// The place of each train in the order.
fn positions(alloc: Global, order: &[usize]) -> Result<Vec<usize>, AllocError> {
    let mut positions = vec![in alloc; 0; order.len()]?;
    for (position, train) in order.iter().enumerate() {
        if let Some(slot) = positions.get_mut(*train) {
            *slot = position;
        }
    }
    Ok(positions)
}

/// The turn of the train. `pending` are the pairs of which one train is placed, before it and then after it.
fn turn_of(
    alloc: Global,
    prices: &Prices,
    allowed: &Allowed,
    train: usize,
    positions: &[usize],
    pending: &mut Vec<u16>,
) -> Result<Turn, AllocError> {
    let numbers = match allowed.lists.get(train) {
        Some(list) => list.as_slice(),
        None => &[],
    };
    let candidates = candidates(alloc, prices, train, numbers)?;
    let links = Link::all(alloc, prices, train)?;
    let classes = classes(alloc, prices, train, &candidates, &links)?;
    let past = past_pairs(alloc, pending, &links)?;
    let kept = kept(alloc, pending, &links)?;
    let later = later(alloc, train, &links, positions)?;
    *pending = still_pending(alloc, pending, &kept, &links, &later)?;
    Ok(Turn {
        train,
        candidates,
        links,
        classes,
        past,
        kept,
        later,
    })
}

fn classes(
    alloc: Global,
    prices: &Prices,
    train: usize,
    candidates: &[Candidate],
    links: &[Link],
) -> Result<Vec<u16>, AllocError> {
    let mut classes = Vec::new(alloc);
    for candidate in candidates {
        for link in links {
            classes.push(prices.class(link.place, train, candidate.number))?;
        }
    }
    Ok(classes)
}

fn past_pairs(alloc: Global, pending: &[u16], links: &[Link]) -> Result<Vec<Past>, AllocError> {
    let mut past = Vec::new(alloc);
    for (at, place) in pending.iter().enumerate() {
        if let Some(own) = Link::find(links, *place) {
            past.push(Past {
                place: *place,
                at,
                own,
            })?;
        }
    }
    Ok(past)
}

fn kept(alloc: Global, pending: &[u16], links: &[Link]) -> Result<Vec<usize>, AllocError> {
    let mut kept = Vec::new(alloc);
    for (at, place) in pending.iter().enumerate() {
        if Link::find(links, *place).is_none() {
            kept.push(at)?;
        }
    }
    Ok(kept)
}

fn later(
    alloc: Global,
    train: usize,
    links: &[Link],
    positions: &[usize],
) -> Result<Vec<usize>, AllocError> {
    let mut later = Vec::new(alloc);
    for (own, link) in links.iter().enumerate() {
        if positions.get(train) < positions.get(link.other) {
            later.push(own)?;
        }
    }
    Ok(later)
}

fn still_pending(
    alloc: Global,
    pending: &[u16],
    kept: &[usize],
    links: &[Link],
    later: &[usize],
) -> Result<Vec<u16>, AllocError> {
    let mut still = Vec::new(alloc);
    for at in kept {
        if let Some(place) = pending.get(*at) {
            still.push(*place)?;
        }
    }
    for own in later {
        if let Some(link) = links.get(*own) {
            still.push(link.place)?;
        }
    }
    Ok(still)
}
