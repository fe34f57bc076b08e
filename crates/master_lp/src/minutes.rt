// Minutes of platforms at which a look for too much weight begins. Which come first is a choice, and nothing is proved of it.
use crate::spans::{MINUTES, Span, minute_of, place_of, span_at};
use clique_cuts::CliqueCut;
use exact_lp::Point;
use leaf_bounds::Leaf;
use pair_prices::Case;
use pattern_pricing::{Column, Layout};
use patterns::{Allowed, Weights};
use std::alloc::{AllocError, Global};

/// A minute at which the weight on a platform may be greatest: a listed pattern arrives there, and a hold of the platform ends before
/// the next one arrives. The weight at every other minute is a part of that at one of these.
#[derive(Clone, Copy, PartialEq, Eq, PartialOrd, Ord, Drop)]
struct Candidate {
    /// What a leaf pays for the minute, with the other sign: those that it pays most for come first.
    rank: i128,
    platform: u8,
    minute: i32,
}

/// The minutes of a node.
#[derive(Drop)]
pub(crate) struct Minutes {
    candidates: Vec<Candidate>,
}

impl Minutes {
    /// The minutes of the lists, those first that the leaf pays for.
    pub(crate) fn new(
        alloc: Global,
        case: &Case,
        allowed: &Allowed,
        leaf: &Leaf,
    ) -> Result<Minutes, AllocError> {
        let platforms = case.station().platforms.len();
        let marks = marks(alloc, case, allowed, platforms)?;
        let mut candidates = Vec::new(alloc);
        for platform in 0..platforms {
            push_candidates(&marks, platform, &mut candidates)?;
        }
        for paid in leaf.v.as_slice() {
            raise(&mut candidates, paid.platform, paid.minute, paid.value);
        }
        candidates.sort()?;
        Ok(Minutes { candidates })
    }

    /// A minute with too much weight: the first that the leaf pays for, or else the one with most.
    pub(crate) fn first(
        &self,
        alloc: Global,
        case: &Case,
        allowed: &Allowed,
        layout: &Layout,
        point: &Point,
        weights: &Weights,
    ) -> Result<Option<CliqueCut>, AllocError> {
        let held = held(alloc, case, allowed, layout, point)?;
        let uses = weights.uses.as_slice();
        let mut most = 0;
        let mut best = None;
        for candidate in self.candidates.as_slice() {
            let excess = excess(&held, uses, candidate);
            if most < excess {
                let cut = CliqueCut {
                    platform: candidate.platform,
                    minute: candidate.minute,
                };
                if candidate.rank < 0 {
                    return Ok(Some(cut));
                }
                most = excess;
                best = Some(cut);
            }
        }
        Ok(best)
    }
}

/// What happens on a platform in a minute.
#[derive(Clone, Copy, Drop)]
struct Mark {
    arrives: bool,
    ends: bool,
}

/// For each platform and minute whether a listed pattern arrives then, and whether a hold ends.
fn marks(
    alloc: Global,
    case: &Case,
    allowed: &Allowed,
    platforms: usize,
) -> Result<Vec<Mark>, AllocError> {
    let none = Mark {
        arrives: false,
        ends: false,
    };
    let mut marks = vec![in alloc; none; platforms.min(64) * MINUTES]?;
    let lists = allowed.lists.as_slice();
    for train in 0..lists.len() {
        mark_train(case, allowed, train, &mut marks);
    }
    Ok(marks)
}

fn mark_train(case: &Case, allowed: &Allowed, train: usize, marks: &mut [Mark]) {
    let Some(list) = allowed.lists.as_slice().get(train) else {
        return;
    };
    for place in 0..list.len() {
        if let Some(span) = span_at(case, allowed, train, place) {
            mark_span(&span, marks);
        }
    }
}

fn mark_span(span: &Span, marks: &mut [Mark]) {
    let start = place_of(span.platform, span.start);
    if start < marks.len() {
        marks[start].arrives = true;
    }
    let end = place_of(span.platform, span.end);
    if end < marks.len() {
        marks[end].ends = true;
    }
}

/// Adds the platform's minutes, in their order.
fn push_candidates(
    marks: &[Mark],
    platform: usize,
    candidates: &mut Vec<Candidate>,
) -> Result<(), AllocError> {
    let mut arrived = None;
    for offset in 0..MINUTES {
        let Some(mark) = marks.get(platform.saturating_mul(MINUTES).saturating_add(offset)) else {
            return Ok(());
        };
        if mark.ends {
            push_arrived(arrived, platform, candidates)?;
            arrived = None;
        }
        if mark.arrives {
            arrived = Some(minute_of(offset));
        }
    }
    Ok(())
}

/// Adds the last arrival, if no hold has ended since.
fn push_arrived(
    arrived: Option<i32>,
    platform: usize,
    candidates: &mut Vec<Candidate>,
) -> Result<(), AllocError> {
    let Ok(platform) = u8::try_from(platform) else {
        return Ok(());
    };
    if let Some(minute) = arrived {
        candidates.push(Candidate {
            rank: 0,
            platform,
            minute,
        })?;
    }
    Ok(())
}

/// Pays for the last minute of the platform that isn't behind this one. The minutes stand by platform and then by minute.
fn raise(candidates: &mut [Candidate], platform: u16, minute: i32, value: i128) {
    let behind = candidates.partition_point(|c| {
        u16::from(c.platform) < platform || u16::from(c.platform) == platform && c.minute <= minute
    });
    if behind == 0 || behind > candidates.len() {
        return;
    }
    let last = behind - 1;
    if u16::from(candidates[last].platform) == platform {
        candidates[last].rank = candidates[last].rank.saturating_sub(value);
    }
}

/// The weight on each platform at each minute.
fn held(
    alloc: Global,
    case: &Case,
    allowed: &Allowed,
    layout: &Layout,
    point: &Point,
) -> Result<Vec<i128>, AllocError> {
    let platforms = case.station().platforms.len();
    let mut held = vec![in alloc; 0i128; platforms.min(64) * MINUTES]?;
    for weight in point.weights.as_slice() {
        if weight.column < layout.count() {
            if let Column::Weight(at) = layout.column(weight.column) {
                if let Some(span) = span_at(case, allowed, at.train, at.place) {
                    add_span(&span, weight.weight, &mut held);
                }
            }
        }
    }
    sum_up(&mut held);
    Ok(held)
}

/// Marks what comes and goes.
fn add_span(span: &Span, weight: i128, held: &mut [i128]) {
    let start = place_of(span.platform, span.start);
    if start < held.len() {
        held[start] = held[start].saturating_add(weight);
    }
    let end = place_of(span.platform, span.end);
    if end < held.len() {
        held[end] = held[end].saturating_sub(weight);
    }
}

/// Makes of what comes and goes what is there. All that comes to a platform goes again, so one sum serves them all.
fn sum_up(held: &mut [i128]) {
    let mut there = 0i128;
    for cell in held.iter_mut() {
        there = there.saturating_add(*cell);
        *cell = there;
    }
}

/// By how much the weight is more than the platform's use.
fn excess(held: &[i128], uses: &[i128], candidate: &Candidate) -> i128 {
    let platform = candidate.platform as usize;
    let held = held
        .get(place_of(platform, candidate.minute))
        .copied()
        .unwrap_or(0);
    let own = uses.get(platform).copied().unwrap_or(0);
    held.saturating_sub(own)
}
