// Packings of one platform: stays that don't meet, of greatest gain together.
use crate::field::Stay;
use crate::numbers::value_at;
use std::alloc::{AllocError, Global};

/// For each minute of a lane, and one more, the greatest gain of stays that end by it, and which of them ends there: its place
/// in the lane plus one, or 0.
#[derive(Drop)]
pub(crate) struct Packing {
    heights: Vec<i64>,
    enders: Vec<usize>,
}

impl Packing {
    /// Room for lanes of so many minutes.
    pub(crate) fn new(alloc: Global, minutes: usize) -> Result<Packing, AllocError> {
        let count = minutes.saturating_add(1);
        Ok(Packing {
            heights: vec![in alloc; 0; count]?,
            enders: vec![in alloc; 0; count]?,
        })
    }

    /// The greatest gain of stays that don't meet. A stay's gain is the number of its train less its price.
    pub(crate) fn pack(&mut self, stays: &[Stay], u: &[i64], minutes: usize) -> i64 {
        fill(&mut self.heights, &mut self.enders, stays, u, minutes);
        self.height(minutes)
    }

    /// The greatest gain up to that minute, in the last packing.
    pub(crate) fn height(&self, minute: usize) -> i64 {
        value_at(&self.heights, minute)
    }

    /// Adds the numbers of the stays of the last packing, from the last to the first.
    pub(crate) fn push_chosen(
        &self,
        stays: &[Stay],
        numbered: &[usize],
        minutes: usize,
        chosen: &mut Vec<usize>,
    ) -> Result<(), AllocError> {
        let mut minute = minutes;
        for _ in 0..minutes {
            let ender = ender_at(&self.enders, minute);
            if 0 < ender && ender <= stays.len() && ender <= numbered.len() {
                chosen.push(numbered[ender - 1])?;
                minute = stays[ender - 1].start as usize;
            } else {
                minute = minute.saturating_sub(1);
            }
            if minute == 0 {
                break;
            }
        }
        Ok(())
    }
}

fn ender_at(enders: &[usize], minute: usize) -> usize {
    if minute < enders.len() {
        enders[minute]
    } else {
        0
    }
}

fn fill(heights: &mut [i64], enders: &mut [usize], stays: &[Stay], u: &[i64], minutes: usize) {
    if heights.is_empty() {
        return;
    }
    heights[0] = 0;
    let mut minute = 0;
    for place in 0..stays.len() {
        let stay = &stays[place];
        let gain = value_at(u, stay.train as usize).saturating_sub(stay.price);
        if gain > 0 {
            carry(heights, enders, minute, stay.end as usize);
            minute = minute.max(stay.end as usize);
            enter(heights, enders, stay, gain, place + 1);
        }
    }
    carry(heights, enders, minute, minutes);
}

/// Carries the height of a minute over to the later ones.
fn carry(heights: &mut [i64], enders: &mut [usize], from: usize, to: usize) {
    let height = value_at(heights, from);
    for minute in from..to {
        if minute + 1 < heights.len() && minute + 1 < enders.len() {
            heights[minute + 1] = height;
            enders[minute + 1] = 0;
        }
    }
}

/// Lets the stay be the last one where that is higher.
fn enter(heights: &mut [i64], enders: &mut [usize], stay: &Stay, gain: i64, ender: usize) {
    let end = stay.end as usize;
    let height = value_at(heights, stay.start as usize).saturating_add(gain);
    if end < heights.len() && end < enders.len() && heights[end] < height {
        heights[end] = height;
        enders[end] = ender;
    }
}
