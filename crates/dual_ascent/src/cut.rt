use crate::field::Field;
use crate::headroom::FACTOR;
use crate::numbers::{LENGTH, UNIT, narrowed, value_at};
use std::alloc::{AllocError, Global};

/// Shares are counted in parts of so many. A cut may be charged once at most.
pub(crate) const WHOLE: i64 = 0x100_0000;

/// What a cut charges a listed pattern.
#[derive(Clone, Copy, Drop)]
struct Charge {
    /// Where the pattern's stay is.
    place: usize,
    number: i64,
    charged: i64,
}

/// Numbers at the listed patterns of two trains, over the scale, of which two of both trains are together at most the sealed
/// price. Some share of them is charged as potentials.
#[derive(Drop)]
pub(crate) struct Cut {
    /// Which of the pairings.
    pub pair: usize,
    pub first: usize,
    pub second: usize,
    pub alpha: Vec<i64>,
    pub beta: Vec<i64>,
    charges: Vec<Charge>,
    /// The greatest size of a number.
    size: i64,
    /// The share that is charged times the size: a number of the same kind as those of trains.
    pub weight: i64,
    best_weight: i64,
    direction: i64,
}

impl Cut {
    pub(crate) fn new(
        alloc: Global,
        field: &Field,
        pair: usize,
        trains: (usize, usize),
        alpha: Vec<i64>,
        beta: Vec<i64>,
    ) -> Result<Cut, AllocError> {
        let mut charges = Vec::new(alloc);
        push_charges(field, trains.0, &alpha, &mut charges)?;
        push_charges(field, trains.1, &beta, &mut charges)?;
        Ok(Cut {
            pair,
            first: trains.0,
            second: trains.1,
            size: greatest_size(&alpha).max(greatest_size(&beta)),
            alpha,
            beta,
            charges,
            weight: 0,
            best_weight: 0,
            direction: 0,
        })
    }

    /// The same numbers for the same pair.
    pub(crate) fn is_same(&self, other: &Cut) -> bool {
        self.pair == other.pair
            && self.alpha.as_slice() == other.alpha.as_slice()
            && self.beta.as_slice() == other.beta.as_slice()
    }

    /// Whether it has a number at all.
    pub(crate) fn is_empty(&self) -> bool {
        self.charges.is_empty()
    }

    /// As much of the cut is charged from the start as makes up for the factor.
    pub(crate) fn charge_part(&mut self, factor: i64) {
        let most = (self.size as i128).saturating_mul(FACTOR as i128);
        self.weight = narrowed(most.checked_div(factor as i128).unwrap_or(0)).min(self.size);
        self.best_weight = self.weight;
    }

    /// The share of the weight, in parts.
    pub(crate) fn share(&self) -> i64 {
        let parts = (self.weight as i128).saturating_mul(WHOLE as i128);
        narrowed(parts.checked_div(self.size as i128).unwrap_or(0))
            .max(0)
            .min(WHOLE)
    }

    /// Lowers the weight where the cuts of the pair have more than the whole together.
    pub(crate) fn limit(&mut self, shares: i64) {
        if WHOLE < shares {
            let most = (self.weight as i128).saturating_mul(WHOLE as i128);
            self.weight = narrowed(most.checked_div(shares as i128).unwrap_or(0));
        }
    }

    /// Charges the share of the weight.
    pub(crate) fn charge(&mut self, field: &mut Field) {
        let share = self.share();
        for charge in self.charges.iter_mut() {
            let now = part(charge.number, share);
            let more = now.saturating_sub(charge.charged);
            charge.charged = now;
            field.raise(charge.place, more);
        }
    }

    /// Turns the direction to where the value rises: by how much the chosen patterns of the two trains are above the cut.
    pub(crate) fn turn(&mut self, field: &Field, chosen: &[usize]) {
        let mut over: i64 = 0;
        for listed in chosen {
            over = over.saturating_add(self.number_at(field, *listed));
        }
        let rise = narrowed(
            (over as i128)
                .saturating_mul(UNIT as i128)
                .checked_div(self.size as i128)
                .unwrap_or(0),
        );
        let rise = if self.weight <= 0 { rise.max(0) } else { rise };
        self.direction = rise.saturating_add(self.direction.saturating_mul(7) / 10);
    }

    fn number_at(&self, field: &Field, listed: usize) -> i64 {
        let train = field.train_at(listed);
        let place = listed.saturating_sub(field.start_of(train));
        if train == self.first {
            value_at(&self.alpha, place)
        } else if train == self.second {
            value_at(&self.beta, place)
        } else {
            0
        }
    }

    pub(crate) fn square(&self) -> i128 {
        (self.direction as i128).saturating_mul(self.direction as i128)
    }

    /// Moves the weight in its direction.
    pub(crate) fn move_on(&mut self, length: i128) {
        let way = length.wrapping_mul(self.direction as i128) / LENGTH;
        self.weight = narrowed((self.weight as i128).saturating_add(way))
            .max(0)
            .min(self.size);
    }

    pub(crate) fn keep(&mut self) {
        self.best_weight = self.weight;
    }

    pub(crate) fn go_back(&mut self) {
        self.weight = self.best_weight;
        self.direction = 0;
    }
}

/// The share of a number, rounded down: over 2^24, which is `WHOLE`.
pub(crate) fn part(number: i64, share: i64) -> i64 {
    narrowed((number as i128).wrapping_mul(share as i128) >> 24)
}

fn push_charges(
    field: &Field,
    train: usize,
    numbers: &[i64],
    charges: &mut Vec<Charge>,
) -> Result<(), AllocError> {
    for (place, entry) in field.listed_of(train).iter().enumerate() {
        let number = value_at(numbers, place);
        if number != 0 {
            charges.push(Charge {
                place: entry.place,
                number,
                charged: 0,
            })?;
        }
    }
    Ok(())
}

fn greatest_size(numbers: &[i64]) -> i64 {
    let mut greatest = 0;
    for number in numbers {
        greatest = number.saturating_abs().max(greatest);
    }
    greatest
}
