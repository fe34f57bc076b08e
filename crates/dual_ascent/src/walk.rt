// One ascent: where it stands, where it was best, and where it goes next.
use crate::cuts::Cuts;
use crate::field::Field;
use crate::goal::Goal;
use crate::numbers::{LENGTH, UNIT, clear, copy_over, narrowed, sum, value_at};
use crate::packing::Packing;
use std::alloc::{AllocError, Global};

/// Steps without a gain after which the ascent goes back to its best point, with shorter steps.
const PATIENCE: u32 = 30;

/// The length of the first steps, in parts of 1,024 of the way to the level, and of the first steps from a seed.
const RATE: i64 = 1024;

const SEEDED_RATE: i64 = 512;

/// Their length at least, after new cuts were found.
const FRESH_RATE: i64 = 256;

/// `UNIT * LENGTH / RATE`: what a rate and a gap are multiplied by for the length.
const STEP: i128 = 4096;

/// What a choice adds to the average of the choices.
const CHOICE: u32 = 32_768;

/// What may follow a step.
#[derive(Clone, Copy, PartialEq, Eq, Debug, Drop)]
pub(crate) enum Next {
    /// Another step.
    Step,
    /// The value rises in no direction: another step only with new cuts.
    Cuts,
    /// Nothing. The goal is reached, or the steps are too short.
    End,
}

#[derive(Drop)]
pub(crate) struct Walk {
    /// The numbers of the trains.
    pub u: Vec<i64>,
    /// Where the value was greatest, and that value.
    pub best_u: Vec<i64>,
    pub best: i128,
    /// The best value at the last gain worth the name, and the steps since.
    mark: i128,
    idle: u32,
    rate: i64,
    direction: Vec<i64>,
    pub cuts: Cuts,
    packing: Packing,
    /// The listed patterns that the packings chose.
    chosen: Vec<usize>,
    /// For each listed pattern how often it was chosen of late.
    pub average: Vec<u32>,
}

impl Walk {
    pub(crate) fn new(
        alloc: Global,
        field: &Field,
        u: Vec<i64>,
        cuts: Cuts,
        is_seeded: bool,
    ) -> Result<Walk, AllocError> {
        Ok(Walk {
            best_u: Vec::from_slice(alloc, &u)?,
            u,
            best: i128::MIN,
            mark: i128::MIN,
            idle: 0,
            rate: if is_seeded { SEEDED_RATE } else { RATE },
            direction: vec![in alloc; 0; field.trains]?,
            cuts,
            packing: Packing::new(alloc, field.minutes())?,
            chosen: Vec::new(alloc),
            average: vec![in alloc; 0; field.listed.len()]?,
        })
    }

    /// Looks at this point, and goes on to the next.
    pub(crate) fn step(&mut self, field: &mut Field, goal: &Goal) -> Result<Next, AllocError> {
        let value = self.value(field)?;
        self.note(value, goal);
        if goal.is_reached(self.best) {
            return Ok(Next::End);
        }
        if PATIENCE <= self.idle {
            return Ok(self.go_back(field));
        }
        self.count_chosen();
        let square = self.turn(field);
        Ok(self.move_on(field, goal, value, square))
    }

    /// Steps of some length again, as new cuts were found.
    pub(crate) fn refresh(&mut self) {
        self.rate = self.rate.max(FRESH_RATE);
        self.idle = 0;
    }

    /// The value of the best leaf with these numbers of the trains.
    fn value(&mut self, field: &Field) -> Result<i128, AllocError> {
        self.chosen.clear();
        let mut value = sum(&self.u);
        for lane in field.lanes.as_slice() {
            let stays = field.stays_in(lane);
            let height = self.packing.pack(stays, &self.u, lane.minutes);
            if lane.price < height {
                let excess = height.saturating_sub(lane.price);
                value = value.saturating_sub(excess as i128);
                self.packing.push_chosen(
                    stays,
                    field.numbered_in(lane),
                    lane.minutes,
                    &mut self.chosen,
                )?;
            }
        }
        Ok(value)
    }

    /// Keeps the point where it is the best so far.
    fn note(&mut self, value: i128, goal: &Goal) {
        self.idle = self.idle.saturating_add(1);
        if value <= self.best {
            return;
        }
        self.best = value;
        copy_over(&mut self.best_u, &self.u);
        self.cuts.keep();
        if self.mark.saturating_add(goal.scale / 64) < value {
            self.mark = value;
            self.idle = 1;
        }
    }

    /// Back to the best point, with shorter steps.
    fn go_back(&mut self, field: &mut Field) -> Next {
        self.rate = (self.rate.saturating_mul(4) / 5).max(1);
        self.idle = 0;
        copy_over(&mut self.u, &self.best_u);
        self.cuts.go_back(field);
        clear(&mut self.direction);
        if self.rate <= 1 {
            Next::End
        } else {
            Next::Step
        }
    }

    fn count_chosen(&mut self) {
        for part in self.average.iter_mut() {
            *part -= *part / 32;
        }
        for listed in self.chosen.as_slice() {
            count_at(&mut self.average, *listed);
        }
    }

    /// The next direction: that in which the value rises here, and some of the last. Gives the square of its length.
    fn turn(&mut self, field: &Field) -> i128 {
        for part in self.direction.iter_mut() {
            *part = UNIT.saturating_add(part.saturating_mul(7) / 10);
        }
        for listed in self.chosen.as_slice() {
            lower(&mut self.direction, field.train_at(*listed));
        }
        square(&self.direction).saturating_add(self.cuts.turn(field, &self.chosen))
    }

    /// A step in the direction, up to where the level would be reached.
    fn move_on(&mut self, field: &mut Field, goal: &Goal, value: i128, square: i128) -> Next {
        let gap = goal.level(self.best).saturating_sub(value);
        let most = gap.wrapping_mul(self.rate as i128 * STEP);
        let Some(length) = most.checked_div(square) else {
            return Next::Cuts;
        };
        for train in 0..self.u.len() {
            let way = length.wrapping_mul(value_at(&self.direction, train) as i128) / LENGTH;
            move_at(&mut self.u, train, way);
        }
        self.cuts.move_on(field, length);
        Next::Step
    }
}

fn count_at(average: &mut [u32], place: usize) {
    if place < average.len() {
        average[place] = average[place].saturating_add(CHOICE);
    }
}

fn lower(direction: &mut [i64], train: usize) {
    if train < direction.len() {
        direction[train] = direction[train].saturating_sub(UNIT);
    }
}

fn square(direction: &[i64]) -> i128 {
    let mut sum: i128 = 0;
    for part in direction {
        let part = *part as i128;
        sum = sum.saturating_add(part.wrapping_mul(part));
    }
    sum
}

fn move_at(u: &mut [i64], train: usize, way: i128) {
    if train < u.len() {
        u[train] = narrowed((u[train] as i128).saturating_add(way));
    }
}
