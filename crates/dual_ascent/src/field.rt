ghost use Rattle.patterns.specs.Allowed.{FitsBook};

use crate::holds::{Hold, listed_holds};
use pair_prices::Case;
use patterns::Allowed;
use std::alloc::{AllocError, Global};

/// There are at most so many platforms.
const MOST_PLATFORMS: u16 = 64;

/// The greatest scale, and what the scale times TOP stays below.
const MOST_SCALE: i64 = 0x100_0000;

const MOST_SCALED: i64 = 0x100_0000_0000_0000;

/// A listed pattern as packings see it. Minutes count from the first one of the field.
#[derive(Clone, Copy, Drop)]
pub(crate) struct Stay {
    /// What the pattern costs, with its train's potentials.
    pub price: i64,
    pub train: u16,
    pub start: u16,
    pub end: u16,
}

/// A platform with the places of its stays, from `from` up to `to`, which is left out.
#[derive(Clone, Copy, Drop)]
pub(crate) struct Lane {
    pub platform: u16,
    pub price: i64,
    pub from: usize,
    pub to: usize,
    /// The end of the last stay.
    pub minutes: usize,
}

/// A listed pattern, and where its stay is.
#[derive(Clone, Copy, Drop)]
pub(crate) struct Listed {
    pub train: usize,
    pub number: u16,
    /// What the pattern costs, without potentials.
    pub price: i64,
    pub place: usize,
}

/// All that an ascent reads again and again. All prices are over the scale.
#[derive(Drop)]
pub(crate) struct Field {
    /// A power of two.
    pub scale: i64,
    pub trains: usize,
    pub first_minute: i32,
    /// By platform, and then by end.
    pub stays: Vec<Stay>,
    pub lanes: Vec<Lane>,
    /// For each stay its pattern's place among the listed ones.
    pub numbered: Vec<usize>,
    /// By train and number.
    pub listed: Vec<Listed>,
    /// For each train where its listed patterns begin.
    starts: Vec<usize>,
}

impl Field {
    pub(crate) fn new(alloc: Global, case: &Case, allowed: &Allowed) -> Result<Field, AllocError>
        requires { FitsBook allowed.now.lists case.now.book }
    {
        let scale = scale_for(case.top());
        let mut holds = listed_holds(alloc, case, allowed)?;
        let mut listed = listed_of(alloc, &holds, scale)?;
        holds.sort()?;
        let first_minute = first_minute(&holds);
        for place in 0..holds.len() {
            set_place(&mut listed, holds[place].listed, place);
        }
        let trains = case.book().trains();
        Ok(Field {
            scale,
            trains,
            first_minute,
            stays: stays_of(alloc, &holds, scale, first_minute)?,
            lanes: lanes_of(alloc, case, &holds, scale, first_minute)?,
            numbered: numbers_of(alloc, &holds)?,
            starts: starts_of(alloc, &listed, trains)?,
            listed,
        })
    }

    /// The stays of a lane.
    pub(crate) fn stays_in(&self, lane: &Lane) -> &[Stay] {
        if lane.from <= lane.to && lane.to <= self.stays.len() {
            &self.stays[lane.from..lane.to]
        } else {
            &[]
        }
    }

    /// The places among the listed patterns of a lane's stays.
    pub(crate) fn numbered_in(&self, lane: &Lane) -> &[usize] {
        if lane.from <= lane.to && lane.to <= self.numbered.len() {
            &self.numbered[lane.from..lane.to]
        } else {
            &[]
        }
    }

    /// Where the train's listed patterns begin.
    pub(crate) fn start_of(&self, train: usize) -> usize {
        if train < self.starts.len() {
            self.starts[train]
        } else {
            self.listed.len()
        }
    }

    /// The train's listed patterns.
    pub(crate) fn listed_of(&self, train: usize) -> &[Listed] {
        let from = self.start_of(train);
        let to = self.start_of(train.saturating_add(1));
        if from <= to && to <= self.listed.len() {
            &self.listed[from..to]
        } else {
            &[]
        }
    }

    /// The train of a listed pattern.
    pub(crate) fn train_at(&self, listed: usize) -> usize {
        if listed < self.listed.len() {
            self.listed[listed].train
        } else {
            self.trains
        }
    }

    /// Lets the stay's pattern cost so much more.
    pub(crate) fn raise(&mut self, place: usize, more: i64) {
        if place < self.stays.len() {
            let stay = &mut self.stays[place];
            stay.price = stay.price.saturating_add(more);
        }
    }

    /// The end of the last stay of all.
    pub(crate) fn minutes(&self) -> usize {
        let mut minutes = 0;
        for lane in self.lanes.as_slice() {
            minutes = lane.minutes.max(minutes);
        }
        minutes
    }
}

/// The greatest power of two, at most 2^24, that keeps scaled prices small.
fn scale_for(top: i64) -> i64 {
    let most = MOST_SCALED / top.max(1);
    let mut scale = MOST_SCALE;
    for _ in 0..24 {
        if scale > most {
            scale /= 2;
        }
    }
    scale
}

fn listed_of(alloc: Global, holds: &[Hold], scale: i64) -> Result<Vec<Listed>, AllocError> {
    let mut listed = Vec::with_capacity(alloc, holds.len())?;
    for hold in holds {
        listed.push(Listed {
            train: hold.train as usize,
            number: hold.number,
            price: hold.price.saturating_mul(scale),
            place: 0,
        })?;
    }
    Ok(listed)
}

fn numbers_of(alloc: Global, holds: &[Hold]) -> Result<Vec<usize>, AllocError> {
    let mut numbered = Vec::with_capacity(alloc, holds.len())?;
    for hold in holds {
        numbered.push(hold.listed)?;
    }
    Ok(numbered)
}

fn starts_of(alloc: Global, listed: &[Listed], trains: usize) -> Result<Vec<usize>, AllocError> {
    let mut starts = Vec::with_capacity(alloc, trains)?;
    for train in 0..trains {
        starts.push(listed.partition_point(|entry| entry.train < train))?;
    }
    Ok(starts)
}

fn set_place(listed: &mut [Listed], at: usize, place: usize) {
    if at < listed.len() {
        let entry = &mut listed[at];
        entry.place = place;
    }
}

fn first_minute(holds: &[Hold]) -> i32 {
    let mut first = i32::MAX;
    for hold in holds {
        first = hold.start.min(first);
    }
    first
}

/// How many minutes the minute is after the first.
fn after(minute: i32, first: i32) -> u16 {
    u16::try_from(minute as i64 - first as i64).unwrap_or(0)
}

fn stays_of(
    alloc: Global,
    holds: &[Hold],
    scale: i64,
    first_minute: i32,
) -> Result<Vec<Stay>, AllocError> {
    let mut stays = Vec::with_capacity(alloc, holds.len())?;
    for hold in holds {
        stays.push(Stay {
            price: hold.price.saturating_mul(scale),
            train: hold.train,
            start: after(hold.start, first_minute),
            end: after(hold.end, first_minute),
        })?;
    }
    Ok(stays)
}

fn lanes_of(
    alloc: Global,
    case: &Case,
    holds: &[Hold],
    scale: i64,
    first_minute: i32,
) -> Result<Vec<Lane>, AllocError> {
    let mut lanes = Vec::new(alloc);
    let mut from = 0;
    for platform in 0..MOST_PLATFORMS {
        let to = holds.partition_point(|hold| hold.platform <= platform);
        if let Some(last) = last_before(holds, from, to) {
            lanes.push(Lane {
                platform,
                price: platform_price(case, platform).saturating_mul(scale),
                from,
                to,
                minutes: after(last.end, first_minute) as usize,
            })?;
        }
        from = to;
    }
    Ok(lanes)
}

/// The last of those from `from` on and before `to`, if there are any.
fn last_before(holds: &[Hold], from: usize, to: usize) -> Option<Hold> {
    if from < to && to <= holds.len() {
        Some(holds[to - 1])
    } else {
        None
    }
}

fn platform_price(case: &Case, platform: u16) -> i64 {
    match case.station().platforms.get(platform as usize) {
        Some(platform) => platform.price as i64,
        None => 0,
    }
}
