// The leaf of the best point of an ascent.
use crate::draft::Draft;
use crate::field::{Field, Lane, Stay};
use crate::packing::Packing;
use crate::potentials::push_potentials;
use crate::walk::Walk;
use leaf_bounds::{MinuteValue, TrainValue};
use std::alloc::{AllocError, Global};

/// The numbers of the minutes are the rises of a packing of greatest gain. Then a train's number is the least that one of its
/// patterns pays.
pub(crate) fn draw(alloc: Global, field: &Field, walk: &Walk) -> Result<Draft, AllocError> {
    let mut packing = Packing::new(alloc, field.minutes())?;
    let mut least = vec![in alloc; i64::MAX; field.trains]?;
    let mut v = Vec::new(alloc);
    for lane in field.lanes.as_slice() {
        let stays = field.stays_in(lane);
        packing.pack(stays, &walk.best_u, lane.minutes);
        push_rises(&packing, lane, field.first_minute, &mut v)?;
        lower_to_paid(&packing, stays, &mut least);
    }
    let mut alpha = Vec::new(alloc);
    let mut beta = Vec::new(alloc);
    push_potentials(alloc, field, &walk.cuts, &mut alpha, &mut beta)?;
    Ok(Draft {
        q: field.scale as i128,
        u: train_values(alloc, &least)?,
        v,
        alpha,
        beta,
    })
}

/// Adds a number for each minute at which the packing rises.
fn push_rises(
    packing: &Packing,
    lane: &Lane,
    first_minute: i32,
    v: &mut Vec<MinuteValue>,
) -> Result<(), AllocError> {
    let mut minute = first_minute;
    for after in 0..lane.minutes {
        let rise = packing
            .height(after + 1)
            .saturating_sub(packing.height(after));
        if rise > 0 {
            v.push(MinuteValue {
                platform: lane.platform,
                minute,
                value: rise as i128,
            })?;
        }
        minute = minute.saturating_add(1);
    }
    Ok(())
}

/// Lowers the trains' numbers to what the stays pay.
fn lower_to_paid(packing: &Packing, stays: &[Stay], least: &mut [i64]) {
    for stay in stays {
        let held = packing
            .height(stay.end as usize)
            .saturating_sub(packing.height(stay.start as usize));
        lower_to(least, stay.train as usize, stay.price.saturating_add(held));
    }
}

fn lower_to(least: &mut [i64], train: usize, paid: i64) {
    if train < least.len() && paid < least[train] {
        least[train] = paid;
    }
}

/// The numbers that aren't 0. That of a train without a pattern is above what any plan costs.
fn train_values(alloc: Global, least: &[i64]) -> Result<Vec<TrainValue>, AllocError> {
    let mut u = Vec::new(alloc);
    let mut train: u16 = 0;
    for value in least {
        if *value != 0 {
            u.push(TrainValue {
                train,
                value: *value as i128,
            })?;
        }
        train = train.saturating_add(1);
    }
    Ok(u)
}
