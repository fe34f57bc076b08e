// Cuts from the choices of late: where two trains' choices cost more together than is charged.
use crate::coupling::{TOTAL, cost_of, coupled, weights_of};
use crate::cut::Cut;
use crate::cuts::Cuts;
use crate::field::Field;
use crate::numbers::scaled;
use crate::pairing::{Kinds, Pairing, price_of};
use crate::price_table::price_table;
use crate::support::average_of;
use pair_classes::{Classes, Meetings};
use std::alloc::{AllocError, Global};
use transport::Coupled;

/// The most cuts that are added at a time.
const MOST_NEW: u32 = 6;

/// A cut is worth its while where the choices cost more than the cap's twentieth.
const WORTH: i128 = 20;

/// A cut, and what the choices cost under it.
#[derive(Drop)]
struct Found {
    cost: i128,
    cut: Cut,
}

/// What a separation looks at.
#[derive(Clone, Copy, Drop)]
pub(crate) struct View<'a> {
    pub meetings: &'a Meetings,
    pub average: &'a [u32],
    pub top: i64,
}

/// Adds the new cuts under which the choices of late cost most. Answers whether there are some.
pub(crate) fn separate(
    alloc: Global,
    view: &View,
    field: &Field,
    cuts: &mut Cuts,
) -> Result<bool, AllocError> {
    let mut found = all_found(alloc, view, field, &mut cuts.pairings)?;
    let mut added: u32 = 0;
    for _ in 0..found.len() {
        if added == MOST_NEW {
            break;
        }
        if let Some(cut) = take_dearest(&mut found) {
            let is_new = cuts.add(cut)?;
            added = added.saturating_add(u32::from(is_new));
        }
    }
    Ok(added > 0)
}

fn all_found(
    alloc: Global,
    view: &View,
    field: &Field,
    pairings: &mut [Pairing],
) -> Result<Vec<Found>, AllocError> {
    let mut found = Vec::new(alloc);
    let meetings = view.meetings.pairs();
    for pair in 0..pairings.len() {
        if pair < meetings.len() {
            if let Some(classes) = &meetings[pair].classes {
                push_found(
                    alloc,
                    view,
                    field,
                    classes,
                    pair,
                    &mut pairings[pair],
                    &mut found,
                )?;
            }
        }
    }
    Ok(found)
}

fn push_found(
    alloc: Global,
    view: &View,
    field: &Field,
    classes: &Classes,
    pair: usize,
    pairing: &mut Pairing,
    found: &mut Vec<Found>,
) -> Result<(), AllocError> {
    let rows = average_of(field, view.average, pairing.first);
    let columns = average_of(field, view.average, pairing.second);
    let left = weights_of(alloc, &pairing.rows, rows)?;
    let right = weights_of(alloc, &pairing.columns, columns)?;
    if !may_cost(classes, pairing, &left, &right) {
        return Ok(());
    }
    if pairing.cap == 0 {
        pairing.cap = greatest_price(classes, pairing, view.top).max(1);
    }
    let table = price_table(alloc, classes, pairing)?;
    if let Some(coupled) = coupled(alloc, &table, &left, &right)? {
        let cost = cost_of(&table, &coupled);
        if is_worth_while(cost, pairing.cap) {
            if let Some(cut) = cut_of(alloc, field, pair, pairing, &coupled)? {
                found.push(Found { cost, cut })?;
            }
        }
    }
    Ok(())
}

fn is_worth_while(cost: i128, cap: i64) -> bool {
    let least = (cap as i128).saturating_mul(TOTAL as i128);
    least < cost.saturating_mul(WORTH)
}

/// Whether two kinds with weight cost something together.
fn may_cost(classes: &Classes, pairing: &Pairing, left: &[i128], right: &[i128]) -> bool {
    let rows = pairing.rows.classes.as_slice();
    for row in 0..rows.len() {
        if row < left.len() && left[row] > 0 {
            if costs_with(classes, rows[row], &pairing.columns.classes, right) {
                return true;
            }
        }
    }
    false
}

fn costs_with(classes: &Classes, row: u16, columns: &[u16], right: &[i128]) -> bool {
    for column in 0..columns.len() {
        if column < right.len()
            && right[column] > 0
            && price_of(classes, row, columns[column]) > 0
        {
            return true;
        }
    }
    false
}

/// The greatest price of two kinds that aren't forbidden together.
fn greatest_price(classes: &Classes, pairing: &Pairing, top: i64) -> i64 {
    let mut greatest = 0;
    for row in pairing.rows.classes.as_slice() {
        for column in pairing.columns.classes.as_slice() {
            let price = price_of(classes, *row, *column);
            if price < top {
                greatest = price.max(greatest);
            }
        }
    }
    greatest
}

/// The potentials of a coupling at the listed patterns, moved so that the least of the first train is 0. None where a number
/// is too great.
fn cut_of(
    alloc: Global,
    field: &Field,
    pair: usize,
    pairing: &Pairing,
    coupled: &Coupled,
) -> Result<Option<Cut>, AllocError> {
    let alpha = coupled.alpha.as_slice();
    let least = least_of(alpha);
    let first = numbers_at(
        alloc,
        &pairing.rows,
        alpha,
        least.saturating_neg(),
        field.scale,
    )?;
    let second = numbers_at(
        alloc,
        &pairing.columns,
        coupled.beta.as_slice(),
        least,
        field.scale,
    )?;
    match (first, second) {
        (Some(alpha), Some(beta)) => {
            let trains = (pairing.first, pairing.second);
            Ok(Some(Cut::new(alloc, field, pair, trains, alpha, beta)?))
        }
        (Some(_), None) | (None, _) => Ok(None),
    }
}

fn least_of(numbers: &[i128]) -> i128 {
    match numbers.iter().copied().min() {
        Some(least) => least,
        None => 0,
    }
}

/// The number of each pattern's kind, moved by so much and over the scale.
fn numbers_at(
    alloc: Global,
    kinds: &Kinds,
    potentials: &[i128],
    by: i128,
    scale: i64,
) -> Result<Option<Vec<i64>>, AllocError> {
    let mut numbers = Vec::with_capacity(alloc, kinds.of.len())?;
    for kind in kinds.of.as_slice() {
        let at = *kind as usize;
        if at >= potentials.len() {
            return Ok(None);
        }
        let Some(number) = scaled(potentials[at].saturating_add(by), scale) else {
            return Ok(None);
        };
        numbers.push(number)?;
    }
    Ok(Some(numbers))
}

/// Takes the cut under which the choices cost most.
fn take_dearest(found: &mut Vec<Found>) -> Option<Cut> {
    let place = dearest_place(found);
    if place < found.len() {
        let Found { cost: _, cut } = found.swap_remove(place);
        Some(cut)
    } else {
        None
    }
}

fn dearest_place(found: &[Found]) -> usize {
    let mut dearest = 0;
    let mut most = 0;
    for place in 0..found.len() {
        if most < found[place].cost {
            most = found[place].cost;
            dearest = place;
        }
    }
    dearest
}
