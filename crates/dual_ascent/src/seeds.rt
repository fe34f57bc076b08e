// What an ascent begins with: the numbers of a seed, or the least prices.
use crate::cut::Cut;
use crate::field::{Field, Listed};
use crate::headroom::{FACTOR, headroom};
use crate::numbers::narrowed;
use crate::pairing::Pairing;
use leaf_bounds::{Leaf, PairValue};
use pair_classes::{Meeting, Meetings};
use std::alloc::{AllocError, Global};

/// The trains' numbers.
pub(crate) fn start(
    alloc: Global,
    field: &Field,
    seed: Option<&Leaf>,
) -> Result<Vec<i64>, AllocError> {
    match seed {
        Some(leaf) => seeded(alloc, field, leaf),
        None => least_prices(alloc, field),
    }
}

fn seeded(alloc: Global, field: &Field, leaf: &Leaf) -> Result<Vec<i64>, AllocError> {
    let mut u = vec![in alloc; 0; field.trains]?;
    for entry in leaf.u.as_slice() {
        set_at(
            &mut u,
            entry.train as usize,
            rescaled(entry.value, leaf.q, field.scale),
        );
    }
    Ok(u)
}

/// A number of another scale, rounded down.
fn rescaled(value: i128, q: i128, scale: i64) -> i64 {
    let product = value.saturating_mul(scale as i128);
    let whole = product.checked_div(q).unwrap_or(0);
    if product < whole.saturating_mul(q) {
        narrowed(whole.saturating_sub(1))
    } else {
        narrowed(whole)
    }
}

fn set_at(u: &mut [i64], train: usize, value: i64) {
    if train < u.len() {
        u[train] = value;
    }
}

fn least_prices(alloc: Global, field: &Field) -> Result<Vec<i64>, AllocError> {
    let mut u = vec![in alloc; i64::MAX; field.trains]?;
    for entry in field.listed.as_slice() {
        lower_to(&mut u, entry.train, entry.price);
    }
    Ok(u)
}

fn lower_to(u: &mut [i64], train: usize, price: i64) {
    if train < u.len() {
        u[train] = price.min(u[train]);
    }
}

/// The potentials of the seed: a cut for each pair that has some, raised as far as it may be and charged in part.
pub(crate) fn seeded_cuts(
    alloc: Global,
    field: &Field,
    meetings: &Meetings,
    pairings: &[Pairing],
    seed: Option<&Leaf>,
) -> Result<Vec<Cut>, AllocError> {
    let mut cuts = Vec::new(alloc);
    if let Some(leaf) = seed {
        for pair in 0..pairings.len() {
            if let Some(meeting) = meetings.pairs().get(pair) {
                push_seeded(
                    alloc,
                    field,
                    leaf,
                    meeting,
                    pair,
                    &pairings[pair],
                    &mut cuts,
                )?;
            }
        }
    }
    Ok(cuts)
}

fn push_seeded(
    alloc: Global,
    field: &Field,
    leaf: &Leaf,
    meeting: &Meeting,
    pair: usize,
    pairing: &Pairing,
    cuts: &mut Vec<Cut>,
) -> Result<(), AllocError> {
    let alpha = entries_of(leaf.alpha.as_slice(), pairing.first, pairing.second);
    let beta = entries_of(leaf.beta.as_slice(), pairing.first, pairing.second);
    if alpha.is_empty() && beta.is_empty() {
        return Ok(());
    }
    let mut first = potentials_of(alloc, field, pairing.first, alpha, leaf.q)?;
    let mut second = potentials_of(alloc, field, pairing.second, beta, leaf.q)?;
    let factor = match &meeting.classes {
        Some(classes) => headroom(alloc, classes, pairing, field.scale, &first, &second)?,
        None => FACTOR,
    };
    multiply(&mut first, factor);
    multiply(&mut second, factor);
    let trains = (pairing.first, pairing.second);
    let mut cut = Cut::new(alloc, field, pair, trains, first, second)?;
    if !cut.is_empty() {
        cut.charge_part(factor);
        cuts.push(cut)?;
    }
    Ok(())
}

/// Multiplies the numbers by the factor, rounded down: over 2^8, which is `FACTOR`.
fn multiply(numbers: &mut [i64], factor: i64) {
    for number in numbers.iter_mut() {
        *number = narrowed((*number as i128).saturating_mul(factor as i128) >> 8);
    }
}

/// The entries of the pair.
fn entries_of(entries: &[PairValue], first: usize, second: usize) -> &[PairValue] {
    let from = entries.partition_point(|x| comes_before(x, first, second));
    let to = entries.partition_point(|x| comes_before(x, first, second.saturating_add(1)));
    if from <= to && to <= entries.len() {
        &entries[from..to]
    } else {
        &[]
    }
}

fn comes_before(x: &PairValue, first: usize, second: usize) -> bool {
    let own = x.first as usize;
    own < first || own == first && (x.second as usize) < second
}

/// The numbers of the train's listed patterns.
fn potentials_of(
    alloc: Global,
    field: &Field,
    train: usize,
    entries: &[PairValue],
    q: i128,
) -> Result<Vec<i64>, AllocError> {
    let listed = field.listed_of(train);
    let mut numbers = Vec::with_capacity(alloc, listed.len())?;
    for entry in listed {
        numbers.push(rescaled(value_of(entries, entry), q, field.scale))?;
    }
    Ok(numbers)
}

fn value_of(entries: &[PairValue], listed: &Listed) -> i128 {
    let place = entries.partition_point(|x| x.number < listed.number);
    match entries.get(place) {
        Some(x) => value_if(x, listed.number),
        None => 0,
    }
}

fn value_if(x: &PairValue, number: u16) -> i128 {
    if x.number == number { x.value } else { 0 }
}
