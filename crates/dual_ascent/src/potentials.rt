// What the cuts charge, as numbers of a leaf.
use crate::cut::{Cut, part};
use crate::cuts::Cuts;
use crate::field::{Field, Listed};
use crate::numbers::value_at;
use crate::pairing::Pairing;
use leaf_bounds::PairValue;
use std::alloc::{AllocError, Global};

/// Adds for each pair what its cuts charge the patterns of the first train, and of the second.
pub(crate) fn push_potentials(
    alloc: Global,
    field: &Field,
    cuts: &Cuts,
    alpha: &mut Vec<PairValue>,
    beta: &mut Vec<PairValue>,
) -> Result<(), AllocError> {
    for pair in 0..cuts.pairings.len() {
        let pairing = &cuts.pairings[pair];
        let first = charged(alloc, field, &cuts.cuts, pair, pairing.first)?;
        push_entries(pairing, field.listed_of(pairing.first), &first, alpha)?;
        let second = charged(alloc, field, &cuts.cuts, pair, pairing.second)?;
        push_entries(pairing, field.listed_of(pairing.second), &second, beta)?;
    }
    Ok(())
}

/// What the pair's cuts charge the listed patterns of one of its trains. No numbers where there are no cuts.
fn charged(
    alloc: Global,
    field: &Field,
    cuts: &[Cut],
    pair: usize,
    train: usize,
) -> Result<Vec<i64>, AllocError> {
    let mut sums = Vec::new(alloc);
    for cut in cuts {
        if cut.pair == pair {
            make_room(field, train, &mut sums)?;
            add_parts(&mut sums, numbers_of(cut, train), cut.share());
        }
    }
    Ok(sums)
}

/// A 0 for each listed pattern of the train.
fn make_room(field: &Field, train: usize, sums: &mut Vec<i64>) -> Result<(), AllocError> {
    for _ in sums.len()..field.listed_of(train).len() {
        sums.push(0)?;
    }
    Ok(())
}

fn numbers_of(cut: &Cut, train: usize) -> &[i64] {
    if cut.first == train {
        &cut.alpha
    } else {
        &cut.beta
    }
}

fn add_parts(sums: &mut [i64], numbers: &[i64], share: i64) {
    for place in 0..sums.len() {
        sums[place] = sums[place].saturating_add(part(value_at(numbers, place), share));
    }
}

fn push_entries(
    pairing: &Pairing,
    listed: &[Listed],
    sums: &[i64],
    entries: &mut Vec<PairValue>,
) -> Result<(), AllocError> {
    for place in 0..listed.len() {
        let value = value_at(sums, place);
        if value != 0 {
            entries.push(PairValue {
                first: u16::try_from(pairing.first).unwrap_or(0),
                second: u16::try_from(pairing.second).unwrap_or(0),
                number: listed[place].number,
                value: value as i128,
            })?;
        }
    }
    Ok(())
}
