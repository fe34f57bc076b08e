// How far the numbers of a cut may be raised together before two pass the price of their kinds.
use crate::numbers::{narrowed, value_at};
use crate::pairing::{Kinds, Pairing, price_of};
use pair_classes::Classes;
use std::alloc::{AllocError, Global};

/// Factors are counted in parts of so many.
pub(crate) const FACTOR: i64 = 256;

/// The greatest factor.
const MOST: i64 = 4096;

/// The factor that the numbers of the two trains' listed patterns may have, at least 1 and at most 16.
pub(crate) fn headroom(
    alloc: Global,
    classes: &Classes,
    pairing: &Pairing,
    scale: i64,
    first: &[i64],
    second: &[i64],
) -> Result<i64, AllocError> {
    let rows = greatest_of(alloc, &pairing.rows, first)?;
    let columns = greatest_of(alloc, &pairing.columns, second)?;
    let mut factor = MOST;
    for row in 0..pairing.rows.classes.len() {
        for column in 0..pairing.columns.classes.len() {
            let price = price_of(
                classes,
                pairing.rows.classes[row],
                pairing.columns.classes[column],
            );
            let worth = value_at(&rows, row).saturating_add(value_at(&columns, column));
            factor = factor_at(price, scale, worth).min(factor);
        }
    }
    Ok(factor.max(FACTOR))
}

/// The factor at which the worth is the price.
fn factor_at(price: i64, scale: i64, worth: i64) -> i64 {
    if worth <= 0 {
        return MOST;
    }
    let most = (price as i128)
        .saturating_mul(scale as i128)
        .saturating_mul(FACTOR as i128);
    narrowed(most.checked_div(worth as i128).unwrap_or(0))
}

/// The greatest number of a pattern of each kind.
fn greatest_of(alloc: Global, kinds: &Kinds, numbers: &[i64]) -> Result<Vec<i64>, AllocError> {
    let mut greatest = vec![in alloc; i64::MIN; kinds.classes.len()]?;
    for place in 0..kinds.of.len() {
        raise_to(
            &mut greatest,
            kinds.of[place] as usize,
            value_at(numbers, place),
        );
    }
    Ok(greatest)
}

fn raise_to(greatest: &mut [i64], place: usize, number: i64) {
    if place < greatest.len() {
        greatest[place] = number.max(greatest[place]);
    }
}
