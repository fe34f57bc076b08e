// Numbers of an ascent.

/// The numbers of trains and cuts stay within this in size.
const MOST: i128 = 0x400_0000_0000_0000;

/// A direction is counted in parts of so many.
pub(crate) const UNIT: i64 = 256;

/// The length of a step, for each part of its direction, is counted in parts of so many.
pub(crate) const LENGTH: i128 = 16_384;

/// The number, or the greatest or least that there may be.
pub(crate) fn narrowed(number: i128) -> i64 {
    if number > MOST {
        MOST as i64
    } else if number < -MOST {
        -(MOST as i64)
    } else {
        number as i64
    }
}

/// The number at that place, or 0.
pub(crate) fn value_at(numbers: &[i64], place: usize) -> i64 {
    if place < numbers.len() {
        numbers[place]
    } else {
        0
    }
}

pub(crate) fn sum(numbers: &[i64]) -> i128 {
    let mut sum: i128 = 0;
    for number in numbers {
        sum = sum.saturating_add(*number as i128);
    }
    sum
}

/// Overwrites the first list by the second, as far as both go.
pub(crate) fn copy_over(numbers: &mut [i64], others: &[i64]) {
    for place in 0..others.len() {
        if place < numbers.len() {
            numbers[place] = others[place];
        }
    }
}

pub(crate) fn clear(numbers: &mut [i64]) {
    for number in numbers.iter_mut() {
        *number = 0;
    }
}

/// A price over the scale, where it isn't too great.
pub(crate) fn scaled(price: i128, scale: i64) -> Option<i64> {
    let number = price.checked_mul(scale as i128)?;
    if number.saturating_abs() <= MOST {
        i64::try_from(number).ok()
    } else {
        None
    }
}
