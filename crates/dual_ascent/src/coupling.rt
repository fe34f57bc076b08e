// Couplings of the weights that a pair's kinds have in the choices of late.
ghost use Rattle.std.specs.Prelude.{◌≡◌, ◌≤ℤ◌, pos, All, IfSome, IsTrue};
ghost use Rattle.transport.specs.Coupling.{total};

use crate::pairing::Kinds;
use crate::price_table::PriceTable;
use std::alloc::{AllocError, Global};
use transport::{Cost, Coupled, NoCouple, couple};

/// The total that a train's weights are brought to, and the least weight that counts.
pub(crate) const TOTAL: u64 = 4096;

const LEAST_WEIGHT: u64 = 64;

/// How often each kind was chosen of late, brought to the total. No numbers where none was.
pub(crate) fn weights_of(
    alloc: Global,
    kinds: &Kinds,
    average: &[u32],
) -> Result<Vec<i128>, AllocError> {
    let mut counts: Vec<u64> = vec![in alloc; 0; kinds.classes.len()]?;
    for place in 0..average.len() {
        if place < kinds.of.len() {
            count_at(&mut counts, kinds.of[place] as usize, average[place] as u64);
        }
    }
    even_out(&mut counts);
    let mut weights = Vec::with_capacity(alloc, counts.len())?;
    for count in counts.as_slice() {
        weights.push(*count as i128)?;
    }
    Ok(weights)
}

fn count_at(counts: &mut [u64], place: usize, count: u64) {
    if place < counts.len() {
        counts[place] = counts[place].saturating_add(count);
    }
}

/// Brings the counts to the total. What is lost on small ones and by rounding goes to the greatest.
fn even_out(counts: &mut [u64]) {
    let all = sum_of(counts);
    if all == 0 {
        return;
    }
    for count in counts.iter_mut() {
        *count = part_of(*count, all);
    }
    let lost = TOTAL.saturating_sub(sum_of(counts));
    let greatest = greatest_place(counts);
    count_at(counts, greatest, lost);
}

fn part_of(count: u64, all: u64) -> u64 {
    let part = count.saturating_mul(TOTAL).checked_div(all).unwrap_or(0);
    if part < LEAST_WEIGHT { 0 } else { part }
}

fn sum_of(counts: &[u64]) -> u64 {
    let mut sum: u64 = 0;
    for count in counts {
        sum = sum.saturating_add(*count);
    }
    sum
}

fn greatest_place(counts: &[u64]) -> usize {
    let mut greatest = 0;
    let mut most = 0;
    for place in 0..counts.len() {
        if most < counts[place] {
            most = counts[place];
            greatest = place;
        }
    }
    greatest
}

/// A least coupling of the weights, where they are weights of one total for the rows and columns of the table.
pub(crate) fn coupled(
    alloc: Global,
    table: &PriceTable,
    left: &[i128],
    right: &[i128],
) -> Result<Option<Coupled>, AllocError> {
    if left.len() != table.lines.len() || right.len() != table.columns {
        return Ok(None);
    }
    if left.is_empty() || right.is_empty() {
        return Ok(None);
    }
    if !are_weights(left) || !are_weights(right) {
        return Ok(None);
    }
    let (Some(first), Some(second)) = (total_of(left), total_of(right)) else {
        return Ok(None);
    };
    if first != second {
        return Ok(None);
    }
    match couple(alloc, left, right, table) {
        Ok(coupled) => Ok(Some(coupled)),
        Err(NoCouple::Memory) => Err(AllocError),
        Err(NoCouple::Scale(_)) => Ok(None),
    }
}

fn are_weights(weights: &[i128]) -> bool
    ensures { IsTrue result → All (λ w. pos 0 ≤ℤ w) weights.now }
{
    weights.iter().all(|weight| *weight >= 0)
}

/// The sum of weights.
fn total_of(weights: &[i128]) -> Option<i128>
    ensures { IfSome result (λ n. n ≡ total weights.now) }
{
    let mut sum: i128 = 0;
    for weight in weights {
        sum = sum.checked_add(*weight)?;
    }
    Some(sum)
}

/// What the cells of the coupling cost.
pub(crate) fn cost_of(table: &PriceTable, coupled: &Coupled) -> i128 {
    let mut cost: i128 = 0;
    for cell in coupled.cells.as_slice() {
        let price = price_at(table, cell.row, cell.column);
        cost = cost.saturating_add(cell.weight.saturating_mul(price as i128));
    }
    cost
}

fn price_at(table: &PriceTable, row: usize, column: usize) -> i64 {
    if row < table.lines.len() && column < table.columns {
        table.cost(row, column)
    } else {
        0
    }
}
