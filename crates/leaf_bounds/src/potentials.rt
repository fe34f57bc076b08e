ghost use Rattle.leaf_bounds.specs.Listed.{IsSmall};
ghost use Rattle.leaf_bounds.specs.Places.{ArePairValues};
ghost use Rattle.leaf_bounds.specs.Sides.{train_on, value_on, AreWithin, IsRowOf};
ghost use Rattle.leaf_bounds.specs.Total.{only_if, total};
ghost use Rattle.std.specs.Prelude.{◌≡◌, ℕ, ◌*◌, ◌<◌, ◌^◌, ◌==◌, ◌&&◌, pos, ◌+ℤ◌, length, slice_index_or};

use crate::leaf::Leaf;
use crate::number::PairValue;

/// One of the two trains of a pair.
#[derive(Clone, Copy, Drop)]
pub(crate) enum Side {
    First,
    Second,
}

pub(crate) fn train_at(side: Side, x: &PairValue) -> u16
    ensures { result ≡ train_on side x.now }
{
    match side {
        Side::First => x.first,
        Side::Second => x.second,
    }
}

/// Writes into the row all that pairs give the train, by pattern number.
pub(crate) fn potentials_of(leaf: &Leaf, train: u16, row: &mut [i128])
    ensures row { IsRowOf leaf.now train row.new }
    ensures count { length row.new ≡ length row.old }
    ensures within { AreWithin (400 * 10 ^ 30) row.new }
{
    clear(row);
    add_entries(row, leaf.alpha.as_slice(), Side::First, train);
    add_entries(row, leaf.beta.as_slice(), Side::Second, train);
}

fn clear(row: &mut [i128])
    ensures { (i : ℕ) → i < length row.new → slice_index_or row.new i (pos 0) ≡ pos 0 }
{
    for sum in row.iter_mut() {
        *sum = 0;
    }
}

/// Adds the entries of the train to their patterns' sums.
fn add_entries(row: &mut [i128], entries: &[PairValue], side: Side, train: u16)
    requires entries { ArePairValues entries.now }
    requires within { AreWithin (200 * 10 ^ 30) row.old }
    ensures { (i : ℕ) → i < length row.new → slice_index_or row.new i (pos 0)
        ≡ slice_index_or row.old i (pos 0) +ℤ total (value_on side train i) entries.now }
{
    for x in entries {
        let here = train_at(side, x) == train;
        add_entry(row, x, here);
    }
}

/// Adds the entry to its pattern's sum, where it is the train's. Patterns outside the row have none.
fn add_entry(row: &mut [i128], x: &PairValue, here: bool)
    requires small { IsSmall x.now.value }
    requires within { AreWithin (600 * 10 ^ 30) row.old }
    ensures { (i : ℕ) → i < length row.new → slice_index_or row.new i (pos 0)
        ≡ slice_index_or row.old i (pos 0) +ℤ only_if (here && x.now.number == i) x.now.value }
{
    let place = x.number as usize;
    if here && place < row.len() {
        row[place] += x.value;
    }
}
