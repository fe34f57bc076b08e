ghost use Rattle.std.proofs.Common.{arith};
ghost use Rattle.std.specs.Prelude.{◌≡◌, length, slice_index};

use crate::pairing::{Pairing, price_of};
use pair_classes::Classes;
use sequence::Sequence;
use std::alloc::{AllocError, Global};
use transport::Cost;

/// No price is greater.
const MOST_PRICE: u64 = 10_000_000_000_000;

/// What the kinds of two trains cost together, up to a cap: a line for each kind of the first.
#[derive(Drop)]
pub(crate) struct PriceTable {
    pub lines: Vec<Sequence<u64>>,
    pub columns: usize,
}

impl Cost for PriceTable {
    ghost use Rattle.dual_ascent.specs.Table.{capped_price};

    ghost row_count = { λ t. length t.lines.items };

    ghost column_count = { λ t. t.columns };

    ghost table = { λ t i j. capped_price t.lines.items i j };

    fn rows(&self) -> usize {
        self.lines.len()
    }

    fn columns(&self) -> usize {
        self.columns
    }

    fn cost(&self, i: usize, j: usize) -> i64 {
        price_in(&self.lines[i], j).min(MOST_PRICE) as i64
    }

    ghost bounded = { λ costs i j row column. Prim.omega arith };
}

/// The price at that place of a line, and 0 where there is none.
fn price_in(line: &Sequence<u64>, place: usize) -> u64
    ensures { result ≡ slice_index line.now place }
{
    if place < line.len() {
        line.as_slice()[place]
    } else {
        0
    }
}

/// The prices of the pair's kinds, those above its cap lowered to it.
pub(crate) fn price_table(
    alloc: Global,
    classes: &Classes,
    pairing: &Pairing,
) -> Result<PriceTable, AllocError> {
    let mut lines = Vec::with_capacity(alloc, pairing.rows.classes.len())?;
    for row in pairing.rows.classes.as_slice() {
        let line = price_line(alloc, classes, *row, &pairing.columns.classes, pairing.cap)?;
        lines.push(line)?;
    }
    Ok(PriceTable {
        lines,
        columns: pairing.columns.classes.len(),
    })
}

fn price_line(
    alloc: Global,
    classes: &Classes,
    row: u16,
    columns: &[u16],
    cap: i64,
) -> Result<Sequence<u64>, AllocError> {
    let mut line = Vec::with_capacity(alloc, columns.len())?;
    for column in columns {
        let price = price_of(classes, row, *column).min(cap);
        line.push(u64::try_from(price).unwrap_or(0))?;
    }
    Ok(Sequence::from_vec(line))
}
