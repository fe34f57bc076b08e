use crate::cut::Cut;
use crate::field::Field;
use crate::numbers::{clear, value_at};
use crate::pairing::Pairing;
use std::alloc::{AllocError, Global};

/// The pairs that can meet, and the cuts on them that the ascent knows.
#[derive(Drop)]
pub(crate) struct Cuts {
    pub pairings: Vec<Pairing>,
    pub cuts: Vec<Cut>,
    /// For each pairing the shares of its cuts.
    shares: Vec<i64>,
}

impl Cuts {
    pub(crate) fn new(
        alloc: Global,
        pairings: Vec<Pairing>,
        cuts: Vec<Cut>,
    ) -> Result<Cuts, AllocError> {
        let count = pairings.len();
        Ok(Cuts {
            pairings,
            cuts,
            shares: vec![in alloc; 0; count]?,
        })
    }

    /// Turns each cut's direction, and gives the sum of their squares.
    pub(crate) fn turn(&mut self, field: &Field, chosen: &[usize]) -> i128 {
        let mut square: i128 = 0;
        for cut in self.cuts.iter_mut() {
            cut.turn(field, chosen);
            square = square.saturating_add(cut.square());
        }
        square
    }

    /// Moves the weights, keeps the cuts of each pair within the whole, and charges them.
    pub(crate) fn move_on(&mut self, field: &mut Field, length: i128) {
        clear(&mut self.shares);
        for cut in self.cuts.iter_mut() {
            cut.move_on(length);
            add_share(&mut self.shares, cut);
        }
        for cut in self.cuts.iter_mut() {
            cut.limit(value_at(&self.shares, cut.pair));
            cut.charge(field);
        }
    }

    /// Keeps the weights as the best.
    pub(crate) fn keep(&mut self) {
        for cut in self.cuts.iter_mut() {
            cut.keep();
        }
    }

    /// Back to the best weights.
    pub(crate) fn go_back(&mut self, field: &mut Field) {
        for cut in self.cuts.iter_mut() {
            cut.go_back();
            cut.charge(field);
        }
    }

    /// Adds the cut, unless it is there.
    pub(crate) fn add(&mut self, cut: Cut) -> Result<bool, AllocError> {
        if cut.is_empty() || is_known(&self.cuts, &cut) {
            return Ok(false);
        }
        self.cuts.push(cut)?;
        Ok(true)
    }
}

fn is_known(cuts: &[Cut], cut: &Cut) -> bool {
    for other in cuts {
        if other.is_same(cut) {
            return true;
        }
    }
    false
}

fn add_share(shares: &mut [i64], cut: &Cut) {
    if cut.pair < shares.len() {
        // One more for what the share was rounded down by.
        shares[cut.pair] = shares[cut.pair]
            .saturating_add(cut.share())
            .saturating_add(1);
    }
}
