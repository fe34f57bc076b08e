use crate::board::Turn;
use crate::hashes::bit;
use crate::steps::Step;
use std::alloc::{AllocError, Global};

/// A beginning of a plan. What it will cost with further trains depends on the classes that it keeps and on the platforms that are
/// paid, so of two that are equal in these the cheaper is enough.
#[derive(Drop)]
pub(crate) struct Beginning {
    pub(crate) cost: i64,
    /// The platforms that are paid, one bit each.
    pub(crate) paid: u64,
    pub(crate) classes: Vec<u16>,
}

impl Beginning {
    pub(crate) fn class(&self, at: usize) -> u16 {
        self.classes.get(at).copied().unwrap_or(0)
    }

    /// The beginning that the step leads to from this one.
    pub(crate) fn next(
        &self,
        alloc: Global,
        turn: &Turn,
        step: &Step,
    ) -> Result<Beginning, AllocError> {
        let mut classes = Vec::new(alloc);
        for at in &turn.kept {
            classes.push(self.class(*at))?;
        }
        for link in &turn.later {
            classes.push(turn.class(step.candidate, *link))?;
        }
        let platform = match turn.candidates.get(step.candidate) {
            Some(candidate) => bit(candidate.platform as usize),
            None => 0,
        };
        Ok(Beginning {
            cost: step.cost,
            paid: self.paid | platform,
            classes,
        })
    }
}
