ghost use Rattle.proof_check.specs.Reads.{AreInRange, Goes};
ghost use Rattle.proof_check.specs.Walk.{is_over, state_of, IsSound};
ghost use Rattle.proof_file.specs.Kind.{is_in_range};
ghost use Rattle.proof_rules.specs.Fault.{start};
ghost use Rattle.proof_rules.specs.Verdict.{one_on, refused, walked};
ghost use Rattle.std.specs.Prelude.{◌≡◌, ◌+◌, ◌<◌, ◌^◌, length, IfOk, IsTrue, OnOk};
ghost use Rattle.proof_check.specs.declared.refused.CheckFault.TheVariants.{Refused};

use crate::refused::CheckFault;
use crate::walk::Walk;
use leaf_bounds::Bound;
use pair_prices::Case;
use proof_file::ProofRecord;
use proof_rules::{ProofKind, ProofRefused};
use std::alloc::{AllocError, Global};

/// How far the records are read.
#[derive(Drop)]
pub(crate) struct Progress {
    /// The number of the next record, from 1.
    pub number: u64,
    pub walk: Walk,
}

impl Progress {
    pub(crate) fn new(alloc: Global, case: &Case) -> Result<Progress, AllocError>
        ensures number { IfOk result (λ p. p.number ≡ 1) }
        ensures state { IfOk result (λ p. state_of p.walk ≡ start) }
        ensures sound { IfOk result (λ p. IsSound case.now p.walk) }
    {
        Ok(Progress {
            number: 1,
            walk: Walk::new(alloc, case)?,
        })
    }

    /// Whether the last record was read.
    pub(crate) fn is_over(&self) -> bool
        ensures { result ≡ is_over self.now.walk.stage }
    {
        self.walk.is_over()
    }

    /// The least bound of the leaves so far.
    pub(crate) fn least(&self) -> Bound
        ensures { result ≡ self.now.walk.least }
    {
        self.walk.least()
    }

    /// The refusal of the next record.
    pub(crate) fn refused(&self, kind: ProofKind) -> CheckFault
        ensures { result ≡ Refused (refused kind self.now.number) }
    {
        CheckFault::Refused(ProofRefused {
            kind,
            at: self.number,
        })
    }

    /// Goes on by these records.
    pub(crate) fn go_on(
        &mut self,
        alloc: Global,
        case: &Case,
        records: &[ProofRecord],
    ) -> Result<(), CheckFault>
        requires range { AreInRange records.now }
        requires sound { IsSound case.now self.old.walk }
        requires few { self.old.number + length records.now < 2 ^ 64 }
        ensures walked { Goes (walked case.now (state_of self.old.walk) self.old.number records.now) (λ s. state_of self.new.walk ≡ s) result }
        ensures number { OnOk result (self.new.number ≡ self.old.number + length records.now) }
        ensures sound { OnOk result (IsSound case.now self.new.walk) }
    {
        for read in records {
            self.go(alloc, case, read)?;
        }
        Ok(())
    }

    /// Goes on by one record.
    fn go(&mut self, alloc: Global, case: &Case, read: &ProofRecord) -> Result<(), CheckFault>
        requires range { IsTrue (is_in_range read.now) }
        requires sound { IsSound case.now self.old.walk }
        requires few { self.old.number + 1 < 2 ^ 64 }
        ensures walked { Goes (one_on case.now (state_of self.old.walk) self.old.number read.now) (λ s. state_of self.new.walk ≡ s) result }
        ensures number { OnOk result (self.new.number ≡ self.old.number + 1) }
        ensures sound { OnOk result (IsSound case.now self.new.walk) }
    {
        if self.walk.is_over() {
            return Err(self.refused(ProofKind::Trail));
        }
        if let Err(stop) = self.walk.step(alloc, case, read) {
            return Err(stop.at(self.number));
        }
        self.number += 1;
        Ok(())
    }
}
