//! A pass for each voice, and back.
ghost use Rattle.std.specs.Prelude.{◌≡◌, ℕ, ◌≤◌, true, length, IfOk};
ghost use Rattle.iso_latch.specs.Dealt.{Dealt, Fresh, AllContinue, OwnStay};
ghost use Rattle.iso_latch.specs.Seen.{has, Continues};
ghost use Rattle.iso_latch.specs.Told.{seen_of, voices_of, head_of};

use crate::pass::{Latch, Pass};
use iso_history::Chronicle;
use iso_types::Memory;
use std::alloc::Global;

impl<S: Chronicle> Latch<S> {
    /// Splits one pass off for each voice from 1 to `count`: the one at k has the voice k + 1.
    /// The first keeps the other voices, 0 among them. `Memory`: the passes are let go, and the latch cannot be closed.
    pub fn deal(
        &self,
        alloc: Global,
        pass: Pass<S>,
        count: u32,
    ) -> Result<(Pass<S>, Vec<Pass<S>>), Memory>
    where
        S: Drop,
        requires of { pass.seat.table_id ≡ self.now.table.shared.table_id }
        requires voices { (x : ℕ) → x ≤ count → has x (voices_of pass.seat) ≡ true }
        ensures of { IfOk result (λ r. r.0.seat.table_id ≡ pass.seat.table_id) }
        ensures first { IfOk result (λ r. (has 0 (voices_of r.0.seat) ≡ true) × (head_of r.0.seat ≡ head_of pass.seat) × (seen_of r.0.seat ≡ seen_of pass.seat)) }
        ensures many { IfOk result (λ r. length r.1.items ≡ count) }
        ensures dealt { IfOk result (λ r. Dealt pass.seat.table_id r.1.items) }
        ensures fresh { IfOk result (λ r. Fresh pass.seat r.1.items) }
    {
        let mut pass = pass;
        let mut passes = Vec::with_capacity(alloc, count as usize)?;
        for i in 0..count {
            let (rest, one) = self.split(pass, i + 1);
            pass = rest;
            passes.push(one)?;
        }
        Ok((pass, passes))
    }

    /// Meets all these passes, of which the one at k has the voice k + 1. No memory is taken.
    pub fn gather(&self, pass: Pass<S>, mut passes: Vec<Pass<S>>) -> Pass<S>
        requires of { pass.seat.table_id ≡ self.now.table.shared.table_id }
        requires first { has 0 (voices_of pass.seat) ≡ true }
        requires dealt { Dealt pass.seat.table_id passes.items }
        ensures of { (result.seat.table_id ≡ pass.seat.table_id) × (head_of result.seat ≡ head_of pass.seat) }
        ensures all { (x : ℕ) → x ≤ length passes.items → has x (voices_of result.seat) ≡ true }
        ensures first { Continues (voices_of pass.seat) (seen_of pass.seat) (seen_of result.seat) }
        ensures others { AllContinue passes.items (seen_of result.seat) }
        ensures own { OwnStay passes.items (seen_of result.seat) }
    {
        let mut pass = pass;
        while let Some(one) = passes.pop() {
            pass = self.meet(pass, one);
        }
        pass
    }
}
