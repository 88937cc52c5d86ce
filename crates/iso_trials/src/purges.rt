//! The purges that look at the doubtful pairs alone, tried.
ghost use Rattle.std.specs.Prelude.{◌≡◌, false};
ghost use Rattle.iso_ends.specs.Doubts.{AreKept};
ghost use Rattle.iso_state.specs.Stands.{StandsFor, world_of};

use crate::lines::may_purge;
use crate::trial::Trial;
use iso_ends::{Doubts, purge_among, purgeable_among};
use iso_state::Parts;
use iso_types::StepFault;
use std::alloc::Global;

/// Purges the least pair that is purgeable, and asks the same doubts whether one is left that is; None where there was none.
fn purge_and_ask(parts: &mut Parts, doubts: &mut Doubts) -> Result<Option<bool>, StepFault>
    requires stands { StandsFor parts.old }
    requires open { (world_of parts.old).pace.finished ≡ false }
    requires going { (world_of parts.old).pace.stopped ≡ false }
    requires calm { (world_of parts.old).pace.purged ≡ false }
    requires kept { AreKept parts.old.head parts.old.history.items doubts.old }
    ensures { StandsFor parts.new }
{
    if purge_among(parts, doubts)? {
        Ok(Some(purgeable_among(parts, doubts)))
    } else {
        Ok(None)
    }
}

impl Trial {
    /// Whether a pair is purgeable, by doubts that know nothing yet.
    pub fn purgeable_among(&self, alloc: Global) -> bool {
        let mut doubts = Doubts::new(alloc);
        purgeable_among(&self.parts, &mut doubts)
    }

    /// Purges the least pair that is purgeable, by doubts; whether one is left then that is. None where there is none, or none may
    /// go now.
    pub fn purge_among(&mut self, alloc: Global) -> Result<Option<bool>, StepFault> {
        if may_purge(&self.parts) {
            let mut doubts = Doubts::new(alloc);
            purge_and_ask(&mut self.parts, &mut doubts)
        } else {
            Ok(None)
        }
    }
}
