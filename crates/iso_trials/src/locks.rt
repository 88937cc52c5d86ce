//! The steps of locks, tried.

use crate::guards::{due_table, is_in, is_open, looked_at, may_block, may_lock, runs};
use crate::trial::Trial;
use iso_locks::{Answer, StepClaim, block, claim, collapse, free, lock};
use iso_modes::Mode;
use iso_state::is_fresh_on;
use iso_types::{Conn, IndexId, Name, Phase, Rid, StepFault, TableId};

impl Trial {
    /// Asks for a lock; None where it may not be asked for.
    pub fn lock(
        &mut self,
        conn: Conn,
        name: Name,
        mode: Mode,
    ) -> Result<Option<Answer>, StepFault> {
        if runs(&self.parts, conn) && may_lock(&self.parts, conn, &name, mode) {
            Ok(Some(lock(&mut self.parts, conn, name, mode)?))
        } else {
            Ok(None)
        }
    }

    /// Asks for the lock of a write that waits at the end of the index; None where it may not be asked for.
    pub fn block(&mut self, conn: Conn) -> Result<Option<Answer>, StepFault> {
        let index = IndexId(0);
        if runs(&self.parts, conn) && may_block(&self.parts, conn, index) {
            Ok(Some(block(&mut self.parts, conn, &Name::End(index), Mode::Nw)?))
        } else {
            Ok(None)
        }
    }

    /// Claims the lock that the connection awaits; None where it neither waits nor rolls back.
    pub fn claim(&mut self, conn: Conn) -> Result<Option<StepClaim>, StepFault> {
        if !is_open(&self.parts) {
            return Ok(None);
        }
        if is_in(&self.parts, conn, Phase::Waiting) || is_in(&self.parts, conn, Phase::Rolling) {
            Ok(Some(claim(&mut self.parts, conn)?))
        } else {
            Ok(None)
        }
    }

    /// Gives back the lock on the row of the last look; None where there is none that is not kept.
    pub fn free(&mut self, conn: Conn) -> Result<Option<Rid>, StepFault> {
        if !runs(&self.parts, conn) {
            return Ok(None);
        }
        match looked_at(&self.parts, conn) {
            Some((table, rid)) => {
                if is_fresh_on(&self.parts, conn, &Name::Row(table, rid)) {
                    free(&mut self.parts, conn, table, rid)?;
                    Ok(Some(rid))
                } else {
                    Ok(None)
                }
            }
            None => Ok(None),
        }
    }

    /// Gives back the locks on rows of the table that was escalated; None where no Collapse is due.
    pub fn collapse(&mut self, conn: Conn) -> Result<Option<TableId>, StepFault> {
        if !is_open(&self.parts) {
            return Ok(None);
        }
        if !is_in(&self.parts, conn, Phase::Running) {
            return Ok(None);
        }
        match due_table(&self.parts, conn) {
            Some(table) => {
                collapse(&mut self.parts, conn, table)?;
                Ok(Some(table))
            }
            None => Ok(None),
        }
    }
}
