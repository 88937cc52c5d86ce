//! The steps of undos, savepoints, settings, and the ends of statements and units, tried.

use crate::guards::{is_in, is_open, runs};
use crate::lines::{may_halt, may_purge, may_roll_back, may_stop, may_undo, none_left};
use crate::trial::Trial;
use iso_ends::{
    back, commit, ended, mark, purge, purgeable, reply, rollback_end, set, stopped, undo_one,
};
use iso_history::{Cause, Who};
use iso_types::{Conn, Isolation, Items, Phase, StepFault, Text};
use std::alloc::Global;

impl Trial {
    /// Undoes the last record that the unit has left; None where the connection neither runs nor closes.
    pub fn undo_one(&mut self, conn: Conn, floor: u32) -> Option<bool> {
        if may_undo(&self.parts, conn) {
            Some(undo_one(&mut self.parts, conn, floor))
        } else {
            None
        }
    }

    /// Commits the unit; whether the connection runs.
    pub fn commit(&mut self, conn: Conn) -> bool {
        if runs(&self.parts, conn) {
            commit(&mut self.parts, conn);
            true
        } else {
            false
        }
    }

    /// Ends the unit by the statement ROLLBACK; whether that may be.
    pub fn rollback_end(&mut self, conn: Conn) -> bool {
        if may_roll_back(&self.parts, conn) {
            rollback_end(&mut self.parts, conn, 0, 0);
            true
        } else {
            false
        }
    }

    /// Ends the connection; whether it closes and has nothing left to undo.
    pub fn ended(&mut self, conn: Conn) -> bool {
        if is_open(&self.parts)
            && is_in(&self.parts, conn, Phase::Closing)
            && none_left(&self.parts, conn)
        {
            ended(&mut self.parts, conn);
            true
        } else {
            false
        }
    }

    /// Stops the dispatcher for want of memory; whether that may be.
    pub fn stopped(&mut self) -> bool {
        if may_halt(&self.parts) {
            stopped(&mut self.parts, Who::Dispatcher, Cause::Memory);
            true
        } else {
            false
        }
    }

    /// Stops a connection for want of memory; whether it runs, or may have the lock that it awaits.
    pub fn stopped_by(&mut self, conn: Conn) -> bool {
        if may_stop(&self.parts, conn) {
            stopped(&mut self.parts, Who::Agent(conn), Cause::Memory);
            true
        } else {
            false
        }
    }

    /// Answers the statement without rows; whether the connection runs.
    pub fn reply(&mut self, alloc: Global, conn: Conn, changed: u32) -> Result<bool, StepFault> {
        if runs(&self.parts, conn) {
            reply(&mut self.parts, conn, 0, changed, Items::new(alloc))?;
            Ok(true)
        } else {
            Ok(false)
        }
    }

    /// Sets a savepoint; whether the connection runs.
    pub fn mark(&mut self, conn: Conn, name: Text) -> Result<bool, StepFault> {
        if runs(&self.parts, conn) {
            mark(&mut self.parts, conn, name)?;
            Ok(true)
        } else {
            Ok(false)
        }
    }

    /// Goes back to a savepoint; None where there is none, or the connection does not run.
    pub fn back(&mut self, conn: Conn, name: Text) -> Result<Option<u32>, StepFault> {
        if runs(&self.parts, conn) {
            back(&mut self.parts, conn, name)
        } else {
            Ok(None)
        }
    }

    /// Gives the connection another level; whether it runs.
    pub fn set(&mut self, conn: Conn, level: Isolation) -> Result<bool, StepFault> {
        if runs(&self.parts, conn) {
            set(&mut self.parts, conn, level, true)?;
            Ok(true)
        } else {
            Ok(false)
        }
    }

    /// Whether a pair is purgeable.
    pub fn purgeable(&self) -> bool {
        purgeable(&self.parts)
    }

    /// Purges the least pair that is purgeable; false where there is none, or none may go now.
    pub fn purge(&mut self) -> Result<bool, StepFault> {
        if may_purge(&self.parts) {
            purge(&mut self.parts)
        } else {
            Ok(false)
        }
    }
}
