//! The steps of the dispatcher, tried.

use crate::guards::{has_conn, is_open};
use crate::lines::takes_line;
use crate::trial::Trial;
use iso_pace::{
    Closing, Paced, able, close_next, cyclic, detect, dispatch, expire, quiet, snapshot,
};
use iso_types::{Conn, StepFault};

impl Trial {
    /// Takes a line of a statement; None where none may be taken.
    pub fn dispatch(
        &mut self,
        line: u32,
        conn: Conn,
        free: bool,
    ) -> Result<Option<Paced>, StepFault> {
        if takes_line(&self.parts) && has_conn(&self.parts, conn) {
            Ok(Some(dispatch(&mut self.parts, line, conn, free)?))
        } else {
            Ok(None)
        }
    }

    /// Takes a line EXPIRE; None where none may be taken.
    pub fn expire(&mut self, line: u32, conn: Conn) -> Result<Option<Paced>, StepFault> {
        if takes_line(&self.parts) && has_conn(&self.parts, conn) {
            Ok(Some(expire(&mut self.parts, line, conn)?))
        } else {
            Ok(None)
        }
    }

    /// Takes a line SNAPSHOT; None where none may be taken.
    pub fn snapshot(&mut self, line: u32) -> Result<Option<Paced>, StepFault> {
        if takes_line(&self.parts) {
            Ok(Some(snapshot(&mut self.parts, line)?))
        } else {
            Ok(None)
        }
    }

    /// Ends a deadlock, and tells the victim.
    pub fn detect(&mut self) -> Option<Conn> {
        if is_open(&self.parts) {
            detect(&mut self.parts)
        } else {
            None
        }
    }

    /// Whether some wait for each other in a circle.
    pub fn cyclic(&self) -> bool {
        cyclic(&self.parts)
    }

    /// Whether the connection is there, and can go on.
    pub fn able(&self, conn: Conn) -> bool {
        has_conn(&self.parts, conn) && able(&self.parts, conn)
    }

    /// Whether all is quiet.
    pub fn quiet(&self) -> bool {
        quiet(&self.parts)
    }

    /// Closes the next connection; None where the history is over.
    pub fn close_next(&mut self) -> Option<Closing> {
        if is_open(&self.parts) {
            Some(close_next(&mut self.parts))
        } else {
            None
        }
    }
}
