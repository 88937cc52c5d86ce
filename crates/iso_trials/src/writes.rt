//! The steps that change rows, tried.

use crate::guards::{fits, holds_table, may_change, runs};
use crate::trial::Trial;
use iso_types::{Conn, Rid, Row, StepFault, TableId, Value};
use iso_writes::{Written, delete, insert, refuse, update};
use std::alloc::Global;

impl Trial {
    /// Inserts the row of a number; None where the connection may not.
    pub fn insert(
        &mut self,
        alloc: Global,
        conn: Conn,
        number: i64,
    ) -> Result<Option<Written>, StepFault> {
        let table = TableId(0);
        let row = Row::of(alloc, &[Value::Int(number)])?;
        if runs(&self.parts, conn)
            && holds_table(&self.parts, conn, table)
            && fits(&self.parts, table, &row)
        {
            Ok(Some(insert(alloc, &mut self.parts, conn, table, &row)?))
        } else {
            Ok(None)
        }
    }

    /// Gives a slot the row of a number; None where the connection may not.
    pub fn update(
        &mut self,
        alloc: Global,
        conn: Conn,
        rid: Rid,
        number: i64,
    ) -> Result<Option<Written>, StepFault> {
        let table = TableId(0);
        let row = Row::of(alloc, &[Value::Int(number)])?;
        if runs(&self.parts, conn)
            && may_change(&self.parts, conn, table, rid)
            && fits(&self.parts, table, &row)
        {
            Ok(Some(update(alloc, &mut self.parts, conn, table, rid, &row)?))
        } else {
            Ok(None)
        }
    }

    /// Deletes the row of a slot; None where the connection may not.
    pub fn delete(&mut self, conn: Conn, rid: Rid) -> Result<Option<Written>, StepFault> {
        let table = TableId(0);
        if runs(&self.parts, conn) && may_change(&self.parts, conn, table, rid) {
            Ok(Some(delete(&mut self.parts, conn, table, rid)?))
        } else {
            Ok(None)
        }
    }

    /// Refuses the statement since a key is there twice; whether the connection runs.
    pub fn refuse(&mut self, conn: Conn) -> Result<bool, StepFault> {
        if runs(&self.parts, conn) {
            refuse(&mut self.parts, conn, -803)?;
            Ok(true)
        } else {
            Ok(false)
        }
    }
}
