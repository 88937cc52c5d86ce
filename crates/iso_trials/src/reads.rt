//! The steps of reads, tried.

use crate::guards::{may_look, may_scan, runs};
use crate::trial::Trial;
use iso_history::Want;
use iso_reads::{Looked, Stepped, look, next_entry};
use iso_types::{Conn, IndexId, Range, Rid, StepFault, TableId, Value};
use std::alloc::Global;

impl Trial {
    /// Looks at a slot, or behind the last one; None where the connection may not.
    pub fn look(
        &mut self,
        alloc: Global,
        conn: Conn,
        rid: Rid,
        want: Want,
    ) -> Result<Option<Looked>, StepFault> {
        let table = TableId(0);
        if runs(&self.parts, conn) && may_look(&self.parts, conn, table, rid) {
            Ok(Some(look(alloc, &mut self.parts, conn, table, rid, want)?))
        } else {
            Ok(None)
        }
    }

    /// Goes to the next entry of an index; None where the connection may not.
    pub fn next_entry(
        &mut self,
        alloc: Global,
        conn: Conn,
        range: &Range,
        after: Option<(Value, Rid)>,
        guarded: bool,
    ) -> Result<Option<Stepped>, StepFault> {
        let index = IndexId(0);
        if runs(&self.parts, conn) && may_scan(&self.parts, conn, index) {
            Ok(Some(next_entry(alloc, &mut self.parts, conn, index, range, after, guarded)?))
        } else {
            Ok(None)
        }
    }
}
