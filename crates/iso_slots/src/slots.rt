//! The calls that write one slot.
use crate::guards::has_slot;
use crate::records::note;
use crate::rows::{is_slot, one_slot, row_of};
use iso_chain::{clear_slot, kill_slot, slot_of, undo_slot, write_slot};
use iso_record::Change;
use iso_table::Table;
use iso_types::{Items, Memory, Rid, TableId};
use std::alloc::Global;

/// Whether the first slot has this row, is live or dead, and has these records.
pub fn shows_slot(
    tables: &Items<Table>,
    value: i64,
    live: bool,
    head: Option<u32>,
    first: Option<u32>,
) -> bool {
    if !has_slot(tables, TableId(0), Rid(0)) {
        return false;
    }
    let slot = slot_of(tables, TableId(0), Rid(0));
    is_slot(slot, value, live, head, first)
}

/// Writes a row into the slot, and deletes it.
fn write_and_kill(alloc: Global, tables: &mut Items<Table>) -> Result<bool, Memory> {
    let row = row_of(alloc, 20)?;
    if has_slot(tables, TableId(0), Rid(0)) {
        write_slot(tables, TableId(0), Rid(0), 7, row);
    }
    let written = shows_slot(tables, 20, true, Some(7), Some(7));
    if has_slot(tables, TableId(0), Rid(0)) {
        kill_slot(tables, TableId(0), Rid(0), 8);
    }
    Ok(written && shows_slot(tables, 20, false, Some(8), Some(7)))
}

/// Whether a slot is written, deleted, undone and cleared.
pub fn follows_its_chain(alloc: Global) -> Result<bool, Memory> {
    let mut tables = Items::new(alloc);
    tables.push(one_slot(alloc)?)?;
    let killed = write_and_kill(alloc, &mut tables)?;
    let note = note(Change::Delete, Some(7));
    if has_slot(&tables, TableId(0), Rid(0)) {
        undo_slot(&mut tables, &note);
    }
    let undone = shows_slot(&tables, 20, true, Some(7), Some(7));
    if has_slot(&tables, TableId(0), Rid(0)) {
        clear_slot(&mut tables, TableId(0), Rid(0));
    }
    Ok(killed && undone && shows_slot(&tables, 20, true, None, None))
}
