//! The calls of a table.
use crate::guards::has;
use crate::rows::{is_slot, one_slot, row_of};
use iso_table::{AddFault, Table};
use iso_types::{Memory, Rid};
use std::alloc::Global;

/// Whether the first slot has this row, is live or dead, and has these records.
fn shows(table: &Table, value: i64, live: bool, head: Option<u32>, first: Option<u32>) -> bool {
    match table.get(Rid(0)) {
        Some(slot) => is_slot(slot, value, live, head, first),
        None => false,
    }
}

/// Whether a new table has no slot, and one more has the next rid.
pub fn counts_its_slots(alloc: Global) -> Result<bool, Memory> {
    let mut table = Table::new(alloc);
    let empty = table.slots() == 0 && table.get(Rid(0)).is_none();
    table.reserve()?;
    let first = table.add(row_of(alloc, 10)?) == Ok(Rid(0));
    table.reserve()?;
    let second = table.add(row_of(alloc, 11)?) == Ok(Rid(1));
    let two = table.slots() == 2 && table.get(Rid(2)).is_none();
    Ok(empty && first && second && two && shows(&table, 10, true, None, None))
}

/// Writes the row of the first slot, and whether it is live.
fn writes_the_face(alloc: Global, table: &mut Table) -> Result<bool, Memory> {
    let rid = Rid(0);
    if has(table, rid) {
        table.write_row(rid, row_of(alloc, 20)?);
    }
    let written = shows(table, 20, true, None, None);
    if has(table, rid) {
        table.set_live(rid, false);
    }
    Ok(written && shows(table, 20, false, None, None))
}

/// Whether the slot of a table is as it was written last.
pub fn keeps_what_is_written(alloc: Global) -> Result<bool, Memory> {
    let mut table = one_slot(alloc)?;
    let rid = Rid(0);
    let face = writes_the_face(alloc, &mut table)?;
    if has(&table, rid) {
        table.set_chain(rid, Some(7), Some(5));
    }
    let chained = shows(&table, 20, false, Some(7), Some(5));
    if has(&table, rid) {
        table.slot_mut(rid).first = Some(6);
    }
    Ok(face && chained && shows(&table, 20, false, Some(7), Some(6)))
}

/// Whether a table has room for 65,536 slots and no more.
pub fn has_its_limit(alloc: Global) -> Result<bool, Memory> {
    let mut table = Table::new(alloc);
    for number in 0..65_536 {
        if table.add(row_of(alloc, i64::from(number))?) != Ok(Rid(number)) {
            return Ok(false);
        }
    }
    let refused = table.add(row_of(alloc, 0)?) == Err(AddFault::Full);
    Ok(refused && table.slots() == 65_536 && shows(&table, 0, true, None, None))
}
