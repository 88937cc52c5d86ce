//! Whole units of one row, with what is left of them in slots, log and units.
ghost use Rattle.std.specs.Prelude.{◌≡◌, ◌≤◌, length, OnOk};

use crate::chain::{Chain, begin};
use crate::changes::{commits, deletes, inserts, pins, takes_back, updates};
use crate::rows::is_of;
use crate::slots::shows_slot;
use iso_log::{Log, LogFault};
use iso_rebuild::Past;
use iso_record::{Change, Record};
use iso_types::{Conn, Rid, TableId, Value};
use std::alloc::Global;

/// Whether the first slot has this row, is live or dead, and has these records, and the units owe so many.
fn is_left(
    chain: &Chain,
    value: i64,
    live: bool,
    head: Option<u32>,
    first: Option<u32>,
    debt: u32,
) -> bool {
    shows_slot(&chain.tables, value, live, head, first) && chain.units.debt() == debt
}

/// Whether the record has this number, is of the first unit and of the first slot, and stands behind these records.
fn is_behind(note: &Record, number: u32, prev_row: Option<u32>, prev_unit: Option<u32>) -> bool {
    note.number == number
        && note.unit == 1
        && note.table == TableId(0)
        && note.rid == Rid(0)
        && note.prev_row == prev_row
        && note.prev_unit == prev_unit
}

/// Whether the record makes a row of this number.
fn makes(note: &Record, value: i64) -> bool {
    match &note.after {
        Some(row) => is_of(row, value),
        None => false,
    }
}

/// Whether the first record of the log is that of an insertion of this number.
fn has_inserted(log: &Log, value: i64) -> bool {
    match log.walk(0) {
        Some(note) => {
            matches!(&note.change, Change::Insert)
                && makes(note, value)
                && is_behind(note, 0, None, None)
        }
        None => false,
    }
}

/// Whether the change is an update of this number.
fn replaces(change: &Change, old: i64) -> bool {
    match change {
        Change::Update(olds) => olds.as_slice() == [(0, Value::Int(old))].as_slice(),
        _ => false,
    }
}

/// Whether this record is that of the update of the first number to the second, behind the first record.
fn has_updated(log: &Log, number: u32, old: i64, new: i64) -> bool {
    match log.walk(number) {
        Some(note) => {
            replaces(&note.change, old)
                && makes(note, new)
                && is_behind(note, number, Some(0), Some(0))
        }
        None => false,
    }
}

/// Whether this record is that of a deletion, behind the record before it.
fn has_deleted(log: &Log, number: u32, prev: u32) -> bool {
    match log.walk(number) {
        Some(note) => {
            matches!(&note.change, Change::Delete)
                && note.after.is_none()
                && is_behind(note, number, Some(prev), Some(prev))
        }
        None => false,
    }
}

/// Whether this record undoes the other one, before which the slot and the unit had this one.
fn has_undone(log: &Log, number: u32, other: u32, prev: Option<u32>) -> bool {
    match log.walk(number) {
        Some(note) => {
            matches!(&note.change, Change::Undone(undone) if *undone == other)
                && note.after.is_none()
                && is_behind(note, number, prev, prev)
        }
        None => false,
    }
}

/// Inserts a row, updates it, and deletes it; whether each is as told.
fn writes(alloc: Global, chain: &mut Chain) -> Result<bool, LogFault>
    requires one { length chain.old.units.works ≡ 1 }
    ensures one { length chain.new.units.works ≡ 1 }
    ensures room { OnOk result (3 ≤ chain.new.log.spare) }
{
    inserts(alloc, chain, 10, 0)?;
    let made = has_inserted(&chain.log, 10) && is_left(chain, 10, true, Some(0), Some(0), 1);
    updates(alloc, chain, 20, 1)?;
    let changed = has_updated(&chain.log, 1, 10, 20)
        && is_left(chain, 20, true, Some(1), Some(0), 2);
    deletes(chain, 2)?;
    let gone = has_deleted(&chain.log, 2, 1) && is_left(chain, 20, false, Some(2), Some(0), 3);
    Ok(made && changed && gone)
}

/// Takes the deletion back, and the update; whether each is as told.
fn goes_back(chain: &mut Chain) -> bool
    requires one { length chain.old.units.works ≡ 1 }
    requires room { 3 ≤ chain.old.log.spare }
    ensures one { length chain.new.units.works ≡ 1 }
    ensures room { 1 ≤ chain.new.log.spare }
{
    let first = takes_back(chain, 2);
    let lives = has_undone(&chain.log, 3, 2, Some(1))
        && is_left(chain, 20, true, Some(1), Some(0), 2);
    let second = takes_back(chain, 1);
    let is_old = has_undone(&chain.log, 4, 1, Some(0))
        && is_left(chain, 10, true, Some(0), Some(0), 1);
    first && lives && second && is_old
}

/// Whether a unit that goes back to its first record, changes the row again and commits leaves the row without records.
pub fn ends_with_a_commit(alloc: Global) -> Result<bool, LogFault> {
    let mut chain = begin(alloc, 100)?;
    let written = writes(alloc, &mut chain)?;
    let back = goes_back(&mut chain);
    updates(alloc, &mut chain, 30, 1)?;
    let again = has_updated(&chain.log, 5, 10, 30)
        && is_left(&chain, 30, true, Some(5), Some(0), 2);
    let committed = commits(&mut chain) && is_left(&chain, 30, true, None, None, 0);
    let ended = chain.units.oldest().is_none() && chain.log.len() == 6;
    Ok(written && back && again && committed && ended)
}

/// Whether a unit that takes its insertion back leaves a dead slot.
pub fn takes_all_back(alloc: Global) -> Result<bool, LogFault> {
    let mut chain = begin(alloc, 100)?;
    inserts(alloc, &mut chain, 10, 0)?;
    let back = takes_back(&mut chain, 0) && is_left(&chain, 10, false, None, None, 0);
    let open = chain.units.unit(Conn(0)) == Some(1) && chain.units.last(Conn(0)).is_none();
    Ok(back && open && has_undone(&chain.log, 1, 0, None))
}

/// Whether the pin has the records from 1 to 2 alone, and the slot as it stood.
fn is_pinned(past: &Past) -> bool {
    let inside = past.pin.item(1).is_some_and(|note| note.number == 1)
        && past.pin.item(2).is_some_and(|note| note.number == 2);
    let outside = past.pin.item(0).is_none() && past.pin.item(3).is_none();
    inside && outside && is_of(&past.row, 20) && !past.live && past.head == 2
}

/// Whether a pin keeps its slot and its records while the unit goes on.
pub fn is_kept_by_its_pin(alloc: Global) -> Result<bool, LogFault> {
    let mut chain = begin(alloc, 100)?;
    let written = writes(alloc, &mut chain)?;
    let past = pins(alloc, &chain, 1, 2)?;
    let back = goes_back(&mut chain);
    Ok(written && back && is_pinned(&past))
}

/// Whether an insertion past the log is refused, and leaves all as before.
pub fn refuses_the_first(alloc: Global) -> Result<bool, LogFault> {
    let mut chain = begin(alloc, 1)?;
    let refused = inserts(alloc, &mut chain, 10, 0) == Err(LogFault::LogFull);
    let none = chain.tables.get(0).is_some_and(|table| table.slots() == 0);
    Ok(refused && none && chain.log.len() == 0 && chain.units.debt() == 0)
}

/// Whether an update and a deletion past the log are refused, and leave all as before.
pub fn refuses_the_next(alloc: Global) -> Result<bool, LogFault> {
    let mut chain = begin(alloc, 2)?;
    inserts(alloc, &mut chain, 10, 0)?;
    let update = updates(alloc, &mut chain, 20, 1) == Err(LogFault::LogFull);
    let delete = deletes(&mut chain, 1) == Err(LogFault::LogFull);
    let left = is_left(&chain, 10, true, Some(0), Some(0), 1);
    Ok(update && delete && left && chain.log.len() == 1)
}
