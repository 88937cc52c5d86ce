ghost use Rattle.std.specs.Prelude.{◌≡◌, ℕ, List, [], ◌∷◌, ◌++◌, ◌+◌, ◌<◌, ◌≤◌, ◌↔◌, true, length, Some, None, Err, IsSome, OnOk, OnErr};
ghost use Rattle.iso_chain.specs.Lines.{HasLine, IsLine};
ghost use Rattle.iso_chain.specs.Logs.{record_at};
ghost use Rattle.iso_chain.specs.Slots.{slot_in, slots_of};
ghost use Rattle.iso_chain.specs.Views.{bare, chained, spare_at};
ghost use Rattle.iso_chain.specs.Writes.{committed, inserted, made_slot, released, taken_back, with_more, written};
ghost use Rattle.iso_log.specs.Journal.{is_past};
ghost use Rattle.iso_record.specs.Olds.{olds};
ghost use Rattle.iso_record.specs.Undone.{columns_in};
ghost use Rattle.iso_uow.specs.Book.{debt_of, own, work_at};

use crate::slots::{clear_slot, kill_slot, undo_slot, write_slot};
use iso_log::{Log, LogFault};
use iso_record::{Change, Record};
use iso_table::{Slot, Table};
use iso_types::{Conn, Items, Memory, Rid, Row, TableId, Value};
use iso_uow::Units;
use std::alloc::Global;

/// The number of the connection's open unit.
fn own_unit(units: &Units, conn: Conn) -> u32
    requires conn { conn.0 < length units.now.works }
    requires has_unit { IsSome (work_at units.now.works conn) }
    ensures { result ≡ (own units.now.works conn).number }
{
    match units.unit(conn) {
        Some(unit) => unit,
        None => unreachable!(),
    }
}

/// The record with this number.
fn record_of(log: &Log, number: u32) -> &Record
    requires { number < length log.now.records }
    ensures { result.now ≡ record_at log.now.records number }
{
    match log.walk(number) {
        Some(note) => note,
        None => unreachable!(),
    }
}

/// The record of a change that the connection's unit makes next, with the row that it makes.
fn record_next(
    log: &Log,
    units: &Units,
    conn: Conn,
    table: TableId,
    rid: Rid,
    change: Change,
    prev_row: Option<u32>,
    after: Option<Row>,
) -> Record
    requires conn { conn.0 < length units.now.works }
    requires has_unit { IsSome (work_at units.now.works conn) }
    ensures { result ≡ record {
      number = length log.now.records;
      unit = (own units.now.works conn).number;
      table = table;
      rid = rid;
      change = change;
      prev_row = prev_row;
      prev_unit = (own units.now.works conn).last;
      after = after;
    } }
{
    Record {
        number: log.len(),
        unit: own_unit(units, conn),
        table,
        rid,
        change,
        prev_row,
        prev_unit: units.last(conn),
        after,
    }
}

/// Undoes a record of the connection's unit, the last that it has left: its slot is as it was before, and the log has the
/// record of the undo. It takes no memory.
pub fn take_back(
    tables: &mut Items<Table>,
    log: &mut Log,
    units: &mut Units,
    conn: Conn,
    number: u32,
)
    requires conn { conn.0 < length units.old.works }
    requires has_unit { IsSome (work_at units.old.works conn) }
    requires some { 1 ≤ (own units.old.works conn).count }
    requires number { number < length log.old.records }
    requires table { (record_at log.old.records number).table.0 < length tables.old }
    requires rid { (record_at log.old.records number).rid.0 < length (slots_of (bare tables.old) (record_at log.old.records number).table) }
    requires columns { columns_in (length (slot_in (bare tables.old) (record_at log.old.records number).table (record_at log.old.records number).rid).row) (record_at log.old.records number).change ≡ true }
    requires room { 1 ≤ log.old.spare }
    ensures wrote { chained tables.new log.new units.new ≡ taken_back (chained tables.old log.old units.old) conn number }
    ensures spare { log.old.spare ≤ log.new.spare + 1 }
    ensures window { log.new.window ≡ log.old.window }
    ensures logmax { log.new.logmax ≡ log.old.logmax }
{
    let unit = own_unit(units, conn);
    let next = log.len();
    let note = record_of(log, number);
    undo_slot(tables, note);
    let last = note.prev_unit;
    let undo = Record {
        number: next,
        unit,
        table: note.table,
        rid: note.rid,
        change: Change::Undone(number),
        prev_row: note.prev_row,
        prev_unit: last,
        after: None,
    };
    log.append_reserved(undo);
    units.undone(conn, last);
}

/// The slot with this rid.
pub fn slot_of(tables: &Items<Table>, table: TableId, rid: Rid) -> &Slot
    requires table { table.0 < length tables.now }
    requires rid { rid.0 < length (slots_of (bare tables.now) table) }
    ensures { result.now ≡ slot_in (bare tables.now) table rid }
{
    match tables.as_slice()[table.0 as usize].get(rid) {
        Some(slot) => slot,
        None => unreachable!(),
    }
}

/// Writes an update: the slot has a new row, and the log its record with the old values of the changed columns and a copy of
/// the new row. It is `LogFull` exactly where the change would be past the log; that is tried before memory is taken. After a
/// fault all is as before, and the row is dropped.
pub fn update(
    alloc: Global,
    tables: &mut Items<Table>,
    log: &mut Log,
    units: &mut Units,
    conn: Conn,
    table: TableId,
    rid: Rid,
    row: Row,
    list: Items<(u8, Value)>,
    oldest: u32,
    debt: u32,
) -> Result<(), LogFault>
    requires conn { conn.0 < length units.old.works }
    requires has_unit { IsSome (work_at units.old.works conn) }
    requires few { debt_of units.old.works < 4294967295 }
    requires table { table.0 < length tables.old }
    requires rid { rid.0 < length (slots_of (bare tables.old) table) }
    requires list { list ≡ olds (slot_in (bare tables.old) table rid).row row }
    ensures full { (result ≡ Err LogFault.LogFull) ↔ (is_past log.old.logmax (length log.old.records) oldest debt ≡ true) }
    ensures wrote { OnOk result (chained tables.new log.new units.new ≡ written (chained tables.old log.old units.old) conn table rid (Some row)) }
    ensures room { OnOk result (debt + 1 ≤ log.new.spare) }
    ensures err { OnErr result ((chained tables.new log.new units.new ≡ chained tables.old log.old units.old) × (log.old.spare ≤ log.new.spare)) }
    ensures window { log.new.window ≡ log.old.window }
    ensures logmax { log.new.logmax ≡ log.old.logmax }
{
    if log.full(oldest, debt) {
        return Err(LogFault::LogFull);
    }
    let after = match row.copied(alloc) {
        Ok(copy) => Some(copy),
        Err(_) => return Err(LogFault::Memory),
    };
    let prev_row = slot_of(tables, table, rid).head;
    let number = log.len();
    let change = Change::Update(list);
    let note = record_next(log, units, conn, table, rid, change, prev_row, after);
    match log.append(note, oldest, debt) {
        Ok(()) => {
            write_slot(tables, table, rid, number, row);
            units.added(conn, number);
            Ok(())
        }
        Err(fault) => Err(fault),
    }
}

/// Writes a deletion: the slot is dead, and the log has its record. It is `LogFull` exactly where the change would be past
/// the log. After a fault all is as before.
pub fn delete(
    tables: &mut Items<Table>,
    log: &mut Log,
    units: &mut Units,
    conn: Conn,
    table: TableId,
    rid: Rid,
    oldest: u32,
    debt: u32,
) -> Result<(), LogFault>
    requires conn { conn.0 < length units.old.works }
    requires has_unit { IsSome (work_at units.old.works conn) }
    requires few { debt_of units.old.works < 4294967295 }
    requires table { table.0 < length tables.old }
    requires rid { rid.0 < length (slots_of (bare tables.old) table) }
    ensures full { (result ≡ Err LogFault.LogFull) ↔ (is_past log.old.logmax (length log.old.records) oldest debt ≡ true) }
    ensures wrote { OnOk result (chained tables.new log.new units.new ≡ written (chained tables.old log.old units.old) conn table rid None) }
    ensures room { OnOk result (debt + 1 ≤ log.new.spare) }
    ensures err { OnErr result ((chained tables.new log.new units.new ≡ chained tables.old log.old units.old) × (log.old.spare ≤ log.new.spare)) }
    ensures window { log.new.window ≡ log.old.window }
    ensures logmax { log.new.logmax ≡ log.old.logmax }
{
    let prev_row = slot_of(tables, table, rid).head;
    let number = log.len();
    let note = record_next(log, units, conn, table, rid, Change::Delete, prev_row, None);
    match log.append(note, oldest, debt) {
        Ok(()) => {
            kill_slot(tables, table, rid, number);
            units.added(conn, number);
            Ok(())
        }
        Err(fault) => Err(fault),
    }
}

/// Takes the chains off the slots of the records along a unit's own chain.
fn release(tables: &mut Items<Table>, log: &Log, last: Option<u32>)
    requires line { HasLine log.now.records (bare tables.old) last }
    ensures { (ns : List ℕ) → IsLine log.now.records last ns → bare tables.new ≡ released log.now.records ns (bare tables.old) }
{
    let mut at = last;
    while let Some(number) = at {
        let note = record_of(log, number);
        clear_slot(tables, note.table, note.rid);
        at = note.prev_unit;
    }
}

/// Writes a commit: no slot of a record that the connection's unit has left has a chain any more, and the unit has ended.
/// It takes no memory.
pub fn commit(tables: &mut Items<Table>, log: &Log, units: &mut Units, conn: Conn)
    requires conn { conn.0 < length units.old.works }
    requires line { HasLine log.now.records (bare tables.old) (own units.old.works conn).last }
    ensures { (ns : List ℕ) → IsLine log.now.records (own units.old.works conn).last ns
        → chained tables.new log.now units.new ≡ committed (chained tables.old log.now units.old) conn ns }
{
    release(tables, log, units.last(conn));
    units.finish(conn);
}

/// Makes room for one more slot of a table.
fn reserve_slot(tables: &mut Items<Table>, table: TableId) -> Result<(), Memory>
    requires table { table.0 < length tables.old }
    ensures same { bare tables.new ≡ bare tables.old }
    ensures len { length tables.new ≡ length tables.old }
    ensures room { OnOk result (1 ≤ spare_at tables.new table) }
{
    tables.item_mut(table.0 as usize).reserve()
}

/// A live slot with this row and this record is last.
fn add_in(slots: &mut Table, number: u32, row: Row)
    requires few { length slots.old.items < 65536 }
    requires room { 1 ≤ slots.old.spare }
    ensures { slots.new.items ≡ slots.old.items ++ made_slot number row ∷ [] }
{
    match slots.add(row) {
        Ok(rid) => slots.set_chain(rid, Some(number), Some(number)),
        Err(_) => unreachable!(),
    }
}

/// Adds a live slot with this row and this record to a table that has room for it.
fn add_slot(tables: &mut Items<Table>, table: TableId, number: u32, row: Row)
    requires table { table.0 < length tables.old }
    requires few { length (slots_of (bare tables.old) table) < 65536 }
    requires room { 1 ≤ spare_at tables.old table }
    ensures { bare tables.new ≡ with_more (bare tables.old) table (made_slot number row) }
{
    add_in(tables.item_mut(table.0 as usize), number, row);
}

/// Writes an insertion: the table has one more slot, and the log its record with a copy of the row. It is `LogFull` exactly
/// where the change would be past the log; that is tried before memory is taken. After a fault all is as before, and the row
/// is dropped.
pub fn insert(
    alloc: Global,
    tables: &mut Items<Table>,
    log: &mut Log,
    units: &mut Units,
    conn: Conn,
    table: TableId,
    row: Row,
    oldest: u32,
    debt: u32,
) -> Result<(), LogFault>
    requires conn { conn.0 < length units.old.works }
    requires has_unit { IsSome (work_at units.old.works conn) }
    requires few { debt_of units.old.works < 4294967295 }
    requires table { table.0 < length tables.old }
    requires slots { length (slots_of (bare tables.old) table) < 65536 }
    ensures full { (result ≡ Err LogFault.LogFull) ↔ (is_past log.old.logmax (length log.old.records) oldest debt ≡ true) }
    ensures wrote { OnOk result (chained tables.new log.new units.new ≡ inserted (chained tables.old log.old units.old) conn table row) }
    ensures room { OnOk result (debt + 1 ≤ log.new.spare) }
    ensures err { OnErr result ((chained tables.new log.new units.new ≡ chained tables.old log.old units.old) × (log.old.spare ≤ log.new.spare)) }
    ensures window { log.new.window ≡ log.old.window }
    ensures logmax { log.new.logmax ≡ log.old.logmax }
{
    if log.full(oldest, debt) {
        return Err(LogFault::LogFull);
    }
    let after = match row.copied(alloc) {
        Ok(copy) => Some(copy),
        Err(_) => return Err(LogFault::Memory),
    };
    match reserve_slot(tables, table) {
        Ok(()) => {}
        Err(_) => return Err(LogFault::Memory),
    }
    let rid = Rid(slots_in(tables, table));
    let number = log.len();
    let note = record_next(log, units, conn, table, rid, Change::Insert, None, after);
    match log.append(note, oldest, debt) {
        Ok(()) => {
            add_slot(tables, table, number, row);
            units.added(conn, number);
            Ok(())
        }
        Err(fault) => Err(fault),
    }
}

/// The number of a table's slots.
fn slots_in(tables: &Items<Table>, table: TableId) -> u32
    requires table { table.0 < length tables.now }
    ensures { result ≡ length (slots_of (bare tables.now) table) }
{
    tables.as_slice()[table.0 as usize].slots()
}
