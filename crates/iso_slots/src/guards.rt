//! What the calls ask, tried where they are made: where a guard is false its test fails.
ghost use Rattle.std.specs.List.{list_all};
ghost use Rattle.std.specs.Prelude.{◌≡◌, ◌<◌, ◌≤◌, true, length, nat_lt, IfSome, IsSome};
ghost use Rattle.iso_chain.specs.Lines.{HasLine};
ghost use Rattle.iso_chain.specs.Logs.{record_at};
ghost use Rattle.iso_chain.specs.Slots.{slot_in, slots_of};
ghost use Rattle.iso_chain.specs.Views.{bare};
ghost use Rattle.iso_record.specs.Undone.{columns_in};
ghost use Rattle.iso_slots.specs.Short.{the_conn, the_table};
ghost use Rattle.iso_uow.specs.Book.{debt_of, own, work_at};

use crate::chain::Chain;
use iso_chain::slot_of;
use iso_log::Log;
use iso_record::{Change, Record};
use iso_table::Table;
use iso_types::{Conn, Items, Rid, TableId, Value};
use iso_uow::Units;

/// Whether the table has the slot.
pub fn has(table: &Table, rid: Rid) -> bool
    ensures { result ≡ nat_lt rid.0 (length table.now.items) }
{
    rid.0 < table.slots()
}

/// Whether the table is there, and has the slot.
pub fn has_slot(tables: &Items<Table>, table: TableId, rid: Rid) -> bool
    ensures table { result ≡ true → table.0 < length tables.now }
    ensures slot { result ≡ true → rid.0 < length (slots_of (bare tables.now) table) }
{
    match tables.get(table.0 as usize) {
        Some(table) => has(table, rid),
        None => false,
    }
}

/// Whether the first table is there, and is not full.
pub fn has_room(tables: &Items<Table>) -> bool
    ensures table { result ≡ true → 0 < length tables.now }
    ensures slots { result ≡ true → length (slots_of (bare tables.now) the_table) < 65536 }
{
    match tables.get(0) {
        Some(table) => table.slots() < 65_536,
        None => false,
    }
}

/// Whether the connection may make a change: it has a unit, and not every number is owed.
pub fn may_change(units: &Units) -> bool
    requires one { length units.now.works ≡ 1 }
    ensures unit { result ≡ true → IsSome (work_at units.now.works the_conn) }
    ensures few { result ≡ true → debt_of units.now.works < 4294967295 }
{
    units.unit(Conn(0)).is_some() && units.debt() < u32::MAX
}

/// Whether these columns are in a row of this width.
fn are_within(olds: &[(u8, Value)], width: usize) -> bool
    ensures { result ≡ list_all (λ p. nat_lt p.0 width) olds.now }
{
    for old in olds {
        if old.0 as usize >= width {
            return false;
        }
    }
    true
}

/// Whether the change's columns are in a row of this width.
fn fits(change: &Change, width: usize) -> bool
    ensures { result ≡ columns_in width change.now }
{
    match change {
        Change::Update(olds) => are_within(olds.as_slice(), width),
        _ => true,
    }
}

/// Whether the record's slot is there, and its columns are in the slot's row.
pub fn may_restore(tables: &Items<Table>, note: &Record) -> bool
    ensures table { result ≡ true → note.now.table.0 < length tables.now }
    ensures rid { result ≡ true → note.now.rid.0 < length (slots_of (bare tables.now) note.now.table) }
    ensures columns { result ≡ true → columns_in (length (slot_in (bare tables.now) note.now.table note.now.rid).row) note.now.change ≡ true }
{
    if !has_slot(tables, note.table, note.rid) {
        return false;
    }
    let slot = slot_of(tables, note.table, note.rid);
    fits(&note.change, slot.row.width())
}

/// Whether the log has the record.
pub fn has_record(log: &Log, number: u32) -> bool
    ensures { result ≡ true → number < length log.now.records }
{
    number < log.len()
}

/// The record with this number.
fn record_of(log: &Log, number: u32) -> &Record
    requires { number < length log.now.records }
    ensures { result.now ≡ record_at log.now.records number }
{
    match log.walk(number) {
        Some(note) => note,
        None => unreachable!(),
    }
}

/// Whether the connection's unit has a record left.
fn owes(units: &Units) -> bool
    requires one { length units.now.works ≡ 1 }
    ensures unit { result ≡ true → IsSome (work_at units.now.works the_conn) }
    ensures some { result ≡ true → 1 ≤ (own units.now.works the_conn).count }
{
    units.unit(Conn(0)).is_some() && units.debt() > 0
}

/// Whether the record may be taken back.
pub fn may_undo(chain: &Chain, number: u32) -> bool
    requires one { length chain.now.units.works ≡ 1 }
    ensures unit { result ≡ true → IsSome (work_at chain.now.units.works the_conn) }
    ensures some { result ≡ true → 1 ≤ (own chain.now.units.works the_conn).count }
    ensures number { result ≡ true → number < length chain.now.log.records }
    ensures table { result ≡ true → (record_at chain.now.log.records number).table.0 < length chain.now.tables }
    ensures rid { result ≡ true → (record_at chain.now.log.records number).rid.0
        < length (slots_of (bare chain.now.tables) (record_at chain.now.log.records number).table) }
    ensures columns { result ≡ true → columns_in
        (length (slot_in (bare chain.now.tables) (record_at chain.now.log.records number).table (record_at chain.now.log.records number).rid).row)
        (record_at chain.now.log.records number).change ≡ true }
{
    if !owes(&chain.units) || !has_record(&chain.log, number) {
        return false;
    }
    may_restore(&chain.tables, record_of(&chain.log, number))
}

/// Whether the earlier record, if there is one, is lower.
fn is_lower(prev: Option<u32>, number: u32) -> bool
    ensures { result ≡ true → IfSome prev (λ j. j < number) }
{
    match prev {
        Some(prev) => prev < number,
        None => true,
    }
}

/// Whether the records that a unit has left go from this one to its first, each with its slot.
pub fn has_line(tables: &Items<Table>, log: &Log, last: Option<u32>) -> bool
    ensures { result ≡ true → HasLine log.now.records (bare tables.now) last }
{
    let mut at = last;
    while let Some(number) = at {
        if !has_record(log, number) {
            return false;
        }
        let note = record_of(log, number);
        if !has_slot(tables, note.table, note.rid) || !is_lower(note.prev_unit, number) {
            return false;
        }
        at = note.prev_unit;
    }
    true
}
