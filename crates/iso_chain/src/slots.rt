ghost use Rattle.std.specs.Prelude.{◌≡◌, ◌<◌, true, length, Some, None};
ghost use Rattle.iso_chain.specs.Slots.{face, slot_in, slots_of};
ghost use Rattle.iso_chain.specs.Views.{bare};
ghost use Rattle.iso_chain.specs.Writes.{cleared, undone_slot, with_slot, written_slot};
ghost use Rattle.iso_record.specs.Undone.{columns_in};

use iso_record::{Record, undo_on};
use iso_table::{Slot, Table};
use iso_types::{Items, Rid, Row, TableId};

/// A record is undone in its slot.
fn undo_in(slot: &mut Slot, note: &Record)
    requires columns { columns_in (length slot.old.row) note.now.change ≡ true }
    ensures { slot.new ≡ undone_slot note.now slot.old }
{
    undo_on(note, &mut slot.row, &mut slot.live);
    slot.head = note.prev_row;
    if note.prev_row.is_none() {
        slot.first = None;
    }
}

/// A slot has another row, and one more record on its chain.
fn write_in(slot: &mut Slot, number: u32, row: Row)
    ensures { slot.new ≡ written_slot slot.old number (Some row) }
{
    slot.row = row;
    slot.live = true;
    slot.head = Some(number);
    if slot.first.is_none() {
        slot.first = Some(number);
    }
}

/// A slot is dead, and has one more record on its chain.
fn kill_in(slot: &mut Slot, number: u32)
    ensures { slot.new ≡ written_slot slot.old number None }
{
    slot.live = false;
    slot.head = Some(number);
    if slot.first.is_none() {
        slot.first = Some(number);
    }
}

/// A slot has no chain any more.
fn clear_in(slot: &mut Slot)
    ensures { slot.new ≡ cleared slot.old }
{
    slot.head = None;
    slot.first = None;
}

/// A record is undone in its slot, and nothing else changes.
pub fn undo_slot(tables: &mut Items<Table>, note: &Record)
    requires table { note.now.table.0 < length tables.old }
    requires rid { note.now.rid.0 < length (slots_of (bare tables.old) note.now.table) }
    requires columns { columns_in (length (slot_in (bare tables.old) note.now.table note.now.rid).row) note.now.change ≡ true }
    ensures { bare tables.new ≡ with_slot (bare tables.old) note.now.table note.now.rid
        (undone_slot note.now (slot_in (bare tables.old) note.now.table note.now.rid)) }
{
    let slots = tables.item_mut(note.table.0 as usize);
    undo_in(slots.slot_mut(note.rid), note);
}

/// A slot has another row, and one more record on its chain, and nothing else changes.
pub fn write_slot(tables: &mut Items<Table>, table: TableId, rid: Rid, number: u32, row: Row)
    requires table { table.0 < length tables.old }
    requires rid { rid.0 < length (slots_of (bare tables.old) table) }
    ensures { bare tables.new ≡ with_slot (bare tables.old) table rid (written_slot (slot_in (bare tables.old) table rid) number (Some row)) }
{
    let slots = tables.item_mut(table.0 as usize);
    write_in(slots.slot_mut(rid), number, row);
}

/// A slot is dead, and has one more record on its chain, and nothing else changes.
pub fn kill_slot(tables: &mut Items<Table>, table: TableId, rid: Rid, number: u32)
    requires table { table.0 < length tables.old }
    requires rid { rid.0 < length (slots_of (bare tables.old) table) }
    ensures { bare tables.new ≡ with_slot (bare tables.old) table rid (written_slot (slot_in (bare tables.old) table rid) number None) }
{
    let slots = tables.item_mut(table.0 as usize);
    kill_in(slots.slot_mut(rid), number);
}

/// A slot has no chain any more, and nothing else changes.
pub fn clear_slot(tables: &mut Items<Table>, table: TableId, rid: Rid)
    requires table { table.0 < length tables.old }
    requires rid { rid.0 < length (slots_of (bare tables.old) table) }
    ensures { bare tables.new ≡ with_slot (bare tables.old) table rid (cleared (slot_in (bare tables.old) table rid)) }
{
    let slots = tables.item_mut(table.0 as usize);
    clear_in(slots.slot_mut(rid));
}
