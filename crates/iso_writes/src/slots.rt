//! What a write reads of a slot: its present row, and whether another unit changed it.
ghost use Rattle.std.specs.Option.{option_copied};
ghost use Rattle.std.specs.Prelude.{◌≡◌, ◌<◌, length, slice_get};
ghost use Rattle.iso_chain.specs.Logs.{record_at};
ghost use Rattle.iso_chain.specs.Slots.{face, slot_in, slots_of};
ghost use Rattle.iso_chain.specs.Views.{bare};
ghost use Rattle.iso_history.specs.Units.{unit_of as unit_in};
ghost use Rattle.iso_history.specs.Versions.{is_changed_beside as is_beside, present, versions};
ghost use Rattle.iso_record.specs.Undone.{shown};
ghost use Rattle.iso_state.specs.Stands.{StandsFor, world_of};

use iso_state::Parts;
use iso_table::Slot;
use iso_types::{Conn, Rid, Row, TableId};

/// The slot with this rid, None where there is no such slot.
fn slot_at(parts: &Parts, table: TableId, rid: Rid) -> Option<&Slot>
    ensures { option_copied result ≡ slice_get (slots_of (bare parts.now.tables) table) rid.0 }
{
    match parts.tables.get(table.0 as usize) {
        Some(slots) => slots.get(rid),
        None => None,
    }
}

/// The slot's present row, None where it shows none or is not there.
pub fn present_row(parts: &Parts, table: TableId, rid: Rid) -> Option<&Row>
    requires stands { StandsFor parts.now }
    ensures { option_copied result ≡ present (versions (world_of parts.now) table rid) }
{
    match slot_at(parts, table, rid) {
        Some(slot) => shown_row(slot),
        None => None,
    }
}

/// The slot's row where it is live.
fn shown_row(slot: &Slot) -> Option<&Row>
    ensures { option_copied result ≡ shown (face slot.now) }
{
    if slot.live { Some(&slot.row) } else { None }
}

/// The record of the slot's last pending change, None where none is pending or the slot is not there.
fn head_of(parts: &Parts, table: TableId, rid: Rid) -> Option<u32>
    ensures { result ≡ (slot_in (bare parts.now.tables) table rid).head }
{
    match slot_at(parts, table, rid) {
        Some(slot) => slot.head,
        None => None,
    }
}

/// The number of the connection's open unit, 0 where none is open.
fn unit_of(parts: &Parts, conn: Conn) -> u32
    requires stands { StandsFor parts.now }
    requires conn { conn.0 < length parts.now.head.conns }
    ensures { result ≡ unit_in (world_of parts.now) conn }
{
    match parts.units.unit(conn) {
        Some(unit) => unit,
        None => 0,
    }
}

/// The unit that made the record.
fn maker_of(parts: &Parts, number: u32) -> u32
    requires { number < length parts.now.log.records }
    ensures { result ≡ (record_at parts.now.log.records number).unit }
{
    match parts.log.walk(number) {
        Some(note) => note.unit,
        None => unreachable!(),
    }
}

/// Whether another unit's version is pending in the slot: the record of its last one tells whose it is.
pub fn is_changed_beside(parts: &Parts, conn: Conn, table: TableId, rid: Rid) -> bool
    requires stands { StandsFor parts.now }
    requires conn { conn.0 < length parts.now.head.conns }
    ensures { result ≡ is_beside (world_of parts.now) conn table rid }
{
    match head_of(parts, table, rid) {
        Some(head) => maker_of(parts, head) != unit_of(parts, conn),
        None => false,
    }
}
