//! The calls that write a change, its undoing and a commit. Where what a call asks does not hold it is not made, and the answer
//! is `Memory` or false, which no test takes.
ghost use Rattle.std.specs.Prelude.{◌≡◌, ◌+◌, ◌≤◌, length, IfOk, OnOk};
ghost use Rattle.iso_record.specs.Olds.{olds};

use crate::chain::Chain;
use crate::guards::{has_line, has_record, has_room, has_slot, may_change, may_undo};
use crate::rows::row_of;
use iso_chain::{commit, delete, insert, pin_slot, slot_of, take_back, update};
use iso_log::LogFault;
use iso_rebuild::Past;
use iso_record::olds_of;
use iso_table::Slot;
use iso_types::{Conn, Items, Memory, Rid, Row, TableId, Value};
use std::alloc::Global;

/// Inserts a row of this number.
pub fn inserts(alloc: Global, chain: &mut Chain, value: i64, debt: u32) -> Result<(), LogFault>
    requires one { length chain.old.units.works ≡ 1 }
    ensures one { length chain.new.units.works ≡ 1 }
    ensures room { OnOk result (debt + 1 ≤ chain.new.log.spare) }
{
    let row = row_of(alloc, value)?;
    if !may_change(&chain.units) || !has_room(&chain.tables) {
        return Err(LogFault::Memory);
    }
    insert(
        alloc,
        &mut chain.tables,
        &mut chain.log,
        &mut chain.units,
        Conn(0),
        TableId(0),
        row,
        0,
        debt,
    )
}

/// The old values of the columns in which a slot's row differs from the new one.
fn changed(alloc: Global, slot: &Slot, row: &Row) -> Result<Items<(u8, Value)>, Memory>
    ensures { IfOk result (λ list. list ≡ olds slot.now.row row.now) }
{
    let old = slot.row.as_slice();
    let new = row.as_slice();
    if old.len() > 256 || new.len() != old.len() {
        return Err(Memory);
    }
    olds_of(alloc, old, new)
}

/// Updates the first slot to a row of this number.
pub fn updates(alloc: Global, chain: &mut Chain, value: i64, debt: u32) -> Result<(), LogFault>
    requires one { length chain.old.units.works ≡ 1 }
    ensures one { length chain.new.units.works ≡ 1 }
    ensures room { OnOk result (debt + 1 ≤ chain.new.log.spare) }
{
    let row = row_of(alloc, value)?;
    if !may_change(&chain.units) || !has_slot(&chain.tables, TableId(0), Rid(0)) {
        return Err(LogFault::Memory);
    }
    let list = changed(alloc, slot_of(&chain.tables, TableId(0), Rid(0)), &row)?;
    update(
        alloc,
        &mut chain.tables,
        &mut chain.log,
        &mut chain.units,
        Conn(0),
        TableId(0),
        Rid(0),
        row,
        list,
        0,
        debt,
    )
}

/// Deletes the first slot's row.
pub fn deletes(chain: &mut Chain, debt: u32) -> Result<(), LogFault>
    requires one { length chain.old.units.works ≡ 1 }
    ensures one { length chain.new.units.works ≡ 1 }
    ensures room { OnOk result (debt + 1 ≤ chain.new.log.spare) }
{
    if !may_change(&chain.units) || !has_slot(&chain.tables, TableId(0), Rid(0)) {
        return Err(LogFault::Memory);
    }
    delete(
        &mut chain.tables,
        &mut chain.log,
        &mut chain.units,
        Conn(0),
        TableId(0),
        Rid(0),
        0,
        debt,
    )
}

/// Takes the record back.
pub fn takes_back(chain: &mut Chain, number: u32) -> bool
    requires one { length chain.old.units.works ≡ 1 }
    requires room { 1 ≤ chain.old.log.spare }
    ensures one { length chain.new.units.works ≡ 1 }
    ensures room { chain.old.log.spare ≤ chain.new.log.spare + 1 }
{
    if !may_undo(chain, number) {
        return false;
    }
    take_back(
        &mut chain.tables,
        &mut chain.log,
        &mut chain.units,
        Conn(0),
        number,
    );
    true
}

/// Commits the unit.
pub fn commits(chain: &mut Chain) -> bool
    requires one { length chain.old.units.works ≡ 1 }
{
    if !has_line(&chain.tables, &chain.log, chain.units.last(Conn(0))) {
        return false;
    }
    commit(&mut chain.tables, &chain.log, &mut chain.units, Conn(0));
    true
}

/// Pins the first slot with these records.
pub fn pins(alloc: Global, chain: &Chain, first: u32, head: u32) -> Result<Past, Memory> {
    if !has_slot(&chain.tables, TableId(0), Rid(0)) {
        return Err(Memory);
    }
    if first > head || !has_record(&chain.log, head) {
        return Err(Memory);
    }
    pin_slot(
        alloc,
        &chain.tables,
        &chain.log,
        TableId(0),
        Rid(0),
        first,
        head,
    )
}
