//! The calls of a record.
ghost use Rattle.std.specs.Prelude.{◌≡◌};
ghost use Rattle.iso_slots.specs.Short.{the_table};

use crate::rows::{is_of, row_of};
use iso_record::{Change, Record, olds_of, undo_on};
use iso_types::{Items, Memory, Rid, Row, TableId, Value};
use std::alloc::Global;

/// A record of the first slot of the first table.
pub fn note(change: Change, prev_row: Option<u32>) -> Record
    ensures change { result.change ≡ change }
    ensures table { result.table ≡ the_table }
    ensures rid { result.rid.0 ≡ 0 }
{
    Record {
        number: 8,
        unit: 1,
        table: TableId(0),
        rid: Rid(0),
        change,
        prev_row,
        prev_unit: None,
        after: None,
    }
}

/// Whether the old values are those of the columns that differ.
pub fn finds_old_values(alloc: Global) -> Result<bool, Memory> {
    let old = [Value::Int(1), Value::Int(2)];
    let new = [Value::Int(1), Value::Int(3)];
    let olds = olds_of(alloc, &old, &new)?;
    Ok(match olds.as_slice() {
        [only] => only.0 == 1 && only.1 == Value::Int(2),
        _ => false,
    })
}

/// Whether each kind of record is undone on a row.
pub fn undoes_each_kind(alloc: Global) -> Result<bool, Memory> {
    let mut row = row_of(alloc, 10)?;
    let mut live = true;
    undo_on(&note(Change::Insert, None), &mut row, &mut live);
    let gone = !live;
    undo_on(&note(Change::Undone(3), None), &mut row, &mut live);
    let left = !live;
    undo_on(&note(Change::Delete, None), &mut row, &mut live);
    Ok(gone && left && live && is_of(&row, 10))
}

/// Whether an update is undone on a row.
pub fn undoes_an_update(alloc: Global) -> Result<bool, Memory> {
    let mut row = Row::of(alloc, &[Value::Int(20)])?;
    let mut live = true;
    let mut olds = Items::new(alloc);
    olds.push((0, Value::Int(10)))?;
    undo_on(&note(Change::Update(olds), None), &mut row, &mut live);
    Ok(live && is_of(&row, 10))
}
