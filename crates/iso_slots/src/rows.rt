//! Rows of one number, and slots with them.
use iso_table::{AddFault, Slot, Table};
use iso_types::{Memory, Row, Value};
use std::alloc::Global;

/// A row of one number.
pub fn row_of(alloc: Global, value: i64) -> Result<Row, Memory> {
    Row::of(alloc, &[Value::Int(value)])
}

/// Whether the row is that of this number.
pub fn is_of(row: &Row, value: i64) -> bool {
    row.as_slice() == [Value::Int(value)].as_slice()
}

/// Whether the slot has this row, is live or dead, and has these records.
pub fn is_slot(slot: &Slot, value: i64, live: bool, head: Option<u32>, first: Option<u32>) -> bool {
    is_of(&slot.row, value) && slot.live == live && slot.head == head && slot.first == first
}

/// A table with one slot, of the number 10.
pub fn one_slot(alloc: Global) -> Result<Table, Memory> {
    let mut table = Table::new(alloc);
    table.reserve()?;
    match table.add(row_of(alloc, 10)?) {
        Ok(_) => Ok(table),
        Err(AddFault::Full) => Err(Memory),
        Err(AddFault::Memory) => Err(Memory),
    }
}
