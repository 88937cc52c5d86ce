//! The entries of the indexes before the first entry of the history.
ghost use Rattle.std.specs.List.{list_all};
ghost use Rattle.std.specs.Prelude.{◌≡◌, ◌<◌, true, [], length, map, slice_index_or, IfOk};
ghost use Rattle.iso_chain.specs.Views.{bare};
ghost use Rattle.iso_history.specs.Entries.{first_entries};
ghost use Rattle.iso_key.specs.Pages.{entries};
ghost use Rattle.iso_table.specs.Slots.{new_slot};
ghost use Rattle.iso_types.specs.Head.{rows_of, tables as tables_of};
ghost use Rattle.iso_types.specs.declared.value.Value.TheVariants as values;
ghost use Rattle.iso_state.specs.Firsts.{first_keys, keyed};
ghost use Rattle.iso_state.specs.Stands.{is_placed};

use iso_key::KeyIndex;
use iso_table::Table;
use iso_types::{Head, IndexDef, Items, Memory, Rid, Row, Value};
use std::alloc::Global;

/// The value of a row in a column; NULL where it has no such column.
fn value_in(row: &Row, column: u8) -> Value
    ensures { result ≡ slice_index_or row.now column values.Null }
{
    match row.as_slice().get(column as usize) {
        Some(value) => *value,
        None => Value::Null,
    }
}

/// The key of a slot's row in an index on this column.
fn key_at(table: &Table, rid: Rid, column: u8) -> Value
    requires { rid.0 < length table.now.items }
    ensures { result ≡ slice_index_or (slice_index_or (map (λ s. s.row) table.now.items) rid.0 []) column values.Null }
{
    match table.get(rid) {
        Some(slot) => value_in(&slot.row, column),
        None => unreachable!(),
    }
}

/// An index on this column, with the key of each slot's row; `Memory` where there is none. It places each row once.
pub fn first_index(alloc: Global, table: &Table, column: u8) -> Result<KeyIndex, Memory>
    ensures { IfOk result (λ index. entries index ≡ keyed column 0 (map (λ s. s.row) table.now.items)) }
{
    let mut index = KeyIndex::new(alloc);
    let mut left = table.slots();
    while left > 0 {
        left -= 1;
        index.insert(key_at(table, Rid(left), column), Rid(left))?;
    }
    Ok(index)
}

/// The index that is declared at this place, over the slots of its table.
fn index_at(
    alloc: Global,
    head: &Head,
    tables: &Items<Table>,
    at: usize,
) -> Result<KeyIndex, Memory>
    requires at { at < length head.now.indexes }
    requires placed { list_all (is_placed head.now) head.now.indexes ≡ true }
    requires rows { bare tables.now ≡ map (λ t. map new_slot (rows_of head.now t)) (tables_of head.now) }
    ensures { IfOk result (λ index. entries index ≡ first_keys head.now (record { 0 = at })) }
{
    let index: IndexDef = head.indexes.as_slice()[at];
    first_index(
        alloc,
        &tables.as_slice()[index.table.0 as usize],
        index.column,
    )
}

/// The indexes of the head, each with the keys of its table's first rows; `Memory` where there is none. It places each row
/// once in each index of its table.
pub fn first_indexes(
    alloc: Global,
    head: &Head,
    tables: &Items<Table>,
) -> Result<Items<KeyIndex>, Memory>
    requires placed { list_all (is_placed head.now) head.now.indexes ≡ true }
    requires rows { bare tables.now ≡ map (λ t. map new_slot (rows_of head.now t)) (tables_of head.now) }
    ensures { IfOk result (λ indexes. map entries indexes ≡ first_entries head.now) }
{
    let mut indexes = Items::new(alloc);
    for at in 0..head.indexes.len() {
        indexes.push(index_at(alloc, head, tables, at)?)?;
    }
    Ok(indexes)
}
