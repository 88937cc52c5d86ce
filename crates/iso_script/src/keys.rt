//! The keys that rows have under unique indexes, kept so that a line need not look through the rows before it.

ghost use Rattle.std.specs.Prelude.{◌≡◌, ◌&&◌, ◌||◌, ℕ, OnOk};
ghost use Rattle.iso_types.specs.Ids.{table_eq};
ghost use Rattle.iso_types.specs.declared.value.TableId.{TableId as Table};
ghost use Rattle.iso_types.specs.declared.value.Value.{Value as Cell};
ghost use Rattle.iso_script.specs.Keyed as spec;
ghost use Rattle.iso_script.specs.Keyed.{has_key, has_this};
ghost use Rattle.iso_script.specs.Kept.{has_value as has, is_keyed, is_on, is_that};

use indexmap::IndexSet;
use iso_sql::is_null;
use iso_types::{FirstRow, IndexDef, Memory, TableId, Value};

/// Values that are not NULL, each behind its table and its column's place. This project's own.
pub type Keys = IndexSet<(u8, u8, Value)>;

/// The row's value in the column; NULL where the row is too short.
pub fn key_at(column: u8, row: &[Value]) -> Value
    ensures { result ≡ spec.key_at column row.now }
{
    match row.get(column as usize) {
        Some(value) => *value,
        None => Value::Null,
    }
}

/// Whether the set has the value in this column of this table. Its cost is constant on average.
pub fn has_value(keys: &Keys, table: TableId, column: u8, value: &Value) -> bool
    ensures { result ≡ has keys.now.keys table column value.now }
{
    keys.contains(&(table.0, column, *value))
}

/// Adds the value in this column of this table, unless it is NULL, which is no key (Db2 LUW, 'Unique indexes'). `Memory` is want of memory for it.
/// Its cost is constant on average.
pub fn add_value(keys: &mut Keys, table: TableId, column: u8, value: &Value) -> Result<(), Memory>
    ensures { OnOk result ((t : Table) (c : ℕ) (v : Cell) → has keys.new.keys t c v ≡ (is_that table column value.now t c v || has keys.old.keys t c v)) }
{
    if !is_null(value) {
        keys.insert((table.0, column, *value))?;
    }
    Ok(())
}

fn is_unique_on(index: &IndexDef, table: TableId) -> bool
    ensures { result ≡ (index.now.unique && table_eq index.now.table table) }
{
    index.unique && index.table.0 == table.0
}

fn add_key(keys: &mut Keys, first: &FirstRow, index: &IndexDef) -> Result<(), Memory>
    ensures { OnOk result ((t : Table) (c : ℕ) (v : Cell) → has keys.new.keys t c v ≡ ((is_on t c index.now && has_this t c v first.now) || has keys.old.keys t c v)) }
{
    if is_unique_on(index, first.table) {
        let key = key_at(index.column, first.row.as_slice());
        add_value(keys, first.table, index.column, &key)?;
    }
    Ok(())
}

/// Adds the keys that the row has under the unique ones of these indexes. `Memory` is want of memory for one of them;
/// those before it stay. Cost: a look at each index, and on average a constant time for each key.
pub fn add_row(keys: &mut Keys, mut indexes: &[IndexDef], first: &FirstRow) -> Result<(), Memory>
    ensures { OnOk result ((t : Table) (c : ℕ) (v : Cell) → has keys.new.keys t c v ≡ ((is_keyed indexes.entry.now t c && has_this t c v first.now) || has keys.old.keys t c v)) }
{
    while let [index, rest @ ..] = indexes {
        add_key(keys, first, index)?;
        indexes = rest;
    }
    Ok(())
}

/// Adds the keys that these rows have under the index where it is unique. `Memory` is want of memory for one of them;
/// those before it stay. Cost: a look at each row, and on average a constant time for each key.
pub fn add_index(keys: &mut Keys, mut rows: &[FirstRow], index: &IndexDef) -> Result<(), Memory>
    ensures { OnOk result ((t : Table) (c : ℕ) (v : Cell) → has keys.new.keys t c v ≡ ((is_on t c index.now && has_key t c v rows.entry.now) || has keys.old.keys t c v)) }
{
    while let [first, rest @ ..] = rows {
        add_key(keys, first, index)?;
        rows = rest;
    }
    Ok(())
}
