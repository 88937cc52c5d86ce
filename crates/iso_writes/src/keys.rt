//! What a write asks of the keys of its row.
ghost use Rattle.std.specs.Option.{option_copied};
ghost use Rattle.std.specs.Prelude.{◌≡◌, [], IfNone, IfSome, slice_index_or};
ghost use Rattle.iso_history.specs.Entries.{entries_of, guard, has_key as is_there, row_has};
ghost use Rattle.iso_history.specs.Holds.{is_inherited, keeps};
ghost use Rattle.iso_key.specs.Pages.{entries};
ghost use Rattle.iso_queue.specs.Locks.{others_guard};
ghost use Rattle.iso_state.specs.Stands.{StandsFor, world_of};
ghost use Rattle.iso_types.specs.Head.{is_unique as unique_in, key_in};
ghost use Rattle.iso_types.specs.Value.{value_eq};
ghost use Rattle.iso_types.specs.declared.value.Value.TheVariants as kinds;

use iso_key::KeyIndex;
use iso_nextkey::{blocked, guard_of, inherits};
use iso_state::Parts;
use iso_types::{Conn, Head, IndexId, Name, Row, Value};

/// The entries of the index, None where there is no such index.
pub fn index_at(parts: &Parts, index: IndexId) -> Option<&KeyIndex>
    requires stands { StandsFor parts.now }
    ensures some { IfSome result (λ list. entries list.now ≡ entries_of (world_of parts.now) index) }
    ensures none { IfNone result (entries_of (world_of parts.now) index ≡ []) }
{
    parts.indexes.get(index.0 as usize)
}

/// Whether the index is unique.
pub fn is_unique(head: &Head, index: IndexId) -> bool
    ensures { result ≡ unique_in head.now index }
{
    match head.indexes.get(index.0 as usize) {
        Some(declared) => declared.unique,
        None => false,
    }
}

/// The row's value in the column, NULL where there is none.
pub fn value_in(row: &[Value], column: u8) -> Value
    ensures { result ≡ slice_index_or row.now column kinds.Null }
{
    match row.get(column as usize) {
        Some(value) => *value,
        None => Value::Null,
    }
}

/// The row's key in the index, NULL where there is none.
pub fn key_of(head: &Head, index: IndexId, row: &Row) -> Value
    ensures { result ≡ key_in head.now index row.now }
{
    match head.indexes.get(index.0 as usize) {
        Some(declared) => value_in(row.as_slice(), declared.column),
        None => Value::Null,
    }
}

#[tactic(auto, unfolding(iso_types::specs::Value::value_eq))]
pub fn same_value(a: &Value, b: &Value) -> bool
    ensures { result ≡ value_eq a.now b.now }
{
    *a == *b
}

/// Whether the row is there and has the key.
pub fn row_has_key(head: &Head, index: IndexId, key: &Value, row: Option<&Row>) -> bool
    ensures { result ≡ row_has head.now index key.now (option_copied row.entry) }
{
    match row {
        Some(row) => same_value(&key_of(head, index, row), key),
        None => false,
    }
}

/// Whether an entry of the index has the key.
fn has_key(parts: &Parts, index: IndexId, key: &Value) -> bool
    requires stands { StandsFor parts.now }
    ensures { result ≡ is_there (world_of parts.now) index key.now }
{
    match index_at(parts, index) {
        Some(list) => list.has_key(*key),
        None => false,
    }
}

/// The lock name that guards the key in the index. Db2 LUW, 'Next-key locking'.
pub fn guard_in(parts: &Parts, index: IndexId, key: &Value) -> Name
    requires stands { StandsFor parts.now }
    ensures { result ≡ guard (world_of parts.now) index key.now }
{
    match index_at(parts, index) {
        Some(list) => guard_of(list, index, key),
        None => Name::End(index),
    }
}

/// Whether another connection's S or NW on the name is in the way of a new key.
pub fn is_guarded(parts: &Parts, conn: Conn, name: &Name) -> bool
    requires stands { StandsFor parts.now }
    ensures { result ≡ others_guard (world_of parts.now).holds conn name.now }
{
    blocked(&parts.locks, conn, name)
}

/// Whether the connection has a lock that is kept on the name.
fn keeps_name(parts: &Parts, conn: Conn, name: &Name) -> bool
    requires stands { StandsFor parts.now }
    ensures { result ≡ keeps (world_of parts.now) conn name.now }
{
    inherits(&parts.locks, conn, name).is_some()
}

/// Whether the row's key is new to the index, and the connection has a lock that is kept on its guard, which the key then
/// inherits. False where there is no such index. Db2 LUW, 'Next-key locking'.
pub fn inherits_key(parts: &Parts, conn: Conn, row: &Row, index: IndexId) -> bool
    requires stands { StandsFor parts.now }
    ensures { result ≡ is_inherited parts.now.head (world_of parts.now) conn row.now index }
{
    let key = key_of(&parts.head, index, row);
    !has_key(parts, index, &key) && keeps_name(parts, conn, &guard_in(parts, index, &key))
}
