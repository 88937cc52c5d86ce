//! What the keys of a row come to at the indexes of its table, in order, and how many lock slots they need.
ghost use Rattle.std.specs.Option.{option_copied};
ghost use Rattle.std.specs.Prelude.{◌≡◌, ◌∷◌, [], ◌<◌, ◌≤◌, length};
ghost use Rattle.iso_history.specs.Writes.{judged_guard, judged_index, judged_indexes, judged_key, key_need as need_of_keys};
ghost use Rattle.iso_state.specs.Stands.{StandsFor, world_of};
ghost use Rattle.iso_types.specs.Head.{indexes_of};
ghost use Rattle.iso_types.specs.Ids.{table_eq};
ghost use Rattle.iso_writes.specs.Answers.{coming_as};
ghost use Rattle.iso_writes.specs.Ordered.{index_numbered, is_of, needed, of_table};

use crate::coming::Coming;
use crate::keys::{guard_in, inherits_key, is_guarded, key_of, row_has_key};
use crate::rivals::judge_unique;
use iso_modes::Mode;
use iso_state::{Parts, covered};
use iso_types::{Conn, Head, IndexId, Name, Rid, Row, TableId, Value};

/// Whether another connection's lock on the key's guard is in the way. Db2 LUW, 'Next-key locking'.
fn judge_guard(parts: &Parts, conn: Conn, index: IndexId, key: &Value) -> Coming
    requires stands { StandsFor parts.now }
    ensures { coming_as result ≡ judged_guard (world_of parts.now) conn index key.now }
{
    let guard = guard_in(parts, index, key);
    if is_guarded(parts, conn, &guard) {
        Coming::Blocked(guard, Mode::Nw)
    } else {
        Coming::Done
    }
}

/// What comes of a key that is new to its row: first the entries of a unique index, then the guard.
fn judge_key(
    parts: &Parts,
    conn: Conn,
    table: TableId,
    rid: Rid,
    index: IndexId,
    key: &Value,
) -> Coming
    requires stands { StandsFor parts.now }
    requires conn { conn.0 < length parts.now.head.conns }
    ensures { coming_as result ≡ judged_key parts.now.head (world_of parts.now) conn table rid index key.now }
{
    let unique = judge_unique(parts, conn, table, index, key, rid);
    if unique.is_done() {
        judge_guard(parts, conn, index, key)
    } else {
        unique
    }
}

/// What comes of the row's key in the index: nothing where the old row has it, too.
fn judge_index(
    parts: &Parts,
    conn: Conn,
    table: TableId,
    rid: Rid,
    old: Option<&Row>,
    row: &Row,
    index: IndexId,
) -> Coming
    requires stands { StandsFor parts.now }
    requires conn { conn.0 < length parts.now.head.conns }
    ensures { coming_as result ≡ judged_index parts.now.head (world_of parts.now) conn table rid (option_copied old.entry) row.now index }
{
    let key = key_of(&parts.head, index, row);
    if row_has_key(&parts.head, index, &key, old) {
        Coming::Done
    } else {
        judge_key(parts, conn, table, rid, index, &key)
    }
}

#[tactic(auto, unfolding(iso_types::specs::Ids::table_eq))]
fn same_table(a: TableId, b: TableId) -> bool
    ensures { result ≡ table_eq a b }
{
    a.0 == b.0
}

/// Whether the index is the table's.
fn is_of_table(head: &Head, table: TableId, index: IndexId) -> bool
    ensures { result ≡ is_of head.now table index }
{
    match head.indexes.get(index.0 as usize) {
        Some(declared) => same_table(declared.table, table),
        None => false,
    }
}

/// The index with this number.
fn numbered(head: &Head, at: usize) -> IndexId
    requires at { at < length head.now.indexes }
    requires few { length head.now.indexes ≤ 32 }
    ensures { result ≡ index_numbered at }
{
    IndexId(at as u8)
}

/// What comes of the row's key in the index with this number, where it is the table's.
fn judge_at(
    parts: &Parts,
    conn: Conn,
    table: TableId,
    rid: Rid,
    old: Option<&Row>,
    row: &Row,
    index: IndexId,
) -> Coming
    requires stands { StandsFor parts.now }
    requires conn { conn.0 < length parts.now.head.conns }
    ensures { coming_as result
        ≡ judged_indexes parts.now.head (world_of parts.now) conn table rid (option_copied old.entry) row.now (of_table parts.now.head table (index ∷ [])) }
{
    if is_of_table(&parts.head, table, index) {
        judge_index(parts, conn, table, rid, old, row, index)
    } else {
        Coming::Done
    }
}

/// What comes of the row's keys at the indexes of its table, in order of declaration.
pub fn judge_indexes(
    parts: &Parts,
    conn: Conn,
    table: TableId,
    rid: Rid,
    old: Option<&Row>,
    row: &Row,
) -> Coming
    requires stands { StandsFor parts.now }
    requires conn { conn.0 < length parts.now.head.conns }
    requires few { length parts.now.head.indexes ≤ 32 }
    ensures { coming_as result
        ≡ judged_indexes parts.now.head (world_of parts.now) conn table rid (option_copied old.entry) row.now (indexes_of parts.now.head table) }
{
    for at in 0..parts.head.indexes.len() {
        let index = numbered(&parts.head, at);
        let coming = judge_at(parts, conn, table, rid, old, row, index);
        if !coming.is_done() {
            return coming;
        }
    }
    Coming::Done
}

/// The lock slots that the row's key in the index needs: one where it is inherited, and not covered by a lock on the table.
fn need_for(parts: &Parts, conn: Conn, row: &Row, index: IndexId) -> u32
    requires stands { StandsFor parts.now }
    ensures { result ≡ needed parts.now.head (world_of parts.now) conn row.now (index ∷ []) }
{
    let key = Name::Key(index, key_of(&parts.head, index, row));
    if inherits_key(parts, conn, row, index) && !covered(parts, conn, &key, Mode::S) {
        1
    } else {
        0
    }
}

/// The same where the index is the table's.
fn need_at(parts: &Parts, conn: Conn, table: TableId, row: &Row, index: IndexId) -> u32
    requires stands { StandsFor parts.now }
    ensures need { result ≡ needed parts.now.head (world_of parts.now) conn row.now (of_table parts.now.head table (index ∷ [])) }
    ensures few { result ≤ 1 }
{
    if is_of_table(&parts.head, table, index) {
        need_for(parts, conn, row, index)
    } else {
        0
    }
}

/// The lock slots that the keys which the row inherits need.
pub fn key_need(parts: &Parts, conn: Conn, table: TableId, row: &Row) -> u32
    requires stands { StandsFor parts.now }
    requires few { length parts.now.head.indexes ≤ 32 }
    ensures need { result ≡ need_of_keys parts.now.head (world_of parts.now) conn table row.now }
    ensures few { result ≤ 32 }
{
    let mut need = 0u32;
    for at in 0..parts.head.indexes.len() {
        let index = numbered(&parts.head, at);
        need += need_at(parts, conn, table, row, index);
    }
    need
}
