ghost use Rattle.std.specs.Prelude.{◌≡◌, ◌++◌, OnOk};
ghost use Rattle.iso_render.specs.Texts.{mode_word, state_word, conn_name, table_name, index_name, name_text};

use crate::put::{put, put_number, put_value};
use iso_modes::{LockState, Mode};
use iso_types::{Conn, Head, IndexId, Memory, Name, TableId};

// A mode as Db2 names it.
pub fn word_of(mode: Mode) -> &'static [u8]
    ensures { result.now ≡ mode_word mode }
{
    match mode {
        Mode::In => b"IN",
        Mode::Is => b"IS",
        Mode::Ns => b"NS",
        Mode::S => b"S",
        Mode::Ix => b"IX",
        Mode::Six => b"SIX",
        Mode::U => b"U",
        Mode::X => b"X",
        Mode::Nw => b"NW",
        Mode::Z => b"Z",
    }
}

// The state of a lock in a snapshot.
pub fn state_of(state: LockState) -> &'static [u8]
    ensures { result.now ≡ state_word state }
{
    match state {
        LockState::Granted => b"GRANTED",
        LockState::Converting => b"CONVERTING",
        LockState::Waiting => b"WAITING",
    }
}

// Appends the connection's name; nothing where the head has no such connection.
pub fn put_conn(out: &mut Vec<u8>, head: &Head, conn: Conn) -> Result<(), Memory>
    ensures { OnOk result (out.new.items ≡ out.old.items ++ conn_name head.now conn) }
{
    match head.conns.get(usize::from(conn.0)) {
        Some(def) => put(out, def.name.as_bytes()),
        None => Ok(()),
    }
}

// Appends the table's name; nothing where the head has no such table.
pub fn put_table(out: &mut Vec<u8>, head: &Head, table: TableId) -> Result<(), Memory>
    ensures { OnOk result (out.new.items ≡ out.old.items ++ table_name head.now table) }
{
    match head.tables.get(usize::from(table.0)) {
        Some(def) => put(out, def.name.as_bytes()),
        None => Ok(()),
    }
}

// Appends the index's name; nothing where the head has no such index.
pub fn put_index(out: &mut Vec<u8>, head: &Head, index: IndexId) -> Result<(), Memory>
    ensures { OnOk result (out.new.items ≡ out.old.items ++ index_name head.now index) }
{
    match head.indexes.get(usize::from(index.0)) {
        Some(def) => put(out, def.name.as_bytes()),
        None => Ok(()),
    }
}

// Appends a lock name.
pub fn put_name(out: &mut Vec<u8>, head: &Head, name: &Name) -> Result<(), Memory>
    ensures { OnOk result (out.new.items ≡ out.old.items ++ name_text head.now name.now) }
{
    match name {
        Name::Table(table) => {
            put(out, b"TABLE ")?;
            put_table(out, head, *table)
        }
        Name::Row(table, rid) => {
            put(out, b"ROW ")?;
            put_table(out, head, *table)?;
            put(out, b" ")?;
            put_number(out, u64::from(rid.0))
        }
        Name::Key(index, value) => {
            put(out, b"KEY ")?;
            put_index(out, head, *index)?;
            put(out, b" ")?;
            put_value(out, value)
        }
        Name::End(index) => {
            put(out, b"END ")?;
            put_index(out, head, *index)
        }
    }
}
