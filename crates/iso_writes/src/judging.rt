//! What a write comes to before anything is written.
ghost use Rattle.std.specs.Prelude.{◌≡◌, ◌<◌, ◌≤◌, ◌+◌, length, true, nat_le};
ghost use Rattle.iso_history.specs.Versions.{next_rid, slots};
ghost use Rattle.iso_history.specs.Writes.{deletes, inserts, judged_indexes, judged_log, judged_need, key_need as need_of_keys, may_change, or_else, row_need as need_of_row, updates};
ghost use Rattle.iso_types.specs.Head.{indexes_of, row_fits};
ghost use Rattle.std.specs.Option.{option_copied};
ghost use Rattle.iso_state.specs.Stands.{StandsFor, world_of};
ghost use Rattle.iso_writes.specs.Answers.{coming_as, past_or_done};

use crate::changing::{is_log_full, next_slot};
use crate::coming::Coming;
use crate::indexes::{judge_indexes, key_need};
use crate::slots::present_row;
use iso_modes::Mode;
use iso_state::{Parts, covered, is_limited};
use iso_types::{Conn, Name, Rid, Row, TableId};

/// Whether a deletion is past the log. It needs no lock, so that it is at no limit.
pub fn is_delete_past(parts: &Parts, conn: Conn) -> bool
    requires stands { StandsFor parts.now }
    ensures { past_or_done result ≡ deletes parts.now.head (world_of parts.now) conn }
{
    is_log_full(parts)
}

/// Whether the table has all its slots.
fn is_table_full(parts: &Parts, table: TableId) -> bool
    requires stands { StandsFor parts.now }
    requires table { table.0 < length parts.now.tables }
    ensures { result ≡ nat_le 65536 (slots (world_of parts.now) table) }
{
    next_slot(parts, table).0 >= 65536
}

/// The lock slots that the table's next row needs: none where the connection's table lock covers X on it.
fn row_need(parts: &Parts, conn: Conn, table: TableId) -> u32
    requires stands { StandsFor parts.now }
    requires table { table.0 < length parts.now.tables }
    ensures need { result ≡ need_of_row parts.now.head (world_of parts.now) conn table (next_rid (world_of parts.now) table) }
    ensures few { result ≤ 1 }
{
    let row = Name::Row(table, next_slot(parts, table));
    if covered(parts, conn, &row, Mode::X) {
        0
    } else {
        1
    }
}

/// What comes of a need of so many lock slots, and then of one more change of the log.
fn judge_need(parts: &Parts, conn: Conn, need: u32) -> Coming
    requires stands { StandsFor parts.now }
    requires conn { conn.0 < length parts.now.head.conns }
    ensures { coming_as result
        ≡ or_else (judged_need parts.now.head (world_of parts.now) conn need) (judged_log parts.now.head (world_of parts.now)) }
{
    if is_limited(parts, conn, need) {
        Coming::AtLimit
    } else if is_log_full(parts) {
        Coming::PastLog
    } else {
        Coming::Done
    }
}

/// What comes of the keys of a row in its slot, where it replaces the old row, and then of its need: that of its keys, and so
/// many lock slots more.
fn judge_row(
    parts: &Parts,
    conn: Conn,
    table: TableId,
    rid: Rid,
    old: Option<&Row>,
    row: &Row,
    more: u32,
) -> Coming
    requires stands { StandsFor parts.now }
    requires conn { conn.0 < length parts.now.head.conns }
    requires more { more ≤ 1 }
    ensures { coming_as result
        ≡ or_else (judged_indexes parts.now.head (world_of parts.now) conn table rid (option_copied old.entry) row.now (indexes_of parts.now.head table))
        (or_else (judged_need parts.now.head (world_of parts.now) conn
        (more + need_of_keys parts.now.head (world_of parts.now) conn table row.now))
        (judged_log parts.now.head (world_of parts.now))) }
{
    let coming = judge_indexes(parts, conn, table, rid, old, row);
    if coming.is_done() {
        judge_need(parts, conn, more + key_need(parts, conn, table, row))
    } else {
        coming
    }
}

/// What an insertion of the row into the table's next slot comes to. Its cost is that of `judge_unique` for each index of the
/// table, and of some looks into the lock list.
pub fn judge_insert(parts: &Parts, conn: Conn, table: TableId, row: &Row) -> Coming
    requires stands { StandsFor parts.now }
    requires conn { conn.0 < length parts.now.head.conns }
    requires row { row_fits parts.now.head table row.now ≡ true }
    ensures { coming_as result ≡ inserts parts.now.head (world_of parts.now) conn table row.now }
{
    if is_table_full(parts, table) {
        return Coming::Full;
    }
    let rid = next_slot(parts, table);
    let more = row_need(parts, conn, table);
    judge_row(parts, conn, table, rid, None, row, more)
}

/// What an update of a slot that the connection may change comes to. Its cost is that of `judge_unique` for each index of the
/// table where the key changes, and of some looks into the lock list.
pub fn judge_update(parts: &Parts, conn: Conn, table: TableId, rid: Rid, row: &Row) -> Coming
    requires stands { StandsFor parts.now }
    requires conn { conn.0 < length parts.now.head.conns }
    requires may { may_change parts.now.head (world_of parts.now) conn table rid ≡ true }
    ensures { coming_as result ≡ updates parts.now.head (world_of parts.now) conn table rid row.now }
{
    judge_row(
        parts,
        conn,
        table,
        rid,
        present_row(parts, table, rid),
        row,
        0,
    )
}
