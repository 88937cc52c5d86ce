//! What the steps ask for, decided from the state.
ghost use Rattle.std.specs.Option.{option_map};
ghost use Rattle.std.specs.Prelude.{◌≡◌, ◌<◌, ◌≤◌, Bool, false, true, length, is_none, is_some, nat_lt, IfSome, IsTrue, Option, Some};
ghost use Rattle.iso_history.specs.Legal.{Runs, may_undo};
ghost use Rattle.iso_history.specs.Looks.{may_look as look_stands};
ghost use Rattle.iso_history.specs.Nexts.{may_next};
ghost use Rattle.iso_history.specs.Phases.{phase as phase_in};
ghost use Rattle.iso_history.specs.Requests.{is_row_mode, is_table_mode, may_ask};
ghost use Rattle.iso_history.specs.Versions.{present, slots, versions};
ghost use Rattle.iso_history.specs.Writes.{is_block, may_change as change_stands};
ghost use Rattle.iso_history.specs.World.Last.{Looked};
ghost use Rattle.iso_history.specs.declared.entry.Want.{Want as Wanted};
ghost use Rattle.iso_modes.specs.declared.Mode.TheVariants as modes;
ghost use Rattle.iso_queue.specs.Locks.{holds_at_least, others_guard};
ghost use Rattle.iso_types.specs.Head.{all_fit as fit, fits_column as fits_in, is_table, row_fits};
ghost use Rattle.iso_types.specs.declared.head.Range.{Range as Bounds};
ghost use Rattle.iso_types.specs.declared.value.Name.TheVariants as names;
ghost use Rattle.iso_types.specs.declared.value.Rid.{Rid as RowKey};
ghost use Rattle.iso_types.specs.declared.value.Value.{Value as Key};
ghost use Rattle.iso_state.specs.Stands.{StandsFor, world_of};

use crate::owns::own_of;
use iso_modes::{Mode, is_same, joined};
use iso_nextkey::blocked;
use iso_state::{Parts, desk_of, hold};
use iso_types::{Column, ColumnKind, Conn, IndexId, Name, Phase, Rid, Row, TableId, Value};

/// Whether the history is not over.
pub fn is_open(parts: &Parts) -> bool
    requires stands { StandsFor parts.now }
    ensures { result ≡ true → (world_of parts.now).pace.finished ≡ false }
{
    !parts.pace.finished
}

/// Whether the head has the connection.
pub fn has_conn(parts: &Parts, conn: Conn) -> bool
    ensures { result ≡ true → conn.0 < length parts.now.head.conns }
{
    (conn.0 as usize) < parts.head.conns.len()
}

/// Whether the connection is there, and in this phase.
pub fn is_in(parts: &Parts, conn: Conn, phase: Phase) -> bool
    requires stands { StandsFor parts.now }
    ensures conn { result ≡ true → conn.0 < length parts.now.head.conns }
    ensures phase { result ≡ true → phase_in (world_of parts.now) conn ≡ phase }
{
    has_conn(parts, conn) && desk_of(parts, conn).phase == phase
}

/// Whether no Collapse is due of the connection.
fn none_due(parts: &Parts, conn: Conn) -> bool
    ensures { result ≡ is_none ((world_of parts.now).due conn) }
{
    own_of(parts, conn).due.is_none()
}

/// Whether the connection runs with no Collapse due, and the history is not over.
#[tactic(auto, using(crate::proofs::Known::runs_by))]
pub fn runs(parts: &Parts, conn: Conn) -> bool
    requires stands { StandsFor parts.now }
    ensures open { result ≡ true → (world_of parts.now).pace.finished ≡ false }
    ensures conn { result ≡ true → conn.0 < length parts.now.head.conns }
    ensures runs { result ≡ true → Runs (world_of parts.now) conn }
{
    is_open(parts) && is_in(parts, conn, Phase::Running) && none_due(parts, conn)
}

/// Whether the connection closes with no Collapse due, and the history is not over.
#[tactic(auto, using(crate::proofs::Known::closes_undoes))]
pub fn closes(parts: &Parts, conn: Conn) -> bool
    requires stands { StandsFor parts.now }
    ensures open { result ≡ true → (world_of parts.now).pace.finished ≡ false }
    ensures conn { result ≡ true → conn.0 < length parts.now.head.conns }
    ensures undoes { result ≡ true → IsTrue (may_undo (world_of parts.now) conn) }
{
    is_open(parts) && is_in(parts, conn, Phase::Closing) && none_due(parts, conn)
}

/// The slot of the last own entry, where that is a granted look.
pub fn looked_at(parts: &Parts, conn: Conn) -> Option<(TableId, Rid)>
    ensures { IfSome result (λ p. (world_of parts.now).last conn ≡ Looked p.0 p.1) }
{
    own_of(parts, conn).looked
}

/// The table of the Collapse that is due of the connection.
pub fn due_table(parts: &Parts, conn: Conn) -> Option<TableId>
    ensures { IfSome result (λ t. option_map (λ d. d.0) ((world_of parts.now).due conn) ≡ Some t) }
{
    table_of(own_of(parts, conn).due)
}

/// The table of a Collapse.
fn table_of(due: Option<(TableId, Mode)>) -> Option<TableId>
    ensures { result ≡ option_map (λ d. d.0) due }
{
    match due {
        Some(due) => Some(due.0),
        None => None,
    }
}

/// Whether the connection holds the table in IX or more.
#[tactic(auto, unfolding(iso_modes::specs::Modes::at_least))]
pub fn holds_table(parts: &Parts, conn: Conn, table: TableId) -> bool
    requires stands { StandsFor parts.now }
    ensures { result ≡ holds_at_least (world_of parts.now).holds conn (names.Table table) modes.Ix }
{
    match hold(parts, conn, &Name::Table(table)) {
        Some(hold) => is_same(joined(hold.mode, Mode::Ix), hold.mode),
        None => false,
    }
}

/// Whether the connection holds the row in X.
#[tactic(auto, unfolding(iso_modes::specs::Modes::at_least))]
fn holds_row(parts: &Parts, conn: Conn, table: TableId, rid: Rid) -> bool
    requires stands { StandsFor parts.now }
    ensures { result ≡ holds_at_least (world_of parts.now).holds conn (names.Row table rid) modes.X }
{
    match hold(parts, conn, &Name::Row(table, rid)) {
        Some(hold) => is_same(joined(hold.mode, Mode::X), hold.mode),
        None => false,
    }
}

/// Whether the table has such a slot.
fn is_slot(parts: &Parts, table: TableId, rid: Rid) -> bool
    requires stands { StandsFor parts.now }
    ensures { result ≡ nat_lt rid.0 (slots (world_of parts.now) table) }
{
    match parts.tables.get(table.0 as usize) {
        Some(slots) => rid.0 < slots.slots(),
        None => false,
    }
}

/// Whether the rid is that of a slot of the table, or the next one.
fn is_within(parts: &Parts, table: TableId, rid: Rid) -> bool
    requires stands { StandsFor parts.now }
    ensures { result ≡ true → rid.0 ≤ slots (world_of parts.now) table }
{
    match parts.tables.get(table.0 as usize) {
        Some(slots) => rid.0 <= slots.slots(),
        None => false,
    }
}

/// Whether the head has the table.
fn has_table(parts: &Parts, table: TableId) -> bool
    ensures { result ≡ is_table parts.now.head table }
{
    (table.0 as usize) < parts.head.tables.len()
}

/// Whether the mode may be asked of a table.
#[tactic(auto, unfolding(iso_history::specs::Requests::is_table_mode))]
fn is_of_tables(mode: Mode) -> bool
    ensures { result ≡ true → is_table_mode mode ≡ true }
{
    match mode {
        Mode::Is | Mode::S | Mode::Ix | Mode::X => true,
        _ => false,
    }
}

/// Whether the mode may be asked of a row.
#[tactic(auto, unfolding(iso_history::specs::Requests::is_row_mode))]
fn is_of_rows(mode: Mode) -> bool
    ensures { result ≡ true → is_row_mode mode ≡ true }
{
    match mode {
        Mode::Ns | Mode::S | Mode::U | Mode::X => true,
        _ => false,
    }
}

/// Whether the connection may ask for the lock of a table or of a row.
pub fn may_lock(parts: &Parts, conn: Conn, name: &Name, mode: Mode) -> bool
    requires stands { StandsFor parts.now }
    ensures { result ≡ true → IsTrue (may_ask parts.now.head (world_of parts.now) conn name.now mode) }
{
    match name {
        Name::Table(table) => has_table(parts, *table) && is_of_tables(mode),
        Name::Row(table, rid) => {
            is_slot(parts, *table, *rid) && is_of_rows(mode) && holds_table(parts, conn, *table)
        }
        Name::Key(..) => false,
        Name::End(_) => false,
    }
}

/// Whether the connection may look at the slot, whatever it wants of it, or behind the last one.
pub fn may_look(parts: &Parts, conn: Conn, table: TableId, rid: Rid) -> bool
    requires stands { StandsFor parts.now }
    ensures table { result ≡ true → IsTrue (is_table parts.now.head table) }
    ensures rid { result ≡ true → rid.0 ≤ slots (world_of parts.now) table }
    ensures may { (want : Wanted) → result ≡ true → rid.0 < slots (world_of parts.now) table
        → IsTrue (look_stands parts.now.head (world_of parts.now) conn table rid want) }
{
    has_table(parts, table) && is_within(parts, table, rid) && holds_table(parts, conn, table)
}

/// Whether the connection may scan the index, guarded or not.
pub fn may_scan(parts: &Parts, conn: Conn, index: IndexId) -> bool
    requires stands { StandsFor parts.now }
    ensures { (range : Bounds) (after : Option (Key × RowKey)) (guarded : Bool) → result ≡ true
        → IsTrue (may_next parts.now.head (world_of parts.now) conn index range after guarded) }
{
    match parts.head.indexes.get(index.0 as usize) {
        Some(def) => holds_table(parts, conn, def.table),
        None => false,
    }
}

/// Whether the connection may ask for the end of the index, as a write does that waits there.
fn may_ask_end(parts: &Parts, conn: Conn, index: IndexId) -> bool
    requires stands { StandsFor parts.now }
    ensures { result ≡ true → IsTrue (may_ask parts.now.head (world_of parts.now) conn (names.End index) modes.Nw) }
{
    match parts.head.indexes.get(index.0 as usize) {
        Some(def) => holds_table(parts, conn, def.table),
        None => false,
    }
}

/// Whether another connection's lock on the name is in the way of a new key.
fn is_guarded(parts: &Parts, conn: Conn, name: &Name) -> bool
    requires stands { StandsFor parts.now }
    ensures { result ≡ others_guard (world_of parts.now).holds conn name.now }
{
    blocked(&parts.locks, conn, name)
}

/// Whether a write of the connection may wait at the end of the index, where another connection's lock is in its way.
pub fn may_block(parts: &Parts, conn: Conn, index: IndexId) -> bool
    requires stands { StandsFor parts.now }
    ensures ask { result ≡ true → IsTrue (may_ask parts.now.head (world_of parts.now) conn (names.End index) modes.Nw) }
    ensures blocks { result ≡ true → IsTrue (is_block parts.now.head (world_of parts.now) conn (names.End index) modes.Nw) }
{
    may_ask_end(parts, conn, index) && is_guarded(parts, conn, &Name::End(index))
}

/// Whether the slot shows a row.
fn is_live(parts: &Parts, table: TableId, rid: Rid) -> bool
    requires stands { StandsFor parts.now }
    ensures { result ≡ true → is_some (present (versions (world_of parts.now) table rid)) ≡ true }
{
    match parts.tables.get(table.0 as usize) {
        Some(slots) => match slots.get(rid) {
            Some(slot) => slot.live,
            None => false,
        },
        None => false,
    }
}

/// Whether the connection may change the row of a slot.
pub fn may_change(parts: &Parts, conn: Conn, table: TableId, rid: Rid) -> bool
    requires stands { StandsFor parts.now }
    ensures { result ≡ true → change_stands parts.now.head (world_of parts.now) conn table rid ≡ true }
{
    holds_table(parts, conn, table)
        && holds_row(parts, conn, table, rid)
        && is_live(parts, table, rid)
}

/// Whether the value is a small number for a column of integers.
fn fits_column(column: &Column, value: &Value) -> bool
    ensures { result ≡ true → fits_in column.now value.now ≡ true }
{
    match column.kind {
        ColumnKind::Integer => match value {
            Value::Int(number) => *number >= 0 && *number <= 1000,
            _ => false,
        },
        _ => false,
    }
}

/// Whether the one value fits the one column.
fn all_fit(columns: &[Column], values: &[Value]) -> bool
    ensures { result ≡ true → fit columns.now values.now ≡ true }
{
    match (columns, values) {
        ([column], [value]) => fits_column(column, value),
        _ => false,
    }
}

/// Whether the row of one small number fits the table of one column.
pub fn fits(parts: &Parts, table: TableId, row: &Row) -> bool
    ensures { result ≡ true → row_fits parts.now.head table row.now ≡ true }
{
    match parts.head.tables.get(table.0 as usize) {
        Some(def) => all_fit(def.columns.as_slice(), row.as_slice()),
        None => false,
    }
}
