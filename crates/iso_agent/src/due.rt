//! The step that is due of a statement.
ghost use Rattle.std.specs.Prelude.{◌≡◌, ◌<◌, length, false, true, None};
ghost use Rattle.iso_conduct.specs.Conduct.{quiet};
ghost use Rattle.iso_conduct.specs.Points.{due};
ghost use Rattle.iso_conduct.specs.Standing.{MayGoOn};
ghost use Rattle.iso_state.specs.Stands.{StandsFor, world_of};
ghost use Rattle.iso_agent.specs.Scans.{ScansWithin};
ghost use Rattle.iso_agent.specs.Steps.{HasStepped, act_due, goes_on, keeps_pin, pins};

use crate::ends::{
    make_back, make_commit, make_mark, make_reply, make_rollback, make_set, make_undo,
};
use crate::locks::{make_claim, make_collapse, make_free, make_lock};
use crate::looks::{make_look, make_next};
use crate::stepped::Stepped;
use crate::writes::{make_delete, make_insert, make_refusal, make_update};
use iso_conduct::{Move, Task};
use iso_state::Parts;
use iso_types::Conn;
use std::alloc::Global;

/// Makes the entry of the step that is due, whichever it is.
fn step_any(alloc: Global, parts: &mut Parts, conn: Conn, task: &mut Task) -> Stepped
    requires stands { StandsFor parts.old }
    requires open { (world_of parts.old).pace.finished ≡ false }
    requires conn { conn.0 < length parts.old.head.conns }
    requires may { MayGoOn parts.old.head (world_of parts.old) conn task.old }
    requires loud { quiet (world_of parts.old) conn (due task.old) ≡ None }
    requires scans { ScansWithin parts.old.head (world_of parts.old) task.old }
    ensures stands { StandsFor parts.new }
    ensures head { parts.new.head ≡ parts.old.head }
    ensures stepped { HasStepped parts.old.head parts.old.history.items parts.new.history.items conn (act_due parts.old.head (world_of parts.old) conn task.old) result }
    ensures same { goes_on result ≡ true → task.new ≡ task.old }
    ensures pinned { pins parts.old.head (world_of parts.old) conn (due task.old) ≡ true → keeps_pin result ≡ true }
{
    match task.next() {
        Move::Lock { name, mode } => make_lock(parts, conn, name, mode),
        Move::Claim => make_claim(parts, conn),
        Move::Look { table, rid, want } => make_look(alloc, parts, conn, table, rid, want),
        Move::Next {
            index,
            range,
            after,
            guarded,
        } => make_next(alloc, parts, conn, index, &range, after, guarded),
        Move::Free { table, rid } => make_free(parts, conn, table, rid),
        Move::Collapse { table } => make_collapse(parts, conn, table),
        Move::Insert { table } => make_insert(alloc, parts, conn, table, task.row()),
        Move::Update { table, rid } => make_update(alloc, parts, conn, table, rid, task.row()),
        Move::Delete { table, rid } => make_delete(parts, conn, table, rid),
        Move::Refuse { code } => make_refusal(parts, conn, code),
        Move::Undo { floor } => make_undo(parts, conn, floor),
        Move::Mark { name } => make_mark(parts, conn, name),
        Move::Back { name } => make_back(parts, conn, name),
        Move::Set { level, may_wait } => make_set(parts, conn, level, may_wait),
        Move::Commit => make_commit(parts, conn),
        Move::RollbackEnd { code, reason } => make_rollback(parts, conn, code, reason),
        Move::Reply { code, changed } => {
            let rows = task.take_rows(alloc);
            make_reply(parts, conn, code, changed, rows)
        }
    }
}

/// Makes the entry of the step that is due, which is no look. A step of an index scan is asked for first: its range is not copied.
fn step_on(alloc: Global, parts: &mut Parts, conn: Conn, task: &mut Task) -> Stepped
    requires stands { StandsFor parts.old }
    requires open { (world_of parts.old).pace.finished ≡ false }
    requires conn { conn.0 < length parts.old.head.conns }
    requires may { MayGoOn parts.old.head (world_of parts.old) conn task.old }
    requires loud { quiet (world_of parts.old) conn (due task.old) ≡ None }
    requires scans { ScansWithin parts.old.head (world_of parts.old) task.old }
    ensures stands { StandsFor parts.new }
    ensures head { parts.new.head ≡ parts.old.head }
    ensures stepped { HasStepped parts.old.head parts.old.history.items parts.new.history.items conn (act_due parts.old.head (world_of parts.old) conn task.old) result }
    ensures same { goes_on result ≡ true → task.new ≡ task.old }
    ensures pinned { pins parts.old.head (world_of parts.old) conn (due task.old) ≡ true → keeps_pin result ≡ true }
{
    match task.due_next() {
        Some((next, range)) => make_next(
            alloc,
            parts,
            conn,
            next.index,
            range,
            next.after,
            next.guarded,
        ),
        None => step_any(alloc, parts, conn, task),
    }
}

/// Makes the entry of the step that is due, which may be made and is not answered without an entry. The task is told nothing;
/// only a reply takes its rows. A look is asked for first, since most entries of a scan are looks.
pub fn step_due(alloc: Global, parts: &mut Parts, conn: Conn, task: &mut Task) -> Stepped
    requires stands { StandsFor parts.old }
    requires open { (world_of parts.old).pace.finished ≡ false }
    requires conn { conn.0 < length parts.old.head.conns }
    requires may { MayGoOn parts.old.head (world_of parts.old) conn task.old }
    requires loud { quiet (world_of parts.old) conn (due task.old) ≡ None }
    requires scans { ScansWithin parts.old.head (world_of parts.old) task.old }
    ensures stands { StandsFor parts.new }
    ensures head { parts.new.head ≡ parts.old.head }
    ensures stepped { HasStepped parts.old.head parts.old.history.items parts.new.history.items conn (act_due parts.old.head (world_of parts.old) conn task.old) result }
    ensures same { goes_on result ≡ true → task.new ≡ task.old }
    ensures pinned { pins parts.old.head (world_of parts.old) conn (due task.old) ≡ true → keeps_pin result ≡ true }
{
    match task.due_look() {
        Some(look) => make_look(alloc, parts, conn, look.table, look.rid, look.want),
        None => step_on(alloc, parts, conn, task),
    }
}
