//! The steps of looks and of index scans, as an agent makes them.
ghost use Rattle.std.specs.Prelude.{◌≡◌, ◌≤◌, ◌<◌, ◌&&◌, length, false, true, IsTrue};
ghost use Rattle.iso_history.specs.Legal.{Runs, is_fresh_on as is_fresh};
ghost use Rattle.iso_history.specs.Looks.{may_look};
ghost use Rattle.iso_history.specs.Nexts.{may_next};
ghost use Rattle.iso_history.specs.Outcomes.{look_act};
ghost use Rattle.iso_history.specs.Versions.{slots};
ghost use Rattle.iso_state.specs.Stands.{StandsFor, is_claimed, world_of};
ghost use Rattle.iso_types.specs.Head.{is_table};
ghost use Rattle.iso_reads.specs.Nexts.{next_act};
ghost use Rattle.iso_agent.specs.Steps.{HasStepped, keeps_pin, kept_of_look, kept_of_next, leaves_fresh as may_leave, pins};
ghost use Rattle.iso_conduct.specs.declared.moves.Move.TheVariants as Moves;

use crate::agent::Kept;
use crate::stepped::{Stepped, cause_of, keep, keep_escalation, waits};
use iso_conduct::Told;
use iso_history::Want;
use iso_reads::{Looked, Stepped as NextStepped, look, next_entry};
use iso_state::{Parts, desk_of, is_fresh_on};
use iso_types::{Conn, IndexId, Name, Range, Rid, TableId, Value};
use std::alloc::Global;

/// What is kept of the answer to a look.
fn keep_look(looked: Looked, fresh: bool, waits: bool) -> Kept
    ensures { result ≡ kept_of_look looked fresh waits }
{
    match looked {
        Looked::Shown(row) => keep(Told::Shown(row, fresh)),
        Looked::Pinned(past) => Kept::Rebuild(past),
        Looked::EndOfTable => keep(Told::EndOfTable),
        Looked::Queued => keep(Told::Queued),
        Looked::TimedOut => keep(Told::TimedOut),
        Looked::Escalates(table) => keep_escalation(Told::Escalates(table), waits),
        Looked::Refused(code) => keep(Told::Refused(code)),
    }
}

/// Whether a look of this want can leave a Fresh hold on its row: it locks the row, or comes next after a claim.
fn leaves_fresh(parts: &Parts, conn: Conn, want: Want) -> bool
    requires stands { StandsFor parts.now }
    requires conn { conn.0 < length parts.now.head.conns }
    ensures { result ≡ may_leave want (is_claimed ((world_of parts.now).last conn)) }
{
    match want {
        Want::Dirty => desk_of(parts, conn).claimed,
        Want::Current => desk_of(parts, conn).claimed,
        Want::Settled => desk_of(parts, conn).claimed,
        Want::Steady => true,
        Want::Repeat => true,
        Want::Alter => true,
        Want::AlterKept => true,
    }
}

/// Whether the connection has a Fresh hold on the name, which it can have where it `may`.
fn is_fresh_where(parts: &Parts, conn: Conn, name: &Name, may: bool) -> bool
    requires stands { StandsFor parts.now }
    ensures { result ≡ (may && is_fresh (world_of parts.now) conn name.now) }
{
    may && is_fresh_on(parts, conn, name)
}

/// Makes the entry of a look. The lock list is asked for a Fresh hold only where there can be one.
pub fn make_look(
    alloc: Global,
    parts: &mut Parts,
    conn: Conn,
    table: TableId,
    rid: Rid,
    want: Want,
) -> Stepped
    requires stands { StandsFor parts.old }
    requires open { (world_of parts.old).pace.finished ≡ false }
    requires conn { conn.0 < length parts.old.head.conns }
    requires runs { Runs (world_of parts.old) conn }
    requires table { IsTrue (is_table parts.old.head table) }
    requires rid { rid.0 ≤ slots (world_of parts.old) table }
    requires may { rid.0 < slots (world_of parts.old) table → IsTrue (may_look parts.old.head (world_of parts.old) conn table rid want) }
    ensures stands { StandsFor parts.new }
    ensures head { parts.new.head ≡ parts.old.head }
    ensures stepped { HasStepped parts.old.head parts.old.history.items parts.new.history.items conn (look_act parts.old.head (world_of parts.old) conn table rid want) result }
    ensures pinned { pins parts.old.head (world_of parts.old) conn (Moves.Look table rid want) ≡ true → keeps_pin result ≡ true }
{
    let may = leaves_fresh(parts, conn, want);
    match look(alloc, parts, conn, table, rid, want) {
        Ok(looked) => {
            let fresh = is_fresh_where(parts, conn, &Name::Row(table, rid), may);
            Stepped::Goes(keep_look(looked, fresh, waits(parts, conn)))
        }
        Err(fault) => Stepped::Stops(cause_of(fault)),
    }
}

/// What is kept of the answer to a step of an index scan.
fn keep_next(stepped: NextStepped, waits: bool) -> Kept
    ensures { result ≡ kept_of_next stepped waits }
{
    match stepped {
        NextStepped::At(key, rid) => keep(Told::At(key, rid)),
        NextStepped::Past => keep(Told::Past),
        NextStepped::Queued => keep(Told::Queued),
        NextStepped::TimedOut => keep(Told::TimedOut),
        NextStepped::Escalates(table) => keep_escalation(Told::Escalates(table), waits),
        NextStepped::Refused(code) => keep(Told::Refused(code)),
    }
}

/// Makes the entry of a step of an index scan.
pub fn make_next(
    alloc: Global,
    parts: &mut Parts,
    conn: Conn,
    index: IndexId,
    range: &Range,
    after: Option<(Value, Rid)>,
    guarded: bool,
) -> Stepped
    requires stands { StandsFor parts.old }
    requires open { (world_of parts.old).pace.finished ≡ false }
    requires conn { conn.0 < length parts.old.head.conns }
    requires runs { Runs (world_of parts.old) conn }
    requires may { IsTrue (may_next parts.old.head (world_of parts.old) conn index range.now after guarded) }
    ensures stands { StandsFor parts.new }
    ensures head { parts.new.head ≡ parts.old.head }
    ensures stepped { HasStepped parts.old.head parts.old.history.items parts.new.history.items conn (next_act parts.old.head (world_of parts.old) conn index range.now after guarded) result }
{
    match next_entry(alloc, parts, conn, index, range, after, guarded) {
        Ok(stepped) => Stepped::Goes(keep_next(stepped, waits(parts, conn))),
        Err(fault) => Stepped::Stops(cause_of(fault)),
    }
}
