//! The steps of undos, savepoints, settings, and the ends of statements, as an agent makes them.
ghost use Rattle.std.specs.Prelude.{◌≡◌, ◌<◌, ◌++◌, [], ◌∷◌, length, false, true, IsTrue, is_some, unwrap_or};
ghost use Rattle.iso_conduct.specs.Conduct.{closing_act, has_left};
ghost use Rattle.iso_history.specs.Legal.{RollbackStands, Runs, may_undo};
ghost use Rattle.iso_history.specs.Makers.{by_agent};
ghost use Rattle.iso_history.specs.Marks.{mark_of};
ghost use Rattle.iso_history.specs.Outcomes.{last_record};
ghost use Rattle.iso_history.specs.Phases.{phase};
ghost use Rattle.iso_history.specs.Records.{left_of};
ghost use Rattle.iso_history.specs.declared.entry.Act.TheVariants as acts;
ghost use Rattle.iso_state.specs.Stands.{StandsFor, world_of};
ghost use Rattle.iso_agent.specs.Steps.{HasStepped};

use crate::stepped::{Stepped, cause_of, keep};
use iso_conduct::Told;
use iso_ends::{back, commit, ended, mark, reply, rollback_end, set, undo_one};
use iso_state::Parts;
use iso_types::{Conn, Isolation, Phase, Rows, Text};

/// Makes the entry of an undo: the unit has a record at or above the floor.
pub fn make_undo(parts: &mut Parts, conn: Conn, floor: u32) -> Stepped
    requires stands { StandsFor parts.old }
    requires open { (world_of parts.old).pace.finished ≡ false }
    requires conn { conn.0 < length parts.old.head.conns }
    requires may { IsTrue (may_undo (world_of parts.old) conn) }
    requires left { has_left (world_of parts.old) conn floor ≡ true }
    ensures stands { StandsFor parts.new }
    ensures head { parts.new.head ≡ parts.old.head }
    ensures stepped { HasStepped parts.old.head parts.old.history.items parts.new.history.items conn (acts.Undo (unwrap_or (last_record (world_of parts.old) conn) 0)) result }
{
    if undo_one(parts, conn, floor) {
        Stepped::Goes(keep(Told::Undone(true)))
    } else {
        unreachable!()
    }
}

/// Makes the entry of a savepoint.
pub fn make_mark(parts: &mut Parts, conn: Conn, name: Text) -> Stepped
    requires stands { StandsFor parts.old }
    requires open { (world_of parts.old).pace.finished ≡ false }
    requires conn { conn.0 < length parts.old.head.conns }
    requires runs { Runs (world_of parts.old) conn }
    ensures stands { StandsFor parts.new }
    ensures head { parts.new.head ≡ parts.old.head }
    ensures stepped { HasStepped parts.old.head parts.old.history.items parts.new.history.items conn (acts.Mark name) result }
{
    match mark(parts, conn, name) {
        Ok(()) => Stepped::Goes(keep(Told::Done)),
        Err(fault) => Stepped::Stops(cause_of(fault)),
    }
}

/// Makes the entry of a way back to a savepoint that the unit has.
pub fn make_back(parts: &mut Parts, conn: Conn, name: Text) -> Stepped
    requires stands { StandsFor parts.old }
    requires open { (world_of parts.old).pace.finished ≡ false }
    requires conn { conn.0 < length parts.old.head.conns }
    requires runs { Runs (world_of parts.old) conn }
    requires there { IsTrue (is_some (mark_of ((world_of parts.old).marks conn) name)) }
    ensures stands { StandsFor parts.new }
    ensures head { parts.new.head ≡ parts.old.head }
    ensures stepped { HasStepped parts.old.head parts.old.history.items parts.new.history.items conn (acts.Back name) result }
{
    match back(parts, conn, name) {
        Ok(Some(at)) => Stepped::Goes(keep(Told::Floor(Some(at)))),
        Ok(None) => unreachable!(),
        Err(fault) => Stepped::Stops(cause_of(fault)),
    }
}

/// Makes the entry of another setting.
pub fn make_set(parts: &mut Parts, conn: Conn, level: Isolation, may_wait: bool) -> Stepped
    requires stands { StandsFor parts.old }
    requires open { (world_of parts.old).pace.finished ≡ false }
    requires conn { conn.0 < length parts.old.head.conns }
    requires runs { Runs (world_of parts.old) conn }
    ensures stands { StandsFor parts.new }
    ensures head { parts.new.head ≡ parts.old.head }
    ensures stepped { HasStepped parts.old.head parts.old.history.items parts.new.history.items conn (acts.Set level may_wait) result }
{
    match set(parts, conn, level, may_wait) {
        Ok(()) => Stepped::Goes(keep(Told::Done)),
        Err(fault) => Stepped::Stops(cause_of(fault)),
    }
}

/// Makes the entry of a commit.
pub fn make_commit(parts: &mut Parts, conn: Conn) -> Stepped
    requires stands { StandsFor parts.old }
    requires open { (world_of parts.old).pace.finished ≡ false }
    requires conn { conn.0 < length parts.old.head.conns }
    requires runs { Runs (world_of parts.old) conn }
    ensures stands { StandsFor parts.new }
    ensures head { parts.new.head ≡ parts.old.head }
    ensures stepped { HasStepped parts.old.head parts.old.history.items parts.new.history.items conn acts.Commit result }
{
    commit(parts, conn);
    Stepped::Over
}

/// Makes the entry of a rollback.
pub fn make_rollback(parts: &mut Parts, conn: Conn, code: i32, reason: u8) -> Stepped
    requires stands { StandsFor parts.old }
    requires open { (world_of parts.old).pace.finished ≡ false }
    requires conn { conn.0 < length parts.old.head.conns }
    requires ends { RollbackStands (world_of parts.old) conn code reason (phase (world_of parts.old) conn) }
    requires left { left_of (world_of parts.old) conn ≡ [] }
    ensures stands { StandsFor parts.new }
    ensures head { parts.new.head ≡ parts.old.head }
    ensures stepped { HasStepped parts.old.head parts.old.history.items parts.new.history.items conn (acts.Rollback code reason) result }
{
    rollback_end(parts, conn, code, reason);
    Stepped::Over
}

/// Makes the entry of an answer.
pub fn make_reply(parts: &mut Parts, conn: Conn, code: i32, changed: u32, rows: Rows) -> Stepped
    requires stands { StandsFor parts.old }
    requires open { (world_of parts.old).pace.finished ≡ false }
    requires conn { conn.0 < length parts.old.head.conns }
    requires runs { Runs (world_of parts.old) conn }
    ensures stands { StandsFor parts.new }
    ensures head { parts.new.head ≡ parts.old.head }
    ensures stepped { HasStepped parts.old.head parts.old.history.items parts.new.history.items conn (acts.Reply code changed rows) result }
{
    match reply(parts, conn, code, changed, rows) {
        Ok(()) => Stepped::Over,
        Err(fault) => Stepped::Stops(cause_of(fault)),
    }
}

/// Makes the entry of a closing connection: the undo of its last record, or its end.
pub fn make_closing(parts: &mut Parts, conn: Conn)
    requires stands { StandsFor parts.old }
    requires open { (world_of parts.old).pace.finished ≡ false }
    requires conn { conn.0 < length parts.old.head.conns }
    requires closing { phase (world_of parts.old) conn ≡ Phase.Closing }
    ensures stands { StandsFor parts.new }
    ensures head { parts.new.head ≡ parts.old.head }
    ensures entry { parts.new.history.items ≡ parts.old.history.items ++ by_agent conn (closing_act (last_record (world_of parts.old) conn)) ∷ [] }
{
    if undo_one(parts, conn, 0) {
        return;
    }
    ended(parts, conn);
}
