//! The steps of changes and refusals, as an agent makes them.
ghost use Rattle.std.specs.Prelude.{◌≡◌, ◌<◌, length, false, true, IsTrue};
ghost use Rattle.iso_history.specs.Legal.{Runs};
ghost use Rattle.iso_history.specs.Outcomes.{written_by};
ghost use Rattle.iso_history.specs.Versions.{next_rid};
ghost use Rattle.iso_history.specs.Writes.{deletes, inserts, is_refusal, may_change, may_write, updates};
ghost use Rattle.iso_history.specs.declared.entry.Act.TheVariants as acts;
ghost use Rattle.iso_state.specs.Stands.{StandsFor, world_of};
ghost use Rattle.iso_types.specs.Head.{row_fits};
ghost use Rattle.iso_agent.specs.Steps.{HasStepped, stepped_of_write};

use crate::stepped::{Stepped, cause_of, keep, keep_escalation, waits};
use iso_conduct::Told;
use iso_history::Cause;
use iso_state::Parts;
use iso_types::{Conn, Rid, Row, TableId};
use iso_writes::{Written, delete, insert, refuse, update};
use std::alloc::Global;

/// What comes of the answer to a write.
fn step_of_write(written: Written, waits: bool) -> Stepped
    ensures { result ≡ stepped_of_write written waits }
{
    match written {
        Written::Done => Stepped::Goes(keep(Told::Done)),
        Written::Blocked(_) => Stepped::Goes(keep(Told::Blocked)),
        Written::TimedOut => Stepped::Goes(keep(Told::TimedOut)),
        Written::Escalates(table) => {
            Stepped::Goes(keep_escalation(Told::Escalates(table), waits))
        }
        Written::Refused(code) => Stepped::Goes(keep(Told::Refused(code))),
        Written::Full => Stepped::Stops(Cause::Table),
    }
}

/// Makes the entry of an insertion.
pub fn make_insert(
    alloc: Global,
    parts: &mut Parts,
    conn: Conn,
    table: TableId,
    row: &Row,
) -> Stepped
    requires stands { StandsFor parts.old }
    requires open { (world_of parts.old).pace.finished ≡ false }
    requires conn { conn.0 < length parts.old.head.conns }
    requires runs { Runs (world_of parts.old) conn }
    requires may { may_write (world_of parts.old) conn table ≡ true }
    requires row { row_fits parts.old.head table row.now ≡ true }
    ensures stands { StandsFor parts.new }
    ensures head { parts.new.head ≡ parts.old.head }
    ensures stepped { HasStepped parts.old.head parts.old.history.items parts.new.history.items conn (written_by parts.old.head (world_of parts.old) conn (acts.Insert table (next_rid (world_of parts.old) table) row.now) (inserts parts.old.head (world_of parts.old) conn table row.now)) result }
{
    match insert(alloc, parts, conn, table, row) {
        Ok(written) => step_of_write(written, waits(parts, conn)),
        Err(fault) => Stepped::Stops(cause_of(fault)),
    }
}

/// Makes the entry of an update.
pub fn make_update(
    alloc: Global,
    parts: &mut Parts,
    conn: Conn,
    table: TableId,
    rid: Rid,
    row: &Row,
) -> Stepped
    requires stands { StandsFor parts.old }
    requires open { (world_of parts.old).pace.finished ≡ false }
    requires conn { conn.0 < length parts.old.head.conns }
    requires runs { Runs (world_of parts.old) conn }
    requires may { may_change parts.old.head (world_of parts.old) conn table rid ≡ true }
    requires row { row_fits parts.old.head table row.now ≡ true }
    ensures stands { StandsFor parts.new }
    ensures head { parts.new.head ≡ parts.old.head }
    ensures stepped { HasStepped parts.old.head parts.old.history.items parts.new.history.items conn (written_by parts.old.head (world_of parts.old) conn (acts.Update table rid row.now) (updates parts.old.head (world_of parts.old) conn table rid row.now)) result }
{
    match update(alloc, parts, conn, table, rid, row) {
        Ok(written) => step_of_write(written, waits(parts, conn)),
        Err(fault) => Stepped::Stops(cause_of(fault)),
    }
}

/// Makes the entry of a deletion.
pub fn make_delete(parts: &mut Parts, conn: Conn, table: TableId, rid: Rid) -> Stepped
    requires stands { StandsFor parts.old }
    requires open { (world_of parts.old).pace.finished ≡ false }
    requires conn { conn.0 < length parts.old.head.conns }
    requires runs { Runs (world_of parts.old) conn }
    requires may { may_change parts.old.head (world_of parts.old) conn table rid ≡ true }
    ensures stands { StandsFor parts.new }
    ensures head { parts.new.head ≡ parts.old.head }
    ensures stepped { HasStepped parts.old.head parts.old.history.items parts.new.history.items conn (written_by parts.old.head (world_of parts.old) conn (acts.Delete table rid) (deletes parts.old.head (world_of parts.old) conn)) result }
{
    match delete(parts, conn, table, rid) {
        Ok(written) => step_of_write(written, waits(parts, conn)),
        Err(fault) => Stepped::Stops(cause_of(fault)),
    }
}

/// Makes the entry of a refusal.
pub fn make_refusal(parts: &mut Parts, conn: Conn, code: i32) -> Stepped
    requires stands { StandsFor parts.old }
    requires open { (world_of parts.old).pace.finished ≡ false }
    requires conn { conn.0 < length parts.old.head.conns }
    requires runs { Runs (world_of parts.old) conn }
    requires may { IsTrue (is_refusal parts.old.head (world_of parts.old) conn code) }
    ensures stands { StandsFor parts.new }
    ensures head { parts.new.head ≡ parts.old.head }
    ensures stepped { HasStepped parts.old.head parts.old.history.items parts.new.history.items conn (acts.Refused code) result }
{
    match refuse(parts, conn, code) {
        Ok(()) => Stepped::Goes(keep(Told::Refused(code))),
        Err(fault) => Stepped::Stops(cause_of(fault)),
    }
}
