//! The steps insert, update and delete: each judges what comes of the write, and makes the one entry that says so.
ghost use Rattle.std.specs.Prelude.{◌≡◌, ◌<◌, ◌++◌, [], ◌∷◌, length, false, true, Err, IfOk, OnOk, OnErr};
ghost use Rattle.iso_history.specs.Legal.{Runs};
ghost use Rattle.iso_history.specs.Makers.{by_agent};
ghost use Rattle.iso_history.specs.Outcomes.{written_by};
ghost use Rattle.iso_history.specs.Stops.{is_full};
ghost use Rattle.iso_history.specs.Versions.{next_rid};
ghost use Rattle.iso_history.specs.Writes.{deletes, inserts, may_change, may_write, updates};
ghost use Rattle.iso_history.specs.declared.entry.Act.TheVariants as acts;
ghost use Rattle.iso_types.specs.Head.{row_fits};
ghost use Rattle.iso_state.specs.Stands.{StandsFor, content_of, world_of};
ghost use Rattle.iso_writes.specs.Answers.{answer_of, appended};

use crate::coming::{Coming, Written};
use crate::hindered::{limit, refuse_past, refuse_taken, wait_for};
use crate::judging::{is_delete_past, judge_insert, judge_update};
use crate::writing::{make_delete, make_insert, make_update};
use iso_state::Parts;
use iso_types::{Conn, Rid, Row, StepFault, TableId};
use std::alloc::Global;

/// Deletes the row of a slot that the connection may change; its pairs stay in the indexes. `Done`; `Refused(-964)`: one more change would be past the log.
/// `HistoryFull`: its entry would be full. After a fault all is as before. Constant cost.
/// Db2 LUW, 'DELETE statement', 'logprimary' and 'logsecond', 'SQLCODE -964'.
pub fn delete(parts: &mut Parts, conn: Conn, table: TableId, rid: Rid) -> Result<Written, StepFault>
    requires stands { StandsFor parts.old }
    requires open { (world_of parts.old).pace.finished ≡ false }
    requires conn { conn.0 < length parts.old.head.conns }
    requires runs { Runs (world_of parts.old) conn }
    requires may { may_change parts.old.head (world_of parts.old) conn table rid ≡ true }
    ensures stands { StandsFor parts.new }
    ensures head { parts.new.head ≡ parts.old.head }
    ensures answer { IfOk result (λ a. a ≡ answer_of (written_by parts.old.head (world_of parts.old) conn (acts.Delete table rid) (deletes parts.old.head (world_of parts.old) conn))) }
    ensures full { result ≡ Err StepFault.HistoryFull → is_full parts.old.head (world_of parts.old) (by_agent conn (written_by parts.old.head (world_of parts.old) conn (acts.Delete table rid) (deletes parts.old.head (world_of parts.old) conn))) ≡ true }
    ensures ok { OnOk result (parts.new.history.items ≡ parts.old.history.items ++ by_agent conn (written_by parts.old.head (world_of parts.old) conn (acts.Delete table rid) (deletes parts.old.head (world_of parts.old) conn)) ∷ []) }
    ensures err { OnErr result (content_of parts.new ≡ content_of parts.old) }
{
    if is_delete_past(parts, conn) {
        return refuse_past(parts, conn);
    }
    make_delete(parts, conn, table, rid)?;
    Ok(Written::Done)
}

/// Updates the row of a slot that the connection may change, and adds its keys to the indexes of the table. `Done`;
/// `Blocked`: another unit's version of a row with its key in a unique index, or another connection's lock on the guard of a new
/// key, is in its way, that lock was asked for, and it waits; `TimedOut`: it may not wait, and has to roll back; `Refused(-803)`:
/// another row has its key in a unique index; `Refused(-964)`: one more change would be past the log. Where the locks on keys
/// that inherit one are at a limit: `Escalates`, the lock of that table was asked for instead, and is granted or queues;
/// `Refused(-912)`: there is no such table. `HistoryFull`: its entry would be full. After a fault all is as before. It costs copies
/// of the row, its keys' places in the indexes, and what judging it costs; at the limit as `escalate`.
/// Db2 LUW, 'UPDATE statement', 'Next-key locking', 'Lock escalation', 'logprimary' and 'logsecond', 'SQLCODE -803', 'SQLCODE
/// -911', 'SQLCODE -912', 'SQLCODE -964'.
pub fn update(
    alloc: Global,
    parts: &mut Parts,
    conn: Conn,
    table: TableId,
    rid: Rid,
    row: &Row,
) -> Result<Written, StepFault>
    requires stands { StandsFor parts.old }
    requires open { (world_of parts.old).pace.finished ≡ false }
    requires conn { conn.0 < length parts.old.head.conns }
    requires runs { Runs (world_of parts.old) conn }
    requires may { may_change parts.old.head (world_of parts.old) conn table rid ≡ true }
    requires row { row_fits parts.old.head table row.now ≡ true }
    ensures stands { StandsFor parts.new }
    ensures head { parts.new.head ≡ parts.old.head }
    ensures answer { IfOk result (λ a. a ≡ answer_of (written_by parts.old.head (world_of parts.old) conn (acts.Update table rid row.now) (updates parts.old.head (world_of parts.old) conn table rid row.now))) }
    ensures full { result ≡ Err StepFault.HistoryFull → is_full parts.old.head (world_of parts.old) (by_agent conn (written_by parts.old.head (world_of parts.old) conn (acts.Update table rid row.now) (updates parts.old.head (world_of parts.old) conn table rid row.now))) ≡ true }
    ensures ok { OnOk result (parts.new.history.items ≡ parts.old.history.items ++ by_agent conn (written_by parts.old.head (world_of parts.old) conn (acts.Update table rid row.now) (updates parts.old.head (world_of parts.old) conn table rid row.now)) ∷ []) }
    ensures err { OnErr result (content_of parts.new ≡ content_of parts.old) }
{
    match judge_update(parts, conn, table, rid, row) {
        Coming::Done => {
            make_update(alloc, parts, conn, table, rid, row)?;
            Ok(Written::Done)
        }
        Coming::Full => unreachable!(),
        Coming::AtLimit => limit(parts, conn),
        Coming::PastLog => refuse_past(parts, conn),
        Coming::Taken => refuse_taken(parts, conn),
        Coming::Blocked(name, mode) => wait_for(parts, conn, &name, mode),
    }
}

/// Inserts the row into the table's next slot, locks it in X, and adds its keys to the indexes of the table. `Done`; `Full`: the
/// table has its 65,536 slots, and nothing is appended; `Blocked`, `TimedOut`, `Refused(-803)`, `Refused(-964)`, and at a lock
/// limit `Escalates` and `Refused(-912)` as for `update`. `HistoryFull`: its entry would be full. After a fault all is as before.
/// It costs copies of the row, its keys' places in the indexes, and what judging it costs; at the limit as `escalate`.
/// Db2 LUW, 'INSERT statement', 'Next-key locking', 'Lock escalation', 'logprimary' and 'logsecond', 'SQLCODE -803', 'SQLCODE
/// -911', 'SQLCODE -912', 'SQLCODE -964'.
pub fn insert(
    alloc: Global,
    parts: &mut Parts,
    conn: Conn,
    table: TableId,
    row: &Row,
) -> Result<Written, StepFault>
    requires stands { StandsFor parts.old }
    requires open { (world_of parts.old).pace.finished ≡ false }
    requires conn { conn.0 < length parts.old.head.conns }
    requires runs { Runs (world_of parts.old) conn }
    requires may { may_write (world_of parts.old) conn table ≡ true }
    requires row { row_fits parts.old.head table row.now ≡ true }
    ensures stands { StandsFor parts.new }
    ensures head { parts.new.head ≡ parts.old.head }
    ensures answer { IfOk result (λ a. a ≡ answer_of (written_by parts.old.head (world_of parts.old) conn (acts.Insert table (next_rid (world_of parts.old) table) row.now) (inserts parts.old.head (world_of parts.old) conn table row.now))) }
    ensures full { result ≡ Err StepFault.HistoryFull → is_full parts.old.head (world_of parts.old) (by_agent conn (written_by parts.old.head (world_of parts.old) conn (acts.Insert table (next_rid (world_of parts.old) table) row.now) (inserts parts.old.head (world_of parts.old) conn table row.now))) ≡ true }
    ensures ok { OnOk result (parts.new.history.items ≡ parts.old.history.items ++ appended parts.old.head (world_of parts.old) conn (acts.Insert table (next_rid (world_of parts.old) table) row.now) (inserts parts.old.head (world_of parts.old) conn table row.now)) }
    ensures err { OnErr result (content_of parts.new ≡ content_of parts.old) }
{
    match judge_insert(parts, conn, table, row) {
        Coming::Done => {
            make_insert(alloc, parts, conn, table, row)?;
            Ok(Written::Done)
        }
        Coming::Full => Ok(Written::Full),
        Coming::AtLimit => limit(parts, conn),
        Coming::PastLog => refuse_past(parts, conn),
        Coming::Taken => refuse_taken(parts, conn),
        Coming::Blocked(name, mode) => wait_for(parts, conn, &name, mode),
    }
}
