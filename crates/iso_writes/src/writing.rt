ghost use Rattle.std.specs.Prelude.{◌≡◌, ◌<◌, ◌++◌, [], ◌∷◌, length, false, true, Err, OnOk, OnErr, IsTrue};
ghost use Rattle.iso_history.specs.Legal.{Runs};
ghost use Rattle.iso_history.specs.Makers.{by_agent};
ghost use Rattle.iso_history.specs.Stops.{is_full};
ghost use Rattle.iso_history.specs.Writes.{deletes, inserts, is_refusal, may_change, may_write, updates};
ghost use Rattle.iso_history.specs.Writes.Written.{Done as IsDone};
ghost use Rattle.iso_history.specs.Versions.{next_rid};
ghost use Rattle.iso_types.specs.Head.{row_fits};
ghost use Rattle.iso_state.specs.Stands.{StandsFor, content_of, world_of};

use crate::changing::{Destination, copy_of, next_slot, write_deleted};
use crate::taking::{asks_for, row_ask, write_locked};
use iso_history::{Act, Entry, Who};
use iso_state::{Parts, enter, make_room};
use iso_types::{Conn, Rid, Row, StepFault, TableId};
use std::alloc::Global;

/// Makes the entry of a deletion that is done.
pub fn make_delete(parts: &mut Parts, conn: Conn, table: TableId, rid: Rid) -> Result<(), StepFault>
    requires stands { StandsFor parts.old }
    requires open { (world_of parts.old).pace.finished ≡ false }
    requires conn { conn.0 < length parts.old.head.conns }
    requires runs { Runs (world_of parts.old) conn }
    requires may { may_change parts.old.head (world_of parts.old) conn table rid ≡ true }
    requires outcome { deletes parts.old.head (world_of parts.old) conn ≡ IsDone }
    ensures stands { StandsFor parts.new }
    ensures head { parts.new.head ≡ parts.old.head }
    ensures full { result ≡ Err StepFault.HistoryFull → is_full parts.old.head (world_of parts.old) (by_agent conn (Act.Delete table rid)) ≡ true }
    ensures ok { OnOk result (parts.new.history.items ≡ parts.old.history.items ++ by_agent conn (Act.Delete table rid) ∷ []) }
    ensures err { OnErr result (content_of parts.new ≡ content_of parts.old) }
{
    make_room(parts, 2)?;
    write_deleted(parts, conn, table, rid)?;
    parts.locks.settle(conn, None);
    parts.reserved += 1; // the undo of the deletion
    let who = Who::Agent(conn);
    let act = Act::Delete { table, rid };
    enter(parts, conn, Entry { who, act });
    Ok(())
}

/// Makes the entry of an update that is done: the row has its keys in the indexes, and the connection S on the keys that
/// inherit it. After a fault all is as before.
pub fn make_update(
    alloc: Global,
    parts: &mut Parts,
    conn: Conn,
    table: TableId,
    rid: Rid,
    row: &Row,
) -> Result<(), StepFault>
    requires stands { StandsFor parts.old }
    requires open { (world_of parts.old).pace.finished ≡ false }
    requires conn { conn.0 < length parts.old.head.conns }
    requires runs { Runs (world_of parts.old) conn }
    requires may { may_change parts.old.head (world_of parts.old) conn table rid ≡ true }
    requires row { row_fits parts.old.head table row.now ≡ true }
    requires outcome { updates parts.old.head (world_of parts.old) conn table rid row.now ≡ IsDone }
    ensures stands { StandsFor parts.new }
    ensures head { parts.new.head ≡ parts.old.head }
    ensures full { result ≡ Err StepFault.HistoryFull → is_full parts.old.head (world_of parts.old) (by_agent conn (Act.Update table rid row.now)) ≡ true }
    ensures ok { OnOk result (parts.new.history.items ≡ parts.old.history.items ++ by_agent conn (Act.Update table rid row.now) ∷ []) }
    ensures err { OnErr result (content_of parts.new ≡ content_of parts.old) }
{
    make_room(parts, 2)?;
    let told = copy_of(alloc, row)?;
    let asks = asks_for(alloc, parts, conn, table, row, None)?;
    write_locked(
        alloc,
        parts,
        conn,
        asks.as_slice(),
        Destination::Slot,
        table,
        rid,
        row,
    )?;
    parts.reserved += 1; // the undo of the update
    let who = Who::Agent(conn);
    let act = Act::Update {
        table,
        rid,
        row: told,
    };
    enter(parts, conn, Entry { who, act });
    Ok(())
}

/// Makes the entry of an insertion that is done: the row has the table's next slot and its keys in the indexes, and the
/// connection X on it and S on the keys that inherit it. After a fault all is as before.
pub fn make_insert(
    alloc: Global,
    parts: &mut Parts,
    conn: Conn,
    table: TableId,
    row: &Row,
) -> Result<(), StepFault>
    requires stands { StandsFor parts.old }
    requires open { (world_of parts.old).pace.finished ≡ false }
    requires conn { conn.0 < length parts.old.head.conns }
    requires runs { Runs (world_of parts.old) conn }
    requires may { may_write (world_of parts.old) conn table ≡ true }
    requires row { row_fits parts.old.head table row.now ≡ true }
    requires outcome { inserts parts.old.head (world_of parts.old) conn table row.now ≡ IsDone }
    ensures stands { StandsFor parts.new }
    ensures head { parts.new.head ≡ parts.old.head }
    ensures full { result ≡ Err StepFault.HistoryFull → is_full parts.old.head (world_of parts.old) (by_agent conn (Act.Insert table (next_rid (world_of parts.old) table) row.now)) ≡ true }
    ensures ok { OnOk result (parts.new.history.items ≡ parts.old.history.items ++ by_agent conn (Act.Insert table (next_rid (world_of parts.old) table) row.now) ∷ []) }
    ensures err { OnErr result (content_of parts.new ≡ content_of parts.old) }
{
    make_room(parts, 2)?;
    let told = copy_of(alloc, row)?;
    let rid = next_slot(parts, table);
    let first = row_ask(parts, conn, table, rid);
    let asks = asks_for(alloc, parts, conn, table, row, first)?;
    write_locked(
        alloc,
        parts,
        conn,
        asks.as_slice(),
        Destination::NewSlot,
        table,
        rid,
        row,
    )?;
    parts.reserved += 1; // the undo of the insertion
    let who = Who::Agent(conn);
    let act = Act::Insert {
        table,
        rid,
        row: told,
    };
    enter(parts, conn, Entry { who, act });
    Ok(())
}

/// The entry of a refusal with this SQLCODE.
fn refusal(conn: Conn, code: i32) -> Entry
    ensures { result ≡ by_agent conn (Act.Refused code) }
{
    Entry {
        who: Who::Agent(conn),
        act: Act::Refused { code },
    }
}

/// Makes the entry of a refusal with this SQLCODE: -407, -802, -803, -880, -912 or -964.
pub fn refuse(parts: &mut Parts, conn: Conn, code: i32) -> Result<(), StepFault>
    requires stands { StandsFor parts.old }
    requires open { (world_of parts.old).pace.finished ≡ false }
    requires conn { conn.0 < length parts.old.head.conns }
    requires runs { Runs (world_of parts.old) conn }
    requires may { IsTrue (is_refusal parts.old.head (world_of parts.old) conn code) }
    ensures stands { StandsFor parts.new }
    ensures head { parts.new.head ≡ parts.old.head }
    ensures full { result ≡ Err StepFault.HistoryFull → is_full parts.old.head (world_of parts.old) (by_agent conn (Act.Refused code)) ≡ true }
    ensures ok { OnOk result (parts.new.history.items ≡ parts.old.history.items ++ by_agent conn (Act.Refused code) ∷ []) }
    ensures err { OnErr result (content_of parts.new ≡ content_of parts.old) }
{
    make_room(parts, 1)?;
    parts.locks.settle(conn, None);
    enter(parts, conn, refusal(conn, code));
    Ok(())
}
