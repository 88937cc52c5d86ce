//! Answers to statements, and the settings of a connection.

ghost use Rattle.std.specs.Prelude.{◌≡◌, ◌<◌, ◌++◌, [], ◌∷◌, length, false, true, Err, OnOk, OnErr};
ghost use Rattle.iso_history.specs.Legal.{Runs};
ghost use Rattle.iso_history.specs.Makers.{by_agent};
ghost use Rattle.iso_history.specs.Stops.{is_full};
ghost use Rattle.iso_state.specs.Stands.{StandsFor, content_of, world_of};

use iso_history::{Act, Entry, Who};
use iso_state::{Parts, desk_of, make_room, move_to};
use iso_types::{Conn, Desk, Isolation, Phase, Rows, StepFault};

/// The entry of an answer.
fn replied(conn: Conn, code: i32, changed: u32, rows: Rows) -> Entry
    ensures { result ≡ by_agent conn (Act.Reply code changed rows) }
{
    Entry {
        who: Who::Agent(conn),
        act: Act::Reply {
            code,
            changed,
            rows,
        },
    }
}

/// Answers the statement of a running connection with this SQLCODE, the number of rows that it changed, and the rows of a
/// query: the connection is idle, and its unit stays open. `HistoryFull`: its entry would be full. After a fault all is as
/// before, and the rows are dropped. Db2 LUW, 'SQLCA'.
pub fn reply(
    parts: &mut Parts,
    conn: Conn,
    code: i32,
    changed: u32,
    rows: Rows,
) -> Result<(), StepFault>
    requires stands { StandsFor parts.old }
    requires open { (world_of parts.old).pace.finished ≡ false }
    requires conn { conn.0 < length parts.old.head.conns }
    requires runs { Runs (world_of parts.old) conn }
    ensures stands { StandsFor parts.new }
    ensures head { parts.new.head ≡ parts.old.head }
    ensures full { result ≡ Err StepFault.HistoryFull → is_full parts.old.head (world_of parts.old) (by_agent conn (Act.Reply code changed rows)) ≡ true }
    ensures ok { OnOk result (parts.new.history.items ≡ parts.old.history.items ++ by_agent conn (Act.Reply code changed rows) ∷ []) }
    ensures err { OnErr result (content_of parts.new ≡ content_of parts.old) }
{
    make_room(parts, 1)?;
    parts.locks.settle(conn, None);
    let desk = Desk {
        phase: Phase::Idle,
        claimed: false,
        ..desk_of(parts, conn)
    };
    move_to(parts, conn, desk, replied(conn, code, changed, rows));
    Ok(())
}

/// Gives a running connection another isolation level for its statements, and says whether its requests may wait.
/// `HistoryFull`: its entry would be full. After a fault all is as before. Db2 LUW, 'SET CURRENT ISOLATION', 'SET CURRENT
/// LOCK TIMEOUT'.
pub fn set(parts: &mut Parts, conn: Conn, level: Isolation, may_wait: bool) -> Result<(), StepFault>
    requires stands { StandsFor parts.old }
    requires open { (world_of parts.old).pace.finished ≡ false }
    requires conn { conn.0 < length parts.old.head.conns }
    requires runs { Runs (world_of parts.old) conn }
    ensures stands { StandsFor parts.new }
    ensures head { parts.new.head ≡ parts.old.head }
    ensures full { result ≡ Err StepFault.HistoryFull → is_full parts.old.head (world_of parts.old) (by_agent conn (Act.Set level may_wait)) ≡ true }
    ensures ok { OnOk result (parts.new.history.items ≡ parts.old.history.items ++ by_agent conn (Act.Set level may_wait) ∷ []) }
    ensures err { OnErr result (content_of parts.new ≡ content_of parts.old) }
{
    make_room(parts, 1)?;
    parts.locks.settle(conn, None);
    let desk = Desk {
        isolation: level,
        may_wait,
        claimed: false,
        ..desk_of(parts, conn)
    };
    let who = Who::Agent(conn);
    let act = Act::Set { level, may_wait };
    move_to(parts, conn, desk, Entry { who, act });
    Ok(())
}
