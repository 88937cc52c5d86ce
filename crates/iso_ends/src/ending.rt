//! The ends of units of work: commit, rollback, and a connection's end.

ghost use Rattle.std.specs.Prelude.{◌≡◌, ◌<◌, ◌++◌, [], ◌∷◌, List, length, false, if◌then◌else◌};
ghost use Rattle.iso_history.specs.Legal.{RollbackStands, Runs};
ghost use Rattle.iso_history.specs.Makers.{by_agent};
ghost use Rattle.iso_history.specs.Phases.{is_phase, phase};
ghost use Rattle.iso_history.specs.Records.{left_of};
ghost use Rattle.iso_locklist.specs.Holding.{LocksAre};
ghost use Rattle.iso_locklist.specs.Places.{IsSameLimits};
ghost use Rattle.iso_queue.specs.Locks.{Hold, dropped};
ghost use Rattle.iso_queue.specs.Queues.{Wait, unqueued};
ghost use Rattle.iso_state.specs.Stands.{StandsFor, content_of, world_of};

use iso_history::{Act, Entry, Who};
use iso_locklist::LockList;
use iso_state::{Parts, desk_of, move_to, write_commit};
use iso_types::{Conn, Desk, Phase};

/// Gives back all locks of a connection, and ends its wait.
fn give_up(locks: &mut LockList, conn: Conn)
    requires conn { conn.0 < 32 }
    ensures lists { (hs : List Hold) (xs : List Wait) → LocksAre hs xs locks.old → LocksAre (dropped conn hs) (unqueued conn xs) locks.new }
    ensures limits { IsSameLimits locks.new locks.old }
{
    locks.release_all(conn);
    locks.cancel(conn);
}

/// Commits the unit of a running connection: its locks go, its statement is answered, and the connection is idle. It costs as
/// much as the unit has records, takes no memory and is never refused. Db2 LUW, 'COMMIT'.
pub fn commit(parts: &mut Parts, conn: Conn)
    requires stands { StandsFor parts.old }
    requires open { (world_of parts.old).pace.finished ≡ false }
    requires conn { conn.0 < length parts.old.head.conns }
    requires runs { Runs (world_of parts.old) conn }
    ensures stands { StandsFor parts.new }
    ensures head { parts.new.head ≡ parts.old.head }
    ensures entry { parts.new.history.items ≡ parts.old.history.items ++ by_agent conn Act.Commit ∷ [] }
{
    let left = write_commit(parts, conn);
    parts.reserved -= left + 2;
    give_up(&mut parts.locks, conn);
    let desk = Desk {
        phase: Phase::Idle,
        claimed: false,
        ..desk_of(parts, conn)
    };
    let who = Who::Agent(conn);
    let act = Act::Commit;
    move_to(parts, conn, desk, Entry { who, act });
}

/// How many entries less are kept for a connection once its unit is rolled back.
fn kept_until_rollback(phase: Phase) -> u32
    ensures { result ≡ (if is_phase phase Phase.Running then 2 else 1) }
{
    match phase {
        Phase::Running => 2,
        _ => 1,
    }
}

/// The entry of a rollback.
fn rolled_back(conn: Conn, code: i32, reason: u8) -> Entry
    ensures { result ≡ by_agent conn (Act.Rollback code reason) }
{
    Entry {
        who: Who::Agent(conn),
        act: Act::Rollback { code, reason },
    }
}

/// Ends the unit of a connection that runs ROLLBACK, with code and reason 0, or has to roll back, with -911 and the reason of
/// its doom: nothing is left to undo, its locks go, its statement is answered, and it is idle. It takes no memory and is never
/// refused. Db2 LUW, 'ROLLBACK', 'SQLCODE -911'.
pub fn rollback_end(parts: &mut Parts, conn: Conn, code: i32, reason: u8)
    requires stands { StandsFor parts.old }
    requires open { (world_of parts.old).pace.finished ≡ false }
    requires conn { conn.0 < length parts.old.head.conns }
    requires ends { RollbackStands (world_of parts.old) conn code reason (phase (world_of parts.old) conn) }
    requires left { left_of (world_of parts.old) conn ≡ [] }
    ensures stands { StandsFor parts.new }
    ensures head { parts.new.head ≡ parts.old.head }
    ensures entry { parts.new.history.items ≡ parts.old.history.items ++ by_agent conn (Act.Rollback code reason) ∷ [] }
{
    let was = desk_of(parts, conn);
    parts.reserved -= kept_until_rollback(was.phase);
    parts.units.finish(conn);
    give_up(&mut parts.locks, conn);
    let desk = Desk {
        phase: Phase::Idle,
        doom: 0,
        claimed: false,
        ..was
    };
    move_to(parts, conn, desk, rolled_back(conn, code, reason));
}

/// Ends a closing connection, which has nothing left to undo: its locks go, and it makes no further entry. It takes no memory
/// and is never refused. (This project's own.)
pub fn ended(parts: &mut Parts, conn: Conn)
    requires stands { StandsFor parts.old }
    requires open { (world_of parts.old).pace.finished ≡ false }
    requires conn { conn.0 < length parts.old.head.conns }
    requires closing { phase (world_of parts.old) conn ≡ Phase.Closing }
    requires left { left_of (world_of parts.old) conn ≡ [] }
    ensures stands { StandsFor parts.new }
    ensures head { parts.new.head ≡ parts.old.head }
    ensures entry { parts.new.history.items ≡ parts.old.history.items ++ by_agent conn Act.Ended ∷ [] }
{
    parts.reserved -= 3;
    parts.units.finish(conn);
    give_up(&mut parts.locks, conn);
    let desk = Desk {
        phase: Phase::Ended,
        claimed: false,
        ..desk_of(parts, conn)
    };
    let who = Who::Agent(conn);
    let act = Act::Ended;
    move_to(parts, conn, desk, Entry { who, act });
}
