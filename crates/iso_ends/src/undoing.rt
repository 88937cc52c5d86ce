//! The undo of the last record that a unit has left.

ghost use Rattle.std.specs.Prelude.{◌≡◌, ◌≤◌, ◌<◌, ◌+◌, ◌++◌, [], ◌∷◌, ℕ, length, false, true, Some, IsTrue};
ghost use Rattle.iso_chain.specs.Writes.{taken_back};
ghost use Rattle.iso_history.specs.Legal.{may_undo};
ghost use Rattle.iso_history.specs.Makers.{by_agent};
ghost use Rattle.iso_history.specs.Outcomes.{last_record};
ghost use Rattle.iso_state.specs.Changes.{rechained};
ghost use Rattle.iso_state.specs.Stands.{StandsFor, content_of, world_of};
ghost use Rattle.iso_ends.specs.Ends.{has_left};

use iso_chain::take_back;
use iso_history::{Act, Entry, Who};
use iso_state::{Parts, enter};
use iso_types::Conn;

/// Writes the undo of a record, the last that the connection's unit has left, into slots, log and units.
fn write_undo(parts: &mut Parts, conn: Conn, number: u32)
    requires stands { StandsFor parts.old }
    requires conn { conn.0 < length parts.old.head.conns }
    requires last { last_record (world_of parts.old) conn ≡ Some number }
    ensures wrote { content_of parts.new ≡ rechained (content_of parts.old) (taken_back (content_of parts.old).chain conn number) }
    ensures history { parts.old.history.spare ≤ parts.new.history.spare }
    ensures log { parts.old.log.spare ≤ parts.new.log.spare + 1 }
{
    take_back(
        &mut parts.tables,
        &mut parts.log,
        &mut parts.units,
        conn,
        number,
    );
}

/// Undoes a record, the last that the connection's unit has left, and makes its entry.
fn undo(parts: &mut Parts, conn: Conn, number: u32)
    requires stands { StandsFor parts.old }
    requires open { (world_of parts.old).pace.finished ≡ false }
    requires conn { conn.0 < length parts.old.head.conns }
    requires may { IsTrue (may_undo (world_of parts.old) conn) }
    requires last { last_record (world_of parts.old) conn ≡ Some number }
    ensures stands { StandsFor parts.new }
    ensures head { parts.new.head ≡ parts.old.head }
    ensures entry { parts.new.history.items ≡ parts.old.history.items ++ by_agent conn (Act.Undo number) ∷ [] }
{
    write_undo(parts, conn, number);
    parts.reserved -= 1;
    parts.locks.settle(conn, None);
    let who = Who::Agent(conn);
    let act = Act::Undo { number };
    enter(parts, conn, Entry { who, act });
}

/// Undoes the last record that the connection's unit has left, where it is at or above the floor; false, and nothing is
/// appended, exactly where there is none. It takes no memory and is never refused. Db2 LUW, 'ROLLBACK'.
pub fn undo_one(parts: &mut Parts, conn: Conn, floor: u32) -> bool
    requires stands { StandsFor parts.old }
    requires open { (world_of parts.old).pace.finished ≡ false }
    requires conn { conn.0 < length parts.old.head.conns }
    requires may { IsTrue (may_undo (world_of parts.old) conn) }
    ensures stands { StandsFor parts.new }
    ensures head { parts.new.head ≡ parts.old.head }
    ensures answer { result ≡ has_left (world_of parts.old) conn floor }
    ensures ok { (n : ℕ) → result ≡ true → last_record (world_of parts.old) conn ≡ Some n
        → parts.new.history.items ≡ parts.old.history.items ++ by_agent conn (Act.Undo n) ∷ [] }
    ensures none { result ≡ false → content_of parts.new ≡ content_of parts.old }
{
    match parts.units.last(conn) {
        None => false,
        Some(number) => {
            if number < floor {
                return false;
            }
            undo(parts, conn, number);
            true
        }
    }
}
