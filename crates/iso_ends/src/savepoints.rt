//! Savepoints: they are set, and a unit goes back to them.

ghost use Rattle.std.specs.Prelude.{◌≡◌, ◌<◌, ◌++◌, [], ◌∷◌, ℕ, length, false, true, None, Some, Ok, Err, IsTrue, IfOk, OnOk, OnErr, is_some};
ghost use Rattle.iso_history.specs.Legal.{Runs};
ghost use Rattle.iso_history.specs.Makers.{by_agent};
ghost use Rattle.iso_history.specs.Marks.{mark_of};
ghost use Rattle.iso_history.specs.Stops.{is_full};
ghost use Rattle.iso_state.specs.Changes.{rechained};
ghost use Rattle.iso_state.specs.Stands.{StandsFor, content_of, world_of};
ghost use Rattle.iso_state.specs.Steps.{KeepsRoom};
ghost use Rattle.iso_ends.specs.Ends.{with_mark};

use iso_history::{Act, Entry, Who};
use iso_state::{Parts, enter, make_room};
use iso_types::{Conn, StepFault, Text};

/// Writes a savepoint of the connection's unit at the end of the log. After `Memory` all is as before.
fn write_mark(parts: &mut Parts, conn: Conn, name: Text) -> Result<(), StepFault>
    requires stands { StandsFor parts.old }
    requires conn { conn.0 < length parts.old.head.conns }
    requires runs { Runs (world_of parts.old) conn }
    ensures ok { OnOk result (content_of parts.new ≡ rechained (content_of parts.old) (with_mark (content_of parts.old).chain conn name)) }
    ensures room { KeepsRoom parts.old parts.new }
    ensures err { OnErr result (content_of parts.new ≡ content_of parts.old) }
    ensures stands { OnErr result (StandsFor parts.new) }
    ensures fault { OnErr result (result ≡ Err StepFault.Memory) }
{
    let at = parts.log.len();
    match parts.units.mark(conn, name, at) {
        Ok(()) => Ok(()),
        Err(_) => Err(StepFault::Memory),
    }
}

/// Sets a savepoint in the unit of a running connection; one of the same name moves. `HistoryFull`: its entry would be full.
/// After a fault all is as before. Db2 LUW, 'SAVEPOINT'.
pub fn mark(parts: &mut Parts, conn: Conn, name: Text) -> Result<(), StepFault>
    requires stands { StandsFor parts.old }
    requires open { (world_of parts.old).pace.finished ≡ false }
    requires conn { conn.0 < length parts.old.head.conns }
    requires runs { Runs (world_of parts.old) conn }
    ensures stands { StandsFor parts.new }
    ensures head { parts.new.head ≡ parts.old.head }
    ensures full { result ≡ Err StepFault.HistoryFull → is_full parts.old.head (world_of parts.old) (by_agent conn (Act.Mark name)) ≡ true }
    ensures ok { OnOk result (parts.new.history.items ≡ parts.old.history.items ++ by_agent conn (Act.Mark name) ∷ []) }
    ensures err { OnErr result (content_of parts.new ≡ content_of parts.old) }
{
    make_room(parts, 1)?;
    write_mark(parts, conn, name)?;
    parts.locks.settle(conn, None);
    let who = Who::Agent(conn);
    let act = Act::Mark { name };
    enter(parts, conn, Entry { who, act });
    Ok(())
}

/// Makes the entry of a way back to a savepoint that the unit has: the later ones go.
fn go_back(parts: &mut Parts, conn: Conn, name: Text) -> Result<(), StepFault>
    requires stands { StandsFor parts.old }
    requires open { (world_of parts.old).pace.finished ≡ false }
    requires conn { conn.0 < length parts.old.head.conns }
    requires runs { Runs (world_of parts.old) conn }
    requires there { IsTrue (is_some (mark_of ((world_of parts.old).marks conn) name)) }
    ensures stands { StandsFor parts.new }
    ensures head { parts.new.head ≡ parts.old.head }
    ensures full { result ≡ Err StepFault.HistoryFull → is_full parts.old.head (world_of parts.old) (by_agent conn (Act.Back name)) ≡ true }
    ensures ok { OnOk result (parts.new.history.items ≡ parts.old.history.items ++ by_agent conn (Act.Back name) ∷ []) }
    ensures err { OnErr result (content_of parts.new ≡ content_of parts.old) }
{
    make_room(parts, 1)?;
    parts.units.back(conn, name);
    parts.locks.settle(conn, None);
    let who = Who::Agent(conn);
    let act = Act::Back { name };
    enter(parts, conn, Entry { who, act });
    Ok(())
}

/// Goes back to a savepoint of a running connection's unit, and tells the number of the log's records when it was set:
/// those of the unit from there on are to be undone. None, and nothing is appended, exactly where the unit has no such
/// savepoint. `HistoryFull`: its entry would be full. After a fault all is as before. Db2 LUW, 'ROLLBACK TO SAVEPOINT'.
pub fn back(parts: &mut Parts, conn: Conn, name: Text) -> Result<Option<u32>, StepFault>
    requires stands { StandsFor parts.old }
    requires open { (world_of parts.old).pace.finished ≡ false }
    requires conn { conn.0 < length parts.old.head.conns }
    requires runs { Runs (world_of parts.old) conn }
    ensures stands { StandsFor parts.new }
    ensures head { parts.new.head ≡ parts.old.head }
    ensures answer { IfOk result (λ at. at ≡ mark_of ((world_of parts.old).marks conn) name) }
    ensures full { result ≡ Err StepFault.HistoryFull → is_full parts.old.head (world_of parts.old) (by_agent conn (Act.Back name)) ≡ true }
    ensures ok { (at : ℕ) → result ≡ Ok (Some at) → parts.new.history.items ≡ parts.old.history.items ++ by_agent conn (Act.Back name) ∷ [] }
    ensures none { result ≡ Ok None → content_of parts.new ≡ content_of parts.old }
    ensures err { OnErr result (content_of parts.new ≡ content_of parts.old) }
{
    match parts.units.floor(conn, name) {
        None => Ok(None),
        Some(at) => {
            go_back(parts, conn, name)?;
            Ok(Some(at))
        }
    }
}
