ghost use Rattle.std.specs.Option.{option_map};
ghost use Rattle.std.specs.Prelude.{◌≡◌, ◌<◌, ◌++◌, [], ◌∷◌, length, false, true, Err, IsTrue, OnOk, OnErr, Some, unwrap_or};
ghost use Rattle.iso_history.specs.Legal.{Runs, is_fresh_on};
ghost use Rattle.iso_history.specs.Makers.{by_agent};
ghost use Rattle.iso_history.specs.Outcomes.{due_mode};
ghost use Rattle.iso_history.specs.Phases.{phase};
ghost use Rattle.iso_history.specs.Stops.{is_full};
ghost use Rattle.iso_history.specs.World.Last.{Looked};
ghost use Rattle.iso_modes.specs.declared.Mode.TheVariants as modes;
ghost use Rattle.iso_queue.specs.Locks.{held};
ghost use Rattle.iso_types.specs.declared.value.Name.TheVariants as names;
ghost use Rattle.iso_state.specs.Stands.{StandsFor, content_of, world_of};

use iso_history::{Act, Entry, Who};
use iso_modes::Mode;
use iso_state::{Parts, enter, hold, make_room};
use iso_types::{Conn, Name, Phase, Rid, StepFault, TableId};

/// Gives back the lock on a row at which the connection has just looked, where it is not kept. `HistoryFull`: its entry would
/// be full. After a fault all is as before. Its cost is that of a release of the lock list. Db2 LUW, 'Cursor stability (CS)'.
pub fn free(parts: &mut Parts, conn: Conn, table: TableId, rid: Rid) -> Result<(), StepFault>
    requires stands { StandsFor parts.old }
    requires open { (world_of parts.old).pace.finished ≡ false }
    requires conn { conn.0 < length parts.old.head.conns }
    requires runs { Runs (world_of parts.old) conn }
    requires looked { (world_of parts.old).last conn ≡ Looked table rid }
    requires fresh { IsTrue (is_fresh_on (world_of parts.old) conn (names.Row table rid)) }
    ensures stands { StandsFor parts.new }
    ensures head { parts.new.head ≡ parts.old.head }
    ensures full { result ≡ Err StepFault.HistoryFull → is_full parts.old.head (world_of parts.old) (by_agent conn (Act.Free table rid)) ≡ true }
    ensures ok { OnOk result (parts.new.history.items ≡ parts.old.history.items ++ by_agent conn (Act.Free table rid) ∷ []) }
    ensures err { OnErr result (content_of parts.new ≡ content_of parts.old) }
{
    make_room(parts, 1)?;
    let name = &Name::Row(table, rid);
    parts.locks.settle(conn, Some(*name));
    parts.locks.release(conn, *name);
    let who = Who::Agent(conn);
    let act = Act::Free { table, rid };
    enter(parts, conn, Entry { who, act });
    Ok(())
}

/// The mode in which the connection holds the table.
fn mode_on(parts: &Parts, conn: Conn, table: TableId) -> Mode
    requires stands { StandsFor parts.now }
    ensures { result ≡ unwrap_or (held (world_of parts.now).holds conn (names.Table table)) modes.X }
{
    match hold(parts, conn, &Name::Table(table)) {
        Some(hold) => hold.mode,
        None => Mode::X,
    }
}

/// Gives back the locks on rows and keys of a table that the connection has escalated: its table lock covers them.
/// `HistoryFull`: its entry would be full. After a fault all is as before. Its cost is that of a collapse of the lock list.
/// Db2 LUW, 'Lock escalation'.
pub fn collapse(parts: &mut Parts, conn: Conn, table: TableId) -> Result<(), StepFault>
    requires stands { StandsFor parts.old }
    requires open { (world_of parts.old).pace.finished ≡ false }
    requires conn { conn.0 < length parts.old.head.conns }
    requires running { phase (world_of parts.old) conn ≡ Phase.Running }
    requires due { option_map (λ d. d.0) ((world_of parts.old).due conn) ≡ Some table }
    ensures stands { StandsFor parts.new }
    ensures head { parts.new.head ≡ parts.old.head }
    ensures full { result ≡ Err StepFault.HistoryFull → is_full parts.old.head (world_of parts.old) (by_agent conn (Act.Collapse table (due_mode (world_of parts.old) conn))) ≡ true }
    ensures ok { OnOk result (parts.new.history.items ≡ parts.old.history.items ++ by_agent conn (Act.Collapse table (due_mode (world_of parts.old) conn)) ∷ []) }
    ensures err { OnErr result (content_of parts.new ≡ content_of parts.old) }
{
    let mode = mode_on(parts, conn, table);
    make_room(parts, 1)?;
    parts.locks.settle(conn, None);
    parts.locks.collapse(conn, table);
    let who = Who::Agent(conn);
    let act = Act::Collapse { table, mode };
    enter(parts, conn, Entry { who, act });
    Ok(())
}
