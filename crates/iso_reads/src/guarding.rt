//! The entries of the steps of an index scan, by what comes of the lock that they ask for.
ghost use Rattle.std.specs.Prelude.{◌≡◌, ◌<◌, ◌++◌, [], ◌∷◌, length, false, true, None, Err, OnOk, OnErr};
ghost use Rattle.iso_history.specs.After.{after};
ghost use Rattle.iso_history.specs.Legal.{ByAgent, Runs};
ghost use Rattle.iso_history.specs.Makers.{by_agent};
ghost use Rattle.iso_history.specs.Requests.{request};
ghost use Rattle.iso_history.specs.Requests.Outcome.{Gives};
ghost use Rattle.iso_history.specs.Stops.{is_full};
ghost use Rattle.iso_history.specs.declared.entry.Got.{Got as Gained};
ghost use Rattle.iso_locklist.specs.Lists.{asked_for};
ghost use Rattle.iso_modes.specs.declared.Mode.TheVariants as modes;
ghost use Rattle.iso_modes.specs.declared.Term.TheVariants as terms;
ghost use Rattle.iso_queue.specs.Locks.{placed, settled, without_briefs};
ghost use Rattle.iso_queue.specs.Queues.{queued};
ghost use Rattle.iso_state.specs.Kinds.{is_bare, queues, times_out};
ghost use Rattle.iso_state.specs.Stands.{StandsFor, content_of, world_of};

use iso_history::Entry;
use iso_modes::{Mode, Term};
use iso_state::{Parts, desk_of, enqueue, enter, make_room, move_to, take};
use iso_types::{Conn, Desk, Name, Phase, StepFault};

/// Makes the entry of a step that asks for no lock.
pub fn pass_by(parts: &mut Parts, conn: Conn, entry: Entry) -> Result<(), StepFault>
    requires stands { StandsFor parts.old }
    requires open { (world_of parts.old).pace.finished ≡ false }
    requires conn { conn.0 < length parts.old.head.conns }
    requires runs { Runs (world_of parts.old) conn }
    requires maker { entry ≡ by_agent conn entry.act }
    requires by { ByAgent parts.old.head (world_of parts.old) conn entry.act }
    requires kind { is_bare entry.act ≡ true }
    requires leaves { (after parts.old.head (world_of parts.old) (by_agent conn entry.act)).holds ≡ without_briefs (world_of parts.old).holds conn (settled conn None (world_of parts.old).holds) }
    ensures stands { StandsFor parts.new }
    ensures head { parts.new.head ≡ parts.old.head }
    ensures full { result ≡ Err StepFault.HistoryFull → is_full parts.old.head (world_of parts.old) entry ≡ true }
    ensures ok { OnOk result (parts.new.history.items ≡ parts.old.history.items ++ entry ∷ []) }
    ensures err { OnErr result (content_of parts.new ≡ content_of parts.old) }
{
    make_room(parts, 1)?;
    parts.locks.settle(conn, None);
    enter(parts, conn, entry);
    Ok(())
}

/// Makes the entry of a step that is granted S on a key name, or on an index's end.
pub fn take_key(parts: &mut Parts, conn: Conn, name: &Name, entry: Entry) -> Result<(), StepFault>
    requires stands { StandsFor parts.old }
    requires open { (world_of parts.old).pace.finished ≡ false }
    requires conn { conn.0 < length parts.old.head.conns }
    requires runs { Runs (world_of parts.old) conn }
    requires maker { entry ≡ by_agent conn entry.act }
    requires by { ByAgent parts.old.head (world_of parts.old) conn entry.act }
    requires kind { is_bare entry.act ≡ true }
    requires granted { request parts.old.head (world_of parts.old) conn name.now modes.S ≡ Gives Gained.Granted }
    requires places { (after parts.old.head (world_of parts.old) (by_agent conn entry.act)).holds ≡ without_briefs (world_of parts.old).holds conn (placed parts.old.head (settled conn None (world_of parts.old).holds) conn (asked_for name.now modes.S terms.Kept)) }
    ensures stands { StandsFor parts.new }
    ensures head { parts.new.head ≡ parts.old.head }
    ensures full { result ≡ Err StepFault.HistoryFull → is_full parts.old.head (world_of parts.old) entry ≡ true }
    ensures ok { OnOk result (parts.new.history.items ≡ parts.old.history.items ++ entry ∷ []) }
    ensures err { OnErr result (content_of parts.new ≡ content_of parts.old) }
{
    make_room(parts, 1)?;
    take(parts, conn, name, Mode::S, Term::Kept, false)?;
    enter(parts, conn, entry);
    Ok(())
}

/// Makes the entry of a step that queues for S on a key name, for the mode that the connection will hold.
pub fn wait_key(
    parts: &mut Parts,
    conn: Conn,
    name: &Name,
    to: Mode,
    entry: Entry,
) -> Result<(), StepFault>
    requires stands { StandsFor parts.old }
    requires open { (world_of parts.old).pace.finished ≡ false }
    requires conn { conn.0 < length parts.old.head.conns }
    requires runs { Runs (world_of parts.old) conn }
    requires maker { entry ≡ by_agent conn entry.act }
    requires by { ByAgent parts.old.head (world_of parts.old) conn entry.act }
    requires kind { queues entry.act ≡ true }
    requires queues { request parts.old.head (world_of parts.old) conn name.now modes.S ≡ Gives (Gained.Queued to) }
    requires leaves { (after parts.old.head (world_of parts.old) (by_agent conn entry.act)).holds ≡ without_briefs (world_of parts.old).holds conn (settled conn None (world_of parts.old).holds) }
    requires joins { (after parts.old.head (world_of parts.old) (by_agent conn entry.act)).waits ≡ queued (world_of parts.old).holds (record { name = name.now; conn = conn; target = to; term = terms.Kept }) (world_of parts.old).waits }
    ensures stands { StandsFor parts.new }
    ensures head { parts.new.head ≡ parts.old.head }
    ensures full { result ≡ Err StepFault.HistoryFull → is_full parts.old.head (world_of parts.old) entry ≡ true }
    ensures ok { OnOk result (parts.new.history.items ≡ parts.old.history.items ++ entry ∷ []) }
    ensures err { OnErr result (content_of parts.new ≡ content_of parts.old) }
{
    make_room(parts, 1)?;
    enqueue(parts, conn, name, Mode::S, Term::Kept, to)?;
    parts.locks.settle(conn, None);
    let desk = Desk {
        phase: Phase::Waiting,
        claimed: false,
        ..desk_of(parts, conn)
    };
    move_to(parts, conn, desk, entry);
    Ok(())
}

/// Makes the entry of a step that times out: the connection has to roll back.
pub fn time_out_key(parts: &mut Parts, conn: Conn, entry: Entry) -> Result<(), StepFault>
    requires stands { StandsFor parts.old }
    requires open { (world_of parts.old).pace.finished ≡ false }
    requires conn { conn.0 < length parts.old.head.conns }
    requires runs { Runs (world_of parts.old) conn }
    requires maker { entry ≡ by_agent conn entry.act }
    requires by { ByAgent parts.old.head (world_of parts.old) conn entry.act }
    requires kind { times_out entry.act ≡ true }
    requires leaves { (after parts.old.head (world_of parts.old) (by_agent conn entry.act)).holds ≡ without_briefs (world_of parts.old).holds conn (settled conn None (world_of parts.old).holds) }
    ensures stands { StandsFor parts.new }
    ensures head { parts.new.head ≡ parts.old.head }
    ensures full { result ≡ Err StepFault.HistoryFull → is_full parts.old.head (world_of parts.old) entry ≡ true }
    ensures ok { OnOk result (parts.new.history.items ≡ parts.old.history.items ++ entry ∷ []) }
    ensures err { OnErr result (content_of parts.new ≡ content_of parts.old) }
{
    make_room(parts, 0)?;
    parts.locks.settle(conn, None);
    parts.reserved -= 1;
    let desk = Desk {
        phase: Phase::Rolling,
        doom: 68,
        claimed: false,
        ..desk_of(parts, conn)
    };
    move_to(parts, conn, desk, entry);
    Ok(())
}
