//! The step by which the dispatcher takes a statement's line.

ghost use Rattle.std.specs.Prelude.{if◌then◌else◌, ◌≡◌, ◌<◌, ◌≤◌, ◌+◌, ◌++◌, ◌||◌, [], ◌∷◌, length, false, true, is_some, slice_set, Err, IfOk, OnOk, OnErr, Option, Some, None};
ghost use Rattle.std.specs.Option.{option_map_or};
ghost use Rattle.iso_history.specs.Makers.{by_dispatcher};
ghost use Rattle.iso_history.specs.Phases.{phase};
ghost use Rattle.iso_history.specs.Quiet.{is_busy, is_quiet};
ghost use Rattle.iso_history.specs.Stops.{is_full};
ghost use Rattle.iso_history.specs.declared.entry.Act.TheVariants as Acts;
ghost use Rattle.iso_state.specs.Changes.{repaced, seated};
ghost use Rattle.iso_state.specs.Stands.{StandsFor, content_of, desk_at, pace_of, world_of};
ghost use Rattle.iso_state.specs.Steps.{Spends};
ghost use Rattle.iso_pace.specs.Answers.{MayTakeLine, dispatched, line_step, taken};
ghost use Rattle.iso_types.specs.declared.desk.Phase.TheVariants as Phases;

use crate::closing::{has_unit, is_idle};
use crate::lines::{Paced, of_dispatcher, pass_over};
use crate::resting::{busy, is_blocked, quiet};
use iso_history::Act;
use iso_state::{Parts, desk_of, make_room, move_to};
use iso_types::{Conn, Desk, Phase, StepFault};

/// Writes the desk at which a statement begins, and its entry.
fn run(parts: &mut Parts, line: u32, conn: Conn)
    requires conn { conn.0 < length parts.old.desks }
    requires room { 1 ≤ parts.old.history.spare }
    ensures wrote { content_of parts.new ≡ repaced (seated (content_of parts.old) conn
        (record (desk_at parts.old.desks conn) { phase = Phases.Running; line = line; start = length parts.old.log.records })
        (by_dispatcher (Acts.Dispatch line conn))) (record (pace_of parts.old.pace) { purged = false }) }
    ensures spends { Spends parts.old parts.new }
{
    parts.pace.purged = false;
    let desk = Desk {
        phase: Phase::Running,
        line,
        start: parts.log.len(),
        ..desk_of(parts, conn)
    };
    move_to(
        parts,
        conn,
        desk,
        of_dispatcher(Act::Dispatch { line, conn }),
    );
}

/// Begins a statement in a unit of work that is open.
fn resume(parts: &mut Parts, line: u32, conn: Conn) -> Result<(), StepFault>
    requires stands { StandsFor parts.old }
    requires open { (world_of parts.old).pace.finished ≡ false }
    requires may { MayTakeLine parts.old.head (world_of parts.old) }
    requires going { (world_of parts.old).pace.stopped ≡ false }
    requires conn { conn.0 < length parts.old.head.conns }
    requires idle { phase (world_of parts.old) conn ≡ Phases.Idle }
    requires unit { is_some ((world_of parts.old).unit conn) ≡ true }
    ensures stands { StandsFor parts.new }
    ensures head { parts.new.head ≡ parts.old.head }
    ensures full { result ≡ Err StepFault.HistoryFull → is_full parts.old.head (world_of parts.old) (by_dispatcher (Acts.Dispatch line conn)) ≡ true }
    ensures ok { OnOk result (parts.new.history.items ≡ parts.old.history.items ++ by_dispatcher (Acts.Dispatch line conn) ∷ []) }
    ensures err { OnErr result (content_of parts.new ≡ content_of parts.old) }
{
    make_room(parts, 1)?;
    run(parts, line, conn);
    Ok(())
}

/// Begins a statement, and its unit of work.
fn begin(parts: &mut Parts, line: u32, conn: Conn) -> Result<(), StepFault>
    requires stands { StandsFor parts.old }
    requires open { (world_of parts.old).pace.finished ≡ false }
    requires may { MayTakeLine parts.old.head (world_of parts.old) }
    requires going { (world_of parts.old).pace.stopped ≡ false }
    requires conn { conn.0 < length parts.old.head.conns }
    requires idle { phase (world_of parts.old) conn ≡ Phases.Idle }
    requires none { (world_of parts.old).unit conn ≡ None }
    ensures stands { StandsFor parts.new }
    ensures head { parts.new.head ≡ parts.old.head }
    ensures full { result ≡ Err StepFault.HistoryFull → is_full parts.old.head (world_of parts.old) (by_dispatcher (Acts.Dispatch line conn)) ≡ true }
    ensures ok { OnOk result (parts.new.history.items ≡ parts.old.history.items ++ by_dispatcher (Acts.Dispatch line conn) ∷ []) }
    ensures err { OnErr result (content_of parts.new ≡ content_of parts.old) }
{
    make_room(parts, 3)?;
    parts.units.begin(conn);
    parts.reserved += 2;
    run(parts, line, conn);
    Ok(())
}

/// Begins a statement of an idle connection.
fn start(parts: &mut Parts, line: u32, conn: Conn) -> Result<(), StepFault>
    requires stands { StandsFor parts.old }
    requires open { (world_of parts.old).pace.finished ≡ false }
    requires may { MayTakeLine parts.old.head (world_of parts.old) }
    requires going { (world_of parts.old).pace.stopped ≡ false }
    requires conn { conn.0 < length parts.old.head.conns }
    requires idle { phase (world_of parts.old) conn ≡ Phases.Idle }
    ensures stands { StandsFor parts.new }
    ensures head { parts.new.head ≡ parts.old.head }
    ensures full { result ≡ Err StepFault.HistoryFull → is_full parts.old.head (world_of parts.old) (by_dispatcher (Acts.Dispatch line conn)) ≡ true }
    ensures ok { OnOk result (parts.new.history.items ≡ parts.old.history.items ++ by_dispatcher (Acts.Dispatch line conn) ∷ []) }
    ensures err { OnErr result (content_of parts.new ≡ content_of parts.old) }
{
    if has_unit(parts, conn) {
        resume(parts, line, conn)
    } else {
        begin(parts, line, conn)
    }
}

/// Whether a line of the connection is passed over: it waits with an edge, and lies on no cycle. A line that is not `free`
/// comes in quiet alone, so no cycle is sought for it.
fn is_passed_over(parts: &Parts, conn: Conn, free: bool) -> bool
    requires stands { StandsFor parts.now }
    requires conn { conn.0 < length parts.now.head.conns }
    requires quiet { (free || is_quiet parts.now.head (world_of parts.now)) ≡ true }
    ensures { result ≡ is_busy parts.now.head (world_of parts.now) conn }
{
    if free {
        busy(parts, conn)
    } else {
        is_blocked(parts, conn)
    }
}

/// Takes a line of a statement; `free`: it stands behind `&`. `Done`: the statement begins, and a unit of work where none is
/// open; `Busy`: the connection waits for another one, and the line is passed over; `NotQuiet`: the line is not taken yet,
/// since not all is quiet or, behind `&`, since its connection is neither idle nor waits outside every deadlock; `Stopping`:
/// somebody stopped. `HistoryFull`: its entry would be full. A fault comes only where the line was to be taken, and leaves all as
/// it was. Without `&` it costs what `quiet` costs. Behind `&` the lock list is asked only where the connection waits: whether it
/// can go on, and then what `cyclic` asks. (This project's own.)
pub fn dispatch(parts: &mut Parts, line: u32, conn: Conn, free: bool) -> Result<Paced, StepFault>
    requires stands { StandsFor parts.old }
    requires open { (world_of parts.old).pace.finished ≡ false }
    requires may { MayTakeLine parts.old.head (world_of parts.old) }
    requires conn { conn.0 < length parts.old.head.conns }
    ensures stands { StandsFor parts.new }
    ensures head { parts.new.head ≡ parts.old.head }
    ensures answer { IfOk result (λ a. a ≡ dispatched parts.old.head (world_of parts.old) line conn free) }
    ensures full { result ≡ Err StepFault.HistoryFull
        → option_map_or (λ a. is_full parts.old.head (world_of parts.old) (by_dispatcher a)) (line_step parts.old.head (world_of parts.old) line conn free) false ≡ true }
    ensures ok { OnOk result (parts.new.history.items ≡ parts.old.history.items ++ taken (line_step parts.old.head (world_of parts.old) line conn free)) }
    ensures err { OnErr result (content_of parts.new ≡ content_of parts.old) }
    ensures due { OnErr result (is_some (line_step parts.old.head (world_of parts.old) line conn free) ≡ true) }
{
    if parts.pace.stopped {
        return Ok(Paced::Stopping);
    }
    if !free && !quiet(parts) {
        return Ok(Paced::NotQuiet);
    }
    if is_idle(parts, conn) {
        start(parts, line, conn)?;
        return Ok(Paced::Done);
    }
    if is_passed_over(parts, conn, free) {
        pass_over(parts, line, conn)?;
        return Ok(Paced::Busy);
    }
    Ok(Paced::NotQuiet)
}
