//! What a step answers that records nothing: the end of a wait, that nothing is left to undo, that there is no savepoint.
ghost use Rattle.std.specs.Prelude.{◌≡◌, ◌<◌, is_some, length, false, true, if◌then◌else◌, None, Some};
ghost use Rattle.iso_conduct.specs.Conduct.{has_left, quiet, quiet_back, quiet_claim, quieted};
ghost use Rattle.iso_conduct.specs.Points.{due};
ghost use Rattle.iso_conduct.specs.declared.moves.Told.{Told as Telling};
ghost use Rattle.iso_history.specs.Legal.{Runs};
ghost use Rattle.iso_history.specs.Marks.{mark_of};
ghost use Rattle.iso_history.specs.Phases.{phase};
ghost use Rattle.iso_state.specs.Stands.{StandsFor, world_of};
ghost use Rattle.iso_agent.specs.Quiet.{RunsForBack};

use iso_conduct::{Move, Task, Told};
use iso_state::{Parts, desk_of};
use iso_types::{Conn, Phase, Text};
use std::alloc::Global;

/// That the wait was ended, with the reason of the rollback.
fn ended_wait(parts: &Parts, conn: Conn) -> Option<Told>
    requires stands { StandsFor parts.now }
    requires conn { conn.0 < length parts.now.head.conns }
    ensures { result ≡ quiet_claim (phase (world_of parts.now) conn) ((world_of parts.now).doom conn) }
{
    let desk = desk_of(parts, conn);
    match desk.phase {
        Phase::Rolling => Some(Told::Ended(desk.doom)),
        Phase::Idle => None,
        Phase::Running => None,
        Phase::Waiting => None,
        Phase::Closing => None,
        Phase::Ended => None,
    }
}

/// Whether the unit has a record at or above the floor that is not undone.
fn is_left(parts: &Parts, conn: Conn, floor: u32) -> bool
    requires stands { StandsFor parts.now }
    requires conn { conn.0 < length parts.now.head.conns }
    ensures { result ≡ has_left (world_of parts.now) conn floor }
{
    match parts.units.last(conn) {
        None => false,
        Some(number) => number >= floor,
    }
}

/// That nothing is left to undo.
fn nothing_left(parts: &Parts, conn: Conn, floor: u32) -> Option<Told>
    requires stands { StandsFor parts.now }
    requires conn { conn.0 < length parts.now.head.conns }
    ensures { result ≡ (if has_left (world_of parts.now) conn floor then None else Some (Telling.Undone false)) }
{
    if is_left(parts, conn, floor) {
        None
    } else {
        Some(Told::Undone(false))
    }
}

/// That the unit has no savepoint of this name.
fn no_mark(parts: &Parts, conn: Conn, name: Text) -> Option<Told>
    requires stands { StandsFor parts.now }
    requires conn { conn.0 < length parts.now.head.conns }
    requires runs { Runs (world_of parts.now) conn }
    ensures { result ≡ quiet_back (mark_of ((world_of parts.now).marks conn) name) }
{
    match parts.units.floor(conn, name) {
        None => Some(Told::Floor(None)),
        Some(_) => None,
    }
}

/// What the step answers that records nothing, if it does.
fn quiet_answer(parts: &Parts, conn: Conn, step: &Move) -> Option<Told>
    requires stands { StandsFor parts.now }
    requires conn { conn.0 < length parts.now.head.conns }
    requires runs { RunsForBack (world_of parts.now) conn step.now }
    ensures { result ≡ quiet (world_of parts.now) conn step.now }
{
    match step {
        Move::Claim => ended_wait(parts, conn),
        Move::Undo { floor } => nothing_left(parts, conn, *floor),
        Move::Back { name } => no_mark(parts, conn, *name),
        Move::Lock { .. } => None,
        Move::Look { .. } => None,
        Move::Next { .. } => None,
        Move::Free { .. } => None,
        Move::Collapse { .. } => None,
        Move::Insert { .. } => None,
        Move::Update { .. } => None,
        Move::Delete { .. } => None,
        Move::Refuse { .. } => None,
        Move::Mark { .. } => None,
        Move::Set { .. } => None,
        Move::Commit => None,
        Move::RollbackEnd { .. } => None,
        Move::Reply { .. } => None,
    }
}

/// Tells the task what its step answers that records nothing: whether it does.
fn quieten_once(alloc: Global, parts: &Parts, conn: Conn, task: &mut Task) -> bool
    requires stands { StandsFor parts.now }
    requires conn { conn.0 < length parts.now.head.conns }
    requires runs { RunsForBack (world_of parts.now) conn (due task.old) }
    ensures task { task.new ≡ quieted (world_of parts.now) conn task.old }
    ensures told { result ≡ is_some (quiet (world_of parts.now) conn (due task.old)) }
{
    match quiet_answer(parts, conn, &task.next()) {
        Some(told) => {
            match task.told(alloc, told) {
                Ok(()) => {}
                Err(_) => unreachable!(),
            }
            true
        }
        None => false,
    }
}

/// Tells the task what its step answers that records nothing, and then the same of the step that is due then.
fn quieten_steps(alloc: Global, parts: &Parts, conn: Conn, task: &mut Task)
    requires stands { StandsFor parts.now }
    requires conn { conn.0 < length parts.now.head.conns }
    requires runs { RunsForBack (world_of parts.now) conn (due task.old) }
    requires later { RunsForBack (world_of parts.now) conn (due (quieted (world_of parts.now) conn task.old)) }
    ensures { task.new ≡ quieted (world_of parts.now) conn (quieted (world_of parts.now) conn task.old) }
{
    if quieten_once(alloc, parts, conn, task) {
        quieten_once(alloc, parts, conn, task);
    }
}

/// The same; a step of an index scan is never answered so.
#[tactic(auto, using(crate::proofs::Quieting::next_quiet))]
fn quieten_past_next(alloc: Global, parts: &Parts, conn: Conn, task: &mut Task)
    requires stands { StandsFor parts.now }
    requires conn { conn.0 < length parts.now.head.conns }
    requires runs { RunsForBack (world_of parts.now) conn (due task.old) }
    requires later { RunsForBack (world_of parts.now) conn (due (quieted (world_of parts.now) conn task.old)) }
    ensures { task.new ≡ quieted (world_of parts.now) conn (quieted (world_of parts.now) conn task.old) }
{
    match task.due_next() {
        Some(_) => {}
        None => quieten_steps(alloc, parts, conn, task),
    }
}

/// Tells the task what its step answers that records nothing, if it does; and then the same of the step that is due then. A look
/// is never answered so.
#[tactic(auto, using(crate::proofs::Quieting::look_quiet))]
pub fn quieten(alloc: Global, parts: &Parts, conn: Conn, task: &mut Task)
    requires stands { StandsFor parts.now }
    requires conn { conn.0 < length parts.now.head.conns }
    requires runs { RunsForBack (world_of parts.now) conn (due task.old) }
    requires later { RunsForBack (world_of parts.now) conn (due (quieted (world_of parts.now) conn task.old)) }
    ensures { task.new ≡ quieted (world_of parts.now) conn (quieted (world_of parts.now) conn task.old) }
{
    match task.due_look() {
        Some(_) => {}
        None => quieten_past_next(alloc, parts, conn, task),
    }
}
