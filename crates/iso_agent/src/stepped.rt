//! What comes of a step, and what is kept of its answer.
ghost use Rattle.std.specs.Prelude.{◌≡◌, ◌<◌, length};
ghost use Rattle.iso_history.specs.Phases.{is_phase, phase};
ghost use Rattle.iso_state.specs.Stands.{StandsFor, world_of};
ghost use Rattle.iso_agent.specs.Steps.{cause_of as cause_of_fault, escalating, keeps};
ghost use Rattle.iso_types.specs.declared.desk.Phase.{Phase as PhaseOf};

use crate::agent::Kept;
use iso_conduct::Told;
use iso_history::Cause;
use iso_state::{Parts, desk_of};
use iso_types::{Conn, Phase, StepFault};

/// What comes of the step that is due. `Goes`: its entry was made, and this is kept of it; `Over`: its entry ends the statement;
/// `Stops`: nothing was appended, for this is wanting.
#[derive(Drop)]
pub enum Stepped {
    Goes(Kept),
    Over,
    Stops(Cause),
}

/// One answer to be told.
pub fn keep(told: Told) -> Kept
    ensures { result ≡ keeps told }
{
    Kept::Answer {
        told,
        queued: false,
    }
}

/// An escalation to be told, and that it queues where the connection waits now.
pub fn keep_escalation(told: Told, waits: bool) -> Kept
    ensures { result ≡ escalating told waits }
{
    Kept::Answer {
        told,
        queued: waits,
    }
}

/// What a step lacks.
pub fn cause_of(fault: StepFault) -> Cause
    ensures { result ≡ cause_of_fault fault }
{
    match fault {
        StepFault::Memory => Cause::Memory,
        StepFault::HistoryFull => Cause::History,
    }
}

#[tactic(auto, unfolding(iso_history::specs::Phases::is_phase, iso_history::specs::Phases::phase_number))]
fn is_waiting(phase: Phase) -> bool
    ensures { result ≡ is_phase phase PhaseOf.Waiting }
{
    phase == Phase::Waiting
}

/// Whether the connection waits.
pub fn waits(parts: &Parts, conn: Conn) -> bool
    requires stands { StandsFor parts.now }
    requires conn { conn.0 < length parts.now.head.conns }
    ensures { result ≡ is_phase (phase (world_of parts.now) conn) PhaseOf.Waiting }
{
    is_waiting(desk_of(parts, conn).phase)
}
