//! What the steps of the dispatcher, and those that end a unit, ask for, decided from the state.
ghost use Rattle.std.specs.Prelude.{◌≡◌, ◌<◌, [], false, true, length, pos, IsTrue};
ghost use Rattle.iso_history.specs.Legal.{By, RollbackStands, may_undo as undo_stands};
ghost use Rattle.iso_history.specs.Phases.{phase as phase_in};
ghost use Rattle.iso_history.specs.Records.{left_of};
ghost use Rattle.iso_history.specs.declared.entry.Act.{Act};
ghost use Rattle.iso_pace.specs.Answers.{MayTakeLine};
ghost use Rattle.iso_state.specs.Stands.{StandsFor, world_of};

use crate::guards::{closes, is_in, is_open, runs};
use iso_ends::purgeable;
use iso_history::{Cause, Who};
use iso_state::{Parts, can_claim};
use iso_types::{Conn, Phase};

/// Whether the connection has nothing left to undo.
pub fn none_left(parts: &Parts, conn: Conn) -> bool
    requires stands { StandsFor parts.now }
    requires conn { conn.0 < length parts.now.head.conns }
    ensures { result ≡ true → left_of (world_of parts.now) conn ≡ [] }
{
    parts.units.last(conn).is_none()
}

/// Whether the connection may end its unit by the statement ROLLBACK.
#[tactic(auto, using(crate::proofs::Known::runs_ends))]
pub fn may_roll_back(parts: &Parts, conn: Conn) -> bool
    requires stands { StandsFor parts.now }
    ensures open { result ≡ true → (world_of parts.now).pace.finished ≡ false }
    ensures conn { result ≡ true → conn.0 < length parts.now.head.conns }
    ensures ends { result ≡ true → RollbackStands (world_of parts.now) conn (pos 0) 0 (phase_in (world_of parts.now) conn) }
    ensures left { result ≡ true → left_of (world_of parts.now) conn ≡ [] }
{
    runs(parts, conn) && none_left(parts, conn)
}

/// Whether the connection may take back its last change, since it runs or closes with no Collapse due.
#[tactic(auto, using(crate::proofs::Known::runs_undoes))]
pub fn may_undo(parts: &Parts, conn: Conn) -> bool
    requires stands { StandsFor parts.now }
    ensures open { result ≡ true → (world_of parts.now).pace.finished ≡ false }
    ensures conn { result ≡ true → conn.0 < length parts.now.head.conns }
    ensures undoes { result ≡ true → IsTrue (undo_stands (world_of parts.now) conn) }
{
    runs(parts, conn) || closes(parts, conn)
}

/// Whether the connection runs, and so may stop for want of memory.
fn stops_running(parts: &Parts, conn: Conn) -> bool
    requires stands { StandsFor parts.now }
    ensures { result ≡ true → By parts.now.head (world_of parts.now) (Who.Agent conn) (Act.Stopped Cause.Memory) }
{
    is_in(parts, conn, Phase::Running)
}

/// Whether nothing keeps the connection from the lock that it awaits, so that it may stop for want of memory.
fn stops_waiting(parts: &Parts, conn: Conn) -> bool
    requires stands { StandsFor parts.now }
    ensures { result ≡ true → By parts.now.head (world_of parts.now) (Who.Agent conn) (Act.Stopped Cause.Memory) }
{
    is_in(parts, conn, Phase::Waiting) && can_claim(parts, conn)
}

/// Whether the connection may stop for want of memory.
pub fn may_stop(parts: &Parts, conn: Conn) -> bool
    requires stands { StandsFor parts.now }
    ensures open { result ≡ true → (world_of parts.now).pace.finished ≡ false }
    ensures may { result ≡ true → By parts.now.head (world_of parts.now) (Who.Agent conn) (Act.Stopped Cause.Memory) }
{
    is_open(parts) && (stops_running(parts, conn) || stops_waiting(parts, conn))
}

/// Whether the dispatcher may stop for want of memory.
pub fn may_halt(parts: &Parts) -> bool
    requires stands { StandsFor parts.now }
    ensures open { result ≡ true → (world_of parts.now).pace.finished ≡ false }
    ensures may { result ≡ true → By parts.now.head (world_of parts.now) Who.Dispatcher (Act.Stopped Cause.Memory) }
{
    is_open(parts) && !parts.pace.stopped
}

/// Whether a line may be taken, since no pair is purgeable.
#[tactic(auto, using(crate::proofs::Known::line_free))]
pub fn takes_line(parts: &Parts) -> bool
    requires stands { StandsFor parts.now }
    ensures open { result ≡ true → (world_of parts.now).pace.finished ≡ false }
    ensures may { result ≡ true → MayTakeLine parts.now.head (world_of parts.now) }
{
    if purgeable(parts) {
        return false;
    }
    is_open(parts)
}

/// Whether a pair may be purged now, where one is purgeable.
pub fn may_purge(parts: &Parts) -> bool
    requires stands { StandsFor parts.now }
    ensures open { result ≡ true → (world_of parts.now).pace.finished ≡ false }
    ensures going { result ≡ true → (world_of parts.now).pace.stopped ≡ false }
    ensures calm { result ≡ true → (world_of parts.now).pace.purged ≡ false }
{
    is_open(parts) && !parts.pace.stopped && !parts.pace.purged
}
