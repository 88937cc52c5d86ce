//! The phases of the connections, as their desks tell them: the lock list is asked for nothing.

ghost use Rattle.std.specs.Prelude.{◌≡◌, ◌<◌, length, nat_lt, not};
ghost use Rattle.std.specs.List.{list_all};
ghost use Rattle.iso_history.specs.Phases.{is_active, is_phase, phase};
ghost use Rattle.iso_pace.specs.Waiters.{waiters};
ghost use Rattle.iso_state.specs.Stands.{StandsFor, world_of};
ghost use Rattle.iso_types.specs.Head.{conns};
ghost use Rattle.iso_types.specs.declared.desk.Phase.TheVariants as Phases;

use iso_state::{Parts, desk_of};
use iso_types::{Conn, Phase};

/// The connection's phase.
pub(crate) fn phase_of(parts: &Parts, conn: Conn) -> Phase
    requires stands { StandsFor parts.now }
    requires conn { conn.0 < length parts.now.head.conns }
    ensures { result ≡ phase (world_of parts.now) conn }
{
    desk_of(parts, conn).phase
}

/// Whether the phases are the same.
#[tactic(auto, unfolding(iso_history::specs::Phases::is_phase, iso_history::specs::Phases::phase_number))]
pub(crate) fn same_phase(a: Phase, b: Phase) -> bool
    ensures { result ≡ is_phase a b }
{
    a == b
}

/// Whether the connection waits.
pub(crate) fn waits(parts: &Parts, conn: Conn) -> bool
    requires stands { StandsFor parts.now }
    requires conn { conn.0 < length parts.now.head.conns }
    ensures { result ≡ is_phase (phase (world_of parts.now) conn) Phases.Waiting }
{
    same_phase(phase_of(parts, conn), Phase::Waiting)
}

/// Whether at least two connections wait.
pub(crate) fn two_wait(parts: &Parts) -> bool
    requires stands { StandsFor parts.now }
    ensures { result ≡ nat_lt 1 (length (waiters parts.now.head (world_of parts.now))) }
{
    let mut one = false;
    for at in 0..parts.head.conns.len() {
        if waits(parts, Conn(at as u8)) {
            if one {
                return true;
            }
            one = true;
        }
    }
    false
}

/// Whether the connection runs, rolls back or closes.
fn acts(parts: &Parts, conn: Conn) -> bool
    requires stands { StandsFor parts.now }
    requires conn { conn.0 < length parts.now.head.conns }
    ensures { result ≡ is_active (world_of parts.now) conn }
{
    match phase_of(parts, conn) {
        Phase::Idle => false,
        Phase::Running => true,
        Phase::Waiting => false,
        Phase::Rolling => true,
        Phase::Closing => true,
        Phase::Ended => false,
    }
}

/// Whether no connection runs, rolls back or closes.
pub(crate) fn none_acts(parts: &Parts) -> bool
    requires stands { StandsFor parts.now }
    ensures { result ≡ list_all (λ c. not (is_active (world_of parts.now) c)) (conns parts.now.head) }
{
    for at in 0..parts.head.conns.len() {
        if acts(parts, Conn(at as u8)) {
            return false;
        }
    }
    true
}
