//! Which connections can go on, and whether all is quiet.

ghost use Rattle.std.specs.Prelude.{◌≡◌, ◌<◌, length, take};
ghost use Rattle.std.specs.List.{list_all};
ghost use Rattle.iso_history.specs.Quiet.{is_able, is_busy, is_quiet, is_resting, waits_stuck};
ghost use Rattle.iso_queue.specs.Queues.{is_stuck};
ghost use Rattle.iso_state.specs.Stands.{StandsFor, world_of};
ghost use Rattle.iso_types.specs.Head.{conns};

use crate::cycles::{chosen, lies_on_cycle};
use crate::phases::{none_acts, phase_of};
use iso_state::{Parts, can_claim};
use iso_types::{Conn, Phase};

/// Whether the agent of the connection can make a step: it runs, rolls back or closes, or its wait is over. The lock list is
/// asked, once, only where it waits.
pub fn able(parts: &Parts, conn: Conn) -> bool
    requires stands { StandsFor parts.now }
    requires conn { conn.0 < length parts.now.head.conns }
    ensures { result ≡ is_able (world_of parts.now) conn }
{
    match phase_of(parts, conn) {
        Phase::Idle => false,
        Phase::Running => true,
        Phase::Waiting => can_claim(parts, conn),
        Phase::Rolling => true,
        Phase::Closing => true,
        Phase::Ended => false,
    }
}

/// Whether the connection waits with an edge.
pub(crate) fn is_blocked(parts: &Parts, conn: Conn) -> bool
    requires stands { StandsFor parts.now }
    requires conn { conn.0 < length parts.now.head.conns }
    ensures { result ≡ waits_stuck (world_of parts.now) conn }
{
    match phase_of(parts, conn) {
        Phase::Idle => false,
        Phase::Running => false,
        Phase::Waiting => !can_claim(parts, conn),
        Phase::Rolling => false,
        Phase::Closing => false,
        Phase::Ended => false,
    }
}

/// Whether the connection waits with an edge, and lies on no cycle.
pub(crate) fn busy(parts: &Parts, conn: Conn) -> bool
    requires stands { StandsFor parts.now }
    requires conn { conn.0 < length parts.now.head.conns }
    ensures { result ≡ is_busy parts.now.head (world_of parts.now) conn }
{
    if is_blocked(parts, conn) {
        !lies_on_cycle(parts, conn)
    } else {
        false
    }
}

/// Whether the connection is idle, ended, or waits with an edge.
fn rests(parts: &Parts, conn: Conn) -> bool
    requires stands { StandsFor parts.now }
    requires conn { conn.0 < length parts.now.head.conns }
    ensures { result ≡ is_resting (world_of parts.now) conn }
{
    match phase_of(parts, conn) {
        Phase::Idle => true,
        Phase::Running => false,
        Phase::Waiting => !can_claim(parts, conn),
        Phase::Rolling => false,
        Phase::Closing => false,
        Phase::Ended => true,
    }
}

/// Whether all connections rest.
fn all_rest(parts: &Parts) -> bool
    requires stands { StandsFor parts.now }
    ensures { result ≡ list_all (is_resting (world_of parts.now)) (conns parts.now.head) }
{
    for at in 0..parts.head.conns.len() {
        if !rests(parts, Conn(at as u8)) {
            return false;
        }
    }
    true
}

/// Whether all is quiet: each connection is idle, ended or waits with an edge, and there is no cycle. It takes no memory. It
/// looks at the phases first, and is done where a connection runs, rolls back or closes. Then it asks the lock list once for
/// each connection that waits, until one can go on; and only where all of them rest, and two wait, a cycle is sought, which
/// asks once more for each that waits. (This project's own.)
pub fn quiet(parts: &Parts) -> bool
    requires stands { StandsFor parts.now }
    ensures { result ≡ is_quiet parts.now.head (world_of parts.now) }
{
    if !none_acts(parts) {
        return false;
    }
    all_rest(parts) && chosen(parts).is_none()
}
