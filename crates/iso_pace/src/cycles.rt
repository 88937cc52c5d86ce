//! The wait-for graph of the connections, and its cycles.

ghost use Rattle.std.specs.Prelude.{◌≡◌, ◌<◌, ◌&&◌, length, is_some};
ghost use Rattle.std.specs.List.{list_any};
ghost use Rattle.iso_history.specs.Quiet.{cycle_in, edges_in};
ghost use Rattle.iso_state.specs.Stands.{StandsFor, world_of};
ghost use Rattle.iso_types.specs.Cycles.{is_among, is_on_cycle};
ghost use Rattle.iso_types.specs.Edges.{has_edge, leads};
ghost use Rattle.iso_types.specs.Head.{conns};
ghost use Rattle.iso_types.specs.declared.value.Conn.{Conn as Who};
ghost use Rattle.iso_waitgraph.specs.Targets.{AreTargets};

use crate::cores::cycle_of;
use crate::phases::{two_wait, waits};
use iso_state::Parts;
use iso_types::{Conn, Cycle, Edges};
use iso_waitgraph::on_cycle;

/// The connections for which a connection waits. The lock list is asked only where it waits.
fn edges_of(parts: &Parts, conn: Conn) -> Edges
    requires stands { StandsFor parts.now }
    requires conn { conn.0 < length parts.now.head.conns }
    ensures { (d : Who) → has_edge result d ≡ is_among d (edges_in parts.now.head (world_of parts.now) conn) }
{
    if waits(parts, conn) {
        parts.locks.edges(conn)
    } else {
        Edges::none()
    }
}

/// The edges of each connection. It asks the lock list once for each connection that waits.
fn graph(parts: &Parts) -> [Edges; 32]
    requires stands { StandsFor parts.now }
    ensures { AreTargets (leads result) (edges_in parts.now.head (world_of parts.now)) (conns parts.now.head) }
{
    let mut sets = [Edges::none(); 32];
    for at in 0..parts.head.conns.len() {
        sets[at] = edges_of(parts, Conn(at as u8));
    }
    sets
}

/// The chosen cycle. Where fewer than two connections wait there is none, and the lock list is not asked.
pub(crate) fn chosen(parts: &Parts) -> Option<Cycle>
    requires stands { StandsFor parts.now }
    ensures { result ≡ cycle_in parts.now.head (world_of parts.now) }
{
    if two_wait(parts) {
        cycle_of(&graph(parts))
    } else {
        None
    }
}

/// Whether the connection lies on a cycle. Where fewer than two connections wait it does not, and the lock list is not asked.
pub(crate) fn lies_on_cycle(parts: &Parts, conn: Conn) -> bool
    requires stands { StandsFor parts.now }
    requires conn { conn.0 < length parts.now.head.conns }
    ensures { result ≡ is_on_cycle (edges_in parts.now.head (world_of parts.now)) (conns parts.now.head) conn }
{
    if two_wait(parts) {
        on_cycle(&graph(parts), conn)
    } else {
        false
    }
}

/// Whether some connections wait for each other in a circle: a deadlock. It takes no memory. It looks at the phases first:
/// where fewer than two connections wait there is none. Else it asks the lock list once for each connection that waits, and
/// goes over their edges once for each edge of the longest way; only where a circle is left then it is searched for. Db2 LUW,
/// 'Deadlocks'.
pub fn cyclic(parts: &Parts) -> bool
    requires stands { StandsFor parts.now }
    ensures { result ≡ is_some (cycle_in parts.now.head (world_of parts.now)) }
{
    chosen(parts).is_some()
}
