//! Whether a circle may be there at all: a look at the edges that is done after a few rounds.

ghost use Rattle.std.specs.Prelude.{◌≡◌, ◌<◌, ◌↔◌, true, false, List, length};
ghost use Rattle.iso_types.specs.Cycles.{HasNoCycle, chosen_cycle};
ghost use Rattle.iso_types.specs.Edges.{has_edge, leads};
ghost use Rattle.iso_types.specs.declared.value.Conn.{Conn as Connection};
ghost use Rattle.iso_waitgraph.specs.Targets.{AreTargets};
ghost use Rattle.iso_waitgraph.specs.Walks.{LeadsInto};

use iso_types::{Conn, Cycle, Edges};
use iso_waitgraph::cycle;

/// All connections that have a set.
fn everyone(edges: &[Edges; 32]) -> Edges
    ensures { (v : Connection) → v.0 < length edges.now → has_edge result v ≡ true }
{
    let mut all = Edges::none();
    for (place, _targets) in edges.iter().enumerate() {
        all = all.with(Conn(place as u8));
    }
    all
}

/// The connections with an edge into the set.
fn leading_into(edges: &[Edges; 32], set: Edges) -> Edges
    ensures { (v : Connection) → (has_edge result v ≡ true) ↔ LeadsInto edges.now set v }
{
    let mut found = Edges::none();
    for (place, targets) in edges.iter().enumerate() {
        if targets.meets(set) {
            found = found.with(Conn(place as u8));
        }
    }
    found
}

/// Whether a circle may be there: some connections are left where those without an edge to one that is left go, round by round.
/// Where none is left there is none. Each round goes over the edges once; there are as many as the longest way has edges.
pub(crate) fn may_be_cyclic(edges: &[Edges; 32]) -> bool
    ensures { result ≡ false → HasNoCycle (leads edges.now) }
{
    let mut left = everyone(edges);
    for _round in 0..32 {
        let next = leading_into(edges, left).intersection(left);
        if next.least().is_none() {
            return false;
        }
        if next == left {
            return true;
        }
        left = next;
    }
    true
}

/// The chosen cycle of the edges from each connection. It is sought only where one may be.
pub(crate) fn cycle_of(edges: &[Edges; 32]) -> Option<Cycle>
    ensures { (targets : Connection → List Connection) (all : List Connection) → AreTargets (leads edges.now) targets all
        → result ≡ chosen_cycle targets all }
{
    if may_be_cyclic(edges) {
        cycle(edges)
    } else {
        None
    }
}
