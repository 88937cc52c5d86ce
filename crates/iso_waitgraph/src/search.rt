ghost use Rattle.std.specs.Prelude.{◌≡◌, ℕ, suc, ◌<◌, ◌≤◌, ◌↔◌, true, List, [], ◌∷◌, ◌++◌, length, MatchOption};
ghost use Rattle.iso_types.specs.Cycles.{HasNoCycle, IsChosen, IsCycle, IsShortestThrough, chosen_cycle, is_among, is_on_cycle};
ghost use Rattle.iso_types.specs.Edges.{has_edge, leads};
ghost use Rattle.iso_types.specs.declared.edges.Edges.{Edges as EdgeSet};
ghost use Rattle.iso_types.specs.declared.value.Conn.{Conn as Connection};
ghost use Rattle.iso_waitgraph.specs.Targets.{AreTargets};
ghost use Rattle.iso_waitgraph.specs.Walks.{AreLevels, IsAway, IsLeastWay, IsNoNearer, LeadsInto, set_at};

use iso_types::{Conn, Cycle, Edges};

// The connections with an edge into the set.
fn before(edges: &[Edges; 32], set: Edges) -> Edges
    ensures { (v : Connection) → (has_edge result v ≡ true) ↔ LeadsInto edges.now set v }
{
    let mut found = Edges::none();
    for (place, targets) in edges.iter().enumerate() {
        if targets.meets(set) {
            found = found.with(Conn(place as u8));
        }
    }
    found
}

// The connections from which the shortest walk to this one has 0, 1, 2 .. edges: breadth first,
// backwards from the end, so that an edge counts in one turn alone.
fn levels(edges: &[Edges; 32], end: Conn) -> [Edges; 32]
    requires { end.0 < 32 }
    ensures { AreLevels edges.now end result 32 }
{
    let mut level = Edges::none().with(end);
    let mut seen = level;
    let mut levels = [level; 32];
    for k in 1..32 {
        level = before(edges, level).difference(seen);
        seen = seen.union(level);
        levels[k] = level;
    }
    levels
}

// The nearest level to which there is an edge.
fn nearest(targets: Edges, levels: &[Edges; 32]) -> Option<usize>
    ensures { MatchOption result ((j : ℕ) (w : Connection) → j < 32 → has_edge targets w ≡ true → has_edge (set_at levels.now j) w ≡ true → ⊥)
        (λ k. (k < 32)
        × ((w : Connection) × (has_edge targets w ≡ true) × (has_edge (set_at levels.now k) w ≡ true))
        × ((j : ℕ) (w : Connection) → j < k → has_edge targets w ≡ true → has_edge (set_at levels.now j) w ≡ true → ⊥)) }
{
    for (k, level) in levels.iter().enumerate() {
        if targets.meets(*level) {
            return Some(k);
        }
    }
    None
}

// The least list of connections from the start back to it, over the levels from `last` down.
fn walk_back(edges: &[Edges; 32], levels: &[Edges; 32], start: Conn, last: usize) -> Cycle
    requires within { start.0 < 32 }
    requires short { last < 32 }
    requires levels { AreLevels edges.now start levels.now 32 }
    requires on { (w : Connection) × (leads edges.now start w ≡ true) × IsAway (leads edges.now) start last w }
    requires nearest { IsNoNearer (leads edges.now) start last start }
    ensures { (ds : List Connection) × (result ≡ start ∷ ds) × IsLeastWay (leads edges.now) start start last ds }
{
    let mut cycle = Cycle::new();
    cycle.push(start);
    let mut at = start;
    let mut left = last;
    while left > 0 {
        at = step(edges[at.0 as usize], levels[left]);
        cycle.push(at);
        left -= 1;
    }
    cycle
}

// The least connection of the level to which there is an edge.
fn step(targets: Edges, level: Edges) -> Conn
    requires { (w : Connection) × (has_edge targets w ≡ true) × (has_edge level w ≡ true) }
    ensures within { result.0 < 32 }
    ensures target { has_edge targets result ≡ true }
    ensures level { has_edge level result ≡ true }
    ensures least { (w : Connection) → has_edge targets w ≡ true → has_edge level w ≡ true → result.0 ≤ w.0 }
{
    targets.intersection(level).least().unwrap()
}

// The chosen cycle through the connection, where no lesser one lies on a cycle.
fn through(edges: &[Edges; 32], start: Conn) -> Option<Cycle>
    requires within { start.0 < 32 }
    requires least { (q : List Connection) (d : Connection) → IsCycle (leads edges.now) q → is_among d q ≡ true → start.0 ≤ d.0 }
    ensures { MatchOption result ((q : List Connection) → IsCycle (leads edges.now) q → is_among start q ≡ true → ⊥)
        (IsShortestThrough (leads edges.now) start) }
{
    let levels = levels(edges, start);
    match nearest(edges[start.0 as usize], &levels) {
        Some(last) => Some(walk_back(edges, &levels, start, last)),
        None => None,
    }
}

/// The chosen cycle of the edges from each connection, None exactly where there is no cycle: the
/// least connection that lies on a cycle, the shortest cycle through it, and among these the one
/// whose list is least. Where the sets are the edges of a history, it is the cycle by which the
/// history is judged. This project's own. No memory; for each connection the edges are gone over
/// once, breadth first.
pub fn cycle(edges: &[Edges; 32]) -> Option<Cycle>
    ensures chosen { MatchOption result (HasNoCycle (leads edges.now)) (IsChosen (leads edges.now)) }
    ensures judged { (targets : Connection → List Connection) (all : List Connection) → AreTargets (leads edges.now) targets all
        → result ≡ chosen_cycle targets all }
{
    for start in 0..32 {
        let found = through(edges, Conn(start));
        if found.is_some() {
            return found;
        }
    }
    None
}

/// Whether the connection lies on a cycle of the edges from each connection. This project's own. No
/// memory; the edges are gone over once, breadth first, and again for each level.
pub fn on_cycle(edges: &[Edges; 32], conn: Conn) -> bool
    requires { conn.0 < 32 }
    ensures on { (result ≡ true) ↔ ((q : List Connection) × IsCycle (leads edges.now) q × (is_among conn q ≡ true)) }
    ensures judged { (targets : Connection → List Connection) (all : List Connection) → AreTargets (leads edges.now) targets all
        → result ≡ is_on_cycle targets all conn }
{
    nearest(edges[conn.0 as usize], &levels(edges, conn)).is_some()
}

#[cfg(test)]
mod tests {
    use super::*;

    // The sets of edges of connections 0, 1, 2 ..; the others have none.
    fn graph(bits: &[u32]) -> [Edges; 32] {
        let mut sets = [Edges::none(); 32];
        for (set, bits) in sets.iter_mut().zip(bits.iter()) {
            *set = Edges(*bits);
        }
        sets
    }

    #[test]
    fn chosen_cycles(rt: HostRuntime) {
        let cases: [(&[u32], &[u8]); 9] = [
            // no edges
            (&[], &[]),
            // edges without a cycle
            (&[0b010, 0b100, 0], &[]),
            // a ring of three
            (&[0b010, 0b100, 0b001], &[0, 1, 2]),
            // of two cycles the one with the least member
            (&[0b1000, 0b0100, 0b0010, 0b0001], &[0, 3]),
            // of two shortest ones the least list
            (&[0b0110, 0b1000, 0b1000, 0b0001], &[0, 1, 3]),
            // the shortest one, though its list is not the least
            (&[0b00110, 0b01000, 0b10000, 0b10000, 0b00001], &[0, 2, 4]),
            // a longer one through the least connection before a shorter one elsewhere
            (&[0b00010, 0b00100, 0b00001, 0b10000, 0b01000], &[0, 1, 2]),
            // the least connection lies on none
            (&[0b010, 0b100, 0b010], &[1, 2]),
            // an edge to itself
            (&[0b10, 0b10], &[1]),
        ];
        for (bits, want) in cases.iter() {
            match cycle(&graph(bits)) {
                Some(found) => {
                    assert!(rt; found.len() as usize == want.len());
                    for at in 0..found.len() {
                        assert!(rt; found.member(at) == Conn(want[at as usize]));
                    }
                }
                None => assert!(rt; want.is_empty()),
            }
        }
    }

    #[test]
    fn who_lies_on_a_cycle(rt: HostRuntime) {
        let cases: [(&[u32], u32); 7] = [
            // no edges
            (&[], 0),
            // edges without a cycle
            (&[0b010, 0b100, 0], 0),
            // a ring of three, and one that leads into it
            (&[0b0010, 0b0100, 0b0001, 0b0001], 0b0111),
            // one leads into a ring, and one comes out of it
            (&[0b0010, 0b0100, 0b1010, 0], 0b0110),
            // two rings, with an edge from one to the other
            (&[0b0010, 0b0101, 0b1000, 0b0100], 0b1111),
            // an edge to itself
            (&[0b10, 0b10], 0b10),
            // on a longer cycle than the one that is chosen
            (&[0b0010, 0b0101, 0b1000, 0b0001], 0b1111),
        ];
        for (bits, want) in cases.iter() {
            let sets = graph(bits);
            for conn in 0..32 {
                assert!(rt; on_cycle(&sets, Conn(conn)) == Edges(*want).has(Conn(conn)));
            }
        }
    }

    #[test]
    fn ring_of_all_connections(rt: HostRuntime) {
        let mut ring = [Edges::none(); 32];
        for place in 0..31 {
            ring[place] = ring[place].with(Conn(place as u8 + 1));
        }
        ring[31] = ring[31].with(Conn(0));
        match cycle(&ring) {
            Some(found) => {
                assert!(rt; found.len() == 32);
                for at in 0..found.len() {
                    assert!(rt; found.member(at) == Conn(at));
                }
            }
            None => assert!(rt; false),
        }
    }
}
