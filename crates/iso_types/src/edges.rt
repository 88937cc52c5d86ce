ghost use Rattle.std.specs.Prelude.{◌≡◌, ◌<◌, ◌≤◌, ◌↔◌, ◌&&◌, ◌||◌, not, true, false, MatchOption};
ghost use Rattle.iso_types.specs.Edges.{has_edge};
ghost use Rattle.iso_types.specs.Ids.{conn_eq};
ghost use Rattle.iso_types.specs.declared.value.Conn.{Conn as Connection};

use crate::value::Conn;

/// A set of connections, those to which a waiter has an edge: bit c for connection c.
#[derive(Clone, Copy, PartialEq, Eq)]
pub struct Edges(pub u32);

impl Edges {
    /// No edge.
    pub fn none() -> Edges
        ensures { (c : Connection) → has_edge result c ≡ false }
    {
        Edges(0)
    }

    /// Whether there is an edge to the connection.
    pub fn has(self, conn: Conn) -> bool
        requires { conn.0 < 32 }
        ensures { result ≡ has_edge self conn }
    {
        (self.0 >> conn.0) & 1 == 1
    }

    /// These edges, and one to the connection.
    pub fn with(self, conn: Conn) -> Edges
        requires { conn.0 < 32 }
        ensures { (c : Connection) → has_edge result c ≡ (conn_eq c conn || has_edge self c) }
    {
        Edges(self.0 | 1 << conn.0)
    }

    /// The edges of either set.
    pub fn union(self, other: Edges) -> Edges
        ensures { (c : Connection) → has_edge result c ≡ (has_edge self c || has_edge other c) }
    {
        Edges(self.0 | other.0)
    }

    /// The edges that both sets have.
    pub fn intersection(self, other: Edges) -> Edges
        ensures { (c : Connection) → has_edge result c ≡ (has_edge self c && has_edge other c) }
    {
        Edges(self.0 & other.0)
    }

    /// The edges of this set that the other does not have.
    pub fn difference(self, other: Edges) -> Edges
        ensures { (c : Connection) → has_edge result c ≡ (has_edge self c && not (has_edge other c)) }
    {
        Edges(self.0 & !other.0)
    }

    /// Whether both sets have an edge to one connection.
    pub fn meets(self, other: Edges) -> bool
        ensures { (result ≡ true) ↔ ((c : Connection) × (has_edge self c ≡ true) × (has_edge other c ≡ true)) }
    {
        self.0 & other.0 != 0
    }

    /// The least connection to which there is an edge, or None exactly where there is none.
    pub fn least(self) -> Option<Conn>
        ensures { MatchOption result ((c : Connection) → has_edge self c ≡ false)
            (λ d. (has_edge self d ≡ true) × (d.0 < 32) × ((c : Connection) → has_edge self c ≡ true → d.0 ≤ c.0)) }
    {
        if self.0 == 0 {
            return None;
        }
        Some(Conn(self.0.trailing_zeros() as u8))
    }
}
