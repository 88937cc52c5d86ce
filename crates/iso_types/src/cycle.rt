ghost use Rattle.std.specs.Prelude.{◌≡◌, ◌<◌, ◌≤◌, ◌++◌, [], ◌∷◌, length, slice_get, Some};

use crate::value::Conn;
use std::marker::Model;

/// A list of at most 32 connections, in a fixed array. Contracts see the list of its members.
/// No call takes memory.
#[derive(Clone, Drop)]
pub struct Cycle {
    members: [Conn; 32],
    len: u8,
}

impl Model for Cycle {
    ghost use Rattle.std.specs.Prelude.{List, ◌≤◌, ◌≡◌, take, length};
    ghost use Rattle.iso_types.specs.declared.value.Conn.{Conn as Member};

    ghost Value = { List Member };

    ghost view = { λ c. take c.len c.members };

    ghost invariant = { λ c. (c.len ≤ 32) × (length c.members ≡ 32) };
}

impl Cycle {
    /// A list without members.
    pub fn new() -> Cycle
        ensures { result ≡ [] }
    {
        Cycle {
            members: [Conn(0); 32],
            len: 0,
        }
    }

    /// Adds a member at the end.
    pub fn push(&mut self, member: Conn)
        requires { length self.old < 32 }
        ensures { self.new ≡ self.old ++ member ∷ [] }
    {
        self.members[self.len as usize] = member;
        self.len += 1;
    }

    /// The number of members.
    pub fn len(&self) -> u8
        ensures number { result ≡ length self.now }
        ensures short { length self.now ≤ 32 }
    {
        self.len
    }

    /// The member at this place, from 0.
    pub fn member(&self, at: u8) -> Conn
        requires { at < length self.now }
        ensures { Some result ≡ slice_get self.now at }
    {
        self.members[at as usize]
    }
}
