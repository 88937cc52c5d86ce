//! Whom an entry has made able.
ghost use Rattle.std.specs.Prelude.{◌<◌, length};
ghost use Rattle.iso_state.specs.Stands.{StandsFor};

use crate::agent::Turned;
use crate::ways::{Way, find_way};
use iso_state::Parts;
use iso_types::{Conn, Edges};

/// Who is rung for after an entry: the connections that can go on now and could not before it, and whether the dispatcher is, too.
/// (This project's own.)
#[derive(Clone, Copy)]
pub struct Wakes {
    pub conns: Edges,
    pub leads: bool,
}

/// Whether the connection can go on.
fn goes_on(parts: &Parts, conn: Conn) -> bool
    requires stands { StandsFor parts.now }
    requires conn { conn.0 < length parts.now.head.conns }
{
    match find_way(parts, conn) {
        Way::Rest => false,
        Way::End => false,
        Way::Close => true,
        Way::Run => true,
    }
}

/// The connections that can go on, given those that could before the last entry: its maker may have come to rest, and no other
/// who could go on is looked at. It looks at the phase of each of the rest, and asks the lock list for each that waits. (This
/// project's own.)
pub fn able_behind(parts: &Parts, before: Edges) -> Edges
    requires stands { StandsFor parts.now }
{
    let mut able = before;
    for at in 0..32u8 {
        if usize::from(at) >= parts.head.conns.len() {
            return able;
        }
        if !before.has(Conn(at)) && goes_on(parts, Conn(at)) {
            able = able.with(Conn(at));
        }
    }
    able
}

/// These without one.
fn without(conns: Edges, one: Conn) -> Edges {
    if one.0 < 32 {
        conns.difference(Edges::none().with(one))
    } else {
        conns
    }
}

/// Who can go on behind a turn of this connection, given who could before it: where it made no entry all is as it was, but that
/// the connection itself can't go on. It costs nothing then, and what `able_behind` does behind an entry. (This project's own.)
pub fn able_after(parts: &Parts, before: Edges, maker: Conn, turned: Turned) -> Edges
    requires stands { StandsFor parts.now }
{
    let others = without(before, maker);
    match turned {
        Turned::Ran => able_behind(parts, others),
        Turned::Rests => others,
        Turned::Ended => others,
    }
}

impl Wakes {
    /// Whether anybody is rung for. (This project's own.)
    pub fn means_any(self) -> bool {
        self.leads || self.conns.least().is_some()
    }

    /// Nobody.
    pub fn none() -> Wakes {
        Wakes {
            conns: Edges::none(),
            leads: false,
        }
    }

    /// Those that an entry of this connection has made able, from who was able before it and who is after it. The dispatcher is
    /// rung for where its maker can't go on, since nothing comes to rest before, and where somebody else can, since the
    /// dispatcher's thread may drive the agent. (This project's own.)
    pub fn between(before: Edges, after: Edges, maker: Conn) -> Wakes {
        let conns = after.difference(before);
        let rests = maker.0 >= 32 || !after.has(maker);
        Wakes {
            conns,
            leads: rests || conns.least().is_some(),
        }
    }

    /// The connections that an entry of the dispatcher has made able, who does not ring for itself. (This project's own.)
    pub fn led(before: Edges, after: Edges) -> Wakes {
        Wakes {
            conns: after.difference(before),
            leads: false,
        }
    }
}
