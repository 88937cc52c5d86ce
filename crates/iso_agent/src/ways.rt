//! What a connection can do next, by its phase.
ghost use Rattle.std.specs.Prelude.{◌<◌, length};
ghost use Rattle.iso_state.specs.Stands.{StandsFor, world_of};
ghost use Rattle.iso_agent.specs.Ways.{IsWay};

use iso_state::{Parts, can_claim, desk_of};
use iso_types::{Conn, Phase};

/// What a connection can do next: nothing, while it is idle or waits for a lock that it can't have, or since it has ended; undo
/// and end what it has left; or go on with its statement.
#[derive(Clone, Copy, PartialEq, Eq)]
pub enum Way {
    Rest,
    End,
    Close,
    Run,
}

/// What the connection can do next. It takes no memory.
pub fn find_way(parts: &Parts, conn: Conn) -> Way
    requires stands { StandsFor parts.now }
    requires conn { conn.0 < length parts.now.head.conns }
    ensures { IsWay (world_of parts.now) conn result }
{
    match desk_of(parts, conn).phase {
        Phase::Idle => Way::Rest,
        Phase::Running => Way::Run,
        Phase::Waiting => {
            if can_claim(parts, conn) {
                Way::Run
            } else {
                Way::Rest
            }
        }
        Phase::Rolling => Way::Run,
        Phase::Closing => Way::Close,
        Phase::Ended => Way::End,
    }
}
