ghost use Rattle.std.specs.Prelude.{◌≡◌, ◌<◌, length};
ghost use Rattle.iso_chain.specs.Writes.{committed};
ghost use Rattle.iso_history.specs.Legal.{Runs};
ghost use Rattle.iso_history.specs.Records.{left, left_of};
ghost use Rattle.iso_history.specs.Units.{unit_of};
ghost use Rattle.iso_state.specs.Changes.{rechained};
ghost use Rattle.iso_state.specs.Stands.{StandsFor, content_of, world_of};
ghost use Rattle.iso_state.specs.Steps.{KeepsRoom};

use crate::parts::Parts;
use iso_chain::commit as write_committed;
use iso_types::Conn;

/// Writes a commit of a running connection's unit into slots and units, and tells how many of its records were not undone.
/// It costs as much as there are records of the unit, and takes no memory.
pub fn write_commit(parts: &mut Parts, conn: Conn) -> u32
    requires stands { StandsFor parts.old }
    requires conn { conn.0 < length parts.old.head.conns }
    requires runs { Runs (world_of parts.old) conn }
    ensures left { result ≡ length (left_of (world_of parts.old) conn) }
    ensures wrote { content_of parts.new ≡ rechained (content_of parts.old)
        (committed (content_of parts.old).chain conn (left (world_of parts.old).records (unit_of (world_of parts.old) conn))) }
    ensures room { KeepsRoom parts.old parts.new }
{
    let before = parts.units.debt();
    write_committed(&mut parts.tables, &parts.log, &mut parts.units, conn);
    before - parts.units.debt()
}
