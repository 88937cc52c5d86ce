ghost use Rattle.std.specs.Prelude.{◌≡◌, ◌⊎◌, ◌<◌, ◌++◌, [], ◌∷◌, length, false, true, Err, IfOk, OnOk, OnErr};
ghost use Rattle.iso_history.specs.Makers.{by_agent};
ghost use Rattle.iso_history.specs.Phases.{phase};
ghost use Rattle.iso_history.specs.Stops.{is_full};
ghost use Rattle.iso_queue.specs.Queues.{is_grantable};
ghost use Rattle.iso_state.specs.Stands.{StandsFor, content_of, world_of};
ghost use Rattle.iso_locks.specs.Claims.{claim_of, claims};

use iso_history::{Act, Entry, Who};
use iso_state::{Parts, can_claim, desk_of, make_room, move_to};
use iso_types::{Conn, Desk, Phase, StepFault};

/// What comes of a claim. `Ended`: the wait was ended, with this reason of a rollback.
#[derive(Clone, Copy, PartialEq, Eq)]
pub enum StepClaim {
    Granted,
    NotYet,
    Ended(u8),
}

/// Makes the entry of a wait that is granted.
fn grant(parts: &mut Parts, conn: Conn) -> Result<(), StepFault>
    requires stands { StandsFor parts.old }
    requires open { (world_of parts.old).pace.finished ≡ false }
    requires conn { conn.0 < length parts.old.head.conns }
    requires waits { phase (world_of parts.old) conn ≡ Phase.Waiting }
    requires grantable { is_grantable (world_of parts.old).holds (world_of parts.old).waits conn ≡ true }
    ensures stands { StandsFor parts.new }
    ensures head { parts.new.head ≡ parts.old.head }
    ensures full { result ≡ Err StepFault.HistoryFull → is_full parts.old.head (world_of parts.old) (by_agent conn Act.Claim) ≡ true }
    ensures ok { OnOk result (parts.new.history.items ≡ parts.old.history.items ++ by_agent conn Act.Claim ∷ []) }
    ensures err { OnErr result (content_of parts.new ≡ content_of parts.old) }
{
    make_room(parts, 1)?;
    parts.locks.settle(conn, None);
    let _ = parts.locks.claim(conn);
    let desk = Desk {
        phase: Phase::Running,
        claimed: true,
        ..desk_of(parts, conn)
    };
    let who = Who::Agent(conn);
    let act = Act::Claim;
    move_to(parts, conn, desk, Entry { who, act });
    Ok(())
}

/// Takes the lock that the connection awaits, where nothing keeps it from it: `Granted`, and the statement goes on. `NotYet`:
/// it still waits; `Ended`: it does not wait any more, and has to roll back. Only `Granted` adds an entry. `HistoryFull`: its
/// entry would be full. After a fault all is as before. Its cost is that of a claim of the lock list.
/// Db2 LUW, 'Lock waits and timeouts'; in which order waits are granted is this project's own.
pub fn claim(parts: &mut Parts, conn: Conn) -> Result<StepClaim, StepFault>
    requires stands { StandsFor parts.old }
    requires open { (world_of parts.old).pace.finished ≡ false }
    requires conn { conn.0 < length parts.old.head.conns }
    requires waited { (phase (world_of parts.old) conn ≡ Phase.Waiting) ⊎ (phase (world_of parts.old) conn ≡ Phase.Rolling) }
    ensures stands { StandsFor parts.new }
    ensures head { parts.new.head ≡ parts.old.head }
    ensures answer { IfOk result (λ a. a ≡ claim_of (world_of parts.old) conn) }
    ensures full { result ≡ Err StepFault.HistoryFull → is_full parts.old.head (world_of parts.old) (by_agent conn Act.Claim) ≡ true }
    ensures ok { OnOk result (parts.new.history.items ≡ parts.old.history.items ++ claims (world_of parts.old) conn) }
    ensures err { OnErr result (content_of parts.new ≡ content_of parts.old) }
{
    let desk = desk_of(parts, conn);
    if desk.phase == Phase::Rolling {
        return Ok(StepClaim::Ended(desk.doom));
    }
    if !can_claim(parts, conn) {
        return Ok(StepClaim::NotYet);
    }
    grant(parts, conn)?;
    Ok(StepClaim::Granted)
}
