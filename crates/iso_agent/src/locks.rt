//! The steps of locks, as an agent makes them.
ghost use Rattle.std.specs.Option.{option_map};
ghost use Rattle.std.specs.Prelude.{◌≡◌, ◌<◌, length, false, true, IsTrue, Some};
ghost use Rattle.iso_history.specs.Legal.{Runs, is_fresh_on};
ghost use Rattle.iso_history.specs.Outcomes.{asked_by, due_mode};
ghost use Rattle.iso_history.specs.Phases.{phase, waits_grantable};
ghost use Rattle.iso_history.specs.Requests.{may_ask, request};
ghost use Rattle.iso_history.specs.World.Last.{Looked};
ghost use Rattle.iso_history.specs.declared.entry.Act.TheVariants as acts;
ghost use Rattle.iso_state.specs.Stands.{StandsFor, world_of};
ghost use Rattle.iso_types.specs.declared.value.Name.TheVariants as names;
ghost use Rattle.iso_agent.specs.Steps.{HasStepped, kept_of_lock};

use crate::agent::Kept;
use crate::stepped::{Stepped, cause_of, keep, keep_escalation, waits};
use iso_conduct::Told;
use iso_locks::{Answer, StepClaim, claim, collapse, free, lock};
use iso_modes::Mode;
use iso_state::Parts;
use iso_types::{Conn, Name, Phase, Rid, TableId};

/// What is kept of the answer to a lock.
fn keep_lock(answer: Answer, waits: bool) -> Kept
    ensures { result ≡ kept_of_lock answer waits }
{
    match answer {
        Answer::Done => keep(Told::Done),
        Answer::Queued => keep(Told::Queued),
        Answer::TimedOut => keep(Told::TimedOut),
        Answer::Escalates(table) => keep_escalation(Told::Escalates(table), waits),
        Answer::Refused(code) => keep(Told::Refused(code)),
    }
}

/// Makes the entry of a lock that the statement asks for.
pub fn make_lock(parts: &mut Parts, conn: Conn, name: Name, mode: Mode) -> Stepped
    requires stands { StandsFor parts.old }
    requires open { (world_of parts.old).pace.finished ≡ false }
    requires conn { conn.0 < length parts.old.head.conns }
    requires runs { Runs (world_of parts.old) conn }
    requires may { IsTrue (may_ask parts.old.head (world_of parts.old) conn name mode) }
    ensures stands { StandsFor parts.new }
    ensures head { parts.new.head ≡ parts.old.head }
    ensures stepped { HasStepped parts.old.head parts.old.history.items parts.new.history.items conn (asked_by parts.old.head (world_of parts.old) conn name mode (request parts.old.head (world_of parts.old) conn name mode)) result }
{
    match lock(parts, conn, name, mode) {
        Ok(answer) => Stepped::Goes(keep_lock(answer, waits(parts, conn))),
        Err(fault) => Stepped::Stops(cause_of(fault)),
    }
}

/// Makes the entry of a wait that is granted.
pub fn make_claim(parts: &mut Parts, conn: Conn) -> Stepped
    requires stands { StandsFor parts.old }
    requires open { (world_of parts.old).pace.finished ≡ false }
    requires conn { conn.0 < length parts.old.head.conns }
    requires grantable { IsTrue (waits_grantable (world_of parts.old) conn) }
    ensures stands { StandsFor parts.new }
    ensures head { parts.new.head ≡ parts.old.head }
    ensures stepped { HasStepped parts.old.head parts.old.history.items parts.new.history.items conn acts.Claim result }
{
    match claim(parts, conn) {
        Ok(StepClaim::Granted) => Stepped::Goes(keep(Told::Granted)),
        Ok(StepClaim::NotYet) => unreachable!(),
        Ok(StepClaim::Ended(_)) => unreachable!(),
        Err(fault) => Stepped::Stops(cause_of(fault)),
    }
}

/// Makes the entry of a lock on a row that is given back.
pub fn make_free(parts: &mut Parts, conn: Conn, table: TableId, rid: Rid) -> Stepped
    requires stands { StandsFor parts.old }
    requires open { (world_of parts.old).pace.finished ≡ false }
    requires conn { conn.0 < length parts.old.head.conns }
    requires runs { Runs (world_of parts.old) conn }
    requires looked { (world_of parts.old).last conn ≡ Looked table rid }
    requires fresh { IsTrue (is_fresh_on (world_of parts.old) conn (names.Row table rid)) }
    ensures stands { StandsFor parts.new }
    ensures head { parts.new.head ≡ parts.old.head }
    ensures stepped { HasStepped parts.old.head parts.old.history.items parts.new.history.items conn (acts.Free table rid) result }
{
    match free(parts, conn, table, rid) {
        Ok(()) => Stepped::Goes(keep(Told::Done)),
        Err(fault) => Stepped::Stops(cause_of(fault)),
    }
}

/// Makes the entry of an escalation's end.
pub fn make_collapse(parts: &mut Parts, conn: Conn, table: TableId) -> Stepped
    requires stands { StandsFor parts.old }
    requires open { (world_of parts.old).pace.finished ≡ false }
    requires conn { conn.0 < length parts.old.head.conns }
    requires running { phase (world_of parts.old) conn ≡ Phase.Running }
    requires due { option_map (λ d. d.0) ((world_of parts.old).due conn) ≡ Some table }
    ensures stands { StandsFor parts.new }
    ensures head { parts.new.head ≡ parts.old.head }
    ensures stepped { HasStepped parts.old.head parts.old.history.items parts.new.history.items conn (acts.Collapse table (due_mode (world_of parts.old) conn)) result }
{
    match collapse(parts, conn, table) {
        Ok(()) => Stepped::Goes(keep(Told::Done)),
        Err(fault) => Stepped::Stops(cause_of(fault)),
    }
}
