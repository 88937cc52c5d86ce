//! What keeps a write from being made: the entry that says so.
ghost use Rattle.std.specs.Prelude.{◌≡◌, ◌<◌, ◌++◌, [], ◌∷◌, length, false, true, Err, IfOk, IsTrue, OnOk, OnErr};
ghost use Rattle.iso_history.specs.Legal.{Runs};
ghost use Rattle.iso_history.specs.Makers.{by_agent};
ghost use Rattle.iso_history.specs.Outcomes.{at_limit, blocked_by};
ghost use Rattle.iso_history.specs.Records.{is_past_log};
ghost use Rattle.iso_history.specs.Requests.{is_pressed, may_ask, request};
ghost use Rattle.iso_history.specs.Stops.{is_full};
ghost use Rattle.iso_history.specs.Writes.{is_block, minus};
ghost use Rattle.iso_history.specs.declared.entry.Act.TheVariants as acts;
ghost use Rattle.iso_state.specs.Stands.{StandsFor, content_of, world_of};
ghost use Rattle.iso_writes.specs.Answers.{answer_of};
ghost use Rattle.iso_writes.specs.Changing.{blocked_by_name};

use crate::coming::{Written, limited};
use crate::writing::refuse;
use iso_locks::{Answer, block, escalate};
use iso_modes::Mode;
use iso_state::Parts;
use iso_types::{Conn, Name, StepFault};

/// Makes the refusal of a change that is past the log: SQLCODE -964.
pub fn refuse_past(parts: &mut Parts, conn: Conn) -> Result<Written, StepFault>
    requires stands { StandsFor parts.old }
    requires open { (world_of parts.old).pace.finished ≡ false }
    requires conn { conn.0 < length parts.old.head.conns }
    requires runs { Runs (world_of parts.old) conn }
    requires past { is_past_log parts.old.head (world_of parts.old) ≡ true }
    ensures stands { StandsFor parts.new }
    ensures head { parts.new.head ≡ parts.old.head }
    ensures answer { IfOk result (λ a. a ≡ Written.Refused (minus 964)) }
    ensures full { result ≡ Err StepFault.HistoryFull → is_full parts.old.head (world_of parts.old) (by_agent conn (acts.Refused (minus 964))) ≡ true }
    ensures ok { OnOk result (parts.new.history.items ≡ parts.old.history.items ++ by_agent conn (acts.Refused (minus 964)) ∷ []) }
    ensures err { OnErr result (content_of parts.new ≡ content_of parts.old) }
{
    refuse(parts, conn, -964)?;
    Ok(Written::Refused(-964))
}

/// Makes the refusal of a row whose key another row has in a unique index: SQLCODE -803.
pub fn refuse_taken(parts: &mut Parts, conn: Conn) -> Result<Written, StepFault>
    requires stands { StandsFor parts.old }
    requires open { (world_of parts.old).pace.finished ≡ false }
    requires conn { conn.0 < length parts.old.head.conns }
    requires runs { Runs (world_of parts.old) conn }
    ensures stands { StandsFor parts.new }
    ensures head { parts.new.head ≡ parts.old.head }
    ensures answer { IfOk result (λ a. a ≡ Written.Refused (minus 803)) }
    ensures full { result ≡ Err StepFault.HistoryFull → is_full parts.old.head (world_of parts.old) (by_agent conn (acts.Refused (minus 803))) ≡ true }
    ensures ok { OnOk result (parts.new.history.items ≡ parts.old.history.items ++ by_agent conn (acts.Refused (minus 803)) ∷ []) }
    ensures err { OnErr result (content_of parts.new ≡ content_of parts.old) }
{
    refuse(parts, conn, -803)?;
    Ok(Written::Refused(-803))
}

/// Makes the entry of a write whose need is at a lock limit: that of an escalation.
pub fn limit(parts: &mut Parts, conn: Conn) -> Result<Written, StepFault>
    requires stands { StandsFor parts.old }
    requires open { (world_of parts.old).pace.finished ≡ false }
    requires conn { conn.0 < length parts.old.head.conns }
    requires runs { Runs (world_of parts.old) conn }
    requires pressed { is_pressed parts.old.head (world_of parts.old) conn ≡ true }
    ensures stands { StandsFor parts.new }
    ensures head { parts.new.head ≡ parts.old.head }
    ensures answer { IfOk result (λ a. a ≡ answer_of (at_limit parts.old.head (world_of parts.old) conn)) }
    ensures full { result ≡ Err StepFault.HistoryFull → is_full parts.old.head (world_of parts.old) (by_agent conn (at_limit parts.old.head (world_of parts.old) conn)) ≡ true }
    ensures ok { OnOk result (parts.new.history.items ≡ parts.old.history.items ++ by_agent conn (at_limit parts.old.head (world_of parts.old) conn) ∷ []) }
    ensures err { OnErr result (content_of parts.new ≡ content_of parts.old) }
{
    let answer = escalate(parts, conn)?;
    Ok(limited(answer))
}

/// The answer to the lock of a blocked write: the name that blocks, that it timed out, or what comes at the lock limit.
fn blocked(answer: Answer, name: &Name) -> Written
    ensures { result ≡ blocked_by_name answer name.now }
{
    match answer {
        Answer::Done => Written::Blocked(*name),
        Answer::Queued => Written::Blocked(*name),
        Answer::TimedOut => Written::TimedOut,
        Answer::Escalates(table) => Written::Escalates(table),
        Answer::Refused(code) => Written::Refused(code),
    }
}

/// Makes the entry of a write that another connection's lock on the name blocks: the lock is asked for in this mode.
pub fn wait_for(
    parts: &mut Parts,
    conn: Conn,
    name: &Name,
    mode: Mode,
) -> Result<Written, StepFault>
    requires stands { StandsFor parts.old }
    requires open { (world_of parts.old).pace.finished ≡ false }
    requires conn { conn.0 < length parts.old.head.conns }
    requires runs { Runs (world_of parts.old) conn }
    requires may { IsTrue (may_ask parts.old.head (world_of parts.old) conn name.now mode) }
    requires blocked { IsTrue (is_block parts.old.head (world_of parts.old) conn name.now mode) }
    ensures stands { StandsFor parts.new }
    ensures head { parts.new.head ≡ parts.old.head }
    ensures answer { IfOk result (λ a. a ≡ answer_of (blocked_by parts.old.head (world_of parts.old) conn name.now mode (request parts.old.head (world_of parts.old) conn name.now mode))) }
    ensures full { result ≡ Err StepFault.HistoryFull → is_full parts.old.head (world_of parts.old) (by_agent conn (blocked_by parts.old.head (world_of parts.old) conn name.now mode (request parts.old.head (world_of parts.old) conn name.now mode))) ≡ true }
    ensures ok { OnOk result (parts.new.history.items ≡ parts.old.history.items ++ by_agent conn (blocked_by parts.old.head (world_of parts.old) conn name.now mode (request parts.old.head (world_of parts.old) conn name.now mode)) ∷ []) }
    ensures err { OnErr result (content_of parts.new ≡ content_of parts.old) }
{
    let answer = block(parts, conn, name, mode)?;
    Ok(blocked(answer, name))
}
