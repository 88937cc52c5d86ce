//! The step `next_entry`: where an index scan comes to stand.
ghost use Rattle.std.specs.Prelude.{◌≡◌, ◌<◌, ◌++◌, [], ◌∷◌, length, false, true, Err, IsTrue, IfOk, OnOk, OnErr};
ghost use Rattle.iso_history.specs.Entries.{found as found_in};
ghost use Rattle.iso_history.specs.Legal.{Runs};
ghost use Rattle.iso_history.specs.Makers.{by_agent};
ghost use Rattle.iso_history.specs.Nexts.{may_next};
ghost use Rattle.iso_history.specs.Outcomes.{at_limit};
ghost use Rattle.iso_history.specs.Requests.{is_pressed};
ghost use Rattle.iso_history.specs.Stops.{is_full};
ghost use Rattle.iso_locks.specs.Answers.{answer_of};
ghost use Rattle.iso_state.specs.Stands.{StandsFor, content_of, world_of};
ghost use Rattle.iso_reads.specs.Answers.{comes_at_limit};
ghost use Rattle.iso_reads.specs.Nexts.{next_act, next_answer, stepped_limited};

use crate::finding::{find_entry, key_name, stand_at};
use crate::landing::{stand, take, time_out, wait};
use iso_locks::{Answer, escalate};
use iso_modes::Mode;
use iso_state::{Judged, Parts, judge};
use iso_types::{Conn, IndexId, Range, Rid, StepFault, TableId, Value};
use std::alloc::Global;

/// What comes of a step of an index scan. `At`: it stands at this entry; `Past`: behind the range; `Escalates`: the lock of
/// that table was asked for instead; `Refused`: with this SQLCODE.
#[derive(Clone, Copy)]
pub enum Stepped {
    At(Value, Rid),
    Past,
    Queued,
    TimedOut,
    Escalates(TableId),
    Refused(i32),
}

/// The answer to a step at the lock limit.
fn limited(answer: Answer) -> Stepped
    requires { comes_at_limit answer ≡ true }
    ensures { result ≡ stepped_limited answer }
{
    match answer {
        Answer::Escalates(table) => Stepped::Escalates(table),
        Answer::TimedOut => Stepped::TimedOut,
        Answer::Refused(code) => Stepped::Refused(code),
        Answer::Done => unreachable!(),
        Answer::Queued => unreachable!(),
    }
}

/// Makes the entry of a step whose need is at a limit: that of an escalation.
fn limit(parts: &mut Parts, conn: Conn) -> Result<Stepped, StepFault>
    requires stands { StandsFor parts.old }
    requires open { (world_of parts.old).pace.finished ≡ false }
    requires conn { conn.0 < length parts.old.head.conns }
    requires runs { Runs (world_of parts.old) conn }
    requires pressed { is_pressed parts.old.head (world_of parts.old) conn ≡ true }
    ensures stands { StandsFor parts.new }
    ensures head { parts.new.head ≡ parts.old.head }
    ensures answer { IfOk result (λ a. a ≡ stepped_limited (answer_of (at_limit parts.old.head (world_of parts.old) conn))) }
    ensures full { result ≡ Err StepFault.HistoryFull → is_full parts.old.head (world_of parts.old) (by_agent conn (at_limit parts.old.head (world_of parts.old) conn)) ≡ true }
    ensures ok { OnOk result (parts.new.history.items ≡ parts.old.history.items ++ by_agent conn (at_limit parts.old.head (world_of parts.old) conn) ∷ []) }
    ensures err { OnErr result (content_of parts.new ≡ content_of parts.old) }
{
    let answer = escalate(parts, conn)?;
    Ok(limited(answer))
}

/// A step that asks for S where it comes to stand.
fn guard(
    alloc: Global,
    parts: &mut Parts,
    conn: Conn,
    index: IndexId,
    range: &Range,
    after: Option<(Value, Rid)>,
    found: Option<(Value, Rid)>,
) -> Result<Stepped, StepFault>
    requires stands { StandsFor parts.old }
    requires open { (world_of parts.old).pace.finished ≡ false }
    requires conn { conn.0 < length parts.old.head.conns }
    requires runs { Runs (world_of parts.old) conn }
    requires may { IsTrue (may_next parts.old.head (world_of parts.old) conn index range.now after true) }
    requires found { found ≡ found_in (world_of parts.old) index range.now after }
    ensures stands { StandsFor parts.new }
    ensures head { parts.new.head ≡ parts.old.head }
    ensures answer { IfOk result (λ a. a ≡ next_answer (content_of parts.old) conn index range.now after true) }
    ensures full { result ≡ Err StepFault.HistoryFull → is_full parts.old.head (world_of parts.old) (by_agent conn (next_act parts.old.head (world_of parts.old) conn index range.now after true)) ≡ true }
    ensures ok { OnOk result (parts.new.history.items ≡ parts.old.history.items ++ by_agent conn (next_act parts.old.head (world_of parts.old) conn index range.now after true) ∷ []) }
    ensures err { OnErr result (content_of parts.new ≡ content_of parts.old) }
{
    let name = &key_name(index, &found);
    match judge(parts, conn, name, Mode::S) {
        Judged::Granted => {
            let at = stand_at(range, &found);
            take(alloc, parts, conn, index, range, after, name, at)
        }
        Judged::Queues(to) => wait(alloc, parts, conn, index, range, after, name, to),
        Judged::TimesOut => time_out(alloc, parts, conn, index, range, after, name),
        Judged::AtLimit => limit(parts, conn),
    }
}

/// Goes to the least entry of the index behind `after`, or at first to the least one whose key meets the range's low bound.
/// Where the step is `guarded` it asks for S on the key of that entry, in the range or not, or on the index's end where there
/// is none. `At`: it stands at this entry; `Past`: no entry is left in the range; `Queued`: the connection waits for the lock;
/// `TimedOut`: it may not wait, and has to roll back. Where its need is at the lock limit: `Escalates`, the lock of that table
/// was asked for instead, and is granted or queues, or `Refused(-912)`, where there is no such table. `HistoryFull`: its entry
/// would be full. After a fault all is as before. It costs a search of the index and a request; at the limit as `escalate`.
/// Db2 LUW, 'Next-key locking', 'Lock escalation', 'SQLCODE -911', 'SQLCODE -912'; key lock names are this project's own.
pub fn next_entry(
    alloc: Global,
    parts: &mut Parts,
    conn: Conn,
    index: IndexId,
    range: &Range,
    after: Option<(Value, Rid)>,
    guarded: bool,
) -> Result<Stepped, StepFault>
    requires stands { StandsFor parts.old }
    requires open { (world_of parts.old).pace.finished ≡ false }
    requires conn { conn.0 < length parts.old.head.conns }
    requires runs { Runs (world_of parts.old) conn }
    requires may { IsTrue (may_next parts.old.head (world_of parts.old) conn index range.now after guarded) }
    ensures stands { StandsFor parts.new }
    ensures head { parts.new.head ≡ parts.old.head }
    ensures answer { IfOk result (λ a. a ≡ next_answer (content_of parts.old) conn index range.now after guarded) }
    ensures full { result ≡ Err StepFault.HistoryFull → is_full parts.old.head (world_of parts.old) (by_agent conn (next_act parts.old.head (world_of parts.old) conn index range.now after guarded)) ≡ true }
    ensures ok { OnOk result (parts.new.history.items ≡ parts.old.history.items ++ by_agent conn (next_act parts.old.head (world_of parts.old) conn index range.now after guarded) ∷ []) }
    ensures err { OnErr result (content_of parts.new ≡ content_of parts.old) }
{
    let found = find_entry(parts, index, range, &after);
    if guarded {
        guard(alloc, parts, conn, index, range, after, found)
    } else {
        let at = stand_at(range, &found);
        stand(alloc, parts, conn, index, range, after, at)
    }
}
