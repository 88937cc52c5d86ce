//! The step `look`: what a connection sees of a slot, by what it wants of it.
ghost use Rattle.std.specs.Prelude.{◌≡◌, ◌≢◌, ◌<◌, ◌≤◌, ◌++◌, [], ◌∷◌, length, false, true, None, Err, IsTrue, IfOk, OnOk, OnErr, nat_lt};
ghost use Rattle.iso_history.specs.Legal.{Runs};
ghost use Rattle.iso_history.specs.Looks.{look as looks, may_look, shown};
ghost use Rattle.iso_history.specs.Makers.{by_agent};
ghost use Rattle.iso_history.specs.Outcomes.{at_limit, look_act, look_by};
ghost use Rattle.iso_history.specs.Requests.{is_pressed};
ghost use Rattle.iso_history.specs.Requests.Outcome.{Gives, Limit};
ghost use Rattle.iso_history.specs.Stops.{is_full};
ghost use Rattle.iso_history.specs.Versions.{is_pending, slots, versions};
ghost use Rattle.iso_history.specs.declared.entry.Act.TheVariants as acts;
ghost use Rattle.iso_history.specs.declared.entry.Got.{Got as Gained};
ghost use Rattle.iso_locks.specs.Answers.{answer_of};
ghost use Rattle.iso_types.specs.Head.{is_table};
ghost use Rattle.iso_state.specs.Stands.{StandsFor, content_of, world_of};
ghost use Rattle.iso_reads.specs.Answers.{Shows, answer_at, answer_by, comes_at_limit, is_beside as beside, limited as limited_by, pin_of, seen};

use crate::asking::{judge_look, places};
use crate::outcomes::{Looked, end, pass, take_row, time_out, wait};
use crate::plain::{is_plain, look_plain, show};
use crate::slots::{is_changed_beside, is_slot, pin_at};
use iso_history::Want;
use iso_locks::{Answer, escalate};
use iso_state::{Judged, Parts};
use iso_types::{Conn, Rid, StepFault, TableId};
use std::alloc::Global;

/// Whether what a granted look sees is not the present row: it is beside a pending version of another unit. A look that locks
/// its row is not.
fn is_beside(parts: &Parts, conn: Conn, table: TableId, rid: Rid, want: Want) -> bool
    requires stands { StandsFor parts.now }
    requires conn { conn.0 < length parts.now.head.conns }
    requires rid { rid.0 < slots (world_of parts.now) table }
    requires may { IsTrue (may_look parts.now.head (world_of parts.now) conn table rid want) }
    requires outcome { looks parts.now.head (world_of parts.now) conn table rid want ≡ Gives Gained.Granted }
    ensures { result ≡ beside (world_of parts.now) conn table rid want }
{
    match want {
        Want::Dirty => false,
        Want::Current => is_changed_beside(parts, conn, table, rid),
        Want::Settled => is_changed_beside(parts, conn, table, rid),
        Want::Steady => false,
        Want::Repeat => false,
        Want::Alter => false,
        Want::AlterKept => false,
    }
}

/// The slot with the log's own records from its first to its head.
fn pin(alloc: Global, parts: &Parts, table: TableId, rid: Rid) -> Result<Looked, StepFault>
    requires stands { StandsFor parts.now }
    requires rid { rid.0 < slots (world_of parts.now) table }
    requires pending { is_pending (versions (world_of parts.now) table rid) ≡ true }
    ensures answer { IfOk result (λ a. a ≡ Looked.Pinned (pin_of (content_of parts.now) table rid)) }
    ensures fault { result ≢ Err StepFault.HistoryFull }
{
    match pin_at(alloc, parts, table, rid) {
        Ok(past) => Ok(Looked::Pinned(past)),
        Err(_) => Err(StepFault::Memory),
    }
}

/// What is seen of a slot whose look is granted: a copy of its row, or a pin of its records. Nothing is written.
fn see(
    alloc: Global,
    parts: &Parts,
    conn: Conn,
    table: TableId,
    rid: Rid,
    want: Want,
) -> Result<Looked, StepFault>
    requires stands { StandsFor parts.now }
    requires conn { conn.0 < length parts.now.head.conns }
    requires rid { rid.0 < slots (world_of parts.now) table }
    requires may { IsTrue (may_look parts.now.head (world_of parts.now) conn table rid want) }
    requires outcome { looks parts.now.head (world_of parts.now) conn table rid want ≡ Gives Gained.Granted }
    ensures answer { IfOk result (λ a. a ≡ seen (content_of parts.now) conn table rid want) }
    ensures fault { result ≢ Err StepFault.HistoryFull }
{
    if is_beside(parts, conn, table, rid, want) {
        pin(alloc, parts, table, rid)
    } else {
        show(alloc, parts, table, rid)
    }
}

/// Makes the entry of a look that is granted.
fn admit(
    parts: &mut Parts,
    conn: Conn,
    table: TableId,
    rid: Rid,
    want: Want,
) -> Result<(), StepFault>
    requires stands { StandsFor parts.old }
    requires open { (world_of parts.old).pace.finished ≡ false }
    requires conn { conn.0 < length parts.old.head.conns }
    requires runs { Runs (world_of parts.old) conn }
    requires rid { rid.0 < slots (world_of parts.old) table }
    requires may { IsTrue (may_look parts.old.head (world_of parts.old) conn table rid want) }
    requires outcome { looks parts.old.head (world_of parts.old) conn table rid want ≡ Gives Gained.Granted }
    ensures stands { StandsFor parts.new }
    ensures head { parts.new.head ≡ parts.old.head }
    ensures full { result ≡ Err StepFault.HistoryFull → is_full parts.old.head (world_of parts.old) (by_agent conn (acts.Look table rid want Gained.Granted)) ≡ true }
    ensures ok { OnOk result (parts.new.history.items ≡ parts.old.history.items ++ by_agent conn (acts.Look table rid want Gained.Granted) ∷ []) }
    ensures err { OnErr result (content_of parts.new ≡ content_of parts.old) }
{
    if places(parts, table, rid, want) {
        take_row(parts, conn, table, rid, want)
    } else {
        pass(parts, conn, table, rid, want)
    }
}

/// Makes the entry of a look that is granted, and tells what is seen: it is copied before anything is written.
fn grant(
    alloc: Global,
    parts: &mut Parts,
    conn: Conn,
    table: TableId,
    rid: Rid,
    want: Want,
) -> Result<Looked, StepFault>
    requires stands { StandsFor parts.old }
    requires open { (world_of parts.old).pace.finished ≡ false }
    requires conn { conn.0 < length parts.old.head.conns }
    requires runs { Runs (world_of parts.old) conn }
    requires rid { rid.0 < slots (world_of parts.old) table }
    requires may { IsTrue (may_look parts.old.head (world_of parts.old) conn table rid want) }
    requires outcome { looks parts.old.head (world_of parts.old) conn table rid want ≡ Gives Gained.Granted }
    ensures stands { StandsFor parts.new }
    ensures head { parts.new.head ≡ parts.old.head }
    ensures answer { IfOk result (λ a. a ≡ seen (content_of parts.old) conn table rid want) }
    ensures full { result ≡ Err StepFault.HistoryFull → is_full parts.old.head (world_of parts.old) (by_agent conn (acts.Look table rid want Gained.Granted)) ≡ true }
    ensures ok { OnOk result (parts.new.history.items ≡ parts.old.history.items ++ by_agent conn (acts.Look table rid want Gained.Granted) ∷ []) }
    ensures err { OnErr result (content_of parts.new ≡ content_of parts.old) }
{
    let seen = see(alloc, parts, conn, table, rid, want)?;
    admit(parts, conn, table, rid, want)?;
    Ok(seen)
}

/// The answer to a look at the lock limit.
fn limited(answer: Answer) -> Looked
    requires { comes_at_limit answer ≡ true }
    ensures { result ≡ limited_by answer }
{
    match answer {
        Answer::Escalates(table) => Looked::Escalates(table),
        Answer::TimedOut => Looked::TimedOut,
        Answer::Refused(code) => Looked::Refused(code),
        Answer::Done => unreachable!(),
        Answer::Queued => unreachable!(),
    }
}

/// Makes the entry of a look whose need is at a limit: that of an escalation.
fn limit(parts: &mut Parts, conn: Conn) -> Result<Looked, StepFault>
    requires stands { StandsFor parts.old }
    requires open { (world_of parts.old).pace.finished ≡ false }
    requires conn { conn.0 < length parts.old.head.conns }
    requires runs { Runs (world_of parts.old) conn }
    requires pressed { is_pressed parts.old.head (world_of parts.old) conn ≡ true }
    ensures stands { StandsFor parts.new }
    ensures head { parts.new.head ≡ parts.old.head }
    ensures answer { IfOk result (λ a. a ≡ limited_by (answer_of (at_limit parts.old.head (world_of parts.old) conn))) }
    ensures full { result ≡ Err StepFault.HistoryFull → is_full parts.old.head (world_of parts.old) (by_agent conn (at_limit parts.old.head (world_of parts.old) conn)) ≡ true }
    ensures ok { OnOk result (parts.new.history.items ≡ parts.old.history.items ++ by_agent conn (at_limit parts.old.head (world_of parts.old) conn) ∷ []) }
    ensures err { OnErr result (content_of parts.new ≡ content_of parts.old) }
{
    let answer = escalate(parts, conn)?;
    Ok(limited(answer))
}

/// Looks at a slot.
fn look_at(
    alloc: Global,
    parts: &mut Parts,
    conn: Conn,
    table: TableId,
    rid: Rid,
    want: Want,
) -> Result<Looked, StepFault>
    requires stands { StandsFor parts.old }
    requires open { (world_of parts.old).pace.finished ≡ false }
    requires conn { conn.0 < length parts.old.head.conns }
    requires runs { Runs (world_of parts.old) conn }
    requires rid { rid.0 < slots (world_of parts.old) table }
    requires may { IsTrue (may_look parts.old.head (world_of parts.old) conn table rid want) }
    ensures stands { StandsFor parts.new }
    ensures head { parts.new.head ≡ parts.old.head }
    ensures answer { IfOk result (λ a. a ≡ answer_by (content_of parts.old) conn table rid want (looks parts.old.head (world_of parts.old) conn table rid want)) }
    ensures full { result ≡ Err StepFault.HistoryFull → is_full parts.old.head (world_of parts.old) (by_agent conn (look_by parts.old.head (world_of parts.old) conn table rid want (looks parts.old.head (world_of parts.old) conn table rid want))) ≡ true }
    ensures ok { OnOk result (parts.new.history.items ≡ parts.old.history.items ++ by_agent conn (look_by parts.old.head (world_of parts.old) conn table rid want (looks parts.old.head (world_of parts.old) conn table rid want)) ∷ []) }
    ensures err { OnErr result (content_of parts.new ≡ content_of parts.old) }
{
    match judge_look(parts, conn, table, rid, want) {
        Judged::Granted => grant(alloc, parts, conn, table, rid, want),
        Judged::Queues(to) => {
            wait(parts, conn, table, rid, want, to)?;
            Ok(Looked::Queued)
        }
        Judged::TimesOut => {
            time_out(parts, conn, table, rid, want)?;
            Ok(Looked::TimedOut)
        }
        Judged::AtLimit => limit(parts, conn),
    }
}

/// Looks at a slot. Most looks need no lock: that is asked first.
fn look_slot(
    alloc: Global,
    parts: &mut Parts,
    conn: Conn,
    table: TableId,
    rid: Rid,
    want: Want,
) -> Result<Looked, StepFault>
    requires stands { StandsFor parts.old }
    requires open { (world_of parts.old).pace.finished ≡ false }
    requires conn { conn.0 < length parts.old.head.conns }
    requires runs { Runs (world_of parts.old) conn }
    requires rid { rid.0 < slots (world_of parts.old) table }
    requires may { IsTrue (may_look parts.old.head (world_of parts.old) conn table rid want) }
    ensures stands { StandsFor parts.new }
    ensures head { parts.new.head ≡ parts.old.head }
    ensures answer { IfOk result (λ a. a ≡ answer_by (content_of parts.old) conn table rid want (looks parts.old.head (world_of parts.old) conn table rid want)) }
    ensures full { result ≡ Err StepFault.HistoryFull → is_full parts.old.head (world_of parts.old) (by_agent conn (look_by parts.old.head (world_of parts.old) conn table rid want (looks parts.old.head (world_of parts.old) conn table rid want))) ≡ true }
    ensures ok { OnOk result (parts.new.history.items ≡ parts.old.history.items ++ by_agent conn (look_by parts.old.head (world_of parts.old) conn table rid want (looks parts.old.head (world_of parts.old) conn table rid want)) ∷ []) }
    ensures err { OnErr result (content_of parts.new ≡ content_of parts.old) }
{
    if is_plain(parts, conn, table, rid, want) {
        look_plain(alloc, parts, conn, table, rid, want)
    } else {
        look_at(alloc, parts, conn, table, rid, want)
    }
}

/// Looks at a slot as the want asks, or finds the end of the table, where the rid is the number of its slots. `Shown`: this
/// row is seen, or none; `Pinned`: what `rebuild` makes of it is seen, the row last committed beside a pending one of another
/// unit; `Queued`: the connection waits for a lock; `TimedOut`: it may not wait, and has to roll back. Where its need is at
/// the lock limit: `Escalates`, the lock of that table was asked for instead, and is granted or queues, or `Refused(-912)`,
/// where there is no such table. `HistoryFull`: its entry would be full. After a fault all is as before. It costs a copy of
/// the row, or as many records as were made since the slot's first; at the limit as `escalate`.
/// Db2 LUW, 'Isolation levels', 'Currently committed semantics', 'Lock escalation', 'SQLCODE -911', 'SQLCODE -912'.
pub fn look(
    alloc: Global,
    parts: &mut Parts,
    conn: Conn,
    table: TableId,
    rid: Rid,
    want: Want,
) -> Result<Looked, StepFault>
    requires stands { StandsFor parts.old }
    requires open { (world_of parts.old).pace.finished ≡ false }
    requires conn { conn.0 < length parts.old.head.conns }
    requires runs { Runs (world_of parts.old) conn }
    requires table { IsTrue (is_table parts.old.head table) }
    requires rid { rid.0 ≤ slots (world_of parts.old) table }
    requires may { rid.0 < slots (world_of parts.old) table → IsTrue (may_look parts.old.head (world_of parts.old) conn table rid want) }
    ensures stands { StandsFor parts.new }
    ensures head { parts.new.head ≡ parts.old.head }
    ensures answer { IfOk result (λ a. a ≡ answer_at (content_of parts.old) conn table rid want) }
    ensures shows { IfOk result (λ a. Shows a (shown (world_of parts.old) conn table rid want)) }
    ensures full { result ≡ Err StepFault.HistoryFull → is_full parts.old.head (world_of parts.old) (by_agent conn (look_act parts.old.head (world_of parts.old) conn table rid want)) ≡ true }
    ensures ok { OnOk result (parts.new.history.items ≡ parts.old.history.items ++ by_agent conn (look_act parts.old.head (world_of parts.old) conn table rid want) ∷ []) }
    ensures err { OnErr result (content_of parts.new ≡ content_of parts.old) }
{
    if is_slot(parts, table, rid) {
        look_slot(alloc, parts, conn, table, rid, want)
    } else {
        end(parts, conn, table, rid)?;
        Ok(Looked::EndOfTable)
    }
}
