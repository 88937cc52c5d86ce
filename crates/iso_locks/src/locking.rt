ghost use Rattle.std.specs.Prelude.{◌≡◌, ◌<◌, ◌++◌, [], ◌∷◌, length, false, true, None, Some, Err, IsTrue, IfOk, OnOk, OnErr};
ghost use Rattle.iso_history.specs.Legal.{Runs, LockStands};
ghost use Rattle.iso_history.specs.Makers.{by_agent};
ghost use Rattle.iso_history.specs.Outcomes.{asked_by, at_limit, escalated_by};
ghost use Rattle.iso_history.specs.Requests.{escalation, is_pressed, may_ask, request};
ghost use Rattle.iso_history.specs.Requests.Outcome.{Gives};
ghost use Rattle.iso_history.specs.Stops.{is_full};
ghost use Rattle.iso_history.specs.Writes.{minus};
ghost use Rattle.iso_history.specs.declared.entry.Act.TheVariants as acts;
ghost use Rattle.iso_history.specs.declared.entry.Got.{Got as Gained};
ghost use Rattle.iso_modes.specs.declared.Term.TheVariants as terms;
ghost use Rattle.iso_types.specs.declared.value.Name.TheVariants as names;
ghost use Rattle.iso_state.specs.Stands.{StandsFor, content_of, world_of};
ghost use Rattle.iso_locks.specs.Answers.{answer_of};

use crate::choosing::escalation;
use iso_history::{Act, Entry, Got, Who, Why};
use iso_modes::{Mode, Term};
use iso_state::{Judged, Parts, desk_of, enqueue, enter, judge, make_room, move_to, take};
use iso_types::{Conn, Desk, Name, Phase, StepFault, TableId};

/// What comes of a step of locks. `Escalates`: the lock of that table was asked for instead. `Refused`: with this SQLCODE.
#[derive(Clone, Copy, PartialEq, Eq)]
pub enum Answer {
    Done,
    Queued,
    TimedOut,
    Escalates(TableId),
    Refused(i32),
}

/// The entry of a lock.
fn locked(conn: Conn, name: &Name, mode: Mode, term: Term, why: Why, got: Got) -> Entry
    ensures { result ≡ by_agent conn (acts.Lock name.now mode term why got) }
{
    Entry {
        who: Who::Agent(conn),
        act: Act::Lock {
            name: *name,
            mode,
            term,
            why,
            got,
        },
    }
}

/// Makes the entry of a lock that is granted.
fn grant(parts: &mut Parts, conn: Conn, name: &Name, mode: Mode, why: Why) -> Result<(), StepFault>
    requires stands { StandsFor parts.old }
    requires open { (world_of parts.old).pace.finished ≡ false }
    requires conn { conn.0 < length parts.old.head.conns }
    requires runs { Runs (world_of parts.old) conn }
    requires by { LockStands parts.old.head (world_of parts.old) conn name.now mode terms.Kept why Gained.Granted }
    requires outcome { request parts.old.head (world_of parts.old) conn name.now mode ≡ Gives Gained.Granted }
    ensures stands { StandsFor parts.new }
    ensures head { parts.new.head ≡ parts.old.head }
    ensures full { result ≡ Err StepFault.HistoryFull → is_full parts.old.head (world_of parts.old) (by_agent conn (acts.Lock name.now mode terms.Kept why Gained.Granted)) ≡ true }
    ensures ok { OnOk result (parts.new.history.items ≡ parts.old.history.items ++ by_agent conn (acts.Lock name.now mode terms.Kept why Gained.Granted) ∷ []) }
    ensures err { OnErr result (content_of parts.new ≡ content_of parts.old) }
{
    make_room(parts, 1)?;
    take(parts, conn, name, mode, Term::Kept, false)?;
    let got = Got::Granted;
    enter(parts, conn, locked(conn, name, mode, Term::Kept, why, got));
    Ok(())
}

/// Makes the entry of a lock that queues for the mode that the connection will hold.
pub fn wait(
    parts: &mut Parts,
    conn: Conn,
    name: &Name,
    mode: Mode,
    term: Term,
    why: Why,
    to: Mode,
) -> Result<(), StepFault>
    requires stands { StandsFor parts.old }
    requires open { (world_of parts.old).pace.finished ≡ false }
    requires conn { conn.0 < length parts.old.head.conns }
    requires runs { Runs (world_of parts.old) conn }
    requires by { LockStands parts.old.head (world_of parts.old) conn name.now mode term why (Gained.Queued to) }
    requires outcome { request parts.old.head (world_of parts.old) conn name.now mode ≡ Gives (Gained.Queued to) }
    ensures stands { StandsFor parts.new }
    ensures head { parts.new.head ≡ parts.old.head }
    ensures full { result ≡ Err StepFault.HistoryFull → is_full parts.old.head (world_of parts.old) (by_agent conn (acts.Lock name.now mode term why (Gained.Queued to))) ≡ true }
    ensures ok { OnOk result (parts.new.history.items ≡ parts.old.history.items ++ by_agent conn (acts.Lock name.now mode term why (Gained.Queued to)) ∷ []) }
    ensures err { OnErr result (content_of parts.new ≡ content_of parts.old) }
{
    make_room(parts, 1)?;
    enqueue(parts, conn, name, mode, term, to)?;
    parts.locks.settle(conn, None);
    let desk = Desk {
        phase: Phase::Waiting,
        claimed: false,
        ..desk_of(parts, conn)
    };
    move_to(
        parts,
        conn,
        desk,
        locked(conn, name, mode, term, why, Got::Queued(to)),
    );
    Ok(())
}

/// Makes the entry of a lock that times out: the connection has to roll back.
pub fn time_out(
    parts: &mut Parts,
    conn: Conn,
    name: &Name,
    mode: Mode,
    term: Term,
    why: Why,
) -> Result<(), StepFault>
    requires stands { StandsFor parts.old }
    requires open { (world_of parts.old).pace.finished ≡ false }
    requires conn { conn.0 < length parts.old.head.conns }
    requires runs { Runs (world_of parts.old) conn }
    requires by { LockStands parts.old.head (world_of parts.old) conn name.now mode term why Gained.TimedOut }
    ensures stands { StandsFor parts.new }
    ensures head { parts.new.head ≡ parts.old.head }
    ensures full { result ≡ Err StepFault.HistoryFull → is_full parts.old.head (world_of parts.old) (by_agent conn (acts.Lock name.now mode term why Gained.TimedOut)) ≡ true }
    ensures ok { OnOk result (parts.new.history.items ≡ parts.old.history.items ++ by_agent conn (acts.Lock name.now mode term why Gained.TimedOut) ∷ []) }
    ensures err { OnErr result (content_of parts.new ≡ content_of parts.old) }
{
    make_room(parts, 0)?;
    parts.locks.settle(conn, None);
    parts.reserved -= 1;
    let desk = Desk {
        phase: Phase::Rolling,
        doom: 68,
        claimed: false,
        ..desk_of(parts, conn)
    };
    move_to(
        parts,
        conn,
        desk,
        locked(conn, name, mode, term, why, Got::TimedOut),
    );
    Ok(())
}

/// Makes the refusal of a need that is at a limit, where no table can be escalated: SQLCODE -912.
fn refuse(parts: &mut Parts, conn: Conn) -> Result<(), StepFault>
    requires stands { StandsFor parts.old }
    requires open { (world_of parts.old).pace.finished ≡ false }
    requires conn { conn.0 < length parts.old.head.conns }
    requires runs { Runs (world_of parts.old) conn }
    requires pressed { is_pressed parts.old.head (world_of parts.old) conn ≡ true }
    requires none { escalation parts.old.head (world_of parts.old) conn ≡ None }
    ensures stands { StandsFor parts.new }
    ensures head { parts.new.head ≡ parts.old.head }
    ensures full { result ≡ Err StepFault.HistoryFull → is_full parts.old.head (world_of parts.old) (by_agent conn (acts.Refused (minus 912))) ≡ true }
    ensures ok { OnOk result (parts.new.history.items ≡ parts.old.history.items ++ by_agent conn (acts.Refused (minus 912)) ∷ []) }
    ensures err { OnErr result (content_of parts.new ≡ content_of parts.old) }
{
    make_room(parts, 1)?;
    parts.locks.settle(conn, None);
    let who = Who::Agent(conn);
    let act = Act::Refused { code: -912 };
    enter(parts, conn, Entry { who, act });
    Ok(())
}

/// Asks for the lock of the table that is escalated. The table is held, so its request is at no limit.
fn escalate_on(
    parts: &mut Parts,
    conn: Conn,
    table: TableId,
    mode: Mode,
) -> Result<Answer, StepFault>
    requires stands { StandsFor parts.old }
    requires open { (world_of parts.old).pace.finished ≡ false }
    requires conn { conn.0 < length parts.old.head.conns }
    requires runs { Runs (world_of parts.old) conn }
    requires pressed { is_pressed parts.old.head (world_of parts.old) conn ≡ true }
    requires escalated { escalation parts.old.head (world_of parts.old) conn ≡ Some (table, mode) }
    ensures stands { StandsFor parts.new }
    ensures head { parts.new.head ≡ parts.old.head }
    ensures answer { IfOk result (λ a. a ≡ answer_of (escalated_by table mode (request parts.old.head (world_of parts.old) conn (names.Table table) mode))) }
    ensures full { result ≡ Err StepFault.HistoryFull → is_full parts.old.head (world_of parts.old) (by_agent conn (escalated_by table mode (request parts.old.head (world_of parts.old) conn (names.Table table) mode))) ≡ true }
    ensures ok { OnOk result (parts.new.history.items ≡ parts.old.history.items ++ by_agent conn (escalated_by table mode (request parts.old.head (world_of parts.old) conn (names.Table table) mode)) ∷ []) }
    ensures err { OnErr result (content_of parts.new ≡ content_of parts.old) }
{
    let name = Name::Table(table);
    match judge(parts, conn, &name, mode) {
        Judged::Granted => {
            grant(parts, conn, &name, mode, Why::Escalation)?;
            Ok(Answer::Escalates(table))
        }
        Judged::Queues(to) => {
            wait(parts, conn, &name, mode, Term::Kept, Why::Escalation, to)?;
            Ok(Answer::Escalates(table))
        }
        Judged::TimesOut => {
            time_out(parts, conn, &name, mode, Term::Kept, Why::Escalation)?;
            Ok(Answer::TimedOut)
        }
        Judged::AtLimit => unreachable!(),
    }
}

/// Makes the entry of a step whose need is at a limit: the lock of the table on which the connection has the most row and
/// key locks. `Escalates`: it is granted, or queues; `TimedOut`: it may not wait, and has to roll back; `Refused(-912)`:
/// there is no such table. `HistoryFull`: its entry would be full. After a fault all is as before.
/// Db2 LUW, 'Lock escalation', 'SQLCODE -911', 'SQLCODE -912'.
pub fn escalate(parts: &mut Parts, conn: Conn) -> Result<Answer, StepFault>
    requires stands { StandsFor parts.old }
    requires open { (world_of parts.old).pace.finished ≡ false }
    requires conn { conn.0 < length parts.old.head.conns }
    requires runs { Runs (world_of parts.old) conn }
    requires pressed { is_pressed parts.old.head (world_of parts.old) conn ≡ true }
    ensures stands { StandsFor parts.new }
    ensures head { parts.new.head ≡ parts.old.head }
    ensures answer { IfOk result (λ a. a ≡ answer_of (at_limit parts.old.head (world_of parts.old) conn)) }
    ensures full { result ≡ Err StepFault.HistoryFull → is_full parts.old.head (world_of parts.old) (by_agent conn (at_limit parts.old.head (world_of parts.old) conn)) ≡ true }
    ensures ok { OnOk result (parts.new.history.items ≡ parts.old.history.items ++ by_agent conn (at_limit parts.old.head (world_of parts.old) conn) ∷ []) }
    ensures err { OnErr result (content_of parts.new ≡ content_of parts.old) }
{
    match escalation(parts, conn) {
        Some((table, mode)) => escalate_on(parts, conn, table, mode),
        None => {
            refuse(parts, conn)?;
            Ok(Answer::Refused(-912))
        }
    }
}

/// Asks for a lock that is kept to the unit's end. `Done`: the connection holds the mode, or its table lock covers it;
/// `Queued`: it waits; `TimedOut`: it may not wait, and has to roll back. Where the need is at a limit: `Escalates`, the
/// lock of that table was asked for instead, and is granted or queues, or `Refused(-912)`, where there is no such table.
/// `HistoryFull`: its entry would be full. After a fault all is as before. Its cost is that of a request.
/// Db2 LUW, 'Lock modes', 'Lock escalation', 'SQLCODE -911', 'SQLCODE -912'.
pub fn lock(parts: &mut Parts, conn: Conn, name: Name, mode: Mode) -> Result<Answer, StepFault>
    requires stands { StandsFor parts.old }
    requires open { (world_of parts.old).pace.finished ≡ false }
    requires conn { conn.0 < length parts.old.head.conns }
    requires runs { Runs (world_of parts.old) conn }
    requires may { IsTrue (may_ask parts.old.head (world_of parts.old) conn name mode) }
    ensures stands { StandsFor parts.new }
    ensures head { parts.new.head ≡ parts.old.head }
    ensures answer { IfOk result (λ a. a ≡ answer_of (asked_by parts.old.head (world_of parts.old) conn name mode (request parts.old.head (world_of parts.old) conn name mode))) }
    ensures full { result ≡ Err StepFault.HistoryFull → is_full parts.old.head (world_of parts.old) (by_agent conn (asked_by parts.old.head (world_of parts.old) conn name mode (request parts.old.head (world_of parts.old) conn name mode))) ≡ true }
    ensures ok { OnOk result (parts.new.history.items ≡ parts.old.history.items ++ by_agent conn (asked_by parts.old.head (world_of parts.old) conn name mode (request parts.old.head (world_of parts.old) conn name mode)) ∷ []) }
    ensures err { OnErr result (content_of parts.new ≡ content_of parts.old) }
{
    let name = &name;
    match judge(parts, conn, name, mode) {
        Judged::Granted => {
            grant(parts, conn, name, mode, Why::Asked)?;
            Ok(Answer::Done)
        }
        Judged::Queues(to) => {
            wait(parts, conn, name, mode, Term::Kept, Why::Asked, to)?;
            Ok(Answer::Queued)
        }
        Judged::TimesOut => {
            time_out(parts, conn, name, mode, Term::Kept, Why::Asked)?;
            Ok(Answer::TimedOut)
        }
        Judged::AtLimit => escalate(parts, conn),
    }
}
