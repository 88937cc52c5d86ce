//! Each step is made at least once: a story is a table of calls, each with the answer that the definitions give it.
ghost use Rattle.std.specs.Prelude.{◌≤◌};

use crate::trial::Trial;
use iso_history::Want;
use iso_locks::{Answer, StepClaim};
use iso_modes::Mode;
use iso_pace::{Closing, Paced};
use iso_reads::{Looked, Stepped};
use iso_types::{Conn, Edge, Isolation, Name, Range, Rid, Row, StepFault, TableId, Text, Value};
use iso_writes::Written;
use std::alloc::Global;
use std::test::Fail;

/// The first connection.
const A: Conn = Conn(0);

/// The second connection.
const B: Conn = Conn(1);

/// What a connection asks to lock.
#[derive(Clone, Copy)]
enum On {
    Table,
    Row(u32),
}

/// A call of the dispatcher, or one that looks at the state as a whole.
#[derive(Clone, Copy)]
enum Turn {
    /// A line of a statement, by its number, and whether it stands behind `&`.
    Dispatch(u32, Conn, bool),
    Expire(u32, Conn),
    Snapshot(u32),
    Detect,
    Close,
    Stop,
    Purge,
    IsPurgeable,
    /// As the two before, by doubts.
    PurgeAmong,
    IsPurgeableAmong,
    IsCyclic,
    IsQuiet,
    IsAble(Conn),
}

/// A call of a connection for its locks.
#[derive(Clone, Copy)]
enum Ask {
    Lock(On, Mode),
    /// The lock of a write that waits at the end of the index.
    Block,
    Claim,
    Free,
    Collapse,
}

/// A call of a connection that reads.
#[derive(Clone, Copy)]
enum Read {
    Look(u32, Want),
    /// The first entry with at least this key, guarded.
    From(i64),
    /// The entry behind this one, not guarded.
    Behind(i64, u32),
}

/// A call of a connection that changes rows, or takes changes back.
#[derive(Clone, Copy)]
enum Change {
    Insert(i64),
    Update(u32, i64),
    Delete(u32),
    Refuse,
    /// The last change that is left, down to this record.
    Undo(u32),
    Mark,
    Back,
}

/// A call of a connection that ends something, or changes a setting.
#[derive(Clone, Copy)]
enum End {
    Reply(u32),
    Set(Isolation),
    Commit,
    Rollback,
    Stop,
    Ended,
}

/// A call of a story.
#[derive(Clone, Copy)]
enum Step {
    Turn(Turn),
    Ask(Conn, Ask),
    Read(Conn, Read),
    Change(Conn, Change),
    End(Conn, End),
}

/// The answer to a call; None where it was not made, or found nothing.
#[derive(Clone, Copy, PartialEq, Eq)]
enum Reply {
    Is(bool),
    Paced(Option<Paced>),
    Victim(Option<Conn>),
    Closing(Option<Closing>),
    /// A pair is purged, and whether one is left that is purgeable.
    Purged(Option<bool>),
    Lock(Option<Answer>),
    Claim(Option<StepClaim>),
    Freed(Option<Rid>),
    Collapsed(Option<TableId>),
    Row(Option<i64>),
    Pinned,
    EndOfTable,
    Queued,
    At(i64, u32),
    Past,
    /// A change is made; waits for a lock on this key; is refused.
    Done,
    Blocked(i64),
    Refused,
    NotMade,
    Undone(Option<bool>),
    Back(Option<u32>),
}

/// Makes a call of the dispatcher.
fn turned(alloc: Global, trial: &mut Trial, turn: Turn) -> Result<Reply, StepFault> {
    match turn {
        Turn::Dispatch(line, conn, free) => Ok(Reply::Paced(trial.dispatch(line, conn, free)?)),
        Turn::Expire(line, conn) => Ok(Reply::Paced(trial.expire(line, conn)?)),
        Turn::Snapshot(line) => Ok(Reply::Paced(trial.snapshot(line)?)),
        Turn::Detect => Ok(Reply::Victim(trial.detect())),
        Turn::Close => Ok(Reply::Closing(trial.close_next())),
        Turn::Stop => Ok(Reply::Is(trial.stopped())),
        Turn::Purge => Ok(Reply::Is(trial.purge()?)),
        Turn::IsPurgeable => Ok(Reply::Is(trial.purgeable())),
        Turn::PurgeAmong => Ok(Reply::Purged(trial.purge_among(alloc)?)),
        Turn::IsPurgeableAmong => Ok(Reply::Is(trial.purgeable_among(alloc))),
        Turn::IsCyclic => Ok(Reply::Is(trial.cyclic())),
        Turn::IsQuiet => Ok(Reply::Is(trial.quiet())),
        Turn::IsAble(conn) => Ok(Reply::Is(trial.able(conn))),
    }
}

/// The lock name.
fn name_of(on: On) -> Name {
    match on {
        On::Table => Name::Table(TableId(0)),
        On::Row(rid) => Name::Row(TableId(0), Rid(rid)),
    }
}

/// Makes a call for locks.
fn asked(trial: &mut Trial, conn: Conn, ask: Ask) -> Result<Reply, StepFault> {
    match ask {
        Ask::Lock(on, mode) => Ok(Reply::Lock(trial.lock(conn, name_of(on), mode)?)),
        Ask::Block => Ok(Reply::Lock(trial.block(conn)?)),
        Ask::Claim => Ok(Reply::Claim(trial.claim(conn)?)),
        Ask::Free => Ok(Reply::Freed(trial.free(conn)?)),
        Ask::Collapse => Ok(Reply::Collapsed(trial.collapse(conn)?)),
    }
}

/// The number that is a row's first value.
fn number_in(row: &Row) -> Option<i64> {
    match row.as_slice().first() {
        Some(Value::Int(number)) => Some(*number),
        _ => None,
    }
}

/// What a look shows.
fn seen(looked: &Option<Looked>) -> Reply {
    match looked {
        Some(Looked::Shown(Some(row))) => Reply::Row(number_in(row)),
        Some(Looked::Pinned(_)) => Reply::Pinned,
        Some(Looked::EndOfTable) => Reply::EndOfTable,
        Some(Looked::Queued) => Reply::Queued,
        Some(_) => Reply::Row(None),
        None => Reply::NotMade,
    }
}

/// Where a scan stands.
fn stands(stepped: &Option<Stepped>) -> Reply {
    match stepped {
        Some(Stepped::At(Value::Int(key), rid)) => Reply::At(*key, rid.0),
        Some(Stepped::Past) => Reply::Past,
        Some(Stepped::Queued) => Reply::Queued,
        _ => Reply::Row(None),
    }
}

/// The keys from this one on.
fn keys_from(key: i64) -> Range {
    Range {
        low: Some(Edge {
            value: Value::Int(key),
            inclusive: true,
        }),
        high: None,
    }
}

/// Makes a call that reads.
fn reads(alloc: Global, trial: &mut Trial, conn: Conn, read: Read) -> Result<Reply, StepFault> {
    match read {
        Read::Look(rid, want) => Ok(seen(&trial.look(alloc, conn, Rid(rid), want)?)),
        Read::From(key) => {
            let stepped = trial.next_entry(alloc, conn, &keys_from(key), None, true)?;
            Ok(stands(&stepped))
        }
        Read::Behind(key, rid) => {
            let after = Some((Value::Int(key), Rid(rid)));
            let stepped = trial.next_entry(alloc, conn, &keys_from(0), after, false)?;
            Ok(stands(&stepped))
        }
    }
}

/// The name of a savepoint.
fn spot_name() -> Result<Text, StepFault> {
    match Text::new(b"S") {
        Some(name) => Ok(name),
        None => Err(StepFault::Memory),
    }
}

/// Inserts a row.
fn inserted(alloc: Global, trial: &mut Trial, conn: Conn, number: i64) -> Result<Reply, StepFault> {
    match trial.insert(alloc, conn, number)? {
        Some(Written::Done) => Ok(Reply::Done),
        Some(Written::Blocked(Name::Key(_, Value::Int(key)))) => Ok(Reply::Blocked(key)),
        Some(_) => Ok(Reply::Refused),
        None => Ok(Reply::NotMade),
    }
}

/// Gives a slot another row.
fn updated(
    alloc: Global,
    trial: &mut Trial,
    conn: Conn,
    rid: u32,
    number: i64,
) -> Result<Reply, StepFault> {
    match trial.update(alloc, conn, Rid(rid), number)? {
        Some(Written::Done) => Ok(Reply::Done),
        Some(Written::Blocked(Name::Key(_, Value::Int(key)))) => Ok(Reply::Blocked(key)),
        Some(_) => Ok(Reply::Refused),
        None => Ok(Reply::NotMade),
    }
}

/// Deletes the row of a slot.
fn deleted(trial: &mut Trial, conn: Conn, rid: u32) -> Result<Reply, StepFault> {
    match trial.delete(conn, Rid(rid))? {
        Some(Written::Done) => Ok(Reply::Done),
        Some(Written::Blocked(Name::Key(_, Value::Int(key)))) => Ok(Reply::Blocked(key)),
        Some(_) => Ok(Reply::Refused),
        None => Ok(Reply::NotMade),
    }
}

/// Makes a call that changes rows, or takes changes back to the savepoint of this name.
fn changed(
    alloc: Global,
    trial: &mut Trial,
    conn: Conn,
    change: Change,
    spot: Text,
) -> Result<Reply, StepFault> {
    match change {
        Change::Insert(number) => inserted(alloc, trial, conn, number),
        Change::Update(rid, number) => updated(alloc, trial, conn, rid, number),
        Change::Delete(rid) => deleted(trial, conn, rid),
        Change::Refuse => Ok(Reply::Is(trial.refuse(conn)?)),
        Change::Undo(floor) => Ok(Reply::Undone(trial.undo_one(conn, floor))),
        Change::Mark => Ok(Reply::Is(trial.mark(conn, spot)?)),
        Change::Back => Ok(Reply::Back(trial.back(conn, spot)?)),
    }
}

/// Makes a call that ends something, or changes a setting.
fn ended(alloc: Global, trial: &mut Trial, conn: Conn, end: End) -> Result<Reply, StepFault> {
    match end {
        End::Reply(changed) => Ok(Reply::Is(trial.reply(alloc, conn, changed)?)),
        End::Set(level) => Ok(Reply::Is(trial.set(conn, level)?)),
        End::Commit => Ok(Reply::Is(trial.commit(conn))),
        End::Rollback => Ok(Reply::Is(trial.rollback_end(conn))),
        End::Stop => Ok(Reply::Is(trial.stopped_by(conn))),
        End::Ended => Ok(Reply::Is(trial.ended(conn))),
    }
}

/// Makes a call of a story, whose savepoint has this name.
fn reply_of(alloc: Global, trial: &mut Trial, step: Step, spot: Text) -> Result<Reply, StepFault> {
    match step {
        Step::Turn(turn) => turned(alloc, trial, turn),
        Step::Ask(conn, ask) => asked(trial, conn, ask),
        Step::Read(conn, what) => reads(alloc, trial, conn, what),
        Step::Change(conn, change) => changed(alloc, trial, conn, change, spot),
        Step::End(conn, end) => ended(alloc, trial, conn, end),
    }
}

/// The place of a story's first call that is not answered as it tells, where one connection may take so many percent of the
/// lock list; None where all are.
fn first_other(
    alloc: Global,
    percent: u32,
    story: &[(Step, Reply)],
) -> Result<Option<usize>, StepFault>
    requires { percent ≤ 100 }
{
    let spot = spot_name()?;
    let mut trial = Trial::new(alloc, percent)?;
    for at in 0..story.len() {
        let (step, told) = story[at];
        if reply_of(alloc, &mut trial, step, spot)? != told {
            return Ok(Some(at));
        }
    }
    Ok(None)
}

/// It is so.
const YES: Reply = Reply::Is(true);

/// It is not so.
const NO: Reply = Reply::Is(false);

/// The line is taken.
const TAKEN: Reply = Reply::Paced(Some(Paced::Done));

/// The lock is granted.
const GRANTED: Reply = Reply::Lock(Some(Answer::Done));

/// The request waits.
const WAITS: Reply = Reply::Lock(Some(Answer::Queued));

/// The first connection may change rows.
const BEGINS: Step = Step::Ask(A, Ask::Lock(On::Table, Mode::Ix));

/// The second connection may change rows.
const JOINS: Step = Step::Ask(B, Ask::Lock(On::Table, Mode::Ix));

/// A row is inserted, changed behind a savepoint and changed back, and committed; a unit is rolled back; the dispatcher stops,
/// and all connections end.
const ONE_UNIT: &[(Step, Reply)] = &[
    (Step::Turn(Turn::Dispatch(1, A, false)), TAKEN),
    (BEGINS, GRANTED),
    (Step::Change(A, Change::Insert(40)), Reply::Done),
    (Step::Turn(Turn::IsAble(A)), YES),
    (Step::Turn(Turn::IsQuiet), NO),
    (Step::End(A, End::Reply(1)), YES),
    (Step::Turn(Turn::Snapshot(2)), TAKEN),
    (Step::Turn(Turn::Dispatch(3, A, false)), TAKEN),
    (Step::Change(A, Change::Mark), YES),
    (Step::Change(A, Change::Update(3, 50)), Reply::Done),
    (Step::Change(A, Change::Delete(3)), Reply::Done),
    (Step::Change(A, Change::Back), Reply::Back(Some(1))),
    (Step::Change(A, Change::Undo(1)), Reply::Undone(Some(true))),
    (Step::Change(A, Change::Undo(1)), Reply::Undone(Some(true))),
    (Step::Change(A, Change::Undo(1)), Reply::Undone(Some(false))),
    (Step::End(A, End::Set(Isolation::Rs)), YES),
    (Step::Change(A, Change::Refuse), YES),
    (Step::Turn(Turn::IsPurgeable), NO),
    (Step::End(A, End::Commit), YES),
    (Step::Turn(Turn::IsPurgeable), YES),
    (Step::Turn(Turn::Dispatch(4, A, false)), Reply::Paced(None)),
    (Step::Turn(Turn::Purge), YES),
    (Step::Turn(Turn::IsPurgeable), NO),
    (Step::Turn(Turn::Dispatch(4, A, false)), TAKEN),
    (
        Step::Turn(Turn::Dispatch(5, B, false)),
        Reply::Paced(Some(Paced::NotQuiet)),
    ),
    (BEGINS, GRANTED),
    (Step::End(A, End::Rollback), YES),
    (
        Step::Turn(Turn::Expire(5, A)),
        Reply::Paced(Some(Paced::NoEffect)),
    ),
    (Step::Turn(Turn::IsQuiet), YES),
    (Step::Turn(Turn::IsAble(A)), NO),
    (Step::Turn(Turn::IsCyclic), NO),
    (Step::Turn(Turn::Stop), YES),
    (
        Step::Turn(Turn::Dispatch(6, A, false)),
        Reply::Paced(Some(Paced::Stopping)),
    ),
    (
        Step::Turn(Turn::Close),
        Reply::Closing(Some(Closing::One(A))),
    ),
    (
        Step::Turn(Turn::Close),
        Reply::Closing(Some(Closing::NotQuiet)),
    ),
    (Step::End(A, End::Ended), YES),
    (
        Step::Turn(Turn::Close),
        Reply::Closing(Some(Closing::One(B))),
    ),
    (Step::End(A, End::Ended), NO),
    (Step::End(B, End::Ended), YES),
    (
        Step::Turn(Turn::Close),
        Reply::Closing(Some(Closing::Finished)),
    ),
    (Step::Turn(Turn::Close), Reply::Closing(None)),
    (Step::Turn(Turn::Stop), NO),
    (Step::Turn(Turn::Snapshot(7)), Reply::Paced(None)),
    (Step::Ask(A, Ask::Claim), Reply::Claim(None)),
];

/// The rows are looked at without locks and with them, one lock is given back, the table ends behind the last row, and an index
/// is scanned from 15 on.
const READS: &[(Step, Reply)] = &[
    (Step::Turn(Turn::Dispatch(1, A, false)), TAKEN),
    (BEGINS, GRANTED),
    (
        Step::Read(A, Read::Look(0, Want::Dirty)),
        Reply::Row(Some(10)),
    ),
    (
        Step::Read(A, Read::Look(1, Want::Current)),
        Reply::Row(Some(20)),
    ),
    (
        Step::Read(A, Read::Look(2, Want::Settled)),
        Reply::Row(Some(30)),
    ),
    (Step::Ask(A, Ask::Free), Reply::Freed(None)),
    (
        Step::Read(A, Read::Look(0, Want::Alter)),
        Reply::Row(Some(10)),
    ),
    (Step::Ask(A, Ask::Free), Reply::Freed(Some(Rid(0)))),
    (Step::Ask(A, Ask::Free), Reply::Freed(None)),
    (
        Step::Read(A, Read::Look(0, Want::Steady)),
        Reply::Row(Some(10)),
    ),
    (
        Step::Read(A, Read::Look(1, Want::Repeat)),
        Reply::Row(Some(20)),
    ),
    (
        Step::Read(A, Read::Look(2, Want::AlterKept)),
        Reply::Row(Some(30)),
    ),
    (Step::Ask(A, Ask::Free), Reply::Freed(None)),
    (
        Step::Read(A, Read::Look(3, Want::Steady)),
        Reply::EndOfTable,
    ),
    (Step::Ask(A, Ask::Free), Reply::Freed(None)),
    (Step::Read(A, Read::Look(4, Want::Dirty)), Reply::NotMade),
    (Step::Read(A, Read::From(15)), Reply::At(20, 1)),
    (Step::Read(A, Read::Behind(20, 1)), Reply::At(30, 2)),
    (Step::Read(A, Read::Behind(30, 2)), Reply::Past),
];

/// A row is read beside the change of another connection: as it was last committed, as it is, and not before that one's end.
const BESIDE: &[(Step, Reply)] = &[
    (Step::Turn(Turn::Dispatch(1, A, false)), TAKEN),
    (BEGINS, GRANTED),
    (Step::Change(A, Change::Update(0, 11)), Reply::NotMade),
    (Step::Ask(A, Ask::Lock(On::Row(0), Mode::X)), GRANTED),
    (Step::Change(A, Change::Update(0, 11)), Reply::Done),
    (Step::Turn(Turn::Dispatch(2, B, true)), TAKEN),
    (Step::Read(B, Read::Look(0, Want::Dirty)), Reply::NotMade),
    (JOINS, GRANTED),
    (
        Step::Read(B, Read::Look(0, Want::Dirty)),
        Reply::Row(Some(11)),
    ),
    (Step::Read(B, Read::Look(0, Want::Current)), Reply::Pinned),
    (Step::Read(B, Read::Look(0, Want::Steady)), Reply::Queued),
    (
        Step::Turn(Turn::Dispatch(3, B, true)),
        Reply::Paced(Some(Paced::Busy)),
    ),
    (Step::End(A, End::Commit), YES),
    (
        Step::Ask(B, Ask::Claim),
        Reply::Claim(Some(StepClaim::Granted)),
    ),
];

/// Two connections come to wait for each other, and the unit that began last is the victim.
const CIRCLE: &[(Step, Reply)] = &[
    (Step::Turn(Turn::Dispatch(1, A, false)), TAKEN),
    (BEGINS, GRANTED),
    (Step::Ask(A, Ask::Lock(On::Row(0), Mode::X)), GRANTED),
    (Step::Turn(Turn::Dispatch(2, B, true)), TAKEN),
    (JOINS, GRANTED),
    (Step::Ask(B, Ask::Lock(On::Row(1), Mode::X)), GRANTED),
    (Step::Ask(B, Ask::Lock(On::Row(0), Mode::X)), WAITS),
    (Step::Turn(Turn::IsCyclic), NO),
    (Step::Turn(Turn::Detect), Reply::Victim(None)),
    (Step::Ask(A, Ask::Lock(On::Row(1), Mode::X)), WAITS),
    (Step::Turn(Turn::IsCyclic), YES),
    (Step::Turn(Turn::IsQuiet), NO),
    (Step::Turn(Turn::IsAble(B)), NO),
    (Step::Turn(Turn::Detect), Reply::Victim(Some(B))),
    (
        Step::Ask(B, Ask::Claim),
        Reply::Claim(Some(StepClaim::Ended(2))),
    ),
    (Step::Turn(Turn::IsAble(B)), YES),
    (Step::Turn(Turn::IsCyclic), NO),
];

/// A wait ends with the unit that holds the lock, and another one by a line EXPIRE.
const WAITING: &[(Step, Reply)] = &[
    (Step::Turn(Turn::Dispatch(1, A, false)), TAKEN),
    (BEGINS, GRANTED),
    (Step::Ask(A, Ask::Lock(On::Row(0), Mode::X)), GRANTED),
    (Step::Turn(Turn::Dispatch(2, B, true)), TAKEN),
    (JOINS, GRANTED),
    (Step::Ask(B, Ask::Lock(On::Row(0), Mode::X)), WAITS),
    (
        Step::Ask(B, Ask::Claim),
        Reply::Claim(Some(StepClaim::NotYet)),
    ),
    (Step::End(A, End::Commit), YES),
    (
        Step::Ask(B, Ask::Claim),
        Reply::Claim(Some(StepClaim::Granted)),
    ),
    (Step::End(B, End::Reply(0)), YES),
    (Step::Turn(Turn::Dispatch(3, A, false)), TAKEN),
    (BEGINS, GRANTED),
    (Step::Ask(A, Ask::Lock(On::Row(0), Mode::X)), WAITS),
    (Step::Turn(Turn::Expire(4, A)), TAKEN),
    (
        Step::Ask(A, Ask::Claim),
        Reply::Claim(Some(StepClaim::Ended(68))),
    ),
];

/// The lock list has 32 slots, and a share of 10 percent is three: the table and two rows. A third row takes the table, which
/// covers the rows once their locks are given back.
const LIMIT: &[(Step, Reply)] = &[
    (Step::Turn(Turn::Dispatch(1, A, false)), TAKEN),
    (BEGINS, GRANTED),
    (Step::Ask(A, Ask::Lock(On::Row(0), Mode::X)), GRANTED),
    (Step::Ask(A, Ask::Lock(On::Row(1), Mode::X)), GRANTED),
    (
        Step::Ask(A, Ask::Lock(On::Row(2), Mode::X)),
        Reply::Lock(Some(Answer::Escalates(TableId(0)))),
    ),
    (
        Step::Ask(A, Ask::Lock(On::Row(2), Mode::X)),
        Reply::Lock(None),
    ),
    (
        Step::Ask(A, Ask::Collapse),
        Reply::Collapsed(Some(TableId(0))),
    ),
    (Step::Ask(A, Ask::Lock(On::Row(2), Mode::X)), GRANTED),
];

/// A range is read to the end of the index, and a write waits there; then another one behind it; and an insertion waits for the
/// key that guards it.
const GUARDED: &[(Step, Reply)] = &[
    (Step::Turn(Turn::Dispatch(1, A, false)), TAKEN),
    (Step::Ask(A, Ask::Block), Reply::Lock(None)),
    (BEGINS, GRANTED),
    (Step::Ask(A, Ask::Block), Reply::Lock(None)),
    (Step::Turn(Turn::Dispatch(2, B, true)), TAKEN),
    (JOINS, GRANTED),
    (Step::Read(B, Read::From(31)), Reply::Past),
    (Step::Ask(B, Ask::Block), Reply::Lock(None)),
    (Step::Ask(A, Ask::Block), WAITS),
    (Step::Turn(Turn::IsAble(A)), NO),
    (Step::End(B, End::Commit), YES),
    (
        Step::Ask(A, Ask::Claim),
        Reply::Claim(Some(StepClaim::Granted)),
    ),
    (Step::Turn(Turn::Dispatch(3, B, true)), TAKEN),
    (JOINS, GRANTED),
    (Step::Ask(B, Ask::Block), WAITS),
    (Step::Change(A, Change::Insert(40)), Reply::Done),
    (
        Step::Ask(B, Ask::Claim),
        Reply::Claim(Some(StepClaim::Granted)),
    ),
    (Step::Change(B, Change::Insert(50)), Reply::Done),
    (Step::Read(A, Read::From(15)), Reply::At(20, 1)),
    (Step::Change(B, Change::Insert(15)), Reply::Blocked(20)),
    (Step::End(A, End::Commit), YES),
    (
        Step::Ask(B, Ask::Claim),
        Reply::Claim(Some(StepClaim::Granted)),
    ),
    (Step::Change(B, Change::Insert(15)), Reply::Done),
];

/// A row has four keys in one unit, of which another connection holds the first; the others go by doubts once that unit is
/// committed, and the first once nobody holds it.
const STALE: &[(Step, Reply)] = &[
    (Step::Turn(Turn::Dispatch(1, A, false)), TAKEN),
    (BEGINS, GRANTED),
    (Step::Change(A, Change::Insert(40)), Reply::Done),
    (Step::Change(A, Change::Update(3, 50)), Reply::Done),
    (Step::Change(A, Change::Update(3, 60)), Reply::Done),
    (Step::Change(A, Change::Update(3, 70)), Reply::Done),
    (Step::Turn(Turn::Dispatch(2, B, true)), TAKEN),
    (JOINS, GRANTED),
    (Step::Read(B, Read::From(35)), Reply::At(40, 3)),
    (Step::Turn(Turn::IsPurgeableAmong), NO),
    (Step::Turn(Turn::PurgeAmong), Reply::Purged(None)),
    (Step::End(A, End::Commit), YES),
    (Step::Turn(Turn::IsPurgeableAmong), YES),
    (Step::Turn(Turn::PurgeAmong), Reply::Purged(Some(true))),
    (Step::Turn(Turn::PurgeAmong), Reply::Purged(None)),
    (Step::End(B, End::Commit), YES),
    (
        Step::Turn(Turn::Close),
        Reply::Closing(Some(Closing::One(A))),
    ),
    (Step::Turn(Turn::PurgeAmong), Reply::Purged(Some(true))),
    (Step::Turn(Turn::IsPurgeableAmong), YES),
    (Step::End(A, End::Ended), YES),
    (
        Step::Turn(Turn::Close),
        Reply::Closing(Some(Closing::One(B))),
    ),
    (Step::Turn(Turn::PurgeAmong), Reply::Purged(Some(false))),
    (Step::Turn(Turn::IsPurgeableAmong), NO),
    (Step::Turn(Turn::IsPurgeable), NO),
];

/// A connection stops while it runs, and another one when its wait is over; the latter takes its change back, and both end.
const STOPS: &[(Step, Reply)] = &[
    (Step::End(A, End::Stop), NO),
    (Step::Turn(Turn::Dispatch(1, A, false)), TAKEN),
    (BEGINS, GRANTED),
    (Step::Change(A, Change::Insert(40)), Reply::Done),
    (Step::Turn(Turn::Dispatch(2, B, true)), TAKEN),
    (JOINS, GRANTED),
    (Step::Ask(B, Ask::Lock(On::Row(0), Mode::X)), GRANTED),
    (Step::Ask(A, Ask::Lock(On::Row(0), Mode::X)), WAITS),
    (Step::End(A, End::Stop), NO),
    (Step::End(B, End::Stop), YES),
    (Step::End(B, End::Stop), NO),
    (
        Step::Turn(Turn::Dispatch(3, B, true)),
        Reply::Paced(Some(Paced::Stopping)),
    ),
    (Step::Turn(Turn::Stop), NO),
    (Step::End(A, End::Stop), NO),
    (Step::End(B, End::Ended), YES),
    (Step::End(A, End::Stop), YES),
    (Step::Ask(A, Ask::Claim), Reply::Claim(None)),
    (Step::End(A, End::Ended), NO),
    (Step::Change(A, Change::Undo(0)), Reply::Undone(Some(true))),
    (Step::Change(A, Change::Undo(0)), Reply::Undone(Some(false))),
    (Step::End(A, End::Ended), YES),
    (
        Step::Turn(Turn::Close),
        Reply::Closing(Some(Closing::Finished)),
    ),
    (Step::End(A, End::Stop), NO),
];

#[test]
fn one_unit(rt: HostRuntime) -> Result<(), Fail> {
    assert_eq!(rt; first_other(rt.alloc(), 100, ONE_UNIT)?, None);
    Ok(())
}

#[test]
fn looks_and_scans(rt: HostRuntime) -> Result<(), Fail> {
    assert_eq!(rt; first_other(rt.alloc(), 100, READS)?, None);
    Ok(())
}

#[test]
fn beside_a_change(rt: HostRuntime) -> Result<(), Fail> {
    assert_eq!(rt; first_other(rt.alloc(), 100, BESIDE)?, None);
    Ok(())
}

#[test]
fn two_that_wait(rt: HostRuntime) -> Result<(), Fail> {
    assert_eq!(rt; first_other(rt.alloc(), 100, CIRCLE)?, None);
    Ok(())
}

#[test]
fn one_that_waits(rt: HostRuntime) -> Result<(), Fail> {
    assert_eq!(rt; first_other(rt.alloc(), 100, WAITING)?, None);
    Ok(())
}

#[test]
fn at_the_limit(rt: HostRuntime) -> Result<(), Fail> {
    assert_eq!(rt; first_other(rt.alloc(), 10, LIMIT)?, None);
    Ok(())
}

#[test]
fn guards_of_an_index(rt: HostRuntime) -> Result<(), Fail> {
    assert_eq!(rt; first_other(rt.alloc(), 100, GUARDED)?, None);
    Ok(())
}

#[test]
fn stale_pairs(rt: HostRuntime) -> Result<(), Fail> {
    assert_eq!(rt; first_other(rt.alloc(), 100, STALE)?, None);
    Ok(())
}

#[test]
fn connections_that_stop(rt: HostRuntime) -> Result<(), Fail> {
    assert_eq!(rt; first_other(rt.alloc(), 100, STOPS)?, None);
    Ok(())
}
