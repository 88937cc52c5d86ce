//! The entries of a history: who made each, and what it records.

use iso_modes::{Mode, Term};
use iso_queue::LockLine;
use iso_types::{
    Conn, Cycle, IndexId, Isolation, Items, Name, Range, Rid, Row, Rows, TableId, Text, Value,
};
use sqlite_items::Boxed;

/// The maker of an entry. (This project's own.)
#[derive(Clone, Copy)]
pub enum Who {
    /// The dispatcher, which takes the script's lines, purges keys and ends deadlocks.
    Dispatcher,
    /// The agent that runs the statements of this connection.
    Agent(Conn),
}

/// Why a lock was requested.
#[derive(Clone, Copy)]
pub enum Why {
    /// The statement asks for it: its table, or X on a row that it is about to change.
    Asked,
    /// The lock list is full, or the connection's share of it: one table lock is to take the place of the row and key
    /// locks on the table. (Db2 LUW, 'Lock escalation'; the choice of the table and the modes are this project's own.)
    Escalation,
    /// A write met another connection's lock on a key, or its change of a row with the same unique key. (This project's own.)
    Blocked,
}

/// The outcome of a lock request.
#[derive(Clone, Copy)]
pub enum Got {
    /// The lock is held, or a lock of the table covers it.
    Granted,
    /// The connection waits. The mode is the target: the asked mode joined with the one that it holds on the name.
    /// (Db2 LUW, 'Lock conversion'.)
    Queued(Mode),
    /// The connection may not wait, and its unit of work is rolled back. (Db2 LUW, 'SET CURRENT LOCK TIMEOUT', NOT WAIT.)
    TimedOut,
}

/// What a look at a row wants, by isolation level and statement. (Db2 LUW, 'Isolation levels', 'Currently committed
/// semantics'; which looks take no lock, and how long a lock is kept, are this project's own.)
#[derive(Clone, Copy)]
pub enum Want {
    /// The present row, committed or not, without a lock: a query at UR.
    Dirty,
    /// The last committed row, without a lock as long as the log window holds the change beside it: a query at CS with CUR_COMMIT ON.
    Current,
    /// The row once no other unit has a change of it pending, without a lock that stays: a query at CS with CUR_COMMIT DISABLED.
    Settled,
    /// The row under NS, kept to the unit's end where the row meets the condition: a query at RS.
    Steady,
    /// The row under S, kept to the unit's end: a query at RR.
    Repeat,
    /// The row under U, kept where the row meets the condition: an UPDATE or DELETE below RR.
    Alter,
    /// The row under U, kept to the unit's end: an UPDATE or DELETE at RR.
    AlterKept,
}

/// Where a step of an index scan stands.
#[derive(Clone, Copy)]
pub enum Stand {
    /// At the index entry of this key and row, the least one behind the last in the range.
    At(Value, Rid),
    /// Behind the range: it has no further entry.
    Past,
    /// The step waits for S on this key name. (Db2 LUW, 'Next-key locking'; key lock names are this project's own.)
    Queued(Name),
    /// The same, but the connection may not wait, and its unit of work is rolled back.
    TimedOut(Name),
}

/// Why an agent or the dispatcher stopped. (This project's own.)
#[derive(Clone, Copy)]
pub enum Cause {
    /// Memory was not given.
    Memory,
    /// The history would pass its limit of 2,000,000 entries, counting what must still follow.
    History,
    /// The table of an insertion has all its 65,536 slots.
    Table,
}

/// One event of a history. Lines count from 1. From `Dispatch` to `Finish` the acts are the dispatcher's, `Stopped` may be
/// anyone's, and the rest are agents'. (The list of events is this project's own.)
#[derive(Drop)]
pub enum Act {
    /// A line of the script begins a statement of an idle connection, and a unit of work where none is open.
    Dispatch {
        line: u32,
        conn: Conn,
    },
    /// A line of a connection that waits for a lock is passed over.
    Busy {
        line: u32,
        conn: Conn,
    },
    /// A line EXPIRE: where the connection waits, `ended`, its wait ends as by a lock timeout. (Db2 LUW, SQLCODE -911 reason 68.)
    Expire {
        line: u32,
        conn: Conn,
        ended: bool,
    },
    /// A line SNAPSHOT: all holds and waits, in the order in which they are printed.
    Snapshot {
        line: u32,
        locks: Items<LockLine>,
    },
    /// The chosen cycle of waiting connections; the member with the greatest unit number has to roll back.
    /// (Db2 LUW, 'Deadlocks', SQLCODE -911 reason 2; the choice of cycle and victim is this project's own.)
    Victim {
        cycle: Cycle,
    },
    /// An index entry goes whose row is no longer committed with that key, and that nobody has locked. (This project's own.)
    Purge {
        index: IndexId,
        key: Value,
        rid: Rid,
    },
    /// The script is over for this connection: it will roll back what is open, and end.
    Close {
        conn: Conn,
    },
    /// Its maker stops. An agent then undoes its unit and ends; after the first one no line is taken.
    Stopped {
        cause: Cause,
    },
    /// The last entry: all connections have ended.
    Finish,
    /// A request of the mode on the name, to be held by the term, and its outcome.
    Lock {
        name: Name,
        mode: Mode,
        term: Term,
        why: Why,
        got: Got,
    },
    /// The connection's wait is over, and it holds what it awaited.
    Claim,
    /// A look at a slot of the table, and the outcome of the lock that it wants.
    Look {
        table: TableId,
        rid: Rid,
        want: Want,
        got: Got,
    },
    /// A table scan is at its end, having seen this number of slots.
    ScanEnd {
        table: TableId,
        slots: u32,
    },
    /// A step of an index scan over the range: from behind the entry `after`, or at first from the low bound. Where it is `guarded`,
    /// at RR, it wants S on the key name where it comes to stand. The three long fields stand behind boxes.
    Next {
        index: IndexId,
        range: Boxed<Range>,
        after: Boxed<Option<(Value, Rid)>>,
        guarded: bool,
        got: Boxed<Stand>,
    },
    /// The lock of the last look goes, since its row does not meet the condition.
    Free {
        table: TableId,
        rid: Rid,
    },
    /// After an escalation all row and key locks of the connection on the table go; the table is held in this mode.
    Collapse {
        table: TableId,
        mode: Mode,
    },
    /// A new row, in the table's next slot.
    Insert {
        table: TableId,
        rid: Rid,
        row: Row,
    },
    /// The slot's new row.
    Update {
        table: TableId,
        rid: Rid,
        row: Row,
    },
    /// The slot's row goes.
    Delete {
        table: TableId,
        rid: Rid,
    },
    /// The statement fails with this SQLCODE, and is undone.
    Refused {
        code: i32,
    },
    /// The change of this record is undone; records count from 0.
    Undo {
        number: u32,
    },
    /// A savepoint of this name. (Db2 LUW, 'SAVEPOINT'.)
    Mark {
        name: Text,
    },
    /// All changes behind the savepoint of this name are to be undone; later savepoints go.
    /// (Db2 LUW, 'ROLLBACK TO SAVEPOINT'.)
    Back {
        name: Text,
    },
    /// The connection's isolation level, and whether it may wait, as they stand from here on.
    Set {
        level: Isolation,
        may_wait: bool,
    },
    /// The unit of work is committed, and all its locks go. It is the reply of its statement, too.
    Commit,
    /// The unit of work is rolled back, all is undone, and all its locks go. The SQLCODE is 0 with reason 0 for the
    /// statement ROLLBACK, else -911 with reason 2 or 68.
    Rollback {
        code: i32,
        reason: u8,
    },
    /// The statement's answer: its SQLCODE, the number of changed rows, and the rows of a query.
    Reply {
        code: i32,
        changed: u32,
        rows: Rows,
    },
    /// The connection has ended, and all its locks go.
    Ended,
}

/// One entry of a history: an event and its maker. It takes 72 bytes, besides the rows, locks and boxes that its act may have.
#[derive(Drop)]
pub struct Entry {
    pub who: Who,
    pub act: Act,
}

/// No entry takes more than 72 bytes in place.
const _: () = prove!(size_of::<Entry>() <= 72);
