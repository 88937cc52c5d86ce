//! The steps that a statement makes, and what they answer.

use iso_history::Want;
use iso_modes::Mode;
use iso_types::{IndexId, Isolation, Name, Range, Rid, Row, TableId, Text, Value};

/// The step that a statement makes next, with its arguments.
#[derive(Clone, Copy)]
pub enum Move {
    Lock {
        name: Name,
        mode: Mode,
    },
    Claim,
    Look {
        table: TableId,
        rid: Rid,
        want: Want,
    },
    Next {
        index: IndexId,
        range: Range,
        after: Option<(Value, Rid)>,
        guarded: bool,
    },
    Free {
        table: TableId,
        rid: Rid,
    },
    Collapse {
        table: TableId,
    },
    Insert {
        table: TableId,
    },
    Update {
        table: TableId,
        rid: Rid,
    },
    Delete {
        table: TableId,
        rid: Rid,
    },
    Refuse {
        code: i32,
    },
    Undo {
        floor: u32,
    },
    Mark {
        name: Text,
    },
    Back {
        name: Text,
    },
    Set {
        level: Isolation,
        may_wait: bool,
    },
    Commit,
    RollbackEnd {
        code: i32,
        reason: u8,
    },
    Reply {
        code: i32,
        changed: u32,
    },
}

/// A look that is due, with its arguments: the step of most entries of a scan, without the room that a `Move` has for others.
#[derive(Clone, Copy)]
pub struct DueLook {
    pub table: TableId,
    pub rid: Rid,
    pub want: Want,
}

/// A step of an index scan that is due, with its arguments but for the range.
#[derive(Clone, Copy)]
pub struct DueNext {
    pub index: IndexId,
    pub after: Option<(Value, Rid)>,
    pub guarded: bool,
}

/// What that step answered, with a look's row already rebuilt. `Granted` and `Ended` answer a Claim, `Undone` an
/// Undo, `Floor` a Back; the truth value of `Shown` says whether the connection has a Fresh hold on the look's row.
#[derive(Drop)]
pub enum Told {
    Done,
    Granted,
    Queued,
    TimedOut,
    Blocked,
    Ended(u8),
    Escalates(TableId),
    Refused(i32),
    Shown(Option<Row>, bool),
    EndOfTable,
    At(Value, Rid),
    Past,
    Undone(bool),
    Floor(Option<u32>),
}
