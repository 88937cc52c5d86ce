//! Statements, as they are read.

use iso_modes::Mode;
use iso_types::{Isolation, Items, Row, TableId, Text, Value};
use sqlite_items::Boxed;

/// What a SELECT gives: all columns, the number of rows, or some columns by their places.
#[derive(Drop)]
pub enum Items2 {
    All,
    Count,
    Columns(Items<u8>),
}

/// A comparison.
#[derive(Clone, Copy, PartialEq, Eq)]
pub enum Op {
    Eq,
    Ne,
    Lt,
    Le,
    Gt,
    Ge,
}

/// A condition on a row; columns stand by their places. NOT BETWEEN and IS NOT NULL are `Not`.
#[derive(Drop)]
pub enum Condition {
    Always,
    Compare(u8, Op, Value),
    Between(u8, Value, Value),
    IsNull(u8),
    Not(Boxed<Condition>),
    And(Boxed<Condition>, Boxed<Condition>),
    Or(Boxed<Condition>, Boxed<Condition>),
}

/// What a column is set to; `column - n` is the sum with -n.
#[derive(Clone, Copy)]
pub enum Expr {
    Literal(Value),
    Column(u8),
    Sum(u8, i64),
}

/// One assignment of an UPDATE.
#[derive(Clone, Copy)]
pub struct Assignment {
    pub column: u8,
    pub expr: Expr,
}

/// The assignments of an UPDATE, in order.
#[derive(Drop)]
pub struct Sets {
    pub list: Items<Assignment>,
}

/// A statement; a level is that of its WITH clause.
#[derive(Drop)]
pub enum Statement {
    Select {
        table: TableId,
        items: Items2,
        cond: Condition,
        level: Option<Isolation>,
    },
    Insert {
        table: TableId,
        row: Row,
    },
    Update {
        table: TableId,
        sets: Sets,
        cond: Condition,
        level: Option<Isolation>,
    },
    Delete {
        table: TableId,
        cond: Condition,
        level: Option<Isolation>,
    },
    Commit,
    Rollback,
    RollbackTo(Text),
    Savepoint(Text),
    LockTable(TableId, Mode),
    SetIsolation(Option<Isolation>),
    SetWait(bool),
}
