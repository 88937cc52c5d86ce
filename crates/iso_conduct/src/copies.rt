//! Copies of statements.

ghost use Rattle.std.specs.Prelude.{◌≡◌, IfOk};

use iso_sql::{Condition, Items2, Sets, Statement};
use iso_types::Memory;
use sqlite_items::Boxed;
use std::alloc::Global;

/// The same condition in memory of its own; `Memory` where there is none. It copies each part once.
fn copied_condition(alloc: Global, cond: &Condition) -> Result<Condition, Memory>
    ensures { IfOk result (λ copy. copy ≡ cond.now) }
{
    match cond {
        Condition::Always => Ok(Condition::Always),
        Condition::Compare(column, op, value) => Ok(Condition::Compare(*column, *op, *value)),
        Condition::Between(column, low, high) => Ok(Condition::Between(*column, *low, *high)),
        Condition::IsNull(column) => Ok(Condition::IsNull(*column)),
        Condition::Not(inner) => {
            let copy = copied_condition(alloc, inner.get())?;
            Ok(Condition::Not(Boxed::new(alloc, copy)?))
        }
        Condition::And(a, b) => {
            let first = copied_condition(alloc, a.get())?;
            let second = copied_condition(alloc, b.get())?;
            Ok(Condition::And(Boxed::new(alloc, first)?, Boxed::new(alloc, second)?))
        }
        Condition::Or(a, b) => {
            let first = copied_condition(alloc, a.get())?;
            let second = copied_condition(alloc, b.get())?;
            Ok(Condition::Or(Boxed::new(alloc, first)?, Boxed::new(alloc, second)?))
        }
    }
}

fn copied_items(alloc: Global, items: &Items2) -> Result<Items2, Memory>
    ensures { IfOk result (λ copy. copy ≡ items.now) }
{
    match items {
        Items2::All => Ok(Items2::All),
        Items2::Count => Ok(Items2::Count),
        Items2::Columns(columns) => Ok(Items2::Columns(columns.copied(alloc)?)),
    }
}

/// The same statement in memory of its own; `Memory` where there is none.
pub fn copied_statement(alloc: Global, statement: &Statement) -> Result<Statement, Memory>
    ensures { IfOk result (λ copy. copy ≡ statement.now) }
{
    match statement {
        Statement::Select {
            table,
            items,
            cond,
            level,
        } => Ok(Statement::Select {
            table: *table,
            items: copied_items(alloc, items)?,
            cond: copied_condition(alloc, cond)?,
            level: *level,
        }),
        Statement::Insert { table, row } => Ok(Statement::Insert {
            table: *table,
            row: row.copied(alloc)?,
        }),
        Statement::Update {
            table,
            sets,
            cond,
            level,
        } => Ok(Statement::Update {
            table: *table,
            sets: Sets {
                list: sets.list.copied(alloc)?,
            },
            cond: copied_condition(alloc, cond)?,
            level: *level,
        }),
        Statement::Delete { table, cond, level } => Ok(Statement::Delete {
            table: *table,
            cond: copied_condition(alloc, cond)?,
            level: *level,
        }),
        Statement::Commit => Ok(Statement::Commit),
        Statement::Rollback => Ok(Statement::Rollback),
        Statement::RollbackTo(name) => Ok(Statement::RollbackTo(*name)),
        Statement::Savepoint(name) => Ok(Statement::Savepoint(*name)),
        Statement::LockTable(table, mode) => Ok(Statement::LockTable(*table, *mode)),
        Statement::SetIsolation(level) => Ok(Statement::SetIsolation(*level)),
        Statement::SetWait(may_wait) => Ok(Statement::SetWait(*may_wait)),
    }
}
