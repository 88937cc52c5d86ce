//! Where a statement starts: its level, wants, path and first stage.

ghost use Rattle.std.specs.Prelude.{◌≡◌, ◌≤◌, ◌<◌, true, List, [], length, IfOk};
ghost use Rattle.iso_conduct.specs.Courses.{FitsUpdate, IsSound, IsSoundAt, columns_in, left_at, part_of, point_of};
ghost use Rattle.iso_conduct.specs.Parts as parts;
ghost use Rattle.iso_conduct.specs.Parts.{Part, listed, scan};
ghost use Rattle.iso_conduct.specs.Points.{start_point, updated_columns};
ghost use Rattle.iso_conduct.specs.Starts as starts;
ghost use Rattle.iso_conduct.specs.Starts.{AreFirstRows, IsFirst, IsFirstTally, look_in, path_in, setting_of, table_in};
ghost use Rattle.iso_sql.specs.Sound.{columns_of, is_sound_statement};
ghost use Rattle.iso_predicate.specs.Assigned.{has_null};
ghost use Rattle.iso_history.specs.Settings.{first_setting};
ghost use Rattle.iso_sql.specs.declared.statement.Statement.{Statement};
ghost use Rattle.iso_types.specs.declared.head.Column.{Column};

use crate::copies::copied_statement;
use crate::course::{Course, End, Front, Place, Stage, Then, Walk};
use iso_history::Want;
use iso_modes::Mode;
use iso_predicate::{Path, nulls, plan};
use iso_sql::{Items2, Statement};
use iso_types::{
    Conn, Desk, Head, IndexId, Isolation, Items, Memory, Range, Row, Rows, TableDef, TableId, Value,
};
use std::alloc::Global;

fn select_mode(level: Isolation, path: &Path) -> Mode
    ensures { result ≡ parts.select_mode level path.now }
{
    match level {
        Isolation::Ur => Mode::In,
        Isolation::Rr => match path {
            Path::Table => Mode::S,
            Path::Index(_, _) => Mode::Is,
        },
        _ => Mode::Is,
    }
}

fn select_want(cur_commit: bool, level: Isolation) -> Want
    ensures { result ≡ parts.select_want cur_commit level }
{
    match level {
        Isolation::Ur => Want::Dirty,
        Isolation::Cs => {
            if cur_commit {
                Want::Current
            } else {
                Want::Settled
            }
        }
        Isolation::Rs => Want::Steady,
        Isolation::Rr => Want::Repeat,
    }
}

fn change_mode(level: Isolation, path: &Path) -> Mode
    ensures { result ≡ parts.change_mode level path.now }
{
    match level {
        Isolation::Rr => match path {
            Path::Table => Mode::X,
            Path::Index(_, _) => Mode::Ix,
        },
        _ => Mode::Ix,
    }
}

fn change_want(level: Isolation) -> Want
    ensures { result ≡ parts.change_want level }
{
    match level {
        Isolation::Rr => Want::AlterKept,
        _ => Want::Alter,
    }
}

fn guards_keys(level: Isolation) -> bool
    ensures { result ≡ parts.guards_keys level }
{
    match level {
        Isolation::Rr => true,
        _ => false,
    }
}

fn level_in(desk: &Desk, level: Option<Isolation>) -> Isolation
    ensures { result ≡ parts.level_in (setting_of desk.now) level }
{
    level.unwrap_or(desk.isolation)
}

fn key_column(head: &Head, index: IndexId) -> u8
    ensures { result ≡ parts.key_column head.now index }
{
    match head.indexes.get(index.0 as usize) {
        Some(index) => index.column,
        None => 0,
    }
}

fn table_of(statement: &Statement) -> TableId
    ensures { result ≡ table_in statement.now }
{
    match statement {
        Statement::Select { table, .. } => *table,
        Statement::Insert { table, .. } => *table,
        Statement::Update { table, .. } => *table,
        Statement::Delete { table, .. } => *table,
        Statement::LockTable(table, _) => *table,
        _ => TableId(0),
    }
}

fn path_of(head: &Head, statement: &Statement) -> Path
    requires { length head.now.indexes ≤ 256 }
    ensures { result ≡ path_in head.now statement.now }
{
    match statement {
        Statement::Select { table, cond, .. } => plan(head, *table, cond),
        Statement::Update { table, cond, .. } => plan(head, *table, cond),
        Statement::Delete { table, cond, .. } => plan(head, *table, cond),
        _ => Path::Table,
    }
}

fn level_of(desk: &Desk, statement: &Statement) -> Isolation
    ensures { result ≡ starts.level_by (setting_of desk.now) statement.now }
{
    match statement {
        Statement::Select { level, .. } => level_in(desk, *level),
        Statement::Update { level, .. } => level_in(desk, *level),
        Statement::Delete { level, .. } => level_in(desk, *level),
        _ => desk.isolation,
    }
}

fn want_of(head: &Head, desk: &Desk, statement: &Statement) -> Want
    ensures { result ≡ starts.want_by head.now (setting_of desk.now) statement.now }
{
    match statement {
        Statement::Select { level, .. } => {
            select_want(head.config.cur_commit, level_in(desk, *level))
        }
        Statement::Update { level, .. } => change_want(level_in(desk, *level)),
        Statement::Delete { level, .. } => change_want(level_in(desk, *level)),
        _ => Want::Dirty,
    }
}

fn first_place(path: &Path) -> Place
    ensures { result ≡ starts.first_place path.now }
{
    match path {
        Path::Table => Place::Slot(0),
        Path::Index(_, _) => Place::Behind(None),
    }
}

fn walk_by(head: &Head, table: TableId, want: Want, level: Isolation, path: &Path) -> Walk
    ensures { part_of result (starts.first_place path.now) ≡ scan head.now table want level path.now }
{
    match path {
        Path::Table => Walk {
            table,
            want,
            index: IndexId(0),
            column: 0,
            range: Range {
                low: None,
                high: None,
            },
            guarded: false,
        },
        Path::Index(index, range) => Walk {
            table,
            want,
            index: *index,
            column: key_column(head, *index),
            range: *range,
            guarded: guards_keys(level),
        },
    }
}

/// A row to insert has a NULL where none may stand.
fn lacks(head: &Head, table: TableId, row: &Row) -> bool
    ensures { result ≡ has_null (columns_of head.now table) row.now }
{
    match head.tables.get(table.0 as usize) {
        Some(table) => nulls(table, row),
        None => false,
    }
}

fn first_level(head: &Head, conn: Conn) -> Isolation
    ensures { result ≡ (first_setting head.now conn).level }
{
    match head.conns.get(conn.0 as usize) {
        Some(conn) => conn.isolation,
        None => Isolation::Cs,
    }
}

/// The stage at which a statement starts.
fn first_stage(head: &Head, conn: Conn, desk: &Desk, statement: &Statement, path: &Path) -> Stage
    requires { path.now ≡ path_in head.now statement.now }
    ensures left { (columns : List Column) → left_at (table_in statement.now) statement.now columns (look_in head.now (setting_of desk.now) statement.now) [] result ≡ listed head.now conn (setting_of desk.now) statement.now }
    ensures sound { IsFirst statement.now result }
{
    match statement {
        Statement::Select { level, .. } => {
            Stage::Lock(select_mode(level_in(desk, *level), path), Then::Scan)
        }
        Statement::Update { level, .. } => {
            Stage::Lock(change_mode(level_in(desk, *level), path), Then::Scan)
        }
        Statement::Delete { level, .. } => {
            Stage::Lock(change_mode(level_in(desk, *level), path), Then::Scan)
        }
        Statement::Insert { table, row } => {
            if lacks(head, *table, row) {
                Stage::Lock(Mode::Ix, Then::NoRow)
            } else {
                Stage::Lock(Mode::Ix, Then::NewRow)
            }
        }
        Statement::LockTable(_, mode) => Stage::Lock(*mode, Then::Reply),
        Statement::Savepoint(name) => Stage::Marks(*name),
        Statement::RollbackTo(name) => Stage::Backs(*name),
        Statement::Rollback => Stage::Undos(0, End::Leaves(0, 0)),
        Statement::Commit => Stage::Settles,
        Statement::SetIsolation(level) => Stage::Sets(
            level.unwrap_or(first_level(head, conn)),
            desk.may_wait,
        ),
        Statement::SetWait(may_wait) => Stage::Sets(desk.isolation, *may_wait),
    }
}

/// The table that an UPDATE changes.
fn updated(alloc: Global, head: &Head, statement: &Statement) -> Result<Option<TableDef>, Memory>
    requires sound { is_sound_statement head.now statement.now ≡ true }
    ensures columns { IfOk result (λ updates. columns_in updates ≡ updated_columns head.now statement.now) }
    ensures fits { IfOk result (λ updates. FitsUpdate statement.now updates []) }
{
    match statement {
        Statement::Update { table, .. } => match head.tables.get(table.0 as usize) {
            Some(table) => {
                let copy = table.copied(alloc)?;
                Ok(Some(copy))
            }
            None => Ok(None),
        },
        _ => Ok(None),
    }
}

/// The number that a COUNT starts with.
fn first_tally(statement: &Statement) -> Option<u32>
    ensures { IsFirstTally statement.now result }
{
    match statement {
        Statement::Select {
            items: Items2::Count,
            ..
        } => Some(0),
        _ => None,
    }
}

/// The row of a COUNT, and no row else.
fn first_rows(alloc: Global, tally: Option<u32>) -> Result<Rows, Memory>
    ensures { IfOk result (λ rows. AreFirstRows tally rows) }
{
    let mut rows = Items::new(alloc);
    if tally.is_some() {
        let row = Row::of(alloc, &[Value::Int(0)])?;
        rows.push(row)?;
    }
    Ok(rows)
}

/// A statement before its first own entry.
pub fn first_course(
    alloc: Global,
    statement: &Statement,
    head: &Head,
    conn: Conn,
    desk: &Desk,
) -> Result<Course, Memory>
    requires indexes { length head.now.indexes ≤ 256 }
    requires sound { is_sound_statement head.now statement.now ≡ true }
    ensures point { IfOk result (λ c. point_of c ≡ start_point head.now conn (setting_of desk.now) desk.now.start statement.now) }
    ensures sound { IfOk result (λ c. IsSound c) }
{
    let updates = updated(alloc, head, statement)?;
    let path = path_of(head, statement);
    let table = table_of(statement);
    let stage = first_stage(head, conn, desk, statement, &path);
    let walk = walk_by(
        head,
        table,
        want_of(head, desk, statement),
        level_of(desk, statement),
        &path,
    );
    let place = first_place(&path);
    let tally = first_tally(statement);
    let rows = first_rows(alloc, tally)?;
    let assigned = Row::of(alloc, &[])?;
    let copy = copied_statement(alloc, statement)?;
    Ok(Course {
        statement: copy,
        updates,
        table,
        floor: desk.start,
        walk,
        place,
        front: Front::Nothing,
        stage,
        tally,
        rows,
        found: Items::new(alloc),
        assigned,
        fault: None,
    })
}
