//! What the lines of a script stand for, and what is wrong with them.

ghost use Rattle.std.specs.Prelude.{◌≡◌, ◌≤◌, ◌&&◌, map, length, filter, IfOk, Some, None, [], ℕ};
ghost use Rattle.std.specs.List.{list_any};
ghost use Rattle.iso_grammar.specs.declared.fault.Cause.TheVariants as why;
ghost use Rattle.iso_sql.specs.Names.{gives as names};
ghost use Rattle.iso_script.specs.Events as spec;

use crate::event::{Event, Setting, Settings};
use crate::naming::{
    connection_fault, connection_of, declared_fault, has_connection, has_table, named, ranged,
    ranged_or_low,
};
use crate::script::{Line, What};
use crate::words::{ColumnWords, SettingName, SettingWords, TypeWords};
use iso_grammar::{Cause, Checked, Fault, Kind, Token, least, same, unless};
use iso_sql::{Statement, gives};
use iso_types::{Column, ColumnKind, ConnDef, Head, Isolation, Items, Memory, TableDef};
use std::alloc::Global;

/// A limit of the whole line is passed.
pub fn whole_line() -> Option<Fault>
    ensures { result ≡ spec.whole_line why.Limit }
{
    Some(Fault {
        place: 1,
        cause: Cause::Limit,
    })
}

/// The least and the greatest number of a setting.
fn bounds_of(name: SettingName) -> (u32, u32)
    ensures bounds { result ≡ spec.bounds_of name }
    ensures ordered { result.0 ≤ result.1 }
{
    match name {
        SettingName::CurCommit => (0, 0),
        SettingName::Locklist => (4, 4096),
        SettingName::Maxlocks => (1, 100),
        SettingName::Logmax => (2, 1_000_000),
        SettingName::Window => (1, 1_000_000),
    }
}

fn setting_of(name: SettingName, on: bool, number: u32) -> Setting
    ensures { result ≡ spec.setting_of name on number }
{
    match name {
        SettingName::CurCommit => Setting::CurCommit(on),
        SettingName::Locklist => Setting::Locklist(number),
        SettingName::Maxlocks => Setting::Maxlocks(number),
        SettingName::Logmax => Setting::Logmax(number),
        SettingName::Window => Setting::Window(number),
    }
}

fn is_set(set: Settings, name: SettingName) -> bool
    ensures { result ≡ spec.is_set set name }
{
    match name {
        SettingName::CurCommit => set.cur_commit,
        SettingName::Locklist => set.locklist,
        SettingName::Maxlocks => set.maxlocks,
        SettingName::Logmax => set.logmax,
        SettingName::Window => set.window,
    }
}

fn number_fault(line: &[u8], name: SettingName, value: Token) -> Option<Fault>
    ensures { result ≡ spec.number_fault line.now name value }
{
    let (low, high) = bounds_of(name);
    unless(
        ranged(line, value, low, high).is_some(),
        value,
        Cause::Limit,
    )
}

fn setting_value_fault(line: &[u8], name: SettingName, value: Token) -> Option<Fault>
    ensures { result ≡ spec.setting_value_fault line.now name value }
{
    match name {
        SettingName::CurCommit => None,
        _ => number_fault(line, name, value),
    }
}

#[tactic(auto, unfolding(crate::specs::Events::configured))]
pub fn configured(set: Settings, line: &[u8], words: SettingWords) -> Checked<Event>
    ensures { result ≡ spec.configured set line.now words }
{
    let on = same(Kind::On, words.value.kind);
    let (low, high) = bounds_of(words.name);
    let number = ranged_or_low(line, words.value, low, high);
    let twice = unless(!is_set(set, words.name), words.word, Cause::Duplicate);
    Checked {
        value: Event::Config(setting_of(words.name, on, number)),
        fault: least(twice, setting_value_fault(line, words.name, words.value)),
    }
}

fn kind_of(line: &[u8], words: TypeWords) -> ColumnKind
    ensures { result ≡ spec.kind_of line.now words }
{
    match words {
        TypeWords::Integer => ColumnKind::Integer,
        TypeWords::Bigint => ColumnKind::Bigint,
        TypeWords::Varchar(size) => ColumnKind::Varchar(ranged_or_low(line, size, 1, 32) as u8),
    }
}

fn kind_fault(line: &[u8], words: TypeWords) -> Option<Fault>
    ensures { result ≡ spec.kind_fault line.now words }
{
    match words {
        TypeWords::Integer => None,
        TypeWords::Bigint => None,
        TypeWords::Varchar(size) => {
            unless(ranged(line, size, 1, 32).is_some(), size, Cause::Limit)
        }
    }
}

#[tactic(auto, unfolding(crate::specs::Events::column_of))]
fn column_of(line: &[u8], words: ColumnWords) -> Column
    ensures { result ≡ spec.column_of line.now words }
{
    Column {
        name: named(line, words.name),
        kind: kind_of(line, words.kind),
        required: words.required,
    }
}

fn repeats(line: &[u8], columns: &[Column], name: Token) -> bool
    ensures { result ≡ list_any (λ d. names line.now name d.name) columns.now }
{
    columns.iter().any(|column| gives(line, name, column.name))
}

#[tactic(auto, unfolding(crate::specs::Events::column_fault))]
fn column_fault(line: &[u8], before: &[Column], words: ColumnWords) -> Option<Fault>
    ensures { result ≡ spec.column_fault line.now before.now words }
{
    let taken = repeats(line, before, words.name);
    least(
        declared_fault(taken, line, words.name),
        kind_fault(line, words.kind),
    )
}

fn columns_of(
    alloc: Global,
    line: &[u8],
    mut words: &[ColumnWords],
) -> Result<Items<Column>, Memory>
    ensures { IfOk result (λ columns. columns ≡ map (spec.column_of line.now) words.entry.now) }
{
    let mut columns = Items::new(alloc);
    while let [first, rest @ ..] = words {
        columns.push(column_of(line, *first))?;
        words = rest;
    }
    Ok(columns)
}

fn columns_fault(
    alloc: Global,
    line: &[u8],
    mut words: &[ColumnWords],
) -> Result<Option<Fault>, Memory>
    ensures { IfOk result (λ fault. fault ≡ spec.columns_fault line.now None [] words.entry.now) }
{
    let mut before = Items::new(alloc);
    let mut fault = None;
    while let [first, rest @ ..] = words {
        fault = least(fault, column_fault(line, before.as_slice(), *first));
        before.push(column_of(line, *first))?;
        words = rest;
    }
    Ok(fault)
}

fn table_fault(
    alloc: Global,
    head: &Head,
    line: &[u8],
    table: Token,
    columns: &[ColumnWords],
) -> Result<Option<Fault>, Memory>
    ensures { IfOk result (λ fault. fault ≡ spec.table_fault head.now line.now table columns.now) }
{
    if columns.len() > 8 || head.tables.len() >= 16 {
        return Ok(whole_line());
    }
    let own = declared_fault(has_table(head, line, table), line, table);
    Ok(least(own, columns_fault(alloc, line, columns)?))
}

#[tactic(auto, unfolding(crate::specs::Events::declared))]
pub fn declared(
    alloc: Global,
    head: &Head,
    line: &[u8],
    table: Token,
    columns: &[ColumnWords],
) -> Result<Checked<Event>, Memory>
    ensures { IfOk result (λ e. e ≡ spec.declared head.now line.now table columns.now) }
{
    let fault = table_fault(alloc, head, line, table, columns)?;
    let columns = columns_of(alloc, line, columns)?;
    let name = named(line, table);
    Ok(Checked {
        value: Event::Table(TableDef { name, columns }),
        fault,
    })
}

fn connect_fault(head: &Head, line: &[u8], conn: Token) -> Option<Fault>
    ensures { result ≡ spec.connect_fault head.now line.now conn }
{
    if head.conns.len() >= 32 {
        return whole_line();
    }
    declared_fault(has_connection(head, line, conn), line, conn)
}

#[tactic(auto, unfolding(crate::specs::Events::connected))]
pub fn connected(head: &Head, line: &[u8], conn: Token, level: Isolation) -> Checked<Event>
    ensures { result ≡ spec.connected head.now line.now conn level }
{
    let name = named(line, conn);
    Checked {
        value: Event::Connect(ConnDef {
            name,
            isolation: level,
        }),
        fault: connect_fault(head, line, conn),
    }
}

#[tactic(auto, unfolding(crate::specs::Events::stated))]
pub fn stated(
    head: &Head,
    line: &[u8],
    free: bool,
    conn: Token,
    found: Checked<Statement>,
) -> Checked<Event>
    ensures { result ≡ spec.stated head.now line.now free conn found }
{
    let fault = least(connection_fault(head, line, conn), found.fault);
    let conn = connection_of(head, line, conn);
    Checked {
        value: Event::Asked(Some(conn), free, What::Statement(found.value)),
        fault,
    }
}

#[tactic(auto, unfolding(crate::specs::Events::expired))]
pub fn expired(head: &Head, line: &[u8], conn: Token) -> Checked<Event>
    ensures { result ≡ spec.expired head.now line.now conn }
{
    Checked {
        value: Event::Asked(Some(connection_of(head, line, conn)), false, What::Expire),
        fault: connection_fault(head, line, conn),
    }
}

fn is_snapshot(what: &What) -> bool
    ensures { result ≡ spec.is_snapshot what.now }
{
    matches!(what, What::Snapshot)
}

fn snapshots(mut lines: &[Line]) -> usize
    ensures { result ≡ length (spec.snapshots lines.entry.now) }
{
    let mut count = 0;
    while let [line, rest @ ..] = lines {
        if is_snapshot(&line.what) {
            count += 1;
        }
        lines = rest;
    }
    count
}

#[tactic(auto, unfolding(crate::specs::Events::pictured))]
pub fn pictured(lines: &[Line]) -> Checked<Event>
    ensures { result ≡ spec.pictured lines.now }
{
    let fault = if snapshots(lines) >= 32 {
        whole_line()
    } else {
        None
    };
    Checked {
        value: Event::Asked(None, false, What::Snapshot),
        fault,
    }
}

/// An event without a fault.
pub fn plain(event: Event) -> Checked<Event>
    ensures { result ≡ spec.plain event }
{
    Checked {
        value: event,
        fault: None,
    }
}
