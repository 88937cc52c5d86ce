//! What the lines ROW and INDEX stand for, and what is wrong with them: rows, keys and the indexes on them.

ghost use Rattle.std.specs.List.{list_any};
ghost use Rattle.std.specs.Prelude.{◌≡◌, ◌&&◌, length, nat_le, IfOk};
ghost use Rattle.iso_sql.specs.Names.{names_of};
ghost use Rattle.iso_sql.specs.Rows.{stored_row as stored};
ghost use Rattle.iso_script.specs.Kept.{IsKept, finds_key as finds};
ghost use Rattle.iso_script.specs.Keyed as spec;

use crate::event::Event;
use crate::events::whole_line;
use crate::keys::{Keys, add_value, has_value, key_at};
use crate::naming::{declared_fault, has_index, named};
use crate::progress::Progress;
use crate::words::{IndexWords, RowWords};
use iso_grammar::{Cause, Checked, Fault, Token, fault_at, least, unless};
use iso_sql::{Scope, place_in, scope_of, stored_fault, stored_row, table_of};
use iso_types::{Column, FirstRow, Head, IndexDef, Memory, TableId, Value};
use std::alloc::Global;

fn finds_key(keys: &Keys, table: TableId, row: &[Value], index: &IndexDef) -> bool
    ensures { result ≡ finds keys.now.keys table row.now index.now }
{
    index.unique
        && (index.table.0 == table.0
            && has_value(keys, table, index.column, &key_at(index.column, row)))
}

fn finds_keys(keys: &Keys, table: TableId, row: &[Value], mut indexes: &[IndexDef]) -> bool
    ensures { result ≡ list_any (finds keys.now.keys table row.now) indexes.entry.now }
{
    while let [index, rest @ ..] = indexes {
        if finds_key(keys, table, row, index) {
            return true;
        }
        indexes = rest;
    }
    false
}

fn repeats_keys(progress: &Progress, table: TableId, row: &[Value]) -> bool
    requires kept { IsKept progress.now }
    ensures { result ≡ spec.repeats_keys progress.now.reader.script.head table row.now }
{
    let indexes = progress.reader.script.head.indexes.as_slice();
    finds_keys(&progress.keys, table, row, indexes)
}

fn is_full(progress: &Progress, table: TableId) -> bool
    requires kept { IsKept progress.now }
    ensures { result ≡ nat_le 65536 (length (spec.own_rows table progress.now.reader.script.head.rows)) }
{
    progress.counts[table.0 as usize] >= 65536
}

#[tactic(auto, unfolding(crate::specs::Keyed::full_fault))]
fn full_fault(progress: &Progress, table: TableId) -> Option<Fault>
    requires kept { IsKept progress.now }
    ensures { result ≡ spec.full_fault progress.now.reader.script.head table }
{
    if is_full(progress, table) {
        return whole_line();
    }
    None
}

fn values_fault(
    progress: &Progress,
    scope: &Scope<'_>,
    words: RowWords,
    table: TableId,
    values: &[Token],
    row: &[Value],
) -> Option<Fault>
    requires kept { IsKept progress.now }
    requires row { row.now ≡ stored (names_of scope.now).line values.now }
    ensures { result ≡ spec.values_fault progress.now.reader.script.head (names_of scope.now).line words.first table (names_of scope.now).columns values.now words.close }
{
    let twice = unless(
        !repeats_keys(progress, table, row),
        words.first,
        Cause::Duplicate,
    );
    let fit = stored_fault(true, scope.line, scope.columns, values, words.close);
    least(twice, least(full_fault(progress, table), fit))
}

fn row_fault(
    progress: &Progress,
    scope: &Scope<'_>,
    words: RowWords,
    table: TableId,
    values: &[Token],
    row: &[Value],
) -> Option<Fault>
    requires kept { IsKept progress.now }
    requires row { row.now ≡ stored (names_of scope.now).line values.now }
    ensures { result ≡ spec.row_fault progress.now.reader.script.head (names_of scope.now) words.first words.table table values.now words.close }
{
    if scope.known {
        values_fault(progress, scope, words, table, values, row)
    } else {
        fault_at(words.table, Cause::Unknown)
    }
}

/// A ROW line with these values. `Memory` is want of memory for them. Cost: on average a constant time for each unique
/// index of the table; else the length of the line, the names of tables, and the number of indexes.
#[tactic(auto, unfolding(crate::specs::Keyed::rowed, iso_sql::specs::Names::table_names))]
pub fn rowed(
    alloc: Global,
    progress: &Progress,
    line: &[u8],
    words: RowWords,
    values: &[Token],
) -> Result<Checked<Event>, Memory>
    requires { IsKept progress.now }
    ensures { IfOk result (λ e. e ≡ spec.rowed progress.now.reader.script.head line.now words.first words.table values.now words.close) }
{
    let head = &progress.reader.script.head;
    let row = stored_row(alloc, line, values)?;
    let table = table_of(head, line, words.table);
    let scope = scope_of(head, line, words.table);
    let fault = row_fault(progress, &scope, words, table, values, row.as_slice());
    Ok(Checked {
        value: Event::Row(FirstRow { table, row }),
        fault,
    })
}

fn has_twice(
    alloc: Global,
    table: TableId,
    column: u8,
    mut rows: &[FirstRow],
) -> Result<bool, Memory>
    ensures { IfOk result (λ twice. twice ≡ spec.has_twice table column rows.entry.now) }
{
    let mut seen = Keys::new(alloc);
    while let [first, rest @ ..] = rows {
        if first.table.0 == table.0 {
            let key = key_at(column, first.row.as_slice());
            if has_value(&seen, table, column, &key) {
                return Ok(true);
            }
            add_value(&mut seen, table, column, &key)?;
        }
        rows = rest;
    }
    Ok(false)
}

fn own_indexes(table: TableId, mut indexes: &[IndexDef]) -> usize
    ensures { result ≡ length (spec.own_indexes table indexes.entry.now) }
{
    let mut count = 0;
    while let [index, rest @ ..] = indexes {
        if index.table.0 == table.0 {
            count += 1;
        }
        indexes = rest;
    }
    count
}

#[tactic(auto, unfolding(crate::specs::Keyed::crowd_fault))]
fn crowd_fault(head: &Head, table: TableId) -> Option<Fault>
    ensures { result ≡ spec.crowd_fault head.now table }
{
    if head.indexes.len() >= 32 || own_indexes(table, head.indexes.as_slice()) >= 4 {
        return whole_line();
    }
    None
}

fn required_fault(found: Option<Column>, column: Token) -> Option<Fault>
    ensures { result ≡ spec.required_fault found column }
{
    match found {
        Some(found) => unless(found.required, column, Cause::TypeFault),
        None => fault_at(column, Cause::Unknown),
    }
}

fn is_doubled(
    alloc: Global,
    head: &Head,
    words: IndexWords,
    table: TableId,
    column: u8,
) -> Result<bool, Memory>
    ensures { IfOk result (λ twice. twice ≡ (words.unique && spec.has_twice table column head.now.rows)) }
{
    if words.unique {
        return has_twice(alloc, table, column, head.rows.as_slice());
    }
    Ok(false)
}

fn keys_fault(
    alloc: Global,
    head: &Head,
    words: IndexWords,
    table: TableId,
    place: Option<u8>,
) -> Result<Option<Fault>, Memory>
    ensures { IfOk result (λ fault. fault ≡ spec.keys_fault head.now words table place) }
{
    match place {
        Some(column) => {
            let twice = is_doubled(alloc, head, words, table, column)?;
            Ok(unless(!twice, words.first, Cause::Duplicate))
        }
        None => Ok(None),
    }
}

fn on_fault(
    alloc: Global,
    head: &Head,
    words: IndexWords,
    table: TableId,
    scope: &Scope<'_>,
) -> Result<Option<Fault>, Memory>
    ensures { IfOk result (λ fault. fault ≡ spec.on_fault head.now words table (names_of scope.now)) }
{
    let twice = keys_fault(alloc, head, words, table, scope.column_place(words.column))?;
    let column = required_fault(scope.column_of(words.column), words.column);
    Ok(least(twice, least(crowd_fault(head, table), column)))
}

fn unknown_fault(head: &Head, table: Token) -> Option<Fault>
    ensures { result ≡ spec.unknown_fault head.now table }
{
    let crowd = if head.indexes.len() >= 32 {
        whole_line()
    } else {
        None
    };
    least(crowd, fault_at(table, Cause::Unknown))
}

fn place_fault(
    alloc: Global,
    head: &Head,
    words: IndexWords,
    table: TableId,
    scope: &Scope<'_>,
) -> Result<Option<Fault>, Memory>
    ensures { IfOk result (λ fault. fault ≡ spec.place_fault head.now words table (names_of scope.now)) }
{
    if scope.known {
        on_fault(alloc, head, words, table, scope)
    } else {
        Ok(unknown_fault(head, words.table))
    }
}

/// An INDEX line. `Memory` is want of memory for the keys of the rows. Cost: where it is UNIQUE, one look at each row,
/// and on average a constant time for each of the table; else the length of the line, and the names declared.
#[tactic(auto, unfolding(crate::specs::Keyed::indexed))]
pub fn indexed(
    alloc: Global,
    head: &Head,
    line: &[u8],
    words: IndexWords,
) -> Result<Checked<Event>, Memory>
    ensures { IfOk result (λ e. e ≡ spec.indexed head.now line.now words) }
{
    let scope = scope_of(head, line, words.table);
    let table = table_of(head, line, words.table);
    let own = declared_fault(has_index(head, line, words.name), line, words.name);
    let fault = place_fault(alloc, head, words, table, &scope)?;
    Ok(Checked {
        value: Event::Index(IndexDef {
            name: named(line, words.name),
            table,
            column: place_in(scope.column_place(words.column)),
            unique: words.unique,
        }),
        fault: least(own, fault),
    })
}
