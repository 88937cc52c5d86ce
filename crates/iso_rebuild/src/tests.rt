ghost use Rattle.std.specs.List.{list_all};
ghost use Rattle.std.specs.Prelude.{◌≡◌, ◌<◌, IfSome, true, nat_lt};
ghost use Rattle.iso_record.specs.Undone.{columns_in};
ghost use Rattle.iso_rebuild.specs.Chains.{HasChain};

use crate::{Past, rebuild};
use iso_record::{Change, Record, undo_on};
use iso_segment::Store;
use iso_types::{Items, Memory, Rid, Row, TableId, Value};
use std::alloc::Global;
use std::process::Abort;

/// The record of the update that makes the next number of this one.
fn note(alloc: Global, number: u32) -> Result<Record, Memory> {
    let mut olds = Items::new(alloc);
    olds.push_copy(&(0, Value::Int(i64::from(number))))?;
    Ok(Record {
        number,
        unit: 1,
        table: TableId(0),
        rid: Rid(0),
        change: Change::Update(olds),
        prev_row: number.checked_sub(1),
        prev_unit: number.checked_sub(1),
        after: None,
    })
}

/// The records of a row that is updated so many times, from 0 on.
fn updates(alloc: Global, count: u32) -> Result<Store<Record>, Memory> {
    let mut notes = Store::new(alloc);
    for number in 0..count {
        let note = note(alloc, number)?;
        notes.reserve(1)?;
        notes.push_reserved(note);
    }
    Ok(notes)
}

/// Whether these columns are in a row of this width.
fn are_within(olds: &[(u8, Value)], width: usize) -> bool
    ensures { result ≡ list_all (λ p. nat_lt p.0 width) olds.now }
{
    for old in olds {
        if old.0 as usize >= width {
            return false;
        }
    }
    true
}

/// Whether the record's columns are in a row of this width.
fn fits(note: &Record, width: usize) -> bool
    ensures { result ≡ columns_in width note.now.change }
{
    match &note.change {
        Change::Update(olds) => are_within(olds.as_slice(), width),
        _ => true,
    }
}

/// Whether the earlier record, if there is one, is lower.
fn is_lower(prev: Option<u32>, number: u32) -> bool
    ensures { result ≡ true → IfSome prev (λ j. j < number) }
{
    match prev {
        Some(prev) => prev < number,
        None => true,
    }
}

/// Whether the pin has the slot's chain.
fn has_chain(past: &Past) -> bool
    ensures { result ≡ true → HasChain past.now }
{
    let width = past.row.width();
    let mut at = Some(past.head);
    while let Some(number) = at {
        match past.pin.item(number) {
            Some(note) => {
                if !fits(note, width) || !is_lower(note.prev_row, number) {
                    return false;
                }
                at = note.prev_row;
            }
            None => return false,
        }
    }
    true
}

/// Whether the row has this number.
fn has_number(row: &Row, number: u32) -> bool {
    row.as_slice() == [Value::Int(i64::from(number))].as_slice()
}

/// Whether the row has each number in turn while the records are undone one by one, from the last on.
fn gives_each_back(notes: &Store<Record>, mut row: Row) -> bool {
    let mut live = true;
    for number in (0..notes.len()).rev() {
        match notes.get(number) {
            Some(note) => {
                if !fits(note, row.width()) {
                    return false;
                }
                undo_on(note, &mut row, &mut live);
            }
            None => return false,
        }
        if !live || !has_number(&row, number) {
            return false;
        }
    }
    true
}

/// Whether the row before is rebuilt of the pin of all records.
fn gives_the_first_back(notes: &Store<Record>, row: Row) -> bool {
    let len = notes.len();
    if len == 0 {
        return false;
    }
    let head = len - 1;
    match notes.pin(0, head) {
        Ok(pin) => {
            let live = true;
            let past = Past {
                pin,
                row,
                live,
                head,
            };
            has_chain(&past) && rebuild(past).is_some_and(|row| has_number(&row, 0))
        }
        Err(_) => false,
    }
}

/// Whether a row that is changed so many times is rebuilt, and undone.
fn is_given_back(alloc: Global, count: u32) -> Result<bool, Memory> {
    let notes = updates(alloc, count)?;
    let row = Row::of(alloc, &[Value::Int(i64::from(count))])?;
    let copy = row.copied(alloc)?;
    Ok(gives_the_first_back(&notes, row) && gives_each_back(&notes, copy))
}

#[test]
fn a_row_changed_300_times(rt: HostRuntime) {
    // The first 256 records lie in a sealed segment.
    assert!(rt; is_given_back(rt.alloc(), 300) == Ok(true));
}
