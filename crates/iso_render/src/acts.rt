ghost use Rattle.std.specs.Prelude.{◌≡◌, ◌++◌, OnOk, codes, map};
ghost use Rattle.std.specs.Fmt.{decimal, signed_decimal};
ghost use Rattle.iso_render.specs.Fields.{after_text, answered, changed, high_text, lock_text, low_text, paced, sought, spaced, stand_text, truth_word, whole_row};
ghost use Rattle.iso_render.specs.Texts.{conn_name, index_name, table_name};

use crate::fields::{
    level_of, put_after, put_got, put_high, put_lock_text, put_low, put_stand, put_whole_row,
    term_of, truth_of, want_of, why_of,
};
use crate::names::{put_conn, put_index, put_name, put_table, word_of};
use crate::put::{put, put_number, put_signed, put_value};
use crate::said::cause_of;
use iso_history::{Act, Stand};
use iso_queue::LockLine;
use iso_types::{Conn, Cycle, Head, IndexId, Memory, Range, Rid, Row, TableId, Value};

// Appends the field behind a blank.
fn put_field(out: &mut Vec<u8>, field: &[u8]) -> Result<(), Memory>
    ensures { OnOk result (out.new.items ≡ out.old.items ++ (codes " " ++ field.now)) }
{
    put(out, b" ")?;
    put(out, field)
}

// Appends the number behind a blank.
fn put_count(out: &mut Vec<u8>, n: u64) -> Result<(), Memory>
    ensures { OnOk result (out.new.items ≡ out.old.items ++ (codes " " ++ decimal n)) }
{
    put(out, b" ")?;
    put_number(out, n)
}

// Appends the connection behind a blank.
fn put_member(out: &mut Vec<u8>, head: &Head, conn: Conn) -> Result<(), Memory>
    ensures { OnOk result (out.new.items ≡ out.old.items ++ (codes " " ++ conn_name head.now conn)) }
{
    put(out, b" ")?;
    put_conn(out, head, conn)
}

// Appends the table and the row behind blanks.
fn put_slot(out: &mut Vec<u8>, head: &Head, table: TableId, rid: Rid) -> Result<(), Memory>
    ensures { OnOk result (out.new.items ≡ out.old.items ++ (codes " " ++ table_name head.now table ++ codes " " ++ decimal rid.0)) }
{
    put(out, b" ")?;
    put_table(out, head, table)?;
    put_count(out, u64::from(rid.0))
}

// Appends the index and the bounds of a scan behind blanks.
fn put_range(out: &mut Vec<u8>, head: &Head, index: IndexId, range: &Range) -> Result<(), Memory>
    ensures { OnOk result (out.new.items ≡ out.old.items
        ++ (codes " " ++ index_name head.now index ++ codes " " ++ low_text range.now.low ++ codes " " ++ high_text range.now.high)) }
{
    put(out, b" ")?;
    put_index(out, head, index)?;
    put(out, b" ")?;
    put_low(out, &range.low)?;
    put(out, b" ")?;
    put_high(out, &range.high)
}

// Appends where a step of an index scan begins, whether it is guarded, and where it comes to stand, behind blanks.
fn put_onward(
    out: &mut Vec<u8>,
    head: &Head,
    after: &Option<(Value, Rid)>,
    guarded: bool,
    got: &Stand,
) -> Result<(), Memory>
    ensures { OnOk result (out.new.items ≡ out.old.items
        ++ (codes " " ++ after_text after.now ++ codes " " ++ truth_word guarded ++ codes " " ++ stand_text head.now got.now)) }
{
    put(out, b" ")?;
    put_after(out, after)?;
    put_field(out, truth_of(guarded))?;
    put(out, b" ")?;
    put_stand(out, head, got)
}

// Appends the locks of a snapshot.
fn put_lock_fields(out: &mut Vec<u8>, head: &Head, locks: &[LockLine]) -> Result<(), Memory>
    ensures { OnOk result (out.new.items ≡ out.old.items ++ spaced (map (lock_text head.now) locks.now)) }
{
    for lock in locks {
        put(out, b" ")?;
        put_lock_text(out, head, lock)?;
    }
    Ok(())
}

// Appends the members of a cycle.
fn put_cycle(out: &mut Vec<u8>, head: &Head, cycle: &Cycle) -> Result<(), Memory>
    ensures { OnOk result (out.new.items ≡ out.old.items ++ spaced (map (conn_name head.now) cycle.now)) }
{
    for at in 0..cycle.len() {
        put_member(out, head, cycle.member(at))?;
    }
    Ok(())
}

// Appends the rows of a reply.
fn put_row_fields(out: &mut Vec<u8>, rows: &[Row]) -> Result<(), Memory>
    ensures { OnOk result (out.new.items ≡ out.old.items ++ spaced (map whole_row rows.now)) }
{
    for row in rows {
        put(out, b" ")?;
        put_whole_row(out, row)?;
    }
    Ok(())
}

// Appends the fields of an act of the dispatcher.
pub fn put_paced(out: &mut Vec<u8>, head: &Head, act: &Act) -> Result<(), Memory>
    ensures { OnOk result (out.new.items ≡ out.old.items ++ spaced (paced head.now act.now)) }
{
    match act {
        Act::Dispatch { line, conn } | Act::Busy { line, conn } => {
            put_count(out, u64::from(*line))?;
            put_member(out, head, *conn)
        }
        Act::Expire { line, conn, ended } => {
            put_count(out, u64::from(*line))?;
            put_member(out, head, *conn)?;
            put_field(out, truth_of(*ended))
        }
        Act::Snapshot { line, locks } => {
            put_count(out, u64::from(*line))?;
            put_count(out, locks.len() as u64)?;
            put_lock_fields(out, head, locks.as_slice())
        }
        Act::Victim { cycle } => put_cycle(out, head, cycle),
        Act::Purge { index, key, rid } => {
            put(out, b" ")?;
            put_index(out, head, *index)?;
            put(out, b" ")?;
            put_value(out, key)?;
            put_count(out, u64::from(rid.0))
        }
        Act::Close { conn } => put_member(out, head, *conn),
        _ => Ok(()),
    }
}

// Appends the fields of a request, a look or a step of a scan.
pub fn put_sought(out: &mut Vec<u8>, head: &Head, act: &Act) -> Result<(), Memory>
    ensures { OnOk result (out.new.items ≡ out.old.items ++ spaced (sought head.now act.now)) }
{
    match act {
        Act::Lock {
            name,
            mode,
            term,
            why,
            got,
        } => {
            put(out, b" ")?;
            put_name(out, head, name)?;
            put_field(out, word_of(*mode))?;
            put_field(out, term_of(*term))?;
            put_field(out, why_of(*why))?;
            put(out, b" ")?;
            put_got(out, *got)
        }
        Act::Look {
            table,
            rid,
            want,
            got,
        } => {
            put_slot(out, head, *table, *rid)?;
            put_field(out, want_of(*want))?;
            put(out, b" ")?;
            put_got(out, *got)
        }
        Act::ScanEnd { table, slots } => put_slot(out, head, *table, Rid(*slots)),
        Act::Next {
            index,
            range,
            after,
            guarded,
            got,
        } => {
            put_range(out, head, *index, range.get())?;
            put_onward(out, head, after.get(), *guarded, got.get())
        }
        Act::Free { table, rid } => put_slot(out, head, *table, *rid),
        Act::Collapse { table, mode } => {
            put(out, b" ")?;
            put_table(out, head, *table)?;
            put_field(out, word_of(*mode))
        }
        _ => Ok(()),
    }
}

// Appends the fields of a change, or of what undoes it.
pub fn put_changed(out: &mut Vec<u8>, head: &Head, act: &Act) -> Result<(), Memory>
    ensures { OnOk result (out.new.items ≡ out.old.items ++ spaced (changed head.now act.now)) }
{
    match act {
        Act::Insert { table, rid, row } | Act::Update { table, rid, row } => {
            put_slot(out, head, *table, *rid)?;
            put(out, b" ")?;
            put_whole_row(out, row)
        }
        Act::Delete { table, rid } => put_slot(out, head, *table, *rid),
        Act::Undo { number } => put_count(out, u64::from(*number)),
        Act::Mark { name } | Act::Back { name } => put_field(out, name.as_bytes()),
        _ => Ok(()),
    }
}

// Appends the fields of a setting, a refusal, an answer or a stop.
pub fn put_answered(out: &mut Vec<u8>, act: &Act) -> Result<(), Memory>
    ensures { OnOk result (out.new.items ≡ out.old.items ++ spaced (answered act.now)) }
{
    match act {
        Act::Refused { code } => {
            put(out, b" ")?;
            put_signed(out, i64::from(*code))
        }
        Act::Set { level, may_wait } => {
            put_field(out, level_of(*level))?;
            put_field(out, truth_of(*may_wait))
        }
        Act::Rollback { code, reason } => {
            put(out, b" ")?;
            put_signed(out, i64::from(*code))?;
            put_count(out, u64::from(*reason))
        }
        Act::Reply {
            code,
            changed,
            rows,
        } => {
            put(out, b" ")?;
            put_signed(out, i64::from(*code))?;
            put_count(out, u64::from(*changed))?;
            put_row_fields(out, rows.as_slice())
        }
        Act::Stopped { cause } => put_field(out, cause_of(*cause)),
        _ => Ok(()),
    }
}
