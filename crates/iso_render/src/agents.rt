ghost use Rattle.std.specs.Prelude.{◌≡◌, ◌++◌, OnOk};
ghost use Rattle.iso_render.specs.Transcript.{agent_text, reply_words, rollback_words, row_lines, said, wait_words};

use crate::names::{put_name, put_table, word_of};
use crate::opened::OpenLine;
use crate::put::{put, put_number, put_row, put_signed};
use crate::said::{cause_of, put_front};
use iso_history::{Act, Got, Stand};
use iso_modes::Mode;
use iso_types::{Conn, Head, Memory, Name, Row};

// Appends a line for each row.
fn put_rows(
    out: &mut Vec<u8>,
    head: &Head,
    line: u32,
    conn: Conn,
    rows: &[Row],
) -> Result<(), Memory>
    ensures { OnOk result (out.new.items ≡ out.old.items ++ row_lines head.now line conn rows.now) }
{
    for row in rows {
        put_front(out, head, line, conn)?;
        put(out, b"ROW ")?;
        put_row(out, row)?;
        put(out, b"\n")?;
    }
    Ok(())
}

// Appends a reply's code, and the number of changed rows where a change went well.
fn put_reply(out: &mut Vec<u8>, changes: bool, code: i32, changed: u32) -> Result<(), Memory>
    ensures { OnOk result (out.new.items ≡ out.old.items ++ reply_words changes code changed) }
{
    put(out, b"SQLCODE ")?;
    put_signed(out, i64::from(code))?;
    if changes && code == 0 {
        put(out, b" ROWS ")?;
        put_number(out, u64::from(changed))?;
    }
    Ok(())
}

// Appends a rollback's code, and the reason where the code isn't 0.
fn put_rollback(out: &mut Vec<u8>, code: i32, reason: u8) -> Result<(), Memory>
    ensures { OnOk result (out.new.items ≡ out.old.items ++ rollback_words code reason) }
{
    put(out, b"SQLCODE ")?;
    put_signed(out, i64::from(code))?;
    if code != 0 {
        put(out, b" REASON ")?;
        put_number(out, u64::from(reason))?;
    }
    Ok(())
}

// Appends the line of a wait.
fn put_wait(
    out: &mut Vec<u8>,
    head: &Head,
    line: u32,
    conn: Conn,
    mode: Mode,
    name: &Name,
) -> Result<(), Memory>
    ensures { OnOk result (out.new.items ≡ out.old.items ++ said head.now line conn (wait_words head.now (mode, name.now))) }
{
    put_front(out, head, line, conn)?;
    put(out, b"WAITS ")?;
    put(out, word_of(mode))?;
    put(out, b" ")?;
    put_name(out, head, name)?;
    put(out, b"\n")
}

// Appends what a connection's entry prints.
pub fn put_agent(
    out: &mut Vec<u8>,
    head: &Head,
    current: OpenLine,
    conn: Conn,
    act: &Act,
) -> Result<(), Memory>
    ensures { OnOk result (out.new.items ≡ out.old.items ++ agent_text head.now current conn act.now) }
{
    let line = current.line;
    match act {
        Act::Lock {
            name,
            got: Got::Queued(mode),
            ..
        } => { put_wait(out, head, line, conn, *mode, name) }
        Act::Look {
            table,
            rid,
            got: Got::Queued(mode),
            ..
        } => { put_wait(out, head, line, conn, *mode, &Name::Row(*table, *rid)) }
        Act::Next { got, .. } => match got.get() {
            Stand::Queued(name) => put_wait(out, head, line, conn, Mode::S, name),
            _ => Ok(()),
        },
        Act::Collapse { table, mode } => {
            put_front(out, head, line, conn)?;
            put(out, b"ESCALATES ")?;
            put_table(out, head, *table)?;
            put(out, b" ")?;
            put(out, word_of(*mode))?;
            put(out, b"\n")
        }
        Act::Reply {
            code,
            changed,
            rows,
        } => {
            put_rows(out, head, line, conn, rows.as_slice())?;
            put_front(out, head, line, conn)?;
            put_reply(out, current.changes, *code, *changed)?;
            put(out, b"\n")
        }
        Act::Commit => {
            put_front(out, head, line, conn)?;
            put(out, b"SQLCODE 0\n")
        }
        Act::Rollback { code, reason } => {
            put_front(out, head, line, conn)?;
            put_rollback(out, *code, *reason)?;
            put(out, b"\n")
        }
        Act::Stopped { cause } => {
            put_front(out, head, line, conn)?;
            put(out, b"STOPPED ")?;
            put(out, cause_of(*cause))?;
            put(out, b"\n")
        }
        _ => Ok(()),
    }
}
