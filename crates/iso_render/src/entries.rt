ghost use Rattle.std.specs.Prelude.{◌≡◌, ◌++◌, OnOk, IfOk};
ghost use Rattle.iso_render.specs.Transcript.{agent_text, dispatcher_text, entry_text, lock_line, lock_lines, printed, row_lines, transcript};

use crate::agents::put_agent;
use crate::names::{put_conn, put_name, state_of, word_of};
use crate::opened::{self, OpenLine, Passed};
use crate::put::{put, put_number};
use crate::said::{cause_of, put_front};
use iso_history::{Act, Entry, History, Who};
use iso_queue::LockLine;
use iso_script::Script;
use iso_types::{Conn, Head, Items, Memory};
use std::alloc::Global;

// Appends a line of a snapshot.
fn put_lock(out: &mut Vec<u8>, head: &Head, line: u32, lock: &LockLine) -> Result<(), Memory>
    ensures { OnOk result (out.new.items ≡ out.old.items ++ lock_line head.now line lock.now) }
{
    put_number(out, u64::from(line))?;
    put(out, b" LOCK ")?;
    put_name(out, head, &lock.name)?;
    put(out, b" ")?;
    put_conn(out, head, lock.conn)?;
    put(out, b" ")?;
    put(out, word_of(lock.mode))?;
    put(out, b" ")?;
    put(out, state_of(lock.state))?;
    put(out, b"\n")
}

// Appends a line for each lock of a snapshot.
fn put_locks(out: &mut Vec<u8>, head: &Head, line: u32, locks: &[LockLine]) -> Result<(), Memory>
    ensures { OnOk result (out.new.items ≡ out.old.items ++ lock_lines head.now line locks.now) }
{
    for lock in locks {
        put_lock(out, head, line, lock)?;
    }
    Ok(())
}

// Appends what the dispatcher's entry prints.
fn put_dispatcher(out: &mut Vec<u8>, head: &Head, act: &Act) -> Result<(), Memory>
    ensures { OnOk result (out.new.items ≡ out.old.items ++ dispatcher_text head.now act.now) }
{
    match act {
        Act::Busy { line, conn } => {
            put_front(out, head, *line, *conn)?;
            put(out, b"BUSY\n")
        }
        Act::Expire { line, conn, ended } => {
            put_number(out, u64::from(*line))?;
            put(out, b" EXPIRE ")?;
            put_conn(out, head, *conn)?;
            put(out, if *ended { b"\n" } else { b" NO EFFECT\n" })
        }
        Act::Snapshot { line, locks } => {
            put_locks(out, head, *line, locks.as_slice())?;
            put_number(out, u64::from(*line))?;
            put(out, b" LOCKS ")?;
            put_number(out, locks.len() as u64)?;
            put(out, b"\n")
        }
        Act::Stopped { cause } => {
            put(out, b"STOPPED ")?;
            put(out, cause_of(*cause))?;
            put(out, b"\n")
        }
        Act::Finish => put(out, b"END\n"),
        _ => Ok(()),
    }
}

// Appends what the entry prints.
fn put_entry(
    out: &mut Vec<u8>,
    head: &Head,
    opens: &[OpenLine],
    entry: &Entry,
) -> Result<(), Memory>
    ensures { OnOk result (out.new.items ≡ out.old.items ++ entry_text head.now opens.now entry.now.who entry.now.act) }
{
    match entry.who {
        Who::Dispatcher => put_dispatcher(out, head, &entry.act),
        Who::Agent(conn) => put_agent(out, head, opened::of(opens, conn), conn, &entry.act),
    }
}

// What entries print.
fn print(alloc: Global, script: &Script, entries: &[Entry]) -> Result<Items<u8>, Memory>
    ensures { IfOk result (λ text. text ≡ transcript script.now entries.now) }
{
    let mut opens = opened::none_open(alloc, script)?;
    let mut passed = Passed::none();
    let mut out = Vec::new(alloc);
    for entry in entries {
        put_entry(&mut out, &script.head, &opens, entry)?;
        opened::note(&mut opens, script, &mut passed, &entry.act);
    }
    Ok(Items::from_vec(out))
}

/// What the history of a script prints, for any script and history. `Memory` comes only for want of memory. It makes
/// one pass over the history, and one over the script's lines where they rise in number and are dispatched in their
/// order, as in every run of a script that was read; a Dispatch of any other line searches all lines.
pub fn transcript(alloc: Global, script: &Script, history: &History) -> Result<Items<u8>, Memory>
    ensures { IfOk result (λ text. text ≡ transcript script.now history.now.items) }
{
    print(alloc, script, history.as_slice())
}
