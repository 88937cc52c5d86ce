ghost use Rattle.std.specs.Prelude.{◌≡◌, ◌++◌, OnOk, IfOk};
ghost use Rattle.iso_render.specs.Trace.{act_word, field_text, maker_text, trace, trace_line, trace_lines};

use crate::acts::{put_answered, put_changed, put_paced, put_sought};
use crate::names::put_conn;
use crate::put::{put, put_number};
use iso_history::{Act, Entry, History, Who};
use iso_script::Script;
use iso_types::{Head, Items, Memory};
use std::alloc::Global;

// The word of an act.
fn act_of(act: &Act) -> &'static [u8]
    ensures { result.now ≡ act_word act.entry.now }
{
    match act {
        Act::Dispatch { .. } => b"DISPATCH",
        Act::Busy { .. } => b"BUSY",
        Act::Expire { .. } => b"EXPIRE",
        Act::Snapshot { .. } => b"SNAPSHOT",
        Act::Victim { .. } => b"VICTIM",
        Act::Purge { .. } => b"PURGE",
        Act::Close { .. } => b"CLOSE",
        Act::Stopped { .. } => b"STOPPED",
        Act::Finish => b"FINISH",
        Act::Lock { .. } => b"LOCK",
        Act::Claim => b"CLAIM",
        Act::Look { .. } => b"LOOK",
        Act::ScanEnd { .. } => b"SCANEND",
        Act::Next { .. } => b"NEXT",
        Act::Free { .. } => b"FREE",
        Act::Collapse { .. } => b"COLLAPSE",
        Act::Insert { .. } => b"INSERT",
        Act::Update { .. } => b"UPDATE",
        Act::Delete { .. } => b"DELETE",
        Act::Refused { .. } => b"REFUSED",
        Act::Undo { .. } => b"UNDO",
        Act::Mark { .. } => b"MARK",
        Act::Back { .. } => b"BACK",
        Act::Set { .. } => b"SET",
        Act::Commit => b"COMMIT",
        Act::Rollback { .. } => b"ROLLBACK",
        Act::Reply { .. } => b"REPLY",
        Act::Ended => b"ENDED",
    }
}

// Appends the maker of an entry.
fn put_maker(out: &mut Vec<u8>, head: &Head, who: Who) -> Result<(), Memory>
    ensures { OnOk result (out.new.items ≡ out.old.items ++ maker_text head.now who) }
{
    match who {
        Who::Dispatcher => put(out, b"-"),
        Who::Agent(conn) => put_conn(out, head, conn),
    }
}

// Appends the fields of an act.
fn put_fields(out: &mut Vec<u8>, head: &Head, act: &Act) -> Result<(), Memory>
    ensures { OnOk result (out.new.items ≡ out.old.items ++ field_text head.now act.now) }
{
    put_paced(out, head, act)?;
    put_sought(out, head, act)?;
    put_changed(out, head, act)?;
    put_answered(out, act)
}

// Appends the line of an entry.
fn put_entry(out: &mut Vec<u8>, head: &Head, place: u64, entry: &Entry) -> Result<(), Memory>
    ensures { OnOk result (out.new.items ≡ out.old.items ++ trace_line head.now place entry.now) }
{
    put_number(out, place)?;
    put(out, b" ")?;
    put_maker(out, head, entry.who)?;
    put(out, b" ")?;
    put(out, act_of(&entry.act))?;
    put_fields(out, head, &entry.act)?;
    put(out, b"\n")
}

// The trace of entries.
fn print(alloc: Global, script: &Script, entries: &[Entry]) -> Result<Items<u8>, Memory>
    ensures { IfOk result (λ text. text ≡ trace script.now entries.now) }
{
    let mut out = Vec::new(alloc);
    put(&mut out, b"TRACE ")?;
    put_number(&mut out, entries.len() as u64)?;
    put(&mut out, b"\n")?;
    let mut place = 0;
    for entry in entries {
        put_entry(&mut out, &script.head, place, entry)?;
        place += 1;
    }
    Ok(Items::from_vec(out))
}

/// The trace of a history: its first line counts the entries, and each entry has a line with its place, its maker, its act
/// and the act's fields. `Memory` comes only for want of memory. It makes one pass over the history. (This project's own.)
pub fn trace(alloc: Global, script: &Script, history: &History) -> Result<Items<u8>, Memory>
    ensures { IfOk result (λ text. text ≡ trace script.now history.now.items) }
{
    print(alloc, script, history.as_slice())
}
