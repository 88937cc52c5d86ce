//! A task over the names that are kept for a connection, name by name. Nothing here takes memory.
ghost use Rattle.std.specs.Prelude.{◌≡◌, ◌≤◌, ◌&&◌, Some, length, false, is_some, slice_get, true};
ghost use Rattle.std.specs.List.{list_any};
ghost use Rattle.iso_lines.specs.Locks.{Entry, IsSeated, is_at_hand, is_loose_hold, is_loose_wait};
ghost use Rattle.iso_lines.specs.Named.{key_of, line_of, same};
ghost use Rattle.iso_lines.specs.Tasks.{concerns, worked};
ghost use Rattle.iso_lines.specs.Weighs.{IsWeighed};
ghost use Rattle.iso_queue.specs.Lines.{Line, is_touched, is_waiter};
ghost use Rattle.iso_types.specs.Ids.{name_eq};
ghost use Rattle.iso_types.specs.declared.value.Name.{Name as Other};

use crate::desk::{Desk, change_weighed, is_loose, keep_where_touched, touches, waits};
use crate::lines::Lines;
use crate::tasks::{Task, change_on};
use indexmap::IndexMap;
use iso_queue::{Hold, Waiter};
use iso_types::{Conn, Name, TableId};

/// Does the task in the name's line, and counts the name in or out of the weights of all names of the connection.
fn work_on(
    lines: &mut Lines,
    all: &IndexMap<Name, usize>,
    weights: &mut Vec<usize>,
    name: &Name,
    conn: Conn,
    tables: &[TableId],
    task: &Task,
)
    requires there { (n : Other) → is_touched (line_of lines.old n) conn ≡ true → is_some (key_of all.now.entries n) ≡ true }
    requires weighed { IsWeighed tables.now lines.old conn all.now.entries weights.old.items }
    ensures weighed { IsWeighed tables.now lines.new conn all.now.entries weights.new.items }
    ensures line { line_of lines.new name.now ≡ worked tables.now task.now conn name.now (line_of lines.old name.now) }
    ensures others { (n : Other) → name_eq name.now n ≡ false → line_of lines.new n ≡ line_of lines.old n }
{
    if let Some(change) = change_on(tables, task, name) {
        change_weighed(lines, all, weights, conn, tables, name, change);
    }
}

/// Does the task in the line of the name at this place.
fn work_at(
    lines: &mut Lines,
    names: &IndexMap<Name, usize>,
    at: usize,
    all: &IndexMap<Name, usize>,
    weights: &mut Vec<usize>,
    conn: Conn,
    tables: &[TableId],
    task: &Task,
)
    requires there { (n : Other) → is_touched (line_of lines.old n) conn ≡ true → is_some (key_of all.now.entries n) ≡ true }
    requires weighed { IsWeighed tables.now lines.old conn all.now.entries weights.old.items }
    ensures weighed { IsWeighed tables.now lines.new conn all.now.entries weights.new.items }
    ensures line { (e : Entry) → slice_get names.now.entries at ≡ Some e → line_of lines.new e.0 ≡ worked tables.now task.now conn e.0 (line_of lines.old e.0) }
    ensures others { (e : Entry) → slice_get names.now.entries at ≡ Some e → (n : Other) → name_eq e.0 n ≡ false → line_of lines.new n ≡ line_of lines.old n }
{
    if let Some((name, _)) = names.get_index(at) {
        work_on(lines, all, weights, name, conn, tables, task);
    }
}

/// Does the task in the line of each of these names, which are all that it concerns. Its cost is their number.
fn work_over(
    lines: &mut Lines,
    names: &IndexMap<Name, usize>,
    all: &IndexMap<Name, usize>,
    weights: &mut Vec<usize>,
    conn: Conn,
    tables: &[TableId],
    task: &Task,
)
    requires concerned { (n : Other) → concerns task.now conn (line_of lines.old n) ≡ true → is_some (key_of names.now.entries n) ≡ true }
    requires there { (n : Other) → is_touched (line_of lines.old n) conn ≡ true → is_some (key_of all.now.entries n) ≡ true }
    requires weighed { IsWeighed tables.now lines.old conn all.now.entries weights.old.items }
    ensures weighed { IsWeighed tables.now lines.new conn all.now.entries weights.new.items }
    ensures lines { (n : Other) → line_of lines.new n ≡ worked tables.now task.now conn n (line_of lines.old n) }
{
    for at in 0..names.len() {
        work_at(lines, names, at, all, weights, conn, tables, task);
    }
}

/// Forgets the name at this place where the connection neither holds nor awaits it.
fn prune_at(
    names: &mut IndexMap<Name, usize>,
    walked: &IndexMap<Name, usize>,
    at: usize,
    lines: &Lines,
    conn: Conn,
)
    ensures own { (e : Entry) → slice_get walked.now.entries at ≡ Some e → (is_touched (line_of lines.now e.0) conn ≡ true → is_some (key_of names.old.entries e.0) ≡ true) → is_some (key_of names.new.entries e.0) ≡ is_touched (line_of lines.now e.0) conn }
    ensures others { (e : Entry) → slice_get walked.now.entries at ≡ Some e → (n : Other) → same e.0 n ≡ false → key_of names.new.entries n ≡ key_of names.old.entries n }
    ensures fewer { length names.new.entries ≤ length names.old.entries }
{
    if let Some((name, _)) = walked.get_index(at) {
        keep_where_touched(names, lines, conn, name);
    }
}

/// Forgets those of the walked names that the connection neither holds nor awaits any more. Its cost is their number.
fn prune(
    names: &mut IndexMap<Name, usize>,
    walked: &IndexMap<Name, usize>,
    lines: &Lines,
    conn: Conn,
)
    requires { (n : Other) → is_touched (line_of lines.now n) conn ≡ true → is_some (key_of names.old.entries n) ≡ true }
    ensures walked { (n : Other) → is_some (key_of walked.now.entries n) ≡ true → is_some (key_of names.new.entries n) ≡ is_touched (line_of lines.now n) conn }
    ensures others { (n : Other) → is_some (key_of walked.now.entries n) ≡ false → is_some (key_of names.new.entries n) ≡ is_some (key_of names.old.entries n) }
    ensures fewer { length names.new.entries ≤ length names.old.entries }
{
    for at in 0..walked.len() {
        prune_at(names, walked, at, lines, conn);
    }
}

/// Whether the connection's hold is Fresh or Brief.
fn holds_loosely(holders: &[Hold], conn: Conn) -> bool
    ensures { result ≡ list_any (is_loose_hold conn) holders.now }
{
    holders
        .iter()
        .any(|hold| hold.conn == conn && is_loose(hold.term))
}

/// Whether the connection waits for such a hold.
fn awaits_loosely(waiters: &[Waiter], conn: Conn) -> bool
    ensures { result ≡ list_any (is_loose_wait conn) waiters.now }
{
    waiters
        .iter()
        .any(|wait| wait.conn == conn && is_loose(wait.term))
}

/// Whether the connection's hold on the name is Fresh or Brief, or is to be.
fn has_at_hand(lines: &Lines, conn: Conn, name: &Name) -> bool
    ensures { result ≡ is_at_hand conn (line_of lines.now name.now) }
{
    match lines.queue(name) {
        Some(queue) => holds_loosely(queue.holders(), conn)
            || awaits_loosely(queue.waiters(), conn),
        None => false,
    }
}

/// Keeps those of the names that the connection holds or awaits.
fn keep_touched(names: &mut IndexMap<Name, usize>, lines: &Lines, conn: Conn)
    ensures kept { (n : Other) → is_some (key_of names.new.entries n) ≡ (is_some (key_of names.old.entries n) && is_touched (line_of lines.now n) conn) }
    ensures fewer { length names.new.entries ≤ length names.old.entries }
{
    names.retain(
        |name: &Name, place: &mut usize| -> bool
            ensures { (result ≡ is_touched (line_of lines.entry.now name.now) conn) × (place.new ≡ place.old) × (lines.exit ≡ lines.entry) }
        { touches(lines, conn, name) },
    );
}

/// Keeps those of the names that must stay at hand.
fn keep_at_hand(names: &mut IndexMap<Name, usize>, lines: &Lines, conn: Conn)
    ensures { (n : Other) → is_some (key_of names.new.entries n) ≡ (is_some (key_of names.old.entries n) && is_at_hand conn (line_of lines.now n)) }
{
    names.retain(
        |name: &Name, place: &mut usize| -> bool
            ensures { (result ≡ is_at_hand conn (line_of lines.entry.now name.now)) × (place.new ≡ place.old) × (lines.exit ≡ lines.entry) }
        { has_at_hand(lines, conn, name) },
    );
}

/// Keeps those of the names that the connection awaits.
fn keep_awaited(names: &mut IndexMap<Name, usize>, lines: &Lines, conn: Conn)
    ensures { (n : Other) → is_some (key_of names.new.entries n) ≡ (is_some (key_of names.old.entries n) && is_waiter (line_of lines.now n).waiters conn) }
{
    names.retain(
        |name: &Name, place: &mut usize| -> bool
            ensures { (result ≡ is_waiter (line_of lines.entry.now name.now).waiters conn) × (place.new ≡ place.old) × (lines.exit ≡ lines.entry) }
        { waits(lines, conn, name) },
    );
}

/// Does a task that concerns names which the connection holds or awaits. Its cost is their number.
fn work_names(lines: &mut Lines, desk: &mut Desk, conn: Conn, tables: &[TableId], task: &Task)
    requires seated { IsSeated lines.old conn desk.old }
    requires weighed { IsWeighed tables.now lines.old conn desk.old.names.entries desk.old.weights.items }
    requires concerned { (q : Line) → concerns task.now conn q ≡ true → is_touched q conn ≡ true }
    ensures lines { (n : Other) → line_of lines.new n ≡ worked tables.now task.now conn n (line_of lines.old n) }
    ensures seated { IsSeated lines.new conn desk.new }
    ensures weighed { IsWeighed tables.now lines.new conn desk.new.names.entries desk.new.weights.items }
    ensures fewer { length desk.new.names.entries ≤ length desk.old.names.entries }
{
    let _ = desk.names.len();
    work_over(
        lines,
        &desk.names,
        &desk.names,
        &mut desk.weights,
        conn,
        tables,
        task,
    );
    keep_touched(&mut desk.names, lines, conn);
    let _ = desk.names.len();
}

/// Does a task that concerns names at hand. Its cost is their number.
fn work_loose(lines: &mut Lines, desk: &mut Desk, conn: Conn, tables: &[TableId], task: &Task)
    requires seated { IsSeated lines.old conn desk.old }
    requires weighed { IsWeighed tables.now lines.old conn desk.old.names.entries desk.old.weights.items }
    requires concerned { (q : Line) → concerns task.now conn q ≡ true → is_at_hand conn q ≡ true }
    ensures lines { (n : Other) → line_of lines.new n ≡ worked tables.now task.now conn n (line_of lines.old n) }
    ensures seated { IsSeated lines.new conn desk.new }
    ensures weighed { IsWeighed tables.now lines.new conn desk.new.names.entries desk.new.weights.items }
    ensures fewer { length desk.new.names.entries ≤ length desk.old.names.entries }
{
    let _ = desk.names.len();
    work_over(
        lines,
        &desk.loose,
        &desk.names,
        &mut desk.weights,
        conn,
        tables,
        task,
    );
    prune(&mut desk.names, &desk.loose, lines, conn);
    let _ = desk.names.len();
    keep_at_hand(&mut desk.loose, lines, conn);
}

/// Does a task that concerns names at hand; where there are none, nothing. Its cost is their number.
fn work_at_hand(lines: &mut Lines, desk: &mut Desk, conn: Conn, tables: &[TableId], task: &Task)
    requires seated { IsSeated lines.old conn desk.old }
    requires weighed { IsWeighed tables.now lines.old conn desk.old.names.entries desk.old.weights.items }
    requires concerned { (q : Line) → concerns task.now conn q ≡ true → is_at_hand conn q ≡ true }
    ensures lines { (n : Other) → line_of lines.new n ≡ worked tables.now task.now conn n (line_of lines.old n) }
    ensures seated { IsSeated lines.new conn desk.new }
    ensures weighed { IsWeighed tables.now lines.new conn desk.new.names.entries desk.new.weights.items }
    ensures fewer { length desk.new.names.entries ≤ length desk.old.names.entries }
{
    if desk.loose.len() > 0 {
        work_loose(lines, desk, conn, tables, task);
    }
}

/// Does a task that concerns names which the connection awaits. Its cost is their number.
fn work_awaited(lines: &mut Lines, desk: &mut Desk, conn: Conn, tables: &[TableId], task: &Task)
    requires seated { IsSeated lines.old conn desk.old }
    requires weighed { IsWeighed tables.now lines.old conn desk.old.names.entries desk.old.weights.items }
    requires concerned { (q : Line) → concerns task.now conn q ≡ true → is_waiter q.waiters conn ≡ true }
    ensures lines { (n : Other) → line_of lines.new n ≡ worked tables.now task.now conn n (line_of lines.old n) }
    ensures seated { IsSeated lines.new conn desk.new }
    ensures weighed { IsWeighed tables.now lines.new conn desk.new.names.entries desk.new.weights.items }
    ensures fewer { length desk.new.names.entries ≤ length desk.old.names.entries }
{
    let _ = desk.names.len();
    work_over(
        lines,
        &desk.awaited,
        &desk.names,
        &mut desk.weights,
        conn,
        tables,
        task,
    );
    prune(&mut desk.names, &desk.awaited, lines, conn);
    let _ = desk.names.len();
    keep_awaited(&mut desk.awaited, lines, conn);
}

/// Does the task over those of the connection's names that it may concern. Its cost is their number.
pub fn work(lines: &mut Lines, desk: &mut Desk, conn: Conn, tables: &[TableId], task: &Task)
    requires seated { IsSeated lines.old conn desk.old }
    requires weighed { IsWeighed tables.now lines.old conn desk.old.names.entries desk.old.weights.items }
    ensures lines { (n : Other) → line_of lines.new n ≡ worked tables.now task.now conn n (line_of lines.old n) }
    ensures seated { IsSeated lines.new conn desk.new }
    ensures weighed { IsWeighed tables.now lines.new conn desk.new.names.entries desk.new.weights.items }
    ensures fewer { length desk.new.names.entries ≤ length desk.old.names.entries }
{
    match task {
        Task::Release => work_names(lines, desk, conn, tables, task),
        Task::Collapse(_) => work_names(lines, desk, conn, tables, task),
        Task::Settle(_, _) => work_at_hand(lines, desk, conn, tables, task),
        Task::Cancel => work_awaited(lines, desk, conn, tables, task),
        Task::Claim => work_awaited(lines, desk, conn, tables, task),
    }
}
