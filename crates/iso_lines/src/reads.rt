//! What the names tell that are kept for a connection. Each costs the number of these names.
ghost use Rattle.std.specs.Prelude.{◌≡◌, IfSome, IfNone, Some, false, true, is_some, slice_get};
ghost use Rattle.iso_lines.specs.Locks.{Entry};
ghost use Rattle.iso_lines.specs.Named.{key_of, line_of};
ghost use Rattle.iso_queue.specs.Lines.{is_grantable, is_waiter};
ghost use Rattle.iso_types.specs.declared.value.Name.{Name as Other};

use crate::desk::waits;
use crate::lines::Lines;
use indexmap::IndexMap;
use iso_types::{Conn, Name};

/// The name at this place, where the connection waits in its line.
fn awaited_at<'a>(
    lines: &Lines,
    names: &'a IndexMap<Name, usize>,
    at: usize,
    conn: Conn,
) -> Option<&'a Name>
    ensures some { IfSome result (λ n. is_waiter (line_of lines.now n.now).waiters conn ≡ true) }
    ensures none { IfNone result ((e : Entry) → slice_get names.now.entries at ≡ Some e → is_waiter (line_of lines.now e.0).waiters conn ≡ false) }
{
    let (name, _) = names.get_index(at)?;
    if waits(lines, conn, name) {
        Some(name)
    } else {
        None
    }
}

/// One of the names in whose line the connection waits.
pub fn awaited<'a>(lines: &Lines, names: &'a IndexMap<Name, usize>, conn: Conn) -> Option<&'a Name>
    ensures some { IfSome result (λ n. is_waiter (line_of lines.now n.now).waiters conn ≡ true) }
    ensures none { IfNone result ((n : Other) → is_some (key_of names.now.entries n) ≡ true → is_waiter (line_of lines.now n).waiters conn ≡ false) }
{
    for at in 0..names.len() {
        if let Some(name) = awaited_at(lines, names, at, conn) {
            return Some(name);
        }
    }
    None
}

/// Whether the connection waits in the line of the name, and its wait has no edge.
fn can_claim(lines: &Lines, conn: Conn, name: &Name) -> bool
    ensures { result ≡ is_grantable (line_of lines.now name.now) conn }
{
    match lines.queue(name) {
        Some(queue) => queue.can_claim(conn),
        None => false,
    }
}

/// The name at this place, where the connection's wait in its line has no edge.
fn claimable_at<'a>(
    lines: &Lines,
    names: &'a IndexMap<Name, usize>,
    at: usize,
    conn: Conn,
) -> Option<&'a Name>
    ensures some { IfSome result (λ n. is_grantable (line_of lines.now n.now) conn ≡ true) }
    ensures none { IfNone result ((e : Entry) → slice_get names.now.entries at ≡ Some e → is_grantable (line_of lines.now e.0) conn ≡ false) }
{
    let (name, _) = names.get_index(at)?;
    if can_claim(lines, conn, name) {
        Some(name)
    } else {
        None
    }
}

/// One of the names in whose line the connection's wait has no edge.
pub fn claimable<'a>(
    lines: &Lines,
    names: &'a IndexMap<Name, usize>,
    conn: Conn,
) -> Option<&'a Name>
    ensures some { IfSome result (λ n. is_grantable (line_of lines.now n.now) conn ≡ true) }
    ensures none { IfNone result ((n : Other) → is_some (key_of names.now.entries n) ≡ true → is_grantable (line_of lines.now n) conn ≡ false) }
{
    for at in 0..names.len() {
        if let Some(name) = claimable_at(lines, names, at, conn) {
            return Some(name);
        }
    }
    None
}
