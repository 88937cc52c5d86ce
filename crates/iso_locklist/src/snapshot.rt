ghost use Rattle.std.specs.Prelude.{◌≡◌, ◌≤◌, ◌++◌, [], IfOk, OnOk, length, map};
ghost use Rattle.std.specs.List.{cons_option, flat_map};
ghost use Rattle.iso_lines.specs.Named.{line_of};
ghost use Rattle.iso_locklist.specs.Places.{place};
ghost use Rattle.iso_locklist.specs.Snapshots.{holder_line, holder_lines, lines_of, waiter_line};
ghost use Rattle.iso_queue.specs.Lines.{hold_of};

use iso_lines::Register;
use iso_modes::LockState;
use iso_queue::{Hold, LockLine, Queue, Waiter};
use iso_types::{Conn, Head, Items, Memory, Name};
use std::alloc::Global;

/// A holder's line.
fn line_of_holder(name: &Name, hold: Hold) -> LockLine
    ensures { result ≡ holder_line name.now hold }
{
    LockLine {
        name: *name,
        conn: hold.conn,
        mode: hold.mode,
        state: LockState::Granted,
    }
}

/// Appends the line of the connection's hold, where it has one.
fn push_holder(
    lines: &mut Items<LockLine>,
    name: &Name,
    queue: &Queue,
    conn: Conn,
) -> Result<(), Memory>
    ensures { OnOk result (lines.new ≡ lines.old ++ map (holder_line name.now) (cons_option (hold_of queue.now.holders conn) [])) }
{
    if let Some(hold) = queue.hold(conn) {
        lines.push_copy(&line_of_holder(name, hold))?;
    }
    Ok(())
}

/// Appends the line of each holder, by connection.
fn push_holders(
    lines: &mut Items<LockLine>,
    head: &Head,
    name: &Name,
    queue: &Queue,
) -> Result<(), Memory>
    requires { length head.now.conns ≤ 32 }
    ensures { OnOk result (lines.new ≡ lines.old ++ holder_lines head.now (place name.now queue.now)) }
{
    for conn in 0..head.conns.len() as u8 {
        push_holder(lines, name, queue, Conn(conn))?;
    }
    Ok(())
}

/// A waiter's line: Converting where its connection holds the name.
fn line_of_waiter(name: &Name, queue: &Queue, waiter: Waiter) -> LockLine
    ensures { result ≡ waiter_line (place name.now queue.now) waiter }
{
    let state = match queue.hold(waiter.conn) {
        Some(_) => LockState::Converting,
        None => LockState::Waiting,
    };
    LockLine {
        name: *name,
        conn: waiter.conn,
        mode: waiter.target,
        state,
    }
}

/// Appends the line of each waiter, in queue order.
fn push_waiters(lines: &mut Items<LockLine>, name: &Name, queue: &Queue) -> Result<(), Memory>
    ensures { OnOk result (lines.new ≡ lines.old ++ map (waiter_line (place name.now queue.now)) queue.now.waiters) }
{
    for waiter in queue.waiters() {
        lines.push_copy(&line_of_waiter(name, queue, *waiter))?;
    }
    Ok(())
}

/// Appends the lines of a queue: its holders by connection, then its waiters in queue order.
fn push_queue(
    lines: &mut Items<LockLine>,
    head: &Head,
    name: &Name,
    queue: &Queue,
) -> Result<(), Memory>
    requires { length head.now.conns ≤ 32 }
    ensures { OnOk result (lines.new ≡ lines.old ++ lines_of head.now (place name.now queue.now)) }
{
    push_holders(lines, head, name, queue)?;
    push_waiters(lines, name, queue)
}

/// Appends the lines of a name.
fn push_lines(
    lines: &mut Items<LockLine>,
    head: &Head,
    register: &Register,
    name: &Name,
) -> Result<(), Memory>
    requires { length head.now.conns ≤ 32 }
    ensures { OnOk result (lines.new ≡ lines.old ++ lines_of head.now (place name.now (line_of register.now.lines name.now))) }
{
    match register.queue(name) {
        Some(queue) => push_queue(lines, head, name, queue),
        None => Ok(()),
    }
}

/// The lines of the names, one name after the other. `Memory`: want of memory.
pub fn list_lines(
    alloc: Global,
    head: &Head,
    register: &Register,
    names: &[&Name],
) -> Result<Items<LockLine>, Memory>
    requires { length head.now.conns ≤ 32 }
    ensures { IfOk result (λ lines. lines ≡ flat_map (λ n. lines_of head.now (place n.now (line_of register.now.lines n.now))) names.now) }
{
    let mut lines = Items::new(alloc);
    for name in names {
        push_lines(&mut lines, head, register, name)?;
    }
    Ok(lines)
}
