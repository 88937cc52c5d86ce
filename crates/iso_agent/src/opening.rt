//! The task of the statement that a connection runs, with nothing left to be told that records nothing.
ghost use Rattle.std.specs.Prelude.{◌≡◌, ◌⊎◌, ◌<◌, ◌≤◌, ◌==◌, true, find, is_some, length, IfOk, None, OnErr, Some};
ghost use Rattle.iso_conduct.specs.Conduct.{Conduct, opened, point, ready, statement_on};
ghost use Rattle.iso_conduct.specs.Standing.{MayGoOn};
ghost use Rattle.iso_history.specs.Phases.{phase};
ghost use Rattle.iso_script.specs.Sound.{IsSound};
ghost use Rattle.iso_standing.specs.Going.{GoesOn};
ghost use Rattle.iso_state.specs.Stands.{StandsFor, desk_at, world_of};
ghost use Rattle.iso_conduct.specs.Points.{start_point};
ghost use Rattle.iso_conduct.specs.Starts.{setting_of};
ghost use Rattle.std.specs.Option.{option_copied, option_map};
ghost use Rattle.std.specs.List.{list_all};
ghost use Rattle.iso_script.specs.Sound.{is_sound_line};
ghost use Rattle.iso_agent.specs.Rising.{rises};

use crate::quiet::quieten;
use iso_conduct::Task;
use iso_script::{Line, Script, What};
use iso_standing::due_steps_may_be_made;
use iso_state::{Parts, desk_of};
use iso_types::{Conn, Desk, Head, Memory, Phase};
use std::alloc::Global;

/// The task of the line's statement, where it is the connection's; else as for want of memory.
fn begin(alloc: Global, line: &Line, head: &Head, conn: Conn, desk: &Desk) -> Result<Task, Memory>
    requires indexes { length head.now.indexes ≤ 256 }
    requires sound { is_sound_line head.now line.now ≡ true }
    ensures { IfOk result (λ t. option_map (start_point head.now conn (setting_of desk.now) desk.now.start) (statement_on conn (Some line.now)) ≡ Some t) }
{
    match &line.conn {
        Some(owner) => {
            if owner.0 != conn.0 {
                return Err(Memory);
            }
            match &line.what {
                What::Statement(statement) => Task::new(alloc, statement, head, conn, desk),
                What::Expire => Err(Memory),
                What::Snapshot => Err(Memory),
            }
        }
        None => Err(Memory),
    }
}

/// The line with this number, among lines whose numbers rise; each look halves them.
fn line_at(lines: &[Line], number: u32) -> Option<&Line>
    requires rises { rises lines.now ≡ true }
    ensures { option_copied result ≡ find (λ l. l.number == number) lines.now }
{
    let mut rest = lines;
    while rest.len() > 1 {
        let (front, back) = rest.split_at(rest.len() / 2);
        rest = if back[0].number <= number {
            back
        } else {
            front
        };
    }
    match rest.first() {
        Some(line) => {
            if line.number == number {
                Some(line)
            } else {
                None
            }
        }
        None => None,
    }
}

/// The task of the statement on the line with the desk's number, where it is the connection's; else as for want of memory.
fn begin_at(
    alloc: Global,
    lines: &[Line],
    head: &Head,
    conn: Conn,
    desk: &Desk,
) -> Result<Task, Memory>
    requires indexes { length head.now.indexes ≤ 256 }
    requires sound { list_all (is_sound_line head.now) lines.now ≡ true }
    requires rises { rises lines.now ≡ true }
    ensures { IfOk result (λ t. option_map (start_point head.now conn (setting_of desk.now) desk.now.start) (statement_on conn (find (λ l. l.number == desk.now.line) lines.now)) ≡ Some t) }
{
    match line_at(lines, desk.line) {
        Some(line) => begin(alloc, line, head, conn, desk),
        None => Err(Memory),
    }
}

/// The task of the statement that a running connection begins. `Memory`: there was none for a copy of the statement, or the
/// line of its Dispatch has no statement of this connection. It finds the line by halving the script's.
pub fn open(alloc: Global, script: &Script, parts: &Parts, conn: Conn) -> Result<Task, Memory>
    requires stands { StandsFor parts.now }
    requires head { parts.now.head ≡ script.now.head }
    requires sound { IsSound script.now }
    requires conn { conn.0 < length parts.now.head.conns }
    requires running { phase (world_of parts.now) conn ≡ Phase.Running }
    ensures { IfOk result (λ t. opened parts.now.head script.now.lines (world_of parts.now) conn None ≡ Some t) }
{
    let desk = desk_of(parts, conn);
    begin_at(alloc, script.lines.as_slice(), &parts.head, conn, &desk)
}

/// The task of the open statement, which a running connection may begin. `Memory`: as for `open`.
fn opened_task(
    alloc: Global,
    script: &Script,
    parts: &Parts,
    conn: Conn,
    task: Option<Task>,
) -> Result<Task, Memory>
    requires stands { StandsFor parts.now }
    requires head { parts.now.head ≡ script.now.head }
    requires sound { IsSound script.now }
    requires conn { conn.0 < length parts.now.head.conns }
    requires there { (phase (world_of parts.now) conn ≡ Phase.Running) ⊎ (is_some task ≡ true) }
    ensures ok { IfOk result (λ t. opened parts.now.head script.now.lines (world_of parts.now) conn task ≡ Some t) }
    ensures err { OnErr result (phase (world_of parts.now) conn ≡ Phase.Running) }
{
    match task {
        Some(task) => Ok(task),
        None => open(alloc, script, parts, conn),
    }
}

/// The task of the open statement, told what its steps answer without an entry: the step that is due then may be made.
/// `Memory`: as for `open`.
pub fn ready_task(
    alloc: Global,
    script: &Script,
    parts: &Parts,
    conn: Conn,
    task: Option<Task>,
) -> Result<Task, Memory>
    requires stands { StandsFor parts.now }
    requires head { parts.now.head ≡ script.now.head }
    requires sound { IsSound script.now }
    requires conn { conn.0 < length parts.now.head.conns }
    requires goes { GoesOn (world_of parts.now) conn }
    requires conduct { Conduct parts.now.head script.now.lines parts.now.history.items conn }
    requires reached { task ≡ point parts.now.head script.now.lines parts.now.history.items conn }
    ensures ready { IfOk result (λ t. ready parts.now.head script.now.lines (world_of parts.now) conn (point parts.now.head script.now.lines parts.now.history.items conn) ≡ Some t) }
    ensures may { IfOk result (λ t. MayGoOn parts.now.head (world_of parts.now) conn t) }
    ensures err { OnErr result (phase (world_of parts.now) conn ≡ Phase.Running) }
{
    due_steps_may_be_made();
    let mut task = opened_task(alloc, script, parts, conn, task)?;
    quieten(alloc, parts, conn, &mut task);
    Ok(task)
}
