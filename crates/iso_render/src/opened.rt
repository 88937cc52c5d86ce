//! The statement that each connection has open, as a history goes on.

ghost use Rattle.std.specs.Prelude.{◌≡◌, ◌≤◌, IfOk};
ghost use Rattle.iso_render.specs.Opened.{IsPassed, at_first, changes_at, is_change_line, open_of, opened};

use iso_history::Act;
use iso_script::{Line, Script, What};
use iso_sql::Statement;
use iso_types::{Conn, Memory};
use std::alloc::Global;

// The statement that a connection has open, or had last: its script line, and whether it is an
// INSERT, an UPDATE or a DELETE.
#[derive(Clone, Copy)]
pub struct OpenLine {
    pub line: u32,
    pub changes: bool,
}

// Whether the line has an INSERT, an UPDATE or a DELETE.
fn is_change(line: &Line) -> bool
    ensures { result ≡ is_change_line line.now.what }
{
    match &line.what {
        What::Statement(statement) => match statement {
            Statement::Insert { .. } | Statement::Update { .. } | Statement::Delete { .. } => true,
            _ => false,
        },
        _ => false,
    }
}

// How far a history has come in its script: each line before the place `at` has a number less than `below`.
#[derive(Drop)]
pub struct Passed {
    at: usize,
    below: u32,
}

impl Passed {
    // No line is passed yet.
    pub fn none() -> Passed
        ensures { (result.at ≡ 0) × (result.below ≡ 0) }
    {
        Passed { at: 0, below: 0 }
    }
}

// Passes the lines with numbers less than this one.
fn pass(lines: &[Line], passed: &mut Passed, number: u32)
    requires passed { IsPassed lines.now passed.old }
    requires rises { passed.old.below ≤ number }
    ensures passed { IsPassed lines.now passed.new }
    ensures below { passed.new.below ≡ number }
{
    passed.below = number;
    while passed.at < lines.len() && lines[passed.at].number < number {
        passed.at += 1;
    }
}

// Whether the first line of this number has an INSERT, an UPDATE or a DELETE.
fn changes_among(lines: &[Line], number: u32) -> bool
    ensures { result ≡ changes_at lines.now number }
{
    for line in lines {
        if line.number == number {
            return is_change(line);
        }
    }
    false
}

// Whether the line of this number has an INSERT, an UPDATE or a DELETE. Where lines rise and are asked for in their
// order, all calls together make one pass over them; for a line out of order all are searched.
fn changes_line(lines: &[Line], passed: &mut Passed, number: u32) -> bool
    requires passed { IsPassed lines.now passed.old }
    ensures passed { IsPassed lines.now passed.new }
    ensures changes { result ≡ changes_at lines.now number }
{
    if number < passed.below {
        return changes_among(lines, number);
    }
    pass(lines, passed, number);
    changes_among(&lines[passed.at..], number)
}

// No statement is open yet.
pub fn none_open(alloc: Global, script: &Script) -> Result<Vec<OpenLine>, Memory>
    ensures { IfOk result (λ opens. opens.items ≡ at_first script.now) }
{
    let unopened = OpenLine {
        line: 0,
        changes: false,
    };
    Ok(vec![in alloc; unopened; script.head.conns.len()]?)
}

// What is open after this entry.
#[tactic(auto, using(crate::proofs::Lines::set_past))]
pub fn note(opens: &mut [OpenLine], script: &Script, passed: &mut Passed, act: &Act)
    requires passed { IsPassed script.now.lines passed.old }
    ensures passed { IsPassed script.now.lines passed.new }
    ensures opens { opens.new ≡ opened script.now opens.old act.now }
{
    if let Act::Dispatch { line, conn } = act {
        let changes = changes_line(script.lines.as_slice(), passed, *line);
        let place = usize::from(conn.0);
        if place < opens.len() {
            opens[place] = OpenLine {
                line: *line,
                changes,
            };
        }
    }
}

// The statement that the connection has open, or had last.
pub fn of(opens: &[OpenLine], conn: Conn) -> OpenLine
    ensures { result ≡ open_of opens.now conn }
{
    match opens.get(usize::from(conn.0)) {
        Some(current) => *current,
        None => OpenLine {
            line: 0,
            changes: false,
        },
    }
}
