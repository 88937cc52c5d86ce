//! The step by which the dispatcher takes the next line, or stops in its place.

ghost use Rattle.std.specs.Prelude.{◌≡◌, ◌≤◌, false, true, length, is_some, Some, None, OnErr};
ghost use Rattle.iso_conduct.specs.Conduct.{statement_in};
ghost use Rattle.iso_conduct.specs.Pacing.{IsLine, line_step};
ghost use Rattle.iso_director.specs.Turns.{HasLineTaken, HasTried, due_step, lacked};
ghost use Rattle.iso_ends.specs.Doubts.{AreKept};
ghost use Rattle.iso_pace.specs.Answers.{MayTakeLine, is_taken as is_done};
ghost use Rattle.iso_script.specs.declared.script.What.TheVariants as Asks;
ghost use Rattle.iso_state.specs.Stands.{StandsFor, content_of, world_of};

use iso_ends::{Doubts, purge_among, stopped};
use iso_history::{Cause, Who};
use iso_pace::{Paced, dispatch, expire, snapshot};
use iso_script::{Line, What};
use iso_state::Parts;
use iso_types::{Conn, StepFault};

/// What comes of the next line. `Line`: it is taken. `Pair`: a pair of an index is purged before it. `Stop`: the dispatcher stops
/// in place of either. `Nothing`: the line is not taken yet.
#[derive(Clone, Copy, PartialEq, Eq)]
pub(crate) enum Taken {
    Line,
    Pair,
    Stop,
    Nothing,
}

/// Takes the line of a statement.
fn take_statement(parts: &mut Parts, line: &Line, conn: Conn) -> Result<Paced, StepFault>
    requires stands { StandsFor parts.old }
    requires open { (world_of parts.old).pace.finished ≡ false }
    requires may { MayTakeLine parts.old.head (world_of parts.old) }
    requires going { (world_of parts.old).pace.stopped ≡ false }
    requires line { IsLine parts.old.head line.now }
    requires asks { is_some (statement_in line.now.what) ≡ true }
    requires conn { line.now.conn ≡ Some conn }
    ensures stands { StandsFor parts.new }
    ensures head { parts.new.head ≡ parts.old.head }
    ensures tried { HasTried parts.old.head (world_of parts.old) (line_step parts.old.head (world_of parts.old) line.now)
        parts.old.history.items parts.new.history.items result }
    ensures err { OnErr result (content_of parts.new ≡ content_of parts.old) }
{
    dispatch(parts, line.number, conn, line.free)
}

/// Takes a line EXPIRE.
fn take_expire(parts: &mut Parts, line: &Line, conn: Conn) -> Result<Paced, StepFault>
    requires stands { StandsFor parts.old }
    requires open { (world_of parts.old).pace.finished ≡ false }
    requires may { MayTakeLine parts.old.head (world_of parts.old) }
    requires going { (world_of parts.old).pace.stopped ≡ false }
    requires line { IsLine parts.old.head line.now }
    requires asks { line.now.what ≡ Asks.Expire }
    requires conn { line.now.conn ≡ Some conn }
    ensures stands { StandsFor parts.new }
    ensures head { parts.new.head ≡ parts.old.head }
    ensures tried { HasTried parts.old.head (world_of parts.old) (line_step parts.old.head (world_of parts.old) line.now)
        parts.old.history.items parts.new.history.items result }
    ensures err { OnErr result (content_of parts.new ≡ content_of parts.old) }
{
    expire(parts, line.number, conn)
}

/// Takes a line SNAPSHOT.
fn take_snapshot(parts: &mut Parts, line: &Line) -> Result<Paced, StepFault>
    requires stands { StandsFor parts.old }
    requires open { (world_of parts.old).pace.finished ≡ false }
    requires may { MayTakeLine parts.old.head (world_of parts.old) }
    requires going { (world_of parts.old).pace.stopped ≡ false }
    requires line { IsLine parts.old.head line.now }
    requires asks { line.now.what ≡ Asks.Snapshot }
    ensures stands { StandsFor parts.new }
    ensures head { parts.new.head ≡ parts.old.head }
    ensures tried { HasTried parts.old.head (world_of parts.old) (line_step parts.old.head (world_of parts.old) line.now)
        parts.old.history.items parts.new.history.items result }
    ensures err { OnErr result (content_of parts.new ≡ content_of parts.old) }
{
    snapshot(parts, line.number)
}

/// Takes a line of a connection. A script has no SNAPSHOT among them.
fn take_own(parts: &mut Parts, line: &Line, conn: Conn) -> Result<Paced, StepFault>
    requires stands { StandsFor parts.old }
    requires open { (world_of parts.old).pace.finished ≡ false }
    requires may { MayTakeLine parts.old.head (world_of parts.old) }
    requires going { (world_of parts.old).pace.stopped ≡ false }
    requires line { IsLine parts.old.head line.now }
    requires conn { line.now.conn ≡ Some conn }
    ensures stands { StandsFor parts.new }
    ensures head { parts.new.head ≡ parts.old.head }
    ensures tried { HasTried parts.old.head (world_of parts.old) (line_step parts.old.head (world_of parts.old) line.now)
        parts.old.history.items parts.new.history.items result }
    ensures err { OnErr result (content_of parts.new ≡ content_of parts.old) }
{
    match &line.what {
        What::Statement(_) => take_statement(parts, line, conn),
        What::Expire => take_expire(parts, line, conn),
        What::Snapshot => take_snapshot(parts, line),
    }
}

/// Takes a line of no connection. A script has none but SNAPSHOT.
fn take_common(parts: &mut Parts, line: &Line) -> Result<Paced, StepFault>
    requires stands { StandsFor parts.old }
    requires open { (world_of parts.old).pace.finished ≡ false }
    requires may { MayTakeLine parts.old.head (world_of parts.old) }
    requires going { (world_of parts.old).pace.stopped ≡ false }
    requires line { IsLine parts.old.head line.now }
    requires conn { line.now.conn ≡ None }
    ensures stands { StandsFor parts.new }
    ensures head { parts.new.head ≡ parts.old.head }
    ensures tried { HasTried parts.old.head (world_of parts.old) (line_step parts.old.head (world_of parts.old) line.now)
        parts.old.history.items parts.new.history.items result }
    ensures err { OnErr result (content_of parts.new ≡ content_of parts.old) }
{
    match &line.what {
        What::Statement(_) => Ok(Paced::NotQuiet),
        What::Expire => Ok(Paced::NotQuiet),
        What::Snapshot => take_snapshot(parts, line),
    }
}

/// Takes a line, where its step may be made.
fn try_line(parts: &mut Parts, line: &Line) -> Result<Paced, StepFault>
    requires stands { StandsFor parts.old }
    requires open { (world_of parts.old).pace.finished ≡ false }
    requires may { MayTakeLine parts.old.head (world_of parts.old) }
    requires going { (world_of parts.old).pace.stopped ≡ false }
    requires line { IsLine parts.old.head line.now }
    ensures stands { StandsFor parts.new }
    ensures head { parts.new.head ≡ parts.old.head }
    ensures tried { HasTried parts.old.head (world_of parts.old) (line_step parts.old.head (world_of parts.old) line.now)
        parts.old.history.items parts.new.history.items result }
    ensures err { OnErr result (content_of parts.new ≡ content_of parts.old) }
{
    match line.conn {
        Some(conn) => take_own(parts, line, conn),
        None => take_common(parts, line),
    }
}

/// Whether a line is taken.
fn is_taken(paced: Paced) -> bool
    ensures { result ≡ is_done paced }
{
    match paced {
        Paced::Done => true,
        Paced::Busy => true,
        Paced::NoEffect => true,
        Paced::NotQuiet => false,
        Paced::Stopping => false,
    }
}

/// What a step that faults lacks.
fn cause_of(fault: StepFault) -> Cause
    ensures { result ≡ lacked fault }
{
    match fault {
        StepFault::Memory => Cause::Memory,
        StepFault::HistoryFull => Cause::History,
    }
}

/// Takes a line that may be tried, where there is no want of memory nor of room in the history; else the dispatcher stops in
/// its place.
fn take_line(parts: &mut Parts, line: &Line) -> Taken
    requires stands { StandsFor parts.old }
    requires open { (world_of parts.old).pace.finished ≡ false }
    requires may { MayTakeLine parts.old.head (world_of parts.old) }
    requires going { (world_of parts.old).pace.stopped ≡ false }
    requires line { IsLine parts.old.head line.now }
    ensures stands { StandsFor parts.new }
    ensures head { parts.new.head ≡ parts.old.head }
    ensures taken { HasLineTaken parts.old.head (world_of parts.old) (line_step parts.old.head (world_of parts.old) line.now)
        parts.old.history.items parts.new.history.items result }
{
    match try_line(parts, line) {
        Ok(paced) => {
            if is_taken(paced) {
                Taken::Line
            } else {
                Taken::Nothing
            }
        }
        Err(fault) => {
            stopped(parts, Who::Dispatcher, cause_of(fault));
            Taken::Stop
        }
    }
}

/// Purges a pair, where one is purgeable and the dispatcher's last entry is no purge; else takes a line, where its step may be
/// made. Where there is want of memory or of room in the history the dispatcher stops in place of either. It looks at this line
/// alone, at the pairs of the indexes as `purge_among` does, and asks the lock list once for each connection at most.
pub(crate) fn take(parts: &mut Parts, line: &Line, doubts: &mut Doubts) -> Taken
    requires stands { StandsFor parts.old }
    requires open { (world_of parts.old).pace.finished ≡ false }
    requires going { (world_of parts.old).pace.stopped ≡ false }
    requires line { IsLine parts.old.head line.now }
    requires kept { AreKept parts.old.head parts.old.history.items doubts.old }
    ensures stands { StandsFor parts.new }
    ensures head { parts.new.head ≡ parts.old.head }
    ensures kept { AreKept parts.old.head parts.old.history.items doubts.new }
    ensures taken { HasLineTaken parts.old.head (world_of parts.old) (due_step parts.old.head (world_of parts.old) line.now)
        parts.old.history.items parts.new.history.items result }
{
    if parts.pace.purged {
        return take_line(parts, line);
    }
    match purge_among(parts, doubts) {
        Ok(true) => Taken::Pair,
        Ok(false) => take_line(parts, line),
        Err(fault) => {
            stopped(parts, Who::Dispatcher, cause_of(fault));
            Taken::Stop
        }
    }
}
