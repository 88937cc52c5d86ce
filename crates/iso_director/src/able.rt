//! Whether the dispatcher has an entry to make, asked without making it.

ghost use Rattle.std.specs.Prelude.{◌≡◌, ◌<◌, ℕ, not, ◌&&◌, drop, false, is_some, length, Some, None};
ghost use Rattle.iso_conduct.specs.Pacing.{IsLine, line_step, step_of, taking};
ghost use Rattle.iso_conduct.specs.Schedule.{dispatcher_step};
ghost use Rattle.iso_director.specs.Director.{HasTaken};
ghost use Rattle.iso_ends.specs.Doubts.{AreKept};
ghost use Rattle.iso_history.specs.Entries.{least_purgeable};
ghost use Rattle.iso_history.specs.Outcomes.{statement_step};
ghost use Rattle.iso_history.specs.Phases.{is_phase, phase};
ghost use Rattle.iso_history.specs.Quiet.{cycle_in, waits_stuck};
ghost use Rattle.iso_script.specs.Sound.{IsSound};
ghost use Rattle.iso_state.specs.Stands.{StandsFor, world_of};
ghost use Rattle.iso_types.specs.declared.desk.Phase.TheVariants as Phases;

use crate::director::Director;
use iso_ends::purgeable_among;
use iso_pace::quiet;
use iso_script::{Line, Script, What};
use iso_state::{Parts, can_claim, desk_of};
use iso_types::{Conn, Phase};

/// The connection's phase.
fn phase_of(parts: &Parts, conn: Conn) -> Phase
    requires stands { StandsFor parts.now }
    requires conn { conn.0 < length parts.now.head.conns }
    ensures { result ≡ phase (world_of parts.now) conn }
{
    desk_of(parts, conn).phase
}

/// Whether the connection is idle.
fn is_idle(parts: &Parts, conn: Conn) -> bool
    requires stands { StandsFor parts.now }
    requires conn { conn.0 < length parts.now.head.conns }
    ensures { result ≡ is_phase (phase (world_of parts.now) conn) Phases.Idle }
{
    match phase_of(parts, conn) {
        Phase::Idle => true,
        Phase::Running => false,
        Phase::Waiting => false,
        Phase::Rolling => false,
        Phase::Closing => false,
        Phase::Ended => false,
    }
}

/// Whether the connection waits with an edge.
fn is_blocked(parts: &Parts, conn: Conn) -> bool
    requires stands { StandsFor parts.now }
    requires conn { conn.0 < length parts.now.head.conns }
    ensures { result ≡ waits_stuck (world_of parts.now) conn }
{
    match phase_of(parts, conn) {
        Phase::Idle => false,
        Phase::Running => false,
        Phase::Waiting => !can_claim(parts, conn),
        Phase::Rolling => false,
        Phase::Closing => false,
        Phase::Ended => false,
    }
}

/// Whether a statement of the connection is begun, or passed over: it is idle, or waits with an edge. No cycle is there.
fn takes_statement(parts: &Parts, conn: Conn) -> bool
    requires stands { StandsFor parts.now }
    requires conn { conn.0 < length parts.now.head.conns }
    requires acyclic { cycle_in parts.now.head (world_of parts.now) ≡ None }
    ensures { (n : ℕ) → result ≡ is_some (statement_step parts.now.head (world_of parts.now) n conn) }
{
    is_idle(parts, conn) || is_blocked(parts, conn)
}

/// Whether a line of a connection has a step.
fn has_own_step(parts: &Parts, line: &Line, conn: Conn) -> bool
    requires stands { StandsFor parts.now }
    requires acyclic { cycle_in parts.now.head (world_of parts.now) ≡ None }
    requires line { IsLine parts.now.head line.now }
    requires conn { line.now.conn ≡ Some conn }
    ensures { result ≡ is_some (step_of parts.now.head (world_of parts.now) line.now.number line.now.what (Some conn)) }
{
    match &line.what {
        What::Statement(_) => takes_statement(parts, conn),
        What::Expire => true,
        What::Snapshot => true,
    }
}

/// Whether a line has a step, where it may be taken.
fn has_step(parts: &Parts, line: &Line) -> bool
    requires stands { StandsFor parts.now }
    requires acyclic { cycle_in parts.now.head (world_of parts.now) ≡ None }
    requires line { IsLine parts.now.head line.now }
    ensures { result ≡ is_some (step_of parts.now.head (world_of parts.now) line.now.number line.now.what line.now.conn) }
{
    match line.conn {
        Some(conn) => has_own_step(parts, line, conn),
        None => match &line.what {
            What::Statement(_) => false,
            What::Expire => false,
            What::Snapshot => true,
        },
    }
}

/// Whether a line can be taken: all is quiet or it stands behind `&`, and it has a step.
fn can_take(parts: &Parts, line: &Line) -> bool
    requires stands { StandsFor parts.now }
    requires acyclic { cycle_in parts.now.head (world_of parts.now) ≡ None }
    requires line { IsLine parts.now.head line.now }
    ensures { result ≡ is_some (line_step parts.now.head (world_of parts.now) line.now) }
{
    if line.free {
        return has_step(parts, line);
    }
    if quiet(parts) {
        has_step(parts, line)
    } else {
        false
    }
}

impl Director {
    /// Whether a pair is purged before a line is taken.
    fn can_purge(&mut self, parts: &Parts) -> bool
        requires stands { StandsFor parts.now }
        requires kept { AreKept parts.now.head parts.now.history.items self.old.doubts }
        ensures kept { AreKept parts.now.head parts.now.history.items self.new.doubts }
        ensures taken { self.new.taken ≡ self.old.taken }
        ensures acyclic { self.new.acyclic ≡ self.old.acyclic }
        ensures purges { result ≡ (not (world_of parts.now).pace.purged && is_some (least_purgeable parts.now.head (world_of parts.now))) }
    {
        if parts.pace.purged {
            return false;
        }
        purgeable_among(parts, &mut self.doubts)
    }

    /// Whether the next line can be taken, or a pair purged before it.
    fn can_go_on(&mut self, script: &Script, parts: &Parts) -> bool
        requires stands { StandsFor parts.now }
        requires head { parts.now.head ≡ script.now.head }
        requires sound { IsSound script.now }
        requires going { (world_of parts.now).pace.stopped ≡ false }
        requires acyclic { cycle_in parts.now.head (world_of parts.now) ≡ None }
        requires left { self.old.taken < length script.now.lines }
        requires kept { AreKept parts.now.head parts.now.history.items self.old.doubts }
        ensures kept { AreKept parts.now.head parts.now.history.items self.new.doubts }
        ensures taken { self.new.taken ≡ self.old.taken }
        ensures acyclic { self.new.acyclic ≡ self.old.acyclic }
        ensures takes { result ≡ is_some (taking parts.now.head (world_of parts.now) (drop self.old.taken script.now.lines)) }
    {
        if self.can_purge(parts) {
            return true;
        }
        can_take(parts, &script.lines.as_slice()[self.taken])
    }

    /// Whether `make` would make an entry. Nothing is appended. It looks at the next line alone, and asks the state what `make`
    /// asks: a circle is sought, as by `cyclic`, only where an entry has queued since there was none, quiet as by `quiet`, and a
    /// purgeable pair as by `purgeable_among`. (This project's own.)
    pub fn able(&mut self, script: &Script, parts: &Parts) -> bool
        requires stands { StandsFor parts.now }
        requires head { parts.now.head ≡ script.now.head }
        requires sound { IsSound script.now }
        requires taken { HasTaken script.now parts.now.history.items self.old }
        ensures taken { HasTaken script.now parts.now.history.items self.new }
        ensures able { result ≡ is_some (dispatcher_step script.now.head (world_of parts.now) (drop self.old.taken script.now.lines)) }
    {
        if parts.pace.finished {
            return false;
        }
        if self.is_cyclic(parts) {
            return true;
        }
        if parts.pace.stopped {
            return quiet(parts);
        }
        if self.taken >= script.lines.len() {
            return quiet(parts);
        }
        self.can_go_on(script, parts)
    }
}
