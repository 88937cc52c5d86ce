//! The agent of a connection.
ghost use Rattle.std.specs.Prelude.{◌≡◌, ◌<◌, length, false, true, Some, None};
ghost use Rattle.iso_conduct.specs.Conduct.{Conduct, MayIn, point, ready};
ghost use Rattle.iso_conduct.specs.Standing.{MayGoOn};
ghost use Rattle.iso_history.specs.Legal.{By};
ghost use Rattle.iso_history.specs.Phases.{phase};
ghost use Rattle.iso_history.specs.Quiet.{is_able};
ghost use Rattle.iso_history.specs.declared.entry.Act.TheVariants as acts;
ghost use Rattle.iso_history.specs.declared.entry.Who.TheVariants as makers;
ghost use Rattle.iso_script.specs.Sound.{IsSound};
ghost use Rattle.iso_standing.specs.Going.{GoesOn};
ghost use Rattle.iso_state.specs.Stands.{StandsFor, world_of};
ghost use Rattle.iso_types.specs.declared.desk.Phase.{Phase as PhaseOf};
ghost use Rattle.iso_agent.specs.Fits.{CanSettle, CanTellTo, Fits, HasSettled, HasTold, IsRested, is_settled, told_list};
ghost use Rattle.iso_agent.specs.Steps.{IsUntold};
ghost use Rattle.iso_agent.specs.Turns.{HasTurned, Leaves, is_over, is_ran};
ghost use Rattle.iso_agent.specs.declared.agent.Kept.TheVariants.{Nothing};
ghost use Rattle.iso_agent.specs.declared.agent.Turned.TheVariants as turns;

use crate::due::step_due;
use crate::ends::make_closing;
use crate::opening::ready_task;
use crate::stepped::Stepped;
use crate::telling::tell;
use crate::ways::{Way, find_way};
use iso_conduct::{Task, Told};
use iso_ends::stopped;
use iso_history::{Cause, Who};
use iso_rebuild::{Past, rebuild};
use iso_script::Script;
use iso_state::Parts;
use iso_types::Conn;
use std::alloc::Global;
use std::mem;

/// What the last step has left for the work that needs no state: nothing; the answer of its entry, and that the lock is `queued` for
/// after an escalation that queues; a pinned slot, of which the row of a look is rebuilt; or a stop, since memory was wanting.
#[derive(Drop)]
pub enum Kept {
    Nothing,
    Answer { told: Told, queued: bool },
    Rebuild(Past),
    Stop,
}

/// What a turn came to: one entry was made; the connection is idle, or waits for a lock that it can't have; or it has ended.
#[derive(Clone, Copy, PartialEq, Eq)]
pub enum Turned {
    Ran,
    Rests,
    Ended,
}

/// The agent of a connection: the task of its open statement, if it has begun, and what is kept to be told to it.
#[derive(Drop)]
pub struct Agent {
    pub conn: Conn,
    pub task: Option<Task>,
    pub kept: Kept,
}

impl Agent {
    /// The agent of a connection that has made no entry. It takes no memory.
    pub fn new(conn: Conn) -> Agent
        ensures conn { result.conn ≡ conn }
        ensures task { result.task ≡ None }
        ensures kept { result.kept ≡ Nothing }
    {
        Agent {
            conn,
            task: None,
            kept: Kept::Nothing,
        }
    }

    /// Ends what a closing connection has left: undoes its last record, or ends it.
    fn close(&mut self, script: &Script, parts: &mut Parts)
        requires stands { StandsFor parts.old }
        requires open { (world_of parts.old).pace.finished ≡ false }
        requires conn { self.old.conn.0 < length parts.old.head.conns }
        requires closing { phase (world_of parts.old) self.old.conn ≡ PhaseOf.Closing }
        requires conduct { Conduct parts.old.head script.now.lines parts.old.history.items self.old.conn }
        ensures stands { StandsFor parts.new }
        ensures head { parts.new.head ≡ parts.old.head }
        ensures conn { self.new.conn ≡ self.old.conn }
        ensures turned { HasTurned parts.old.history.items parts.new.history.items self.old.conn turns.Ran }
        ensures leaves { Leaves parts.old.head script.now.lines parts.new.history.items self.old.conn self.new.task self.new.kept }
        ensures untold { IsUntold parts.old.head (world_of parts.old) self.old.conn (ready parts.old.head script.now.lines (world_of parts.old) self.old.conn (point parts.old.head script.now.lines parts.old.history.items self.old.conn)) self.new.task self.new.kept }
    {
        make_closing(parts, self.conn);
        self.task = None;
        self.kept = Kept::Nothing;
    }

    /// Stops for what the next step lacks.
    fn stop(&mut self, script: &Script, parts: &mut Parts, cause: Cause)
        requires stands { StandsFor parts.old }
        requires open { (world_of parts.old).pace.finished ≡ false }
        requires conn { self.old.conn.0 < length parts.old.head.conns }
        requires by { By parts.old.head (world_of parts.old) (makers.Agent self.old.conn) (acts.Stopped cause) }
        requires may { MayIn (phase (world_of parts.old) self.old.conn) parts.old.head script.now.lines (world_of parts.old) self.old.conn (point parts.old.head script.now.lines parts.old.history.items self.old.conn) (acts.Stopped cause) }
        requires conduct { Conduct parts.old.head script.now.lines parts.old.history.items self.old.conn }
        ensures stands { StandsFor parts.new }
        ensures head { parts.new.head ≡ parts.old.head }
        ensures conn { self.new.conn ≡ self.old.conn }
        ensures turned { HasTurned parts.old.history.items parts.new.history.items self.old.conn turns.Ran }
        ensures leaves { Leaves parts.old.head script.now.lines parts.new.history.items self.old.conn self.new.task self.new.kept }
        ensures untold { IsUntold parts.old.head (world_of parts.old) self.old.conn (ready parts.old.head script.now.lines (world_of parts.old) self.old.conn (point parts.old.head script.now.lines parts.old.history.items self.old.conn)) self.new.task self.new.kept }
    {
        stopped(parts, Who::Agent(self.conn), cause);
        self.task = None;
        self.kept = Kept::Nothing;
    }

    /// Makes the entry of the step that is due, or stops in its place.
    fn go_on(&mut self, alloc: Global, script: &Script, parts: &mut Parts, task: Task)
        requires stands { StandsFor parts.old }
        requires open { (world_of parts.old).pace.finished ≡ false }
        requires head { parts.old.head ≡ script.now.head }
        requires sound { IsSound script.now }
        requires conn { self.old.conn.0 < length parts.old.head.conns }
        requires goes { GoesOn (world_of parts.old) self.old.conn }
        requires ready { ready parts.old.head script.now.lines (world_of parts.old) self.old.conn (point parts.old.head script.now.lines parts.old.history.items self.old.conn) ≡ Some task }
        requires may { MayGoOn parts.old.head (world_of parts.old) self.old.conn task }
        requires conduct { Conduct parts.old.head script.now.lines parts.old.history.items self.old.conn }
        ensures stands { StandsFor parts.new }
        ensures head { parts.new.head ≡ parts.old.head }
        ensures conn { self.new.conn ≡ self.old.conn }
        ensures turned { HasTurned parts.old.history.items parts.new.history.items self.old.conn turns.Ran }
        ensures leaves { Leaves parts.old.head script.now.lines parts.new.history.items self.old.conn self.new.task self.new.kept }
        ensures untold { IsUntold parts.old.head (world_of parts.old) self.old.conn (ready parts.old.head script.now.lines (world_of parts.old) self.old.conn (point parts.old.head script.now.lines parts.old.history.items self.old.conn)) self.new.task self.new.kept }
    {
        let mut task = task;
        match step_due(alloc, parts, self.conn, &mut task) {
            Stepped::Goes(kept) => {
                self.task = Some(task);
                self.kept = kept;
            }
            Stepped::Over => {
                self.task = None;
                self.kept = Kept::Nothing;
            }
            Stepped::Stops(cause) => self.stop(script, parts, cause),
        }
    }

    /// Makes the next entry of a statement of which nothing is left to be told.
    fn go(&mut self, alloc: Global, script: &Script, parts: &mut Parts)
        requires stands { StandsFor parts.old }
        requires open { (world_of parts.old).pace.finished ≡ false }
        requires head { parts.old.head ≡ script.now.head }
        requires sound { IsSound script.now }
        requires conn { self.old.conn.0 < length parts.old.head.conns }
        requires goes { GoesOn (world_of parts.old) self.old.conn }
        requires reached { self.old.task ≡ point parts.old.head script.now.lines parts.old.history.items self.old.conn }
        requires conduct { Conduct parts.old.head script.now.lines parts.old.history.items self.old.conn }
        ensures stands { StandsFor parts.new }
        ensures head { parts.new.head ≡ parts.old.head }
        ensures conn { self.new.conn ≡ self.old.conn }
        ensures turned { HasTurned parts.old.history.items parts.new.history.items self.old.conn turns.Ran }
        ensures leaves { Leaves parts.old.head script.now.lines parts.new.history.items self.old.conn self.new.task self.new.kept }
        ensures untold { IsUntold parts.old.head (world_of parts.old) self.old.conn (ready parts.old.head script.now.lines (world_of parts.old) self.old.conn (point parts.old.head script.now.lines parts.old.history.items self.old.conn)) self.new.task self.new.kept }
    {
        let task = self.task.take();
        match ready_task(alloc, script, parts, self.conn, task) {
            Ok(task) => self.go_on(alloc, script, parts, task),
            Err(_) => self.stop(script, parts, Cause::Memory),
        }
    }

    /// Makes the next entry of a connection that is able and not closing.
    fn run(&mut self, alloc: Global, script: &Script, parts: &mut Parts)
        requires stands { StandsFor parts.old }
        requires open { (world_of parts.old).pace.finished ≡ false }
        requires head { parts.old.head ≡ script.now.head }
        requires sound { IsSound script.now }
        requires conn { self.old.conn.0 < length parts.old.head.conns }
        requires goes { GoesOn (world_of parts.old) self.old.conn }
        requires rested { IsRested script.now parts.old.history.items self.old.conn self.old.task self.old.kept }
        ensures stands { StandsFor parts.new }
        ensures head { parts.new.head ≡ parts.old.head }
        ensures conn { self.new.conn ≡ self.old.conn }
        ensures turned { HasTurned parts.old.history.items parts.new.history.items self.old.conn turns.Ran }
        ensures leaves { Leaves parts.old.head script.now.lines parts.new.history.items self.old.conn self.new.task self.new.kept }
        ensures untold { IsUntold parts.old.head (world_of parts.old) self.old.conn (ready parts.old.head script.now.lines (world_of parts.old) self.old.conn (point parts.old.head script.now.lines parts.old.history.items self.old.conn)) self.new.task self.new.kept }
    {
        match self.kept {
            Kept::Nothing => self.go(alloc, script, parts),
            Kept::Answer { .. } => unreachable!(),
            Kept::Rebuild(_) => unreachable!(),
            Kept::Stop => self.stop(script, parts, Cause::Memory),
        }
    }

    /// Makes the next entry of the connection where it is able: the one that its conduct names, or a stop for want of memory.
    /// `Rests`: it is idle, or waits for a lock that it can't have; `Ended`: it has ended; then nothing is appended. It costs
    /// what the step of its entry costs, and for the first entry of a statement a search among the script's lines, and a copy
    /// of the statement. (This project's own.)
    pub fn make(&mut self, alloc: Global, script: &Script, parts: &mut Parts) -> Turned
        requires stands { StandsFor parts.old }
        requires head { parts.old.head ≡ script.now.head }
        requires sound { IsSound script.now }
        requires conn { self.old.conn.0 < length script.now.head.conns }
        requires rested { IsRested script.now parts.old.history.items self.old.conn self.old.task self.old.kept }
        ensures stands { StandsFor parts.new }
        ensures head { parts.new.head ≡ parts.old.head }
        ensures conn { self.new.conn ≡ self.old.conn }
        ensures turned { HasTurned parts.old.history.items parts.new.history.items self.old.conn result }
        ensures able { is_ran result ≡ is_able (world_of parts.old) self.old.conn }
        ensures ended { is_over result ≡ (world_of parts.old).ended self.old.conn }
        ensures conduct { Conduct parts.new.head script.now.lines parts.new.history.items self.old.conn }
        ensures fits { Fits parts.new.head script.now.lines parts.new.history.items self.old.conn self.new.task self.new.kept }
        ensures settle { CanSettle self.new.task self.new.kept }
        ensures untold { is_ran result ≡ true → IsUntold parts.old.head (world_of parts.old) self.old.conn (ready parts.old.head script.now.lines (world_of parts.old) self.old.conn (point parts.old.head script.now.lines parts.old.history.items self.old.conn)) self.new.task self.new.kept }
    {
        match find_way(parts, self.conn) {
            Way::Rest => Turned::Rests,
            Way::End => Turned::Ended,
            Way::Close => {
                self.close(script, parts);
                Turned::Ran
            }
            Way::Run => {
                self.run(alloc, script, parts);
                Turned::Ran
            }
        }
    }

    /// Tells the task an answer, and then that it queues where it does; where memory is wanting a stop is kept.
    fn tell(&mut self, alloc: Global, told: Told, queued: bool)
        requires can { CanTellTo self.old.task (told_list told queued) }
        requires nothing { self.old.kept ≡ Nothing }
        ensures told { HasTold self.old.task (told_list told queued) self.new.task self.new.kept }
        ensures kept { is_settled self.new.kept ≡ true }
        ensures conn { self.new.conn ≡ self.old.conn }
    {
        if let Some(task) = &mut self.task {
            match tell(alloc, task, told, queued) {
                Ok(()) => {}
                Err(_) => self.kept = Kept::Stop,
            }
        }
    }

    /// The work that needs no state: tells the task what is kept. Where memory is wanting a stop is kept, and the next entry is
    /// a stop for want of memory. It costs as many records as a pinned slot has, and a copy of a row that the statement keeps.
    /// (This project's own.)
    pub fn settle(&mut self, alloc: Global)
        requires settle { CanSettle self.old.task self.old.kept }
        ensures kept { is_settled self.new.kept ≡ true }
        ensures settled { HasSettled self.old.task self.old.kept self.new.task self.new.kept }
        ensures conn { self.new.conn ≡ self.old.conn }
    {
        if let Kept::Nothing = self.kept {
            return;
        }
        match mem::replace(&mut self.kept, Kept::Nothing) {
            Kept::Nothing => {}
            Kept::Answer { told, queued } => self.tell(alloc, told, queued),
            Kept::Rebuild(past) => {
                let row = rebuild(past);
                self.tell(alloc, Told::Shown(row, false), false);
            }
            Kept::Stop => self.kept = Kept::Stop,
        }
    }
}
