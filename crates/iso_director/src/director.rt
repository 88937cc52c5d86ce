//! The dispatcher: it takes the lines in their order, ends deadlocks, closes the connections, and ends the history.

ghost use Rattle.std.specs.Prelude.{◌≡◌, ◌<◌, ◌++◌, [], ◌∷◌, drop, false, true, is_some, length, List, None};
ghost use Rattle.iso_conduct.specs.Schedule.{IsFirst, dispatcher_step};
ghost use Rattle.iso_director.specs.Director.{HasLed, HasTaken, has_ended, is_ran};
ghost use Rattle.iso_director.specs.Turns.{HasEnded, HasMade};
ghost use Rattle.iso_director.specs.Untied.{WasAcyclic};
ghost use Rattle.iso_ends.specs.Doubts.{AreKept};
ghost use Rattle.iso_history.specs.Makers.{by_dispatcher};
ghost use Rattle.iso_history.specs.Quiet.{cycle_in};
ghost use Rattle.iso_history.specs.declared.entry.Act.{Act};
ghost use Rattle.iso_history.specs.declared.entry.Entry.{Entry};
ghost use Rattle.iso_pace.specs.Answers.{detecting};
ghost use Rattle.iso_script.specs.Sound.{IsSound};
ghost use Rattle.iso_state.specs.Stands.{StandsFor, world_of};
ghost use Rattle.iso_types.specs.declared.head.Head.{Head};

use crate::taking::{Taken, take};
use iso_ends::Doubts;
use iso_pace::{Closing, close_next, detect};
use iso_script::Script;
use iso_state::Parts;
use std::alloc::Global;

/// What a turn of the dispatcher comes to. `Ran`: it made one entry. `Rests`: it has none to make now. `Ended`: the history is over.
#[derive(Clone, Copy, PartialEq, Eq)]
pub enum Led {
    Ran,
    Rests,
    Ended,
}

/// The dispatcher of a run: how many of the script's lines it has taken, what it knows of the pairs of the indexes, and how many
/// entries had been made when no connections waited for each other in a circle, where that is known.
#[derive(Drop)]
pub struct Director {
    pub taken: usize,
    pub doubts: Doubts,
    pub acyclic: Option<usize>,
}

/// Ends a deadlock, where there is one.
fn end_deadlock(parts: &mut Parts)
    requires stands { StandsFor parts.old }
    requires open { (world_of parts.old).pace.finished ≡ false }
    ensures stands { StandsFor parts.new }
    ensures head { parts.new.head ≡ parts.old.head }
    ensures ok { parts.new.history.items ≡ parts.old.history.items ++ detecting (cycle_in parts.old.head (world_of parts.old)) }
{
    detect(parts);
}

/// Closes the least idle connection, or ends the history where all have ended.
fn end(parts: &mut Parts) -> Led
    requires stands { StandsFor parts.old }
    requires open { (world_of parts.old).pace.finished ≡ false }
    ensures stands { StandsFor parts.new }
    ensures head { parts.new.head ≡ parts.old.head }
    ensures ended { HasEnded parts.old.head (world_of parts.old) parts.old.history.items parts.new.history.items result }
{
    match close_next(parts) {
        Closing::One(_) => Led::Ran,
        Closing::NotQuiet => Led::Rests,
        Closing::Finished => Led::Ran,
    }
}

impl Director {
    /// The dispatcher at the beginning of a run: no line is taken, no pair was looked at, and no circle sought.
    pub fn new(alloc: Global) -> Director
        ensures taken { result.taken ≡ 0 }
        ensures kept { (head : Head) (es : List Entry) → AreKept head es result.doubts }
        ensures acyclic { result.acyclic ≡ None }
    {
        Director {
            taken: 0,
            doubts: Doubts::new(alloc),
            acyclic: None,
        }
    }

    /// Takes the next line, where its step may be made, or purges a pair before it.
    fn take_next(&mut self, script: &Script, parts: &mut Parts) -> Led
        requires stands { StandsFor parts.old }
        requires open { (world_of parts.old).pace.finished ≡ false }
        requires head { parts.old.head ≡ script.now.head }
        requires sound { IsSound script.now }
        requires going { (world_of parts.old).pace.stopped ≡ false }
        requires acyclic { cycle_in parts.old.head (world_of parts.old) ≡ None }
        requires left { self.old.taken < length script.now.lines }
        requires kept { AreKept parts.old.head parts.old.history.items self.old.doubts }
        ensures stands { StandsFor parts.new }
        ensures head { parts.new.head ≡ parts.old.head }
        ensures kept { AreKept parts.old.head parts.old.history.items self.new.doubts }
        ensures acyclic { self.new.acyclic ≡ self.old.acyclic }
        ensures made { HasMade script.now.head (world_of parts.old) (drop self.old.taken script.now.lines)
            (drop self.new.taken script.now.lines) parts.old.history.items parts.new.history.items result }
    {
        match take(
            parts,
            &script.lines.as_slice()[self.taken],
            &mut self.doubts,
        ) {
            Taken::Line => {
                self.taken += 1;
                Led::Ran
            }
            Taken::Pair => Led::Ran,
            Taken::Stop => Led::Ran,
            Taken::Nothing => Led::Rests,
        }
    }

    /// Takes the next line; where none is left, or somebody stopped, closes the connections one by one and ends the history.
    fn go_on(&mut self, script: &Script, parts: &mut Parts) -> Led
        requires stands { StandsFor parts.old }
        requires open { (world_of parts.old).pace.finished ≡ false }
        requires head { parts.old.head ≡ script.now.head }
        requires sound { IsSound script.now }
        requires acyclic { cycle_in parts.old.head (world_of parts.old) ≡ None }
        requires kept { AreKept parts.old.head parts.old.history.items self.old.doubts }
        ensures stands { StandsFor parts.new }
        ensures head { parts.new.head ≡ parts.old.head }
        ensures kept { AreKept parts.old.head parts.old.history.items self.new.doubts }
        ensures acyclic { self.new.acyclic ≡ self.old.acyclic }
        ensures made { HasMade script.now.head (world_of parts.old) (drop self.old.taken script.now.lines)
            (drop self.new.taken script.now.lines) parts.old.history.items parts.new.history.items result }
    {
        if parts.pace.stopped {
            return end(parts);
        }
        if self.taken >= script.lines.len() {
            return end(parts);
        }
        self.take_next(script, parts)
    }

    /// Makes the dispatcher's next entry, where the history is not over.
    fn lead(&mut self, script: &Script, parts: &mut Parts) -> Led
        requires stands { StandsFor parts.old }
        requires open { (world_of parts.old).pace.finished ≡ false }
        requires head { parts.old.head ≡ script.now.head }
        requires sound { IsSound script.now }
        requires kept { AreKept parts.old.head parts.old.history.items self.old.doubts }
        requires acyclic { WasAcyclic parts.old.head parts.old.history.items self.old.acyclic }
        ensures stands { StandsFor parts.new }
        ensures head { parts.new.head ≡ parts.old.head }
        ensures kept { AreKept parts.old.head parts.old.history.items self.new.doubts }
        ensures acyclic { WasAcyclic parts.old.head parts.old.history.items self.new.acyclic }
        ensures made { HasMade script.now.head (world_of parts.old) (drop self.old.taken script.now.lines)
            (drop self.new.taken script.now.lines) parts.old.history.items parts.new.history.items result }
    {
        if self.is_cyclic(parts) {
            end_deadlock(parts);
            return Led::Ran;
        }
        self.go_on(script, parts)
    }

    /// Makes the dispatcher's next entry: where connections wait for each other in a circle the choice of a victim; else, as long
    /// as a line is left, the purge of a pair that no row has any more, unless its last entry was a purge; else the next line's
    /// entry, where it may be taken; where no line is left or somebody stopped, the close of the least idle connection once all is
    /// quiet, and at last the end of the history. For want of memory, or of room in the history, the dispatcher stops in place of
    /// a purge or a line's entry. `Ran`: one entry is made. `Rests`: it has none to make; `Ended`: the history is over; all is as
    /// it was then. It looks at no line but the next. A purgeable pair is sought as by `Doubts::least`. Each entry of the history is
    /// looked at once for circles: as long as none queues after there was none, there is none; else one is sought, as by `cyclic`,
    /// and by `detect` where there is one. Where a line or a close wants quiet the lock list is asked up to three times for each
    /// connection that waits. A SNAPSHOT sorts the names of all locks. (This project's own.)
    pub fn make(&mut self, script: &Script, parts: &mut Parts) -> Led
        requires stands { StandsFor parts.old }
        requires head { parts.old.head ≡ script.now.head }
        requires sound { IsSound script.now }
        requires taken { HasTaken script.now parts.old.history.items self.old }
        ensures stands { StandsFor parts.new }
        ensures head { parts.new.head ≡ parts.old.head }
        ensures taken { HasTaken script.now parts.new.history.items self.new }
        ensures led { HasLed parts.old.history.items parts.new.history.items result }
        ensures able { is_ran result ≡ is_some (dispatcher_step script.now.head (world_of parts.old) (drop self.old.taken script.now.lines)) }
        ensures first { (a : Act) → parts.new.history.items ≡ parts.old.history.items ++ by_dispatcher a ∷ []
            → IsFirst script.now.head (world_of parts.old) (drop self.old.taken script.now.lines) a }
        ensures ended { has_ended result ≡ (world_of parts.old).pace.finished }
    {
        if parts.pace.finished {
            return Led::Ended;
        }
        self.lead(script, parts)
    }
}
