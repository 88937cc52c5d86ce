//! A step of an agent on the whole state, as a hold of the latch makes it.
ghost use Rattle.std.specs.Prelude.{◌≡◌, ◌<◌, length, true};
ghost use Rattle.iso_agent.specs.Fits.{CanSettle, Fits, IsRested};
ghost use Rattle.iso_agent.specs.Steps.{IsUntold};
ghost use Rattle.iso_agent.specs.Turns.{HasTurned, is_over, is_ran};
ghost use Rattle.iso_conduct.specs.Conduct.{Conduct, point, ready};
ghost use Rattle.iso_history.specs.After.{world};
ghost use Rattle.iso_history.specs.Quiet.{is_able};
ghost use Rattle.iso_script.specs.Sound.{IsSound};

use crate::agent::{Agent, Turned};
use crate::wakes::able_after;
use iso_script::Script;
use iso_state::State;
use std::alloc::Global;

impl Agent {
    /// Makes the next entry of the connection on the state, where it is able, as `make` does, and notes in the state who can go on
    /// behind it; it costs what `make` and `able_after` do. What its entry leaves to be told is kept for `settle`: the task of a
    /// look is as it was before. (This project's own.)
    pub fn step(&mut self, alloc: Global, script: &Script, state: State) -> (State, Turned)
        requires head { state.head ≡ script.now.head }
        requires sound { IsSound script.now }
        requires conn { self.old.conn.0 < length script.now.head.conns }
        requires rested { IsRested script.now state.history self.old.conn self.old.task self.old.kept }
        ensures head { result.0.head ≡ state.head }
        ensures conn { self.new.conn ≡ self.old.conn }
        ensures turned { HasTurned state.history result.0.history self.old.conn result.1 }
        ensures able { is_ran result.1 ≡ is_able (world state.head state.history) self.old.conn }
        ensures ended { is_over result.1 ≡ (world state.head state.history).ended self.old.conn }
        ensures conduct { Conduct result.0.head script.now.lines result.0.history self.old.conn }
        ensures fits { Fits result.0.head script.now.lines result.0.history self.old.conn self.new.task self.new.kept }
        ensures settle { CanSettle self.new.task self.new.kept }
        ensures untold { is_ran result.1 ≡ true → IsUntold state.head (world state.head state.history) self.old.conn (ready state.head script.now.lines (world state.head state.history) self.old.conn (point state.head script.now.lines state.history self.old.conn)) self.new.task self.new.kept }
    {
        let before = state.able();
        let mut parts = state.into_parts();
        let turned = self.make(alloc, script, &mut parts);
        let able = able_after(&parts, before, self.conn, turned);
        (State::over(parts, able), turned)
    }
}
