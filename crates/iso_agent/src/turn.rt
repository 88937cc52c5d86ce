//! An agent's turns at the latch.
ghost use Rattle.std.specs.Prelude.{◌≡◌, ◌<◌, length, true, vec_len};
ghost use Rattle.iso_agent.specs.Fits.{CanSettle, HasSettled, IsRested, is_settled};
ghost use Rattle.iso_agent.specs.Passes.{IsPassOf};
ghost use Rattle.iso_conduct.specs.Conduct.{Conduct};
ghost use Rattle.iso_history.specs.Legal.{Ground};
ghost use Rattle.iso_latch.specs.Told.{seen_of};
ghost use Rattle.iso_script.specs.Sound.{IsSound};

use crate::agent::{Agent, Kept, Turned};
use crate::bells::Bells;
use crate::wakes::Wakes;
use iso_conduct::Told;
use iso_history::Act;
use iso_latch::{Latch, Pass};
use iso_script::Script;
use iso_state::State;
use iso_types::{Conn, Edges, Gate, Place};
use std::alloc::Global;
use std::sync::Wait;

/// The history of a state may stand over its head.
fn grounded(state: &State)
    ensures { Ground state.now.head state.now.history }
{
    state.parts();
}

/// The last entry answers a statement: a Reply, a Commit or a Rollback.
fn has_replied(state: &State) -> bool {
    match state.parts().history.as_slice().last() {
        Some(entry) => matches!(
            &entry.act,
            Act::Reply { .. } | Act::Commit | Act::Rollback { .. }
        ),
        None => false,
    }
}

/// Whether a row is shown, which the statement's condition is judged by.
fn shows_row(told: &Told) -> bool {
    matches!(told, Told::Shown(Some(_), _))
}

/// Whom a turn of this connection has made able.
fn wakes_of(turned: Turned, before: Edges, state: &State, conn: Conn) -> Wakes {
    match turned {
        Turned::Ran => Wakes::between(before, state.able(), conn),
        Turned::Rests => Wakes::none(),
        Turned::Ended => Wakes::none(),
    }
}

/// Rings for these, where there are bells.
fn ring_for<R: Wait>(rt: &R, bells: Option<&Bells>, wakes: Wakes) {
    if let Some(bells) = bells {
        bells.ring_for(rt, wakes);
    }
}

impl Agent {
    /// The same work as `settle`, with the gate's calls before it: behind a pin, and before a row that is shown is judged, be it
    /// rebuilt or not. It may wait, at the gate alone.
    pub fn work<R: Wait, G: Gate>(&mut self, rt: &R, alloc: Global, gate: &G)
        requires settle { CanSettle self.old.task self.old.kept }
        ensures kept { is_settled self.new.kept ≡ true }
        ensures settled { HasSettled self.old.task self.old.kept self.new.task self.new.kept }
        ensures conn { self.new.conn ≡ self.old.conn }
    {
        match &self.kept {
            Kept::Nothing => {}
            Kept::Answer { told, .. } => {
                if shows_row(told) {
                    gate.at(rt, self.conn, Place::BeforeCondition);
                }
            }
            Kept::Rebuild(_) => {
                gate.at(rt, self.conn, Place::AfterPin);
                gate.at(rt, self.conn, Place::BeforeCondition);
            }
            Kept::Stop => {}
        }
        self.settle(alloc);
    }

    /// As `turn`; where there are bells it rings behind the hold, before any work, for those whom the entry has made able: so
    /// nobody waits for that work, nor for the gate.
    fn turn_ringing<R: Wait, G: Gate>(
        &mut self,
        rt: &R,
        alloc: Global,
        latch: &Latch<State>,
        pass: Pass<State>,
        script: &Script,
        gate: &G,
        bells: Option<&Bells>,
    ) -> (Pass<State>, Turned)
        requires sound { IsSound script.now }
        requires within { self.old.conn.0 < length script.now.head.conns }
        requires pass { IsPassOf latch.now.table.shared.table_id script.now self.old.conn pass }
        requires rested { IsRested script.now (seen_of pass.seat) self.old.conn self.old.task self.old.kept }
        ensures pass { IsPassOf latch.now.table.shared.table_id script.now self.old.conn result.0 }
        ensures rested { IsRested script.now (seen_of result.0.seat) self.old.conn self.new.task self.new.kept }
        ensures conn { self.new.conn ≡ self.old.conn }
    {
        let (turn, state) = latch.enter(rt, pass);
        grounded(&state);
        let before = state.able();
        let (state, turned) = self.step(alloc, script, state);
        let replied = has_replied(&state);
        let wakes = wakes_of(turned, before, &state, self.conn);
        let pass = latch.leave(turn, state);
        ring_for(rt, bells, wakes);
        self.work(rt, alloc, gate);
        if let Turned::Ran = turned
            && replied
        {
            gate.at(rt, self.conn, Place::AfterReply);
        }
        (pass, turned)
    }

    /// One hold of the latch with at most one entry, and then the work that it leaves, outside the latch; after an entry that
    /// answers a statement the gate is called. It may wait. Its cost is that of a hold, of `step` and of `settle`. (This project's
    /// own.)
    pub fn turn<R: Wait, G: Gate>(
        &mut self,
        rt: &R,
        alloc: Global,
        latch: &Latch<State>,
        pass: Pass<State>,
        script: &Script,
        gate: &G,
    ) -> (Pass<State>, Turned)
        requires sound { IsSound script.now }
        requires within { self.old.conn.0 < length script.now.head.conns }
        requires pass { IsPassOf latch.now.table.shared.table_id script.now self.old.conn pass }
        requires rested { IsRested script.now (seen_of pass.seat) self.old.conn self.old.task self.old.kept }
        ensures pass { IsPassOf latch.now.table.shared.table_id script.now self.old.conn result.0 }
        ensures rested { IsRested script.now (seen_of result.0.seat) self.old.conn self.new.task self.new.kept }
        ensures conn { self.new.conn ≡ self.old.conn }
    {
        self.turn_ringing(rt, alloc, latch, pass, script, gate, None)
    }

    /// Turns until the connection has ended: behind an entry it rings for those whom that has made able, after a turn that made
    /// none it rests at its own place. It may wait.
    pub fn drive<R: Wait, G: Gate>(
        self,
        rt: &R,
        alloc: Global,
        latch: &Latch<State>,
        pass: Pass<State>,
        script: &Script,
        gate: &G,
        bells: &Bells,
    ) -> Pass<State>
        requires sound { IsSound script.now }
        requires within { self.conn.0 < length script.now.head.conns }
        requires pass { IsPassOf latch.now.table.shared.table_id script.now self.conn pass }
        requires rested { IsRested script.now (seen_of pass.seat) self.conn self.task self.kept }
        requires place { self.conn.0 < vec_len bells.now.places }
        ensures pass { IsPassOf latch.now.table.shared.table_id script.now self.conn result }
        ensures conduct { Conduct script.now.head script.now.lines (seen_of result.seat) self.conn }
    {
        let mut agent = self;
        let mut pass = pass;
        for _ in rt.forever() {
            let (next, turned) = agent.turn_ringing(
                rt,
                alloc,
                latch,
                pass,
                script,
                gate,
                Some(bells),
            );
            pass = next;
            match turned {
                Turned::Ran => {}
                Turned::Rests => bells.rest(rt, agent.conn.0),
                Turned::Ended => {
                    bells.ring(rt);
                    return pass;
                }
            }
        }
        unreachable!()
    }
}
