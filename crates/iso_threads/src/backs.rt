//! The passes that go out to threads and come back, with the agents that are not driven.
ghost use Rattle.std.specs.Prelude.{◌≡◌, ◌+◌, ◌<◌, ◌≤◌, ℕ, [], length, vec_len, vec_capacity};
ghost use Rattle.iso_agent.specs.Passes.{IsPassOf};
ghost use Rattle.iso_latch.specs.Seen.{has};
ghost use Rattle.iso_latch.specs.Told.{seen_of};
ghost use Rattle.iso_script.specs.Sound.{IsSound};
ghost use Rattle.iso_threads.specs.Backs.{AllBack, IsBack, voices};

use crate::flags::Flags;
use iso_agent::{Agent, Bells, Turned};
use iso_latch::{Latch, Pass};
use iso_script::Script;
use iso_state::State;
use iso_types::{Conn, Gate};
use std::alloc::Global;
use std::snapshot::Snapshot;
use std::sync::Wait;
use std::thread::Promise;

/// The pass of a connection, with its agent where that was not driven to its end.
#[derive(Drop)]
pub struct Back {
    pub conn: Conn,
    pub pass: Pass<State>,
    pub agent: Option<Agent>,
}

/// What a thread promises: the pass of the same connection, later.
#[derive(Drop)]
pub struct Driven {
    pub back: Snapshot<Back>,
    pub script: Snapshot<Script>,
}

impl Promise<Back> for Driven {
    ghost use Rattle.iso_threads.specs.Backs.{CameBack};

    ghost kept_by = { λ p r. CameBack p.back.value p.script.value r };
}

/// A new agent with its pass.
pub fn undriven(latch: &Latch<State>, script: &Script, conn: Conn, pass: Pass<State>) -> Back
    requires pass { IsPassOf latch.now.table.shared.table_id script.now conn pass }
    requires within { conn.0 < length script.now.head.conns }
    requires fresh { seen_of pass.seat ≡ [] }
    ensures back { IsBack latch.now.table.shared.table_id script.now result }
    ensures id { result.pass.seat.table_id ≡ latch.now.table.shared.table_id }
    ensures conn { result.conn ≡ conn }
{
    Back {
        conn,
        pass,
        agent: Some(Agent::new(conn)),
    }
}

impl Back {
    /// A turn of the agent, where it was not driven, and whether it made an entry. It may wait.
    pub fn turn<R: Wait, G: Gate>(
        self,
        rt: &R,
        alloc: Global,
        latch: &Latch<State>,
        script: &Script,
        gate: &G,
    ) -> (Back, bool)
        requires sound { IsSound script.now }
        requires back { IsBack latch.now.table.shared.table_id script.now self }
        ensures back { IsBack latch.now.table.shared.table_id script.now result.0 }
        ensures conn { result.0.conn ≡ self.conn }
    {
        let Back { conn, pass, agent } = self;
        match agent {
            None => (
                Back {
                    conn,
                    pass,
                    agent: None,
                },
                false,
            ),
            Some(agent) => {
                let mut agent = agent;
                let (pass, turned) = agent.turn(rt, alloc, latch, pass, script, gate);
                (
                    Back {
                        conn,
                        pass,
                        agent: Some(agent),
                    },
                    matches!(turned, Turned::Ran),
                )
            }
        }
    }

    /// Drives the agent until its connection has ended; where its flag is set, it comes back undriven. It may wait.
    pub fn drive<R: Wait, G: Gate>(
        self,
        rt: &R,
        alloc: Global,
        latch: &Latch<State>,
        script: &Script,
        gate: &G,
        bells: &Bells,
        flags: &Flags,
    ) -> Back
        requires sound { IsSound script.now }
        requires back { IsBack latch.now.table.shared.table_id script.now self }
        requires place { self.conn.0 < vec_len bells.now.places }
        ensures back { IsBack latch.now.table.shared.table_id script.now result }
        ensures conn { result.conn ≡ self.conn }
    {
        if flags.is_set(self.conn) {
            return self;
        }
        let Back { conn, pass, agent } = self;
        match agent {
            None => Back {
                conn,
                pass,
                agent: None,
            },
            Some(agent) => Back {
                conn,
                pass: agent.drive(rt, alloc, latch, pass, script, gate, bells),
                agent: None,
            },
        }
    }
}

/// A turn of each, out of the one list into the other, and whether one of them made an entry. No memory is taken. It may wait.
pub fn turn_all<R: Wait, G: Gate>(
    rt: &R,
    alloc: Global,
    latch: &Latch<State>,
    script: &Script,
    gate: &G,
    here: Vec<Back>,
    there: Vec<Back>,
) -> (Vec<Back>, Vec<Back>, bool)
    requires sound { IsSound script.now }
    requires all { AllBack latch.now.table.shared.table_id script.now here.items }
    requires empty { there.items ≡ [] }
    requires room { vec_len here ≤ vec_capacity there }
    ensures all { AllBack latch.now.table.shared.table_id script.now result.1.items }
    ensures empty { result.0.items ≡ [] }
    ensures room { (vec_len result.1 ≡ vec_len here) × (vec_capacity result.0 ≡ vec_capacity here) × (vec_capacity result.1 ≡ vec_capacity there) }
    ensures voices { (x : ℕ) → has x (voices result.1.items) ≡ has x (voices here.items) }
{
    let mut here = here;
    let mut there = there;
    let mut ran = false;
    while let Some(back) = here.pop() {
        let (back, one) = back.turn(rt, alloc, latch, script, gate);
        ran = ran || one;
        there.push_reserved(back);
    }
    (here, there, ran)
}
