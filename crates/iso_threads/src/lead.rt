//! The dispatcher's thread.
ghost use Rattle.std.specs.Prelude.{◌≡◌, ◌+◌, ◌<◌, ◌≤◌, ◌++◌, ◌||◌, ℕ, true, [], ◌∷◌, vec_len, vec_capacity};
ghost use Rattle.iso_history.specs.After.{world};
ghost use Rattle.iso_latch.specs.Seen.{has};
ghost use Rattle.iso_latch.specs.Told.{seen_of, voices_of};
ghost use Rattle.iso_script.specs.Sound.{IsSound};
ghost use Rattle.iso_threads.specs.Backs.{AllBack, AllPromised, IsBack, promised, voices};
ghost use Rattle.iso_threads.specs.Kept.{AllKeep, Begins};
ghost use Rattle.iso_threads.specs.Passes.{IsHostPass};

use crate::backs::{Back, Driven, turn_all};
use crate::host::lead_once;
use iso_agent::{Bells, Wakes};
use iso_director::{Director, Led};
use iso_latch::{Latch, Pass};
use iso_script::Script;
use iso_state::State;
use iso_types::Gate;
use std::alloc::Global;
use std::sync::Wait;
use std::thread::{PromisedHandle, Threads};

/// Rings behind a turn of the dispatcher's thread: for those whom the dispatcher's entry has made able; for all where agents of its
/// thread made entries, too.
fn ring_after<R: Wait>(rt: &R, bells: &Bells, wakes: Wakes, ran: bool) {
    if ran {
        bells.ring(rt);
    } else {
        bells.ring_for(rt, wakes);
    }
}

/// The dispatcher's turns, and after each of them one of each agent that no thread drives, until the history has finished; where
/// none of these made an entry, it rests at its place until another did. Memory is taken by the agents' turns, and for what the
/// dispatcher knows of the pairs of the indexes. It may wait.
pub fn lead<R: Wait, G: Gate>(
    rt: &R,
    alloc: Global,
    latch: &Latch<State>,
    pass: Pass<State>,
    script: &Script,
    gate: &G,
    bells: &Bells,
    place: u8,
    here: Vec<Back>,
    there: Vec<Back>,
) -> (Pass<State>, Vec<Back>)
    requires sound { IsSound script.now }
    requires pass { IsHostPass latch.now.table.shared.table_id script.now pass }
    requires keep { AllKeep script.now (voices_of pass.seat) (seen_of pass.seat) }
    requires none { seen_of pass.seat ≡ [] }
    requires all { AllBack latch.now.table.shared.table_id script.now here.items }
    requires empty { there.items ≡ [] }
    requires room { (vec_len here ≤ vec_capacity here) × (vec_len here ≤ vec_capacity there) }
    requires place { place < vec_len bells.now.places }
    ensures pass { IsHostPass latch.now.table.shared.table_id script.now result.0 }
    ensures keep { AllKeep script.now (voices_of result.0.seat) (seen_of result.0.seat) }
    ensures all { AllBack latch.now.table.shared.table_id script.now result.1.items }
    ensures voices { (x : ℕ) → has x (voices result.1.items) ≡ has x (voices here.items) }
    ensures finished { (world script.now.head (seen_of result.0.seat)).pace.finished ≡ true }
{
    let mut director = Director::new(alloc);
    let mut pass = pass;
    let mut here = here;
    let mut there = there;
    for _ in rt.forever() {
        let (next, led, wakes) = lead_once(&mut director, rt, latch, pass, script);
        pass = next;
        let (first, second, ran) = turn_all(rt, alloc, latch, script, gate, here, there);
        here = second;
        there = first;
        match led {
            Led::Ran => ring_after(rt, bells, wakes, ran),
            Led::Rests => {
                if ran {
                    bells.ring(rt);
                } else {
                    bells.rest(rt, place);
                }
            }
            Led::Ended => {
                bells.ring(rt);
                return (pass, here);
            }
        }
    }
    unreachable!()
}

/// Takes in a pass that came back.
fn take_in(latch: &Latch<State>, pass: Pass<State>, script: &Script, back: Back) -> Pass<State>
    requires pass { IsHostPass latch.now.table.shared.table_id script.now pass }
    requires keep { AllKeep script.now (voices_of pass.seat) (seen_of pass.seat) }
    requires back { IsBack latch.now.table.shared.table_id script.now back }
    ensures pass { IsHostPass latch.now.table.shared.table_id script.now result }
    ensures keep { AllKeep script.now (voices_of result.seat) (seen_of result.seat) }
    ensures voices { voices_of result.seat ≡ voices_of pass.seat ++ (back.conn.0 + 1) ∷ [] }
    ensures begins { Begins (seen_of pass.seat) (seen_of result.seat) }
{
    let Back {
        conn: _,
        pass: other,
        agent: _,
    } = back;
    latch.meet(pass, other)
}

/// Takes in all these passes.
pub fn take_all(
    latch: &Latch<State>,
    pass: Pass<State>,
    script: &Script,
    here: Vec<Back>,
) -> Pass<State>
    requires pass { IsHostPass latch.now.table.shared.table_id script.now pass }
    requires keep { AllKeep script.now (voices_of pass.seat) (seen_of pass.seat) }
    requires all { AllBack latch.now.table.shared.table_id script.now here.items }
    ensures pass { IsHostPass latch.now.table.shared.table_id script.now result }
    ensures keep { AllKeep script.now (voices_of result.seat) (seen_of result.seat) }
    ensures voices { (x : ℕ) → has x (voices_of result.seat) ≡ (has x (voices_of pass.seat) || has x (voices here.items)) }
    ensures begins { Begins (seen_of pass.seat) (seen_of result.seat) }
{
    let mut pass = pass;
    let mut here = here;
    while let Some(back) = here.pop() {
        pass = take_in(latch, pass, script, back);
    }
    pass
}

/// Joins all threads, and takes in the passes that they bring back. It waits for them.
pub fn join_all<R: Threads>(
    rt: &R,
    latch: &Latch<State>,
    pass: Pass<State>,
    script: &Script,
    children: Vec<PromisedHandle<Back, Driven>>,
) -> Pass<State>
    requires pass { IsHostPass latch.now.table.shared.table_id script.now pass }
    requires keep { AllKeep script.now (voices_of pass.seat) (seen_of pass.seat) }
    requires all { AllPromised latch.now.table.shared.table_id script.now children.items }
    ensures pass { IsHostPass latch.now.table.shared.table_id script.now result }
    ensures keep { AllKeep script.now (voices_of result.seat) (seen_of result.seat) }
    ensures voices { (x : ℕ) → has x (voices_of result.seat) ≡ (has x (voices_of pass.seat) || has x (promised children.items)) }
    ensures begins { Begins (seen_of pass.seat) (seen_of result.seat) }
{
    let mut pass = pass;
    let mut children = children;
    while let Some(child) = children.pop() {
        let back = child.join(rt);
        pass = take_in(latch, pass, script, back);
    }
    pass
}
