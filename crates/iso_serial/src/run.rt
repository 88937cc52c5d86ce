//! The run of a script on one thread.
ghost use Rattle.std.specs.Prelude.{◌≡◌, [], None, Some, length, true, IfOk};
ghost use Rattle.iso_conduct.specs.Legal.{AreGuarded, IsFinished, IsLegal};
ghost use Rattle.iso_conduct.specs.Schedule.{Scheduled};
ghost use Rattle.iso_script.specs.Sound.{IsSound};
ghost use Rattle.iso_serial.specs.Seeds.{IsScheduled};
ghost use Rattle.iso_serial.specs.UnderWay.{AreRested};
ghost use Rattle.iso_state.specs.Stands.{StandsFor, world_of};

use crate::agents::new_agents;
use crate::drawing::take_drawn_turn;
use crate::turns::{take_first_turn, take_turn};
use crate::words::{generator, next_of};
use iso_agent::Agent;
use iso_director::Director;
use iso_history::History;
use iso_script::Script;
use iso_state::Parts;
use iso_types::Memory;
use std::alloc::Global;

/// Turns from the empty history to Finish.
fn run_turns(alloc: Global, script: &Script, parts: &mut Parts, agents: &mut Vec<Agent>)
    requires stands { StandsFor parts.old }
    requires head { parts.old.head ≡ script.now.head }
    requires sound { IsSound script.now }
    requires none { parts.old.history.items ≡ [] }
    requires rested { AreRested script.now parts.old.history.items agents.old.items }
    ensures stands { StandsFor parts.new }
    ensures head { parts.new.head ≡ parts.old.head }
    ensures legal { IsLegal script.now parts.new.history.items }
    ensures finished { IsFinished parts.new.history.items }
    ensures scheduled { Scheduled script.now.head script.now.lines None parts.new.history.items }
{
    let mut director = Director::new(alloc);
    take_first_turn(script, parts, &mut director);
    let mut last = 0;
    'turns: while !parts.pace.finished {
        last = take_turn(alloc, script, parts, &mut director, agents, last);
    }
}

/// Turns from the empty history to Finish, by the words of a seed.
fn run_seeded(alloc: Global, script: &Script, parts: &mut Parts, agents: &mut Vec<Agent>, seed: u64)
    requires stands { StandsFor parts.old }
    requires head { parts.old.head ≡ script.now.head }
    requires sound { IsSound script.now }
    requires none { parts.old.history.items ≡ [] }
    requires rested { AreRested script.now parts.old.history.items agents.old.items }
    ensures stands { StandsFor parts.new }
    ensures head { parts.new.head ≡ parts.old.head }
    ensures legal { IsLegal script.now parts.new.history.items }
    ensures finished { IsFinished parts.new.history.items }
    ensures scheduled { IsScheduled script.now.head script.now.lines (Some seed) parts.new.history.items }
{
    let mut director = Director::new(alloc);
    let mut words = generator(seed);
    'draws: while !parts.pace.finished {
        let word = next_of(&mut words);
        take_drawn_turn(alloc, script, parts, &mut director, agents, word);
    }
}

/// Turns from the empty history to Finish, with a seed or without one.
fn run_by(
    alloc: Global,
    script: &Script,
    parts: &mut Parts,
    agents: &mut Vec<Agent>,
    seed: Option<u64>,
)
    requires stands { StandsFor parts.old }
    requires head { parts.old.head ≡ script.now.head }
    requires sound { IsSound script.now }
    requires none { parts.old.history.items ≡ [] }
    requires rested { AreRested script.now parts.old.history.items agents.old.items }
    ensures stands { StandsFor parts.new }
    ensures head { parts.new.head ≡ parts.old.head }
    ensures legal { IsLegal script.now parts.new.history.items }
    ensures finished { IsFinished parts.new.history.items }
    ensures scheduled { IsScheduled script.now.head script.now.lines seed parts.new.history.items }
{
    match seed {
        None => run_turns(alloc, script, parts, agents),
        Some(seed) => run_seeded(alloc, script, parts, agents, seed),
    }
}

/// Runs a script on one thread, until Finish stands. Without a seed the dispatcher makes entry 0, and after each entry the first
/// able actor after its maker, in the circle of the dispatcher and the connections in their order, makes the next one. With a seed
/// a word is drawn for each entry, also where one actor alone is able: of the able actors, the dispatcher first and then the
/// connections in their order, the one at the place of the word modulo their number makes it; the words are those of rand_pcg's
/// `Lcg64Xsh32::seed_from_u64(seed)`. So a script and a seed have one history, as `one_history_is_seeded` says. `Memory` comes only
/// before the first entry, where there is none for the state; later, whoever finds none stops. A turn asks each actor once at most
/// without a seed; with one it asks each whether it is able, and the agents up to the chosen one once more. (This project's own.)
pub fn run_serial(alloc: Global, script: &Script, seed: Option<u64>) -> Result<History, Memory>
    requires sound { IsSound script.now }
    ensures legal { IfOk result (λ h. IsLegal script.now h.items) }
    ensures finished { IfOk result (λ h. IsFinished h.items) }
    ensures scheduled { IfOk result (λ h. IsScheduled script.now.head script.now.lines seed h.items) }
    ensures guarded { IfOk result (λ h. AreGuarded script.now h.items) }
{
    let mut agents = new_agents(alloc, script.head.conns.len() as u8)?;
    let mut parts = Parts::new(alloc, &script.head)?;
    run_by(alloc, script, &mut parts, &mut agents, seed);
    Ok(parts.history)
}
