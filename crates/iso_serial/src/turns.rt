//! Turns: entry 0 is the dispatcher's, each further one that of the first able actor after the maker of the one before.
ghost use Rattle.std.specs.Prelude.{◌≡◌, ◌≤◌, [], false, find, length, vec_len, Some};
ghost use Rattle.iso_conduct.specs.Schedule.{after_actor};
ghost use Rattle.iso_director.specs.Director.{HasTaken};
ghost use Rattle.iso_history.specs.declared.entry.Who.TheVariants.{Dispatcher};
ghost use Rattle.iso_script.specs.Sound.{IsSound};
ghost use Rattle.iso_serial.specs.Rounds.{HasMade, HasTried, actor, could_act};
ghost use Rattle.iso_serial.specs.UnderWay.{AreRested};
ghost use Rattle.iso_state.specs.Stands.{StandsFor, world_of};

use crate::agents::ask_agents;
use iso_agent::Agent;
use iso_director::{Director, Led};
use iso_script::Script;
use iso_state::Parts;
use std::alloc::Global;

/// A turn of the dispatcher: whether it made an entry.
pub fn try_director(script: &Script, parts: &mut Parts, director: &mut Director) -> bool
    requires stands { StandsFor parts.old }
    requires head { parts.old.head ≡ script.now.head }
    requires sound { IsSound script.now }
    requires taken { HasTaken script.now parts.old.history.items director.old }
    ensures stands { StandsFor parts.new }
    ensures head { parts.new.head ≡ parts.old.head }
    ensures taken { HasTaken script.now parts.new.history.items director.new }
    ensures tried { HasTried script.now parts.old.history.items parts.new.history.items Dispatcher result }
{
    matches!(director.make(script, parts), Led::Ran)
}

/// Entry 0, the dispatcher's.
pub fn take_first_turn(script: &Script, parts: &mut Parts, director: &mut Director)
    requires stands { StandsFor parts.old }
    requires head { parts.old.head ≡ script.now.head }
    requires sound { IsSound script.now }
    requires taken { HasTaken script.now parts.old.history.items director.old }
    requires none { parts.old.history.items ≡ [] }
    ensures stands { StandsFor parts.new }
    ensures head { parts.new.head ≡ parts.old.head }
    ensures taken { HasTaken script.now parts.new.history.items director.new }
    ensures made { HasMade script.now parts.old.history.items parts.new.history.items Dispatcher }
{
    if !try_director(script, parts, director) {
        unreachable!();
    }
}

/// The next turn, where the history has not finished: the voice of the actor that made an entry, given that of the last one. The
/// dispatcher's voice is 0, that of connection c is c + 1. Each actor is asked once at most.
pub fn take_turn(
    alloc: Global,
    script: &Script,
    parts: &mut Parts,
    director: &mut Director,
    agents: &mut Vec<Agent>,
    last: usize,
) -> usize
    requires stands { StandsFor parts.old }
    requires head { parts.old.head ≡ script.now.head }
    requires sound { IsSound script.now }
    requires taken { HasTaken script.now parts.old.history.items director.old }
    requires rested { AreRested script.now parts.old.history.items agents.old.items }
    requires goes_on { (world_of parts.old).pace.finished ≡ false }
    requires within { last ≤ vec_len agents.old }
    ensures stands { StandsFor parts.new }
    ensures head { parts.new.head ≡ parts.old.head }
    ensures taken { HasTaken script.now parts.new.history.items director.new }
    ensures rested { AreRested script.now parts.new.history.items agents.new.items }
    ensures made { HasMade script.now parts.old.history.items parts.new.history.items (actor result) }
    ensures whose { find (could_act script.now parts.old.history.items) (after_actor script.now.head (actor last)) ≡ Some (actor result) }
    ensures within { result ≤ vec_len agents.new }
{
    let count = agents.len();
    if let Some(at) = ask_agents(alloc, script, parts, agents, last, count) {
        return at + 1;
    }
    if try_director(script, parts, director) {
        return 0;
    }
    match ask_agents(alloc, script, parts, agents, 0, last) {
        Some(at) => at + 1,
        None => unreachable!(),
    }
}
