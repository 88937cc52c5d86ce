//! Turns by a generator's words: each entry is made by one of the actors that can act, the one at the place that the word gives.
ghost use Rattle.std.specs.Prelude.{◌≡◌, ◌≤◌, ◌<◌, ◌-◌, ◌%◌, ◌==◌, ◌&&◌, false, true, filter, if◌then◌else◌, length, slice_get, vec_len, IfSome, Some};
ghost use Rattle.std.specs.List.{list_any};
ghost use Rattle.std.specs.Option.{option_map};
ghost use Rattle.iso_conduct.specs.Schedule.{actors, drawn};
ghost use Rattle.iso_director.specs.Director.{HasTaken};
ghost use Rattle.iso_history.specs.declared.entry.Who.TheVariants.{Dispatcher};
ghost use Rattle.iso_script.specs.Sound.{IsSound};
ghost use Rattle.iso_serial.specs.Rounds.{HasMade, agent, agents_of, could_act};
ghost use Rattle.iso_serial.specs.Seeds.{HasDrawn, actor_at};
ghost use Rattle.iso_serial.specs.UnderWay.{AreRested};
ghost use Rattle.iso_state.specs.Stands.{StandsFor, world_of};

use crate::agents::try_agent;
use crate::turns::try_director;
use iso_agent::Agent;
use iso_director::Director;
use iso_pace::able;
use iso_script::Script;
use iso_state::Parts;
use iso_types::Conn;
use std::alloc::Global;

/// 1 for an actor that can act, else 0.
fn one_if(able: bool) -> usize
    ensures { result ≡ (if able then 1 else 0) }
{
    if able { 1 } else { 0 }
}

/// Whether an actor is the one at a place among those that can act, this one and those behind it.
fn is_first(able: bool, place: usize) -> bool
    ensures { result ≡ (able && (place == 0)) }
{
    able && place == 0
}

/// The place among those behind an actor that is not the one.
fn behind(able: bool, place: usize) -> usize
    requires { able ≡ true → 0 < place }
    ensures { result ≡ place - (if able then 1 else 0) }
{
    if able { place - 1 } else { place }
}

/// Whether the agent at this place could make an entry.
fn is_able(script: &Script, parts: &Parts, at: usize) -> bool
    requires stands { StandsFor parts.now }
    requires head { parts.now.head ≡ script.now.head }
    requires within { at < length script.now.head.conns }
    ensures { result ≡ could_act script.now parts.now.history.items (agent at) }
{
    able(parts, Conn(at as u8))
}

/// How many agents could make an entry.
fn count_able(script: &Script, parts: &Parts) -> usize
    requires stands { StandsFor parts.now }
    requires head { parts.now.head ≡ script.now.head }
    ensures count { result ≡ length (filter (could_act script.now parts.now.history.items) (agents_of script.now.head)) }
    ensures few { result ≤ length script.now.head.conns }
{
    let mut count = 0;
    for at in 0..script.head.conns.len() {
        count += one_if(is_able(script, parts, at));
    }
    count
}

/// The agent at a place among those that could make an entry.
fn able_at(script: &Script, parts: &Parts, place: usize) -> Option<usize>
    requires stands { StandsFor parts.now }
    requires head { parts.now.head ≡ script.now.head }
    ensures found { option_map agent result ≡ slice_get (filter (could_act script.now parts.now.history.items) (agents_of script.now.head)) place }
    ensures within { IfSome result (λ at. at < length script.now.head.conns) }
{
    let mut left = place;
    for at in 0..script.head.conns.len() {
        let able = is_able(script, parts, at);
        if is_first(able, left) {
            return Some(at);
        }
        left = behind(able, left);
    }
    None
}

/// The place of a word among so many.
fn place_of(word: u32, count: usize) -> usize
    requires { 0 < count }
    ensures { result ≡ word % count }
{
    word as usize % count
}

/// Whom a word picks among the actors that could make an entry: the agent at a place, or None, the dispatcher. `leads`: the
/// dispatcher could make one.
fn choose(script: &Script, parts: &Parts, leads: bool, word: u32) -> Option<usize>
    requires stands { StandsFor parts.now }
    requires head { parts.now.head ≡ script.now.head }
    requires leads { leads ≡ could_act script.now parts.now.history.items Dispatcher }
    requires some { list_any (could_act script.now parts.now.history.items) (actors script.now.head) ≡ true }
    ensures chosen { drawn word (filter (could_act script.now parts.now.history.items) (actors script.now.head)) ≡ Some (actor_at result) }
    ensures within { IfSome result (λ at. at < length script.now.head.conns) }
{
    let count = count_able(script, parts) + one_if(leads);
    let place = place_of(word, count);
    if is_first(leads, place) {
        return None;
    }
    match able_at(script, parts, behind(leads, place)) {
        Some(at) => Some(at),
        None => unreachable!(),
    }
}

/// A turn of the dispatcher, which could make an entry.
fn lead(script: &Script, parts: &mut Parts, director: &mut Director)
    requires stands { StandsFor parts.old }
    requires head { parts.old.head ≡ script.now.head }
    requires sound { IsSound script.now }
    requires taken { HasTaken script.now parts.old.history.items director.old }
    requires able { could_act script.now parts.old.history.items Dispatcher ≡ true }
    ensures stands { StandsFor parts.new }
    ensures head { parts.new.head ≡ parts.old.head }
    ensures taken { HasTaken script.now parts.new.history.items director.new }
    ensures made { HasMade script.now parts.old.history.items parts.new.history.items Dispatcher }
{
    if !try_director(script, parts, director) {
        unreachable!();
    }
}

/// A turn of the agent at this place, which could make an entry.
fn go(alloc: Global, script: &Script, parts: &mut Parts, agents: &mut Vec<Agent>, at: usize)
    requires stands { StandsFor parts.old }
    requires head { parts.old.head ≡ script.now.head }
    requires sound { IsSound script.now }
    requires rested { AreRested script.now parts.old.history.items agents.old.items }
    requires within { at < vec_len agents.old }
    requires able { could_act script.now parts.old.history.items (agent at) ≡ true }
    ensures stands { StandsFor parts.new }
    ensures head { parts.new.head ≡ parts.old.head }
    ensures rested { AreRested script.now parts.new.history.items agents.new.items }
    ensures made { HasMade script.now parts.old.history.items parts.new.history.items (agent at) }
{
    if !try_agent(alloc, script, parts, agents, at) {
        unreachable!();
    }
}

/// The next turn, where the history has not finished: of the actors that can act, the dispatcher first and then the agents in
/// their order, the one at the place `word` modulo their number makes an entry. Each actor is asked once, and the agents up to
/// that one once more.
pub fn take_drawn_turn(
    alloc: Global,
    script: &Script,
    parts: &mut Parts,
    director: &mut Director,
    agents: &mut Vec<Agent>,
    word: u32,
)
    requires stands { StandsFor parts.old }
    requires head { parts.old.head ≡ script.now.head }
    requires sound { IsSound script.now }
    requires taken { HasTaken script.now parts.old.history.items director.old }
    requires rested { AreRested script.now parts.old.history.items agents.old.items }
    requires goes_on { (world_of parts.old).pace.finished ≡ false }
    ensures stands { StandsFor parts.new }
    ensures head { parts.new.head ≡ parts.old.head }
    ensures taken { HasTaken script.now parts.new.history.items director.new }
    ensures rested { AreRested script.now parts.new.history.items agents.new.items }
    ensures drawn { HasDrawn script.now parts.old.history.items parts.new.history.items word }
{
    let leads = director.able(script, parts);
    match choose(script, parts, leads, word) {
        None => lead(script, parts, director),
        Some(at) => go(alloc, script, parts, agents, at),
    }
}
