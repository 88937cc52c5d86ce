//! The agents of a run, one a connection.
ghost use Rattle.std.specs.Prelude.{◌≡◌, ◌<◌, ◌≤◌, length, vec_len, IfOk, IfSome};
ghost use Rattle.iso_agent.specs.Turns.{is_ran};
ghost use Rattle.iso_script.specs.Sound.{IsSound};
ghost use Rattle.iso_serial.specs.Rounds.{HasAsked, HasTried, agent, agents_between};
ghost use Rattle.iso_serial.specs.UnderWay.{AreNew, AreRested};
ghost use Rattle.iso_state.specs.Stands.{StandsFor};

use iso_agent::{Agent, Turned};
use iso_script::Script;
use iso_state::Parts;
use iso_types::{Conn, Memory};
use std::alloc::Global;

/// An agent for each of so many connections; `Memory` where there is none for the list.
pub fn new_agents(alloc: Global, conns: u8) -> Result<Vec<Agent>, Memory>
    ensures len { IfOk result (λ v. vec_len v ≡ conns) }
    ensures fresh { IfOk result (λ v. AreNew v.items) }
{
    let mut agents = Vec::with_capacity(alloc, usize::from(conns))?;
    for conn in 0..conns {
        agents.push(Agent::new(Conn(conn)))?;
    }
    Ok(agents)
}

/// Whether the agent made an entry.
fn has_run(turned: Turned) -> bool
    ensures { result ≡ is_ran turned }
{
    matches!(turned, Turned::Ran)
}

/// A turn of the agent at this place, and the work that it leaves: whether it made an entry.
pub fn try_agent(
    alloc: Global,
    script: &Script,
    parts: &mut Parts,
    agents: &mut Vec<Agent>,
    at: usize,
) -> bool
    requires stands { StandsFor parts.old }
    requires head { parts.old.head ≡ script.now.head }
    requires sound { IsSound script.now }
    requires rested { AreRested script.now parts.old.history.items agents.old.items }
    requires within { at < vec_len agents.old }
    ensures stands { StandsFor parts.new }
    ensures head { parts.new.head ≡ parts.old.head }
    ensures rested { AreRested script.now parts.new.history.items agents.new.items }
    ensures tried { HasTried script.now parts.old.history.items parts.new.history.items (agent at) result }
{
    let agent = &mut agents[at];
    let turned = agent.make(alloc, script, parts);
    agent.settle(alloc);
    has_run(turned)
}

/// Asks the agents from a place up to another, in their order, until one makes an entry: the place of that one; None where none
/// of them is able, and then nothing is appended.
pub fn ask_agents(
    alloc: Global,
    script: &Script,
    parts: &mut Parts,
    agents: &mut Vec<Agent>,
    from: usize,
    to: usize,
) -> Option<usize>
    requires stands { StandsFor parts.old }
    requires head { parts.old.head ≡ script.now.head }
    requires sound { IsSound script.now }
    requires rested { AreRested script.now parts.old.history.items agents.old.items }
    requires order { from ≤ to }
    requires within { to ≤ vec_len agents.old }
    ensures stands { StandsFor parts.new }
    ensures head { parts.new.head ≡ parts.old.head }
    ensures rested { AreRested script.now parts.new.history.items agents.new.items }
    ensures asked { HasAsked script.now parts.old.history.items parts.new.history.items (agents_between script.now.head from to) result }
    ensures within { IfSome result (λ at. at < to) }
{
    for at in from..to {
        if try_agent(alloc, script, parts, agents, at) {
            return Some(at);
        }
    }
    None
}
