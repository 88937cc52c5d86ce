//! The run on threads.
ghost use Rattle.std.specs.Thread.{IsSync};
ghost use Rattle.std.specs.Prelude.{◌≡◌, ◌+◌, ◌<◌, ◌≤◌, [], vec_len, vec_capacity, IfOk};
ghost use Rattle.iso_conduct.specs.Legal.{AreGuarded, IsFinished, IsLegal};
ghost use Rattle.iso_script.specs.Sound.{IsSound};
ghost use Rattle.iso_threads.specs.Backs.{CameBack, IsBack};
ghost use Rattle.iso_threads.specs.Passes.{AreReady, HasMet};

use crate::backs::{Back, Driven, undriven};
use crate::flags::Flags;
use crate::lead::{join_all, lead, take_all};
use iso_agent::Bells;
use iso_history::History;
use iso_latch::{Latch, Pass};
use iso_script::Script;
use iso_state::State;
use iso_types::{Conn, Gate, Memory};
use std::alloc::{AllocError, Global};
use std::snapshot::Snapshot;
use std::sync::Wait;
use std::thread;
use std::thread::Threads;

/// Drives each agent in a thread of its own, or in the dispatcher's where none could be started, and leads the run: the passes are
/// met. It may wait. `Memory` comes only before the first thread, where there is none for its three lists.
fn drive_all<R: Threads + Wait + Sync, G: Gate + Sync>(
    rt: &R,
    alloc: Global,
    latch: &Latch<State>,
    pass: Pass<State>,
    passes: Vec<Pass<State>>,
    script: &Script,
    gate: &G,
    bells: &Bells,
    flags: &Flags,
) -> Result<Pass<State>, Memory>
    requires sound { IsSound script.now }
    requires ready { AreReady latch.now.table.shared.table_id script.now pass passes.items }
    requires places { vec_len bells.now.places ≡ vec_len passes + 1 }
    ensures { IfOk result (λ r. HasMet latch.now.table.shared.table_id script.now (vec_len passes) r) }
{
    let count = passes.len();
    let here = Vec::with_capacity(alloc, count)?;
    let there = Vec::with_capacity(alloc, count)?;
    let children = Vec::with_capacity(alloc, count)?;
    Ok(thread::scope(
        thread::scope_env(),
        rt,
        move |scope| -> Pass<State>
            requires { AreReady latch.now.table.shared.table_id script.now pass passes.items
                × (vec_len bells.now.places ≡ vec_len passes + 1) × (here.items ≡ []) × (there.items ≡ []) × (children.items ≡ [])
                × (vec_len passes ≤ vec_capacity here) × (vec_len passes ≤ vec_capacity there) × (vec_len passes ≤ vec_capacity children)
                × IsSound script.now × IsSync R.row × IsSync G.row }
            ensures { HasMet latch.entry.now.table.shared.table_id script.entry.now (vec_len passes) result }
        {
            let place = passes.len() as u8;
            let mut passes = passes;
            let mut here = here;
            let mut children = children;
            while let Some(one) = passes.pop() {
                let conn = Conn(passes.len() as u8);
                let back = undriven(latch, script, conn, one);
                let promise = Driven {
                    back: Snapshot::of(&back),
                    script: Snapshot::of(script),
                };
                let started = scope.spawn_with(
                    promise,
                    move || -> Back
                        requires { IsBack latch.now.table.shared.table_id script.now back × (back.conn.0 < vec_len bells.now.places)
                            × (back.pass.seat.table_id ≡ latch.now.table.shared.table_id)
                            × IsSound script.now }
                        ensures { CameBack back script.entry.now result }
                    { back.drive(rt, alloc, latch, script, gate, bells, flags) },
                );
                match started {
                    Ok(child) => children.push_reserved(child),
                    Err(refused) => {
                        flags.set(conn);
                        here.push_reserved((refused.value)());
                    }
                }
            }
            let (pass, here) = lead(
                rt, alloc, latch, pass, script, gate, bells, place, here, there,
            );
            let pass = take_all(latch, pass, script, here);
            join_all(rt, latch, pass, script, children)
        },
    ))
}

/// As `run_threads`, with the project's own error.
fn run_agents<R: Threads + Wait + Sync, G: Gate + Sync>(
    rt: &R,
    alloc: Global,
    script: &Script,
    gate: &G,
) -> Result<History, Memory>
    requires sound { IsSound script.now }
    ensures legal { IfOk result (λ h. IsLegal script.now h.items) }
    ensures guarded { IfOk result (λ h. AreGuarded script.now h.items) }
    ensures finished { IfOk result (λ h. IsFinished h.items) }
{
    let conns = script.head.conns.len() as u8;
    let bells = Bells::new(alloc, conns)?;
    let flags = Flags::new(alloc, conns)?;
    let first = State::new(alloc, &script.head)?;
    let (latch, pass) = Latch::new(alloc, first, u32::from(conns) + 1)?;
    let (pass, passes) = latch.deal(alloc, pass, u32::from(conns))?;
    let pass = drive_all(
        rt, alloc, &latch, pass, passes, script, gate, &bells, &flags,
    )?;
    Ok(latch.close(pass).into_history())
}

/// Runs a script on threads: an agent for each connection on a thread of its own, and the dispatcher on the caller's; an agent
/// for which no thread can be started takes its turns on the caller's, too. Whatever order their holds of the state come in, the
/// history is legal and guarded, and ends with Finish. `AllocError` comes only before the first entry, where there is no memory
/// for the state and the lists of the run; later, whoever finds none stops. It may wait. Behind an entry those are woken whom it
/// has made able. (This project's own.)
pub fn run_threads<R: Threads + Wait + Sync, G: Gate + Sync>(
    rt: &R,
    alloc: Global,
    script: &Script,
    gate: &G,
) -> Result<History, AllocError>
    requires sound { IsSound script.now }
    ensures legal { IfOk result (λ h. IsLegal script.now h.items) }
    ensures guarded { IfOk result (λ h. AreGuarded script.now h.items) }
    ensures finished { IfOk result (λ h. IsFinished h.items) }
{
    match run_agents(rt, alloc, script, gate) {
        Ok(history) => Ok(history),
        Err(_) => Err(AllocError),
    }
}
