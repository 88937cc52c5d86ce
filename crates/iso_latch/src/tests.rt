ghost use Rattle.std.specs.Prelude.{◌≡◌, ◌+◌, ◌<◌, true, List, [], ◌∷◌, length, IsTrue, IfSome};
ghost use Rattle.iso_history.specs.Voices.{voice};
ghost use Rattle.iso_latch.specs.Dealt.{Dealt};
ghost use Rattle.iso_latch.specs.Seen.{has, own};
ghost use Rattle.iso_latch.specs.Sent.{Promised, SamePass};
ghost use Rattle.iso_latch.specs.Told.{own_of, seen_of, voices_of};

mod log;

use crate::{Latch, Pass};
use iso_history::{Act, Entry, Who};
use iso_types::{Conn, Items};
use log::{Log, hold};
use std::alloc::Global;
use std::snapshot::Snapshot;
use std::sync::Wait;
use std::test::Fail;
use std::thread;
use std::thread::{Promise, PromisedHandle, Threads};

const HOLDS: u32 = 1000;

/// Many holds, each with one entry of the same author, numbered from 0. False where memory ran out.
fn many<R: Wait>(
    rt: &R,
    latch: &Latch<Log>,
    pass: Pass<Log>,
    who: Who,
    count: u32,
) -> (Pass<Log>, bool)
    requires of { pass.seat.table_id ≡ latch.now.table.shared.table_id }
    requires voice { has (voice who) (voices_of pass.seat) ≡ true }
    ensures of { result.0.seat.table_id ≡ pass.seat.table_id }
    ensures voices { voices_of result.0.seat ≡ voices_of pass.seat }
    ensures own { IsTrue result.1 → length (own_of result.0.seat) ≡ length (own_of pass.seat) + count }
{
    let mut pass = pass;
    for number in 0..count {
        let act = Act::Undo { number };
        let (next, added) = hold(rt, latch, pass, Entry { who, act });
        pass = next;
        if !added {
            return (pass, false);
        }
    }
    (pass, true)
}

/// Two threads make as many holds each. With all entries, each voice has as many in the history.
fn both<R: Threads + Wait + Sync>(rt: &R, alloc: Global, count: u32) -> Option<Log>
    ensures dispatcher { IfSome result (λ s. length (own (0 ∷ []) s.entries) ≡ count) }
    ensures agent { IfSome result (λ s. length (own (1 ∷ []) s.entries) ≡ count) }
{
    let Ok((latch, pass)) = Latch::new(alloc, Log::new(alloc), 2) else {
        return None;
    };
    let (mine, theirs) = latch.split(pass, 1);
    let shared = &latch;
    let (a, b) = thread::join(
        rt,
        move || -> (Pass<Log>, bool)
            requires { (mine.seat.table_id ≡ shared.now.table.shared.table_id) × (voices_of mine.seat ≡ 0 ∷ []) × (seen_of mine.seat ≡ []) }
            ensures of { (result.0.seat.table_id ≡ mine.seat.table_id) × (voices_of result.0.seat ≡ 0 ∷ []) }
            ensures own { IsTrue result.1 → length (own (0 ∷ []) (seen_of result.0.seat)) ≡ count }
        { many(rt, shared, mine, Who::Dispatcher, count) },
        move || -> (Pass<Log>, bool)
            requires { (theirs.seat.table_id ≡ shared.now.table.shared.table_id) × (voices_of theirs.seat ≡ 1 ∷ []) × (seen_of theirs.seat ≡ []) }
            ensures of { (result.0.seat.table_id ≡ theirs.seat.table_id) × (voices_of result.0.seat ≡ 1 ∷ []) }
            ensures own { IsTrue result.1 → length (own (1 ∷ []) (seen_of result.0.seat)) ≡ count }
        { many(rt, shared, theirs, Who::Agent(Conn(0)), count) },
    );
    if !(a.1 && b.1) {
        return None;
    }
    let pass = latch.meet(a.0, b.0);
    Some(latch.close(pass))
}

/// A pass that is driven by a thread comes back, with its voices.
#[derive(Drop)]
struct Driven(Snapshot<Pass<Log>>);

impl Promise<Pass<Log>> for Driven {
    ghost use Rattle.iso_latch.specs.Sent.{SamePass};

    ghost kept_by = { λ p r. SamePass p.0.value r };
}

fn drive<R: Wait>(rt: &R, latch: &Latch<Log>, pass: Pass<Log>, conn: u8, count: u32) -> Pass<Log>
    requires of { pass.seat.table_id ≡ latch.now.table.shared.table_id }
    requires voice { voices_of pass.seat ≡ (conn + 1) ∷ [] }
    ensures { SamePass pass result }
{
    many(rt, latch, pass, Who::Agent(Conn(conn)), count).0
}

/// Takes the passes back, in order.
fn join_all<R: Threads>(
    rt: &R,
    alloc: Global,
    latch: &Latch<Log>,
    children: Vec<PromisedHandle<Pass<Log>, Driven>>,
) -> Option<Vec<Pass<Log>>>
    requires { Promised (λ d. d.0.value) latch.now.table.shared.table_id (length children.items) children.items }
    ensures { IfSome result (λ r. (length r.items ≡ length children.items) × Dealt latch.now.table.shared.table_id r.items) }
{
    let mut children = children;
    let mut passes = Vec::new(alloc);
    while let Some(child) = children.pop() {
        passes.push(child.join(rt)).ok()?;
    }
    Some(passes)
}

/// Drives each pass in a thread of its own.
fn drive_all<R: Threads + Wait + Sync>(
    rt: &R,
    alloc: Global,
    latch: &Latch<Log>,
    passes: Vec<Pass<Log>>,
    count: u32,
) -> Option<Vec<Pass<Log>>>
    requires dealt { Dealt latch.now.table.shared.table_id passes.items }
    requires small { length passes.items < 32 }
    ensures { IfSome result (λ r. (length r.items ≡ length passes.items) × Dealt latch.now.table.shared.table_id r.items) }
{
    thread::scope(
        thread::scope_env(),
        rt,
        move |scope| -> Option<Vec<Pass<Log>>>
            requires { Dealt latch.now.table.shared.table_id passes.items × (length passes.items < 32) }
            ensures { IfSome result (λ r. (length r.items ≡ length passes.items) × Dealt latch.entry.now.table.shared.table_id r.items) }
        {
            let mut passes = passes;
            let mut children = Vec::new(alloc);
            while let Some(one) = passes.pop() {
                let conn = passes.len() as u8;
                let promise = Driven(Snapshot::of(&one));
                let started = scope.spawn_with(
                    promise,
                    move || -> Pass<Log>
                        requires { (one.seat.table_id ≡ latch.now.table.shared.table_id) × (voices_of one.seat ≡ (conn + 1) ∷ []) }
                        ensures { SamePass one result }
                    { drive(rt, latch, one, conn, count) },
                );
                children.push(started.ok()?).ok()?;
            }
            join_all(rt, alloc, latch, children)
        },
    )
}

/// The number of entries of each voice, where each voice's are numbered in order.
fn counts(entries: &Items<Entry>) -> Option<[u32; 9]> {
    let mut next = [0u32; 9];
    for entry in entries.as_slice() {
        let voice = match entry.who {
            Who::Dispatcher => 0,
            Who::Agent(conn) => usize::from(conn.0).wrapping_add(1),
        };
        let Act::Undo { number } = entry.act else {
            return None;
        };
        if voice >= 9 || number != next[voice] {
            return None;
        }
        next[voice] = next[voice].wrapping_add(1);
    }
    Some(next)
}

#[test]
fn two_threads_hold_in_turn(rt: HostRuntime) -> Result<(), Fail> {
    let Some(log) = both(&rt, rt.alloc(), HOLDS) else {
        panic!(rt; "no memory")
    };
    assert_eq!(rt; log.entries.len(), 2000);
    assert!(rt; counts(&log.entries) == Some([1000, 1000, 0, 0, 0, 0, 0, 0, 0]));
    Ok(())
}

#[test]
fn eight_passes_are_dealt_and_gathered(rt: HostRuntime) -> Result<(), Fail> {
    let alloc = rt.alloc();
    let Ok((latch, pass)) = Latch::new(alloc, Log::new(alloc), 9) else {
        panic!(rt; "no memory")
    };
    let Ok((pass, passes)) = latch.deal(alloc, pass, 8) else {
        panic!(rt; "no memory")
    };
    let Some(passes) = drive_all(&rt, alloc, &latch, passes, HOLDS) else {
        panic!(rt; "no memory, or no thread")
    };
    let pass = latch.gather(pass, passes);
    let log = latch.close(pass);
    assert_eq!(rt; log.entries.len(), 8000);
    assert!(rt; counts(&log.entries) == Some([0, 1000, 1000, 1000, 1000, 1000, 1000, 1000, 1000]));
    Ok(())
}
