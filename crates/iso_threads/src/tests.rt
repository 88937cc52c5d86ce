ghost use Rattle.std.specs.Prelude.{◌≤◌, length};

use crate::run_threads;
use crossbeam_utils::atomic::AtomicCell;
use iso_history::{Act, History, Who};
use iso_script::Script;
use iso_types::{Conn, Gate, OpenGate, Place};
use std::alloc::Global;
use std::sync::Wait;
use std::test::Fail;
use std::thread;
use std::thread::Threads;

// How often a held agent looks before it gives up, and the test fails.
const TURNS: u32 = 10_000_000;

// A and B each look at both rows, which C has changed and not committed, and so judge what they were before.
const HELD: &[u8] =
    b"DB2ISO 1\nTABLE T (ID INTEGER, V INTEGER)\nROW T (1, 100)\nROW T (2, 200)\nCONNECT A\nCONNECT B\nCONNECT C\nBEGIN\nC: UPDATE T SET V = 0\nA: SELECT V FROM T WHERE ID = 1\n& B: SELECT V FROM T WHERE ID = 2\nEND\n";

// A waits for B, and then B for A, while C reads: whatever order the threads take, there is one circle.
const DEADLOCK: &[u8] =
    b"DB2ISO 1\nTABLE T (N INTEGER)\nTABLE S (N INTEGER)\nROW T (1)\nROW S (1)\nCONNECT A\nCONNECT B\nCONNECT C\nBEGIN\nA: UPDATE T SET N = 2\nB: UPDATE S SET N = 2\nA: UPDATE S SET N = 3\n& B: UPDATE T SET N = 3\n& C: SELECT N FROM T WITH UR\nEND\n";

/// Runs a script, where it is read.
fn run<R: Threads + Wait + Sync, G: Gate + Sync>(
    rt: &R,
    alloc: Global,
    bytes: &[u8],
    gate: &G,
) -> Option<History>
    requires { length bytes.now ≤ 1048576 }
{
    let script = Script::read(alloc, bytes).ok()?;
    run_threads(rt, alloc, &script, gate).ok()
}

/// What is looked for among the entries of a history.
#[derive(Clone, Copy, PartialEq, Eq)]
enum Kind {
    Look,
    Reply,
    Victim,
    Finish,
}

/// The entry is a look, a reply, the choice of a victim, or the end.
fn is_of(act: &Act, kind: Kind) -> bool {
    match act {
        Act::Look { .. } => kind == Kind::Look,
        Act::Reply { .. } => kind == Kind::Reply,
        Act::Victim { .. } => kind == Kind::Victim,
        Act::Finish => kind == Kind::Finish,
        _ => false,
    }
}

/// The entry is of this connection.
fn is_by(who: &Who, conn: u8) -> bool {
    match who {
        Who::Agent(made) => made.0 == conn,
        _ => false,
    }
}

/// The place of an entry of a kind and a connection, behind some others of the same.
fn place_of(history: &History, conn: u8, kind: Kind, others: u32) -> Option<u32> {
    let mut at = 0u32;
    let mut left = others;
    for entry in history.as_slice() {
        if is_by(&entry.who, conn) && is_of(&entry.act, kind) {
            if left == 0 {
                return Some(at);
            }
            left -= 1;
        }
        at = at.wrapping_add(1);
    }
    None
}

/// The number of entries of a kind.
fn count_of(history: &History, kind: Kind) -> u32 {
    let mut count = 0u32;
    for entry in history.as_slice() {
        if is_of(&entry.act, kind) {
            count = count.wrapping_add(1);
        }
    }
    count
}

/// Holds B behind its first pin until A is held, and A before it judges its first row until B has replied. Who looked `TURNS`
/// times gives up.
#[derive(Drop)]
struct HoldsBoth {
    held: AtomicCell<bool>,
    replied: AtomicCell<bool>,
    gave_up: AtomicCell<bool>,
}

impl HoldsBoth {
    fn new() -> HoldsBoth {
        HoldsBoth {
            held: AtomicCell::new(false),
            replied: AtomicCell::new(false),
            gave_up: AtomicCell::new(false),
        }
    }

    fn wait(&self, until: &AtomicCell<bool>) {
        for _ in 0..TURNS {
            if until.load() {
                return;
            }
            thread::yield_now();
        }
        self.gave_up.store(true);
    }
}

impl Gate for HoldsBoth {
    fn at<R: Wait>(&self, _rt: &R, who: Conn, place: Place) {
        match place {
            Place::AfterPin => {
                if who.0 == 1 {
                    self.wait(&self.held);
                }
            }
            Place::BeforeCondition => {
                if who.0 == 0 {
                    self.held.store(true);
                    self.wait(&self.replied);
                }
            }
            Place::AfterReply => {
                if who.0 == 1 {
                    self.replied.store(true);
                }
            }
        }
    }
}

/// While A is held between its first look and its judgement of that row, B runs its whole statement.
fn judges_outside<R: Threads + Wait + Sync>(rt: &R, alloc: Global) -> Option<bool> {
    let gate = HoldsBoth::new();
    let history = run(rt, alloc, HELD, &gate)?;
    let first = place_of(&history, 0, Kind::Look, 0)?;
    let second = place_of(&history, 0, Kind::Look, 1)?;
    let reply = place_of(&history, 1, Kind::Reply, 0)?;
    Some(!gate.gave_up.load() && first < reply && reply < second)
}

#[test]
fn row_is_judged_outside_the_latch(rt: HostRuntime) -> Result<(), Fail> {
    assert!(rt; judges_outside(&rt, rt.alloc()) == Some(true));
    Ok(())
}

/// One victim is chosen, and the run ends.
fn ends_deadlock<R: Threads + Wait + Sync>(rt: &R, alloc: Global) -> Option<bool> {
    let history = run(rt, alloc, DEADLOCK, &OpenGate)?;
    Some(count_of(&history, Kind::Victim) == 1 && count_of(&history, Kind::Finish) == 1)
}

#[test]
fn deadlock_ends_on_threads(rt: HostRuntime) -> Result<(), Fail> {
    assert!(rt; ends_deadlock(&rt, rt.alloc()) == Some(true));
    Ok(())
}
