use crossbeam_utils::atomic::AtomicCell;
use iso_engine::db2iso;
use iso_io::{SinkMemory, SourceMemory};
use iso_types::{Conn, Gate, Items, OpenGate, Place};
use std::sync::Wait;
use std::test::Fail;
use std::thread;
use std::thread::Threads;

// How often a held agent looks before it gives up, and the test fails.
const TURNS: u32 = 10_000_000;

// A and B read a row each, beside each other.
const READERS: &[u8] =
    b"DB2ISO 1\nTABLE T (ID INTEGER NOT NULL, V INTEGER)\nROW T (1, 100)\nROW T (2, 200)\nCONNECT A\nCONNECT B\nBEGIN\nA: SELECT V FROM T WHERE ID = 1\n& B: SELECT V FROM T WHERE ID = 2\nEND\n";

const READERS_TOLD: &[u8] = b"9 B ROW 200\n9 B SQLCODE 0\n8 A ROW 100\n8 A SQLCODE 0\nEND\n";

// A commits while B has a pin of the row that A changed.
const PINNED: &[u8] =
    b"DB2ISO 1\nTABLE T (ID INTEGER NOT NULL, V INTEGER)\nROW T (1, 100)\nROW T (2, 200)\nCONNECT A\nCONNECT B\nBEGIN\nA: UPDATE T SET V = 110 WHERE ID = 1\nB: SELECT V FROM T WHERE ID = 1\n& A: COMMIT\nEND\n";

const PINNED_TOLD: &[u8] =
    b"8 A SQLCODE 0 ROWS 1\n10 A SQLCODE 0\n9 B ROW 100\n9 B SQLCODE 0\nEND\n";

// Scripts without '&', and what is told of them on one thread as on many: one connection, a committed read beside a change,
// savepoints, and a deadlock.
const APART: [(&[u8], &[u8]); 4] = [
    (
        b"DB2ISO 1\nTABLE T (N INTEGER)\nCONNECT A\nBEGIN\nA: INSERT INTO T VALUES (7)\nA: SELECT N FROM T WITH UR\nA: COMMIT\nEND\n",
        b"5 A SQLCODE 0 ROWS 1\n6 A ROW 7\n6 A SQLCODE 0\n7 A SQLCODE 0\nEND\n",
    ),
    (
        b"DB2ISO 1\nTABLE T (ID INTEGER NOT NULL, V INTEGER)\nROW T (1, 100)\nROW T (2, 200)\nCONNECT A\nCONNECT B\nBEGIN\nA: UPDATE T SET V = 110 WHERE ID = 1\nB: SELECT V FROM T WHERE ID = 1\nA: COMMIT\nB: SELECT V FROM T WHERE ID = 1\nEND\n",
        b"8 A SQLCODE 0 ROWS 1\n9 B ROW 100\n9 B SQLCODE 0\n10 A SQLCODE 0\n11 B ROW 110\n11 B SQLCODE 0\nEND\n",
    ),
    (
        b"DB2ISO 1\nTABLE T (ID INTEGER NOT NULL, V INTEGER)\nROW T (1, 100)\nROW T (2, 200)\nCONNECT A\nCONNECT B\nBEGIN\nA: INSERT INTO T VALUES (3, 300)\nA: SAVEPOINT S1\nA: DELETE FROM T WHERE ID = 3\nA: ROLLBACK TO SAVEPOINT S1\nA: UPDATE T SET V = 301 WHERE ID = 3\nB: SELECT ID FROM T\nA: SELECT V FROM T WHERE ID = 3\nA: ROLLBACK TO SAVEPOINT S2\nEND\n",
        b"8 A SQLCODE 0 ROWS 1\n9 A SQLCODE 0\n10 A SQLCODE 0 ROWS 1\n11 A SQLCODE 0\n12 A SQLCODE 0 ROWS 1\n13 B ROW 1\n13 B ROW 2\n13 B SQLCODE 0\n14 A ROW 301\n14 A SQLCODE 0\n15 A SQLCODE -880\nEND\n",
    ),
    (
        b"DB2ISO 1\nTABLE T (ID INTEGER NOT NULL, V INTEGER)\nUNIQUE INDEX P ON T (ID)\nROW T (1, 100)\nROW T (2, 200)\nCONNECT A\nCONNECT B\nBEGIN\nA: UPDATE T SET V = 1 WHERE ID = 1\nB: UPDATE T SET V = 2 WHERE ID = 2\nA: UPDATE T SET V = 1 WHERE ID = 2\nB: UPDATE T SET V = 2 WHERE ID = 1\nA: COMMIT\nB: SELECT V FROM T\nEND\n",
        b"9 A SQLCODE 0 ROWS 1\n10 B SQLCODE 0 ROWS 1\n11 A WAITS U ROW T 1\n12 B WAITS U ROW T 0\n12 B SQLCODE -911 REASON 2\n11 A SQLCODE 0 ROWS 1\n13 A SQLCODE 0\n14 B ROW 1\n14 B ROW 1\n14 B SQLCODE 0\nEND\n",
    ),
];

/// Looks until a flag is set; whether it was within `TURNS` looks.
fn waits_for(flag: &AtomicCell<bool>) -> bool {
    for _ in 0..TURNS {
        if flag.load() {
            return true;
        }
        thread::yield_now();
    }
    false
}

/// Holds A before it judges its first row until B has replied, and B before its first until A is held: so B's whole statement
/// is run while A has made its look and not yet judged it. Work inside the hold of the state would let neither go on.
#[derive(Drop)]
struct HoldsReaders {
    held: AtomicCell<bool>,
    replied: AtomicCell<bool>,
    gave_up: AtomicCell<bool>,
}

impl HoldsReaders {
    fn new() -> HoldsReaders {
        HoldsReaders {
            held: AtomicCell::new(false),
            replied: AtomicCell::new(false),
            gave_up: AtomicCell::new(false),
        }
    }

    fn wait(&self, flag: &AtomicCell<bool>) {
        if !waits_for(flag) {
            self.gave_up.store(true);
        }
    }
}

impl Gate for HoldsReaders {
    fn at<R: Wait>(&self, _rt: &R, who: Conn, place: Place) {
        match place {
            Place::AfterPin => {}
            Place::BeforeCondition => {
                if who.0 == 0 {
                    self.held.store(true);
                    self.wait(&self.replied);
                } else {
                    self.wait(&self.held);
                }
            }
            Place::AfterReply => {
                if who.0 == 1 {
                    self.replied.store(true);
                }
            }
        }
    }
}

/// Holds A behind its first reply until B has a pin, and B behind that pin until A has committed and replied once more.
#[derive(Drop)]
struct HoldsWriter {
    pinned: AtomicCell<bool>,
    replied: AtomicCell<bool>,
    committed: AtomicCell<bool>,
    gave_up: AtomicCell<bool>,
}

impl HoldsWriter {
    fn new() -> HoldsWriter {
        HoldsWriter {
            pinned: AtomicCell::new(false),
            replied: AtomicCell::new(false),
            committed: AtomicCell::new(false),
            gave_up: AtomicCell::new(false),
        }
    }

    fn wait(&self, flag: &AtomicCell<bool>) {
        if !waits_for(flag) {
            self.gave_up.store(true);
        }
    }

    /// A's reply: the first is held, the second is that of its COMMIT.
    fn hold_reply(&self) {
        if self.replied.load() {
            self.committed.store(true);
        } else {
            self.replied.store(true);
            self.wait(&self.pinned);
        }
    }
}

impl Gate for HoldsWriter {
    fn at<R: Wait>(&self, _rt: &R, who: Conn, place: Place) {
        match place {
            Place::AfterPin => {
                if who.0 == 1 {
                    self.pinned.store(true);
                    self.wait(&self.committed);
                }
            }
            Place::BeforeCondition => {}
            Place::AfterReply => {
                if who.0 == 0 {
                    self.hold_reply();
                }
            }
        }
    }
}

/// Whether 'run' of a script ends with status 0, and writes these bytes.
fn gives<R: Threads + Wait + Sync + AllocGlobal, G: Gate + Sync>(
    rt: &R,
    script: &[u8],
    output: &[u8],
    gate: &G,
) -> Result<bool, Fail> {
    let bytes = Items::from_vec(script.to_vec(rt.alloc())?);
    let mut source = SourceMemory::new(bytes, 4096, Items::new(rt.alloc()));
    let mut sink = SinkMemory::new(rt.alloc(), 4096, Items::new(rt.alloc()));
    let mut words = Vec::new(rt.alloc());
    words.push(format!(in rt.alloc(); "run")?)?;
    let report = db2iso(
        rt,
        rt.alloc(),
        words.as_slice(),
        &mut source,
        &mut sink,
        gate,
    );
    Ok(report.status == 0 && sink.held() == output)
}

/// B is answered while A is held before its first row's judgement: A was held, B replied, and nobody gave up.
fn judges_outside<R: Threads + Wait + Sync + AllocGlobal>(rt: &R) -> Result<bool, Fail> {
    let gate = HoldsReaders::new();
    let given = gives(rt, READERS, READERS_TOLD, &gate)?;
    Ok(given && gate.held.load() && gate.replied.load() && !gate.gave_up.load())
}

/// B shows the row as it was when it was pinned, though A has committed since: B had its pin, A replied twice, and nobody gave up.
fn rebuilds_outside<R: Threads + Wait + Sync + AllocGlobal>(rt: &R) -> Result<bool, Fail> {
    let gate = HoldsWriter::new();
    let given = gives(rt, PINNED, PINNED_TOLD, &gate)?;
    Ok(given && gate.pinned.load() && gate.committed.load() && !gate.gave_up.load())
}

#[test]
fn a_row_is_judged_while_another_runs(rt: HostRuntime) -> Result<(), Fail> {
    assert!(rt; judges_outside(&rt)?);
    Ok(())
}

#[test]
fn a_pin_is_rebuilt_behind_a_commit(rt: HostRuntime) -> Result<(), Fail> {
    assert!(rt; rebuilds_outside(&rt)?);
    Ok(())
}

#[test]
fn scripts_without_a_mark_have_one_order(rt: HostRuntime) -> Result<(), Fail> {
    for (script, output) in APART {
        assert!(rt; gives(&rt, script, output, &OpenGate)?, "{script:?}");
    }
    Ok(())
}
