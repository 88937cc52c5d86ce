use crate::{Asking, LockFault, LockList, Room};
use iso_modes::{LockState, Mode, Term};
use iso_queue::{Asked, Claimed, LockLine};
use iso_types::{
    Config, Conn, ConnDef, Head, IndexDef, IndexId, Isolation, Items, Memory, Name, Rid, TableId,
    Text, Value,
};
use std::alloc::Global;
use std::test::Fail;

const A: Conn = Conn(0);

const B: Conn = Conn(1);

const C: Conn = Conn(2);

const TABLE: TableId = TableId(0);

const OTHER: TableId = TableId(1);

const INDEX: IndexId = IndexId(0);

/// The indexes of these tables.
fn indexes(alloc: Global, tables: &[TableId]) -> Result<Items<IndexDef>, Memory> {
    let mut indexes = Items::new(alloc);
    if let Some(name) = Text::new(b"I") {
        for table in tables {
            indexes.push(IndexDef {
                name,
                table: *table,
                column: 0,
                unique: false,
            })?;
        }
    }
    Ok(indexes)
}

/// Three connections.
fn conns(alloc: Global) -> Result<Items<ConnDef>, Memory> {
    let mut conns = Items::new(alloc);
    if let Some(name) = Text::new(b"C") {
        for _ in 0..3u32 {
            conns.push(ConnDef {
                name,
                isolation: Isolation::Rs,
            })?;
        }
    }
    Ok(conns)
}

/// A head with three connections, and with an index for each of these tables.
fn head(alloc: Global, tables: &[TableId]) -> Result<Head, Memory> {
    Ok(Head {
        config: Config {
            cur_commit: true,
            locklist: 4,
            maxlocks: 10,
            logmax: 1000,
            window: 100,
        },
        tables: Items::new(alloc),
        indexes: indexes(alloc, tables)?,
        rows: Items::new(alloc),
        conns: conns(alloc)?,
    })
}

/// Room for 12 names of one connection, and 128 names of all.
fn lock_list(alloc: Global) -> Result<LockList, Memory> {
    let head = head(alloc, &[TABLE])?;
    if head.config.locklist > 4096 || head.config.maxlocks > 100 {
        return Err(Memory);
    }
    LockList::new(alloc, &head)
}

#[test]
fn stops_at_the_share(rt: HostRuntime) -> Result<(), Fail> {
    let Ok(mut locks) = lock_list(rt.alloc()) else {
        assert!(rt; false);
        return Ok(());
    };
    for rid in 0..12u32 {
        let asked = locks.request(A, Name::Row(TABLE, Rid(rid)), Mode::Ns, Term::Kept);
        assert!(rt; asked == Ok(Asked::Granted));
    }
    let asked = locks.request(A, Name::Row(TABLE, Rid(12)), Mode::Ns, Term::Kept);
    assert!(rt; asked == Err(LockFault::AtShare));
    assert!(rt; locks.room(A, 1) == Room::AtShare);
    let asked = locks.request(A, Name::Row(TABLE, Rid(0)), Mode::U, Term::Fresh);
    assert!(rt; asked == Ok(Asked::Granted));
    assert!(rt;
        locks.request(B, Name::Row(TABLE, Rid(0)), Mode::X, Term::Kept) == Ok(Asked::Queued)
    );
    assert!(rt; !locks.would_grant(B, Name::Row(TABLE, Rid(1)), Mode::X));
    assert!(rt; locks.count(A) == 12 && locks.total() == 13);
    locks.release(A, Name::Row(TABLE, Rid(0)));
    assert!(rt; locks.count(A) == 11 && locks.total() == 12);
    assert!(rt; locks.in_use(Name::Row(TABLE, Rid(0))) && !locks.in_use(Name::Row(TABLE, Rid(12))));
    assert!(rt;
        matches!(locks.held(A, Name::Row(TABLE, Rid(1))), Some(hold) if hold.mode == Mode::Ns)
    );
    assert!(rt; !locks.others_hold(B, Name::Row(TABLE, Rid(1))));
    Ok(())
}

/// Requests in this order, each Kept, and says which were granted.
fn requests(locks: &mut LockList, all: &[(Conn, Name, Mode)]) -> Result<u32, LockFault> {
    let mut granted: u32 = 0;
    for (conn, name, mode) in all {
        if conn.0 < 32 && locks.request(*conn, *name, *mode, Term::Kept)? == Asked::Granted {
            granted = granted.wrapping_add(1);
        }
    }
    Ok(granted)
}

#[test]
fn claims_in_order(rt: HostRuntime) -> Result<(), Fail> {
    let row = Name::Row(TABLE, Rid(7));
    let Ok(mut locks) = lock_list(rt.alloc()) else {
        assert!(rt; false);
        return Ok(());
    };
    let held = [
        (A, Name::End(INDEX), Mode::S),
        (A, row, Mode::Ns),
        (B, row, Mode::U),
    ];
    assert!(rt; requests(&mut locks, &held) == Ok(3));
    assert!(rt; requests(&mut locks, &[(B, row, Mode::X), (C, row, Mode::Ns)]) == Ok(0));
    assert!(rt; locks.waits(B) == Some((row, Mode::X)) && locks.waits(A).is_none());
    for (conn, edges) in [(A, 0), (B, 0b1), (C, 0b10)] {
        assert!(rt; locks.edges(conn).0 == edges);
    }
    assert!(rt; locks.count(A) == 2 && locks.count(B) == 1 && locks.total() == 4);
    locks.release_all(A);
    assert!(rt; locks.count(A) == 0 && !locks.in_use(Name::End(INDEX)));
    assert!(rt; locks.claim(C) == Claimed::NotYet && locks.claim(B) == Claimed::Granted);
    assert!(rt; locks.claim(C) == Claimed::NotYet && locks.claim(A) == Claimed::NotYet);
    assert!(rt; matches!(locks.held(B, row), Some(hold) if hold.mode == Mode::X));
    locks.cancel(C);
    assert!(rt; locks.waits(C).is_none() && locks.count(C) == 0 && locks.total() == 1);
    Ok(())
}

#[test]
fn covers_by_the_own_table_lock(rt: HostRuntime) -> Result<(), Fail> {
    let Ok(mut locks) = lock_list(rt.alloc()) else {
        assert!(rt; false);
        return Ok(());
    };
    let held = [
        (A, Name::Table(TABLE), Mode::S),
        (B, Name::Table(OTHER), Mode::X),
    ];
    assert!(rt; requests(&mut locks, &held) == Ok(2));
    let cases = [
        (A, Name::Row(TABLE, Rid(0)), Mode::Ns, true),
        (A, Name::Key(INDEX, Value::Int(30)), Mode::S, true),
        (A, Name::End(INDEX), Mode::U, false),
        (A, Name::Row(OTHER, Rid(0)), Mode::Ns, false),
        (A, Name::End(IndexId(1)), Mode::S, false),
        (A, Name::Table(TABLE), Mode::S, false),
        (B, Name::Key(INDEX, Value::Null), Mode::S, false),
        (B, Name::Row(OTHER, Rid(0)), Mode::X, true),
    ];
    for (conn, name, mode, covered) in cases {
        assert!(rt; locks.covered(conn, name, mode) == covered);
    }
    Ok(())
}

#[test]
fn settles_but_the_spared_name(rt: HostRuntime) -> Result<(), Fail> {
    let Ok(mut locks) = lock_list(rt.alloc()) else {
        assert!(rt; false);
        return Ok(());
    };
    let asked = [(0, Term::Fresh), (1, Term::Fresh), (2, Term::Brief)];
    for (rid, term) in asked {
        let asked = locks.request(A, Name::Row(TABLE, Rid(rid)), Mode::Ns, term);
        assert!(rt; asked == Ok(Asked::Granted));
    }
    locks.settle(A, Some(Name::Row(TABLE, Rid(1))));
    for (rid, term) in [(0, Term::Kept), (1, Term::Fresh)] {
        let held = locks.held(A, Name::Row(TABLE, Rid(rid)));
        assert!(rt; matches!(held, Some(hold) if hold.term == term));
    }
    assert!(rt; locks.held(A, Name::Row(TABLE, Rid(2))).is_none());
    assert!(rt; locks.count(A) == 2 && locks.total() == 2);
    Ok(())
}

#[test]
fn collapses_one_table(rt: HostRuntime) -> Result<(), Fail> {
    let Ok(mut locks) = lock_list(rt.alloc()) else {
        assert!(rt; false);
        return Ok(());
    };
    let held = [
        (A, Name::Table(TABLE), Mode::Is),
        (A, Name::Row(TABLE, Rid(0)), Mode::Ns),
        (A, Name::Key(INDEX, Value::Int(30)), Mode::S),
        (A, Name::End(INDEX), Mode::S),
        (A, Name::Row(OTHER, Rid(0)), Mode::Ns),
        (B, Name::Row(TABLE, Rid(0)), Mode::Ns),
    ];
    assert!(rt; requests(&mut locks, &held) == Ok(6));
    locks.collapse(A, TABLE);
    let stay = [
        (A, Name::Table(TABLE), true),
        (A, Name::Row(TABLE, Rid(0)), false),
        (A, Name::Key(INDEX, Value::Int(30)), false),
        (A, Name::End(INDEX), false),
        (A, Name::Row(OTHER, Rid(0)), true),
        (B, Name::Row(TABLE, Rid(0)), true),
    ];
    for (conn, name, stays) in stay {
        assert!(rt; locks.held(conn, name).is_some() == stays);
    }
    assert!(rt; locks.count(A) == 2 && locks.total() == 3);
    Ok(())
}

#[test]
fn settles_beside_what_was_placed(rt: HostRuntime) -> Result<(), Fail> {
    let Ok(mut locks) = lock_list(rt.alloc()) else {
        assert!(rt; false);
        return Ok(());
    };
    for rid in 0..2u32 {
        let asked = locks.request(A, Name::Row(TABLE, Rid(rid)), Mode::Ns, Term::Brief);
        assert!(rt; asked == Ok(Asked::Granted));
    }
    locks.settle_beside(A, None, Name::Row(TABLE, Rid(1)));
    assert!(rt; locks.held(A, Name::Row(TABLE, Rid(0))).is_none());
    let held = locks.held(A, Name::Row(TABLE, Rid(1)));
    assert!(rt; matches!(held, Some(hold) if hold.term == Term::Brief));
    Ok(())
}

#[test]
fn places_all_or_none(rt: HostRuntime) -> Result<(), Fail> {
    let Ok(mut locks) = lock_list(rt.alloc()) else {
        assert!(rt; false);
        return Ok(());
    };
    let asks = [
        Asking {
            name: Name::Row(TABLE, Rid(20)),
            mode: Mode::X,
        },
        Asking {
            name: Name::End(INDEX),
            mode: Mode::S,
        },
    ];
    for rid in 0..10u32 {
        let asked = locks.request(A, Name::Row(TABLE, Rid(rid)), Mode::Ns, Term::Kept);
        assert!(rt; asked == Ok(Asked::Granted));
    }
    assert!(rt; locks.request_new(A, &asks) == Ok(()));
    assert!(rt; locks.count(A) == 12);
    locks.release(A, Name::Row(TABLE, Rid(20)));
    locks.release(A, Name::End(INDEX));
    let asked = locks.request(A, Name::Row(TABLE, Rid(10)), Mode::Ns, Term::Kept);
    assert!(rt; asked == Ok(Asked::Granted));
    assert!(rt; locks.request_new(A, &asks) == Err(LockFault::AtShare));
    assert!(rt; locks.count(A) == 11 && locks.held(A, Name::Row(TABLE, Rid(20))).is_none());
    Ok(())
}

const SHOWN: [(Name, Conn, Mode, LockState); 12] = [
    (Name::Table(TABLE), A, Mode::Is, LockState::Granted),
    (Name::Row(TABLE, Rid(2)), A, Mode::Ns, LockState::Granted),
    (Name::Row(TABLE, Rid(7)), A, Mode::Ns, LockState::Granted),
    (Name::Row(TABLE, Rid(7)), B, Mode::U, LockState::Granted),
    (Name::Row(TABLE, Rid(7)), B, Mode::X, LockState::Converting),
    (Name::Row(TABLE, Rid(7)), C, Mode::Ns, LockState::Waiting),
    (
        Name::Key(INDEX, Value::Int(-1)),
        A,
        Mode::S,
        LockState::Granted,
    ),
    (
        Name::Key(INDEX, Value::Int(30)),
        A,
        Mode::S,
        LockState::Granted,
    ),
    (Name::End(INDEX), A, Mode::S, LockState::Granted),
    (
        Name::Key(IndexId(2), Value::Null),
        A,
        Mode::S,
        LockState::Granted,
    ),
    (Name::Table(OTHER), C, Mode::Is, LockState::Granted),
    (Name::End(IndexId(1)), A, Mode::S, LockState::Granted),
];

/// Whether the lines are these, in this order.
fn are_lines(lines: &[LockLine], shown: &[(Name, Conn, Mode, LockState)]) -> bool {
    if lines.len() != shown.len() {
        return false;
    }
    for (line, (name, conn, mode, state)) in lines.iter().zip(shown.iter()) {
        if line.name != *name || line.conn != *conn || line.mode != *mode || line.state != *state {
            return false;
        }
    }
    true
}

/// Whether the snapshot has these lines.
fn shows(locks: &LockList, head: &Head, shown: &[(Name, Conn, Mode, LockState)]) -> bool {
    if head.conns.len() > 32 {
        return false;
    }
    match locks.snapshot(head) {
        Ok(lines) => are_lines(lines.as_slice(), shown),
        Err(_) => false,
    }
}

#[test]
fn shows_tables_rows_keys_and_ends_in_order(rt: HostRuntime) -> Result<(), Fail> {
    let (Ok(mut locks), Ok(head)) = (
        lock_list(rt.alloc()),
        head(rt.alloc(), &[TABLE, OTHER, TABLE]),
    ) else {
        assert!(rt; false);
        return Ok(());
    };
    let held = [
        (A, Name::End(IndexId(1)), Mode::S),
        (A, Name::Key(IndexId(2), Value::Null), Mode::S),
        (A, Name::End(INDEX), Mode::S),
        (A, Name::Key(INDEX, Value::Int(30)), Mode::S),
        (B, Name::Row(TABLE, Rid(7)), Mode::U),
        (A, Name::Row(TABLE, Rid(7)), Mode::Ns),
        (C, Name::Table(OTHER), Mode::Is),
        (A, Name::Key(INDEX, Value::Int(-1)), Mode::S),
        (C, Name::Row(OTHER, Rid(0)), Mode::Ns),
        (A, Name::Row(TABLE, Rid(2)), Mode::Ns),
        (A, Name::Table(TABLE), Mode::Is),
    ];
    assert!(rt; requests(&mut locks, &held) == Ok(11));
    let queued = [
        (B, Name::Row(TABLE, Rid(7)), Mode::X),
        (C, Name::Row(TABLE, Rid(7)), Mode::Ns),
    ];
    assert!(rt; requests(&mut locks, &queued) == Ok(0));
    locks.release(C, Name::Row(OTHER, Rid(0)));
    assert!(rt; shows(&locks, &head, &SHOWN));
    Ok(())
}
