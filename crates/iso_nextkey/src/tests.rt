//! The guards of an index with two keys, and three connections that hold some of them.
use crate::{blocked, guard_of, inherits};
use iso_key::KeyIndex;
use iso_locklist::LockList;
use iso_modes::{Mode, Term};
use iso_types::{Config, Conn, Head, IndexId, Items, Memory, Name, Rid, Value};
use std::alloc::Global;
use std::test::Fail;

const A: Conn = Conn(0);

const B: Conn = Conn(1);

const C: Conn = Conn(2);

const INDEX: IndexId = IndexId(0);

const TWO: Name = Name::Key(INDEX, Value::Int(2));

const FOUR: Name = Name::Key(INDEX, Value::Int(4));

const END: Name = Name::End(INDEX);

/// An index with the keys 2 and 4.
fn index(alloc: Global) -> Result<KeyIndex, Memory> {
    let mut index = KeyIndex::new(alloc);
    index.insert(Value::Int(2), Rid(0))?;
    index.insert(Value::Int(4), Rid(1))?;
    Ok(index)
}

/// A lock list with many slots.
fn lock_list(alloc: Global) -> Result<LockList, Memory> {
    let head = Head {
        config: Config {
            cur_commit: true,
            locklist: 4,
            maxlocks: 10,
            logmax: 1000,
            window: 100,
        },
        tables: Items::new(alloc),
        indexes: Items::new(alloc),
        rows: Items::new(alloc),
        conns: Items::new(alloc),
    };
    LockList::new(alloc, &head)
}

/// S to stay on the key 4 for A, NW for the moment on END for B, and U on the key 2 for C.
fn held(alloc: Global) -> Result<LockList, Memory> {
    let mut locks = lock_list(alloc)?;
    let all = [
        (A, FOUR, Mode::S, Term::Kept),
        (B, END, Mode::Nw, Term::Brief),
        (C, TWO, Mode::U, Term::Kept),
    ];
    for (conn, name, mode, term) in &all {
        if conn.0 >= 32 || locks.request(*conn, *name, *mode, *term).is_err() {
            return Err(Memory);
        }
    }
    Ok(locks)
}

#[test]
fn guards_of_keys(rt: HostRuntime) -> Result<(), Fail> {
    let index = index(rt.alloc())?;
    for (key, guard) in [(1, TWO), (2, TWO), (3, FOUR), (4, FOUR), (5, END)] {
        assert!(rt; guard_of(&index, INDEX, &Value::Int(key)) == guard);
    }
    assert!(rt; guard_of(&index, INDEX, &Value::Null) == TWO);
    Ok(())
}

#[test]
fn who_is_in_the_way(rt: HostRuntime) -> Result<(), Fail> {
    let locks = held(rt.alloc())?;
    let cases = [
        (A, FOUR, false),
        (B, FOUR, true),
        (A, END, true),
        (B, END, false),
        (A, TWO, false),
    ];
    for (conn, guard, expected) in &cases {
        assert!(rt; blocked(&locks, *conn, guard) == *expected);
    }
    let cases = [
        (A, FOUR, Some(Mode::S)),
        (B, FOUR, None),
        (B, END, None),
        (C, TWO, Some(Mode::S)),
    ];
    for (conn, guard, expected) in &cases {
        assert!(rt; inherits(&locks, *conn, guard) == *expected);
    }
    Ok(())
}
