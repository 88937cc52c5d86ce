use crate::transcript;
use iso_history::{Act, Cause, Entry, Got, History, Stand, Want, Who, Why};
use iso_modes::{LockState, Mode, Term};
use iso_queue::LockLine;
use iso_script::{Line, Script, What};
use iso_sql::{Condition, Items2, Statement};
use iso_types::{
    Config, Conn, ConnDef, Head, IndexDef, IndexId, Isolation, Items, Name, Range, Rid, Row,
    TableDef, TableId, Text, Value,
};
use sqlite_items::Boxed;
use std::test::Fail;

const A: Conn = Conn(0);

const B: Conn = Conn(1);

const T: TableId = TableId(0);

const I: IndexId = IndexId(0);

const CONFIG: Config = Config {
    cur_commit: true,
    locklist: 1024,
    maxlocks: 60,
    logmax: 65_536,
    window: 65_536,
};

fn named(name: &[u8]) -> Result<Text, Fail> {
    Ok(Text::new(name).ok_or("a long name")?)
}

// Two connections A and B, a table T, an index I.
fn head(rt: &impl AllocGlobal) -> Result<Head, Fail> {
    let alloc = rt.alloc();
    let mut conns = Vec::new(alloc);
    for name in [b"A", b"B"] {
        conns.push(ConnDef {
            name: named(name)?,
            isolation: Isolation::Cs,
        })?;
    }
    let mut tables = Vec::new(alloc);
    tables.push(TableDef {
        name: named(b"T")?,
        columns: Items::new(alloc),
    })?;
    let mut indexes = Vec::new(alloc);
    indexes.push(IndexDef {
        name: named(b"I")?,
        table: T,
        column: 0,
        unique: false,
    })?;
    Ok(Head {
        config: CONFIG,
        tables: Items::from_vec(tables),
        indexes: Items::from_vec(indexes),
        rows: Items::new(alloc),
        conns: Items::from_vec(conns),
    })
}

// Line 5 has an INSERT, line 6 a SELECT, line 7 a DELETE.
fn script(rt: &impl AllocGlobal) -> Result<Script, Fail> {
    let alloc = rt.alloc();
    let insert = Statement::Insert {
        table: T,
        row: Row::of(alloc, &[Value::Null]).map_err(|_| "no memory")?,
    };
    let select = Statement::Select {
        table: T,
        items: Items2::All,
        cond: Condition::Always,
        level: None,
    };
    let delete = Statement::Delete {
        table: T,
        cond: Condition::Always,
        level: None,
    };
    let mut lines = Vec::new(alloc);
    for (number, statement) in [(5, insert), (6, select), (7, delete)] {
        lines.push(Line {
            number,
            conn: Some(A),
            free: false,
            what: What::Statement(statement),
        })?;
    }
    Ok(Script {
        head: head(rt)?,
        lines: Items::from_vec(lines),
    })
}

// Adds the entry.
fn add(history: &mut History, who: Who, act: Act) -> Result<(), Fail> {
    history.reserve(1).map_err(|_| "no memory")?;
    history.push_reserved(Entry { who, act });
    Ok(())
}

// Whether one entry of A prints this, after the Dispatch of this line.
fn prints(rt: &impl AllocGlobal, line: u32, act: Act, want: &[u8]) -> Result<bool, Fail> {
    let mut history = History::new(rt.alloc());
    add(
        &mut history,
        Who::Dispatcher,
        Act::Dispatch { line, conn: A },
    )?;
    add(&mut history, Who::Agent(A), act)?;
    let text = transcript(rt.alloc(), &script(rt)?, &history).map_err(|_| "no memory")?;
    Ok(text.as_slice() == want)
}

// Whether one entry of the dispatcher prints this.
fn tells(rt: &impl AllocGlobal, act: Act, want: &[u8]) -> Result<bool, Fail> {
    let mut history = History::new(rt.alloc());
    add(&mut history, Who::Dispatcher, act)?;
    let text = transcript(rt.alloc(), &script(rt)?, &history).map_err(|_| "no memory")?;
    Ok(text.as_slice() == want)
}

fn lock(name: Name, mode: Mode, got: Got) -> Act {
    Act::Lock {
        name,
        mode,
        term: Term::Kept,
        why: Why::Asked,
        got,
    }
}

// A reply with the rows (7, 'it''s', NULL) and (-8).
fn reply(rt: &impl AllocGlobal) -> Result<Act, Fail> {
    let alloc = rt.alloc();
    let first = [Value::Int(7), Value::Text(named(b"it's")?), Value::Null];
    let mut rows = Vec::new(alloc);
    rows.push(Row::of(alloc, &first).map_err(|_| "no memory")?)?;
    rows.push(Row::of(alloc, &[Value::Int(-8)]).map_err(|_| "no memory")?)?;
    Ok(Act::Reply {
        code: 0,
        changed: 0,
        rows: Items::from_vec(rows),
    })
}

// A reply with no rows.
fn done(rt: &impl AllocGlobal, code: i32, changed: u32) -> Act {
    Act::Reply {
        code,
        changed,
        rows: Items::new(rt.alloc()),
    }
}

fn snapshot(rt: &impl AllocGlobal) -> Result<Act, Fail> {
    let mut locks = Items::new(rt.alloc());
    for (name, conn, mode, state) in [
        (Name::Table(T), A, Mode::Is, LockState::Granted),
        (Name::Row(T, Rid(0)), B, Mode::X, LockState::Converting),
        (
            Name::Key(I, Value::Int(30)),
            A,
            Mode::Six,
            LockState::Waiting,
        ),
    ] {
        let line = LockLine {
            name,
            conn,
            mode,
            state,
        };
        locks.push_copy(&line).map_err(|_| "no memory")?;
    }
    Ok(Act::Snapshot { line: 11, locks })
}

#[test]
fn replies(rt: HostRuntime) -> Result<(), Fail> {
    let rows = b"6 A ROW 7, 'it''s', NULL\n6 A ROW -8\n6 A SQLCODE 0\n";
    assert!(rt; prints(&rt, 6, reply(&rt)?, rows)?);
    for (line, code, changed, want) in [
        (5, 0, 1, b"5 A SQLCODE 0 ROWS 1\n".as_slice()),
        (7, 0, 12, b"7 A SQLCODE 0 ROWS 12\n"),
        (7, 100, 0, b"7 A SQLCODE 100\n"),
        (5, -803, 0, b"5 A SQLCODE -803\n"),
        (6, 0, 0, b"6 A SQLCODE 0\n"),
        (9, 0, 0, b"9 A SQLCODE 0\n"),
    ] {
        assert!(rt;
            prints(&rt, line, done(&rt, code, changed), want)?,
            "line {line}"
        );
    }
    let back = |code, reason| Act::Rollback { code, reason };
    assert!(rt; prints(&rt, 8, Act::Commit, b"8 A SQLCODE 0\n")?);
    assert!(rt; prints(&rt, 8, back(0, 0), b"8 A SQLCODE 0\n")?);
    assert!(rt; prints(&rt, 8, back(-911, 68), b"8 A SQLCODE -911 REASON 68\n")?);
    Ok(())
}

// A step of an index scan that waits for the end of the index.
fn end_wait(rt: &impl AllocGlobal) -> Result<Act, Fail> {
    let alloc = rt.alloc();
    let all = Range {
        low: None,
        high: None,
    };
    Ok(Act::Next {
        index: I,
        range: Boxed::new(alloc, all)?,
        after: Boxed::new(alloc, None)?,
        guarded: true,
        got: Boxed::new(alloc, Stand::Queued(Name::End(I)))?,
    })
}

#[test]
fn waits_and_stops(rt: HostRuntime) -> Result<(), Fail> {
    let row = Act::Look {
        table: T,
        rid: Rid(4),
        want: Want::Settled,
        got: Got::Queued(Mode::Ns),
    };
    assert!(rt; prints(&rt, 6, row, b"6 A WAITS NS ROW T 4\n")?);
    let end = end_wait(&rt)?;
    assert!(rt; prints(&rt, 6, end, b"6 A WAITS S END I\n")?);
    let table = lock(Name::Table(T), Mode::Ix, Got::Queued(Mode::Six));
    assert!(rt; prints(&rt, 5, table, b"5 A WAITS SIX TABLE T\n")?);
    let granted = lock(Name::Table(T), Mode::Ix, Got::Granted);
    assert!(rt; prints(&rt, 5, granted, b"")?);
    let all = Act::Collapse {
        table: T,
        mode: Mode::S,
    };
    assert!(rt; prints(&rt, 6, all, b"6 A ESCALATES T S\n")?);
    let full = Act::Stopped {
        cause: Cause::Table,
    };
    assert!(rt; prints(&rt, 5, full, b"5 A STOPPED TABLE\n")?);
    Ok(())
}

#[test]
fn the_dispatcher(rt: HostRuntime) -> Result<(), Fail> {
    let expire = |ended| Act::Expire {
        line: 9,
        conn: B,
        ended,
    };
    let busy = Act::Busy { line: 8, conn: B };
    assert!(rt; tells(&rt, busy, b"8 B BUSY\n")?);
    assert!(rt; tells(&rt, expire(true), b"9 EXPIRE B\n")?);
    assert!(rt; tells(&rt, expire(false), b"9 EXPIRE B NO EFFECT\n")?);
    let locks =
        b"11 LOCK TABLE T A IS GRANTED\n11 LOCK ROW T 0 B X CONVERTING\n11 LOCK KEY I 30 A SIX WAITING\n11 LOCKS 3\n";
    assert!(rt; tells(&rt, snapshot(&rt)?, locks)?);
    let stop = |cause| Act::Stopped { cause };
    assert!(rt; tells(&rt, stop(Cause::Memory), b"STOPPED MEMORY\n")?);
    assert!(rt; tells(&rt, stop(Cause::History), b"STOPPED HISTORY\n")?);
    assert!(rt; tells(&rt, Act::Finish, b"END\n")?);
    Ok(())
}
