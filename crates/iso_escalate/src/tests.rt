//! Choices among two tables, and a collapse.
use crate::{choose, collapse};
use iso_locklist::LockList;
use iso_modes::{Mode, Term};
use iso_queue::Asked;
use iso_types::{
    Column, ColumnKind, Config, Conn, Head, IndexDef, IndexId, Items, Memory, Name, Rid, TableDef,
    TableId, Text, Value,
};
use std::alloc::Global;
use std::test::Fail;

const A: Conn = Conn(0);

const B: Conn = Conn(1);

const BIG: TableId = TableId(0);

const SMALL: TableId = TableId(1);

/// The index of the table SMALL.
const INDEX: IndexId = IndexId(0);

/// A table of one column.
fn table(alloc: Global, name: Text) -> Result<TableDef, Memory> {
    let mut columns = Items::new(alloc);
    columns.push(Column {
        name,
        kind: ColumnKind::Integer,
        required: true,
    })?;
    Ok(TableDef { name, columns })
}

/// Two tables, the second with an index.
fn head(alloc: Global) -> Result<Head, Memory> {
    let mut tables = Items::new(alloc);
    let mut indexes = Items::new(alloc);
    if let Some(name) = Text::new(b"N") {
        tables.push(table(alloc, name)?)?;
        tables.push(table(alloc, name)?)?;
        indexes.push(IndexDef {
            name,
            table: SMALL,
            column: 0,
            unique: false,
        })?;
    }
    Ok(Head {
        config: Config {
            cur_commit: false,
            locklist: 4,
            maxlocks: 10,
            logmax: 1000,
            window: 100,
        },
        tables,
        indexes,
        rows: Items::new(alloc),
        conns: Items::new(alloc),
    })
}

/// A lock list in which these holds were granted.
fn lock_list(
    alloc: Global,
    head: &Head,
    holds: &[(Conn, Name, Term)],
) -> Result<Option<LockList>, Memory> {
    if head.config.locklist > 4096 || head.config.maxlocks > 100 {
        return Ok(None);
    }
    let mut locks = LockList::new(alloc, head)?;
    for (conn, name, term) in holds {
        if conn.0 >= 32 || locks.request(*conn, *name, Mode::S, *term) != Ok(Asked::Granted) {
            return Ok(None);
        }
    }
    Ok(Some(locks))
}

/// Whether that table is chosen for A where these are the holds.
fn chooses(
    alloc: Global,
    holds: &[(Conn, Name, Term)],
    table: Option<TableId>,
) -> Result<bool, Memory> {
    let head = head(alloc)?;
    match lock_list(alloc, &head, holds)? {
        Some(locks) => Ok(head.tables.len() <= 16 && choose(&locks, &head, A) == table),
        None => Ok(false),
    }
}

/// A row of the table BIG.
fn big(rid: u32) -> Name {
    Name::Row(BIG, Rid(rid))
}

/// A row of the table SMALL.
fn small(rid: u32) -> Name {
    Name::Row(SMALL, Rid(rid))
}

#[test]
fn chooses_the_table_with_the_most(rt: HostRuntime) -> Result<(), Fail> {
    let big_leads = [
        (A, Name::Table(SMALL), Term::Kept),
        (A, small(0), Term::Kept),
        (A, small(1), Term::Kept),
        (A, Name::Table(BIG), Term::Kept),
        (A, big(0), Term::Kept),
        (A, big(1), Term::Kept),
        (A, big(2), Term::Fresh),
    ];
    assert!(rt; chooses(rt.alloc(), &big_leads, Some(BIG)) == Ok(true));
    let small_leads = [
        (A, big(0), Term::Kept),
        (A, big(1), Term::Kept),
        (A, small(0), Term::Kept),
        (A, Name::Key(INDEX, Value::Int(7)), Term::Kept),
        (A, Name::End(INDEX), Term::Kept),
        (B, big(0), Term::Kept),
        (B, big(2), Term::Kept),
    ];
    assert!(rt; chooses(rt.alloc(), &small_leads, Some(SMALL)) == Ok(true));
    Ok(())
}

#[test]
fn the_lowest_number_wins_a_tie(rt: HostRuntime) -> Result<(), Fail> {
    let equal = [
        (A, small(0), Term::Kept),
        (A, small(1), Term::Kept),
        (A, big(0), Term::Kept),
        (A, big(1), Term::Kept),
    ];
    assert!(rt; chooses(rt.alloc(), &equal, Some(BIG)) == Ok(true));
    Ok(())
}

#[test]
fn brief_and_table_holds_do_not_count(rt: HostRuntime) -> Result<(), Fail> {
    let brief = [
        (A, big(0), Term::Brief),
        (A, big(1), Term::Brief),
        (A, small(0), Term::Fresh),
    ];
    assert!(rt; chooses(rt.alloc(), &brief, Some(SMALL)) == Ok(true));
    let none = [
        (A, Name::Table(BIG), Term::Kept),
        (A, big(0), Term::Brief),
        (B, small(0), Term::Kept),
    ];
    assert!(rt; chooses(rt.alloc(), &none, None) == Ok(true));
    assert!(rt; chooses(rt.alloc(), &[], None) == Ok(true));
    Ok(())
}

/// Which of the names are held by A after the collapse of the table SMALL: a bit for each, the first highest.
fn left(alloc: Global, holds: &[(Conn, Name, Term)]) -> Result<u32, Memory> {
    let head = head(alloc)?;
    let Some(mut locks) = lock_list(alloc, &head, holds)? else {
        return Ok(0);
    };
    collapse(&mut locks, A, SMALL);
    let mut bits: u32 = 0;
    for (_, name, _) in holds {
        bits = bits.wrapping_mul(2);
        if locks.held(A, *name).is_some() {
            bits |= 1;
        }
    }
    Ok(bits)
}

#[test]
fn collapses_the_rows_and_keys_of_one_table(rt: HostRuntime) -> Result<(), Fail> {
    let holds = [
        (A, Name::Table(SMALL), Term::Kept),
        (A, small(0), Term::Kept),
        (A, Name::End(INDEX), Term::Kept),
        (A, big(0), Term::Kept),
    ];
    assert!(rt; left(rt.alloc(), &holds) == Ok(0b1001));
    Ok(())
}
