use super::*;
use iso_grammar::{Tokens, tokens_of};
use iso_types::{Column, ColumnKind, Config, Head, Items, Memory, TableDef, Text, Value};
use std::alloc::Global;

fn name(bytes: &[u8]) -> Result<Text, Memory> {
    match Text::new(bytes) {
        Some(name) => Ok(name),
        None => Err(Memory),
    }
}

fn column(bytes: &[u8], kind: ColumnKind, required: bool) -> Result<Column, Memory> {
    Ok(Column {
        name: name(bytes)?,
        kind,
        required,
    })
}

// T (ID INTEGER NOT NULL, V BIGINT, S VARCHAR(8), L VARCHAR(9))
fn table(alloc: Global) -> Result<TableDef, Memory> {
    let mut columns = Items::new(alloc);
    columns.push(column(b"ID", ColumnKind::Integer, true)?)?;
    columns.push(column(b"V", ColumnKind::Bigint, false)?)?;
    columns.push(column(b"S", ColumnKind::Varchar(8), false)?)?;
    columns.push(column(b"L", ColumnKind::Varchar(9), false)?)?;
    Ok(TableDef {
        name: name(b"T")?,
        columns,
    })
}

fn head(alloc: Global) -> Result<Head, Memory> {
    let mut tables = Items::new(alloc);
    tables.push(table(alloc)?)?;
    Ok(Head {
        config: Config {
            cur_commit: true,
            locklist: 1024,
            maxlocks: 60,
            logmax: 65536,
            window: 65536,
        },
        tables,
        indexes: Items::new(alloc),
        rows: Items::new(alloc),
        conns: Items::new(alloc),
    })
}

// Texts that are read, or else their fault.
const FORMS: [(&[u8], Option<SqlFault>); 23] = [
    (b"COMMIT", None),
    (b"\tcommit  Work ", None),
    (b"INSERT INTO T VALUES (1, NULL, 'A''B', NULL)", None),
    (
        b"INSERT INTO T (V, ID) VALUES (9223372036854775807, NULL)",
        None,
    ),
    (b"SELECT * FROM T WITH UR", None),
    (
        b"select count(*) from t where not v between 1 and 2 with ur",
        None,
    ),
    (
        b"SELECT ID, S FROM T WHERE S IS NOT NULL AND (V <> 1 OR ID>=2) WITH UR",
        None,
    ),
    (b"SELECT ID FROM T WHERE ID=1AND V<=2 WITH UR", None),
    (b"SELECT ID FROM T", None),
    (b"SELECT ID FROM T WITH CS", None),
    (
        b"UPDATE T SET V = ID + 1, L = S, ID = NULL WHERE V NOT BETWEEN -1 AND 1",
        None,
    ),
    (b"DELETE FROM T WHERE V IS NULL WITH RR", None),
    (b"ROLLBACK", None),
    (b"ROLLBACK WORK TO SAVEPOINT A", None),
    (b"SAVEPOINT A ON ROLLBACK RETAIN CURSORS", None),
    (b"LOCK TABLE T IN SHARE MODE", None),
    (b"LOCK TABLE T IN EXCLUSIVE MODE", None),
    (b"SET ISOLATION RESET", None),
    (b"SET CURRENT ISOLATION = RS", None),
    (b"SET ISOLATION RR", None),
    (b"SET CURRENT LOCK TIMEOUT WAIT", None),
    (b"SET CURRENT LOCK TIMEOUT=NOT WAIT", None),
    (b"SAVEPOINT ABCDEFGHIJKLMNOPQRSTUVWXYZ123456", None),
];

const BROKEN: [(&[u8], Option<SqlFault>); 15] = [
    (b"", Some(SqlFault::Syntax(1))),
    (b"   ", Some(SqlFault::Syntax(4))),
    (b"COMMIT X", Some(SqlFault::Syntax(8))),
    (b"SELECT", Some(SqlFault::Syntax(7))),
    (b"SELECT FROM T", Some(SqlFault::Syntax(8))),
    (b"INSERT INTO T VALUES (1, 'A", Some(SqlFault::Syntax(26))),
    (
        b"SELECT X FROM T WHERE V = NULL WITH UR",
        Some(SqlFault::Syntax(27)),
    ),
    (b"SET LOCK TIMEOUT WAIT", Some(SqlFault::Syntax(5))),
    (b"DELETE FROM T WHERE (V = 1", Some(SqlFault::Syntax(27))),
    // A text ends at no CR and no LF: it is unfinished, at its opening quote.
    (
        b"INSERT INTO T VALUES (1, 2, 'A\rB', NULL)",
        Some(SqlFault::Syntax(29)),
    ),
    (
        b"INSERT INTO T VALUES (1, 2, 'A\nB', NULL)",
        Some(SqlFault::Syntax(29)),
    ),
    (
        b"SELECT * FROM T WHERE S = 'A\rB' WITH UR",
        Some(SqlFault::Syntax(27)),
    ),
    (
        b"SELECT * FROM T WHERE S = 'A\nB' WITH UR",
        Some(SqlFault::Syntax(27)),
    ),
    (b"UPDATE T SET S = 'A''\r'", Some(SqlFault::Syntax(18))),
    (
        b"SELECT * FROM T WHERE S = 'A'\r WITH UR",
        Some(SqlFault::Syntax(30)),
    ),
];

const FAULTY: [(&[u8], Option<SqlFault>); 26] = [
    (b"SELECT X FROM NOSUCH WITH UR", Some(SqlFault::Unknown(8))),
    (b"SELECT * FROM NOSUCH WITH UR", Some(SqlFault::Unknown(15))),
    (
        b"SELECT ID, V, id FROM T WHERE X = 1 WITH UR",
        Some(SqlFault::Duplicate(15)),
    ),
    (
        b"SELECT * FROM T WHERE S = 1 WITH UR",
        Some(SqlFault::TypeFault(27)),
    ),
    (
        b"SELECT * FROM T WHERE V = 'A' WITH UR",
        Some(SqlFault::TypeFault(27)),
    ),
    (
        b"SELECT * FROM T WHERE S = 9223372036854775808 WITH UR",
        Some(SqlFault::TypeFault(27)),
    ),
    (
        b"SELECT * FROM T WHERE ID = 9223372036854775808 WITH UR",
        Some(SqlFault::Limit(28)),
    ),
    (
        b"SELECT * FROM T WHERE S = 'ABCDEFGHIJKLMNOPQRSTUVWXYZ1234567' WITH UR",
        Some(SqlFault::Limit(27)),
    ),
    (
        b"SELECT * FROM T WHERE X BETWEEN 'A' AND 1 WITH UR",
        Some(SqlFault::Unknown(23)),
    ),
    (
        b"INSERT INTO T VALUES (1, 2, 'A')",
        Some(SqlFault::TypeFault(32)),
    ),
    (
        b"INSERT INTO T VALUES (1, 2, 'A', NULL, 5)",
        Some(SqlFault::TypeFault(40)),
    ),
    (
        b"INSERT INTO T VALUES (2147483648, 2, 3, NULL)",
        Some(SqlFault::TypeFault(23)),
    ),
    (
        b"INSERT INTO T (ID, ID) VALUES ('A', 2)",
        Some(SqlFault::Duplicate(20)),
    ),
    (
        b"INSERT INTO T (NO) VALUES (1)",
        Some(SqlFault::Unknown(16)),
    ),
    (
        b"INSERT INTO T (S) VALUES ('123456789')",
        Some(SqlFault::TypeFault(27)),
    ),
    (
        b"UPDATE T SET V = V - -9223372036854775808",
        Some(SqlFault::Limit(22)),
    ),
    (
        b"UPDATE T SET V = V + 9223372036854775808",
        Some(SqlFault::Limit(22)),
    ),
    (b"UPDATE T SET S = L", Some(SqlFault::TypeFault(18))),
    (b"UPDATE T SET V = 1, V = 2", Some(SqlFault::Duplicate(21))),
    (b"UPDATE T SET ID = S + 1", Some(SqlFault::TypeFault(19))),
    (
        b"UPDATE T SET ID = 2147483648",
        Some(SqlFault::TypeFault(19)),
    ),
    (b"UPDATE T SET NO = 1", Some(SqlFault::Unknown(14))),
    (b"UPDATE T SET V = NO", Some(SqlFault::Unknown(18))),
    (b"LOCK TABLE X IN SHARE MODE", Some(SqlFault::Unknown(12))),
    (
        b"SAVEPOINT ABCDEFGHIJKLMNOPQRSTUVWXYZ1234567",
        Some(SqlFault::Limit(11)),
    ),
    (
        b"ROLLBACK TO SAVEPOINT ABCDEFGHIJKLMNOPQRSTUVWXYZ1234567",
        Some(SqlFault::Limit(23)),
    ),
];

fn fault_of(alloc: Global, text: &[u8]) -> Result<Option<SqlFault>, Memory> {
    if text.len() > 1048576 {
        return Err(Memory);
    }
    let head = head(alloc)?;
    match read_statement(alloc, &head, text) {
        Ok(_) => Ok(None),
        Err(fault) => Ok(Some(fault)),
    }
}

fn comes_to(alloc: Global, text: &[u8], fault: Option<SqlFault>) -> bool {
    match fault_of(alloc, text) {
        Ok(found) => found == fault,
        Err(_) => false,
    }
}

fn all_come_to(alloc: Global, texts: &[(&[u8], Option<SqlFault>)]) -> bool {
    texts
        .iter()
        .all(|(text, fault)| comes_to(alloc, text, *fault))
}

#[test]
fn each_form_is_read(rt: HostRuntime) {
    assert!(rt; all_come_to(rt.alloc(), &FORMS));
}

#[test]
fn texts_that_begin_no_statement_are_refused_at_their_place(rt: HostRuntime) {
    assert!(rt; all_come_to(rt.alloc(), &BROKEN));
}

#[test]
fn the_least_fault_is_told(rt: HostRuntime) {
    assert!(rt; all_come_to(rt.alloc(), &FAULTY));
}

fn push_all(text: &mut Items<u8>, bytes: &[u8]) -> Result<(), Memory> {
    for byte in bytes {
        text.push(*byte)?;
    }
    Ok(())
}

// The text with a part so many times between a front and a back.
fn repeated(
    alloc: Global,
    front: &[u8],
    part: &[u8],
    times: usize,
    middle: &[u8],
    behind: &[u8],
) -> Result<Items<u8>, Memory> {
    let mut text = Items::new(alloc);
    push_all(&mut text, front)?;
    for _ in 0..times {
        push_all(&mut text, part)?;
    }
    push_all(&mut text, middle)?;
    for _ in 0..times {
        push_all(&mut text, behind)?;
    }
    push_all(&mut text, b" WITH UR")?;
    Ok(text)
}

const FRONT: &[u8] = b"SELECT * FROM T WHERE ";

fn parentheses(alloc: Global, depth: usize, fault: Option<SqlFault>) -> bool {
    match repeated(alloc, FRONT, b"(", depth, b"V = 1", b")") {
        Ok(text) => comes_to(alloc, text.as_slice(), fault),
        Err(_) => false,
    }
}

fn comparisons(alloc: Global, more: usize, fault: Option<SqlFault>) -> bool {
    match repeated(alloc, FRONT, b"V = 1 OR ", more, b"NOT V = 1", b"") {
        Ok(text) => comes_to(alloc, text.as_slice(), fault),
        Err(_) => false,
    }
}

#[test]
fn parentheses_and_comparisons_have_limits(rt: HostRuntime) {
    assert!(rt; parentheses(rt.alloc(), 32, None));
    assert!(rt; parentheses(rt.alloc(), 33, Some(SqlFault::Limit(55))));
    assert!(rt; parentheses(rt.alloc(), 1000, Some(SqlFault::Limit(55))));
    assert!(rt; comparisons(rt.alloc(), 63, None));
    assert!(rt; comparisons(rt.alloc(), 64, Some(SqlFault::Limit(603))));
    assert!(rt; comparisons(rt.alloc(), 1000, Some(SqlFault::Limit(599))));
}

// What a text says, where it has no fault; COMMIT otherwise.
fn meaning(alloc: Global, text: &[u8]) -> Result<Statement, Memory> {
    if text.len() > 1048576 {
        return Err(Memory);
    }
    let head = head(alloc)?;
    let found = tokens_of(alloc, text)?;
    let mut cursor = Tokens::new(found.as_slice());
    match take_statement(alloc, &head, text, &mut cursor, found.len()) {
        Ok(checked) => Ok(checked.value),
        Err(_) => Err(Memory),
    }
}

fn sum_of(statement: &Statement) -> Option<(u8, i64)> {
    match statement {
        Statement::Update { sets, .. } => match sets.list.get(0)?.expr {
            Expr::Sum(column, number) => Some((column, number)),
            _ => None,
        },
        _ => None,
    }
}

fn is_sum(alloc: Global, text: &[u8], number: i64) -> bool {
    match meaning(alloc, text) {
        Ok(statement) => sum_of(&statement) == Some((1, number)),
        Err(_) => false,
    }
}

#[test]
fn a_dash_behind_a_name_is_a_minus(rt: HostRuntime) {
    assert!(rt; is_sum(rt.alloc(), b"UPDATE T SET ID = V -1", -1));
    assert!(rt; is_sum(rt.alloc(), b"UPDATE T SET ID = V-1", -1));
    assert!(rt; is_sum(rt.alloc(), b"UPDATE T SET ID = V - 1", -1));
    assert!(rt; is_sum(rt.alloc(), b"UPDATE T SET ID = V - -2", 2));
    assert!(rt; is_sum(rt.alloc(), b"UPDATE T SET ID = V + -2", -2));
}

fn is_and(cond: &Condition) -> bool {
    matches!(cond, Condition::And(_, _))
}

fn is_between(cond: &Condition) -> bool {
    matches!(cond, Condition::Between(1, Value::Int(1), Value::Int(2)))
}

// Whether this is an OR, its left part a negated BETWEEN and its right part an AND.
fn is_expected(cond: &Condition) -> bool {
    match cond {
        Condition::Or(left, right) => match left.get() {
            Condition::Not(inner) => is_between(inner.get()) && is_and(right.get()),
            _ => false,
        },
        _ => false,
    }
}

fn binds(alloc: Global, text: &[u8]) -> bool {
    match meaning(alloc, text) {
        Ok(Statement::Delete { cond, .. }) => is_expected(&cond),
        _ => false,
    }
}

#[test]
fn not_binds_before_and_before_or(rt: HostRuntime) {
    assert!(rt;
        binds(
            rt.alloc(),
            b"DELETE FROM T WHERE NOT V BETWEEN 1 AND 2 OR ID = 1 AND ID <> 2",
        )
    );
    assert!(rt;
        binds(
            rt.alloc(),
            b"DELETE FROM T WHERE V NOT BETWEEN 1 AND 2 OR (ID = 1 AND NOT S IS NULL)",
        )
    );
}
