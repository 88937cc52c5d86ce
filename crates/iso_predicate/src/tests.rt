ghost use Rattle.std.specs.Prelude.{◌≡◌, ◌≤◌, ◌∷◌, [], true, false, ◌&&◌, IsTrue, IfOk, length};
ghost use Rattle.iso_types.specs.declared.head.ColumnKind.TheVariants.{Bigint, Integer, Varchar};
ghost use Rattle.iso_types.specs.Head.{all_fit};
ghost use Rattle.iso_predicate.specs.Assigned.{are_sound};
ghost use Rattle.iso_predicate.specs.Truth.{is_within};

use super::*;
use iso_sql::{Assignment, Condition, Expr, Op, Sets};
use iso_types::{
    Column, ColumnKind, Config, Edge, Head, IndexDef, IndexId, Items, Memory, Row, TableDef,
    TableId, Text, Value,
};
use sqlite_items::Boxed;
use std::alloc::Global;
use std::test::Fail;

fn not(alloc: Global, a: Condition) -> Result<Condition, Memory>
    ensures { IfOk result (λ r. is_within 2 r ≡ is_within 2 a) }
{
    Ok(Condition::Not(Boxed::new(alloc, a)?))
}

fn and(alloc: Global, a: Condition, b: Condition) -> Result<Condition, Memory>
    ensures { IfOk result (λ r. is_within 2 r ≡ (is_within 2 a && is_within 2 b)) }
{
    Ok(Condition::And(Boxed::new(alloc, a)?, Boxed::new(alloc, b)?))
}

fn or(alloc: Global, a: Condition, b: Condition) -> Result<Condition, Memory>
    ensures { IfOk result (λ r. is_within 2 r ≡ (is_within 2 a && is_within 2 b)) }
{
    Ok(Condition::Or(Boxed::new(alloc, a)?, Boxed::new(alloc, b)?))
}

// The truth of the condition: it is kept, or its NOT is, or neither.
fn verdict(alloc: Global, row: &Row, cond: Condition) -> Result<Truth, Memory>
    requires { IsTrue (is_within (length row.now) cond) }
{
    if keep(&cond, row) {
        return Ok(Truth::True);
    }
    let other = Condition::Not(Boxed::new(alloc, cond)?);
    Ok(if keep(&other, row) {
        Truth::False
    } else {
        Truth::Unknown
    })
}

// A comparison of this truth with a row of 1 and NULL.
fn of_truth(truth: Truth) -> Condition
    ensures { IsTrue (is_within 2 result) }
{
    match truth {
        Truth::False => Condition::Compare(0, Op::Eq, Value::Int(2)),
        Truth::Unknown => Condition::Compare(1, Op::Eq, Value::Int(1)),
        Truth::True => Condition::Compare(0, Op::Eq, Value::Int(1)),
    }
}

fn joined_by_and(alloc: Global, a: Truth, b: Truth) -> Result<Truth, Memory> {
    let row = Row::of(alloc, &[Value::Int(1), Value::Null])?;
    verdict(alloc, &row, and(alloc, of_truth(a), of_truth(b))?)
}

fn joined_by_or(alloc: Global, a: Truth, b: Truth) -> Result<Truth, Memory> {
    let row = Row::of(alloc, &[Value::Int(1), Value::Null])?;
    verdict(alloc, &row, or(alloc, of_truth(a), of_truth(b))?)
}

fn negated(alloc: Global, a: Truth) -> Result<Truth, Memory> {
    let row = Row::of(alloc, &[Value::Int(1), Value::Null])?;
    verdict(alloc, &row, not(alloc, of_truth(a))?)
}

// What Db2's tables of AND and OR say of two truths.
const TABLES: [(Truth, Truth, Truth, Truth); 9] = [
    (Truth::True, Truth::True, Truth::True, Truth::True),
    (Truth::True, Truth::False, Truth::False, Truth::True),
    (Truth::True, Truth::Unknown, Truth::Unknown, Truth::True),
    (Truth::False, Truth::True, Truth::False, Truth::True),
    (Truth::False, Truth::False, Truth::False, Truth::False),
    (Truth::False, Truth::Unknown, Truth::False, Truth::Unknown),
    (Truth::Unknown, Truth::True, Truth::Unknown, Truth::True),
    (Truth::Unknown, Truth::False, Truth::False, Truth::Unknown),
    (
        Truth::Unknown,
        Truth::Unknown,
        Truth::Unknown,
        Truth::Unknown,
    ),
];

#[test]
fn truth_tables(rt: HostRuntime) {
    for (a, b, and, or) in TABLES {
        assert!(rt; joined_by_and(rt.alloc(), a, b) == Ok(and));
        assert!(rt; joined_by_or(rt.alloc(), a, b) == Ok(or));
    }
    assert!(rt; negated(rt.alloc(), Truth::True) == Ok(Truth::False));
    assert!(rt; negated(rt.alloc(), Truth::False) == Ok(Truth::True));
    assert!(rt; negated(rt.alloc(), Truth::Unknown) == Ok(Truth::Unknown));
}

fn text(bytes: &[u8]) -> Value {
    match Text::new(bytes) {
        Some(text) => Value::Text(text),
        None => Value::Null,
    }
}

fn compared(alloc: Global, a: &Value, op: Op, b: &Value) -> Result<Truth, Memory> {
    let row = Row::of(alloc, &[*a])?;
    verdict(alloc, &row, Condition::Compare(0, op, *b))
}

fn between(alloc: Global, a: &Value, low: i64, high: i64) -> Result<Truth, Memory> {
    let row = Row::of(alloc, &[*a])?;
    verdict(
        alloc,
        &row,
        Condition::Between(0, Value::Int(low), Value::Int(high)),
    )
}

fn is_null(alloc: Global, a: &Value) -> Result<Truth, Memory> {
    let row = Row::of(alloc, &[*a])?;
    verdict(alloc, &row, Condition::IsNull(0))
}

// Each text is less than the next, by bytes with a proper prefix first.
const TEXTS: [&[u8]; 6] = [b"", b"A", b"AB", b"B", b"a", b"\xff"];

#[test]
fn comparisons(rt: HostRuntime) {
    for i in 0..6usize {
        for j in 0..6usize {
            let (a, b) = (text(TEXTS[i]), text(TEXTS[j]));
            let less = if i < j { Truth::True } else { Truth::False };
            assert!(rt;
                compared(rt.alloc(), &a, Op::Lt, &b) == Ok(less),
                "texts {i} and {j}"
            );
        }
    }
    for (n, want) in [
        (1, Truth::False),
        (2, Truth::True),
        (4, Truth::True),
        (5, Truth::False),
    ] {
        assert!(rt;
            between(rt.alloc(), &Value::Int(n), 2, 4) == Ok(want),
            "{n}"
        );
    }
    assert!(rt; between(rt.alloc(), &Value::Null, 2, 4) == Ok(Truth::Unknown));
    assert!(rt; compared(rt.alloc(), &Value::Null, Op::Ne, &Value::Int(1)) == Ok(Truth::Unknown));
    assert!(rt; is_null(rt.alloc(), &Value::Null) == Ok(Truth::True));
    assert!(rt; is_null(rt.alloc(), &Value::Int(0)) == Ok(Truth::False));
}

fn column(name: Text, kind: ColumnKind, required: bool) -> Column
    ensures { result ≡ record { name = name; kind = kind; required = required } }
{
    Column {
        name,
        kind,
        required,
    }
}

// A table (C INTEGER, C BIGINT NOT NULL, C VARCHAR(2)).
fn table(alloc: Global, name: Text) -> Result<TableDef, Memory>
    ensures { IfOk result (λ t. t.columns ≡ record { name = name; kind = Integer; required = false } ∷ record { name = name; kind = Bigint; required = true } ∷ record { name = name; kind = Varchar 2; required = false } ∷ []) }
{
    let columns = vec![in alloc;
        column(name, ColumnKind::Integer, false),
        column(name, ColumnKind::Bigint, true),
        column(name, ColumnKind::Varchar(2), false),
    ]?;
    Ok(TableDef {
        name,
        columns: Items::from_vec(columns),
    })
}

fn outcome(
    alloc: Global,
    table: &TableDef,
    row: &[Value],
    sets: &[Assignment],
) -> Result<Row, AssignFault>
    requires sound { IsTrue (are_sound table.now.columns sets.now) }
    requires fits { IsTrue (all_fit table.now.columns row.now) }
{
    let old = Row::of(alloc, row)?;
    let list = sets.to_vec(alloc).map_err(|_| AssignFault::Memory)?;
    let sets = Sets {
        list: Items::from_vec(list),
    };
    assign(alloc, &sets, table, &old)
}

fn fails(
    alloc: Global,
    table: &TableDef,
    row: &[Value],
    sets: &[Assignment],
    fault: AssignFault,
) -> bool
    requires sound { IsTrue (are_sound table.now.columns sets.now) }
    requires fits { IsTrue (all_fit table.now.columns row.now) }
{
    match outcome(alloc, table, row, sets) {
        Ok(_) => false,
        Err(other) => other == fault,
    }
}

fn gives(
    alloc: Global,
    table: &TableDef,
    row: &[Value],
    sets: &[Assignment],
    want: &[Value],
) -> bool
    requires sound { IsTrue (are_sound table.now.columns sets.now) }
    requires fits { IsTrue (all_fit table.now.columns row.now) }
{
    match outcome(alloc, table, row, sets) {
        Ok(new) => new.as_slice() == want,
        Err(_) => false,
    }
}

fn set(column: u8, expr: &Expr) -> Assignment
    ensures { result ≡ record { column = column; expr = expr.now } }
{
    Assignment {
        column,
        expr: *expr,
    }
}

#[test]
fn assignments_at_limits(rt: HostRuntime) -> Result<(), Fail> {
    let name = Text::new(b"C").ok_or("a name")?;
    let table = table(rt.alloc(), name).map_err(|_| "memory")?;
    let alloc = rt.alloc();
    let row = [Value::Int(2147483647), Value::Int(i64::MAX), Value::Null];
    let past_32_bits = [set(0, &Expr::Sum(0, 1))];
    assert!(rt; fails(alloc, &table, &row, &past_32_bits, AssignFault::Overflow));
    let past_64_bits = [set(1, &Expr::Sum(1, 1))];
    assert!(rt; fails(alloc, &table, &row, &past_64_bits, AssignFault::Overflow));
    let too_wide = [set(0, &Expr::Column(1))];
    assert!(rt; fails(alloc, &table, &row, &too_wide, AssignFault::Overflow));
    let fits = [set(1, &Expr::Sum(0, 1))];
    let want = [Value::Int(2147483647), Value::Int(2147483648), Value::Null];
    assert!(rt; gives(alloc, &table, &row, &fits, &want));
    Ok(())
}

#[test]
fn assignments_in_order(rt: HostRuntime) -> Result<(), Fail> {
    let name = Text::new(b"C").ok_or("a name")?;
    let table = table(rt.alloc(), name).map_err(|_| "memory")?;
    let alloc = rt.alloc();
    let row = [Value::Int(2147483647), Value::Int(5), Value::Null];
    let null_first = [
        set(1, &Expr::Literal(Value::Null)),
        set(0, &Expr::Sum(0, 1)),
    ];
    assert!(rt; fails(alloc, &table, &row, &null_first, AssignFault::NullFault));
    let sum_first = [
        set(0, &Expr::Sum(0, 1)),
        set(1, &Expr::Literal(Value::Null)),
    ];
    assert!(rt; fails(alloc, &table, &row, &sum_first, AssignFault::Overflow));
    let exchanged = [set(0, &Expr::Sum(1, -5)), set(1, &Expr::Column(0))];
    let want = [Value::Int(0), Value::Int(2147483647), Value::Null];
    assert!(rt; gives(alloc, &table, &row, &exchanged, &want));
    let row = [Value::Null, Value::Int(5), Value::Null];
    let sum_of_null = [set(0, &Expr::Sum(0, 1))];
    assert!(rt; gives(alloc, &table, &row, &sum_of_null, &row));
    let null_column = [set(1, &Expr::Column(0))];
    assert!(rt; fails(alloc, &table, &row, &null_column, AssignFault::NullFault));
    Ok(())
}

fn has_nulls(alloc: Global, table: &TableDef, row: &[Value]) -> Result<bool, Memory> {
    Ok(nulls(table, &Row::of(alloc, row)?))
}

#[test]
fn required_columns(rt: HostRuntime) -> Result<(), Fail> {
    let name = Text::new(b"C").ok_or("a name")?;
    let table = table(rt.alloc(), name).map_err(|_| "memory")?;
    let in_the_middle = [Value::Int(1), Value::Null, Value::Null];
    assert!(rt; has_nulls(rt.alloc(), &table, &in_the_middle) == Ok(true));
    let beside = [Value::Null, Value::Int(1), Value::Null];
    assert!(rt; has_nulls(rt.alloc(), &table, &beside) == Ok(false));
    Ok(())
}

// A head with the indexes on columns 1 and 0 of table 0, and one on column 2 of table 1 before them.
fn head(alloc: Global, name: Text) -> Result<Head, Memory>
    ensures { IfOk result (λ h. length h.indexes ≤ 256) }
{
    let indexes = vec![in alloc; index(name, 1, 2), index(name, 0, 1), index(name, 0, 0)]?;
    Ok(Head {
        config: Config {
            cur_commit: true,
            locklist: 1024,
            maxlocks: 60,
            logmax: 65536,
            window: 65536,
        },
        tables: Items::new(alloc),
        indexes: Items::from_vec(indexes),
        rows: Items::new(alloc),
        conns: Items::new(alloc),
    })
}

fn index(name: Text, table: u8, column: u8) -> IndexDef {
    IndexDef {
        name,
        table: TableId(table),
        column,
        unique: false,
    }
}

fn is_edge(edge: &Option<Edge>, want: Option<(i64, bool)>) -> bool {
    match (edge, want) {
        (Some(edge), Some((value, inclusive))) => {
            edge.value == Value::Int(value) && edge.inclusive == inclusive
        }
        (None, None) => true,
        _ => false,
    }
}

// Whether the condition's plan is this index and range.
fn uses(
    head: &Head,
    cond: &Condition,
    place: u8,
    low: Option<(i64, bool)>,
    high: Option<(i64, bool)>,
) -> bool
    requires { length head.now.indexes ≤ 256 }
{
    match plan(head, TableId(0), cond) {
        Path::Index(index, range) => {
            index == IndexId(place) && is_edge(&range.low, low) && is_edge(&range.high, high)
        }
        Path::Table => false,
    }
}

fn scans(head: &Head, cond: &Condition) -> bool
    requires { length head.now.indexes ≤ 256 }
{
    matches!(plan(head, TableId(0), cond), Path::Table)
}

fn comparison(column: u8, op: Op, value: i64) -> Condition {
    Condition::Compare(column, op, Value::Int(value))
}

type Bound = Option<(i64, bool)>;

// Two comparisons of column 1 that are joined by AND, and the range that they give.
const RANGES: [(Op, i64, Op, i64, Bound, Bound); 6] = [
    (Op::Eq, 5, Op::Eq, 7, Some((7, true)), Some((5, true))),
    (Op::Gt, 5, Op::Ge, 6, Some((6, true)), None),
    (Op::Ge, 5, Op::Gt, 5, Some((5, false)), None),
    (Op::Lt, 5, Op::Le, 5, None, Some((5, false))),
    (Op::Ge, 1, Op::Lt, 9, Some((1, true)), Some((9, false))),
    (Op::Ne, 1, Op::Le, 9, None, Some((9, true))),
];

fn gives_range(
    alloc: Global,
    head: &Head,
    case: &(Op, i64, Op, i64, Bound, Bound),
) -> Result<bool, Memory>
    requires { length head.now.indexes ≤ 256 }
{
    let (op, value, other, bound, low, high) = *case;
    let cond = and(alloc, comparison(1, op, value), comparison(1, other, bound))?;
    Ok(uses(head, &cond, 1, low, high))
}

#[test]
fn ranges(rt: HostRuntime) -> Result<(), Fail> {
    let name = Text::new(b"I").ok_or("a name")?;
    let head = head(rt.alloc(), name).map_err(|_| "memory")?;
    for case in &RANGES {
        assert!(rt; gives_range(rt.alloc(), &head, case) == Ok(true));
    }
    Ok(())
}

// A column 0 of 1 to 4 that is also at least 2, below another AND.
fn nested(alloc: Global) -> Result<Condition, Memory> {
    let between = Condition::Between(0, Value::Int(1), Value::Int(4));
    let inner = and(alloc, comparison(0, Op::Ge, 2), between)?;
    and(alloc, Condition::IsNull(2), inner)
}

#[test]
fn paths(rt: HostRuntime) -> Result<(), Fail> {
    let alloc = rt.alloc();
    let name = Text::new(b"I").ok_or("a name")?;
    let head = head(alloc, name).map_err(|_| "memory")?;
    let deep = nested(alloc).map_err(|_| "memory")?;
    assert!(rt; uses(&head, &deep, 2, Some((2, true)), Some((4, true))));
    let first = and(alloc, comparison(0, Op::Eq, 1), comparison(1, Op::Eq, 2)).map_err(
        |_| "memory",
    )?;
    assert!(rt; uses(&head, &first, 1, Some((2, true)), Some((2, true))));
    assert!(rt; scans(&head, &comparison(2, Op::Eq, 1)));
    assert!(rt; scans(&head, &Condition::IsNull(1)));
    let either = or(alloc, comparison(1, Op::Eq, 1), comparison(1, Op::Eq, 2)).map_err(
        |_| "memory",
    )?;
    assert!(rt; scans(&head, &either));
    let refused = not(alloc, comparison(1, Op::Ne, 1)).map_err(|_| "memory")?;
    assert!(rt; scans(&head, &refused));
    Ok(())
}
