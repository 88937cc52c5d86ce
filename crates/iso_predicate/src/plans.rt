ghost use Rattle.std.specs.Prelude.{◌≡◌, ◌≤◌, length};
ghost use Rattle.iso_predicate.specs.Plan as spec;
ghost use Rattle.iso_predicate.specs.Walks.{bounds_on};

use iso_sql::{Condition, Op};
use iso_types::{Edge, Head, IndexDef, IndexId, Range, TableId, Value};
use std::cmp::Ordering;

/// How the rows of a condition are looked for.
#[derive(Clone, Copy)]
pub enum Path {
    /// All slots of the table, by rid.
    Table,
    /// The entries of an index whose keys lie in the range.
    Index(IndexId, Range),
}

/// The path to the rows of a table that may meet the condition: the first of the table's indexes, in
/// the order of declaration, whose column a conjunct bounds, with the range of all conjuncts that
/// bound it; the table where there is none. Conjuncts are the parts that the outermost ANDs join,
/// and those that bound a column compare it by = < <= > >= with a literal, or are BETWEEN. Of two
/// bounds at one value the exclusive one counts; an empty range keeps its bounds. It takes no
/// memory, and walks the ANDs of the condition once for each index of the table that it tries. A
/// head has at most 256 indexes. This project's own.
pub fn plan(head: &Head, table: TableId, cond: &Condition) -> Path
    requires { length head.now.indexes ≤ 256 }
    ensures { result ≡ spec.plan_of head.now table cond.now }
{
    for (place, index) in head.indexes.as_slice().iter().enumerate() {
        if let Some(range) = bounds_on(table, cond, index) {
            return Path::Index(IndexId(place as u8), range);
        }
    }
    Path::Table
}

fn bounds_on(table: TableId, cond: &Condition, index: &IndexDef) -> Option<Range>
    ensures { result ≡ bounds_on table cond.now index.now }
{
    if index.table != table {
        return None;
    }
    bounds(cond, index.column)
}

fn bounds(cond: &Condition, column: u8) -> Option<Range>
    ensures { result ≡ spec.bounds_of column cond.now }
{
    match cond {
        Condition::Compare(other, op, value) if *other == column => range_by(*op, value),
        Condition::Between(other, low, high) if *other == column => {
            Some(range_of(inclusive(low), inclusive(high)))
        }
        Condition::And(a, b) => common_of(&bounds(a.get(), column), &bounds(b.get(), column)),
        _ => None,
    }
}

fn range_by(op: Op, value: &Value) -> Option<Range>
    ensures { result ≡ spec.range_by op value.now }
{
    match op {
        Op::Eq => Some(range_of(inclusive(value), inclusive(value))),
        Op::Lt => Some(range_of(None, exclusive(value))),
        Op::Le => Some(range_of(None, inclusive(value))),
        Op::Gt => Some(range_of(exclusive(value), None)),
        Op::Ge => Some(range_of(inclusive(value), None)),
        Op::Ne => None,
    }
}

fn range_of(low: Option<Edge>, high: Option<Edge>) -> Range
    ensures { result ≡ spec.range_of low high }
{
    Range { low, high }
}

fn inclusive(value: &Value) -> Option<Edge>
    ensures { result ≡ spec.inclusive value.now }
{
    Some(Edge {
        value: *value,
        inclusive: true,
    })
}

fn exclusive(value: &Value) -> Option<Edge>
    ensures { result ≡ spec.exclusive value.now }
{
    Some(Edge {
        value: *value,
        inclusive: false,
    })
}

fn common_of(a: &Option<Range>, b: &Option<Range>) -> Option<Range>
    ensures { result ≡ spec.common_of a.now b.now }
{
    match (a, b) {
        (None, range) | (range, None) => *range,
        (Some(a), Some(b)) => Some(range_of(
            tighter_low(&a.low, &b.low),
            tighter_high(&a.high, &b.high),
        )),
    }
}

fn tighter_low(a: &Option<Edge>, b: &Option<Edge>) -> Option<Edge>
    ensures { result ≡ spec.tighter_low a.now b.now }
{
    match (a, b) {
        (None, edge) | (edge, None) => *edge,
        (Some(a), Some(b)) => Some(match a.value.compare(&b.value) {
            Ordering::Less => *b,
            Ordering::Equal => stricter(a, b),
            Ordering::Greater => *a,
        }),
    }
}

fn tighter_high(a: &Option<Edge>, b: &Option<Edge>) -> Option<Edge>
    ensures { result ≡ spec.tighter_high a.now b.now }
{
    match (a, b) {
        (None, edge) | (edge, None) => *edge,
        (Some(a), Some(b)) => Some(match a.value.compare(&b.value) {
            Ordering::Less => *a,
            Ordering::Equal => stricter(a, b),
            Ordering::Greater => *b,
        }),
    }
}

fn stricter(a: &Edge, b: &Edge) -> Edge
    ensures { result ≡ spec.stricter a.now b.now }
{
    Edge {
        value: a.value,
        inclusive: a.inclusive && b.inclusive,
    }
}
