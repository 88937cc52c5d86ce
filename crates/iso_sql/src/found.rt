//! What the parts of a condition stand for.

ghost use Rattle.std.specs.Prelude.{◌≡◌, ◌++◌, IfOk};
ghost use Rattle.iso_sql.specs.Names.{names_of, place_in};
ghost use Rattle.iso_sql.specs.Actions as act;

use crate::rows::stored_value;
use crate::scope::Scope;
use crate::statement::{Condition, Op};
use iso_grammar::{Cause, Checked, Fault, Kind, Token, fault_at, least, same, unless, value_of};
use iso_types::{Column, ColumnKind, Items, Memory};
use sqlite_items::Boxed;
use std::alloc::Global;

/// A part of a condition, its least fault, and the places of its comparisons in order.
#[derive(Drop)]
pub struct Found {
    pub value: Condition,
    pub fault: Option<Fault>,
    pub places: Items<u32>,
}

const MOST_COMPARISONS: usize = 64;

fn one_found(
    alloc: Global,
    column: Token,
    value: Condition,
    fault: Option<Fault>,
) -> Result<Found, Memory>
    ensures { IfOk result (λ x. x ≡ act.found column value fault) }
{
    let mut places = Items::new(alloc);
    places.push(column.start)?;
    Ok(Found {
        value,
        fault,
        places,
    })
}

/// The place of a column; 0 where it names none, which is a fault. No memory.
pub fn place_in(place: Option<u8>) -> u8
    ensures { result ≡ place_in place }
{
    match place {
        Some(place) => place,
        None => 0,
    }
}

fn has_kind(kind: ColumnKind, literal: Token) -> bool
    ensures { result ≡ act.has_kind kind literal }
{
    match kind {
        ColumnKind::Varchar(_) => same(Kind::Text, literal.kind),
        ColumnKind::Integer => !same(Kind::Text, literal.kind),
        ColumnKind::Bigint => !same(Kind::Text, literal.kind),
    }
}

pub fn is_value(line: &[u8], literal: Token) -> bool
    ensures { result ≡ act.is_value line.now literal }
{
    value_of(line, literal).is_some()
}

fn kind_fault(column: Option<Column>, line: &[u8], literal: Token) -> Option<Fault>
    ensures { result ≡ act.kind_fault column line.now literal }
{
    match column {
        None => None,
        Some(column) => {
            if has_kind(column.kind, literal) {
                unless(is_value(line, literal), literal, Cause::Limit)
            } else {
                fault_at(literal, Cause::TypeFault)
            }
        }
    }
}

#[tactic(auto, unfolding(crate::specs::Actions::literal_fault))]
fn literal_fault(scope: &Scope<'_>, column: Token, literal: Token) -> Option<Fault>
    ensures { result ≡ act.literal_fault (names_of scope.now) column literal }
{
    kind_fault(scope.column_of(column), scope.line, literal)
}

#[tactic(auto, unfolding(crate::specs::Actions::compared))]
pub fn compared_found(
    alloc: Global,
    scope: &Scope<'_>,
    column: Token,
    how: Op,
    literal: Token,
) -> Result<Found, Memory>
    ensures { IfOk result (λ x. x ≡ act.compared (names_of scope.now) column how literal) }
{
    let place = place_in(scope.column_place(column));
    let value = Condition::Compare(place, how, stored_value(scope.line, literal));
    let fault = least(
        scope.name_fault(column),
        literal_fault(scope, column, literal),
    );
    one_found(alloc, column, value, fault)
}

#[tactic(auto, unfolding(crate::specs::Actions::between))]
pub fn between_found(
    alloc: Global,
    scope: &Scope<'_>,
    column: Token,
    low: Token,
    high: Token,
) -> Result<Found, Memory>
    ensures { IfOk result (λ x. x ≡ act.between (names_of scope.now) column low high) }
{
    let place = place_in(scope.column_place(column));
    let value = Condition::Between(
        place,
        stored_value(scope.line, low),
        stored_value(scope.line, high),
    );
    let literals = least(
        literal_fault(scope, column, low),
        literal_fault(scope, column, high),
    );
    one_found(
        alloc,
        column,
        value,
        least(scope.name_fault(column), literals),
    )
}

#[tactic(auto, unfolding(crate::specs::Actions::is_null))]
pub fn null_found(alloc: Global, scope: &Scope<'_>, column: Token) -> Result<Found, Memory>
    ensures { IfOk result (λ x. x ≡ act.is_null (names_of scope.now) column) }
{
    let place = place_in(scope.column_place(column));
    one_found(
        alloc,
        column,
        Condition::IsNull(place),
        scope.name_fault(column),
    )
}

pub fn negated(alloc: Global, word: Option<Token>, x: Found) -> Result<Found, Memory>
    ensures { IfOk result (λ r. r ≡ act.negated word x) }
{
    match word {
        None => Ok(x),
        Some(_) => Ok(Found {
            value: Condition::Not(Boxed::new(alloc, x.value)?),
            fault: x.fault,
            places: x.places,
        }),
    }
}

fn appended(mut places: Items<u32>, more: &[u32]) -> Result<Items<u32>, Memory>
    ensures { IfOk result (λ all. all ≡ places ++ more.now) }
{
    for place in more {
        places.push(*place)?;
    }
    Ok(places)
}

fn limited_value(places: &[u32], value: Condition) -> Condition
    ensures { result ≡ act.limited_value places.now value }
{
    if places.len() <= MOST_COMPARISONS {
        value
    } else {
        Condition::Always
    }
}

#[tactic(auto, unfolding(crate::specs::Actions::both))]
pub fn both(alloc: Global, a: Found, b: Found) -> Result<Found, Memory>
    ensures { IfOk result (λ r. r ≡ act.both a b) }
{
    let places = appended(a.places, b.places.as_slice())?;
    let value = Condition::And(Boxed::new(alloc, a.value)?, Boxed::new(alloc, b.value)?);
    Ok(Found {
        value: limited_value(places.as_slice(), value),
        fault: least(a.fault, b.fault),
        places,
    })
}

#[tactic(auto, unfolding(crate::specs::Actions::any))]
pub fn any(alloc: Global, a: Found, b: Found) -> Result<Found, Memory>
    ensures { IfOk result (λ r. r ≡ act.any a b) }
{
    let places = appended(a.places, b.places.as_slice())?;
    let value = Condition::Or(Boxed::new(alloc, a.value)?, Boxed::new(alloc, b.value)?);
    Ok(Found {
        value: limited_value(places.as_slice(), value),
        fault: least(a.fault, b.fault),
        places,
    })
}

pub fn hidden(alloc: Global, paren: Token) -> Found
    ensures { result ≡ act.hidden paren }
{
    Found {
        value: Condition::Always,
        fault: fault_at(paren, Cause::Limit),
        places: Items::new(alloc),
    }
}

fn count_fault(places: &[u32]) -> Option<Fault>
    ensures { result ≡ act.count_fault places.now }
{
    match places.get(MOST_COMPARISONS) {
        Some(place) => Some(Fault {
            place: *place,
            cause: Cause::Limit,
        }),
        None => None,
    }
}

/// A whole condition, which has at most 64 comparisons.
#[tactic(auto, unfolding(crate::specs::Actions::limited))]
pub fn limited(x: Found) -> Checked<Condition>
    ensures { result ≡ act.limited x }
{
    Checked {
        fault: least(x.fault, count_fault(x.places.as_slice())),
        value: x.value,
    }
}
