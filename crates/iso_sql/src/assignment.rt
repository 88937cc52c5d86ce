//! Assignments of an UPDATE.

ghost use Rattle.std.specs.Prelude.{◌≡◌, [], IfOk};
ghost use Rattle.iso_grammar.specs.Reading.{Gives};
ghost use Rattle.iso_sql.specs.Names.{names_of};
ghost use Rattle.iso_sql.specs.Sound as typing;
ghost use Rattle.iso_sql.specs.Actions as act;
ghost use Rattle.iso_sql.specs.StatementReading as spec;

use crate::found::place_in;
use crate::list::stored;
use crate::rows::{stored_value, stores};
use crate::scope::Scope;
use crate::statement::{Assignment, Expr};
use iso_grammar::{
    Cause, Checked, Fault, Kind, ReadError, Token, Tokens, fault_at, integer as integer_of, least,
    text_of, unless,
};
use iso_types::{Column, ColumnKind, Items, Memory, Value};
use std::alloc::Global;

/// The right side of an assignment: a literal, a column, or a column with an integer that is added or taken away.
#[derive(Clone, Copy)]
pub enum Right {
    Literal(Token),
    Column(Token),
    Plus(Token, Token),
    Minus(Token, Token),
}

/// An assignment, as it stands in the line.
#[derive(Clone, Copy)]
pub struct Target {
    pub column: Token,
    pub right: Right,
}

#[tactic(auto, unfolding(crate::specs::StatementReading::integer))]
fn integer(tokens: &mut Tokens<'_>) -> Result<Token, ReadError>
    ensures { Gives (spec.integer) tokens.old result tokens.new }
{
    if tokens.sees(Kind::Integer) {
        tokens.expect(Kind::Integer)
    } else {
        tokens.expect(Kind::One)
    }
}

#[tactic(auto, unfolding(crate::specs::StatementReading::literal_right))]
fn literal_right(tokens: &mut Tokens<'_>) -> Result<Right, ReadError>
    ensures { Gives (spec.literal_right) tokens.old result tokens.new }
{
    let literal = stored(tokens)?;
    Ok(Right::Literal(literal))
}

#[tactic(auto, unfolding(crate::specs::StatementReading::plus))]
fn plus(tokens: &mut Tokens<'_>, column: Token) -> Result<Right, ReadError>
    ensures { Gives (spec.plus column) tokens.old result tokens.new }
{
    tokens.expect(Kind::Plus)?;
    let number = integer(tokens)?;
    Ok(Right::Plus(column, number))
}

#[tactic(auto, unfolding(crate::specs::StatementReading::minus))]
fn minus(tokens: &mut Tokens<'_>, column: Token) -> Result<Right, ReadError>
    ensures { Gives (spec.minus column) tokens.old result tokens.new }
{
    tokens.expect(Kind::Minus)?;
    let number = integer(tokens)?;
    Ok(Right::Minus(column, number))
}

#[tactic(auto, unfolding(crate::specs::StatementReading::behind_column))]
fn behind_column(tokens: &mut Tokens<'_>, column: Token) -> Result<Right, ReadError>
    ensures { Gives (spec.behind_column column) tokens.old result tokens.new }
{
    if tokens.sees(Kind::Plus) {
        plus(tokens, column)
    } else if tokens.sees(Kind::Minus) {
        minus(tokens, column)
    } else {
        Ok(Right::Column(column))
    }
}

#[tactic(auto, unfolding(crate::specs::StatementReading::column_right))]
fn column_right(tokens: &mut Tokens<'_>) -> Result<Right, ReadError>
    ensures { Gives (spec.column_right) tokens.old result tokens.new }
{
    let column = tokens.expect(Kind::Name)?;
    behind_column(tokens, column)
}

fn right_side(tokens: &mut Tokens<'_>) -> Result<Right, ReadError>
    ensures { Gives (spec.right) tokens.old result tokens.new }
{
    if tokens.sees(Kind::Name) {
        column_right(tokens)
    } else {
        literal_right(tokens)
    }
}

#[tactic(auto, unfolding(crate::specs::StatementReading::assignment))]
fn one_target(tokens: &mut Tokens<'_>) -> Result<Target, ReadError>
    ensures { Gives (spec.assignment) tokens.old result tokens.new }
{
    let column = tokens.expect(Kind::Name)?;
    tokens.expect(Kind::Equal)?;
    let right = right_side(tokens)?;
    Ok(Target { column, right })
}

fn next_target(tokens: &mut Tokens<'_>) -> Result<Target, ReadError>
    ensures { Gives (spec.next_assignment) tokens.old result tokens.new }
{
    tokens.expect(Kind::Comma)?;
    one_target(tokens)
}

/// Takes one or more assignments with commas between them.
#[tactic(auto, unfolding(crate::specs::StatementReading::assignments))]
pub fn targets(
    alloc: Global,
    tokens: &mut Tokens<'_>,
    bound: usize,
) -> Result<Items<Target>, ReadError>
    requires most { tokens.old.most ≡ bound }
    ensures { Gives (spec.assignments bound) tokens.old result tokens.new }
{
    let first = one_target(tokens)?;
    let mut all = Items::new(alloc);
    all.push(first)?;
    for _turn in 0..bound {
        if !tokens.sees(Kind::Comma) {
            break;
        }
        let next = next_target(tokens)?;
        all.push(next)?;
    }
    Ok(all)
}

#[tactic(auto, unfolding(crate::specs::Actions::added))]
fn added(line: &[u8], number: Token) -> Option<i64>
    ensures { result ≡ act.added line.now number }
{
    integer_of(text_of(line, number))
}

fn negative(number: Option<i64>) -> Option<i64>
    ensures { result ≡ act.negative number }
{
    match number {
        None => None,
        Some(number) => i64::try_from(-i128::from(number)).ok(),
    }
}

#[tactic(auto, unfolding(crate::specs::Actions::taken))]
fn taken(line: &[u8], number: Token) -> Option<i64>
    ensures { result ≡ act.taken line.now number }
{
    negative(integer_of(text_of(line, number)))
}

fn or_zero(number: Option<i64>) -> i64
    ensures { result ≡ act.or_zero number }
{
    match number {
        None => 0,
        Some(number) => number,
    }
}

fn is_assignable(source: ColumnKind, target: ColumnKind) -> bool
    ensures { result ≡ typing.is_assignable source target }
{
    match (source, target) {
        (ColumnKind::Varchar(length), ColumnKind::Varchar(most)) => length <= most,
        (ColumnKind::Varchar(_), _) => false,
        (_, ColumnKind::Varchar(_)) => false,
        _ => true,
    }
}

fn is_number(kind: ColumnKind) -> bool
    ensures { result ≡ typing.is_number kind }
{
    !matches!(kind, ColumnKind::Varchar(_))
}

fn literal_fault(line: &[u8], target: Option<Column>, literal: Token) -> Option<Fault>
    ensures { result ≡ act.literal_right line.now target literal }
{
    match target {
        None => None,
        Some(target) => unless(
            stores(false, line, &target, literal),
            literal,
            Cause::TypeFault,
        ),
    }
}

fn column_fault(target: Option<Column>, source: Option<Column>, token: Token) -> Option<Fault>
    ensures { result ≡ act.column_right target source token }
{
    let Some(source) = source else {
        return fault_at(token, Cause::Unknown);
    };
    match target {
        None => None,
        Some(target) => unless(
            is_assignable(source.kind, target.kind),
            token,
            Cause::TypeFault,
        ),
    }
}

fn sum_fault(
    target: Option<Column>,
    source: Option<Column>,
    token: Token,
    number: Token,
    value: Option<i64>,
) -> Option<Fault>
    ensures { result ≡ act.sum_right target source token number value }
{
    let Some(source) = source else {
        return fault_at(token, Cause::Unknown);
    };
    match target {
        None => None,
        Some(target) => {
            if is_number(source.kind) && is_number(target.kind) {
                unless(value.is_some(), number, Cause::Limit)
            } else {
                fault_at(token, Cause::TypeFault)
            }
        }
    }
}

fn summed(
    scope: &Scope<'_>,
    target: Option<Column>,
    token: Token,
    number: Token,
    value: Option<i64>,
) -> Checked<Expr>
    ensures { result ≡ act.summed (names_of scope.now) target token number value }
{
    let place = place_in(scope.column_place(token));
    Checked {
        value: Expr::Sum(place, or_zero(value)),
        fault: sum_fault(target, scope.column_of(token), token, number, value),
    }
}

#[tactic(auto, unfolding(crate::specs::Actions::right_of))]
fn right_of(scope: &Scope<'_>, target: Option<Column>, right: Right) -> Checked<Expr>
    ensures { result ≡ act.right_of (names_of scope.now) target right }
{
    match right {
        Right::Literal(literal) => Checked {
            value: Expr::Literal(stored_value(scope.line, literal)),
            fault: literal_fault(scope.line, target, literal),
        },
        Right::Column(token) => Checked {
            value: Expr::Column(place_in(scope.column_place(token))),
            fault: column_fault(target, scope.column_of(token), token),
        },
        Right::Plus(token, number) => {
            summed(scope, target, token, number, added(scope.line, number))
        }
        Right::Minus(token, number) => {
            summed(scope, target, token, number, taken(scope.line, number))
        }
    }
}

fn is_set(made: &[Assignment], place: u8) -> bool
    ensures { result ≡ act.is_set made.now place }
{
    made.iter().any(|other| other.column == place)
}

fn target_fault(made: &[Assignment], column: Token, place: Option<u8>) -> Option<Fault>
    ensures { result ≡ act.target_fault made.now column place }
{
    match place {
        None => fault_at(column, Cause::Unknown),
        Some(place) => {
            if is_set(made, place) {
                fault_at(column, Cause::Duplicate)
            } else {
                None
            }
        }
    }
}

#[tactic(auto, unfolding(crate::specs::Actions::assignment_of))]
fn assignment_of(scope: &Scope<'_>, made: &[Assignment], target: &Target) -> Checked<Assignment>
    ensures { result ≡ act.assignment_of (names_of scope.now) made.now target.now }
{
    let place = scope.column_place(target.column);
    let right = right_of(scope, scope.column_of(target.column), target.right);
    Checked {
        value: Assignment {
            column: place_in(place),
            expr: right.value,
        },
        fault: least(target_fault(made, target.column, place), right.fault),
    }
}

/// The assignments of an UPDATE, up to the first with a fault; its fault is told. A column is set once. Cost: each
/// assignment is compared with those before it, of which there are at most 8, and a look-up of its names.
pub fn assigned(
    alloc: Global,
    scope: &Scope<'_>,
    mut targets: &[Target],
) -> Result<Checked<Items<Assignment>>, Memory>
    ensures { IfOk result (λ x. x ≡ act.assigned (names_of scope.now) [] targets.entry.now) }
{
    let _: Option<Value> = None;
    let mut made = Items::new(alloc);
    while let [target, rest @ ..] = targets {
        let next = assignment_of(scope, made.as_slice(), target);
        if next.fault.is_some() {
            return Ok(Checked {
                value: made,
                fault: next.fault,
            });
        }
        made.push_copy(&next.value)?;
        targets = rest;
    }
    Ok(Checked {
        value: made,
        fault: None,
    })
}
