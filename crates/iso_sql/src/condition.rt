//! Reads conditions.

ghost use Rattle.std.specs.Prelude.{◌≡◌, ◌<◌, ◌≤◌, ◌+◌, ◌^◌, true, IfOk};
ghost use Rattle.iso_grammar.specs.Reading.{Gives};
ghost use Rattle.iso_sql.specs.Names.{names_of};
ghost use Rattle.iso_sql.specs.ConditionReading as spec;

use crate::found::{Found, any, between_found, both, compared_found, hidden, negated, null_found};
use crate::scope::Scope;
use crate::statement::Op;
use iso_grammar::{Kind, ReadError, Token, Tokens};
use std::alloc::Global;

const MAX_DEPTH: usize = 32;

#[tactic(auto, unfolding(crate::specs::ConditionReading::literal))]
fn literal(tokens: &mut Tokens<'_>) -> Result<Token, ReadError>
    ensures { Gives (spec.literal) tokens.old result tokens.new }
{
    if tokens.sees(Kind::Integer) {
        tokens.expect(Kind::Integer)
    } else if tokens.sees(Kind::One) {
        tokens.expect(Kind::One)
    } else {
        tokens.expect(Kind::Text)
    }
}

fn as_op(tokens: &mut Tokens<'_>, kind: Kind, op: Op) -> Result<Op, ReadError>
    ensures { Gives (spec.word kind op) tokens.old result tokens.new }
{
    tokens.expect(kind)?;
    Ok(op)
}

#[tactic(auto, unfolding(crate::specs::ConditionReading::operator))]
fn operator(tokens: &mut Tokens<'_>) -> Result<Op, ReadError>
    ensures { Gives (spec.operator) tokens.old result tokens.new }
{
    if tokens.sees(Kind::Equal) {
        as_op(tokens, Kind::Equal, Op::Eq)
    } else if tokens.sees(Kind::NotEqual) {
        as_op(tokens, Kind::NotEqual, Op::Ne)
    } else if tokens.sees(Kind::Less) {
        as_op(tokens, Kind::Less, Op::Lt)
    } else if tokens.sees(Kind::LessEqual) {
        as_op(tokens, Kind::LessEqual, Op::Le)
    } else if tokens.sees(Kind::Greater) {
        as_op(tokens, Kind::Greater, Op::Gt)
    } else {
        as_op(tokens, Kind::GreaterEqual, Op::Ge)
    }
}

#[tactic(auto, unfolding(crate::specs::ConditionReading::maybe_not))]
fn maybe_not(tokens: &mut Tokens<'_>) -> Result<Option<Token>, ReadError>
    ensures { Gives (spec.maybe_not) tokens.old result tokens.new }
{
    tokens.take(Kind::Not)
}

#[tactic(auto, unfolding(crate::specs::ConditionReading::compared))]
fn compared(
    alloc: Global,
    scope: &Scope<'_>,
    tokens: &mut Tokens<'_>,
    column: Token,
) -> Result<Found, ReadError>
    ensures { Gives (spec.compared (names_of scope.now) column) tokens.old result tokens.new }
{
    let how = operator(tokens)?;
    let value = literal(tokens)?;
    Ok(compared_found(alloc, scope, column, how, value)?)
}

#[tactic(auto, unfolding(crate::specs::ConditionReading::between))]
fn between(
    alloc: Global,
    scope: &Scope<'_>,
    tokens: &mut Tokens<'_>,
    column: Token,
) -> Result<Found, ReadError>
    ensures { Gives (spec.between (names_of scope.now) column) tokens.old result tokens.new }
{
    let not_word = maybe_not(tokens)?;
    tokens.expect(Kind::Between)?;
    let low = literal(tokens)?;
    tokens.expect(Kind::And)?;
    let high = literal(tokens)?;
    let between = between_found(alloc, scope, column, low, high)?;
    Ok(negated(alloc, not_word, between)?)
}

#[tactic(auto, unfolding(crate::specs::ConditionReading::is_null))]
fn is_null(
    alloc: Global,
    scope: &Scope<'_>,
    tokens: &mut Tokens<'_>,
    column: Token,
) -> Result<Found, ReadError>
    ensures { Gives (spec.is_null (names_of scope.now) column) tokens.old result tokens.new }
{
    tokens.expect(Kind::Is)?;
    let not_word = maybe_not(tokens)?;
    tokens.expect(Kind::Null)?;
    let is_null = null_found(alloc, scope, column)?;
    Ok(negated(alloc, not_word, is_null)?)
}

#[tactic(auto, unfolding(crate::specs::ConditionReading::comparison))]
fn comparison(alloc: Global, scope: &Scope<'_>, tokens: &mut Tokens<'_>) -> Result<Found, ReadError>
    ensures { Gives (spec.comparison (names_of scope.now)) tokens.old result tokens.new }
{
    let column = tokens.expect(Kind::Name)?;
    if tokens.sees_either(Kind::Not, Kind::Between) {
        between(alloc, scope, tokens, column)
    } else if tokens.sees(Kind::Is) {
        is_null(alloc, scope, tokens, column)
    } else {
        compared(alloc, scope, tokens, column)
    }
}

/// Takes the rest of a condition and the parenthesis that closes it, however deep its parentheses are.
fn skip(
    alloc: Global,
    scope: &Scope<'_>,
    tokens: &mut Tokens<'_>,
    bound: usize,
) -> Result<(), ReadError>
    requires { bound < 2 ^ 63 }
    ensures { Gives (spec.scan (names_of scope.now) bound 1 true) tokens.old result tokens.new }
{
    let mut open = 1usize;
    let mut wants = true;
    for _turn in 0..bound {
        if wants {
            maybe_not(tokens)?;
            if tokens.sees(Kind::Open) {
                tokens.expect(Kind::Open)?;
                open += 1;
            } else {
                comparison(alloc, scope, tokens)?;
                wants = false;
            }
        } else if open == 0 {
            return Ok(());
        } else if tokens.sees(Kind::And) {
            tokens.expect(Kind::And)?;
            wants = true;
        } else if tokens.sees(Kind::Or) {
            tokens.expect(Kind::Or)?;
            wants = true;
        } else {
            tokens.expect(Kind::Close)?;
            open -= 1;
        }
    }
    Err(ReadError::Syntax(tokens.left()))
}

/// A parenthesis at the greatest depth, whose inside is only skipped.
fn deep_paren(alloc: Global, scope: &Scope<'_>, tokens: &mut Tokens<'_>) -> Result<Found, ReadError>
    ensures { Gives (spec.deep_paren (names_of scope.now)) tokens.old result tokens.new }
{
    let open = tokens.expect(Kind::Open)?;
    let bound = tokens.turns();
    skip(alloc, scope, tokens, bound)?;
    Ok(hidden(alloc, open))
}

/// A parenthesis whose inside is read.
#[cycle(condition)]
fn open_paren(
    alloc: Global,
    scope: &Scope<'_>,
    tokens: &mut Tokens<'_>,
    depth: usize,
    bound: usize,
) -> Result<Found, ReadError>
    requires depth { depth < 32 }
    requires most { tokens.old.most ≡ bound }
    ensures { Gives (spec.open_paren (names_of scope.now) depth bound) tokens.old result tokens.new }
{
    tokens.expect(Kind::Open)?;
    let inner = disjunction(alloc, scope, tokens, depth + 1, bound)?;
    tokens.expect(Kind::Close)?;
    Ok(inner)
}

/// What stands in parentheses inside so many others.
#[cycle(condition)]
fn paren(
    alloc: Global,
    scope: &Scope<'_>,
    tokens: &mut Tokens<'_>,
    depth: usize,
    bound: usize,
) -> Result<Found, ReadError>
    requires depth { depth ≤ 32 }
    requires most { tokens.old.most ≡ bound }
    ensures { Gives (spec.paren_at (names_of scope.now) depth bound) tokens.old result tokens.new }
{
    let _most = tokens.most();
    if depth >= MAX_DEPTH {
        deep_paren(alloc, scope, tokens)
    } else {
        open_paren(alloc, scope, tokens, depth, bound)
    }
}

#[cycle(condition)]
#[tactic(auto, unfolding(crate::specs::ConditionReading::negation))]
fn negation(
    alloc: Global,
    scope: &Scope<'_>,
    tokens: &mut Tokens<'_>,
    depth: usize,
    bound: usize,
) -> Result<Found, ReadError>
    requires depth { depth ≤ 32 }
    requires most { tokens.old.most ≡ bound }
    ensures { Gives (spec.negation (names_of scope.now) (spec.paren_at (names_of scope.now) depth bound)) tokens.old result tokens.new }
{
    let not_word = maybe_not(tokens)?;
    let inner = if tokens.sees(Kind::Open) {
        paren(alloc, scope, tokens, depth, bound)?
    } else {
        comparison(alloc, scope, tokens)?
    };
    Ok(negated(alloc, not_word, inner)?)
}

#[cycle(condition)]
fn and_next(
    alloc: Global,
    scope: &Scope<'_>,
    tokens: &mut Tokens<'_>,
    depth: usize,
    bound: usize,
) -> Result<Found, ReadError>
    requires depth { depth ≤ 32 }
    requires most { tokens.old.most ≡ bound }
    ensures { Gives (spec.and_next (names_of scope.now) (spec.paren_at (names_of scope.now) depth bound)) tokens.old result tokens.new }
{
    tokens.expect(Kind::And)?;
    negation(alloc, scope, tokens, depth, bound)
}

#[cycle(condition)]
#[tactic(auto, unfolding(crate::specs::ConditionReading::conjunction))]
fn conjunction(
    alloc: Global,
    scope: &Scope<'_>,
    tokens: &mut Tokens<'_>,
    depth: usize,
    bound: usize,
) -> Result<Found, ReadError>
    requires depth { depth ≤ 32 }
    requires most { tokens.old.most ≡ bound }
    ensures { Gives (spec.conjunction (names_of scope.now) (spec.paren_at (names_of scope.now) depth bound) bound) tokens.old result tokens.new }
{
    let mut all = negation(alloc, scope, tokens, depth, bound)?;
    for _turn in 0..bound {
        if !tokens.sees(Kind::And) {
            break;
        }
        let next = and_next(alloc, scope, tokens, depth, bound)?;
        all = both(alloc, all, next)?;
    }
    Ok(all)
}

#[cycle(condition)]
fn or_next(
    alloc: Global,
    scope: &Scope<'_>,
    tokens: &mut Tokens<'_>,
    depth: usize,
    bound: usize,
) -> Result<Found, ReadError>
    requires depth { depth ≤ 32 }
    requires most { tokens.old.most ≡ bound }
    ensures { Gives (spec.or_next (names_of scope.now) (spec.paren_at (names_of scope.now) depth bound) bound) tokens.old result tokens.new }
{
    tokens.expect(Kind::Or)?;
    conjunction(alloc, scope, tokens, depth, bound)
}

#[cycle(condition)]
#[tactic(auto, unfolding(crate::specs::ConditionReading::disjunction))]
fn disjunction(
    alloc: Global,
    scope: &Scope<'_>,
    tokens: &mut Tokens<'_>,
    depth: usize,
    bound: usize,
) -> Result<Found, ReadError>
    requires depth { depth ≤ 32 }
    requires most { tokens.old.most ≡ bound }
    ensures { Gives (spec.disjunction (names_of scope.now) (spec.paren_at (names_of scope.now) depth bound) bound) tokens.old result tokens.new }
{
    let mut all = conjunction(alloc, scope, tokens, depth, bound)?;
    for _turn in 0..bound {
        if !tokens.sees(Kind::Or) {
            break;
        }
        let next = or_next(alloc, scope, tokens, depth, bound)?;
        all = any(alloc, all, next)?;
    }
    Ok(all)
}

/// Takes a condition. Parentheses may be of any depth; the code calls itself 32 deep at most.
/// Cost: one pass over its tokens.
#[tactic(auto, unfolding(crate::specs::ConditionReading::condition))]
pub fn condition(
    alloc: Global,
    scope: &Scope<'_>,
    tokens: &mut Tokens<'_>,
    bound: usize,
) -> Result<Found, ReadError>
    requires most { tokens.old.most ≡ bound }
    ensures { Gives (spec.condition (names_of scope.now) bound) tokens.old result tokens.new }
{
    disjunction(alloc, scope, tokens, 0, bound)
}
