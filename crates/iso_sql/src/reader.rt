//! Reads statements.

ghost use Rattle.std.specs.Prelude.{◌≡◌, IfOk};
ghost use Rattle.iso_grammar.specs.Reading.{Gives};
ghost use Rattle.iso_sql.specs.Names.{names_of, table_names};
ghost use Rattle.iso_sql.specs.Actions as act;
ghost use Rattle.iso_sql.specs.StatementReading as spec;

use crate::assignment::{Target, assigned, targets};
use crate::condition::condition;
use crate::found::limited;
use crate::level::level;
use crate::list::{
    Chosen, Listed, columns_at, items, items_of, maybe_columns, places_of, separated,
};
use crate::rows::{placed_row, stored_fault, stored_row};
use crate::scope::{Scope, scope_of, table_of};
use crate::short::short_statement;
use crate::statement::{Condition, Sets, Statement};
use iso_grammar::{Checked, Kind, ReadError, Token, Tokens, least};
use iso_types::{Head, Isolation, Items, Memory, Row};
use std::alloc::Global;

#[tactic(auto, unfolding(crate::specs::StatementReading::where_))]
fn where_clause(
    alloc: Global,
    scope: &Scope<'_>,
    tokens: &mut Tokens<'_>,
    bound: usize,
) -> Result<Checked<Condition>, ReadError>
    requires most { tokens.old.most ≡ bound }
    ensures { Gives (spec.where_ (names_of scope.now) bound) tokens.old result tokens.new }
{
    tokens.expect(Kind::Where)?;
    let found = condition(alloc, scope, tokens, bound)?;
    Ok(limited(found))
}

#[tactic(auto, unfolding(crate::specs::StatementReading::filter))]
fn filter(
    alloc: Global,
    scope: &Scope<'_>,
    tokens: &mut Tokens<'_>,
    bound: usize,
) -> Result<Checked<Condition>, ReadError>
    requires most { tokens.old.most ≡ bound }
    ensures { Gives (spec.filter (names_of scope.now) bound) tokens.old result tokens.new }
{
    if tokens.sees(Kind::Where) {
        where_clause(alloc, scope, tokens, bound)
    } else {
        Ok(Checked {
            value: Condition::Always,
            fault: None,
        })
    }
}

#[tactic(auto, unfolding(crate::specs::Actions::selected))]
fn selected(
    alloc: Global,
    head: &Head,
    line: &[u8],
    scope: &Scope<'_>,
    chosen: Chosen,
    table: Token,
    cond: Checked<Condition>,
    level: Option<Isolation>,
) -> Result<Checked<Statement>, Memory>
    requires { names_of scope.now ≡ table_names head.now line.now table }
    ensures { IfOk result (λ x. x ≡ act.selected head.now line.now chosen table cond level) }
{
    let items = items_of(alloc, scope, chosen)?;
    Ok(Checked {
        value: Statement::Select {
            table: table_of(head, line, table),
            items: items.value,
            cond: cond.value,
            level,
        },
        fault: least(items.fault, least(scope.table_fault(table), cond.fault)),
    })
}

#[tactic(auto, unfolding(crate::specs::StatementReading::select))]
fn select(
    alloc: Global,
    head: &Head,
    line: &[u8],
    tokens: &mut Tokens<'_>,
    bound: usize,
) -> Result<Checked<Statement>, ReadError>
    requires most { tokens.old.most ≡ bound }
    ensures { Gives (spec.select head.now line.now bound) tokens.old result tokens.new }
{
    tokens.expect(Kind::Select)?;
    let chosen = items(alloc, tokens, bound)?;
    tokens.expect(Kind::From)?;
    let table = tokens.expect(Kind::Name)?;
    let scope = scope_of(head, line, table);
    let cond = filter(alloc, &scope, tokens, bound)?;
    let level = level(tokens)?;
    Ok(selected(alloc, head, line, &scope, chosen, table, cond, level)?)
}

fn all_row(
    alloc: Global,
    scope: &Scope<'_>,
    literals: &[Token],
    close: Token,
) -> Result<Checked<Row>, Memory>
    ensures { IfOk result (λ x. x ≡ act.all_row (names_of scope.now) literals.now close) }
{
    Ok(Checked {
        value: stored_row(alloc, scope.line, literals)?,
        fault: stored_fault(false, scope.line, scope.columns, literals, close),
    })
}

fn listed_row(
    alloc: Global,
    scope: &Scope<'_>,
    columns: &[Token],
    literals: &[Token],
    close: Token,
) -> Result<Checked<Row>, Memory>
    ensures { IfOk result (λ x. x ≡ act.listed_row (names_of scope.now) columns.now literals.now close) }
{
    let places = places_of(alloc, scope, columns)?;
    let stored = columns_at(alloc, scope, places.value.as_slice())?;
    let fault = stored_fault(false, scope.line, stored.as_slice(), literals, close);
    let width = scope.columns.len();
    Ok(Checked {
        value: placed_row(alloc, width, scope.line, places.value.as_slice(), literals)?,
        fault: least(places.fault, fault),
    })
}

fn row_of(
    alloc: Global,
    scope: &Scope<'_>,
    columns: Option<Items<Token>>,
    literals: &[Token],
    close: Token,
) -> Result<Checked<Row>, Memory>
    ensures { IfOk result (λ x. x ≡ act.row_of (names_of scope.now) columns literals.now close) }
{
    match columns {
        None => all_row(alloc, scope, literals, close),
        Some(columns) => listed_row(alloc, scope, columns.as_slice(), literals, close),
    }
}

#[tactic(auto, unfolding(crate::specs::Actions::inserted))]
fn inserted(
    alloc: Global,
    head: &Head,
    line: &[u8],
    table: Token,
    columns: Option<Items<Token>>,
    literals: &[Token],
    close: Token,
) -> Result<Checked<Statement>, Memory>
    ensures { IfOk result (λ x. x ≡ act.inserted head.now line.now table columns literals.now close) }
{
    let scope = scope_of(head, line, table);
    let row = row_of(alloc, &scope, columns, literals, close)?;
    Ok(Checked {
        value: Statement::Insert {
            table: table_of(head, line, table),
            row: row.value,
        },
        fault: least(scope.table_fault(table), row.fault),
    })
}

#[tactic(auto, unfolding(crate::specs::StatementReading::insert))]
fn insert(
    alloc: Global,
    head: &Head,
    line: &[u8],
    tokens: &mut Tokens<'_>,
    bound: usize,
) -> Result<Checked<Statement>, ReadError>
    requires most { tokens.old.most ≡ bound }
    ensures { Gives (spec.insert head.now line.now bound) tokens.old result tokens.new }
{
    tokens.expect(Kind::Insert)?;
    tokens.expect(Kind::Into)?;
    let table = tokens.expect(Kind::Name)?;
    let columns = maybe_columns(alloc, tokens, bound)?;
    tokens.expect(Kind::Values)?;
    tokens.expect(Kind::Open)?;
    let literals = separated(alloc, Listed::Literal, tokens, bound)?;
    let close = tokens.expect(Kind::Close)?;
    Ok(inserted(
        alloc,
        head,
        line,
        table,
        columns,
        literals.as_slice(),
        close,
    )?)
}

#[tactic(auto, unfolding(crate::specs::Actions::updated))]
fn updated(
    alloc: Global,
    head: &Head,
    line: &[u8],
    scope: &Scope<'_>,
    table: Token,
    targets: &[Target],
    cond: Checked<Condition>,
    level: Option<Isolation>,
) -> Result<Checked<Statement>, Memory>
    requires { names_of scope.now ≡ table_names head.now line.now table }
    ensures { IfOk result (λ x. x ≡ act.updated head.now line.now table targets.now cond level) }
{
    let sets = assigned(alloc, scope, targets)?;
    Ok(Checked {
        value: Statement::Update {
            table: table_of(head, line, table),
            sets: Sets { list: sets.value },
            cond: cond.value,
            level,
        },
        fault: least(scope.table_fault(table), least(sets.fault, cond.fault)),
    })
}

#[tactic(auto, unfolding(crate::specs::StatementReading::update))]
fn update(
    alloc: Global,
    head: &Head,
    line: &[u8],
    tokens: &mut Tokens<'_>,
    bound: usize,
) -> Result<Checked<Statement>, ReadError>
    requires most { tokens.old.most ≡ bound }
    ensures { Gives (spec.update head.now line.now bound) tokens.old result tokens.new }
{
    tokens.expect(Kind::Update)?;
    let table = tokens.expect(Kind::Name)?;
    tokens.expect(Kind::Set)?;
    let targets = targets(alloc, tokens, bound)?;
    let scope = scope_of(head, line, table);
    let cond = filter(alloc, &scope, tokens, bound)?;
    let level = level(tokens)?;
    Ok(updated(
        alloc,
        head,
        line,
        &scope,
        table,
        targets.as_slice(),
        cond,
        level,
    )?)
}

#[tactic(auto, unfolding(crate::specs::Actions::deleted))]
fn deleted(
    head: &Head,
    line: &[u8],
    scope: &Scope<'_>,
    table: Token,
    cond: Checked<Condition>,
    level: Option<Isolation>,
) -> Checked<Statement>
    requires { names_of scope.now ≡ table_names head.now line.now table }
    ensures { result ≡ act.deleted head.now line.now table cond level }
{
    Checked {
        value: Statement::Delete {
            table: table_of(head, line, table),
            cond: cond.value,
            level,
        },
        fault: least(scope.table_fault(table), cond.fault),
    }
}

#[tactic(auto, unfolding(crate::specs::StatementReading::delete))]
fn delete(
    alloc: Global,
    head: &Head,
    line: &[u8],
    tokens: &mut Tokens<'_>,
    bound: usize,
) -> Result<Checked<Statement>, ReadError>
    requires most { tokens.old.most ≡ bound }
    ensures { Gives (spec.delete head.now line.now bound) tokens.old result tokens.new }
{
    tokens.expect(Kind::Delete)?;
    tokens.expect(Kind::From)?;
    let table = tokens.expect(Kind::Name)?;
    let scope = scope_of(head, line, table);
    let cond = filter(alloc, &scope, tokens, bound)?;
    let level = level(tokens)?;
    Ok(deleted(head, line, &scope, table, cond, level))
}

/// Takes a statement over the tables of the head; the line is the text that the tokens are of, and `bound` the cursor's
/// `most`.
///
/// A statement comes with its least fault; with a fault the statement says nothing. `ReadError::Syntax` tells how many
/// tokens are left at the first with which no statement goes on, `ReadError::Memory` is want of memory. Cost: one pass over
/// the tokens, and a look-up for each name. The grammar is a part of Db2's (SQL reference); its limits and that names and
/// types are judged beforehand are this project's own.
#[tactic(auto, unfolding(crate::specs::StatementReading::statement))]
pub fn take_statement(
    alloc: Global,
    head: &Head,
    line: &[u8],
    tokens: &mut Tokens<'_>,
    bound: usize,
) -> Result<Checked<Statement>, ReadError>
    requires most { tokens.old.most ≡ bound }
    ensures { Gives (spec.statement head.now line.now bound) tokens.old result tokens.new }
{
    if tokens.sees(Kind::Select) {
        select(alloc, head, line, tokens, bound)
    } else if tokens.sees(Kind::Insert) {
        insert(alloc, head, line, tokens, bound)
    } else if tokens.sees(Kind::Update) {
        update(alloc, head, line, tokens, bound)
    } else if tokens.sees(Kind::Delete) {
        delete(alloc, head, line, tokens, bound)
    } else {
        short_statement(head, line, tokens)
    }
}
