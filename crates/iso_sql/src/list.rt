//! Lists of columns and of literals.

ghost use Rattle.std.specs.Prelude.{◌≡◌, ◌++◌, ◌∷◌, [], IfOk, slice_get};
ghost use Rattle.iso_grammar.specs.Reading.{Gives};
ghost use Rattle.iso_sql.specs.Names.{names_of};
ghost use Rattle.iso_sql.specs.Actions as act;
ghost use Rattle.iso_sql.specs.StatementReading as spec;

use crate::scope::Scope;
use crate::statement::Items2;
use iso_grammar::{Cause, Checked, Kind, ReadError, Token, Tokens, fault_at};
use iso_types::{Column, Items, Memory};
use std::alloc::Global;

/// What a list holds: columns, or literals that are to be stored.
#[derive(Clone, Copy)]
pub enum Listed {
    Column,
    Literal,
}

/// The items of a SELECT: all columns, the number of rows, or these columns.
#[derive(Drop)]
pub enum Chosen {
    All,
    Count,
    Columns(Items<Token>),
}

#[tactic(auto, unfolding(crate::specs::StatementReading::stored))]
pub fn stored(tokens: &mut Tokens<'_>) -> Result<Token, ReadError>
    ensures { Gives (spec.stored) tokens.old result tokens.new }
{
    if tokens.sees(Kind::Integer) {
        tokens.expect(Kind::Integer)
    } else if tokens.sees(Kind::One) {
        tokens.expect(Kind::One)
    } else if tokens.sees(Kind::Text) {
        tokens.expect(Kind::Text)
    } else {
        tokens.expect(Kind::Null)
    }
}

fn item(which: Listed, tokens: &mut Tokens<'_>) -> Result<Token, ReadError>
    ensures { Gives (spec.item which) tokens.old result tokens.new }
{
    match which {
        Listed::Column => tokens.expect(Kind::Name),
        Listed::Literal => stored(tokens),
    }
}

fn next_item(which: Listed, tokens: &mut Tokens<'_>) -> Result<Token, ReadError>
    ensures { Gives (spec.next_item which) tokens.old result tokens.new }
{
    tokens.expect(Kind::Comma)?;
    item(which, tokens)
}

/// Takes one or more items with commas between them.
#[tactic(auto, unfolding(crate::specs::StatementReading::separated))]
pub fn separated(
    alloc: Global,
    which: Listed,
    tokens: &mut Tokens<'_>,
    bound: usize,
) -> Result<Items<Token>, ReadError>
    requires most { tokens.old.most ≡ bound }
    ensures { Gives (spec.separated which bound) tokens.old result tokens.new }
{
    let first = item(which, tokens)?;
    let mut all = Items::new(alloc);
    all.push(first)?;
    for _turn in 0..bound {
        if !tokens.sees(Kind::Comma) {
            break;
        }
        let next = next_item(which, tokens)?;
        all.push(next)?;
    }
    Ok(all)
}

#[tactic(auto, unfolding(crate::specs::StatementReading::column_list))]
fn column_list(
    alloc: Global,
    tokens: &mut Tokens<'_>,
    bound: usize,
) -> Result<Items<Token>, ReadError>
    requires most { tokens.old.most ≡ bound }
    ensures { Gives (spec.column_list bound) tokens.old result tokens.new }
{
    tokens.expect(Kind::Open)?;
    let columns = separated(alloc, Listed::Column, tokens, bound)?;
    tokens.expect(Kind::Close)?;
    Ok(columns)
}

/// Takes a list of columns in parentheses, if one comes next.
#[tactic(auto, unfolding(crate::specs::StatementReading::maybe_columns))]
pub fn maybe_columns(
    alloc: Global,
    tokens: &mut Tokens<'_>,
    bound: usize,
) -> Result<Option<Items<Token>>, ReadError>
    requires most { tokens.old.most ≡ bound }
    ensures { Gives (spec.maybe_columns bound) tokens.old result tokens.new }
{
    if tokens.sees(Kind::Open) {
        Ok(Some(column_list(alloc, tokens, bound)?))
    } else {
        Ok(None)
    }
}

#[tactic(auto, unfolding(crate::specs::StatementReading::all_items))]
fn all_items(tokens: &mut Tokens<'_>) -> Result<Chosen, ReadError>
    ensures { Gives (spec.all_items) tokens.old result tokens.new }
{
    tokens.expect(Kind::Star)?;
    Ok(Chosen::All)
}

#[tactic(auto, unfolding(crate::specs::StatementReading::counted))]
fn counted(tokens: &mut Tokens<'_>) -> Result<Chosen, ReadError>
    ensures { Gives (spec.counted) tokens.old result tokens.new }
{
    tokens.expect(Kind::Count)?;
    tokens.expect(Kind::Open)?;
    tokens.expect(Kind::Star)?;
    tokens.expect(Kind::Close)?;
    Ok(Chosen::Count)
}

#[tactic(auto, unfolding(crate::specs::StatementReading::column_items))]
fn column_items(alloc: Global, tokens: &mut Tokens<'_>, bound: usize) -> Result<Chosen, ReadError>
    requires most { tokens.old.most ≡ bound }
    ensures { Gives (spec.column_items bound) tokens.old result tokens.new }
{
    let columns = separated(alloc, Listed::Column, tokens, bound)?;
    Ok(Chosen::Columns(columns))
}

/// Takes the items of a SELECT.
#[tactic(auto, unfolding(crate::specs::StatementReading::items))]
pub fn items(alloc: Global, tokens: &mut Tokens<'_>, bound: usize) -> Result<Chosen, ReadError>
    requires most { tokens.old.most ≡ bound }
    ensures { Gives (spec.items bound) tokens.old result tokens.new }
{
    if tokens.sees(Kind::Star) {
        all_items(tokens)
    } else if tokens.sees(Kind::Count) {
        counted(tokens)
    } else {
        column_items(alloc, tokens, bound)
    }
}

fn has_place(places: &[u8], place: u8) -> bool
    ensures { result ≡ act.has_place places.now place }
{
    places.iter().any(|other| *other == place)
}

/// The places of these columns, up to the first that isn't declared (`Unknown`) or stands a second time (`Duplicate`).
pub fn places_of(
    alloc: Global,
    scope: &Scope<'_>,
    mut columns: &[Token],
) -> Result<Checked<Items<u8>>, Memory>
    ensures { IfOk result (λ x. x ≡ act.listed (names_of scope.now) [] columns.entry.now) }
{
    let mut places = Items::new(alloc);
    while let [column, rest @ ..] = columns {
        let Some(place) = scope.column_place(*column) else {
            return Ok(Checked {
                value: places,
                fault: fault_at(*column, Cause::Unknown),
            });
        };
        if has_place(places.as_slice(), place) {
            return Ok(Checked {
                value: places,
                fault: fault_at(*column, Cause::Duplicate),
            });
        }
        places.push(place)?;
        columns = rest;
    }
    Ok(Checked {
        value: places,
        fault: None,
    })
}

fn column_at(scope: &Scope<'_>, place: u8) -> Option<Column>
    ensures { result ≡ slice_get scope.now.columns.now place }
{
    scope.columns.get(place as usize).copied()
}

fn with_column(mut columns: Items<Column>, column: Option<Column>) -> Result<Items<Column>, Memory>
    ensures { IfOk result (λ all. all ≡ columns ++ act.and_column column []) }
{
    if let Some(column) = column {
        columns.push(column)?;
    }
    Ok(columns)
}

/// The columns in these places.
#[tactic(auto, using(crate::proofs::Gathered::adds))]
pub fn columns_at(
    alloc: Global,
    scope: &Scope<'_>,
    mut places: &[u8],
) -> Result<Items<Column>, Memory>
    ensures { IfOk result (λ columns. columns ≡ act.columns_at (names_of scope.now) places.entry.now) }
{
    let mut found = Items::new(alloc);
    while let [place, rest @ ..] = places {
        found = with_column(found, column_at(scope, *place))?;
        places = rest;
    }
    Ok(found)
}

/// What a SELECT gives.
pub fn items_of(alloc: Global, scope: &Scope<'_>, chosen: Chosen) -> Result<Checked<Items2>, Memory>
    ensures { IfOk result (λ x. x ≡ act.items_of (names_of scope.now) chosen) }
{
    match chosen {
        Chosen::All => Ok(Checked {
            value: Items2::All,
            fault: None,
        }),
        Chosen::Count => Ok(Checked {
            value: Items2::Count,
            fault: None,
        }),
        Chosen::Columns(columns) => {
            let places = places_of(alloc, scope, columns.as_slice())?;
            Ok(Checked {
                value: Items2::Columns(places.value),
                fault: places.fault,
            })
        }
    }
}
