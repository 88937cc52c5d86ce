//! What the names of a line may mean.

ghost use Rattle.std.specs.Prelude.{◌≡◌, find};
ghost use Rattle.iso_sql.specs.Names as spec;

use iso_grammar::{Cause, Fault, Token, name, text_of, unless};
use iso_types::{Column, Head, TableId, Text};

/// A line, and the columns of the table that it names; there are none where the table isn't known.
#[derive(Clone, Copy)]
pub struct Scope<'a> {
    pub line: &'a [u8],
    pub columns: &'a [Column],
    pub known: bool,
}

/// The name that a token gives, in capital letters; None exactly where it has more than 32 bytes.
/// Cost: the name's length.
pub fn name_of(line: &[u8], token: Token) -> Option<Text>
    ensures { result ≡ spec.name_of line.now token }
{
    name(text_of(line, token))
}

/// Whether the token gives this name. Cost: the name's length.
#[tactic(auto, unfolding(crate::specs::Names::gives))]
pub fn gives(line: &[u8], token: Token, name: Text) -> bool
    ensures { result ≡ spec.gives line.now token name }
{
    match name_of(line, token) {
        Some(given) => given == name,
        None => false,
    }
}

const TABLES: [u8; 16] = [0, 1, 2, 3, 4, 5, 6, 7, 8, 9, 10, 11, 12, 13, 14, 15];

const COLUMNS: [u8; 8] = [0, 1, 2, 3, 4, 5, 6, 7];

fn is_table_at(head: &Head, line: &[u8], token: Token, place: u8) -> bool
    ensures { result ≡ spec.is_table_at head.now line.now token place }
{
    match head.tables.get(place as usize) {
        Some(table) => gives(line, token, table.name),
        None => false,
    }
}

fn first_table(head: &Head, line: &[u8], token: Token, mut places: &[u8]) -> Option<u8>
    ensures { result ≡ find (spec.is_table_at head.now line.now token) places.entry.now }
{
    while let [place, rest @ ..] = places {
        if is_table_at(head, line, token, *place) {
            return Some(*place);
        }
        places = rest;
    }
    None
}

/// The place of the table that the token names, from 0; None exactly where it names none.
/// Cost: at most a comparison with each of 16 names.
#[tactic(auto, unfolding(crate::specs::Names::table_place))]
pub fn table_place(head: &Head, line: &[u8], token: Token) -> Option<u8>
    ensures { result ≡ spec.table_place head.now line.now token }
{
    first_table(head, line, token, &TABLES)
}

/// The table that the token names; the first where it names none. Cost: as that of `table_place`.
#[tactic(auto, unfolding(crate::specs::Names::table_of))]
pub fn table_of(head: &Head, line: &[u8], token: Token) -> TableId
    ensures { result ≡ spec.table_of head.now line.now token }
{
    match table_place(head, line, token) {
        Some(place) => TableId(place),
        None => TableId(0),
    }
}

fn columns_in(head: &Head, place: Option<u8>) -> &[Column]
    ensures { result.now ≡ spec.columns_in head.now place }
{
    match place {
        Some(place) => match head.tables.get(place as usize) {
            Some(table) => table.columns.as_slice(),
            None => &[],
        },
        None => &[],
    }
}

/// The names of a statement over the table that the token names. Cost: as that of `table_place`.
#[tactic(auto, unfolding(crate::specs::Names::table_names))]
pub fn scope_of<'a>(head: &'a Head, line: &'a [u8], token: Token) -> Scope<'a>
    ensures { spec.names_of result ≡ spec.table_names head.now line.now token }
{
    let place = table_place(head, line, token);
    Scope {
        line,
        columns: columns_in(head, place),
        known: place.is_some(),
    }
}

fn is_column_at(scope: &Scope<'_>, token: Token, place: u8) -> bool
    ensures { result ≡ spec.is_column_at (spec.names_of scope.now) token place }
{
    match scope.columns.get(place as usize) {
        Some(column) => gives(scope.line, token, column.name),
        None => false,
    }
}

fn first_column(scope: &Scope<'_>, token: Token, mut places: &[u8]) -> Option<u8>
    ensures { result ≡ find (spec.is_column_at (spec.names_of scope.now) token) places.entry.now }
{
    while let [place, rest @ ..] = places {
        if is_column_at(scope, token, *place) {
            return Some(*place);
        }
        places = rest;
    }
    None
}

impl Scope<'_> {
    /// The fault of a table that isn't declared: `Unknown` at the token.
    #[tactic(auto, unfolding(crate::specs::Names::table_fault))]
    pub fn table_fault(&self, table: Token) -> Option<Fault>
        ensures { result ≡ spec.table_fault (spec.names_of self.now) table }
    {
        unless(self.known, table, Cause::Unknown)
    }

    /// The place of the column that the token names, from 0; None exactly where it names none.
    /// Cost: at most a comparison with each of 8 names.
    #[tactic(auto, unfolding(crate::specs::Names::column_place))]
    pub fn column_place(&self, token: Token) -> Option<u8>
        ensures { result ≡ spec.column_place (spec.names_of self.now) token }
    {
        first_column(self, token, &COLUMNS)
    }

    /// The column that the token names; None exactly where it names none. Cost: as that of `column_place`.
    #[tactic(auto, unfolding(crate::specs::Names::column_of))]
    pub fn column_of(&self, token: Token) -> Option<Column>
        ensures { result ≡ spec.column_of (spec.names_of self.now) token }
    {
        match self.column_place(token) {
            Some(place) => self.columns.get(place as usize).copied(),
            None => None,
        }
    }

    /// The fault of a column that isn't declared: `Unknown` at the token. Cost: as that of `column_place`.
    #[tactic(auto, unfolding(crate::specs::Names::name_fault))]
    pub fn name_fault(&self, column: Token) -> Option<Fault>
        ensures { result ≡ spec.name_fault (spec.names_of self.now) column }
    {
        unless(self.column_place(column).is_some(), column, Cause::Unknown)
    }
}
