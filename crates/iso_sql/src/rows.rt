//! Literals that are to be stored, against the columns that they are for.

ghost use Rattle.std.specs.Prelude.{◌≡◌, IfOk};
ghost use Rattle.iso_types.specs.Head as typing;
ghost use Rattle.iso_types.specs.declared.value.Value.TheVariants as value;
ghost use Rattle.iso_sql.specs.Rows as spec;

use iso_grammar::{Cause, Fault, Token, fault_at, value_of};
use iso_types::{Column, ColumnKind, Items, Memory, Row, Text, Value};
use std::alloc::Global;

fn fits_number(kind: ColumnKind, n: i64) -> bool
    ensures { result ≡ typing.fits_kind kind (value.Int n) }
{
    match kind {
        ColumnKind::Integer => -2147483648 <= n && n <= 2147483647,
        ColumnKind::Bigint => i64::MIN <= n && n <= i64::MAX,
        ColumnKind::Varchar(_) => false,
    }
}

fn fits_text(kind: ColumnKind, text: &Text) -> bool
    ensures { result ≡ typing.fits_kind kind (value.Text text.now) }
{
    match kind {
        ColumnKind::Varchar(most) => text.as_bytes().len() <= most as usize,
        _ => false,
    }
}

fn fits_kind(kind: ColumnKind, value: &Value) -> bool
    ensures { result ≡ typing.fits_kind kind value.now }
{
    match value {
        Value::Null => true,
        Value::Int(n) => fits_number(kind, *n),
        Value::Text(text) => fits_text(kind, text),
    }
}

/// Whether the value is NULL. Db2 LUW, 'NULL values'. No memory.
pub fn is_null(value: &Value) -> bool
    ensures { result ≡ typing.is_null value.now }
{
    matches!(value, Value::Null)
}

fn fits_column(column: &Column, value: &Value) -> bool
    ensures { result ≡ typing.fits_column column.now value.now }
{
    fits_kind(column.kind, value) && !(column.required && is_null(value))
}

fn fits(strict: bool, column: &Column, value: &Value) -> bool
    ensures { result ≡ spec.fits strict column.now value.now }
{
    if strict {
        fits_column(column, value)
    } else {
        fits_kind(column.kind, value)
    }
}

/// Whether the literal may be stored in the column: its kind is the column's and it is neither too large nor too long.
/// Where `strict` is set, a NOT NULL column stores no NULL. Cost: the literal's length.
#[tactic(auto, unfolding(crate::specs::Rows::stores))]
pub fn stores(strict: bool, line: &[u8], column: &Column, token: Token) -> bool
    ensures { result ≡ spec.stores strict line.now column.now token }
{
    match value_of(line, token) {
        Some(value) => fits(strict, column, &value),
        None => false,
    }
}

/// What is wrong with literals for these columns: `TypeFault` at the first that its column can't store, at the first that
/// has no column, and at `close` where there are too few. Cost: the literals' length.
pub fn stored_fault(
    strict: bool,
    line: &[u8],
    mut columns: &[Column],
    mut literals: &[Token],
    close: Token,
) -> Option<Fault>
    ensures { result ≡ spec.stored_fault strict line.now columns.entry.now literals.entry.now close }
{
    while let [column, columns_left @ ..] = columns {
        match literals {
            [literal, literals_left @ ..] => {
                if !stores(strict, line, column, *literal) {
                    return fault_at(*literal, Cause::TypeFault);
                }
                columns = columns_left;
                literals = literals_left;
            }
            [] => return fault_at(close, Cause::TypeFault),
        }
    }
    match literals {
        [literal, ..] => fault_at(*literal, Cause::TypeFault),
        [] => None,
    }
}

/// The value of a literal; NULL where it is too long or too large. Cost: the literal's length.
#[tactic(auto, unfolding(crate::specs::Rows::stored_value))]
pub fn stored_value(line: &[u8], token: Token) -> Value
    ensures { result ≡ spec.stored_value line.now token }
{
    match value_of(line, token) {
        Some(value) => value,
        None => Value::Null,
    }
}

/// The row of these literals; `Memory` is want of memory. Cost: the literals' length.
pub fn stored_row(alloc: Global, line: &[u8], literals: &[Token]) -> Result<Row, Memory>
    ensures { IfOk result (λ row. row ≡ spec.stored_row line.now literals.now) }
{
    let mut values = Items::new(alloc);
    for literal in literals {
        let value = stored_value(line, *literal);
        values.push(value)?;
    }
    Row::of(alloc, values.as_slice())
}

fn placed_value(line: &[u8], mut places: &[u8], mut literals: &[Token], place: usize) -> Value
    ensures { result ≡ spec.placed_value line.now places.entry.now literals.entry.now place }
{
    while let [first, places_left @ ..] = places {
        match literals {
            [literal, literals_left @ ..] => {
                if *first as usize == place {
                    return stored_value(line, *literal);
                }
                places = places_left;
                literals = literals_left;
            }
            [] => return Value::Null,
        }
    }
    Value::Null
}

/// The row of a table of so many columns, where the literals are for the columns in these places; NULL stands in all
/// others. `Memory` is want of memory. Cost: the width times the number of places, and the literals' length.
pub fn placed_row(
    alloc: Global,
    width: usize,
    line: &[u8],
    places: &[u8],
    literals: &[Token],
) -> Result<Row, Memory>
    ensures { IfOk result (λ row. row ≡ spec.placed_row width line.now places.now literals.now) }
{
    let mut values = Items::new(alloc);
    for place in 0..width {
        let value = placed_value(line, places, literals, place);
        values.push(value)?;
    }
    Row::of(alloc, values.as_slice())
}
