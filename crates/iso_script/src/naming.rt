//! What the names and numbers of a line mean.

ghost use Rattle.std.specs.Prelude.{◌≡◌, ◌≤◌, [], find, IfSome};
ghost use Rattle.iso_script.specs.Naming as spec;

use iso_grammar::{Cause, Fault, Token, integer, least, text_of, unless};
use iso_sql::{gives, name_of};
use iso_types::{Conn, Head, Text};

fn no_name() -> Text
    ensures { result ≡ [] }
{
    match Text::new(&[]) {
        Some(text) => text,
        None => unreachable!(),
    }
}

/// The name that a token declares; one that is too long says nothing.
#[tactic(auto, unfolding(crate::specs::Naming::named))]
pub fn named(line: &[u8], token: Token) -> Text
    ensures { result ≡ spec.named line.now token }
{
    match name_of(line, token) {
        Some(name) => name,
        None => no_name(),
    }
}

/// The fault of a name that is declared, where one is.
#[tactic(auto, unfolding(crate::specs::Naming::declared_fault))]
pub fn declared_fault(taken: bool, line: &[u8], token: Token) -> Option<Fault>
    ensures { result ≡ spec.declared_fault taken line.now token }
{
    least(
        unless(name_of(line, token).is_some(), token, Cause::Limit),
        unless(!taken, token, Cause::Duplicate),
    )
}

#[tactic(auto, unfolding(crate::specs::Naming::has_table))]
pub fn has_table(head: &Head, line: &[u8], token: Token) -> bool
    ensures { result ≡ spec.has_table head.now line.now token }
{
    head.tables
        .as_slice()
        .iter()
        .any(|table| gives(line, token, table.name))
}

#[tactic(auto, unfolding(crate::specs::Naming::has_index))]
pub fn has_index(head: &Head, line: &[u8], token: Token) -> bool
    ensures { result ≡ spec.has_index head.now line.now token }
{
    head.indexes
        .as_slice()
        .iter()
        .any(|index| gives(line, token, index.name))
}

#[tactic(auto, unfolding(crate::specs::Naming::has_connection))]
pub fn has_connection(head: &Head, line: &[u8], token: Token) -> bool
    ensures { result ≡ spec.has_connection head.now line.now token }
{
    head.conns
        .as_slice()
        .iter()
        .any(|conn| gives(line, token, conn.name))
}

const PLACES: [u8; 32] = [
    0, 1, 2, 3, 4, 5, 6, 7, 8, 9, 10, 11, 12, 13, 14, 15, 16, 17, 18, 19, 20, 21, 22, 23, 24, 25,
    26, 27, 28, 29, 30, 31,
];

fn is_connection(head: &Head, line: &[u8], token: Token, at: u8) -> bool
    ensures { result ≡ spec.is_connection head.now line.now token at }
{
    match head.conns.get(at as usize) {
        Some(conn) => gives(line, token, conn.name),
        None => false,
    }
}

fn first_connection(head: &Head, line: &[u8], token: Token, mut places: &[u8]) -> Option<u8>
    ensures { result ≡ find (spec.is_connection head.now line.now token) places.entry.now }
{
    while let [at, rest @ ..] = places {
        if is_connection(head, line, token, *at) {
            return Some(*at);
        }
        places = rest;
    }
    None
}

#[tactic(auto, unfolding(crate::specs::Naming::connection_place))]
fn connection_place(head: &Head, line: &[u8], token: Token) -> Option<u8>
    ensures { result ≡ spec.connection_place head.now line.now token }
{
    first_connection(head, line, token, &PLACES)
}

/// The connection that a line uses. With a fault it is any.
pub fn connection_of(head: &Head, line: &[u8], token: Token) -> Conn
    ensures { result ≡ spec.connection_of head.now line.now token }
{
    match connection_place(head, line, token) {
        Some(at) => Conn(at),
        None => Conn(0),
    }
}

pub fn connection_fault(head: &Head, line: &[u8], token: Token) -> Option<Fault>
    ensures { result ≡ spec.connection_fault head.now line.now token }
{
    unless(
        connection_place(head, line, token).is_some(),
        token,
        Cause::Unknown,
    )
}

/// The number that a token gives, where it lies within these bounds.
#[tactic(auto, unfolding(crate::specs::Naming::ranged))]
pub fn ranged(line: &[u8], token: Token, low: u32, high: u32) -> Option<u32>
    ensures value { result ≡ spec.ranged line.now token low high }
    ensures within { IfSome result (λ n. n ≤ high) }
{
    let value = integer(text_of(line, token))?;
    match u32::try_from(value) {
        Ok(number) => {
            if low <= number && number <= high {
                Some(number)
            } else {
                None
            }
        }
        Err(_) => None,
    }
}

pub fn ranged_or_low(line: &[u8], token: Token, low: u32, high: u32) -> u32
    requires { low ≤ high }
    ensures value { result ≡ spec.ranged_or_low line.now token low high }
    ensures within { result ≤ high }
{
    match ranged(line, token, low, high) {
        Some(number) => number,
        None => low,
    }
}
