//! Cuts a line into tokens.

ghost use Rattle.std.specs.Prelude.{IsTrue, ℕ, List, ◌≡◌, ◌<◌, ◌≤◌, ◌+◌, ◌^◌, map, length, drop, slice_index, IfOk, IfSome, false};
ghost use Rattle.std.specs.Str.{str_eq_ignore_ascii_case};
ghost use Rattle.iso_grammar.specs.Lex as spec;
ghost use Rattle.iso_grammar.specs.Order.{RisesFrom};

use crate::token::{KEYWORDS, Kind, Token};
use iso_types::{Items, Memory};
use std::alloc::Global;

fn is_blank(b: u8) -> bool
    ensures { result ≡ spec.is_blank b }
{
    b == b' ' || b == b'\t'
}

fn is_digit(b: u8) -> bool
    ensures { result ≡ spec.is_digit b }
{
    b >= b'0' && b <= b'9'
}

fn is_letter(b: u8) -> bool
    ensures { result ≡ spec.is_letter b }
{
    (b >= b'A' && b <= b'Z') || (b >= b'a' && b <= b'z')
}

fn in_word(b: u8) -> bool
    ensures { result ≡ spec.in_word b }
{
    is_letter(b) || is_digit(b) || b == b'_'
}

fn digits(bytes: &[u8]) -> usize
    ensures run { result ≡ spec.run_of spec.is_digit bytes.now }
    ensures bound { result ≤ length bytes.now }
{
    bytes.iter().take_while(|b| is_digit(**b)).count()
}

fn word(bytes: &[u8]) -> usize
    ensures run { result ≡ spec.run_of spec.in_word bytes.now }
    ensures bound { result ≤ length bytes.now }
{
    bytes.iter().take_while(|b| in_word(**b)).count()
}

fn same_word(a: &[u8], b: &[u8]) -> bool
    ensures { result ≡ str_eq_ignore_ascii_case a.now b.now }
{
    a.eq_ignore_ascii_case(b)
}

fn lookup(mut table: &[(&[u8], Kind)], word: &[u8]) -> Kind
    ensures { result ≡ spec.lookup (map (λ k. (k.0.now, k.1)) table.entry.now) word.now }
{
    while let [entry, rest @ ..] = table {
        if same_word(entry.0, word) {
            return entry.1;
        }
        table = rest;
    }
    Kind::Name
}

#[tactic(auto, unfolding(crate::specs::Lex::word_kind))]
fn word_kind(word: &[u8]) -> Kind
    ensures { result ≡ spec.word_kind word.now }
{
    lookup(&KEYWORDS, word)
}

fn is_one(mut digits: &[u8]) -> bool
    ensures { result ≡ spec.is_one digits.entry.now }
{
    while let [b, rest @ ..] = digits {
        if rest.is_empty() {
            return *b == b'1';
        }
        if *b != b'0' {
            return false;
        }
        digits = rest;
    }
    false
}

#[tactic(auto, unfolding(crate::specs::Lex::digits_kind))]
fn digits_kind(digits: &[u8]) -> Kind
    ensures { result ≡ spec.digits_kind digits.now }
{
    if is_one(digits) {
        Kind::One
    } else {
        Kind::Integer
    }
}

fn symbol(b: u8) -> Kind
    ensures { result ≡ spec.symbol b }
{
    match b {
        b'(' => Kind::Open,
        b')' => Kind::Close,
        b',' => Kind::Comma,
        b':' => Kind::Colon,
        b';' => Kind::Semicolon,
        b'&' => Kind::Ampersand,
        b'*' => Kind::Star,
        b'=' => Kind::Equal,
        b'<' => Kind::Less,
        b'>' => Kind::Greater,
        b'+' => Kind::Plus,
        b'-' => Kind::Minus,
        _ => Kind::Other,
    }
}

fn begins_with(byte: u8, bytes: &[u8]) -> bool
    ensures value { result ≡ spec.begins_with byte bytes.now }
    ensures some { IsTrue result → 0 < length bytes.now }
{
    match bytes {
        [b, ..] => *b == byte,
        [] => false,
    }
}

fn symbol_at(b: u8, rest: &[u8]) -> (Kind, usize)
    ensures found { result ≡ spec.symbol_at b rest.now }
    ensures bound { result.1 ≤ length rest.now + 1 }
    ensures some { 0 < result.1 }
{
    if b == b'<' && begins_with(b'>', rest) {
        (Kind::NotEqual, 2)
    } else if b == b'<' && begins_with(b'=', rest) {
        (Kind::LessEqual, 2)
    } else if b == b'>' && begins_with(b'=', rest) {
        (Kind::GreaterEqual, 2)
    } else {
        (symbol(b), 1)
    }
}

fn ends_line(b: u8) -> bool
    ensures { result ≡ spec.ends_line b }
{
    b == b'\r' || b == b'\n'
}

fn text_len(bytes: &[u8]) -> Option<usize>
    ensures text { result ≡ spec.text_from false bytes.now }
    ensures bound { IfSome result (λ n. n ≤ length bytes.now) }
{
    let mut closes = false;
    for (i, b) in bytes.iter().enumerate() {
        if *b == b'\'' {
            closes = !closes;
        } else if closes {
            return Some(i);
        } else if ends_line(*b) {
            return None;
        }
    }
    if closes { Some(bytes.len()) } else { None }
}

#[tactic(auto, unfolding(crate::specs::Lex::token_at))]
fn token_at(after_name: bool, bytes: &[u8]) -> (Kind, usize)
    requires { 0 < length bytes.now }
    ensures found { result ≡ spec.token_at after_name (slice_index bytes.now 0) (drop 1 bytes.now) }
    ensures bound { result.1 ≤ length bytes.now }
    ensures some { 0 < result.1 }
{
    match bytes {
        [] => (Kind::Other, 1),
        [b, rest @ ..] => {
            if is_letter(*b) {
                let len = word(rest) + 1;
                (word_kind(&bytes[..len]), len)
            } else if is_digit(*b) {
                let len = digits(rest) + 1;
                (digits_kind(&bytes[..len]), len)
            } else if *b == b'-' && !after_name && begins_digit(rest) {
                (Kind::Integer, digits(rest) + 1)
            } else if *b == b'\'' {
                match text_len(rest) {
                    None => (Kind::Other, 1),
                    Some(len) => (Kind::Text, len + 1),
                }
            } else {
                symbol_at(*b, rest)
            }
        }
    }
}

fn begins_digit(bytes: &[u8]) -> bool
    ensures { result ≡ spec.begins_digit bytes.now }
{
    match bytes {
        [b, ..] => is_digit(*b),
        [] => false,
    }
}

fn is_name(kind: Kind) -> bool
    ensures { result ≡ spec.is_name kind }
{
    matches!(kind, Kind::Name)
}

/// The tokens of a line. Cost: one pass.
pub fn tokens_of(alloc: Global, line: &[u8]) -> Result<Items<Token>, Memory>
    requires { length line.now < 2 ^ 32 }
    ensures { IfOk result (λ v. v ≡ spec.tokens line.now) }
{
    let mut found = Items::new(alloc);
    let mut at = 0;
    let mut after_name = false;
    while at < line.len() {
        if is_blank(line[at]) {
            at += 1;
        } else {
            let (kind, len) = token_at(after_name, &line[at..]);
            found.push(Token {
                kind,
                start: (at + 1) as u32,
                end: (at + len) as u32,
            })?;
            after_name = is_name(kind);
            at += len;
        }
    }
    Ok(found)
}

/// Law: the tokens of a line stand from left to right, each behind the last byte of the one before it, the first at place 1
/// at the least.
pub fn tokens_rise()
    ensures { (line : List ℕ) → RisesFrom 0 (spec.tokens line) }
{}

/// Whether the line begins with two dashes.
pub fn is_comment(line: &[u8]) -> bool
    ensures { result ≡ spec.is_comment line.now }
{
    match line {
        [b, rest @ ..] => *b == b'-' && begins_with(b'-', rest),
        [] => false,
    }
}
