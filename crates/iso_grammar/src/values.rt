//! What the bytes of a token say.

ghost use Rattle.std.specs.Prelude.{◌≡◌, ◌≤◌, length, IfSome, false};
ghost use Rattle.iso_grammar.specs.Values as spec;

use crate::token::{Kind, Token};
use iso_types::{Text, Value};

/// The token's bytes in its line.
#[tactic(auto, unfolding(crate::specs::Values::text_of))]
pub fn text_of(line: &[u8], token: Token) -> &[u8]
    ensures { result.now ≡ spec.text_of line.now token }
{
    let start = token.start as usize;
    let end = token.end as usize;
    if 1 <= start && start <= end && end <= line.len() {
        &line[start - 1..end]
    } else {
        &line[..0]
    }
}

/// A name in capital letters, or None exactly where it has more than 32 bytes.
#[tactic(auto, unfolding(crate::specs::Values::name))]
pub fn name(bytes: &[u8]) -> Option<Text>
    ensures { result ≡ spec.name bytes.now }
{
    let len = bytes.len();
    if len > 32 {
        return None;
    }
    let mut cells = [0; 32];
    cells[..len].copy_from_slice(bytes);
    cells[..len].make_ascii_uppercase();
    Text::new(&cells[..len])
}

#[tactic(auto, using(crate::proofs::Numbers::too_large))]
fn number(mut digits: &[u8]) -> Option<u64>
    ensures value { result ≡ spec.at_most 9223372036854775808 (spec.number_after 0 digits.entry.now) }
    ensures bound { IfSome result (λ n. n ≤ 9223372036854775808) }
{
    let mut number = 0u128;
    while let [b, rest @ ..] = digits {
        number = number * 10 + u128::from(b.saturating_sub(b'0'));
        if number > 9_223_372_036_854_775_808 {
            return None;
        }
        digits = rest;
    }
    Some(number as u64)
}

/// The value of an integer token, or None exactly where it does not fit signed 64 bits.
#[tactic(auto, unfolding(crate::specs::Values::integer))]
pub fn integer(bytes: &[u8]) -> Option<i64>
    ensures { result ≡ spec.integer bytes.now }
{
    match bytes {
        [] => Some(0),
        [b, digits @ ..] => {
            if *b == b'-' {
                let value = number(digits)?;
                i64::try_from(-i128::from(value)).ok()
            } else {
                let value = number(bytes)?;
                i64::try_from(value).ok()
            }
        }
    }
}

/// What a text token says, its quotes taken off and doubled ones single; None exactly where that has more than 32 bytes.
#[tactic(auto, unfolding(crate::specs::Values::text))]
pub fn text(bytes: &[u8]) -> Option<Text>
    ensures { result ≡ spec.text bytes.now }
{
    match bytes {
        [] => Text::new(bytes),
        [_, rest @ ..] => said(rest),
    }
}

fn said(mut rest: &[u8]) -> Option<Text>
    ensures { result ≡ spec.short (spec.said false rest.entry.now) }
{
    let mut cells = [0; 32];
    let mut len = 0;
    let mut closes = false;
    while let [b, more @ ..] = rest {
        if *b == b'\'' && !closes {
            closes = true;
        } else {
            if len == 32 {
                return None;
            }
            cells[len] = *b;
            len += 1;
            closes = false;
        }
        rest = more;
    }
    Text::new(&cells[..len])
}

/// The value of a literal token: NULL, a text of at most 32 bytes, or an integer of 64 bits; None exactly where it is
/// longer or larger.
#[tactic(auto, unfolding(crate::specs::Values::value_of))]
pub fn value_of(line: &[u8], token: Token) -> Option<Value>
    ensures { result ≡ spec.value_of line.now token }
{
    let bytes = text_of(line, token);
    match token.kind {
        Kind::Null => Some(Value::Null),
        Kind::Text => text(bytes).map(Value::Text),
        _ => integer(bytes).map(Value::Int),
    }
}
