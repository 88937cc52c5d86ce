//! What is wrong with a line whose tokens stand as they must.

ghost use Rattle.std.specs.Prelude.{◌≡◌, ◌<◌, ◌+◌, ◌^◌};
ghost use Rattle.iso_grammar.specs.Faults as spec;

use crate::token::Token;

/// Why a line is refused, in the order in which causes at one place are told.
#[derive(Clone, Copy, Debug, PartialEq, Eq)]
pub enum Cause {
    /// A name that is not declared.
    Unknown,
    /// A value or a column that does not fit.
    TypeFault,
    /// What may stand once stands twice.
    Duplicate,
    /// A limit is passed.
    Limit,
}

/// A cause, and its place in the line in bytes from 1.
#[derive(Clone, Copy, Debug, PartialEq, Eq)]
pub struct Fault {
    pub place: u32,
    pub cause: Cause,
}

/// What tokens stand for, and their least fault. With a fault the value says nothing.
#[derive(Drop)]
pub struct Checked<T> {
    pub value: T,
    pub fault: Option<Fault>,
}

fn rank(cause: Cause) -> u8
    ensures { result ≡ spec.rank cause }
{
    cause as u8
}

fn is_sooner(a: Fault, b: Fault) -> bool
    ensures { result ≡ spec.is_sooner a b }
{
    a.place < b.place || (a.place == b.place && rank(a.cause) < rank(b.cause))
}

/// The fault that is told of two: the one at the lower place, at one place the one of the earlier cause. The first where
/// they are the same.
#[tactic(auto, unfolding(crate::specs::Faults::least))]
pub fn least(a: Option<Fault>, b: Option<Fault>) -> Option<Fault>
    ensures { result ≡ spec.least a b }
{
    match (a, b) {
        (None, b) => b,
        (Some(a), None) => Some(a),
        (Some(a), Some(b)) => { if is_sooner(b, a) { Some(b) } else { Some(a) } }
    }
}

/// The fault of this cause at the token.
#[tactic(auto, unfolding(crate::specs::Faults::at))]
pub fn fault_at(token: Token, cause: Cause) -> Option<Fault>
    ensures { result ≡ spec.at token cause }
{
    Some(Fault {
        place: token.start,
        cause,
    })
}

/// The fault of this cause at the token, unless all is well.
#[tactic(auto, unfolding(crate::specs::Faults::unless))]
pub fn unless(well: bool, token: Token, cause: Cause) -> Option<Fault>
    ensures { result ≡ spec.unless well token cause }
{
    if well { None } else { fault_at(token, cause) }
}

/// The place of the token with which so many are left: its first byte; behind the last token, the line's length plus 1.
/// The cost is constant.
#[tactic(auto, unfolding(crate::specs::Faults::place_of))]
pub fn place_of(tokens: &[Token], left: usize, length: u32) -> u32
    requires { length + 1 < 2 ^ 32 }
    ensures { result ≡ spec.place_of tokens.now left length }
{
    match tokens.get(tokens.len().saturating_sub(left)) {
        Some(token) => token.start,
        None => length + 1,
    }
}
