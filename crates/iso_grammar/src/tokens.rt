//! A cursor over tokens.

ghost use Rattle.std.specs.Prelude.{◌≡◌, ◌≤◌, ◌<◌, ◌+◌, ◌^◌, ◌∷◌, [], length, Ok};
ghost use Rattle.iso_grammar.specs.Reading.{Gives, begins, end, expect, optional, with_bound};

use crate::token::{Kind, Token, same};
use iso_types::Memory;
use std::alloc::{AllocError, AllocFailed};
use std::marker::Model;

/// Why tokens could not be read: how many are left at the fault.
#[derive(Debug, Drop)]
pub enum ReadError {
    Memory,
    Syntax(usize),
}

impl From<AllocError> for ReadError {
    ghost use Rattle.iso_grammar.specs.declared.tokens.ReadError.TheVariants.{Memory};
    ghost use Rattle.std.specs.Prelude.{◌≡◌};

    ghost from_gives = { λ _ e. e ≡ Memory };

    fn from(_e: AllocError) -> ReadError {
        ReadError::Memory
    }
}

impl<T: Drop> From<AllocFailed<T>> for ReadError {
    ghost use Rattle.iso_grammar.specs.declared.tokens.ReadError.TheVariants.{Memory};
    ghost use Rattle.std.specs.Prelude.{◌≡◌};

    ghost from_gives = { λ _ e. e ≡ Memory };

    fn from(_e: AllocFailed<T>) -> ReadError {
        ReadError::Memory
    }
}

impl From<Memory> for ReadError {
    ghost use Rattle.iso_grammar.specs.declared.tokens.ReadError.TheVariants as error;
    ghost use Rattle.std.specs.Prelude.{◌≡◌};

    ghost from_gives = { λ _ e. e ≡ error.Memory };

    fn from(_memory: Memory) -> ReadError {
        ReadError::Memory
    }
}

/// The tokens that are left.
#[derive(Drop)]
pub struct Tokens<'a> {
    rest: &'a [Token],
    most: usize,
}

impl<'a> Model for Tokens<'a> {
    ghost use Rattle.iso_grammar.specs.Reading.{Input};

    ghost Value = { Input };

    ghost use Rattle.iso_grammar.specs.Cursor.{input_of, IsBounded};

    ghost view = { input_of };

    ghost invariant = { IsBounded };
}

impl<'a> Tokens<'a> {
    pub fn new(tokens: &'a [Token]) -> Tokens<'a>
        ensures { result ≡ with_bound tokens.now (length tokens.now) }
    {
        Tokens {
            rest: tokens,
            most: tokens.len(),
        }
    }

    /// How many are left.
    pub fn left(&self) -> usize
        ensures { result ≡ length self.now.rest }
    {
        self.rest.len()
    }

    /// A number that the tokens left do not pass, the same for each read.
    pub fn most(&self) -> usize
        ensures value { result ≡ self.now.most }
        ensures within { length self.now.rest ≤ result }
    {
        self.most
    }

    /// One more than the tokens left.
    pub fn turns(&self) -> usize
        ensures value { result ≡ length self.now.rest + 1 }
        ensures small { result < 2 ^ 63 }
    {
        self.rest.len() + 1
    }

    /// The next is of this kind.
    pub fn sees(&self, kind: Kind) -> bool
        ensures { result ≡ begins (kind ∷ []) self.now.rest }
    {
        match self.rest {
            [token, ..] => same(kind, token.kind),
            [] => false,
        }
    }

    /// The next is of one of these kinds.
    pub fn sees_either(&self, first: Kind, second: Kind) -> bool
        ensures { result ≡ begins (first ∷ second ∷ []) self.now.rest }
    {
        self.sees(first) || self.sees(second)
    }

    /// Takes a token of this kind.
    pub fn expect(&mut self, kind: Kind) -> Result<Token, ReadError>
        ensures { Gives (expect kind) self.old result self.new }
    {
        match self.rest {
            [token, rest @ ..] if same(kind, token.kind) => {
                let token = *token;
                self.rest = rest;
                Ok(token)
            }
            _ => Err(ReadError::Syntax(self.rest.len())),
        }
    }

    /// Takes a token of this kind, if it comes next.
    pub fn take(&mut self, kind: Kind) -> Result<Option<Token>, ReadError>
        ensures { Gives (optional (kind ∷ []) (expect kind)) self.old result self.new }
    {
        if self.sees(kind) {
            Ok(Some(self.expect(kind)?))
        } else {
            Ok(None)
        }
    }

    /// No token is left.
    pub fn end(&self) -> Result<(), ReadError>
        ensures { Gives end self.now result self.now }
    {
        if self.rest.is_empty() {
            Ok(())
        } else {
            Err(ReadError::Syntax(self.rest.len()))
        }
    }
}
