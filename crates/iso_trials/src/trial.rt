//! A state on which steps are tried.

use iso_state::Parts;
use std::marker::Model;

/// Parts that stand for their history. Contracts see how many entries it has.
#[derive(Drop)]
pub struct Trial {
    pub(crate) parts: Parts,
}

impl Model for Trial {
    ghost use Rattle.std.specs.Prelude.{ℕ, length};
    ghost use Rattle.iso_state.specs.Stands.{StandsFor};

    ghost Value = { ℕ };

    ghost view = { λ t. length t.parts.history.items };

    ghost invariant = { λ t. StandsFor t.parts };
}
