ghost use Rattle.std.specs.Prelude.{◌≡◌, [], IfOk};
ghost use Rattle.iso_history.specs.Legal.{Ground};
ghost use Rattle.iso_state.specs.Stands.{HeadFits, StandsFor};
ghost use Rattle.iso_state.specs.Tale.{tale_of};

use crate::parts::Parts;
use iso_history::{Chronicle, History};
use iso_types::{Edges, Head, Memory};
use std::alloc::Global;
use std::marker::Model;

/// Parts that stand for their history, in a box, so that a state is handed on as one word; and a note of who could go on, which
/// whoever makes an entry leaves for the next and on which no promise rests. Contracts see the head and the history.
#[derive(Drop)]
pub struct State {
    parts: Box<Parts>,
    able: Edges,
}

impl Model for State {
    ghost use Rattle.iso_state.specs.Stands.{StandsFor};
    ghost use Rattle.iso_state.specs.Tale.{Tale, tale_of};

    ghost Value = { Tale };

    ghost view = { λ s. tale_of s.parts.value };

    ghost invariant = { λ s. StandsFor s.parts.value };
}

impl Chronicle for State {
    ghost head = { λ s. s.head };

    ghost history = { λ s. s.history };

    fn entries(&self) -> usize {
        self.parts.history.len()
    }
}

impl State {
    /// The state of the empty history over a copy of the head; `Memory` where there is none. Its cost is that of
    /// `Parts::new`.
    pub fn new(alloc: Global, head: &Head) -> Result<State, Memory>
        requires fits { HeadFits head.now }
        ensures head { IfOk result (λ s. s.head ≡ head.now) }
        ensures history { IfOk result (λ s. s.history ≡ []) }
    {
        let parts = Parts::new(alloc, head)?;
        Ok(State::over(Box::new(alloc, parts)?, Edges::none()))
    }

    /// The state of parts that stand for their history, with a note of who can go on. (This project's own.)
    pub fn over(parts: Box<Parts>, able: Edges) -> State
        requires stands { StandsFor parts.value }
        ensures tale { result ≡ tale_of parts.value }
    {
        State { parts, able }
    }

    /// The parts, for reading.
    pub fn parts(&self) -> &Parts
        ensures stands { StandsFor result.now }
        ensures tale { tale_of result.now ≡ self.now }
    {
        &self.parts
    }

    /// The connections that could go on behind the last entry, as its maker noted; none where nothing was noted. (This project's
    /// own.)
    pub fn able(&self) -> Edges {
        self.able
    }

    /// The parts, for steps.
    pub fn into_parts(self) -> Box<Parts>
        ensures stands { StandsFor result.value }
        ensures tale { tale_of result.value ≡ self }
    {
        let State { parts, able: _ } = self;
        parts
    }

    /// The history, which may stand over the head that it is of.
    pub fn into_history(self) -> History
        ensures ground { Ground self.head result.items }
        ensures history { result.items ≡ self.history }
    {
        let State { parts, able: _ } = self;
        Box::into_inner(parts).history
    }
}
