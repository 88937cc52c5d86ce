//! What a pass knows, and the rule.
use atomic_table::TableRule;
use iso_history::{Chronicle, Entry};
use iso_types::Head;
use std::collections::LinkedList;
use std::snapshot::Snapshot;

/// Where a pass stands in the queue, with its ticket. In proofs a ticket is a number without bound.
pub enum Stage {
    Idle,
    Waits(u64),
    Inside(u64),
}

/// What one of two passes had seen when they met.
pub struct Part {
    pub seen: LinkedList<Entry>,
    pub voices: LinkedList<u32>,
}

/// What a pass knows: the head of the first state, how much of the history it has seen, its voices, its place in the
/// queue, and what was noted when it met another. No value of it is made; it exists in proofs alone.
pub struct View {
    pub head: Option<Head>,
    pub seen: LinkedList<Entry>,
    pub voices: LinkedList<u32>,
    pub stage: Stage,
    pub parts: LinkedList<Part>,
}

/// What the table is told when it is made: the number of voices, and the first state.
#[derive(Drop)]
pub struct About<S> {
    pub seats: u32,
    pub first: Snapshot<S>,
}

/// The rule of the latch: one turn at a time, in the order of the tickets.
pub struct InTurn;

impl<S: Chronicle> TableRule<Option<S>, View, About<S>> for InTurn {
    ghost use Rattle.iso_latch.specs.Rule.{Rule, opening_view};

    ghost holds = { λ key. Rule S.head S.history key.seats (S.head key.first.value) };

    ghost first = { λ key. opening_view key.seats (S.head key.first.value) };
}
