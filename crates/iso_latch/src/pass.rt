//! The latch, and what threads hold of it.
ghost use Rattle.std.specs.Prelude.{◌≡◌, ◌<◌, true, [], ◌∷◌, length, None};
ghost use Rattle.iso_latch.specs.declared.view.Stage.TheVariants.{Idle};
ghost use Rattle.iso_latch.specs.Told.{is_inside};

use crate::view::{About, InTurn, View};
use atomic_table::{Seat, Table};
use iso_history::Chronicle;
use std::alloc::Global;

/// One state that is held in turn, over one slot and four words: the tickets that were drawn, those that were served,
/// the entries of the history, and the door. A hold without rivals costs six atomic steps on the words, and moves the
/// state out of the slot and in again by value; nothing is copied.
#[derive(Drop)]
pub struct Latch<S: Chronicle> {
    pub(crate) table: Table<Option<S>, View, About<S>, InTurn, Global>,
    ghost sized: { (table.shared.table_id.words ≡ 4) × (table.shared.table_id.slots ≡ 1) },
}

/// The right to enter, outside a hold. It has one or more voices, and knows how much of the history was seen. Its own
/// entries are those of its voices among them. It takes no room at run time. A pass that is let go takes its voices with it, so that
/// the latch cannot be closed any more.
#[derive(Drop)]
pub struct Pass<S> {
    pub(crate) seat: Seat<Option<S>, View>,
    ghost idle: { seat.me.0.stage ≡ Idle },
    ghost empty: { seat.me.1 ≡ [] },
    ghost some_voice: { 0 < length seat.me.0.voices },
}

/// A pass inside a hold. It is not `Drop`: it can only be given to `leave`, so no path of a program forgets that.
pub struct Turn<S> {
    pub(crate) seat: Seat<Option<S>, View>,
    pub(crate) len: usize,
    ghost inside: { is_inside seat.me.0.stage ≡ true },
    ghost lent: { seat.me.1 ≡ (0, None) ∷ [] },
    ghost counted: { len ≡ length seat.me.0.seen },
    ghost some_voice: { 0 < length seat.me.0.voices },
}
