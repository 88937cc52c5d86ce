//! What each atomic step tells.
use crate::view::View;
use atomic_table::{Join, Play, Split};
use iso_history::Chronicle;
use std::marker::{Brand, PhantomData};

/// A ticket is drawn: the count of tickets rises.
pub(crate) struct Draw;

impl<S> Play<Option<S>, View> for Draw {
    ghost use Rattle.iso_latch.specs.Told.{drew};

    ghost then = { drew };
}

/// The count of served tickets is read; where it is the ticket, the slot is taken.
pub(crate) struct Look;

impl<S: Chronicle> Play<Option<S>, View> for Look {
    ghost use Rattle.iso_latch.specs.Told.{looked};

    ghost then = { looked S.head S.history };
}

/// The count of entries rises by the new ones.
pub(crate) struct Grow;

impl<S: Chronicle> Play<Option<S>, View> for Grow {
    ghost use Rattle.iso_latch.specs.Told.{grew};

    ghost then = { grew S.history };
}

/// The slot is given back, and the next ticket is served.
pub(crate) struct Serve;

impl<S> Play<Option<S>, View> for Serve {
    ghost use Rattle.iso_latch.specs.Told.{served_next};

    ghost then = { served_next };
}

/// The door is tried, left or opened, of which the rule says nothing.
pub(crate) struct Door;

impl<S> Play<Option<S>, View> for Door {
    ghost use Rattle.iso_latch.specs.Told.{stood};

    ghost then = { stood };
}

/// What the two passes of a meeting had seen.
pub(crate) struct Note;

impl<S> Play<Option<S>, View> for Note {
    ghost use Rattle.iso_latch.specs.Told.{noted};

    ghost then = { noted };
}

/// The voice that a split gives away. Each call picks it.
pub(crate) trait Voice {
    ghost use Rattle.std.specs.Prelude.{ℕ};

    ghost voice: { ℕ };
}

impl Voice for Brand {
    ghost voice = { 0 };
}

/// One view is cut in two: the second gets the voice.
pub(crate) struct Cut<K> {
    of: PhantomData<K>,
}

impl<K: Voice> Split<View> for Cut<K> {
    ghost use Rattle.iso_latch.specs.Told.{keeper, taker};

    ghost left = { keeper K.voice };

    ghost right = { taker K.voice };
}

/// One view takes in another, which is spent.
pub(crate) struct Glue;

impl Join<View> for Glue {
    ghost use Rattle.iso_latch.specs.Told.{met, spent};

    ghost both = { met };

    ghost spent = { spent };
}
