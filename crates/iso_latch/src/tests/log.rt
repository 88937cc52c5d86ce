ghost use Rattle.std.specs.Prelude.{◌≡◌, true, false, [], ◌∷◌, ◌++◌, length, MatchBool};
ghost use Rattle.iso_history.specs.Voices.{voice, voice_of};
ghost use Rattle.iso_latch.specs.Seen.{has, own};
ghost use Rattle.iso_latch.specs.Told.{seen_of, voices_of};

use crate::{Latch, Pass};
use iso_history::{Act, Chronicle, Entry, Who};
use iso_types::{Config, Head, Items};
use std::alloc::Global;
use std::sync::Wait;

/// An empty head and a history, and nothing else.
#[derive(Drop)]
pub struct Log {
    pub head: Head,
    pub entries: Items<Entry>,
}

impl Chronicle for Log {
    ghost head = { λ s. s.head };

    ghost history = { λ s. s.entries };

    fn entries(&self) -> usize {
        self.entries.len()
    }
}

impl Log {
    pub fn new(alloc: Global) -> Log
        ensures { result.entries ≡ [] }
    {
        Log {
            head: Head {
                config: Config {
                    cur_commit: true,
                    locklist: 50,
                    maxlocks: 22,
                    logmax: 1000,
                    window: 1000,
                },
                tables: Items::new(alloc),
                indexes: Items::new(alloc),
                rows: Items::new(alloc),
                conns: Items::new(alloc),
            },
            entries: Items::new(alloc),
        }
    }

    pub fn add(&mut self, entry: Entry) -> bool
        ensures head { self.new.head ≡ self.old.head }
        ensures added { MatchBool result (self.new.entries ≡ self.old.entries ++ entry ∷ []) (self.new.entries ≡ self.old.entries) }
    {
        self.entries.push(entry).is_ok()
    }
}

/// One hold, which adds the entry if there is memory.
pub fn hold<R: Wait>(rt: &R, latch: &Latch<Log>, pass: Pass<Log>, entry: Entry) -> (Pass<Log>, bool)
    requires of { pass.seat.table_id ≡ latch.now.table.shared.table_id }
    requires voice { has (voice_of entry) (voices_of pass.seat) ≡ true }
    ensures of { result.0.seat.table_id ≡ pass.seat.table_id }
    ensures voices { voices_of result.0.seat ≡ voices_of pass.seat }
    ensures own { MatchBool result.1 (own (voices_of pass.seat) (seen_of result.0.seat) ≡ own (voices_of pass.seat) (seen_of pass.seat) ++ entry ∷ []) (own (voices_of pass.seat) (seen_of result.0.seat) ≡ own (voices_of pass.seat) (seen_of pass.seat)) }
{
    let (turn, mut state) = latch.enter(rt, pass);
    let added = state.add(entry);
    (latch.leave(turn, state), added)
}
