//! The history as a list of entries that only grows.

ghost use Rattle.std.specs.Prelude.{◌≡◌, ◌+◌, ◌<◌, ◌≤◌, ◌↔◌, [], ◌∷◌, ◌++◌, length, slice_get, OnOk, OnErr, IsSome};
ghost use Rattle.std.specs.Option.{option_copied};

use crate::entry::Entry;
use iso_types::Memory;
use std::alloc::Global;
use std::marker::Model;

/// A list of entries that only grows. Contracts see its entries, oldest first, and how many more it has
/// room for.
#[derive(Drop)]
pub struct History {
    entries: Vec<Entry>,
}

impl Model for History {
    ghost use Rattle.std.specs.Prelude.{◌-◌, vec_len, vec_capacity};
    ghost use Rattle.iso_history.specs.declared.entry.Entry.{Entry as Item};
    ghost use Rattle.iso_types.specs.Filled.{Filled};

    ghost Value = { Filled Item };

    ghost view = { λ h. record { items = h.entries.items; spare = vec_capacity h.entries - vec_len h.entries } };
}

impl History {
    /// The empty history. It takes no memory.
    pub fn new(alloc: Global) -> History
        ensures { result.items ≡ [] }
    {
        History {
            entries: Vec::new(alloc),
        }
    }

    /// Makes room for `more` entries; after `Memory` all is as before.
    pub fn reserve(&mut self, more: usize) -> Result<(), Memory>
        ensures items { self.new.items ≡ self.old.items }
        ensures ok { OnOk result (more ≤ self.new.spare) }
        ensures kept { self.old.spare ≤ self.new.spare }
    {
        self.entries.reserve(more)?;
        Ok(())
    }

    /// Adds an entry where there is room for one. It takes no memory.
    pub fn push_reserved(&mut self, entry: Entry)
        requires { 1 ≤ self.old.spare }
        ensures items { self.new.items ≡ self.old.items ++ entry ∷ [] }
        ensures spare { self.old.spare ≤ self.new.spare + 1 }
    {
        let _ = self.entries.push(entry);
    }

    /// The number of entries.
    pub fn len(&self) -> usize
        ensures { result ≡ length self.now.items }
    {
        self.entries.len()
    }

    /// The entry at this place, from 0; None exactly where there is none.
    pub fn get(&self, at: usize) -> Option<&Entry>
        ensures value { option_copied result ≡ slice_get self.now.items at }
        ensures within { IsSome result ↔ (at < length self.now.items) }
    {
        self.entries.get(at)
    }

    /// All entries, oldest first.
    pub fn as_slice(&self) -> &[Entry]
        ensures { result.now ≡ self.now.items }
    {
        self.entries.as_slice()
    }
}
