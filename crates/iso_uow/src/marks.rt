ghost use Rattle.std.specs.Prelude.{◌≡◌, [], OnOk, OnErr};
ghost use Rattle.indexmap.specs.IndexMap.{IsUnique};
ghost use Rattle.iso_types.specs.Ids.{text_eq};
ghost use Rattle.iso_uow.specs.Savepoints.{down_to, floor_of, newest_first, set_again};

use indexmap::IndexMap;
use iso_types::{Memory, Text};
use std::alloc::Global;
use std::marker::Model;

/// A savepoint: its name, and the number of records of the log when it was set.
#[derive(Clone, Copy)]
pub struct Savepoint {
    pub name: Text,
    pub at: u32,
}

/// The savepoints of a unit, found by name. Contracts see them newest first.
#[derive(Drop)]
pub struct Marks {
    places: IndexMap<Text, u32>,
}

impl Model for Marks {
    ghost use Rattle.std.specs.Prelude.{List};
    ghost use Rattle.indexmap.specs.IndexMap.{IsUnique};
    ghost use Rattle.iso_types.specs.Ids.{text_eq};
    ghost use Rattle.iso_uow.specs.Savepoints.{newest_first};
    ghost use Rattle.iso_uow.specs.declared.marks.Savepoint.{Savepoint as Item};

    ghost Value = { List Item };

    ghost view = { λ m. newest_first m.places.entries };

    ghost invariant = { λ m. IsUnique text_eq m.places };
}

impl Marks {
    /// No savepoints; it keeps the allocator, and takes no memory.
    pub fn new(alloc: Global) -> Marks
        ensures { result ≡ [] }
    {
        Marks {
            places: IndexMap::new(alloc),
        }
    }

    /// Sets a savepoint; one of the same name moves. After `Memory` all is as before. Its cost is constant on average where the
    /// name is new, and else the number of savepoints.
    pub fn set(&mut self, name: Text, at: u32) -> Result<(), Memory>
        ensures ok { OnOk result (self.new ≡ set_again self.old name at) }
        ensures err { OnErr result (self.new ≡ self.old) }
    {
        self.places.reserve(1)?;
        self.places.shift_remove(&name);
        let _ = self.places.insert(name, at);
        Ok(())
    }

    /// The number of records at the savepoint of this name; None exactly where there is none. Its cost is constant on average.
    pub fn floor(&self, name: Text) -> Option<u32>
        ensures { result ≡ floor_of self.now name }
    {
        self.places.get(&name).copied()
    }

    /// The savepoints that were set later than this one go. Its cost is their number.
    pub fn back(&mut self, name: Text)
        ensures { self.new ≡ down_to name self.old }
    {
        pop_to(&mut self.places, name);
    }
}

/// The savepoints behind the one of this name go.
fn pop_to(places: &mut IndexMap<Text, u32>, name: Text)
    requires unique { IsUnique text_eq places.old }
    ensures unique { IsUnique text_eq places.new }
    ensures savepoints { newest_first places.new.entries ≡ down_to name (newest_first places.old.entries) }
{
    while let Some((last, _)) = places.last() {
        if *last == name {
            return;
        }
        let _ = places.pop();
    }
}
