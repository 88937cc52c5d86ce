ghost use Rattle.std.specs.Prelude.{◌≡◌, ◌<◌, ◌↔◌, List, [], ◌∷◌, ◌++◌, length, slice_get, slice_set, Some, OnOk, OnErr, IsSome, IfOk};
ghost use Rattle.std.specs.Option.{option_copied};
ghost use Rattle.std.specs.Borrow.{Lends, sem};
ghost use Rattle.iso_types.specs.contracts.items.Items.{the_row};

use std::alloc::{AllocError, AllocFailed, Global};
use std::marker::Model;
use std::slice;

/// Want of memory.
#[derive(Clone, Copy, PartialEq, Eq, Debug)]
pub struct Memory;

/// Why a step was not made: want of memory, or the limit of 2,000,000 entries.
#[derive(Clone, Copy, PartialEq, Eq, Debug)]
pub enum StepFault {
    Memory,
    HistoryFull,
}

impl From<Memory> for StepFault {
    fn from(_memory: Memory) -> StepFault {
        StepFault::Memory
    }
}

impl From<AllocError> for Memory {
    fn from(_error: AllocError) -> Memory {
        Memory
    }
}

impl<T: Drop> From<AllocFailed<T>> for Memory {
    fn from(_error: AllocFailed<T>) -> Memory {
        Memory
    }
}

/// A `Vec` that contracts see as the list of its items.
#[derive(Drop)]
pub struct Items<T> {
    items: Vec<T>,
}

impl<T> Model for Items<T> {
    ghost use Rattle.std.specs.Prelude.{List};
    ghost use Rattle.std.specs.Coded.{coded_list};

    ghost Value = { List T };

    ghost coded = { coded_list T.code };

    ghost view = { λ it. it.items.items };
}

impl<T> Items<T> {
    /// The empty list; it keeps the allocator.
    pub fn new(alloc: Global) -> Items<T>
        ensures { result ≡ [] }
    {
        Items {
            items: Vec::new(alloc),
        }
    }

    pub fn len(&self) -> usize
        ensures { result ≡ length self.now }
    {
        self.items.len()
    }

    /// None exactly where `at` is not below the length.
    pub fn get(&self, at: usize) -> Option<&T>
        ensures value { option_copied result ≡ slice_get self.now at }
        ensures within { IsSome result ↔ (at < length self.now) }
    {
        self.items.get(at)
    }

    pub fn as_slice(&self) -> &[T]
        ensures { result.now ≡ self.now }
    {
        self.items.as_slice()
    }

    /// The item for writing: what is written through it is that item's new value, and all others stay.
    pub fn item_mut(&mut self, at: usize) -> &mut T
        requires { at < length self.old }
        ensures value { slice_get self.old at ≡ Some result.now }
        ensures* lends { sem 𝓛 (Lends (the_row T.row) T.row self.entry result (λ w. slice_set self.old at w)) }
    {
        &mut self.items[at]
    }
}

impl<T: Drop> Items<T> {
    /// The item is last; after `Memory` it is dropped.
    pub fn push(&mut self, item: T) -> Result<(), Memory>
        ensures ok { OnOk result (self.new ≡ self.old ++ item ∷ []) }
        ensures err { OnErr result (self.new ≡ self.old) }
    {
        self.items.push(item)?;
        Ok(())
    }
}

impl<T> Items<T> {
    /// The same list, without taking memory.
    pub fn from_vec(items: Vec<T>) -> Items<T>
        ensures { result ≡ items.items }
    {
        Items { items }
    }
}

impl<T: Copy> Items<T> {
    /// The same list in memory of its own; `Memory` where there is none. It copies each item.
    pub fn copied(&self, alloc: Global) -> Result<Items<T>, Memory>
        ensures { IfOk result (λ items. items ≡ self.now) }
    {
        let items = Vec::from_slice(alloc, self.items.as_slice())?;
        Ok(Items { items })
    }

    /// A copy of the item is last.
    pub fn push_copy(&mut self, item: &T) -> Result<(), Memory>
        ensures ok { OnOk result (self.new ≡ self.old ++ item.now ∷ []) }
        ensures err { OnErr result (self.new ≡ self.old) }
    {
        self.items.push(*item)?;
        Ok(())
    }
}
