ghost use Rattle.std.specs.Prelude.{◌≡◌, ◌≢◌, ◌≤◌, ◌<◌, ◌+◌, ◌↔◌, [], ◌∷◌, ◌++◌, length, slice_get, slice_set, Some, OnOk, OnErr, IfOk, IsSome, Err};
ghost use Rattle.std.specs.Option.{option_copied};
ghost use Rattle.std.specs.Borrow.{Lends, sem};
ghost use Rattle.iso_table.specs.contracts.slot.Slot.{the_row as slot_row};
ghost use Rattle.iso_table.specs.contracts.table.Table.{the_row as table_row};
ghost use Rattle.iso_table.specs.Slots.{new_slot, slot_at};

use crate::slot::Slot;
use iso_types::{Memory, Rid, Row};
use std::alloc::Global;
use std::marker::Model;

/// Why a row was not added: the table has all of its 65,536 slots, or want of memory.
#[derive(Clone, Copy, PartialEq, Eq)]
pub enum AddFault {
    Full,
    Memory,
}

/// A list of slots that only grows, by rid. Contracts see its slots, and how many more it has room for.
#[derive(Drop)]
pub struct Table {
    slots: Vec<Slot>,
}

impl Model for Table {
    ghost use Rattle.std.specs.Prelude.{◌-◌, ◌≤◌, vec_len, vec_capacity};
    ghost use Rattle.iso_table.specs.declared.slot.Slot.{Slot as Item};
    ghost use Rattle.iso_types.specs.Filled.{Filled};

    ghost Value = { Filled Item };

    ghost view = { λ t. record { items = t.slots.items; spare = vec_capacity t.slots - vec_len t.slots } };

    ghost invariant = { λ t. vec_len t.slots ≤ 65536 };
}

impl Table {
    /// A table without slots; it keeps the allocator.
    pub fn new(alloc: Global) -> Table
        ensures { result.items ≡ [] }
    {
        Table {
            slots: Vec::new(alloc),
        }
    }

    /// The number of slots.
    pub fn slots(&self) -> u32
        ensures number { result ≡ length self.now.items }
        ensures few { length self.now.items ≤ 65536 }
    {
        self.slots.len() as u32
    }

    /// The slot; None exactly where there is none.
    pub fn get(&self, rid: Rid) -> Option<&Slot>
        ensures value { option_copied result ≡ slice_get self.now.items rid.0 }
        ensures within { IsSome result ↔ (rid.0 < length self.now.items) }
    {
        self.slots.get(rid.0 as usize)
    }

    /// Makes room for one more slot; after `Memory` all is as before.
    pub fn reserve(&mut self) -> Result<(), Memory>
        ensures items { self.new.items ≡ self.old.items }
        ensures ok { OnOk result (1 ≤ self.new.spare) }
        ensures kept { self.old.spare ≤ self.new.spare }
    {
        self.slots.reserve(1)?;
        Ok(())
    }

    /// A live slot with this row is last. It is `Full` exactly where there are 65,536 slots; `Memory` never comes where there
    /// is room. After either the row is dropped.
    pub fn add(&mut self, row: Row) -> Result<Rid, AddFault>
        ensures full { (result ≡ Err AddFault.Full) ↔ (65536 ≤ length self.old.items) }
        ensures rid { IfOk result (λ rid. rid.0 ≡ length self.old.items) }
        ensures ok { OnOk result (self.new.items ≡ self.old.items ++ new_slot row ∷ []) }
        ensures err { OnErr result (self.new.items ≡ self.old.items) }
        ensures room { 1 ≤ self.old.spare → result ≢ Err AddFault.Memory }
        ensures spare { self.old.spare ≤ self.new.spare + 1 }
    {
        let rid = self.slots.len();
        if rid >= 65_536 {
            return Err(AddFault::Full);
        }
        let slot = Slot {
            row,
            live: true,
            head: None,
            first: None,
        };
        match self.slots.push(slot) {
            Ok(()) => Ok(Rid(rid as u32)),
            Err(_) => Err(AddFault::Memory),
        }
    }

    /// The slot for writing: what is written through it is that slot's new value, and all others stay.
    pub fn slot_mut(&mut self, rid: Rid) -> &mut Slot
        requires { rid.0 < length self.old.items }
        ensures value { slice_get self.old.items rid.0 ≡ Some result.now }
        ensures* lends { sem 𝓛 (Lends table_row slot_row self.entry result (λ w. record { items = slice_set self.old.items rid.0 w; spare = self.old.spare })) }
    {
        &mut self.slots[rid.0 as usize]
    }

    /// Another row stands in the slot.
    pub fn write_row(&mut self, rid: Rid, row: Row)
        requires { rid.0 < length self.old.items }
        ensures items { self.new.items ≡ slice_set self.old.items rid.0 (record (slot_at self.old.items rid) { row = row }) }
        ensures spare { self.new.spare ≡ self.old.spare }
    {
        self.slots[rid.0 as usize].row = row;
    }

    /// The slot is live, or dead.
    pub fn set_live(&mut self, rid: Rid, live: bool)
        requires { rid.0 < length self.old.items }
        ensures items { self.new.items ≡ slice_set self.old.items rid.0 (record (slot_at self.old.items rid) { live = live }) }
        ensures spare { self.new.spare ≡ self.old.spare }
    {
        self.slots[rid.0 as usize].live = live;
    }

    /// The slot's last and first records of pending changes.
    pub fn set_chain(&mut self, rid: Rid, head: Option<u32>, first: Option<u32>)
        requires { rid.0 < length self.old.items }
        ensures items { self.new.items ≡ slice_set self.old.items rid.0 (record (slot_at self.old.items rid) { head = head; first = first }) }
        ensures spare { self.new.spare ≡ self.old.spare }
    {
        let slot = &mut self.slots[rid.0 as usize];
        slot.head = head;
        slot.first = first;
    }
}
