ghost use Rattle.std.specs.Prelude.{◌≡◌, ◌≢◌, ◌+◌, ◌<◌, ◌≤◌, ◌↔◌, [], ◌∷◌, ◌++◌, length, slice_get, true, OnOk, OnErr, IfOk, IsSome, Err};
ghost use Rattle.std.specs.Option.{option_copied};
ghost use Rattle.iso_log.specs.Journal.{is_past, is_within_window};
ghost use Rattle.iso_segment.specs.Pinned.{stretch};

use iso_record::Record;
use iso_segment::{Pin, Store};
use iso_types::{Config, Memory};
use std::alloc::Global;
use std::marker::Model;

/// Why a record was not added: it would be past the log, or want of memory.
#[derive(Clone, Copy, PartialEq, Eq)]
pub enum LogFault {
    LogFull,
    Memory,
}

impl From<Memory> for LogFault {
    ghost use Rattle.iso_log.specs.declared.log.LogFault.TheVariants.{Memory as Want};

    ghost from_gives = { λ _ e. e ≡ Want };

    fn from(_memory: Memory) -> LogFault {
        LogFault::Memory
    }
}

/// The log: a list of records that only grows, its window and its limit. Contracts see these, and how many more records
/// it has room for.
#[derive(Drop)]
pub struct Log {
    store: Store<Record>,
    window: u32,
    logmax: u32,
}

impl Model for Log {
    ghost use Rattle.iso_log.specs.Journal.{Journal};

    ghost Value = { Journal };

    ghost view = { λ l. record { records = l.store.items; spare = l.store.spare; window = l.window; logmax = l.logmax } };
}

impl Log {
    /// The empty log with these settings; it keeps the allocator.
    pub fn new(alloc: Global, config: &Config) -> Log
        ensures records { result.records ≡ [] }
        ensures window { result.window ≡ config.now.window }
        ensures logmax { result.logmax ≡ config.now.logmax }
    {
        Log {
            store: Store::new(alloc),
            window: config.window,
            logmax: config.logmax,
        }
    }

    /// The number of records.
    pub fn len(&self) -> u32
        ensures { result ≡ length self.now.records }
    {
        self.store.len()
    }

    /// Whether a change would be past the log, with this oldest record of an open unit and this debt.
    pub fn full(&self, oldest: u32, debt: u32) -> bool
        ensures { result ≡ is_past self.now.logmax (length self.now.records) oldest debt }
    {
        let next = u64::from(self.store.len()) + 1;
        let open = next.saturating_sub(u64::from(oldest));
        open + u64::from(debt) + 1 > u64::from(self.logmax)
    }

    /// Adds the record of a change, and keeps room for the undoing of it and of all that is in debt. It is `LogFull` exactly
    /// where it would be past the log; after a fault all is as before, and the record is dropped.
    pub fn append(&mut self, note: Record, oldest: u32, debt: u32) -> Result<(), LogFault>
        requires number { note.number ≡ length self.old.records }
        ensures full { (result ≡ Err LogFault.LogFull) ↔ (is_past self.old.logmax (length self.old.records) oldest debt ≡ true) }
        ensures ok { OnOk result (self.new.records ≡ self.old.records ++ note ∷ []) }
        ensures room { OnOk result (debt + 1 ≤ self.new.spare) }
        ensures err { OnErr result ((self.new.records ≡ self.old.records) × (self.old.spare ≤ self.new.spare)) }
        ensures window { self.new.window ≡ self.old.window }
        ensures logmax { self.new.logmax ≡ self.old.logmax }
    {
        if self.full(oldest, debt) {
            return Err(LogFault::LogFull);
        }
        self.store.reserve(debt as usize + 2)?;
        self.store.push_reserved(note);
        Ok(())
    }

    /// Adds a record where there is room for one. It takes no memory.
    pub fn append_reserved(&mut self, note: Record)
        requires number { note.number ≡ length self.old.records }
        requires room { 1 ≤ self.old.spare }
        ensures records { self.new.records ≡ self.old.records ++ note ∷ [] }
        ensures spare { self.old.spare ≤ self.new.spare + 1 }
        ensures window { self.new.window ≡ self.old.window }
        ensures logmax { self.new.logmax ≡ self.old.logmax }
    {
        self.store.push_reserved(note);
    }

    /// Whether the record is one of the last WINDOW records.
    pub fn in_window(&self, number: u32) -> bool
        ensures { result ≡ is_within_window self.now number }
    {
        u64::from(number) + u64::from(self.window) >= u64::from(self.store.len())
    }

    /// The record with this number; None exactly where there is none.
    pub fn walk(&self, number: u32) -> Option<&Record>
        ensures value { option_copied result ≡ slice_get self.now.records number }
        ensures within { IsSome result ↔ (number < length self.now.records) }
    {
        self.store.get(number)
    }

    /// The records from one number to another, in memory of their own; `Memory` where there is none.
    pub fn pin(&self, first: u32, last: u32) -> Result<Pin<Record>, Memory>
        requires order { first ≤ last }
        requires within { last < length self.now.records }
        ensures { IfOk result (λ pin. pin ≡ stretch self.now.records first last) }
    {
        self.store.pin(first, last)
    }
}
