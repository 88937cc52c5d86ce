ghost use Rattle.std.specs.Prelude.{◌≡◌, ◌+◌, ◌<◌, ◌≤◌, ◌∷◌, ◌++◌, length, take, drop, IfOk, OnOk, OnErr};
ghost use Rattle.iso_key.specs.Cuts.{passes, starts_behind};
ghost use Rattle.iso_key.specs.Splits.{IsRising, IsSplit};

use crate::cut::{Cut, passes};
use iso_types::{Memory, Rid, Value};
use std::alloc::Global;
use std::marker::Model;

/// Some entries of an index. Contracts see it as their list.
#[derive(Drop)]
pub struct Page {
    entries: Vec<(Value, Rid)>,
}

impl Model for Page {
    ghost use Rattle.std.specs.Prelude.{List};
    ghost use Rattle.iso_types.specs.declared.value.Value.{Value as Key};
    ghost use Rattle.iso_types.specs.declared.value.Rid.{Rid as Slot};

    ghost Value = { List (Key × Slot) };

    ghost view = { λ p. p.entries.items };
}

impl Page {
    /// A page of these entries.
    pub fn of(alloc: Global, entries: &[(Value, Rid)]) -> Result<Page, Memory>
        ensures { IfOk result (λ p. p ≡ entries.now) }
    {
        let entries = Vec::from_slice(alloc, entries)?;
        Ok(Page { entries })
    }

    pub fn as_slice(&self) -> &[(Value, Rid)]
        ensures { result.now ≡ self.now }
    {
        self.entries.as_slice()
    }

    /// Whether its least entry stands behind the cut.
    pub fn starts_behind(&self, cut: &Cut) -> bool
        ensures { result ≡ starts_behind cut.now self.now }
    {
        match self.entries.first() {
            Some(entry) => passes(cut, entry),
            None => false,
        }
    }

    /// The entry stands at the place, and what stood from there on behind it.
    pub fn insert(&mut self, at: usize, key: &Value, rid: Rid) -> Result<(), Memory>
        requires { at ≤ length self.old }
        ensures ok { OnOk result (self.new ≡ take at self.old ++ (key.now, rid) ∷ drop at self.old) }
        ensures err { OnErr result (self.new ≡ self.old) }
    {
        self.entries.insert(at, (*key, rid))?;
        Ok(())
    }

    /// The entry at the place goes.
    pub fn remove(&mut self, at: usize)
        requires { at < length self.old }
        ensures { self.new ≡ take at self.old ++ drop (at + 1) self.old }
    {
        self.entries.remove(at);
    }

    /// The entries, with one more at its place.
    fn grown(
        &self,
        alloc: Global,
        at: usize,
        key: &Value,
        rid: Rid,
    ) -> Result<Vec<(Value, Rid)>, Memory>
        requires at { at ≤ length self.now }
        requires few { length self.now ≤ 128 }
        ensures { IfOk result (λ v. v.items ≡ take at self.now ++ (key.now, rid) ∷ drop at self.now) }
    {
        let mut entries = Vec::with_capacity(alloc, self.entries.len() + 1)?;
        entries.extend_from_slice(&self.entries[..at])?;
        entries.push((*key, rid))?;
        entries.extend_from_slice(&self.entries[at..])?;
        Ok(entries)
    }

    /// The first 64 and the last 65 of the entries, with one more at its place.
    pub fn halves(
        &self,
        alloc: Global,
        at: usize,
        key: &Value,
        rid: Rid,
    ) -> Result<(Page, Page), Memory>
        requires at { at ≤ length self.now }
        requires many { 64 ≤ length self.now }
        requires few { length self.now ≤ 128 }
        ensures first { IfOk result (λ h. h.0 ≡ take 64 (take at self.now ++ (key.now, rid) ∷ drop at self.now)) }
        ensures second { IfOk result (λ h. h.1 ≡ drop 64 (take at self.now ++ (key.now, rid) ∷ drop at self.now)) }
    {
        let mut entries = self.grown(alloc, at, key, rid)?;
        let second = Page::of(alloc, &entries[64..])?;
        entries.truncate(64);
        Ok((Page { entries }, second))
    }
}

/// How many entries stand before the cut: a binary search.
pub fn entries_before(page: &[(Value, Rid)], cut: &Cut) -> usize
    requires { IsRising (passes cut.now) page.now }
    ensures { IsSplit (passes cut.now) page.now result }
{
    let mut low = 0;
    let mut high = page.len();
    while low < high {
        let middle = low + (high - low) / 2;
        if passes(cut, &page[middle]) {
            high = middle;
        } else {
            low = middle + 1;
        }
    }
    low
}
