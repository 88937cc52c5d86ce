ghost use Rattle.std.specs.Prelude.{◌≡◌, suc, ◌+◌, ◌-◌, ◌<◌, ◌≤◌, ◌↔◌, false, not, true, [], ◌∷◌, ◌++◌, length, take, drop, find, slice_get, slice_index_or, Some, IsSome, IfSome, IfOk, OnOk, OnErr};
ghost use Rattle.iso_key.specs.Cuts.{passes, starts_behind};
ghost use Rattle.iso_key.specs.declared.cut.Cut.{Cut as Cutting};
ghost use Rattle.iso_key.specs.Entries as pairs;
ghost use Rattle.iso_key.specs.Entries.{has_pair, with_pair, without_pair};
ghost use Rattle.iso_key.specs.Pages.{IsPaged, entries, inserted, is_page, kept, parted, placed, removed};
ghost use Rattle.iso_key.specs.Splits.{IsRising, IsSplit};

use crate::cut::{Cut, has_key, is_same};
use crate::page::{Page, entries_before};
use iso_types::{Edge, Memory, Rid, Value};
use std::alloc::Global;
use std::marker::Model;

/// The entries of an index in order, in pages of 1 to 128. Contracts see it as the list of its pages; one after the other
/// they are the index.
#[derive(Drop)]
pub struct KeyIndex {
    pages: Vec<Page>,
    alloc: Global,
}

impl Model for KeyIndex {
    ghost use Rattle.std.specs.Prelude.{List};
    ghost use Rattle.iso_types.specs.declared.value.Value.{Value as Key};
    ghost use Rattle.iso_types.specs.declared.value.Rid.{Rid as Slot};
    ghost use Rattle.iso_key.specs.Pages.{IsPaged};

    ghost Value = { List (List (Key × Slot)) };

    ghost view = { λ x. x.pages.items };

    ghost invariant = { λ x. IsPaged x.pages.items };
}

/// How many pages begin before the cut: a binary search.
fn pages_before(pages: &[Page], cut: &Cut) -> usize
    requires { IsRising (starts_behind cut.now) pages.now }
    ensures { IsSplit (starts_behind cut.now) pages.now result }
{
    let mut low = 0;
    let mut high = pages.len();
    while low < high {
        let middle = low + (high - low) / 2;
        if pages[middle].starts_behind(cut) {
            high = middle;
        } else {
            low = middle + 1;
        }
    }
    low
}

/// The least entry behind the cut.
fn first_behind(pages: &[Page], cut: &Cut) -> Option<(Value, Rid)>
    requires { IsPaged pages.now }
    ensures { result ≡ find (passes cut.now) (entries pages.now) }
{
    let next = pages_before(pages, cut);
    if next > 0 {
        let page = pages[next - 1].as_slice();
        let at = entries_before(page, cut);
        if at < page.len() {
            return Some(page[at]);
        }
    }
    least_of(pages, next)
}

/// The least entry of the page at the place.
fn least_of(pages: &[Page], at: usize) -> Option<(Value, Rid)>
    ensures { result ≡ slice_get (slice_index_or pages.now at []) 0 }
{
    if at < pages.len() {
        pages[at].as_slice().first().copied()
    } else {
        None
    }
}

/// The least entry whose key meets the low bound.
fn first_met(pages: &[Page], low: &Option<Edge>) -> Option<(Value, Rid)>
    requires { IsPaged pages.now }
    ensures { result ≡ pairs.first_from low.now (entries pages.now) }
{
    first_behind(pages, &Cut::low(low))
}

/// Whether an entry has the key.
fn is_there(pages: &[Page], key: &Value) -> bool
    requires { IsPaged pages.now }
    ensures { result ≡ pairs.has_key (entries pages.now) key.now }
{
    match first_behind(pages, &Cut::FromKey(*key)) {
        Some(entry) => has_key(&entry, key),
        None => false,
    }
}

/// Places an entry that is not there in the page at this place, which is split where it is full.
fn place_in(
    pages: &mut Vec<Page>,
    alloc: Global,
    at: usize,
    key: &Value,
    rid: Rid,
) -> Result<(), Memory>
    requires at { at < length pages.old.items }
    requires ordered { pairs.IsOrdered (slice_index_or pages.old.items at []) }
    requires few { length (slice_index_or pages.old.items at []) ≤ 128 }
    requires new { has_pair (slice_index_or pages.old.items at []) (key.now, rid) ≡ false }
    ensures ok { OnOk result (pages.new.items ≡ take at pages.old.items ++ (parted (with_pair (key.now, rid) (slice_index_or pages.old.items at [])) ++ drop (suc at) pages.old.items)) }
    ensures err { OnErr result (pages.new.items ≡ pages.old.items) }
{
    let place = entries_before(pages[at].as_slice(), &Cut::From(*key, rid));
    if pages[at].as_slice().len() < 128 {
        pages[at].insert(place, key, rid)?;
        return Ok(());
    }
    let (first, second) = pages[at].halves(alloc, place, key, rid)?;
    pages.insert(at + 1, second)?;
    pages[at] = first;
    Ok(())
}

/// Places an entry that is not there.
fn place(pages: &mut Vec<Page>, alloc: Global, key: &Value, rid: Rid) -> Result<(), Memory>
    requires paged { IsPaged pages.old.items }
    requires new { has_pair (entries pages.old.items) (key.now, rid) ≡ false }
    ensures ok { OnOk result (pages.new.items ≡ placed (key.now, rid) pages.old.items) }
    ensures err { OnErr result (pages.new.items ≡ pages.old.items) }
{
    if pages.is_empty() {
        let page = Page::of(alloc, &[(*key, rid)])?;
        pages.push(page)?;
        return Ok(());
    }
    let next = pages_before(pages, &Cut::From(*key, rid));
    place_in(pages, alloc, next.saturating_sub(1), key, rid)
}

/// Takes the entry out of the page at this place, and drops the page where it is empty then.
fn take_out(pages: &mut Vec<Page>, at: usize, key: &Value, rid: Rid) -> bool
    requires at { at < length pages.old.items }
    requires sized { is_page (slice_index_or pages.old.items at []) ≡ true }
    requires ordered { pairs.IsOrdered (slice_index_or pages.old.items at []) }
    ensures answer { result ≡ has_pair (slice_index_or pages.old.items at []) (key.now, rid) }
    ensures pages { pages.new.items ≡ take at pages.old.items ++ (kept (without_pair (key.now, rid) (slice_index_or pages.old.items at [])) ++ drop (suc at) pages.old.items) }
{
    let place = entries_before(pages[at].as_slice(), &Cut::From(*key, rid));
    if !stands_at(pages[at].as_slice(), place, key, rid) {
        return false;
    }
    pages[at].remove(place);
    if pages[at].as_slice().is_empty() {
        pages.remove(at);
    }
    true
}

/// Whether the entry stands at this place of the page.
fn stands_at(page: &[(Value, Rid)], at: usize, key: &Value, rid: Rid) -> bool
    requires split { IsSplit (passes (Cutting.From key.now rid)) page.now at }
    requires ordered { pairs.IsOrdered page.now }
    ensures { result ≡ has_pair page.now (key.now, rid) }
{
    at < page.len() && is_same(&page[at], key, rid)
}

/// Takes the entry out.
fn take_from(pages: &mut Vec<Page>, key: &Value, rid: Rid) -> bool
    requires { IsPaged pages.old.items }
    ensures answer { result ≡ has_pair (entries pages.old.items) (key.now, rid) }
    ensures pages { pages.new.items ≡ removed (key.now, rid) pages.old.items }
{
    let next = pages_before(pages, &Cut::After(*key, rid));
    next > 0 && take_out(pages, next - 1, key, rid)
}

/// Whether the entry is there.
fn is_in(pages: &[Page], key: &Value, rid: Rid) -> bool
    requires { IsPaged pages.now }
    ensures { result ≡ has_pair (entries pages.now) (key.now, rid) }
{
    match first_behind(pages, &Cut::From(*key, rid)) {
        Some(entry) => is_same(&entry, key, rid),
        None => false,
    }
}

impl KeyIndex {
    /// An index without an entry.
    pub fn new(alloc: Global) -> KeyIndex
        ensures { result ≡ [] }
    {
        KeyIndex {
            pages: Vec::new(alloc),
            alloc,
        }
    }

    /// Adds the entry; false exactly where it was there. After `Memory` the index is as it was.
    pub fn insert(&mut self, key: Value, rid: Rid) -> Result<bool, Memory>
        ensures answer { IfOk result (λ b. b ≡ not (has_pair (entries self.old) (key, rid))) }
        ensures pages { OnOk result (self.new ≡ inserted (key, rid) self.old) }
        ensures entries { OnOk result (entries self.new ≡ with_pair (key, rid) (entries self.old)) }
        ensures err { OnErr result (self.new ≡ self.old) }
    {
        if is_in(&self.pages, &key, rid) {
            return Ok(false);
        }
        place(&mut self.pages, self.alloc, &key, rid)?;
        Ok(true)
    }

    /// Takes the entry out; false exactly where it was not there.
    pub fn remove(&mut self, key: Value, rid: Rid) -> bool
        ensures answer { result ≡ has_pair (entries self.old) (key, rid) }
        ensures pages { self.new ≡ removed (key, rid) self.old }
        ensures entries { entries self.new ≡ without_pair (key, rid) (entries self.old) }
    {
        take_from(&mut self.pages, &key, rid)
    }

    /// The page at this place, from 0; None exactly where there is none.
    pub fn page(&self, at: usize) -> Option<&[(Value, Rid)]>
        ensures some { IfSome result (λ page. Some page.now ≡ slice_get self.now at) }
        ensures within { IsSome result ↔ (at < length self.now) }
        ensures size { IfSome result (λ page. (1 ≤ length page.now) × (length page.now ≤ 128)) }
    {
        if at < self.pages.len() {
            Some(self.pages[at].as_slice())
        } else {
            None
        }
    }

    /// The least entry whose key meets the low bound.
    pub fn first_from(&self, low: Option<Edge>) -> Option<(Value, Rid)>
        ensures { result ≡ pairs.first_from low (entries self.now) }
    {
        first_met(&self.pages, &low)
    }

    /// The least entry after the position.
    pub fn next_after(&self, at: (Value, Rid)) -> Option<(Value, Rid)>
        ensures { result ≡ pairs.next_after at (entries self.now) }
    {
        first_behind(&self.pages, &Cut::After(at.0, at.1))
    }

    /// The least key above this one.
    pub fn next_key(&self, key: Value) -> Option<Value>
        ensures { result ≡ pairs.next_key key (entries self.now) }
    {
        let entry = first_behind(&self.pages, &Cut::AfterKey(key))?;
        Some(entry.0)
    }

    /// Whether an entry has the key.
    pub fn has_key(&self, key: Value) -> bool
        ensures { result ≡ pairs.has_key (entries self.now) key }
    {
        is_there(&self.pages, &key)
    }
}
