ghost use Rattle.std.specs.Prelude.{◌≡◌, ◌+◌, ◌<◌, ◌≤◌, ◌↔◌, [], ◌∷◌, ◌++◌, length, slice_get, vec_len, vec_capacity, OnOk, OnErr, IfOk, IsSome};
ghost use Rattle.std.specs.Option.{option_copied};
ghost use Rattle.iso_segment.specs.Pinned.{stretch};

use crate::parts::item_in;
use crate::pin::{Pin, pin_of};
use crate::segment::Segment;
use iso_types::{Memory, Twin};
use std::alloc::Global;
use std::marker::Model;

/// A list of at most 2^32 - 1 items that only grows: sealed segments, which pins share, and behind them one open part, whose
/// first item has the number `next`. Contracts see its items, oldest first, and how many more it has room for.
#[derive(Drop)]
pub struct Store<R> {
    alloc: Global,
    segments: Vec<Segment<R>>,
    next: u32,
    rest: Vec<R>,
}

impl<R> Model for Store<R> {
    ghost use Rattle.std.specs.Prelude.{◌≤◌, ◌+◌, ◌++◌, vec_len, vec_capacity};
    ghost use Rattle.iso_types.specs.Filled.{Filled, filled_code};
    ghost use Rattle.iso_segment.specs.Parts.{AreLaid, joined};
    ghost use Rattle.iso_segment.specs.Pinned.{spare_of};

    ghost Value = { Filled R };

    ghost coded = { filled_code R.code };

    ghost view = { λ s. record { items = joined s.segments.items ++ s.rest.items; spare = spare_of (vec_capacity s.rest) s.next (vec_len s.rest) } };

    ghost invariant = { λ s. (AreLaid 0 s.segments.items s.next) × (s.next + vec_len s.rest ≤ 4294967295) };
}

impl<R> Store<R> {
    /// The empty store; it keeps the allocator.
    pub fn new(alloc: Global) -> Store<R>
        ensures { result.items ≡ [] }
    {
        Store {
            alloc,
            segments: Vec::new(alloc),
            next: 0,
            rest: Vec::new(alloc),
        }
    }

    /// The number of items.
    pub fn len(&self) -> u32
        ensures { result ≡ length self.now.items }
    {
        self.next + self.rest.len() as u32
    }

    /// The item with this number, from 0; None exactly where there is none. It is found at once where each segment before it
    /// has 256 items, else in a number of steps logarithmic in that of the segments.
    pub fn get(&self, number: u32) -> Option<&R>
        ensures value { option_copied result ≡ slice_get self.now.items number }
        ensures within { IsSome result ↔ (number < length self.now.items) }
    {
        item_in(
            0,
            self.segments.as_slice(),
            self.next,
            self.rest.as_slice(),
            number,
        )
    }
}

impl<R: Twin> Store<R> {
    /// Seals the open part: its items move into a segment that pins share. No item changes. After `Memory` all is as before.
    pub fn seal(&mut self) -> Result<(), Memory>
        ensures items { self.new.items ≡ self.old.items }
        ensures spare { self.old.spare ≤ self.new.spare }
    {
        if self.rest.is_empty() {
            return Ok(());
        }
        let len = self.rest.len() as u32;
        self.segments.reserve(1)?;
        let segment = Segment::seal(self.alloc, self.next, &mut self.rest)?;
        add_segment(&mut self.segments, segment);
        self.next += len;
        Ok(())
    }

    /// Makes room for `more` items; the open part is sealed first where it has 256 items or more. After `Memory`, which comes
    /// also where 2^32 - 1 items would be passed, the items are as before.
    pub fn reserve(&mut self, more: usize) -> Result<(), Memory>
        ensures items { self.new.items ≡ self.old.items }
        ensures ok { OnOk result (more ≤ self.new.spare) }
        ensures kept { self.old.spare ≤ self.new.spare }
    {
        if self.rest.len() >= 256 {
            self.seal()?;
        }
        self.grow(more)
    }

    /// Makes room for `more` items in the open part.
    fn grow(&mut self, more: usize) -> Result<(), Memory>
        ensures items { self.new.items ≡ self.old.items }
        ensures ok { OnOk result (more ≤ self.new.spare) }
        ensures kept { self.old.spare ≤ self.new.spare }
    {
        if more > u32::MAX as usize - self.next as usize - self.rest.len() {
            return Err(Memory);
        }
        self.rest.reserve(more)?;
        Ok(())
    }

    /// Adds an item where there is room for one. It takes no memory.
    pub fn push_reserved(&mut self, item: R)
        requires { 1 ≤ self.old.spare }
        ensures items { self.new.items ≡ self.old.items ++ item ∷ [] }
        ensures spare { self.old.spare ≤ self.new.spare + 1 }
    {
        let _ = self.rest.push(item);
    }

    /// The items from one number to another: sealed segments are shared, and items of the open part are copied. `Memory` where
    /// there is none.
    pub fn pin(&self, first: u32, last: u32) -> Result<Pin<R>, Memory>
        requires order { first ≤ last }
        requires within { last < length self.now.items }
        ensures { IfOk result (λ pin. pin ≡ stretch self.now.items first last) }
    {
        pin_of(
            self.alloc,
            self.segments.as_slice(),
            self.next,
            self.rest.as_slice(),
            first,
            last,
        )
    }
}

/// One more segment, where there is room for it.
fn add_segment<R: Drop>(segments: &mut Vec<Segment<R>>, segment: Segment<R>)
    requires { vec_len segments.old + 1 ≤ vec_capacity segments.old }
    ensures { segments.new.items ≡ segments.old.items ++ segment ∷ [] }
{
    let _ = segments.push(segment);
}
