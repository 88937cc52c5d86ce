ghost use Rattle.std.specs.Prelude.{◌≡◌, ◌+◌, ◌-◌, ◌<◌, ◌≤◌, ◌↔◌, [], ◌++◌, length, slice_get, vec_len, vec_capacity, IfOk, OnOk, OnErr, IsSome};
ghost use Rattle.std.specs.Arc.{arc_value};
ghost use Rattle.std.specs.Option.{option_copied};
ghost use Rattle.iso_segment.specs.Parts.{AreLaid, joined};

use iso_types::Memory;
use std::alloc::Global;
use std::marker::Model;
use std::sync::Arc;

/// Items that no longer change, shared by all that hold them, and the number of the first. Contracts see both.
#[derive(Drop)]
pub struct Segment<R> {
    first: u32,
    items: Arc<Vec<R>>,
}

impl<R> Model for Segment<R> {
    ghost use Rattle.std.specs.Arc.{arc_value};
    ghost use Rattle.iso_segment.specs.Pinned.{Pinned, pinned_code};

    ghost Value = { Pinned R };

    ghost coded = { pinned_code R.code };

    ghost view = { λ s. record { first = s.first; items = (arc_value s.items).items } };
}

impl<R> Segment<R> {
    /// The number of its first item.
    pub fn first(&self) -> u32
        ensures { result ≡ self.now.first }
    {
        self.first
    }

    /// The item at this place of the segment; None exactly past its end.
    pub fn item(&self, at: usize) -> Option<&R>
        ensures value { option_copied result ≡ slice_get self.now.items at }
        ensures within { IsSome result ↔ (at < length self.now.items) }
    {
        self.items.get(at)
    }

    /// Another holder of the same items. `Memory` comes where they have 2^63 holders.
    pub fn shared(&self) -> Result<Segment<R>, Memory>
        ensures { IfOk result (λ s. s ≡ self.now) }
    {
        Ok(Segment {
            first: self.first,
            items: Arc::try_clone(&self.items)?,
        })
    }
}

impl<R: Drop> Segment<R> {
    /// Moves the items of the open part into a segment; the open part keeps its capacity. After `Memory` all is as before.
    pub fn seal(alloc: Global, first: u32, rest: &mut Vec<R>) -> Result<Segment<R>, Memory>
        ensures ok { IfOk result (λ s. s ≡ record { first = first; items = rest.old.items }) }
        ensures items { OnOk result (rest.new.items ≡ []) }
        ensures len { OnOk result (vec_len rest.new ≡ 0) }
        ensures err { OnErr result (rest.new.items ≡ rest.old.items) }
        ensures err_len { OnErr result (vec_len rest.new ≡ vec_len rest.old) }
        ensures capacity { vec_capacity rest.new ≡ vec_capacity rest.old }
    {
        let room = Vec::with_capacity(alloc, rest.len())?;
        let mut items = match Arc::new(alloc, room) {
            Ok(items) => items,
            Err(_) => return Err(Memory),
        };
        match Arc::get_mut(&mut items) {
            Some(list) => list.append(rest)?,
            None => return Err(Memory),
        }
        Ok(Segment { first, items })
    }
}
