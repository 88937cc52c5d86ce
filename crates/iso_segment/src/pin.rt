ghost use Rattle.std.specs.Prelude.{◌≡◌, ◌≤◌, ◌<◌, ◌+◌, ◌-◌, ◌↔◌, ◌++◌, [], length, take, drop, IfOk, IsSome};
ghost use Rattle.std.specs.Option.{option_copied};
ghost use Rattle.iso_segment.specs.Parts.{AreLaid, first_at, joined};
ghost use Rattle.iso_segment.specs.Pinned.{item_of, stretch};

use crate::parts::{first_of, item_in, place_of, shared, twins};
use crate::segment::Segment;
use iso_types::{Memory, Twin};
use std::alloc::Global;
use std::marker::Model;

/// A stretch of a store: the numbers of its first and last item, the segments in which it lies, from the number `from` on, and
/// copies of items behind them, from the number `next` on. Contracts see the number of its first item, and its items.
#[derive(Drop)]
pub struct Pin<R> {
    first: u32,
    last: u32,
    from: u32,
    segments: Vec<Segment<R>>,
    next: u32,
    rest: Vec<R>,
}

impl<R> Model for Pin<R> {
    ghost use Rattle.std.specs.Prelude.{◌+◌, ◌-◌, ◌<◌, ◌≤◌, ◌++◌, length, take, drop};
    ghost use Rattle.iso_segment.specs.Parts.{AreLaid, joined};
    ghost use Rattle.iso_segment.specs.Pinned.{Pinned, pinned_code};

    ghost Value = { Pinned R };

    ghost coded = { pinned_code R.code };

    ghost view = { λ p. record { first = p.first; items = take (p.last + 1 - p.first) (drop (p.first - p.from) (joined p.segments.items ++ p.rest.items)) } };

    ghost invariant = { λ p. (AreLaid p.from p.segments.items p.next) × (p.from ≤ p.first) × (p.first ≤ p.last) × (p.last - p.from < length (joined p.segments.items ++ p.rest.items)) };
}

impl<R> Pin<R> {
    /// The number of its first item.
    pub fn first(&self) -> u32
        ensures { result ≡ self.now.first }
    {
        self.first
    }

    /// The item with this number; None exactly outside of the stretch.
    pub fn item(&self, number: u32) -> Option<&R>
        ensures value { option_copied result ≡ item_of self.now number }
        ensures within { IsSome result ↔ ((self.now.first ≤ number) × (number - self.now.first < length self.now.items)) }
    {
        if number < self.first || number > self.last {
            return None;
        }
        item_in(
            self.from,
            self.segments.as_slice(),
            self.next,
            self.rest.as_slice(),
            number,
        )
    }
}

/// A stretch of items that are in no segment.
fn pin_rest<R: Twin>(
    alloc: Global,
    next: u32,
    rest: &[R],
    first: u32,
    last: u32,
) -> Result<Pin<R>, Memory>
    requires low { next ≤ first }
    requires order { first ≤ last }
    requires within { last - next < length rest.now }
    ensures { IfOk result (λ pin. pin ≡ record { first = first; items = take (last + 1 - first) (drop (first - next) rest.now) }) }
{
    let rest = twins(
        alloc,
        &rest[(first - next) as usize..(last - next) as usize + 1],
    )?;
    Ok(Pin {
        first,
        last,
        from: first,
        segments: Vec::new(alloc),
        next: first,
        rest,
    })
}

/// A stretch of items that all are in segments.
fn pin_sealed<R: Drop>(
    alloc: Global,
    segments: &[Segment<R>],
    next: u32,
    first: u32,
    last: u32,
) -> Result<Pin<R>, Memory>
    requires laid { AreLaid 0 segments.now next }
    requires order { first ≤ last }
    requires within { last < next }
    ensures { IfOk result (λ pin. pin ≡ stretch (joined segments.now) first last) }
{
    let start = place_of(segments, next, first);
    let end = place_of(segments, next, last) + 1;
    Ok(Pin {
        first,
        last,
        from: first_of(segments, next, start),
        segments: shared(alloc, segments, start, end)?,
        next: first_of(segments, next, end),
        rest: Vec::new(alloc),
    })
}

/// A stretch that begins in a segment and ends behind all.
fn pin_both<R: Twin>(
    alloc: Global,
    segments: &[Segment<R>],
    next: u32,
    rest: &[R],
    first: u32,
    last: u32,
) -> Result<Pin<R>, Memory>
    requires laid { AreLaid 0 segments.now next }
    requires low { first < next }
    requires high { next ≤ last }
    requires within { last - next < length rest.now }
    ensures { IfOk result (λ pin. pin ≡ stretch (joined segments.now ++ rest.now) first last) }
{
    let start = place_of(segments, next, first);
    let rest = twins(alloc, &rest[..(last - next) as usize + 1])?;
    Ok(Pin {
        first,
        last,
        from: first_of(segments, next, start),
        segments: shared(alloc, segments, start, segments.len())?,
        next,
        rest,
    })
}

/// The stretch of segments and of the items behind them from one number to another: the segments are shared, and only items
/// behind them are copied.
pub fn pin_of<R: Twin>(
    alloc: Global,
    segments: &[Segment<R>],
    next: u32,
    rest: &[R],
    first: u32,
    last: u32,
) -> Result<Pin<R>, Memory>
    requires laid { AreLaid 0 segments.now next }
    requires order { first ≤ last }
    requires within { last < length (joined segments.now ++ rest.now) }
    ensures { IfOk result (λ pin. pin ≡ stretch (joined segments.now ++ rest.now) first last) }
{
    if first >= next {
        return pin_rest(alloc, next, rest, first, last);
    }
    if last < next {
        return pin_sealed(alloc, segments, next, first, last);
    }
    pin_both(alloc, segments, next, rest, first, last)
}
