ghost use Rattle.std.specs.Prelude.{◌≡◌, ◌+◌, ◌-◌, ◌<◌, ◌≤◌, ◌↔◌, ◌++◌, length, slice_get, take, drop, IfOk, IsSome};
ghost use Rattle.std.specs.Option.{option_copied};
ghost use Rattle.iso_segment.specs.Parts.{AreLaid, first_at, joined};

use crate::segment::Segment;
use iso_types::{Memory, Twin};
use std::alloc::Global;

/// A place strictly between two others: the guess or the one behind it, where that lies there, else the middle.
fn between(low: usize, high: usize, guess: usize) -> usize
    requires { low + 1 < high }
    ensures low { low < result }
    ensures high { result < high }
{
    let next = if low == guess { low + 1 } else { guess };
    if low < next && next < high {
        return next;
    }
    low + (high - low) / 2
}

/// The place of the segment that holds the item with this number. Where all before it have 256 items it is found at
/// once, else in a number of steps logarithmic in that of the segments.
pub fn place_of<R>(segments: &[Segment<R>], next: u32, number: u32) -> usize
    requires some { 1 ≤ length segments.now }
    requires first { first_at segments.now 0 next ≤ number }
    requires last { number < next }
    ensures within { result < length segments.now }
    ensures low { first_at segments.now result next ≤ number }
    ensures high { number < first_at segments.now (result + 1) next }
{
    let guess = (number / 256) as usize;
    let mut low = 0;
    let mut high = segments.len();
    while high - low > 1 {
        let middle = between(low, high, guess);
        if segments[middle].first() <= number {
            low = middle;
        } else {
            high = middle;
        }
    }
    low
}

/// The number at which the segment at this place begins; behind the last, the next number.
pub fn first_of<R>(segments: &[Segment<R>], next: u32, at: usize) -> u32
    ensures { result ≡ first_at segments.now at next }
{
    match segments.get(at) {
        Some(segment) => segment.first(),
        None => next,
    }
}

/// The item at this place; None exactly past the last.
fn item_at<R>(items: &[R], at: usize) -> Option<&R>
    ensures { option_copied result ≡ slice_get items.now at }
{
    items.get(at)
}

/// The item with this number, of segments that begin at `from` and of the items behind them; None exactly past the last.
pub fn item_in<'a, R>(
    from: u32,
    segments: &'a [Segment<R>],
    next: u32,
    rest: &'a [R],
    number: u32,
) -> Option<&'a R>
    requires laid { AreLaid from segments.now next }
    requires low { from ≤ number }
    ensures value { option_copied result ≡ slice_get (joined segments.now ++ rest.now) (number - from) }
    ensures within { IsSome result ↔ (number - from < length (joined segments.now ++ rest.now)) }
{
    if number >= next {
        return item_at(rest, (number - next) as usize);
    }
    let segment = &segments[place_of(segments, next, number)];
    segment.item((number - segment.first()) as usize)
}

/// Other holders of the same segments.
fn holders<R: Drop>(alloc: Global, segments: &[Segment<R>]) -> Result<Vec<Segment<R>>, Memory>
    ensures { IfOk result (λ others. others.items ≡ segments.now) }
{
    let mut others = Vec::new(alloc);
    for segment in segments {
        others.push(segment.shared()?)?;
    }
    Ok(others)
}

/// Other holders of the segments from one place up to another.
pub fn shared<R: Drop>(
    alloc: Global,
    segments: &[Segment<R>],
    start: usize,
    end: usize,
) -> Result<Vec<Segment<R>>, Memory>
    requires order { start ≤ end }
    requires within { end ≤ length segments.now }
    ensures { IfOk result (λ others. others.items ≡ take (end - start) (drop start segments.now)) }
{
    holders(alloc, &segments[start..end])
}

/// Copies of these items; `Memory` where there is none.
pub fn twins<R: Twin>(alloc: Global, items: &[R]) -> Result<Vec<R>, Memory>
    ensures { IfOk result (λ copies. copies.items ≡ items.now) }
{
    let mut copies = Vec::new(alloc);
    for item in items {
        copies.push(item.twin(alloc)?)?;
    }
    Ok(copies)
}
