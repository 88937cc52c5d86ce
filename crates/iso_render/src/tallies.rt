ghost use Rattle.std.specs.Prelude.{◌≡◌, ◌<◌, ◌≤◌, ◌^◌, ◌++◌, ℕ, OnOk, OnErr, length, take, drop, slice_get, true, false};
ghost use Rattle.std.specs.List.{AllByRecursion};
ghost use Rattle.std.specs.Option.{option_map_or};
ghost use Rattle.iso_render.specs.Summary.{code_line, code_lines, is_lower, is_of, noted, reason_text, StopsAt};

use crate::put::{put, put_number, put_signed};
use iso_types::Memory;

/// An answer: its SQLCODE, and the reason of a rollback that nobody asked for, else 0.
#[derive(Clone, Copy)]
pub struct Answer {
    pub code: i32,
    pub reason: u8,
}

/// How often an answer came.
#[derive(Clone, Copy)]
pub struct Tally {
    pub answer: Answer,
    pub count: u64,
}

impl Tally {
    // Whether it is of a lower code, or of the same with a lower reason.
    fn is_lower(&self, answer: &Answer) -> bool
        ensures { result ≡ is_lower answer.now self.now }
    {
        self.answer.code < answer.code
            || (self.answer.code == answer.code && self.answer.reason < answer.reason)
    }

    // Whether it is of this answer.
    fn is_of(&self, answer: &Answer) -> bool
        ensures { result ≡ is_of answer.now self.now }
    {
        self.answer.code == answer.code && self.answer.reason == answer.reason
    }
}

// The place of the first tally that isn't of a lower answer.
fn place(tallies: &[Tally], answer: &Answer) -> usize
    ensures within { result ≤ length tallies.now }
    ensures lower { noted answer.now tallies.now ≡ take result tallies.now ++ noted answer.now (drop result tallies.now) }
    ensures next { StopsAt (is_lower answer.now) tallies.now result }
{
    let mut at = 0;
    while at < tallies.len() && tallies[at].is_lower(answer) {
        at += 1;
    }
    at
}

// Whether the tally at the place is of this answer.
fn is_at(tallies: &[Tally], at: usize, answer: &Answer) -> bool
    ensures there { result ≡ option_map_or (is_of answer.now) (slice_get tallies.now at) false }
    ensures within { result ≡ true → at < length tallies.now }
{
    match tallies.get(at) {
        Some(tally) => tally.is_of(answer),
        None => false,
    }
}

/// Counts one answer more, in a list that ascends by code and reason. After `Memory` the list is as it was.
pub fn note(tallies: &mut Vec<Tally>, answer: &Answer) -> Result<(), Memory>
    requires { AllByRecursion (λ t. t.count < 2 ^ 63) tallies.old.items }
    ensures { OnOk result (tallies.new.items ≡ noted answer.now tallies.old.items) }
{
    let at = place(tallies.as_slice(), answer);
    if is_at(tallies.as_slice(), at, answer) {
        tallies[at].count += 1;
        return Ok(());
    }
    let first = Tally {
        answer: *answer,
        count: 1,
    };
    tallies.insert(at, first)?;
    Ok(())
}

// Appends the reason behind a blank, where it isn't 0.
fn put_reason(out: &mut Vec<u8>, reason: u8) -> Result<(), Memory>
    ensures { OnOk result (out.new.items ≡ out.old.items ++ reason_text reason) }
{
    if reason == 0 {
        return Ok(());
    }
    put(out, b" ")?;
    put_number(out, u64::from(reason))
}

// Appends the line of a code.
fn put_tally(out: &mut Vec<u8>, tally: Tally) -> Result<(), Memory>
    ensures { OnOk result (out.new.items ≡ out.old.items ++ code_line tally) }
{
    put(out, b"CODE ")?;
    put_signed(out, i64::from(tally.answer.code))?;
    put_reason(out, tally.answer.reason)?;
    put(out, b" ")?;
    put_number(out, tally.count)?;
    put(out, b"\n")
}

/// Appends a line for each code.
pub fn put_tallies(out: &mut Vec<u8>, tallies: &[Tally]) -> Result<(), Memory>
    ensures { OnOk result (out.new.items ≡ out.old.items ++ code_lines tallies.now) }
{
    for tally in tallies {
        put_tally(out, *tally)?;
    }
    Ok(())
}
