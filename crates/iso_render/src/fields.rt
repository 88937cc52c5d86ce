ghost use Rattle.std.specs.Prelude.{◌≡◌, ◌++◌, OnOk, codes};
ghost use Rattle.std.specs.Fmt.{decimal, signed_decimal};
ghost use Rattle.iso_render.specs.Fields.{after_text, got_text, high_text, level_word, lock_text, low_text, place_text, stand_text, term_word, truth_word, want_word, whole_row, why_word};

use crate::names::{put_conn, put_name, state_of, word_of};
use crate::put::{put, put_number, put_row, put_value};
use iso_history::{Got, Stand, Want, Why};
use iso_modes::Term;
use iso_queue::LockLine;
use iso_types::{Edge, Head, Isolation, Memory, Rid, Row, Value};

// Yes or no.
pub fn truth_of(truth: bool) -> &'static [u8]
    ensures { result.now ≡ truth_word truth }
{
    if truth { b"YES" } else { b"NO" }
}

// How long a lock is kept.
pub fn term_of(term: Term) -> &'static [u8]
    ensures { result.now ≡ term_word term }
{
    match term {
        Term::Kept => b"KEPT",
        Term::Brief => b"BRIEF",
        Term::Fresh => b"FRESH",
    }
}

// Why a lock was requested.
pub fn why_of(why: Why) -> &'static [u8]
    ensures { result.now ≡ why_word why }
{
    match why {
        Why::Asked => b"ASKED",
        Why::Escalation => b"ESCALATION",
        Why::Blocked => b"BLOCKED",
    }
}

// What a look wants.
pub fn want_of(want: Want) -> &'static [u8]
    ensures { result.now ≡ want_word want }
{
    match want {
        Want::Dirty => b"DIRTY",
        Want::Current => b"CURRENT",
        Want::Settled => b"SETTLED",
        Want::Steady => b"STEADY",
        Want::Repeat => b"REPEAT",
        Want::Alter => b"ALTER",
        Want::AlterKept => b"ALTERKEPT",
    }
}

// An isolation level.
pub fn level_of(level: Isolation) -> &'static [u8]
    ensures { result.now ≡ level_word level }
{
    match level {
        Isolation::Ur => b"UR",
        Isolation::Cs => b"CS",
        Isolation::Rs => b"RS",
        Isolation::Rr => b"RR",
    }
}

// Appends the outcome of a request.
pub fn put_got(out: &mut Vec<u8>, got: Got) -> Result<(), Memory>
    ensures { OnOk result (out.new.items ≡ out.old.items ++ got_text got) }
{
    match got {
        Got::Granted => put(out, b"GRANTED"),
        Got::Queued(mode) => {
            put(out, b"QUEUED ")?;
            put(out, word_of(mode))
        }
        Got::TimedOut => put(out, b"TIMEDOUT"),
    }
}

// Appends an index entry.
fn put_place(out: &mut Vec<u8>, value: &Value, rid: Rid) -> Result<(), Memory>
    ensures { OnOk result (out.new.items ≡ out.old.items ++ place_text (value.now, rid)) }
{
    put_value(out, value)?;
    put(out, b" ")?;
    put_number(out, u64::from(rid.0))
}

// Appends where a step of an index scan stands.
pub fn put_stand(out: &mut Vec<u8>, head: &Head, stand: &Stand) -> Result<(), Memory>
    ensures { OnOk result (out.new.items ≡ out.old.items ++ stand_text head.now stand.now) }
{
    match stand {
        Stand::At(value, rid) => {
            put(out, b"AT ")?;
            put_place(out, value, *rid)
        }
        Stand::Past => put(out, b"PAST"),
        Stand::Queued(name) => {
            put(out, b"QUEUED ")?;
            put_name(out, head, name)
        }
        Stand::TimedOut(name) => {
            put(out, b"TIMEDOUT ")?;
            put_name(out, head, name)
        }
    }
}

// Appends the low bound of a range.
pub fn put_low(out: &mut Vec<u8>, bound: &Option<Edge>) -> Result<(), Memory>
    ensures { OnOk result (out.new.items ≡ out.old.items ++ low_text bound.now) }
{
    match bound {
        None => put(out, b"-"),
        Some(edge) => {
            put(out, if edge.inclusive { b"GE " } else { b"GT " })?;
            put_value(out, &edge.value)
        }
    }
}

// Appends the high bound.
pub fn put_high(out: &mut Vec<u8>, bound: &Option<Edge>) -> Result<(), Memory>
    ensures { OnOk result (out.new.items ≡ out.old.items ++ high_text bound.now) }
{
    match bound {
        None => put(out, b"-"),
        Some(edge) => {
            put(out, if edge.inclusive { b"LE " } else { b"LT " })?;
            put_value(out, &edge.value)
        }
    }
}

// Appends the entry from behind which an index scan goes on.
pub fn put_after(out: &mut Vec<u8>, after: &Option<(Value, Rid)>) -> Result<(), Memory>
    ensures { OnOk result (out.new.items ≡ out.old.items ++ after_text after.now) }
{
    match after {
        None => put(out, b"-"),
        Some((value, rid)) => put_place(out, value, *rid),
    }
}

// Appends a row in parentheses.
pub fn put_whole_row(out: &mut Vec<u8>, row: &Row) -> Result<(), Memory>
    ensures { OnOk result (out.new.items ≡ out.old.items ++ whole_row row.now) }
{
    put(out, b"(")?;
    put_row(out, row)?;
    put(out, b")")
}

// Appends a lock of a snapshot.
pub fn put_lock_text(out: &mut Vec<u8>, head: &Head, lock: &LockLine) -> Result<(), Memory>
    ensures { OnOk result (out.new.items ≡ out.old.items ++ lock_text head.now lock.now) }
{
    put_name(out, head, &lock.name)?;
    put(out, b" ")?;
    put_conn(out, head, lock.conn)?;
    put(out, b" ")?;
    put(out, word_of(lock.mode))?;
    put(out, b" ")?;
    put(out, state_of(lock.state))
}
