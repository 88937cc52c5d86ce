ghost use Rattle.std.specs.Prelude.{◌≡◌, ◌<◌, ◌+◌, ◌^◌, ◌++◌, ℕ, IfOk, OnOk, codes, length, [], option_map, Some};
ghost use Rattle.std.specs.List.{AllByRecursion};
ghost use Rattle.iso_render.specs.Summary.{answer_of, count_line, heard, is_answer, is_busy, is_escalation, is_victim, is_wait, number, one_if, summary, summed, tallied};

use crate::put::{put, put_number};
use crate::tallies::{Answer, Tally, note, put_tallies};
use iso_history::{Act, Entry, Got, History, Stand};
use iso_script::Script;
use iso_types::{Items, Memory};
use std::alloc::Global;

// How many entries there are of each kind that a summary counts.
#[derive(Clone, Copy)]
struct Counts {
    answers: u64,
    busy: u64,
    waits: u64,
    escalations: u64,
    victims: u64,
}

// The answer that an act gives.
fn answer_of(act: &Act) -> Option<Answer>
    ensures { result ≡ answer_of act.now }
{
    match act {
        Act::Reply { code, .. } => Some(Answer {
            code: *code,
            reason: 0,
        }),
        Act::Commit => Some(Answer { code: 0, reason: 0 }),
        Act::Rollback { code, reason } => Some(Answer {
            code: *code,
            reason: *reason,
        }),
        _ => None,
    }
}

// Whether a connection begins to wait.
fn is_wait(act: &Act) -> bool
    ensures { result ≡ is_wait act.now }
{
    match act {
        Act::Lock {
            got: Got::Queued(_),
            ..
        }
        | Act::Look {
            got: Got::Queued(_),
            ..
        } => true,
        Act::Next { got, .. } => match got.get() {
            Stand::Queued(_) => true,
            _ => false,
        },
        _ => false,
    }
}

// One more where it is so.
fn more(count: u64, is: bool) -> u64
    requires { count < 2 ^ 63 }
    ensures { result ≡ count + one_if is }
{
    if is { count + 1 } else { count }
}

impl Counts {
    // Nothing is counted yet.
    fn none() -> Counts
        ensures { result ≡ record { answers = 0; busy = 0; waits = 0; escalations = 0; victims = 0 } }
    {
        Counts {
            answers: 0,
            busy: 0,
            waits: 0,
            escalations: 0,
            victims: 0,
        }
    }

    // The counts with one act more.
    fn with(self, act: &Act) -> Counts
        requires answers { self.answers < 2 ^ 63 }
        requires busy { self.busy < 2 ^ 63 }
        requires waits { self.waits < 2 ^ 63 }
        requires escalations { self.escalations < 2 ^ 63 }
        requires victims { self.victims < 2 ^ 63 }
        ensures answers { result.answers ≡ self.answers + one_if (is_answer act.now) }
        ensures busy { result.busy ≡ self.busy + one_if (is_busy act.now) }
        ensures waits { result.waits ≡ self.waits + one_if (is_wait act.now) }
        ensures escalations { result.escalations ≡ self.escalations + one_if (is_escalation act.now) }
        ensures victims { result.victims ≡ self.victims + one_if (is_victim act.now) }
    {
        Counts {
            answers: more(self.answers, answer_of(act).is_some()),
            busy: more(self.busy, matches!(act, Act::Busy { .. })),
            waits: more(self.waits, is_wait(act)),
            escalations: more(self.escalations, matches!(act, Act::Collapse { .. })),
            victims: more(self.victims, matches!(act, Act::Victim { .. })),
        }
    }
}

// Counts what the act answers.
fn hear(tallies: &mut Vec<Tally>, act: &Act) -> Result<(), Memory>
    requires { AllByRecursion (λ t. t.count < 2 ^ 63) tallies.old.items }
    ensures { OnOk result (tallies.new.items ≡ heard tallies.old.items act.now) }
{
    match answer_of(act) {
        Some(answer) => note(tallies, &answer),
        None => Ok(()),
    }
}

// Appends a count under its word.
fn put_total(out: &mut Vec<u8>, word: &[u8], count: u64) -> Result<(), Memory>
    ensures { OnOk result (out.new.items ≡ out.old.items ++ count_line word.now count) }
{
    put(out, word)?;
    put(out, b" ")?;
    put_number(out, count)?;
    put(out, b"\n")
}

// The summary of so many lines, of these counts and tallies.
fn print(alloc: Global, lines: u64, counts: Counts, tallies: &[Tally]) -> Result<Items<u8>, Memory>
    ensures { IfOk result (λ text. text ≡ summed lines counts tallies.now) }
{
    let mut out = Vec::new(alloc);
    put_total(&mut out, b"LINES", lines)?;
    put_total(&mut out, b"REPLIES", counts.answers)?;
    put_total(&mut out, b"BUSY", counts.busy)?;
    put_tallies(&mut out, tallies)?;
    put_total(&mut out, b"WAITS", counts.waits)?;
    put_total(&mut out, b"ESCALATIONS", counts.escalations)?;
    put_total(&mut out, b"VICTIMS", counts.victims)?;
    put(&mut out, b"END\n")?;
    Ok(Items::from_vec(out))
}

// The summary of entries.
fn sum(alloc: Global, script: &Script, entries: &[Entry]) -> Result<Items<u8>, Memory>
    ensures { IfOk result (λ text. text ≡ summary script.now entries.now) }
{
    let mut counts = Counts::none();
    let mut tallies = Vec::new(alloc);
    for entry in entries {
        counts = counts.with(&entry.act);
        hear(&mut tallies, &entry.act)?;
    }
    print(alloc, script.lines.len() as u64, counts, tallies.as_slice())
}

/// The summary of a history: how many lines the script has, how many statements were answered and how many lines passed over,
/// how often each SQLCODE came, and how many waits, escalations and deadlocks there were. `Memory` comes only for want of
/// memory. It makes one pass over the history, with a short list of the codes that came. (This project's own.)
pub fn summary(alloc: Global, script: &Script, history: &History) -> Result<Items<u8>, Memory>
    ensures { IfOk result (λ text. text ≡ summary script.now history.now.items) }
{
    sum(alloc, script, history.as_slice())
}
