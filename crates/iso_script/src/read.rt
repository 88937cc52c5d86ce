//! Reads scripts.

ghost use Rattle.std.specs.Prelude.{◌≡◌, ◌≤◌, ◌⊎◌, ℕ, List, length, IfOk, IfErr, true};
ghost use Rattle.iso_grammar.specs.Lines.{lines};
ghost use Rattle.iso_script.specs.Numbered.{rises_above};
ghost use Rattle.iso_script.specs.Sound.{IsSound};
ghost use Rattle.iso_script.specs.Reading as spec;
ghost use Rattle.iso_script.specs.declared.script.Script as told;
ghost use Rattle.iso_script.specs.declared.fault.LineCause.{LineCause as Why};

use crate::fault::{LineCause, ScriptFault};
use crate::progress::Progress;
use crate::reader::{Place, Reader};
use crate::script::Script;
use iso_grammar::first_line;
use std::alloc::Global;

fn is_ended(reader: &Reader) -> bool
    ensures { result ≡ spec.is_ended reader.now }
{
    matches!(reader.place, Place::After)
}

fn read_lines(alloc: Global, bytes: &[u8]) -> Result<Reader, ScriptFault>
    requires { length bytes.now ≤ 1048576 }
    ensures read { IfOk result (λ end. spec.ReadsFrom spec.start 1 (lines bytes.now) end) }
    ensures refused { IfErr result (λ e. spec.Refuses bytes.now e) }
{
    let mut progress = Progress::new(alloc);
    let mut rest = bytes;
    let mut number = 1u32;
    while !rest.is_empty() {
        let (line, behind) = first_line(rest);
        progress.take_line(alloc, line, number)?;
        rest = behind;
        number += 1;
    }
    if is_ended(&progress.reader) {
        return Ok(progress.reader);
    }
    Err(ScriptFault::BadLine(number, LineCause::Syntax(1)))
}

impl Script {
    /// Reads a script of at most 1,048,576 bytes: its first line, head lines in any order, BEGIN, body lines, END.
    ///
    /// `BadLine` names the first line that is no line of the grammar in its position, or has a fault, with its cause and
    /// place; a missing END is `Syntax(1)` of the line after the last. `Memory` is want of memory.
    ///
    /// A script that is read is sound: the settings lie within their bounds; the tables,
    /// columns, indexes and connections are no more than their limits and their names differ; each row fits its table, each
    /// index stands on a NOT NULL column and no unique one has a key twice; each statement is one that the head allows, by a
    /// connection of the head; the numbers of the lines rise.
    ///
    /// Cost: one pass over the bytes, a look for each name among those that were declared, for each row a look at each index,
    /// and on average a constant time for each unique one of its table; a UNIQUE INDEX line takes two looks at each row before
    /// it. Until the end, values under unique indexes stand in memory twice. The form is this project's own.
    pub fn read(alloc: Global, bytes: &[u8]) -> Result<Script, ScriptFault>
        requires { length bytes.now ≤ 1048576 }
        ensures read { IfOk result (λ s. spec.reads bytes.now s) }
        ensures rising { IfOk result (λ s. rises_above 0 s.lines ≡ true) }
        ensures sound { IfOk result (λ s. IsSound s) }
        ensures refused { IfErr result (λ e. spec.Refuses bytes.now e) }
    {
        let reader = read_lines(alloc, bytes)?;
        Ok(reader.script)
    }
}

/// Each list of bytes is read as one script, or has one first bad line with one cause, and never both.
pub fn exactly_one()
    ensures one_way { (bytes : List ℕ) → ((s : told.Script) × spec.reads bytes s) ⊎ ((n : ℕ) × (why : Why) × spec.bad bytes n why) }
    ensures not_both { (bytes : List ℕ) (s : told.Script) (n : ℕ) (why : Why) → spec.reads bytes s → spec.bad bytes n why → ⊥ }
    ensures one_script { (bytes : List ℕ) (s t : told.Script) → spec.reads bytes s → spec.reads bytes t → s ≡ t }
    ensures one_bad { (bytes : List ℕ) (m n : ℕ) (v w : Why) → spec.bad bytes m v → spec.bad bytes n w → (m ≡ n) × (v ≡ w) }
    ensures sound { (bytes : List ℕ) (s : told.Script) → spec.reads bytes s → IsSound s }
    ensures rising { (bytes : List ℕ) (s : told.Script) → spec.reads bytes s → rises_above 0 s.lines ≡ true }
{}
