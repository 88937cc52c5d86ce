//! A script so far, with what is kept beside it so that a line need not look through the lines before it.

ghost use Rattle.std.specs.Prelude.{◌≡◌, ◌<◌, ◌^◌, ◌+◌, [], length, OnOk};
ghost use Rattle.iso_grammar.specs.Grammar.{Answers};
ghost use Rattle.iso_grammar.specs.Lex.{tokens};
ghost use Rattle.iso_script.specs.Advance as step;
ghost use Rattle.iso_script.specs.Kept.{HoldsKeys, IsCounted, IsKept, counted, indexes_with, own_table as own, rows_with, with_row as more};
ghost use Rattle.iso_script.specs.Reading as spec;
ghost use Rattle.iso_script.specs.Rules as rule;
ghost use Rattle.iso_script.specs.Steps.{EventAnswers, LineAnswers};

use crate::event::Event;
use crate::fault::{LineCause, ScriptFault};
use crate::keys::{Keys, add_index, add_row};
use crate::reader::{Reader, verdict};
use crate::rules::whole_line;
use iso_grammar::{Checked, ReadError, Token, Tokens, is_comment, place_of, tokens_of};
use iso_types::{Head, Memory, TableId};
use std::alloc::Global;

/// A script so far, with the number of rows of each table, counted to 65,536, and the keys of rows under unique indexes.
#[derive(Drop)]
pub struct Progress {
    pub reader: Reader,
    pub counts: [u32; 256],
    pub keys: Keys,
}

fn own_table(event: &Event) -> Option<TableId>
    ensures { result ≡ own event.now }
{
    match event {
        Event::Row(first) => Some(first.table),
        _ => None,
    }
}

#[tactic(auto, unfolding(crate::specs::Kept::counted))]
fn one_more(count: u32) -> u32
    ensures { result ≡ counted (count + 1) }
{
    if count < 65536 { count + 1 } else { 65536 }
}

fn with_row(mut counts: [u32; 256], table: Option<TableId>) -> [u32; 256]
    requires { length counts ≡ 256 }
    ensures { result ≡ more counts table }
{
    if let Some(table) = table {
        let at = table.0 as usize;
        counts[at] = one_more(counts[at]);
    }
    counts
}

fn no_rows() -> [u32; 256]
    ensures { IsCounted result [] }
{
    [0; 256]
}

fn no_keys(alloc: Global) -> Keys
    ensures { HoldsKeys result.keys [] [] }
{
    Keys::new(alloc)
}

fn add_keys(keys: &mut Keys, head: &Head, event: &Event) -> Result<(), Memory>
    ensures { OnOk result (HoldsKeys keys.old.keys head.now.indexes head.now.rows → HoldsKeys keys.new.keys (indexes_with event.now head.now.indexes) (rows_with event.now head.now.rows)) }
{
    match event {
        Event::Index(index) => add_index(keys, head.rows.as_slice(), index),
        Event::Row(first) => add_row(keys, head.indexes.as_slice(), first),
        _ => Ok(()),
    }
}

impl Progress {
    /// Before the first line.
    pub fn new(alloc: Global) -> Progress
        ensures start { result.reader ≡ spec.start }
        ensures kept { IsKept result }
    {
        Progress {
            reader: Reader::new(alloc),
            counts: no_rows(),
            keys: no_keys(alloc),
        }
    }

    /// Takes the event of the line with this number; after `Memory` it stands anywhere. Cost: that of one entry at the
    /// end of a list, for a row on average a constant time for each unique index of its table, and for a unique index for each
    /// row of its table.
    pub fn advance(&mut self, number: u32, event: Event) -> Result<(), Memory>
        requires kept { IsKept self.old }
        ensures step { OnOk result (self.new.reader ≡ step.advance self.old.reader number event) }
        ensures kept { OnOk result (IsKept self.new) }
    {
        let table = own_table(&event);
        add_keys(&mut self.keys, &self.reader.script.head, &event)?;
        self.reader.advance(number, event)?;
        self.counts = with_row(self.counts, table);
        Ok(())
    }

    /// What the tokens of a line say, or where they leave the grammar.
    pub fn said(
        &self,
        alloc: Global,
        line: &[u8],
        tokens: &[Token],
    ) -> Result<Checked<Event>, ReadError>
        requires kept { IsKept self.now }
        ensures { Answers (rule.rule self.now.reader.place self.now.reader line.now) tokens.now result }
    {
        let mut cursor = Tokens::new(tokens);
        whole_line(alloc, self, line, &mut cursor, tokens.len())
    }

    fn event(
        &self,
        alloc: Global,
        line: &[u8],
        found: &[Token],
        number: u32,
    ) -> Result<Event, ScriptFault>
        requires kept { IsKept self.now }
        requires same { found.now ≡ tokens line.now }
        requires short { length line.now + 1 < 2 ^ 32 }
        ensures { EventAnswers self.now.reader line.now number result }
    {
        match self.said(alloc, line, found) {
            Err(ReadError::Memory) => Err(ScriptFault::Memory),
            Err(ReadError::Syntax(left)) => {
                let place = place_of(found, left, line.len() as u32);
                Err(ScriptFault::BadLine(number, LineCause::Syntax(place)))
            }
            Ok(said) => match verdict(said) {
                Ok(event) => Ok(event),
                Err(cause) => Err(ScriptFault::BadLine(number, cause)),
            },
        }
    }

    /// Takes the next line, which has this number.
    pub fn take_line(&mut self, alloc: Global, line: &[u8], number: u32) -> Result<(), ScriptFault>
        requires kept { IsKept self.old }
        requires short { length line.now + 1 < 2 ^ 32 }
        ensures line { LineAnswers self.old.reader line.now number result self.new.reader }
        ensures kept { OnOk result (IsKept self.new) }
    {
        if is_comment(line) {
            return Ok(());
        }
        let found = tokens_of(alloc, line)?;
        if found.as_slice().is_empty() {
            return Ok(());
        }
        let event = self.event(alloc, line, found.as_slice(), number)?;
        self.advance(number, event)?;
        Ok(())
    }
}
