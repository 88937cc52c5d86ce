//! Reads the text of a statement.

ghost use Rattle.std.specs.Prelude.{◌≡◌, ◌≤◌, ◌<◌, ◌^◌, ◌⊎◌, ℕ, List, length, Ok, Err, IfOk, true};
ghost use Rattle.iso_grammar.specs.Grammar as grammar;
ghost use Rattle.iso_grammar.specs.Lex.{tokens};
ghost use Rattle.iso_grammar.specs.Reading.{Gives, all_of};
ghost use Rattle.iso_sql.specs.Sound.{is_sound_statement};
ghost use Rattle.iso_sql.specs.StatementReading as reading;
ghost use Rattle.iso_sql.specs.Statements as rule;
ghost use Rattle.iso_sql.specs.Texts as spec;
ghost use Rattle.iso_types.specs.declared.head.Head as declared;
ghost use Rattle.iso_sql.specs.declared.fault.SqlFault as told;
ghost use Rattle.iso_sql.specs.declared.statement.Statement as meant;

use crate::fault::SqlFault;
use crate::reader::take_statement;
use crate::statement::Statement;
use iso_grammar::{Cause, Checked, Fault, ReadError, Token, Tokens, place_of, tokens_of};
use iso_types::Head;
use std::alloc::Global;

fn whole(
    alloc: Global,
    head: &Head,
    line: &[u8],
    tokens: &mut Tokens<'_>,
    bound: usize,
) -> Result<Checked<Statement>, ReadError>
    requires most { tokens.old.most ≡ bound }
    requires all { length tokens.old.rest ≡ bound }
    ensures { Gives (all_of (reading.statement head.now line.now)) tokens.old result tokens.new }
{
    let found = take_statement(alloc, head, line, tokens, bound)?;
    tokens.end()?;
    Ok(found)
}

/// What the tokens of a text say, or where they leave the grammar.
fn said(
    alloc: Global,
    head: &Head,
    text: &[u8],
    found: &[Token],
) -> Result<Checked<Statement>, ReadError>
    ensures { grammar.Answers (rule.statement head.now text.now) found.now result }
{
    let mut cursor = Tokens::new(found);
    whole(alloc, head, text, &mut cursor, found.len())
}

fn at_place(fault: Fault) -> SqlFault
    ensures { result ≡ spec.as_fault fault.cause fault.place }
{
    match fault.cause {
        Cause::Unknown => SqlFault::Unknown(fault.place),
        Cause::TypeFault => SqlFault::TypeFault(fault.place),
        Cause::Duplicate => SqlFault::Duplicate(fault.place),
        Cause::Limit => SqlFault::Limit(fault.place),
    }
}

fn judged(alloc: Global, head: &Head, text: &[u8], found: &[Token]) -> Result<Statement, SqlFault>
    requires tokens { found.now ≡ tokens text.now }
    requires short { length text.now ≤ 1048576 }
    ensures { spec.Answers head.now text.now result }
{
    match said(alloc, head, text, found) {
        Err(ReadError::Memory) => Err(SqlFault::Memory),
        Err(ReadError::Syntax(left)) => {
            Err(SqlFault::Syntax(place_of(found, left, text.len() as u32)))
        }
        Ok(checked) => match checked.fault {
            Some(fault) => Err(at_place(fault)),
            None => Ok(checked.value),
        },
    }
}

/// Reads a statement over the tables of the head; the text has at most 1,048,576 bytes.
///
/// Each fault but `Memory` comes with its place in the text, in bytes from 1. `Syntax`: the first token with
/// which the text begins no statement; behind the last token, the text's length plus 1. All others come only where the text
/// has the form of a statement, and the one at the least place is told; at one place they rank in this order. `Unknown`: a
/// table or a column that isn't declared. `TypeFault`: a literal or a column that does not fit; in an INSERT also what
/// closes a list that is too short, and the first literal too many. `Duplicate`: a column that is listed twice, at its
/// second token. `Limit`: a number over 64 bits or a text over 32 bytes in a comparison, the number of a sum, a savepoint's
/// name over 32 bytes, the 33rd parenthesis inside others, the 65th comparison. `Memory`: want of memory.
/// A statement that is read is sound: its tables and columns are the head's, and it meets the type rules and limits.
/// Cost: one pass over the text, and a look-up for each name. The places are this project's own.
pub fn read_statement(alloc: Global, head: &Head, text: &[u8]) -> Result<Statement, SqlFault>
    requires { length text.now ≤ 1048576 }
    ensures answer { spec.Answers head.now text.now result }
    ensures only { (x : meant.Statement) → spec.Reads head.now text.now x → spec.IsOrMemory result (Ok x) }
    ensures sound { IfOk result (λ s. is_sound_statement head.now s ≡ true) }
    ensures place { (e : told.SqlFault) → spec.IsTold e → spec.Refuses head.now text.now e → spec.IsOrMemory result (Err e) }
{
    let found = tokens_of(alloc, text)?;
    judged(alloc, head, text, found.as_slice())
}

/// Each text is read as one statement or refused for one reason, over every head, and never both; what is read is sound.
pub fn exactly_one_answer()
    ensures one_way { (head : declared.Head) (text : List ℕ) → ((x : meant.Statement) × spec.Reads head text x) ⊎ ((e : told.SqlFault) × spec.IsTold e × spec.Refuses head text e) }
    ensures not_both { (head : declared.Head) (text : List ℕ) (x : meant.Statement) (e : told.SqlFault) → spec.Reads head text x → spec.IsTold e → spec.Refuses head text e → ⊥ }
    ensures one_statement { (head : declared.Head) (text : List ℕ) (x y : meant.Statement) → spec.Reads head text x → spec.Reads head text y → x ≡ y }
    ensures one_fault { (head : declared.Head) (text : List ℕ) (e f : told.SqlFault) → spec.IsTold e → spec.IsTold f → spec.Refuses head text e → spec.Refuses head text f → e ≡ f }
    ensures sound { (head : declared.Head) (text : List ℕ) (x : meant.Statement) → spec.Reads head text x → is_sound_statement head x ≡ true }
{}
