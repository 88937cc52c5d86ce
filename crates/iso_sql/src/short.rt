//! Reads statements without rows and conditions.

ghost use Rattle.std.specs.Prelude.{◌≡◌, true, false, Some, None};
ghost use Rattle.iso_grammar.specs.Reading.{Gives};
ghost use Rattle.iso_sql.specs.Names.{names_of, table_names};
ghost use Rattle.iso_sql.specs.Actions as act;
ghost use Rattle.iso_sql.specs.ConditionReading as word;
ghost use Rattle.iso_sql.specs.StatementReading as spec;

use crate::level::isolation;
use crate::scope::{name_of, scope_of, table_of};
use crate::statement::Statement;
use iso_grammar::{Cause, Checked, Kind, ReadError, Token, Tokens, fault_at};
use iso_modes::Mode;
use iso_types::{Head, Isolation};

fn plain(value: Statement) -> Checked<Statement>
    ensures { result ≡ act.plain value }
{
    Checked { value, fault: None }
}

fn too_long(name: Token) -> Checked<Statement>
    ensures { result ≡ act.too_long name }
{
    Checked {
        value: Statement::Commit,
        fault: fault_at(name, Cause::Limit),
    }
}

#[tactic(auto, unfolding(crate::specs::StatementReading::commit))]
fn commit(tokens: &mut Tokens<'_>) -> Result<Checked<Statement>, ReadError>
    ensures { Gives (spec.commit) tokens.old result tokens.new }
{
    tokens.expect(Kind::Commit)?;
    tokens.take(Kind::Work)?;
    Ok(plain(Statement::Commit))
}

#[tactic(auto, unfolding(crate::specs::StatementReading::to_savepoint))]
fn to_savepoint(tokens: &mut Tokens<'_>) -> Result<Token, ReadError>
    ensures { Gives (spec.to_savepoint) tokens.old result tokens.new }
{
    tokens.expect(Kind::To)?;
    tokens.expect(Kind::Savepoint)?;
    tokens.expect(Kind::Name)
}

#[tactic(auto, unfolding(crate::specs::StatementReading::maybe_to))]
fn maybe_to(tokens: &mut Tokens<'_>) -> Result<Option<Token>, ReadError>
    ensures { Gives (spec.maybe_to) tokens.old result tokens.new }
{
    if tokens.sees(Kind::To) {
        Ok(Some(to_savepoint(tokens)?))
    } else {
        Ok(None)
    }
}

#[tactic(auto, unfolding(crate::specs::Actions::rolled_back_to))]
fn rolled_back_to(line: &[u8], name: Token) -> Checked<Statement>
    ensures { result ≡ act.rolled_back_to line.now name }
{
    match name_of(line, name) {
        Some(text) => plain(Statement::RollbackTo(text)),
        None => too_long(name),
    }
}

fn rolled_back(line: &[u8], name: Option<Token>) -> Checked<Statement>
    ensures { result ≡ act.rolled_back line.now name }
{
    match name {
        None => plain(Statement::Rollback),
        Some(name) => rolled_back_to(line, name),
    }
}

#[tactic(auto, unfolding(crate::specs::StatementReading::rollback))]
fn rollback(line: &[u8], tokens: &mut Tokens<'_>) -> Result<Checked<Statement>, ReadError>
    ensures { Gives (spec.rollback line.now) tokens.old result tokens.new }
{
    tokens.expect(Kind::Rollback)?;
    tokens.take(Kind::Work)?;
    let name = maybe_to(tokens)?;
    Ok(rolled_back(line, name))
}

#[tactic(auto, unfolding(crate::specs::StatementReading::retaining))]
fn retaining(tokens: &mut Tokens<'_>) -> Result<Token, ReadError>
    ensures { Gives (spec.retaining) tokens.old result tokens.new }
{
    tokens.expect(Kind::On)?;
    tokens.expect(Kind::Rollback)?;
    tokens.expect(Kind::Retain)?;
    tokens.expect(Kind::Cursors)
}

#[tactic(auto, unfolding(crate::specs::StatementReading::maybe_retaining))]
fn maybe_retaining(tokens: &mut Tokens<'_>) -> Result<Option<Token>, ReadError>
    ensures { Gives (spec.maybe_retaining) tokens.old result tokens.new }
{
    if tokens.sees(Kind::On) {
        Ok(Some(retaining(tokens)?))
    } else {
        Ok(None)
    }
}

#[tactic(auto, unfolding(crate::specs::Actions::saved))]
fn saved(line: &[u8], name: Token) -> Checked<Statement>
    ensures { result ≡ act.saved line.now name }
{
    match name_of(line, name) {
        Some(text) => plain(Statement::Savepoint(text)),
        None => too_long(name),
    }
}

#[tactic(auto, unfolding(crate::specs::StatementReading::savepoint))]
fn savepoint(line: &[u8], tokens: &mut Tokens<'_>) -> Result<Checked<Statement>, ReadError>
    ensures { Gives (spec.savepoint line.now) tokens.old result tokens.new }
{
    tokens.expect(Kind::Savepoint)?;
    let name = tokens.expect(Kind::Name)?;
    maybe_retaining(tokens)?;
    Ok(saved(line, name))
}

fn as_mode(tokens: &mut Tokens<'_>, kind: Kind, mode: Mode) -> Result<Mode, ReadError>
    ensures { Gives (word.word kind mode) tokens.old result tokens.new }
{
    tokens.expect(kind)?;
    Ok(mode)
}

#[tactic(auto, unfolding(crate::specs::StatementReading::lock_mode))]
fn lock_mode(tokens: &mut Tokens<'_>) -> Result<Mode, ReadError>
    ensures { Gives (spec.lock_mode) tokens.old result tokens.new }
{
    if tokens.sees(Kind::Share) {
        as_mode(tokens, Kind::Share, Mode::S)
    } else {
        as_mode(tokens, Kind::Exclusive, Mode::X)
    }
}

#[tactic(auto, unfolding(crate::specs::Actions::locked))]
fn locked(head: &Head, line: &[u8], table: Token, mode: Mode) -> Checked<Statement>
    ensures { result ≡ act.locked head.now line.now table mode }
{
    Checked {
        value: Statement::LockTable(table_of(head, line, table), mode),
        fault: scope_of(head, line, table).table_fault(table),
    }
}

#[tactic(auto, unfolding(crate::specs::StatementReading::lock))]
fn lock(head: &Head, line: &[u8], tokens: &mut Tokens<'_>) -> Result<Checked<Statement>, ReadError>
    ensures { Gives (spec.lock head.now line.now) tokens.old result tokens.new }
{
    tokens.expect(Kind::Lock)?;
    tokens.expect(Kind::Table)?;
    let table = tokens.expect(Kind::Name)?;
    tokens.expect(Kind::In)?;
    let mode = lock_mode(tokens)?;
    tokens.expect(Kind::Mode)?;
    Ok(locked(head, line, table, mode))
}

fn is_level(tokens: &Tokens<'_>) -> bool
    ensures { result ≡ spec.begins_level tokens.now.rest }
{
    tokens.sees_either(Kind::Ur, Kind::Cs) || tokens.sees_either(Kind::Rs, Kind::Rr)
}

fn reset(tokens: &mut Tokens<'_>) -> Result<Option<Isolation>, ReadError>
    ensures { Gives (spec.reset) tokens.old result tokens.new }
{
    tokens.expect(Kind::Reset)?;
    Ok(None)
}

#[tactic(auto, unfolding(crate::specs::StatementReading::new_level))]
fn new_level(tokens: &mut Tokens<'_>) -> Result<Option<Isolation>, ReadError>
    ensures { Gives (spec.new_level) tokens.old result tokens.new }
{
    if is_level(tokens) {
        Ok(Some(isolation(tokens)?))
    } else {
        reset(tokens)
    }
}

#[tactic(auto, unfolding(crate::specs::StatementReading::set_isolation))]
fn set_isolation(tokens: &mut Tokens<'_>) -> Result<Checked<Statement>, ReadError>
    ensures { Gives (spec.set_isolation) tokens.old result tokens.new }
{
    tokens.expect(Kind::Isolation)?;
    tokens.take(Kind::Equal)?;
    let level = new_level(tokens)?;
    Ok(plain(Statement::SetIsolation(level)))
}

fn no_wait(tokens: &mut Tokens<'_>) -> Result<bool, ReadError>
    ensures { Gives (spec.no_wait) tokens.old result tokens.new }
{
    tokens.expect(Kind::Not)?;
    tokens.expect(Kind::Wait)?;
    Ok(false)
}

#[tactic(auto, unfolding(crate::specs::StatementReading::waits))]
fn waits(tokens: &mut Tokens<'_>) -> Result<bool, ReadError>
    ensures { Gives (spec.waits) tokens.old result tokens.new }
{
    if tokens.sees(Kind::Wait) {
        tokens.expect(Kind::Wait)?;
        Ok(true)
    } else {
        no_wait(tokens)
    }
}

#[tactic(auto, unfolding(crate::specs::StatementReading::set_timeout))]
fn set_timeout(tokens: &mut Tokens<'_>) -> Result<Checked<Statement>, ReadError>
    ensures { Gives (spec.set_timeout) tokens.old result tokens.new }
{
    tokens.expect(Kind::Lock)?;
    tokens.expect(Kind::Timeout)?;
    tokens.take(Kind::Equal)?;
    let waits = waits(tokens)?;
    Ok(plain(Statement::SetWait(waits)))
}

#[tactic(auto, unfolding(crate::specs::StatementReading::set_current))]
fn set_current(tokens: &mut Tokens<'_>) -> Result<Checked<Statement>, ReadError>
    ensures { Gives (spec.set_current) tokens.old result tokens.new }
{
    tokens.expect(Kind::Current)?;
    if tokens.sees(Kind::Isolation) {
        set_isolation(tokens)
    } else {
        set_timeout(tokens)
    }
}

#[tactic(auto, unfolding(crate::specs::StatementReading::set))]
fn set(tokens: &mut Tokens<'_>) -> Result<Checked<Statement>, ReadError>
    ensures { Gives (spec.set) tokens.old result tokens.new }
{
    tokens.expect(Kind::Set)?;
    if tokens.sees(Kind::Isolation) {
        set_isolation(tokens)
    } else {
        set_current(tokens)
    }
}

/// Takes a statement that has neither rows nor conditions.
#[tactic(auto, unfolding(crate::specs::StatementReading::short_statement))]
pub fn short_statement(
    head: &Head,
    line: &[u8],
    tokens: &mut Tokens<'_>,
) -> Result<Checked<Statement>, ReadError>
    ensures { Gives (spec.short_statement head.now line.now) tokens.old result tokens.new }
{
    if tokens.sees(Kind::Commit) {
        commit(tokens)
    } else if tokens.sees(Kind::Rollback) {
        rollback(line, tokens)
    } else if tokens.sees(Kind::Savepoint) {
        savepoint(line, tokens)
    } else if tokens.sees(Kind::Lock) {
        lock(head, line, tokens)
    } else {
        set(tokens)
    }
}
