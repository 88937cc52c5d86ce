//! Reads the tokens of a line.

ghost use Rattle.std.specs.Prelude.{◌≡◌, length, IfOk};
ghost use Rattle.iso_grammar.specs.Reading.{Gives, all_of};
ghost use Rattle.iso_script.specs.Kept.{IsKept};
ghost use Rattle.iso_script.specs.Keyed.{index_words as words_of};
ghost use Rattle.iso_script.specs.RuleReading as spec;

use crate::event::Event;
use crate::events::{configured, connected, declared, expired, pictured, plain, stated};
use crate::keyed::{indexed, rowed};
use crate::progress::Progress;
use crate::reader::{Place, Reader};
use crate::words::{ColumnWords, IndexWords, RowWords, SettingName, SettingWords, TypeWords};
use iso_grammar::{Checked, Kind, ReadError, Token, Tokens};
use iso_sql::take_statement;
use iso_types::{Isolation, Items};
use std::alloc::Global;

#[tactic(auto, unfolding(crate::specs::RuleReading::flag))]
fn flag(kind: Kind, tokens: &mut Tokens<'_>) -> Result<bool, ReadError>
    ensures { Gives (spec.flag kind) tokens.old result tokens.new }
{
    if tokens.sees(kind) {
        tokens.expect(kind)?;
        return Ok(true);
    }
    Ok(false)
}

#[tactic(auto, unfolding(crate::specs::RuleReading::number))]
fn number(tokens: &mut Tokens<'_>) -> Result<Token, ReadError>
    ensures { Gives (spec.number) tokens.old result tokens.new }
{
    if tokens.sees(Kind::Integer) {
        tokens.expect(Kind::Integer)
    } else {
        tokens.expect(Kind::One)
    }
}

#[tactic(auto, unfolding(crate::specs::RuleReading::first_line))]
fn first_line(tokens: &mut Tokens<'_>) -> Result<Checked<Event>, ReadError>
    ensures { Gives (spec.first_line) tokens.old result tokens.new }
{
    tokens.expect(Kind::Db2iso)?;
    tokens.expect(Kind::One)?;
    Ok(plain(Event::First))
}

#[tactic(auto, unfolding(crate::specs::RuleReading::switch))]
fn switch(tokens: &mut Tokens<'_>) -> Result<Token, ReadError>
    ensures { Gives (spec.switch) tokens.old result tokens.new }
{
    if tokens.sees(Kind::On) {
        tokens.expect(Kind::On)
    } else {
        tokens.expect(Kind::Disabled)
    }
}

#[tactic(auto, unfolding(crate::specs::RuleReading::switched))]
fn switched(tokens: &mut Tokens<'_>) -> Result<SettingWords, ReadError>
    ensures { Gives (spec.switched) tokens.old result tokens.new }
{
    let word = tokens.expect(Kind::CurCommit)?;
    let value = switch(tokens)?;
    Ok(SettingWords {
        name: SettingName::CurCommit,
        word,
        value,
    })
}

#[tactic(auto, unfolding(crate::specs::RuleReading::numbered))]
fn numbered(
    kind: Kind,
    name: SettingName,
    tokens: &mut Tokens<'_>,
) -> Result<SettingWords, ReadError>
    ensures { Gives (spec.numbered kind name) tokens.old result tokens.new }
{
    let word = tokens.expect(kind)?;
    let value = number(tokens)?;
    Ok(SettingWords { name, word, value })
}

#[tactic(auto, unfolding(crate::specs::RuleReading::setting_words))]
fn setting_words(tokens: &mut Tokens<'_>) -> Result<SettingWords, ReadError>
    ensures { Gives (spec.setting_words) tokens.old result tokens.new }
{
    if tokens.sees(Kind::CurCommit) {
        switched(tokens)
    } else if tokens.sees(Kind::Locklist) {
        numbered(Kind::Locklist, SettingName::Locklist, tokens)
    } else if tokens.sees(Kind::Maxlocks) {
        numbered(Kind::Maxlocks, SettingName::Maxlocks, tokens)
    } else if tokens.sees(Kind::Logmax) {
        numbered(Kind::Logmax, SettingName::Logmax, tokens)
    } else {
        numbered(Kind::Window, SettingName::Window, tokens)
    }
}

#[tactic(auto, unfolding(crate::specs::RuleReading::config_line))]
fn config_line(
    reader: &Reader,
    line: &[u8],
    tokens: &mut Tokens<'_>,
) -> Result<Checked<Event>, ReadError>
    ensures { Gives (spec.config_line reader.now line.now) tokens.old result tokens.new }
{
    tokens.expect(Kind::Config)?;
    let words = setting_words(tokens)?;
    Ok(configured(reader.set, line, words))
}

#[tactic(auto, unfolding(crate::specs::RuleReading::varchar))]
fn varchar(tokens: &mut Tokens<'_>) -> Result<TypeWords, ReadError>
    ensures { Gives (spec.varchar) tokens.old result tokens.new }
{
    tokens.expect(Kind::Varchar)?;
    tokens.expect(Kind::Open)?;
    let size = number(tokens)?;
    tokens.expect(Kind::Close)?;
    Ok(TypeWords::Varchar(size))
}

#[tactic(auto, unfolding(crate::specs::RuleReading::type_words))]
fn type_words(tokens: &mut Tokens<'_>) -> Result<TypeWords, ReadError>
    ensures { Gives (spec.type_words) tokens.old result tokens.new }
{
    if tokens.sees(Kind::IntegerWord) {
        tokens.expect(Kind::IntegerWord)?;
        return Ok(TypeWords::Integer);
    }
    if tokens.sees(Kind::Bigint) {
        tokens.expect(Kind::Bigint)?;
        return Ok(TypeWords::Bigint);
    }
    varchar(tokens)
}

#[tactic(auto, unfolding(crate::specs::RuleReading::not_null))]
fn not_null(tokens: &mut Tokens<'_>) -> Result<bool, ReadError>
    ensures { Gives (spec.not_null) tokens.old result tokens.new }
{
    if !tokens.sees(Kind::Not) {
        return Ok(false);
    }
    tokens.expect(Kind::Not)?;
    tokens.expect(Kind::Null)?;
    Ok(true)
}

#[tactic(auto, unfolding(crate::specs::RuleReading::column))]
fn column(tokens: &mut Tokens<'_>) -> Result<ColumnWords, ReadError>
    ensures { Gives (spec.column) tokens.old result tokens.new }
{
    let name = tokens.expect(Kind::Name)?;
    let kind = type_words(tokens)?;
    let required = not_null(tokens)?;
    Ok(ColumnWords {
        name,
        kind,
        required,
    })
}

fn next_column(tokens: &mut Tokens<'_>) -> Result<ColumnWords, ReadError>
    ensures { Gives (spec.next_column) tokens.old result tokens.new }
{
    tokens.expect(Kind::Comma)?;
    column(tokens)
}

#[tactic(auto, unfolding(crate::specs::RuleReading::columns))]
fn columns(
    alloc: Global,
    tokens: &mut Tokens<'_>,
    bound: usize,
) -> Result<Items<ColumnWords>, ReadError>
    requires most { tokens.old.most ≡ bound }
    ensures { Gives (spec.columns bound) tokens.old result tokens.new }
{
    let first = column(tokens)?;
    let mut all = Items::new(alloc);
    all.push(first)?;
    for _turn in 0..bound {
        if !tokens.sees(Kind::Comma) {
            break;
        }
        let next = next_column(tokens)?;
        all.push(next)?;
    }
    Ok(all)
}

#[tactic(auto, unfolding(crate::specs::RuleReading::table_line))]
fn table_line(
    alloc: Global,
    reader: &Reader,
    line: &[u8],
    tokens: &mut Tokens<'_>,
    bound: usize,
) -> Result<Checked<Event>, ReadError>
    requires most { tokens.old.most ≡ bound }
    ensures { Gives (spec.table_line reader.now line.now bound) tokens.old result tokens.new }
{
    tokens.expect(Kind::Table)?;
    let table = tokens.expect(Kind::Name)?;
    tokens.expect(Kind::Open)?;
    let found = columns(alloc, tokens, bound)?;
    tokens.expect(Kind::Close)?;
    let head = &reader.script.head;
    Ok(declared(alloc, head, line, table, found.as_slice())?)
}

#[tactic(auto, unfolding(crate::specs::RuleReading::literal))]
fn literal(tokens: &mut Tokens<'_>) -> Result<Token, ReadError>
    ensures { Gives (spec.literal) tokens.old result tokens.new }
{
    if tokens.sees(Kind::Integer) {
        tokens.expect(Kind::Integer)
    } else if tokens.sees(Kind::One) {
        tokens.expect(Kind::One)
    } else if tokens.sees(Kind::Text) {
        tokens.expect(Kind::Text)
    } else {
        tokens.expect(Kind::Null)
    }
}

fn next_literal(tokens: &mut Tokens<'_>) -> Result<Token, ReadError>
    ensures { Gives (spec.next_literal) tokens.old result tokens.new }
{
    tokens.expect(Kind::Comma)?;
    literal(tokens)
}

#[tactic(auto, unfolding(crate::specs::RuleReading::literals))]
fn literals(alloc: Global, tokens: &mut Tokens<'_>, bound: usize) -> Result<Items<Token>, ReadError>
    requires most { tokens.old.most ≡ bound }
    ensures { Gives (spec.literals bound) tokens.old result tokens.new }
{
    let first = literal(tokens)?;
    let mut all = Items::new(alloc);
    all.push(first)?;
    for _turn in 0..bound {
        if !tokens.sees(Kind::Comma) {
            break;
        }
        let next = next_literal(tokens)?;
        all.push(next)?;
    }
    Ok(all)
}

#[tactic(auto, unfolding(crate::specs::RuleReading::row_line))]
fn row_line(
    alloc: Global,
    progress: &Progress,
    line: &[u8],
    tokens: &mut Tokens<'_>,
    bound: usize,
) -> Result<Checked<Event>, ReadError>
    requires kept { IsKept progress.now }
    requires most { tokens.old.most ≡ bound }
    ensures { Gives (spec.row_line progress.now.reader line.now bound) tokens.old result tokens.new }
{
    let first = tokens.expect(Kind::Row)?;
    let table = tokens.expect(Kind::Name)?;
    tokens.expect(Kind::Open)?;
    let values = literals(alloc, tokens, bound)?;
    let close = tokens.expect(Kind::Close)?;
    let words = RowWords {
        first,
        table,
        close,
    };
    Ok(rowed(alloc, progress, line, words, values.as_slice())?)
}

fn index_words(
    unique: Option<Token>,
    word: Token,
    name: Token,
    table: Token,
    column: Token,
) -> IndexWords
    ensures { result ≡ words_of unique word name table column }
{
    IndexWords {
        first: unique.unwrap_or(word),
        unique: unique.is_some(),
        name,
        table,
        column,
    }
}

#[tactic(auto, unfolding(crate::specs::RuleReading::index_on))]
fn index_on(
    alloc: Global,
    reader: &Reader,
    line: &[u8],
    unique: Option<Token>,
    tokens: &mut Tokens<'_>,
) -> Result<Checked<Event>, ReadError>
    ensures { Gives (spec.index_on reader.now line.now unique) tokens.old result tokens.new }
{
    let word = tokens.expect(Kind::Index)?;
    let name = tokens.expect(Kind::Name)?;
    tokens.expect(Kind::On)?;
    let table = tokens.expect(Kind::Name)?;
    tokens.expect(Kind::Open)?;
    let column = tokens.expect(Kind::Name)?;
    tokens.expect(Kind::Close)?;
    let words = index_words(unique, word, name, table, column);
    Ok(indexed(alloc, &reader.script.head, line, words)?)
}

#[tactic(auto, unfolding(crate::specs::RuleReading::index_line))]
fn index_line(
    alloc: Global,
    reader: &Reader,
    line: &[u8],
    tokens: &mut Tokens<'_>,
) -> Result<Checked<Event>, ReadError>
    ensures { Gives (spec.index_line reader.now line.now) tokens.old result tokens.new }
{
    let unique = tokens.take(Kind::Unique)?;
    index_on(alloc, reader, line, unique, tokens)
}

#[tactic(auto, unfolding(crate::specs::RuleReading::isolation))]
fn isolation(tokens: &mut Tokens<'_>) -> Result<Isolation, ReadError>
    ensures { Gives (spec.isolation) tokens.old result tokens.new }
{
    if tokens.sees(Kind::Ur) {
        tokens.expect(Kind::Ur)?;
        return Ok(Isolation::Ur);
    }
    if tokens.sees(Kind::Cs) {
        tokens.expect(Kind::Cs)?;
        return Ok(Isolation::Cs);
    }
    if tokens.sees(Kind::Rs) {
        tokens.expect(Kind::Rs)?;
        return Ok(Isolation::Rs);
    }
    if tokens.sees(Kind::Rr) {
        tokens.expect(Kind::Rr)?;
        return Ok(Isolation::Rr);
    }
    Ok(Isolation::Cs)
}

#[tactic(auto, unfolding(crate::specs::RuleReading::connect_line))]
fn connect_line(
    reader: &Reader,
    line: &[u8],
    tokens: &mut Tokens<'_>,
) -> Result<Checked<Event>, ReadError>
    ensures { Gives (spec.connect_line reader.now line.now) tokens.old result tokens.new }
{
    tokens.expect(Kind::Connect)?;
    let conn = tokens.expect(Kind::Name)?;
    let level = isolation(tokens)?;
    Ok(connected(&reader.script.head, line, conn, level))
}

#[tactic(auto, unfolding(crate::specs::RuleReading::begin_line))]
fn begin_line(tokens: &mut Tokens<'_>) -> Result<Checked<Event>, ReadError>
    ensures { Gives (spec.begin_line) tokens.old result tokens.new }
{
    tokens.expect(Kind::Begin)?;
    Ok(plain(Event::Begin))
}

#[tactic(auto, unfolding(crate::specs::RuleReading::statement_line))]
fn statement_line(
    alloc: Global,
    reader: &Reader,
    line: &[u8],
    tokens: &mut Tokens<'_>,
    bound: usize,
) -> Result<Checked<Event>, ReadError>
    requires most { tokens.old.most ≡ bound }
    ensures { Gives (spec.statement_line reader.now line.now bound) tokens.old result tokens.new }
{
    let free = flag(Kind::Ampersand, tokens)?;
    let conn = tokens.expect(Kind::Name)?;
    tokens.expect(Kind::Colon)?;
    let found = take_statement(alloc, &reader.script.head, line, tokens, bound)?;
    flag(Kind::Semicolon, tokens)?;
    Ok(stated(&reader.script.head, line, free, conn, found))
}

#[tactic(auto, unfolding(crate::specs::RuleReading::expire_line))]
fn expire_line(
    reader: &Reader,
    line: &[u8],
    tokens: &mut Tokens<'_>,
) -> Result<Checked<Event>, ReadError>
    ensures { Gives (spec.expire_line reader.now line.now) tokens.old result tokens.new }
{
    tokens.expect(Kind::Expire)?;
    let conn = tokens.expect(Kind::Name)?;
    Ok(expired(&reader.script.head, line, conn))
}

#[tactic(auto, unfolding(crate::specs::RuleReading::snapshot_line))]
fn snapshot_line(reader: &Reader, tokens: &mut Tokens<'_>) -> Result<Checked<Event>, ReadError>
    ensures { Gives (spec.snapshot_line reader.now) tokens.old result tokens.new }
{
    tokens.expect(Kind::Snapshot)?;
    Ok(pictured(reader.script.lines.as_slice()))
}

#[tactic(auto, unfolding(crate::specs::RuleReading::end_line))]
fn end_line(tokens: &mut Tokens<'_>) -> Result<Checked<Event>, ReadError>
    ensures { Gives (spec.end_line) tokens.old result tokens.new }
{
    tokens.expect(Kind::End)?;
    Ok(plain(Event::End))
}

#[tactic(auto, unfolding(crate::specs::RuleReading::head_line))]
fn head_line(
    alloc: Global,
    progress: &Progress,
    line: &[u8],
    tokens: &mut Tokens<'_>,
    bound: usize,
) -> Result<Checked<Event>, ReadError>
    requires kept { IsKept progress.now }
    requires most { tokens.old.most ≡ bound }
    ensures { Gives (spec.head_line progress.now.reader line.now bound) tokens.old result tokens.new }
{
    if tokens.sees(Kind::Config) {
        config_line(&progress.reader, line, tokens)
    } else if tokens.sees(Kind::Table) {
        table_line(alloc, &progress.reader, line, tokens, bound)
    } else if tokens.sees_either(Kind::Unique, Kind::Index) {
        index_line(alloc, &progress.reader, line, tokens)
    } else if tokens.sees(Kind::Row) {
        row_line(alloc, progress, line, tokens, bound)
    } else if tokens.sees(Kind::Connect) {
        connect_line(&progress.reader, line, tokens)
    } else {
        begin_line(tokens)
    }
}

#[tactic(auto, unfolding(crate::specs::RuleReading::body_line))]
fn body_line(
    alloc: Global,
    reader: &Reader,
    line: &[u8],
    tokens: &mut Tokens<'_>,
    bound: usize,
) -> Result<Checked<Event>, ReadError>
    requires most { tokens.old.most ≡ bound }
    ensures { Gives (spec.body_line reader.now line.now bound) tokens.old result tokens.new }
{
    if tokens.sees_either(Kind::Ampersand, Kind::Name) {
        statement_line(alloc, reader, line, tokens, bound)
    } else if tokens.sees(Kind::Expire) {
        expire_line(reader, line, tokens)
    } else if tokens.sees(Kind::Snapshot) {
        snapshot_line(reader, tokens)
    } else {
        end_line(tokens)
    }
}

fn any_line(
    alloc: Global,
    progress: &Progress,
    line: &[u8],
    tokens: &mut Tokens<'_>,
    bound: usize,
) -> Result<Checked<Event>, ReadError>
    requires kept { IsKept progress.now }
    requires most { tokens.old.most ≡ bound }
    ensures { Gives (spec.rule progress.now.reader.place progress.now.reader line.now bound) tokens.old result tokens.new }
{
    match progress.reader.place {
        Place::First => first_line(tokens),
        Place::Head => head_line(alloc, progress, line, tokens, bound),
        Place::Body => body_line(alloc, &progress.reader, line, tokens, bound),
        Place::After => Ok(plain(Event::End)),
    }
}

/// Reads a whole line.
pub fn whole_line(
    alloc: Global,
    progress: &Progress,
    line: &[u8],
    tokens: &mut Tokens<'_>,
    bound: usize,
) -> Result<Checked<Event>, ReadError>
    requires kept { IsKept progress.now }
    requires most { tokens.old.most ≡ bound }
    requires all { length tokens.old.rest ≡ bound }
    ensures { Gives (all_of (spec.rule progress.now.reader.place progress.now.reader line.now)) tokens.old result tokens.new }
{
    let found = any_line(alloc, progress, line, tokens, bound)?;
    tokens.end()?;
    Ok(found)
}
