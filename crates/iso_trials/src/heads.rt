//! The head of the trials, and the state before their first entry.
ghost use Rattle.std.specs.Prelude.{◌≡◌, ◌≤◌, [], IfOk};
ghost use Rattle.iso_trials.specs.Heading.{heading};

use crate::trial::Trial;
use iso_state::Parts;
use iso_types::{
    Column, ColumnKind, Config, ConnDef, FirstRow, Head, IndexDef, Isolation, Items, Memory, Row,
    TableDef, TableId, Text, Value,
};
use std::alloc::Global;

/// A name without letters.
fn no_name() -> Result<Text, Memory>
    ensures { IfOk result (λ name. name ≡ []) }
{
    match Text::new(b"") {
        Some(name) => Ok(name),
        None => Err(Memory),
    }
}

/// One table of one required column.
fn tables(alloc: Global, name: Text) -> Result<Items<TableDef>, Memory>
    requires { name ≡ [] }
    ensures { IfOk result (λ tables. tables ≡ (heading 0).tables) }
{
    let mut columns = Items::new(alloc);
    columns.push(Column {
        name,
        kind: ColumnKind::Integer,
        required: true,
    })?;
    let mut tables = Items::new(alloc);
    tables.push(TableDef { name, columns })?;
    Ok(tables)
}

/// One index on the table.
fn indexes(alloc: Global, name: Text) -> Result<Items<IndexDef>, Memory>
    requires { name ≡ [] }
    ensures { IfOk result (λ indexes. indexes ≡ (heading 0).indexes) }
{
    let mut indexes = Items::new(alloc);
    indexes.push(IndexDef {
        name,
        table: TableId(0),
        column: 0,
        unique: false,
    })?;
    Ok(indexes)
}

/// The rows 10, 20 and 30.
fn rows(alloc: Global) -> Result<Items<FirstRow>, Memory>
    ensures { IfOk result (λ rows. rows ≡ (heading 0).rows) }
{
    let mut rows = Items::new(alloc);
    rows.push(FirstRow {
        table: TableId(0),
        row: Row::of(alloc, &[Value::Int(10)])?,
    })?;
    rows.push(FirstRow {
        table: TableId(0),
        row: Row::of(alloc, &[Value::Int(20)])?,
    })?;
    rows.push(FirstRow {
        table: TableId(0),
        row: Row::of(alloc, &[Value::Int(30)])?,
    })?;
    Ok(rows)
}

/// Two connections at CS.
fn conns(alloc: Global, name: Text) -> Result<Items<ConnDef>, Memory>
    requires { name ≡ [] }
    ensures { IfOk result (λ conns. conns ≡ (heading 0).conns) }
{
    let mut conns = Items::new(alloc);
    conns.push(ConnDef {
        name,
        isolation: Isolation::Cs,
    })?;
    conns.push(ConnDef {
        name,
        isolation: Isolation::Cs,
    })?;
    Ok(conns)
}

/// The head of the trials, where one connection may take so many percent of the lock list.
fn head(alloc: Global, percent: u32) -> Result<Head, Memory>
    ensures { IfOk result (λ head. head ≡ heading percent) }
{
    let name = no_name()?;
    let config = Config {
        cur_commit: true,
        locklist: 1,
        maxlocks: percent,
        logmax: 1000,
        window: 100,
    };
    Ok(Head {
        config,
        tables: tables(alloc, name)?,
        indexes: indexes(alloc, name)?,
        rows: rows(alloc)?,
        conns: conns(alloc, name)?,
    })
}

impl Trial {
    /// The state before the first entry, where one connection may take so many percent of the lock list.
    pub fn new(alloc: Global, percent: u32) -> Result<Trial, Memory>
        requires { percent ≤ 100 }
    {
        let head = head(alloc, percent)?;
        let parts = Parts::new(alloc, &head)?;
        Ok(Trial { parts })
    }
}
