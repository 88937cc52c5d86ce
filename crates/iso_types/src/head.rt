ghost use Rattle.std.specs.Prelude.{◌≡◌, ◌*◌, ◌≤◌, IfOk};
ghost use Rattle.iso_types.specs.Head.{lock_slots, lock_share};

use crate::items::{Items, Memory};
use crate::row::Row;
use crate::text::Text;
use crate::value::{TableId, Value};
use std::alloc::Global;

/// An isolation level. Db2 LUW, 'Isolation levels'.
#[derive(Clone, Copy, PartialEq, Eq)]
pub enum Isolation {
    Ur,
    Cs,
    Rs,
    Rr,
}

/// The type of a column: signed 32 bits, signed 64 bits, or a text of at most so many bytes (1 to 32).
#[derive(Clone, Copy, PartialEq, Eq)]
pub enum ColumnKind {
    Integer,
    Bigint,
    Varchar(u8),
}

/// A column; a required one is NOT NULL.
#[derive(Clone, Copy)]
pub struct Column {
    pub name: Text,
    pub kind: ColumnKind,
    pub required: bool,
}

/// A declared table: 1 to 8 columns.
#[derive(Drop)]
pub struct TableDef {
    pub name: Text,
    pub columns: Items<Column>,
}

/// A declared index on one required column of its table, by the column's place.
#[derive(Clone, Copy)]
pub struct IndexDef {
    pub name: Text,
    pub table: TableId,
    pub column: u8,
    pub unique: bool,
}

/// A declared connection with the level of its CONNECT line.
#[derive(Clone, Copy)]
pub struct ConnDef {
    pub name: Text,
    pub isolation: Isolation,
}

/// The settings of a script: CUR_COMMIT, LOCKLIST in pages, MAXLOCKS in percent, LOGMAX and WINDOW in records.
/// Db2 LUW, 'cur_commit', 'locklist', 'maxlocks' configuration parameters; the units of LOGMAX and WINDOW are this project's own.
#[derive(Clone, Copy)]
pub struct Config {
    pub cur_commit: bool,
    pub locklist: u32,
    pub maxlocks: u32,
    pub logmax: u32,
    pub window: u32,
}

/// A row that a table has from the start.
#[derive(Drop)]
pub struct FirstRow {
    pub table: TableId,
    pub row: Row,
}

/// All that the head lines of a script declare.
#[derive(Drop)]
pub struct Head {
    pub config: Config,
    pub tables: Items<TableDef>,
    pub indexes: Items<IndexDef>,
    pub rows: Items<FirstRow>,
    pub conns: Items<ConnDef>,
}

/// A bound of a range.
#[derive(Clone, Copy)]
pub struct Edge {
    pub value: Value,
    pub inclusive: bool,
}

/// The keys between two bounds; a bound that is absent bounds nothing.
#[derive(Clone, Copy)]
pub struct Range {
    pub low: Option<Edge>,
    pub high: Option<Edge>,
}

impl Config {
    /// The slots of the lock list: 32 for each page. LOCKLIST has at most 4,096 pages.
    pub fn slots(&self) -> u32
        requires { self.now.locklist ≤ 4096 }
        ensures { result ≡ lock_slots self.now }
    {
        32 * self.locklist
    }

    /// The slots that one connection may take. MAXLOCKS is at most 100 percent.
    pub fn share(&self) -> u32
        requires pages { self.now.locklist ≤ 4096 }
        requires percent { self.now.maxlocks ≤ 100 }
        ensures { result ≡ lock_share self.now }
    {
        let all = u64::from(self.slots()) * u64::from(self.maxlocks);
        (all / 100) as u32
    }
}

impl TableDef {
    /// The same table in memory of its own; `Memory` where there is none. It copies each column.
    pub fn copied(&self, alloc: Global) -> Result<TableDef, Memory>
        ensures { IfOk result (λ table. table ≡ self.now) }
    {
        Ok(TableDef {
            name: self.name,
            columns: self.columns.copied(alloc)?,
        })
    }
}

impl FirstRow {
    /// The same row in memory of its own; `Memory` where there is none. It copies each value.
    pub fn copied(&self, alloc: Global) -> Result<FirstRow, Memory>
        ensures { IfOk result (λ first. first ≡ self.now) }
    {
        Ok(FirstRow {
            table: self.table,
            row: self.row.copied(alloc)?,
        })
    }
}

/// The same tables in memory of their own; `Memory` where there is none.
fn copied_tables(alloc: Global, tables: &Items<TableDef>) -> Result<Items<TableDef>, Memory>
    ensures { IfOk result (λ copies. copies ≡ tables.now) }
{
    let mut copies = Items::new(alloc);
    for table in tables.as_slice() {
        copies.push(table.copied(alloc)?)?;
    }
    Ok(copies)
}

/// The same rows in memory of their own; `Memory` where there is none.
fn copied_rows(alloc: Global, rows: &Items<FirstRow>) -> Result<Items<FirstRow>, Memory>
    ensures { IfOk result (λ copies. copies ≡ rows.now) }
{
    let mut copies = Items::new(alloc);
    for first in rows.as_slice() {
        copies.push(first.copied(alloc)?)?;
    }
    Ok(copies)
}

impl Head {
    /// The same head in memory of its own; `Memory` where there is none. It copies all that was declared.
    pub fn copied(&self, alloc: Global) -> Result<Head, Memory>
        ensures { IfOk result (λ head. head ≡ self.now) }
    {
        Ok(Head {
            config: self.config,
            tables: copied_tables(alloc, &self.tables)?,
            indexes: self.indexes.copied(alloc)?,
            rows: copied_rows(alloc, &self.rows)?,
            conns: self.conns.copied(alloc)?,
        })
    }
}
