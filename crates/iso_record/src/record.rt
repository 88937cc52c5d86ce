ghost use Rattle.std.specs.List.{list_all};
ghost use Rattle.std.specs.Prelude.{◌≡◌, true, length, nat_lt, IfOk};
ghost use Rattle.iso_record.specs.Undone.{columns_in, restored, undone};

use iso_types::{Items, Memory, Rid, Row, TableId, Twin, Value};
use std::alloc::Global;

/// What a record stands for: the insertion of a row, an update with the old values of the changed columns, a deletion,
/// or the undoing of the record with this number.
#[derive(Drop)]
pub enum Change {
    Insert,
    Update(Items<(u8, Value)>),
    Delete,
    Undone(u32),
}

/// A record of the log: its number from 0, the unit that made it, the slot, what it changed, the earlier records of the slot
/// and of the unit that are not undone, and the new row of an Insert and an Update. A Delete and an Undone have no new row.
#[derive(Drop)]
pub struct Record {
    pub number: u32,
    pub unit: u32,
    pub table: TableId,
    pub rid: Rid,
    pub change: Change,
    pub prev_row: Option<u32>,
    pub prev_unit: Option<u32>,
    pub after: Option<Row>,
}

/// Writes old values back into their columns.
fn restore(olds: &[(u8, Value)], row: &mut Row)
    requires columns { list_all (λ p. nat_lt p.0 (length row.old)) olds.now ≡ true }
    ensures row { row.new ≡ restored olds.now row.old }
{
    for old in olds {
        let (column, value) = *old;
        row.put(column, value);
    }
}

/// Undoes a record on its slot's row and liveness; the row that it made is not read. It takes no memory.
pub fn undo_on(note: &Record, row: &mut Row, live: &mut bool)
    requires columns { columns_in (length row.old) note.now.change ≡ true }
    ensures undone { record { row = row.new; live = live.new } ≡ undone note.now.change (record { row = row.old; live = live.old }) }
{
    match &note.change {
        Change::Insert => *live = false,
        Change::Update(olds) => restore(olds.as_slice(), row),
        Change::Delete => *live = true,
        Change::Undone(_) => {}
    }
}

impl Twin for Change {
    fn twin(&self, alloc: Global) -> Result<Change, Memory> {
        match self {
            Change::Insert => Ok(Change::Insert),
            Change::Update(olds) => Ok(Change::Update(olds.copied(alloc)?)),
            Change::Delete => Ok(Change::Delete),
            Change::Undone(number) => Ok(Change::Undone(*number)),
        }
    }
}

/// A row equal to this one, where there is one.
fn twin_of(alloc: Global, row: &Option<Row>) -> Result<Option<Row>, Memory>
    ensures { IfOk result (λ twin. twin ≡ row.now) }
{
    match row {
        Some(row) => Ok(Some(row.copied(alloc)?)),
        None => Ok(None),
    }
}

impl Twin for Record {
    fn twin(&self, alloc: Global) -> Result<Record, Memory> {
        Ok(Record {
            number: self.number,
            unit: self.unit,
            table: self.table,
            rid: self.rid,
            change: self.change.twin(alloc)?,
            prev_row: self.prev_row,
            prev_unit: self.prev_unit,
            after: twin_of(alloc, &self.after)?,
        })
    }
}
