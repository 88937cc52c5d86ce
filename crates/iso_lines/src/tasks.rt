//! What is done to a connection's part in the lines of names.
ghost use Rattle.std.specs.Prelude.{◌≡◌};
ghost use Rattle.iso_lines.specs.Tasks.{change_on, is_placed, is_spared, is_within, table_in};
ghost use Rattle.iso_types.specs.Ids.{name_eq};

use crate::lines::Change;
use iso_types::{Name, TableId};

/// What is done to a connection's part in the lines of names.
#[derive(Drop)]
pub enum Task {
    /// Its holds go.
    Release,
    /// Its holds on the rows and keys of the table go.
    Collapse(TableId),
    /// Its Fresh holds become Kept, but on the first name, that is spared, and its Brief holds go. On the second name, which
    /// was placed just now, nothing is done.
    Settle(Option<Name>, Option<Name>),
    /// Its wait goes.
    Cancel,
    /// Its wait is granted where it has no edge.
    Claim,
}

#[tactic(auto, unfolding(iso_types::specs::Ids::name_eq, iso_types::specs::Value::value_eq))]
fn same_name(a: &Name, b: &Name) -> bool
    ensures { result ≡ name_eq a.now b.now }
{
    *a == *b
}

/// Whether the name is the one that is spared.
fn spares(spare: &Option<Name>, name: &Name) -> bool
    ensures { result ≡ is_spared spare.now name.now }
{
    match spare {
        Some(spared) => same_name(name, spared),
        None => false,
    }
}

/// Whether the name is the one that was placed just now.
fn was_placed(placed: &Option<Name>, name: &Name) -> bool
    ensures { result ≡ is_placed placed.now name.now }
{
    match placed {
        Some(placed) => same_name(placed, name),
        None => false,
    }
}

/// The table of a row name or key name; the tables are those of the indexes. Its cost is constant.
pub fn table_of(tables: &[TableId], name: &Name) -> Option<TableId>
    ensures { result ≡ table_in tables.now name.now }
{
    match *name {
        Name::Table(_) => None,
        Name::Row(table, _) => Some(table),
        Name::Key(index, _) | Name::End(index) => tables.get(index.0 as usize).copied(),
    }
}

/// Whether the name is that of a row or key of the table.
pub fn is_within(tables: &[TableId], table: TableId, name: &Name) -> bool
    ensures { result ≡ is_within tables.now table name.now }
{
    match table_of(tables, name) {
        Some(own) => own == table,
        None => false,
    }
}

/// What is done in the name's line.
pub fn change_on(tables: &[TableId], task: &Task, name: &Name) -> Option<Change>
    ensures { result ≡ change_on tables.now task.now name.now }
{
    match task {
        Task::Release => Some(Change::Release),
        Task::Collapse(table) => {
            if is_within(tables, *table, name) {
                Some(Change::Release)
            } else {
                None
            }
        }
        Task::Settle(spare, placed) => {
            if was_placed(placed, name) {
                None
            } else {
                Some(Change::Settle(spares(spare, name)))
            }
        }
        Task::Cancel => Some(Change::Cancel),
        Task::Claim => Some(Change::Claim),
    }
}
