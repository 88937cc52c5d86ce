ghost use Rattle.std.specs.Prelude.{◌≡◌, ◌≤◌, [], ◌+◌, ◌*◌, length, map, IfOk};
ghost use Rattle.iso_chain.specs.Views.{bare};
ghost use Rattle.iso_table.specs.Slots.{new_slot};
ghost use Rattle.iso_types.specs.Head.{rows_of, tables as tables_of};
ghost use Rattle.iso_state.specs.Firsts.{first_content, first_desk};
ghost use Rattle.iso_state.specs.Stands.{HeadFits, StandsFor, content_of};

use crate::keys::first_indexes;
use crate::pace::Pace;
use iso_history::History;
use iso_key::KeyIndex;
use iso_locklist::LockList;
use iso_log::Log;
use iso_table::Table;
use iso_types::{ConnDef, Desk, Head, Items, Memory, Phase, TableId};
use iso_uow::Units;
use std::alloc::Global;

/// The parts of the state: the head that it began with; for each table its slots by rid; for each index its entries; the lock
/// list; the log; for each connection its open unit and its desk; what the dispatcher has done; the history; and the sum of all
/// entries that are kept in reserve, so that each statement can be answered and each unit undone and ended within the history's limit.
#[derive(Drop)]
pub struct Parts {
    pub head: Head,
    pub tables: Items<Table>,
    pub indexes: Items<KeyIndex>,
    pub locks: LockList,
    pub log: Log,
    pub units: Units,
    pub desks: Items<Desk>,
    pub pace: Pace,
    pub history: History,
    pub reserved: u32,
}

/// The slots of a table with the rows that the head gives it, in order; `Memory` where there is none for their copies. It
/// looks at each row of the head.
fn first_table(alloc: Global, head: &Head, table: TableId) -> Result<Table, Memory>
    ensures { IfOk result (λ slots. slots.items ≡ map new_slot (rows_of head.now table)) }
{
    let mut slots = Table::new(alloc);
    for first in head.rows.as_slice() {
        if first.table.0 == table.0 {
            match slots.add(first.row.copied(alloc)?) {
                Ok(_) => {}
                Err(_) => return Err(Memory),
            }
        }
    }
    Ok(slots)
}

/// The slots of each table before the first entry; `Memory` where there is none. It looks at each row of the head once for
/// each table.
fn first_tables(alloc: Global, head: &Head) -> Result<Items<Table>, Memory>
    requires { length head.now.tables ≤ 16 }
    ensures { IfOk result (λ tables. bare tables ≡ map (λ t. map new_slot (rows_of head.now t)) (tables_of head.now)) }
{
    let mut tables = Items::new(alloc);
    for at in 0..head.tables.len() {
        tables.push(first_table(alloc, head, TableId(at as u8))?)?;
    }
    Ok(tables)
}

/// The desk of each connection before the first entry; `Memory` where there is none.
fn first_desks(alloc: Global, conns: &Items<ConnDef>) -> Result<Items<Desk>, Memory>
    ensures { IfOk result (λ desks. desks ≡ map first_desk conns.now) }
{
    let mut desks = Items::new(alloc);
    for conn in conns.as_slice() {
        desks.push(Desk {
            phase: Phase::Idle,
            line: 0,
            isolation: conn.isolation,
            may_wait: true,
            doom: 0,
            start: 0,
            claimed: false,
        })?;
    }
    Ok(desks)
}

/// The empty history, with room for what so many idle connections and the dispatcher need; `Memory` where there is none.
fn first_history(alloc: Global, reserved: u32) -> Result<History, Memory>
    ensures items { IfOk result (λ history. history.items ≡ []) }
    ensures room { IfOk result (λ history. reserved ≤ history.spare) }
{
    let mut history = History::new(alloc);
    history.reserve(reserved as usize)?;
    Ok(history)
}

impl Parts {
    /// The parts of the empty history over a copy of the head: tables with the rows that the head gives them, indexes with
    /// the keys of these rows, and idle connections. `Memory` where there is none. It copies all that the head declares, the
    /// rows twice, looks at each of its rows once for each table, and places each row once in each index of its table.
    pub fn new(alloc: Global, head: &Head) -> Result<Parts, Memory>
        requires fits { HeadFits head.now }
        ensures stands { IfOk result (λ p. StandsFor p) }
        ensures head { IfOk result (λ p. p.head ≡ head.now) }
        ensures content { IfOk result (λ p. content_of p ≡ first_content head.now) }
        ensures history { IfOk result (λ p. p.history.items ≡ []) }
    {
        let conns = head.conns.len() as u32;
        let reserved = 2 * conns + 2;
        let tables = first_tables(alloc, head)?;
        let indexes = first_indexes(alloc, head, &tables)?;
        Ok(Parts {
            head: head.copied(alloc)?,
            tables,
            indexes,
            locks: LockList::new(alloc, head)?,
            log: Log::new(alloc, &head.config),
            units: Units::new(alloc, conns as u8)?,
            desks: first_desks(alloc, &head.conns)?,
            pace: Pace {
                purged: false,
                stopped: false,
                halted: false,
                finished: false,
            },
            history: first_history(alloc, reserved)?,
            reserved,
        })
    }
}
