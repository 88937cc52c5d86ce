//! Slots, log and units of one table and one connection.
ghost use Rattle.std.specs.Prelude.{◌≡◌, length, IfOk};

use iso_log::Log;
use iso_table::Table;
use iso_types::{Config, Conn, Items, Memory};
use iso_uow::Units;
use std::alloc::Global;

/// Slots, log and units.
#[derive(Drop)]
pub struct Chain {
    pub tables: Items<Table>,
    pub log: Log,
    pub units: Units,
}

/// Settings with this limit of the log.
fn config(logmax: u32) -> Config {
    Config {
        cur_commit: true,
        locklist: 4,
        maxlocks: 50,
        logmax,
        window: 8,
    }
}

/// The units of one connection, whose first has begun.
fn one_unit(alloc: Global) -> Result<Units, Memory>
    ensures one { IfOk result (λ units. length units.works ≡ 1) }
{
    let mut units = Units::new(alloc, 1)?;
    units.begin(Conn(0));
    Ok(units)
}

/// A table without slots, an empty log with this limit, and a unit that has just begun.
pub fn begin(alloc: Global, logmax: u32) -> Result<Chain, Memory>
    ensures one { IfOk result (λ chain. length chain.units.works ≡ 1) }
{
    let mut tables = Items::new(alloc);
    tables.push(Table::new(alloc))?;
    let config = config(logmax);
    Ok(Chain {
        tables,
        log: Log::new(alloc, &config),
        units: one_unit(alloc)?,
    })
}
