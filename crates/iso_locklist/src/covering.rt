ghost use Rattle.std.specs.Prelude.{◌≡◌, IfOk, map};

use iso_types::{IndexDef, Items, Memory, TableId};
use std::alloc::Global;

/// The table of each index; `Memory` where there is none for them.
pub fn index_tables(alloc: Global, indexes: &[IndexDef]) -> Result<Items<TableId>, Memory>
    ensures { IfOk result (λ tables. tables ≡ map (λ d. d.table) indexes.now) }
{
    let mut tables = Items::new(alloc);
    for index in indexes {
        tables.push(index.table)?;
    }
    Ok(tables)
}
