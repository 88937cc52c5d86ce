ghost use Rattle.std.specs.Prelude.{◌≡◌, ◌<◌, ◌≤◌, length, IfOk};
ghost use Rattle.iso_chain.specs.Laws.{pinned};
ghost use Rattle.iso_chain.specs.Slots.{slot_in, slots_of};
ghost use Rattle.iso_chain.specs.Views.{bare};

use crate::changes::slot_of;
use iso_log::Log;
use iso_rebuild::Past;
use iso_table::Table;
use iso_types::{Items, Memory, Rid, TableId};
use std::alloc::Global;

/// The slot as it stands, with the log's records from its first to its head, in memory of their own; `Memory` where there is
/// none.
pub fn pin_slot(
    alloc: Global,
    tables: &Items<Table>,
    log: &Log,
    table: TableId,
    rid: Rid,
    first: u32,
    head: u32,
) -> Result<Past, Memory>
    requires table { table.0 < length tables.now }
    requires rid { rid.0 < length (slots_of (bare tables.now) table) }
    requires order { first ≤ head }
    requires within { head < length log.now.records }
    ensures { IfOk result (λ past. past ≡ pinned log.now.records (slot_in (bare tables.now) table rid) first head) }
{
    let slot = slot_of(tables, table, rid);
    Ok(Past {
        pin: log.pin(first, head)?,
        row: slot.row.copied(alloc)?,
        live: slot.live,
        head,
    })
}
