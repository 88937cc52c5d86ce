//! The choice of a table, and the collapse of its row and key locks.
ghost use Rattle.std.specs.Prelude.{◌≡◌, ◌<◌, ◌≤◌, List, length};
ghost use Rattle.iso_locklist.specs.Holding.{HasTables, LocksAre};
ghost use Rattle.iso_locklist.specs.Lists.{IsSingleIn};
ghost use Rattle.iso_locklist.specs.Places.{IsSameLimits};
ghost use Rattle.iso_queue.specs.Limits as limits;
ghost use Rattle.iso_queue.specs.Locks.{Hold as Held, collapsed};
ghost use Rattle.iso_queue.specs.Queues.{Wait as Awaiting};
ghost use Rattle.iso_types.specs.declared.head.Head.{Head as Declared};

use iso_locklist::LockList;
use iso_types::{Conn, Head, TableId};

/// The table on which the connection has the most row and key holds that are not Brief, at least one; of equal tables that
/// with the lowest number. `None`: it has none on any table. It takes no memory. Its cost is the number of
/// tables of the head. Db2 LUW, 'Lock escalation'; the choice among tables is this project's own.
pub fn choose(locks: &LockList, head: &Head, conn: Conn) -> Option<TableId>
    requires conn { conn.0 < 32 }
    requires tables { length head.now.tables ≤ 16 }
    ensures { (hs : List Held) (xs : List Awaiting) → HasTables head.now locks.now → LocksAre hs xs locks.now → IsSingleIn hs xs conn → result ≡ limits.prey head.now hs conn }
{
    let mut prey = None;
    let mut most = 0;
    for at in 0..head.tables.len() {
        let table = TableId(at as u8);
        let weight = locks.weight(conn, table);
        if weight > most {
            prey = Some(table);
            most = weight;
        }
    }
    prey
}

/// The connection's holds on the rows and keys of the table go; its hold on the table stays, and so does its wait. It
/// takes no memory. Its cost is that of the lock list's collapse. Db2 LUW, 'Lock escalation'.
pub fn collapse(locks: &mut LockList, conn: Conn, table: TableId)
    requires { conn.0 < 32 }
    ensures lists { (head : Declared) (hs : List Held) (xs : List Awaiting) → HasTables head locks.old → LocksAre hs xs locks.old → LocksAre (collapsed head conn table hs) xs locks.new }
    ensures limits { IsSameLimits locks.new locks.old }
{
    locks.collapse(conn, table);
}
