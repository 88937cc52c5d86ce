//! The locks that a write takes: on its new row, and on keys that inherit them.
ghost use Rattle.std.specs.Prelude.{◌≡◌, ◌≢◌, ◌<◌, ◌≤◌, ◌++◌, ◌∷◌, List, [], drop, length, false, true, Err, OnOk, OnErr, IfOk, None};
ghost use Rattle.std.specs.List.{cons_option};
ghost use Rattle.iso_locklist.specs.Holding.{AreNew, IsNew, LocksAre, all_added};
ghost use Rattle.iso_locklist.specs.Lists.{asked_for};
ghost use Rattle.iso_locklist.specs.Places.{IsSameLimits, are_apart, line_at, names, nobody, released};
ghost use Rattle.iso_modes.specs.declared.Term.TheVariants as Terms;
ghost use Rattle.iso_queue.specs.Lines.{asked, is_used};
ghost use Rattle.iso_queue.specs.Locks.{Hold, added, settled, without_briefs};
ghost use Rattle.iso_queue.specs.Queues.{Wait, is_waiting};
ghost use Rattle.iso_state.specs.Changes.{relocked};
ghost use Rattle.iso_state.specs.Stands.{StandsFor, content_of, world_of};
ghost use Rattle.iso_state.specs.Steps.{KeepsRoom};
ghost use Rattle.iso_types.specs.Ids.{name_eq};
ghost use Rattle.iso_types.specs.declared.value.Name.{Name as Other};
ghost use Rattle.iso_writes.specs.Changing.{LeavesRoom, MayCome, MayRecord, key_ask as ask_on_key, key_asks, row_ask as ask_on_row, written_at};

use crate::changing::Destination;
use crate::keying::{own_key, write_from};
use crate::keys::inherits_key;
use iso_locklist::Asking;
use iso_modes::Mode;
use iso_state::{Parts, covered};
use iso_types::{Conn, IndexId, Items, Name, Rid, Row, StepFault, TableId};
use std::alloc::Global;

/// X on the row, where the connection's table lock does not cover it.
pub fn row_ask(parts: &Parts, conn: Conn, table: TableId, rid: Rid) -> Option<Asking>
    requires stands { StandsFor parts.now }
    ensures { result ≡ ask_on_row parts.now.head (world_of parts.now) conn table rid }
{
    let name = Name::Row(table, rid);
    let mode = Mode::X;
    if covered(parts, conn, &name, mode) {
        None
    } else {
        Some(Asking { name, mode })
    }
}

/// S on the row's key in the index with this number, where the key inherits it, and the table lock does not cover it.
fn key_ask(parts: &Parts, conn: Conn, table: TableId, row: &Row, at: usize) -> Option<Asking>
    requires stands { StandsFor parts.now }
    requires at { at < length parts.now.head.indexes }
    requires few { at < 256 }
    ensures { result ≡ ask_on_key parts.now.head (world_of parts.now) conn table row.now (record { 0 = at }) }
{
    let key = own_key(&parts.head, table, row, at)?;
    let index = IndexId(at as u8);
    let name = Name::Key(index, key);
    let mode = Mode::S;
    if inherits_key(parts, conn, row, index) && !covered(parts, conn, &name, mode) {
        Some(Asking { name, mode })
    } else {
        None
    }
}

/// What a write asks for: on its new row where that is given, and on the keys that inherit a lock; `Memory` where there is
/// none for the list. Its cost is the number of indexes, and for each of the table's that of its guard.
pub fn asks_for(
    alloc: Global,
    parts: &Parts,
    conn: Conn,
    table: TableId,
    row: &Row,
    first: Option<Asking>,
) -> Result<Items<Asking>, StepFault>
    requires stands { StandsFor parts.now }
    requires few { length parts.now.head.indexes ≤ 32 }
    ensures asks { IfOk result (λ asks. asks ≡ cons_option first (key_asks parts.now.head (world_of parts.now) conn table row.now (length parts.now.head.indexes) 0)) }
    ensures fault { result ≢ Err StepFault.HistoryFull }
{
    let mut asks = Items::new(alloc);
    add_ask(&mut asks, &first)?;
    for at in 0..parts.head.indexes.len() {
        add_ask(&mut asks, &key_ask(parts, conn, table, row, at))?;
    }
    Ok(asks)
}

/// The request is last, where there is one.
fn add_ask(asks: &mut Items<Asking>, ask: &Option<Asking>) -> Result<(), StepFault>
    ensures ok { OnOk result (asks.new ≡ asks.old ++ cons_option ask.now []) }
    ensures fault { result ≢ Err StepFault.HistoryFull }
{
    let Some(ask) = ask else {
        return Ok(());
    };
    match asks.push_copy(ask) {
        Ok(()) => Ok(()),
        Err(_) => Err(StepFault::Memory),
    }
}

/// Takes a lock on a name that nobody holds or awaits. After `Memory` all is as before.
fn take_one(parts: &mut Parts, conn: Conn, name: &Name, mode: Mode) -> Result<(), StepFault>
    requires conn { conn.0 < 32 }
    ensures content { content_of parts.new ≡ relocked (content_of parts.old) parts.new.locks }
    ensures room { KeepsRoom parts.old parts.new }
    ensures lists { (hs : List Hold) (xs : List Wait) → LocksAre hs xs parts.old.locks → is_waiting xs conn ≡ false → IsNew hs xs name.now → OnOk result (LocksAre (added hs conn (asked_for name.now mode Terms.Kept)) xs parts.new.locks) }
    ensures line { OnOk result (line_at parts.new.locks.places name.now ≡ asked (line_at parts.old.locks.places name.now) conn mode Terms.Kept) }
    ensures others { OnOk result ((n : Other) → name_eq name.now n ≡ false → line_at parts.new.locks.places n ≡ line_at parts.old.locks.places n) }
    ensures names { OnOk result (line_at parts.old.locks.places name.now ≡ nobody → names parts.new.locks.places ≡ names parts.old.locks.places ++ name.now ∷ []) }
    ensures was_apart { are_apart (names parts.old.locks.places) ≡ true }
    ensures limits { IsSameLimits parts.new.locks parts.old.locks }
    ensures err { OnErr result (content_of parts.new ≡ content_of parts.old) }
    ensures fault { result ≢ Err StepFault.HistoryFull }
{
    match parts.locks.request_kept(conn, name, mode) {
        Ok(()) => Ok(()),
        Err(_) => Err(StepFault::Memory),
    }
}

/// Gives a lock back.
fn give_back(parts: &mut Parts, conn: Conn, name: &Name)
    requires conn { conn.0 < 32 }
    ensures content { content_of parts.new ≡ relocked (content_of parts.old) parts.new.locks }
    ensures room { KeepsRoom parts.old parts.new }
    ensures line { line_at parts.new.locks.places name.now ≡ released (line_at parts.old.locks.places name.now) conn }
    ensures others { (n : Other) → name_eq name.now n ≡ false → line_at parts.new.locks.places n ≡ line_at parts.old.locks.places n }
    ensures last { (ns : List Other) → names parts.old.locks.places ≡ ns ++ name.now ∷ [] → is_used (released (line_at parts.old.locks.places name.now) conn) ≡ false → names parts.new.locks.places ≡ ns }
    ensures is_apart { are_apart (names parts.new.locks.places) ≡ true }
    ensures limits { IsSameLimits parts.new.locks parts.old.locks }
{
    parts.locks.release(conn, *name);
}

/// Takes the locks on names that nobody holds or awaits, from this place on, and then adds the row's keys and writes the row.
/// After a fault all is as before: each lock is given back, the last first.
fn write_taking(
    alloc: Global,
    parts: &mut Parts,
    conn: Conn,
    asks: &[Asking],
    into: Destination,
    table: TableId,
    rid: Rid,
    row: &Row,
    at: usize,
) -> Result<(), StepFault>
    requires conn { conn.0 < 32 }
    requires at { at ≤ length asks.now }
    requires indexes { length parts.old.indexes ≡ length parts.old.head.indexes }
    requires may { MayRecord (content_of parts.old).chain conn table }
    requires slot { MayCome into (content_of parts.old).chain table rid row.now }
    ensures wrote { OnOk result (content_of parts.new ≡ relocked (written_at (content_of parts.old) conn into table rid row.now 0) parts.new.locks) }
    ensures room { OnOk result (LeavesRoom parts.old parts.new) }
    ensures lists { (hs : List Hold) (xs : List Wait) → LocksAre hs xs parts.old.locks → is_waiting xs conn ≡ false → AreNew hs xs (drop at asks.now) → OnOk result (LocksAre (all_added hs conn (drop at asks.now)) xs parts.new.locks) }
    ensures limits { IsSameLimits parts.new.locks parts.old.locks }
    ensures err { (hs : List Hold) (xs : List Wait) → LocksAre hs xs parts.old.locks → is_waiting xs conn ≡ false → AreNew hs xs (drop at asks.now) → OnErr result (content_of parts.new ≡ content_of parts.old) }
    ensures kept { OnErr result (KeepsRoom parts.old parts.new) }
    ensures fault { result ≢ Err StepFault.HistoryFull }
{
    if at == asks.len() {
        return write_from(alloc, parts, conn, into, table, rid, row, 0);
    }
    let asking = &asks[at];
    take_one(parts, conn, &asking.name, asking.mode)?;
    match write_taking(alloc, parts, conn, asks, into, table, rid, row, at + 1) {
        Ok(()) => Ok(()),
        Err(fault) => {
            give_back(parts, conn, &asking.name);
            Err(fault)
        }
    }
}

/// Takes the locks, adds the row's keys, writes the row, and settles the holds. After a fault all is as before.
pub fn write_locked(
    alloc: Global,
    parts: &mut Parts,
    conn: Conn,
    asks: &[Asking],
    into: Destination,
    table: TableId,
    rid: Rid,
    row: &Row,
) -> Result<(), StepFault>
    requires conn { conn.0 < 32 }
    requires indexes { length parts.old.indexes ≡ length parts.old.head.indexes }
    requires may { MayRecord (content_of parts.old).chain conn table }
    requires slot { MayCome into (content_of parts.old).chain table rid row.now }
    ensures wrote { OnOk result (content_of parts.new ≡ relocked (written_at (content_of parts.old) conn into table rid row.now 0) parts.new.locks) }
    ensures room { OnOk result (LeavesRoom parts.old parts.new) }
    ensures lists { (hs : List Hold) (xs : List Wait) → LocksAre hs xs parts.old.locks → is_waiting xs conn ≡ false → AreNew hs xs asks.now → OnOk result (LocksAre (without_briefs (all_added hs conn asks.now) conn (settled conn None (all_added hs conn asks.now))) xs parts.new.locks) }
    ensures limits { IsSameLimits parts.new.locks parts.old.locks }
    ensures err { (hs : List Hold) (xs : List Wait) → LocksAre hs xs parts.old.locks → is_waiting xs conn ≡ false → AreNew hs xs asks.now → OnErr result (content_of parts.new ≡ content_of parts.old) }
    ensures kept { OnErr result (KeepsRoom parts.old parts.new) }
    ensures fault { result ≢ Err StepFault.HistoryFull }
{
    write_taking(alloc, parts, conn, asks, into, table, rid, row, 0)?;
    parts.locks.settle(conn, None);
    Ok(())
}
