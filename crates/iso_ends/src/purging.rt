//! Purges: a pair of an index that no row has any more, and whose key's name nobody uses, goes.

ghost use Rattle.std.specs.Prelude.{◌≡◌, ◌<◌, ◌≤◌, ◌++◌, [], ◌∷◌, not, ◌&&◌, length, map, find, false, true, is_some, slice_get, slice_set, slice_index_or, Err, IfOk, OnOk, OnErr, Some, None};
ghost use Rattle.std.specs.Option.{option_copied, option_map_or};
ghost use Rattle.iso_chain.specs.Slots.{slots_of};
ghost use Rattle.iso_chain.specs.Views.{bare};
ghost use Rattle.iso_ends.specs.Doubts.{AreKept};
ghost use Rattle.iso_ends.specs.Purges.{has_key as has, is_calm as calm, is_left as left, is_settled as settled, purge_of, purging};
ghost use Rattle.iso_history.specs.Entries.{entries_of, is_in_use, is_purgeable as may_go, least_purgeable, row_has, without_pair};
ghost use Rattle.iso_history.specs.Makers.{by_dispatcher};
ghost use Rattle.iso_history.specs.Orders.{IsOrdered};
ghost use Rattle.iso_history.specs.Stops.{is_full};
ghost use Rattle.iso_history.specs.Versions.{committed, is_pending, versions};
ghost use Rattle.iso_history.specs.declared.entry.Act.TheVariants as Acts;
ghost use Rattle.iso_key.specs.Pages.{entries};
ghost use Rattle.iso_state.specs.Stands.{StandsFor, content_of, world_of};
ghost use Rattle.iso_types.specs.declared.value.Name.TheVariants as Names;

use crate::doubts::Doubts;
use crate::walking::least_in_parts;
use iso_history::{Act, Entry, Who};
use iso_key::KeyIndex;
use iso_state::{Parts, make_room, note};
use iso_table::Slot;
use iso_types::{IndexDef, IndexId, Items, Name, Rid, Row, StepFault, TableId, Value};

/// Whether the row has the key in the column.
#[tactic(auto, unfolding(iso_types::specs::Value::value_eq))]
fn has_key(row: &Row, column: u8, key: &Value) -> bool
    ensures { result ≡ has row.now column key.now }
{
    match row.as_slice().get(column as usize) {
        Some(value) => *value == *key,
        None => Value::Null == *key,
    }
}

/// Whether no change of the slot is pending, and it is dead or its row has another key.
fn is_left(slot: &Slot, column: u8, key: &Value) -> bool
    ensures { result ≡ left slot.now column key.now }
{
    if slot.head.is_some() {
        return false;
    }
    if slot.live {
        return !has_key(&slot.row, column, key);
    }
    true
}

/// The slot; None where there is none.
fn find_slot(parts: &Parts, table: TableId, rid: Rid) -> Option<&Slot>
    ensures { option_copied result ≡ slice_get (slots_of (bare parts.now.tables) table) rid.0 }
{
    match parts.tables.get(table.0 as usize) {
        Some(slots) => slots.get(rid),
        None => None,
    }
}

/// Whether no change of the slot is pending, and its row is live and has the key.
fn is_settled(slot: &Slot, column: u8, key: &Value) -> bool
    ensures { result ≡ settled slot.now column key.now }
{
    if slot.head.is_some() {
        return false;
    }
    if slot.live {
        return has_key(&slot.row, column, key);
    }
    false
}

/// Whether the pair is calm: no version of its slot is pending, and its committed row has the key. (This project's own.)
pub(crate) fn is_calm(parts: &Parts, index: IndexId, def: &IndexDef, pair: &(Value, Rid)) -> bool
    requires stands { StandsFor parts.now }
    requires def { slice_get parts.now.head.indexes index.0 ≡ Some def.now }
    ensures { result ≡ true → calm parts.now.head index pair.now.0 (versions (world_of parts.now) def.now.table pair.now.1) ≡ true }
{
    match find_slot(parts, def.table, pair.1) {
        Some(slot) => is_settled(slot, def.column, &pair.0),
        None => false,
    }
}

/// Whether no version of the pair's slot is pending, and its committed row is not there or has another key.
pub(crate) fn is_stale(parts: &Parts, index: IndexId, def: &IndexDef, pair: &(Value, Rid)) -> bool
    requires stands { StandsFor parts.now }
    requires def { slice_get parts.now.head.indexes index.0 ≡ Some def.now }
    ensures { result ≡ (not (is_pending (versions (world_of parts.now) def.now.table pair.now.1))
        && not (row_has parts.now.head index pair.now.0 (committed (versions (world_of parts.now) def.now.table pair.now.1)))) }
{
    match find_slot(parts, def.table, pair.1) {
        Some(slot) => is_left(slot, def.column, &pair.0),
        None => true,
    }
}

/// Whether somebody holds or awaits the name of the key.
pub(crate) fn is_used(parts: &Parts, index: IndexId, key: &Value) -> bool
    requires stands { StandsFor parts.now }
    ensures { result ≡ is_in_use (world_of parts.now) (Names.Key index key.now) }
{
    parts.locks.in_use(Name::Key(index, *key))
}

/// Whether the pair is purgeable.
fn is_purgeable(parts: &Parts, index: IndexId, def: &IndexDef, pair: &(Value, Rid)) -> bool
    requires stands { StandsFor parts.now }
    requires def { slice_get parts.now.head.indexes index.0 ≡ Some def.now }
    ensures { result ≡ may_go parts.now.head (world_of parts.now) index pair.now }
{
    is_stale(parts, index, def, pair) && !is_used(parts, index, &pair.0)
}

/// The least of these pairs that is purgeable. It looks at the pairs up to that one, each found by halving, and at their slots.
fn walk_purgeable(
    parts: &Parts,
    index: IndexId,
    def: &IndexDef,
    keys: &KeyIndex,
) -> Option<(Value, Rid)>
    requires stands { StandsFor parts.now }
    requires def { slice_get parts.now.head.indexes index.0 ≡ Some def.now }
    requires ordered { IsOrdered (entries keys.now) }
    ensures { result ≡ find (may_go parts.now.head (world_of parts.now) index) (entries keys.now) }
{
    let mut next = keys.first_from(None);
    while let Some(pair) = next {
        if is_purgeable(parts, index, def, &pair) {
            return Some(pair);
        }
        next = keys.next_after(pair);
    }
    None
}

/// The first purgeable pair of a page.
fn first_in(
    parts: &Parts,
    index: IndexId,
    def: &IndexDef,
    page: &[(Value, Rid)],
) -> Option<(Value, Rid)>
    requires stands { StandsFor parts.now }
    requires def { slice_get parts.now.head.indexes index.0 ≡ Some def.now }
    ensures { result ≡ find (may_go parts.now.head (world_of parts.now) index) page.now }
{
    for pair in page {
        if is_purgeable(parts, index, def, pair) {
            return Some(*pair);
        }
    }
    None
}

/// The least purgeable pair among those of a set, which are in order. It looks at its pairs up to that one, page by page, and at
/// their slots.
pub(crate) fn first_purgeable(
    parts: &Parts,
    index: IndexId,
    def: &IndexDef,
    keys: &KeyIndex,
) -> Option<(Value, Rid)>
    requires stands { StandsFor parts.now }
    requires def { slice_get parts.now.head.indexes index.0 ≡ Some def.now }
    requires ordered { IsOrdered (entries keys.now) }
    ensures { result ≡ find (may_go parts.now.head (world_of parts.now) index) (entries keys.now) }
{
    let mut at: usize = 0;
    while let Some(page) = keys.page(at) {
        if let Some(pair) = first_in(parts, index, def, page) {
            return Some(pair);
        }
        match at.checked_add(1) {
            Some(next) => at = next,
            None => return walk_purgeable(parts, index, def, keys),
        }
    }
    None
}

/// Takes a pair off its index.
fn take_off(indexes: &mut Items<KeyIndex>, index: IndexId, key: &Value, rid: Rid)
    requires { index.0 < length indexes.old }
    ensures { map entries indexes.new ≡ slice_set (map entries indexes.old) index.0
        (without_pair (key.now, rid) (slice_index_or (map entries indexes.old) index.0 [])) }
{
    indexes.item_mut(index.0 as usize).remove(*key, rid);
}

/// Makes the entry of the purge of the least purgeable pair.
fn purge_pair(parts: &mut Parts, index: IndexId, key: &Value, rid: Rid) -> Result<(), StepFault>
    requires stands { StandsFor parts.old }
    requires open { (world_of parts.old).pace.finished ≡ false }
    requires going { (world_of parts.old).pace.stopped ≡ false }
    requires calm { (world_of parts.old).pace.purged ≡ false }
    requires least { least_purgeable parts.old.head (world_of parts.old) ≡ Some (index, (key.now, rid)) }
    ensures stands { StandsFor parts.new }
    ensures head { parts.new.head ≡ parts.old.head }
    ensures full { result ≡ Err StepFault.HistoryFull → is_full parts.old.head (world_of parts.old) (by_dispatcher (Acts.Purge index key.now rid)) ≡ true }
    ensures ok { OnOk result (parts.new.history.items ≡ parts.old.history.items ++ by_dispatcher (Acts.Purge index key.now rid) ∷ []) }
    ensures err { OnErr result (content_of parts.new ≡ content_of parts.old) }
{
    make_room(parts, 1)?;
    take_off(&mut parts.indexes, index, key, rid);
    parts.pace.purged = true;
    let who = Who::Dispatcher;
    let act = Act::Purge {
        index,
        key: *key,
        rid,
    };
    note(parts, Entry { who, act });
    Ok(())
}

/// Purges this pair, the least purgeable one, where there is one.
fn purge_least(parts: &mut Parts, least: Option<(IndexId, (Value, Rid))>) -> Result<bool, StepFault>
    requires stands { StandsFor parts.old }
    requires open { (world_of parts.old).pace.finished ≡ false }
    requires going { (world_of parts.old).pace.stopped ≡ false }
    requires calm { (world_of parts.old).pace.purged ≡ false }
    requires least { least ≡ least_purgeable parts.old.head (world_of parts.old) }
    ensures stands { StandsFor parts.new }
    ensures head { parts.new.head ≡ parts.old.head }
    ensures answer { IfOk result (λ b. b ≡ is_some (least_purgeable parts.old.head (world_of parts.old))) }
    ensures full { result ≡ Err StepFault.HistoryFull
        → option_map_or (λ p. is_full parts.old.head (world_of parts.old) (by_dispatcher (purge_of p))) (least_purgeable parts.old.head (world_of parts.old)) false ≡ true }
    ensures ok { OnOk result (parts.new.history.items ≡ parts.old.history.items ++ purging (least_purgeable parts.old.head (world_of parts.old))) }
    ensures err { OnErr result (content_of parts.new ≡ content_of parts.old) }
    ensures due { OnErr result (is_some (least_purgeable parts.old.head (world_of parts.old)) ≡ true) }
{
    match least {
        Some((index, pair)) => {
            purge_pair(parts, index, &pair.0, pair.1)?;
            Ok(true)
        }
        None => Ok(false),
    }
}

/// Purges the least purgeable pair, by index, key and rid: one whose slot has no pending version, whose committed row is not
/// there or has another key, and the name of whose key nobody holds or awaits. False, and nothing recorded, exactly where there
/// is none. `HistoryFull`: its entry would be full. A fault comes only where there is such a pair, and leaves all as it was. It
/// looks at each pair up to that one; `purge_among` needs to look at fewer. Db2 LUW, 'Index cleanup and maintenance'; when pairs
/// are purged is this project's own.
pub fn purge(parts: &mut Parts) -> Result<bool, StepFault>
    requires stands { StandsFor parts.old }
    requires open { (world_of parts.old).pace.finished ≡ false }
    requires going { (world_of parts.old).pace.stopped ≡ false }
    requires calm { (world_of parts.old).pace.purged ≡ false }
    ensures stands { StandsFor parts.new }
    ensures head { parts.new.head ≡ parts.old.head }
    ensures answer { IfOk result (λ b. b ≡ is_some (least_purgeable parts.old.head (world_of parts.old))) }
    ensures full { result ≡ Err StepFault.HistoryFull
        → option_map_or (λ p. is_full parts.old.head (world_of parts.old) (by_dispatcher (purge_of p))) (least_purgeable parts.old.head (world_of parts.old)) false ≡ true }
    ensures ok { OnOk result (parts.new.history.items ≡ parts.old.history.items ++ purging (least_purgeable parts.old.head (world_of parts.old))) }
    ensures err { OnErr result (content_of parts.new ≡ content_of parts.old) }
    ensures due { OnErr result (is_some (least_purgeable parts.old.head (world_of parts.old)) ≡ true) }
{
    let least = least_in_parts(parts);
    purge_least(parts, least)
}

/// As `purge`, and looks at as many pairs as `Doubts::least`. (This project's own.)
pub fn purge_among(parts: &mut Parts, doubts: &mut Doubts) -> Result<bool, StepFault>
    requires stands { StandsFor parts.old }
    requires open { (world_of parts.old).pace.finished ≡ false }
    requires going { (world_of parts.old).pace.stopped ≡ false }
    requires calm { (world_of parts.old).pace.purged ≡ false }
    requires kept { AreKept parts.old.head parts.old.history.items doubts.old }
    ensures stands { StandsFor parts.new }
    ensures head { parts.new.head ≡ parts.old.head }
    ensures kept { AreKept parts.old.head parts.old.history.items doubts.new }
    ensures answer { IfOk result (λ b. b ≡ is_some (least_purgeable parts.old.head (world_of parts.old))) }
    ensures full { result ≡ Err StepFault.HistoryFull
        → option_map_or (λ p. is_full parts.old.head (world_of parts.old) (by_dispatcher (purge_of p))) (least_purgeable parts.old.head (world_of parts.old)) false ≡ true }
    ensures ok { OnOk result (parts.new.history.items ≡ parts.old.history.items ++ purging (least_purgeable parts.old.head (world_of parts.old))) }
    ensures err { OnErr result (content_of parts.new ≡ content_of parts.old) }
    ensures due { OnErr result (is_some (least_purgeable parts.old.head (world_of parts.old)) ≡ true) }
{
    let least = doubts.least(parts);
    purge_least(parts, least)
}

/// Whether a pair is purgeable: whether `purge` would find one. It looks at each pair up to that one, and takes no memory.
pub fn purgeable(parts: &Parts) -> bool
    requires stands { StandsFor parts.now }
    ensures { result ≡ is_some (least_purgeable parts.now.head (world_of parts.now)) }
{
    least_in_parts(parts).is_some()
}

/// As `purgeable`, and looks at as many pairs as `Doubts::least`. (This project's own.)
pub fn purgeable_among(parts: &Parts, doubts: &mut Doubts) -> bool
    requires stands { StandsFor parts.now }
    requires kept { AreKept parts.now.head parts.now.history.items doubts.old }
    ensures kept { AreKept parts.now.head parts.now.history.items doubts.new }
    ensures purgeable { result ≡ is_some (least_purgeable parts.now.head (world_of parts.now)) }
{
    doubts.least(parts).is_some()
}
