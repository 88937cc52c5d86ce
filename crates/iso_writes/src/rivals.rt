//! Which other row has a key in a unique index, or may have it.
ghost use Rattle.std.specs.Prelude.{◌≡◌, ◌∷◌, [], ◌<◌, length, find, if◌then◌else◌, Some, None};
ghost use Rattle.std.specs.Option.{option_map};
ghost use Rattle.iso_history.specs.Writes.{judged_rivals, judged_unique};
ghost use Rattle.iso_history.specs.Orders.{IsOrdered};
ghost use Rattle.iso_key.specs.Pages.{entries};
ghost use Rattle.iso_state.specs.Stands.{StandsFor, world_of};
ghost use Rattle.iso_types.specs.Value.{value_eq};
ghost use Rattle.iso_writes.specs.Answers.{coming_as};
ghost use Rattle.iso_writes.specs.Walk.{entry_from, is_left, others, rivals_in};

use crate::coming::Coming;
use crate::keys::{index_at, is_unique, row_has_key, same_value};
use crate::slots::{is_changed_beside, present_row};
use iso_key::KeyIndex;
use iso_modes::Mode;
use iso_state::Parts;
use iso_types::{Conn, Edge, IndexId, Name, Rid, TableId, Value};

/// The least entry from the key on; where a rid is given, the least behind the key's entry with that rid.
fn entry_after(index: &KeyIndex, key: &Value, after: Option<Rid>) -> Option<(Value, Rid)>
    ensures { result ≡ entry_from key.now after (entries index.now) }
{
    match after {
        Some(rid) => index.next_after((*key, rid)),
        None => index.first_from(Some(Edge {
            value: *key,
            inclusive: true,
        })),
    }
}

/// The entry's rid where it has the key.
fn rid_with(entry: &(Value, Rid), key: &Value) -> Option<Rid>
    ensures { result ≡ (if value_eq entry.now.0 key.now then Some entry.now.1 else None) }
{
    if same_value(&entry.0, key) {
        Some(entry.1)
    } else {
        None
    }
}

/// The rid of the key's least entry, and behind this one where a rid is given.
fn next_rid(index: &KeyIndex, key: &Value, after: Option<Rid>) -> Option<Rid>
    requires ordered { IsOrdered (entries index.now) }
    ensures { result ≡ option_map (λ p. p.1) (find (is_left key.now after) (entries index.now)) }
{
    match entry_after(index, key, after) {
        Some(entry) => rid_with(&entry, key),
        None => None,
    }
}

/// What comes of the key's entry with this rid: another unit's pending version of its row blocks, and a row with the key
/// refuses.
fn judge_entry(
    parts: &Parts,
    conn: Conn,
    table: TableId,
    index: IndexId,
    key: &Value,
    rid: Rid,
) -> Coming
    requires stands { StandsFor parts.now }
    requires conn { conn.0 < length parts.now.head.conns }
    ensures { coming_as result ≡ judged_rivals parts.now.head (world_of parts.now) conn table index ((key.now, rid) ∷ []) }
{
    if is_changed_beside(parts, conn, table, rid) {
        Coming::Blocked(Name::Row(table, rid), Mode::Ns)
    } else if row_has_key(&parts.head, index, key, present_row(parts, table, rid)) {
        Coming::Taken
    } else {
        Coming::Done
    }
}

/// The same, where the entry is not the row's own.
fn judge_rival(
    parts: &Parts,
    conn: Conn,
    table: TableId,
    index: IndexId,
    key: &Value,
    own: Rid,
    rid: Rid,
) -> Coming
    requires stands { StandsFor parts.now }
    requires conn { conn.0 < length parts.now.head.conns }
    ensures { coming_as result ≡ judged_rivals parts.now.head (world_of parts.now) conn table index (others own ((key.now, rid) ∷ [])) }
{
    if rid.0 == own.0 {
        Coming::Done
    } else {
        judge_entry(parts, conn, table, index, key, rid)
    }
}

/// What comes of the key's entries but the row's own, in order of their rids.
fn judge_entries(
    parts: &Parts,
    list: &KeyIndex,
    conn: Conn,
    table: TableId,
    index: IndexId,
    key: &Value,
    own: Rid,
) -> Coming
    requires stands { StandsFor parts.now }
    requires conn { conn.0 < length parts.now.head.conns }
    requires ordered { IsOrdered (entries list.now) }
    ensures { coming_as result ≡ judged_rivals parts.now.head (world_of parts.now) conn table index (rivals_in key.now own (entries list.now)) }
{
    let mut after = None;
    while let Some(rid) = next_rid(list, key, after) {
        let coming = judge_rival(parts, conn, table, index, key, own, rid);
        if !coming.is_done() {
            return coming;
        }
        after = Some(rid);
    }
    Coming::Done
}

/// What comes of the key where the index is unique. Its cost is that of a binary search for each entry of the key.
/// Db2 LUW, 'Unique indexes', 'SQLCODE -803'; that a pending version of another unit blocks is this project's own.
pub fn judge_unique(
    parts: &Parts,
    conn: Conn,
    table: TableId,
    index: IndexId,
    key: &Value,
    own: Rid,
) -> Coming
    requires stands { StandsFor parts.now }
    requires conn { conn.0 < length parts.now.head.conns }
    ensures { coming_as result ≡ judged_unique parts.now.head (world_of parts.now) conn table index key.now own }
{
    if !is_unique(&parts.head, index) {
        return Coming::Done;
    }
    match index_at(parts, index) {
        Some(list) => judge_entries(parts, list, conn, table, index, key, own),
        None => Coming::Done,
    }
}
