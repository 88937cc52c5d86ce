//! What is known of the pairs of one index: which of them may be stale, and the keys of the calm ones.

ghost use Rattle.std.specs.Prelude.{◌≡◌, if◌then◌else◌, slice_set, None, OnOk};
ghost use Rattle.iso_ends.specs.Doubts.{changed as changes, kept_at, key_by, known_by, known_of, released};
ghost use Rattle.iso_history.specs.Entries.{with_pair};
ghost use Rattle.iso_key.specs.Pages.{entries};
ghost use Rattle.iso_types.specs.Ids.{table_eq};

use iso_history::{Act, Entry};
use iso_key::KeyIndex;
use iso_types::{Edges, IndexDef, IndexId, Items, Memory, Rid, Row, TableId, Value};

/// What was known of an index's pairs when so many entries of the history had been made: its doubtful pairs, in order; by rid
/// the key of a pair that is calm; and the parked pairs, whose keys' names are held to the end of a unit by connections of `by`.
/// Each pair of the index was one of these. Where `read` is None nothing is known. `swept`: where the last look at doubtful pairs
/// that may be calm or parked stopped. (This project's own.)
#[derive(Drop)]
pub struct Doubt {
    pub read: Option<usize>,
    pub pairs: KeyIndex,
    pub keys: Items<Option<Value>>,
    pub parked: KeyIndex,
    pub by: Edges,
    pub swept: Option<(Value, Rid)>,
}

/// The key that is kept at a rid.
fn kept(keys: &Items<Option<Value>>, rid: Rid) -> Option<Value>
    ensures { result ≡ kept_at keys.now rid }
{
    match keys.get(rid.0 as usize) {
        Some(key) => *key,
        None => None,
    }
}

/// Keeps no key at a rid.
fn forget(keys: &mut Items<Option<Value>>, rid: Rid)
    ensures { keys.new ≡ slice_set keys.old rid.0 None }
{
    let at = rid.0 as usize;
    if at < keys.len() {
        *keys.item_mut(at) = None;
    }
}

/// Makes a pair doubtful.
pub(crate) fn add(pairs: &mut KeyIndex, key: &Value, rid: Rid) -> Result<(), Memory>
    ensures { OnOk result (entries pairs.new ≡ with_pair (key.now, rid) (entries pairs.old)) }
{
    pairs.insert(*key, rid)?;
    Ok(())
}

/// Makes the pair doubtful whose key is kept at the rid.
fn release(doubt: &mut Doubt, rid: Rid) -> Result<(), Memory>
    ensures { OnOk result (known_of doubt.new ≡ released rid (known_of doubt.old)) }
{
    match kept(&doubt.keys, rid) {
        Some(key) => {
            add(&mut doubt.pairs, &key, rid)?;
            forget(&mut doubt.keys, rid);
            Ok(())
        }
        None => Ok(()),
    }
}

/// Makes the pair of a new row doubtful, and the one whose key was kept at its rid.
fn change(doubt: &mut Doubt, rid: Rid, key: &Value) -> Result<(), Memory>
    ensures { OnOk result (known_of doubt.new ≡ changes rid key.now (known_of doubt.old)) }
{
    release(doubt, rid)?;
    add(&mut doubt.pairs, key, rid)?;
    Ok(())
}

/// The row's key in the index.
fn key_of(row: &Row, def: &IndexDef) -> Value
    ensures { result ≡ key_by def.now row.now }
{
    match row.as_slice().get(def.column as usize) {
        Some(value) => *value,
        None => Value::Null,
    }
}

/// Reads the entry of a row that comes.
fn read_row(
    doubt: &mut Doubt,
    def: &IndexDef,
    table: TableId,
    rid: Rid,
    row: &Row,
) -> Result<(), Memory>
    ensures { OnOk result (known_of doubt.new ≡ (if table_eq table def.now.table
        then changes rid (key_by def.now row.now) (known_of doubt.old) else known_of doubt.old)) }
{
    if table.0 == def.table.0 {
        return change(doubt, rid, &key_of(row, def));
    }
    Ok(())
}

/// Reads an entry: a change makes the pairs of its rid doubtful, a purge takes its pair off.
pub(crate) fn read_entry(
    doubt: &mut Doubt,
    index: IndexId,
    def: &IndexDef,
    entry: &Entry,
) -> Result<(), Memory>
    ensures { OnOk result (known_of doubt.new ≡ known_by index def.now entry.now.act (known_of doubt.old)) }
{
    match &entry.act {
        Act::Insert { table, rid, row } => read_row(doubt, def, *table, *rid, row),
        Act::Update { table, rid, row } => read_row(doubt, def, *table, *rid, row),
        Act::Delete { table, rid } => {
            if table.0 == def.table.0 {
                return release(doubt, *rid);
            }
            Ok(())
        }
        Act::Purge {
            index: other,
            key,
            rid,
        } => {
            if other.0 == index.0 {
                doubt.pairs.remove(*key, *rid);
            }
            Ok(())
        }
        _ => Ok(()),
    }
}
