//! The least purgeable pair, sought among all pairs.

ghost use Rattle.std.specs.Prelude.{◌≡◌, find, slice_get, Some};
ghost use Rattle.iso_history.specs.Entries.{entries_of, is_purgeable, least_purgeable};
ghost use Rattle.iso_key.specs.Pages.{entries};
ghost use Rattle.iso_state.specs.Stands.{StandsFor, world_of};

use crate::purging::first_purgeable;
use iso_key::KeyIndex;
use iso_state::Parts;
use iso_types::{IndexDef, IndexId, Rid, Value};

/// The least purgeable pair of an index, among all of its pairs.
pub(crate) fn least_in_all(
    parts: &Parts,
    index: IndexId,
    def: &IndexDef,
    keys: &KeyIndex,
) -> Option<(Value, Rid)>
    requires stands { StandsFor parts.now }
    requires def { slice_get parts.now.head.indexes index.0 ≡ Some def.now }
    requires keys { entries keys.now ≡ entries_of (world_of parts.now) index }
    ensures { result ≡ find (is_purgeable parts.now.head (world_of parts.now) index) (entries_of (world_of parts.now) index) }
{
    first_purgeable(parts, index, def, keys)
}

/// The least purgeable pair of the index with this number; none where there is no such index.
fn least_at(parts: &Parts, index: IndexId) -> Option<(Value, Rid)>
    requires stands { StandsFor parts.now }
    ensures { result ≡ find (is_purgeable parts.now.head (world_of parts.now) index) (entries_of (world_of parts.now) index) }
{
    let at = index.0 as usize;
    match parts.head.indexes.get(at) {
        Some(def) => match parts.indexes.get(at) {
            Some(keys) => least_in_all(parts, index, def, keys),
            None => None,
        },
        None => None,
    }
}

/// The least purgeable pair, by index, key and rid. It looks at each pair up to that one.
pub(crate) fn least_in_parts(parts: &Parts) -> Option<(IndexId, (Value, Rid))>
    requires stands { StandsFor parts.now }
    ensures { result ≡ least_purgeable parts.now.head (world_of parts.now) }
{
    for at in 0..parts.head.indexes.len() {
        let index = IndexId(at as u8);
        if let Some(pair) = least_at(parts, index) {
            return Some((index, pair));
        }
    }
    None
}
