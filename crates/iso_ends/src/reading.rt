//! A doubt is brought up to the last entry, or made anew.

ghost use Rattle.std.specs.Prelude.{◌≡◌, [], true, length, slice_get, Some, None, OnOk};
ghost use Rattle.iso_ends.specs.Doubts.{IsDoubt, IsKnown, IsNext, WasKnown, known_of};
ghost use Rattle.iso_history.specs.Entries.{entries_of};
ghost use Rattle.iso_key.specs.Pages.{entries};
ghost use Rattle.iso_state.specs.Stands.{StandsFor, world_of};

use crate::doubt::{Doubt, read_entry};
use crate::parking::free;
use crate::settling::{fill, sweep};
use iso_history::Entry;
use iso_key::KeyIndex;
use iso_state::Parts;
use iso_types::{Edges, IndexDef, IndexId, Items, Memory};
use std::alloc::Global;

/// A doubt that knows nothing.
pub(crate) fn unknown(alloc: Global) -> Doubt
    ensures read { result.read ≡ None }
{
    Doubt {
        read: None,
        pairs: KeyIndex::new(alloc),
        keys: Items::new(alloc),
        parked: KeyIndex::new(alloc),
        by: Edges::none(),
        swept: None,
    }
}

/// Reads the next entry.
fn read_next(doubt: &mut Doubt, index: IndexId, def: &IndexDef, entry: &Entry) -> Result<(), Memory>
    ensures { OnOk result (IsNext index def.now entry.now (known_of doubt.old) (known_of doubt.new)) }
{
    free(doubt, entry)?;
    read_entry(doubt, index, def, entry)?;
    Ok(())
}

/// Reads the entries from this one on.
fn read_on(
    doubt: &mut Doubt,
    parts: &Parts,
    index: IndexId,
    def: &IndexDef,
    start: usize,
) -> Result<(), Memory>
    requires stands { StandsFor parts.now }
    requires def { slice_get parts.now.head.indexes index.0 ≡ Some def.now }
    requires known { WasKnown parts.now.head parts.now.history.items index (known_of doubt.old) start }
    ensures { OnOk result (IsKnown parts.now.head (world_of parts.now) index (known_of doubt.new)) }
{
    let entries = parts.history.as_slice();
    for at in start..entries.len() {
        read_next(doubt, index, def, &entries[at])?;
    }
    Ok(())
}

/// Makes a doubt of all pairs of the index. It looks at each of them.
fn begin(
    alloc: Global,
    doubt: &mut Doubt,
    parts: &Parts,
    index: IndexId,
    def: &IndexDef,
    keys: &KeyIndex,
) -> Result<(), Memory>
    requires stands { StandsFor parts.now }
    requires def { slice_get parts.now.head.indexes index.0 ≡ Some def.now }
    requires keys { entries keys.now ≡ entries_of (world_of parts.now) index }
    ensures { OnOk result (IsKnown parts.now.head (world_of parts.now) index (known_of doubt.new)) }
{
    doubt.pairs = KeyIndex::new(alloc);
    doubt.keys = Items::new(alloc);
    doubt.parked = KeyIndex::new(alloc);
    fill(doubt, parts, index, def, keys)
}

/// Brings a doubt up to the last entry, where it knew some, or makes it anew; `Memory` where it can't be.
fn bring(
    alloc: Global,
    doubt: &mut Doubt,
    parts: &Parts,
    index: IndexId,
    def: &IndexDef,
    keys: &KeyIndex,
) -> Result<(), Memory>
    requires stands { StandsFor parts.now }
    requires def { slice_get parts.now.head.indexes index.0 ≡ Some def.now }
    requires keys { entries keys.now ≡ entries_of (world_of parts.now) index }
    requires known { IsDoubt parts.now.head parts.now.history.items index doubt.old }
    ensures { OnOk result (IsKnown parts.now.head (world_of parts.now) index (known_of doubt.new)) }
{
    match doubt.read {
        Some(start) => read_on(doubt, parts, index, def, start),
        None => begin(alloc, doubt, parts, index, def, keys),
    }
}

/// How many doubtful pairs are looked at whether they are calm or can be parked: twice as many as entries are read.
fn some(doubt: &Doubt, parts: &Parts) -> usize {
    match doubt.read {
        Some(start) => 2 * parts.history.len().saturating_sub(start).min(1000000),
        None => 0,
    }
}

/// Brings a doubt up to the last entry, and takes some pairs out that are calm or can be parked; false where there is no memory for it, and nothing
/// is known then. It looks at each entry once; where nothing was known at all pairs of the index.
pub(crate) fn update(
    alloc: Global,
    doubt: &mut Doubt,
    parts: &Parts,
    index: IndexId,
    def: &IndexDef,
    keys: &KeyIndex,
) -> bool
    requires stands { StandsFor parts.now }
    requires def { slice_get parts.now.head.indexes index.0 ≡ Some def.now }
    requires keys { entries keys.now ≡ entries_of (world_of parts.now) index }
    requires known { IsDoubt parts.now.head parts.now.history.items index doubt.old }
    ensures doubt { IsDoubt parts.now.head parts.now.history.items index doubt.new }
    ensures known { result ≡ true → IsKnown parts.now.head (world_of parts.now) index (known_of doubt.new) }
{
    let more = some(doubt, parts);
    match bring(alloc, doubt, parts, index, def, keys) {
        Ok(()) => {
            sweep(doubt, parts, index, def, more);
            doubt.read = Some(parts.history.len());
            true
        }
        Err(_) => {
            doubt.read = None;
            false
        }
    }
}
