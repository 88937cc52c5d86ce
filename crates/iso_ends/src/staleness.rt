//! Stale pairs: those that a purge may take once nobody uses their key's name.

ghost use Rattle.std.specs.Prelude.{◌≡◌, ◌<◌, find, false, is_some, length, slice_get, None, Some};
ghost use Rattle.iso_ends.specs.Purges.{NoneStale, TablesThere, any_stale, is_stale_at as stale_at, may_ripen};
ghost use Rattle.iso_history.specs.After.{after};
ghost use Rattle.iso_history.specs.Entries.{entries_of, least_purgeable};
ghost use Rattle.iso_history.specs.Legal.{Allowed};
ghost use Rattle.iso_history.specs.Orders.{IsOrdered};
ghost use Rattle.iso_history.specs.World.{World};
ghost use Rattle.iso_history.specs.declared.entry.Entry.{Entry};
ghost use Rattle.iso_key.specs.Pages.{entries};
ghost use Rattle.iso_state.specs.Stands.{StandsFor, content_of, world_of};
ghost use Rattle.iso_types.specs.declared.head.Head.{Head};

use crate::purging::is_stale;
use iso_key::KeyIndex;
use iso_state::Parts;
use iso_types::{IndexDef, IndexId, Rid, Value};

/// Where no pair is stale, none is after an entry that neither commits nor undoes: a slot that is changed has a pending version.
pub fn pairs_stay_fresh()
    ensures { (head : Head) (w : World) (e : Entry) → Allowed head w e → TablesThere head w → may_ripen e.act ≡ false → NoneStale head w
        → NoneStale head (after head w e) }
{}

/// Where no pair is stale, none is purgeable.
pub fn no_fresh_pair_is_purged()
    ensures { (head : Head) (w : World) → any_stale head w ≡ false → (NoneStale head w) × (least_purgeable head w ≡ None) }
{}

/// Whether the pair is stale.
fn is_stale_pair(parts: &Parts, index: IndexId, def: &IndexDef, pair: &(Value, Rid)) -> bool
    requires stands { StandsFor parts.now }
    requires def { slice_get parts.now.head.indexes index.0 ≡ Some def.now }
    ensures { result ≡ stale_at parts.now.head (world_of parts.now) index pair.now }
{
    is_stale(parts, index, def, pair)
}

/// Whether one of these pairs is stale. It looks at the pairs up to that one, each found by halving, and at their slots.
fn walk_stale(parts: &Parts, index: IndexId, def: &IndexDef, keys: &KeyIndex) -> bool
    requires stands { StandsFor parts.now }
    requires def { slice_get parts.now.head.indexes index.0 ≡ Some def.now }
    requires ordered { IsOrdered (entries keys.now) }
    ensures { result ≡ is_some (find (stale_at parts.now.head (world_of parts.now) index) (entries keys.now)) }
{
    let mut next = keys.first_from(None);
    while let Some(pair) = next {
        if is_stale_pair(parts, index, def, &pair) {
            return true;
        }
        next = keys.next_after(pair);
    }
    false
}

/// Whether a pair of the page is stale.
fn has_stale_page(parts: &Parts, index: IndexId, def: &IndexDef, page: &[(Value, Rid)]) -> bool
    requires stands { StandsFor parts.now }
    requires def { slice_get parts.now.head.indexes index.0 ≡ Some def.now }
    ensures { result ≡ is_some (find (stale_at parts.now.head (world_of parts.now) index) page.now) }
{
    for pair in page {
        if is_stale_pair(parts, index, def, pair) {
            return true;
        }
    }
    false
}

/// Whether a pair of a set, whose pairs are in order, is stale in the index. It looks at its pairs up to that one, page by page, and
/// at their slots. (This project's own.)
pub(crate) fn has_stale_pair(parts: &Parts, index: IndexId, def: &IndexDef, keys: &KeyIndex) -> bool
    requires stands { StandsFor parts.now }
    requires def { slice_get parts.now.head.indexes index.0 ≡ Some def.now }
    requires ordered { IsOrdered (entries keys.now) }
    ensures { result ≡ is_some (find (stale_at parts.now.head (world_of parts.now) index) (entries keys.now)) }
{
    let mut at: usize = 0;
    while let Some(page) = keys.page(at) {
        if has_stale_page(parts, index, def, page) {
            return true;
        }
        match at.checked_add(1) {
            Some(next) => at = next,
            None => return walk_stale(parts, index, def, keys),
        }
    }
    false
}
