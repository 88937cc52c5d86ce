//! The doubts of all indexes: the least purgeable pair, and whether a pair is stale, are sought among the doubtful ones.

ghost use Rattle.std.specs.Prelude.{◌≡◌, List, [], find, is_some, slice_get, false, true, None, Some};
ghost use Rattle.iso_ends.specs.Doubts.{AreDoubts, AreKept, IsDoubt, IsKnown, known_of};
ghost use Rattle.iso_ends.specs.Purges.{any_stale, is_stale_at};
ghost use Rattle.iso_history.specs.Entries.{entries_of, is_purgeable, least_purgeable};
ghost use Rattle.iso_history.specs.declared.entry.Entry.{Entry};
ghost use Rattle.iso_key.specs.Pages.{entries};
ghost use Rattle.iso_state.specs.Stands.{StandsFor, world_of};
ghost use Rattle.iso_types.specs.declared.head.Head.{Head};

use crate::doubt::Doubt;
use crate::freshness::fresh_until;
use crate::purging::first_purgeable;
use crate::reading::{unknown, update};
use crate::staleness::has_stale_pair;
use crate::walking::least_in_all;
use iso_key::KeyIndex;
use iso_state::Parts;
use iso_types::{IndexDef, IndexId, Items, Rid, Value};
use std::alloc::Global;

/// What is known of the pairs of all indexes: `sets` has a doubt for each index, or for the first of them where there was no
/// memory for more; `fresh` is how many entries had been made when no pair was stale, where that is known. (This project's own.)
#[derive(Drop)]
pub struct Doubts {
    pub alloc: Global,
    pub sets: Items<Doubt>,
    pub fresh: Option<usize>,
}

/// Adds a doubt that knows nothing for each index that has none, as far as there is memory.
fn widen(alloc: Global, sets: &mut Items<Doubt>, parts: &Parts)
    requires { AreDoubts parts.now.head parts.now.history.items sets.old }
    ensures { AreDoubts parts.now.head parts.now.history.items sets.new }
{
    'sets: while sets.len() < parts.head.indexes.len() {
        match sets.push(unknown(alloc)) {
            Ok(()) => {}
            Err(_) => return,
        }
    }
}

/// The least purgeable pair of an index, among the doubtful ones.
fn least_doubtful(
    doubt: &Doubt,
    parts: &Parts,
    index: IndexId,
    def: &IndexDef,
) -> Option<(Value, Rid)>
    requires stands { StandsFor parts.now }
    requires def { slice_get parts.now.head.indexes index.0 ≡ Some def.now }
    requires known { IsKnown parts.now.head (world_of parts.now) index (known_of doubt.now) }
    ensures { result ≡ find (is_purgeable parts.now.head (world_of parts.now) index) (entries_of (world_of parts.now) index) }
{
    first_purgeable(parts, index, def, &doubt.pairs)
}

/// The least purgeable pair of an index: among the doubtful ones, or among all where nothing is known.
fn least_by(
    alloc: Global,
    doubt: &mut Doubt,
    parts: &Parts,
    index: IndexId,
    def: &IndexDef,
    keys: &KeyIndex,
) -> Option<(Value, Rid)>
    requires stands { StandsFor parts.now }
    requires def { slice_get parts.now.head.indexes index.0 ≡ Some def.now }
    requires keys { entries keys.now ≡ entries_of (world_of parts.now) index }
    requires known { IsDoubt parts.now.head parts.now.history.items index doubt.old }
    ensures doubt { IsDoubt parts.now.head parts.now.history.items index doubt.new }
    ensures least { result ≡ find (is_purgeable parts.now.head (world_of parts.now) index) (entries_of (world_of parts.now) index) }
{
    if update(alloc, doubt, parts, index, def, keys) {
        return least_doubtful(doubt, parts, index, def);
    }
    least_in_all(parts, index, def, keys)
}

/// Whether a pair is parked.
fn has_parked(doubt: &Doubt) -> bool
    ensures { result ≡ false → entries doubt.now.parked ≡ [] }
{
    doubt.parked.first_from(None).is_some()
}

/// Whether a pair of the index is stale, among all.
fn is_stale_in_all(parts: &Parts, index: IndexId, def: &IndexDef, keys: &KeyIndex) -> bool
    requires stands { StandsFor parts.now }
    requires def { slice_get parts.now.head.indexes index.0 ≡ Some def.now }
    requires keys { entries keys.now ≡ entries_of (world_of parts.now) index }
    ensures { result ≡ is_some (find (is_stale_at parts.now.head (world_of parts.now) index) (entries_of (world_of parts.now) index)) }
{
    has_stale_pair(parts, index, def, keys)
}

/// Whether a pair of the index may be stale: one is parked, or one of the doubtful is stale.
fn may_be_stale_doubtful(doubt: &Doubt, parts: &Parts, index: IndexId, def: &IndexDef) -> bool
    requires stands { StandsFor parts.now }
    requires def { slice_get parts.now.head.indexes index.0 ≡ Some def.now }
    requires known { IsKnown parts.now.head (world_of parts.now) index (known_of doubt.now) }
    ensures { result ≡ false → is_some (find (is_stale_at parts.now.head (world_of parts.now) index) (entries_of (world_of parts.now) index)) ≡ false }
{
    if has_parked(doubt) {
        return true;
    }
    has_stale_pair(parts, index, def, &doubt.pairs)
}

/// Whether a pair of an index may be stale: one is parked, or one of the doubtful is stale; or one of all where nothing is known.
fn may_be_stale_by(
    alloc: Global,
    doubt: &mut Doubt,
    parts: &Parts,
    index: IndexId,
    def: &IndexDef,
    keys: &KeyIndex,
) -> bool
    requires stands { StandsFor parts.now }
    requires def { slice_get parts.now.head.indexes index.0 ≡ Some def.now }
    requires keys { entries keys.now ≡ entries_of (world_of parts.now) index }
    requires known { IsDoubt parts.now.head parts.now.history.items index doubt.old }
    ensures doubt { IsDoubt parts.now.head parts.now.history.items index doubt.new }
    ensures fresh { result ≡ false → is_some (find (is_stale_at parts.now.head (world_of parts.now) index) (entries_of (world_of parts.now) index)) ≡ false }
{
    if update(alloc, doubt, parts, index, def, keys) {
        return may_be_stale_doubtful(doubt, parts, index, def);
    }
    is_stale_in_all(parts, index, def, keys)
}

/// The least purgeable pair of an index, by its doubt where it has one.
fn least_in(
    alloc: Global,
    sets: &mut Items<Doubt>,
    parts: &Parts,
    index: IndexId,
    def: &IndexDef,
    keys: &KeyIndex,
) -> Option<(Value, Rid)>
    requires stands { StandsFor parts.now }
    requires def { slice_get parts.now.head.indexes index.0 ≡ Some def.now }
    requires keys { entries keys.now ≡ entries_of (world_of parts.now) index }
    requires known { AreDoubts parts.now.head parts.now.history.items sets.old }
    ensures known { AreDoubts parts.now.head parts.now.history.items sets.new }
    ensures least { result ≡ find (is_purgeable parts.now.head (world_of parts.now) index) (entries_of (world_of parts.now) index) }
{
    let at = index.0 as usize;
    if at < sets.len() {
        return least_by(alloc, sets.item_mut(at), parts, index, def, keys);
    }
    least_in_all(parts, index, def, keys)
}

/// Whether a pair of an index may be stale, by its doubt where it has one.
fn may_be_stale_in(
    alloc: Global,
    sets: &mut Items<Doubt>,
    parts: &Parts,
    index: IndexId,
    def: &IndexDef,
    keys: &KeyIndex,
) -> bool
    requires stands { StandsFor parts.now }
    requires def { slice_get parts.now.head.indexes index.0 ≡ Some def.now }
    requires keys { entries keys.now ≡ entries_of (world_of parts.now) index }
    requires known { AreDoubts parts.now.head parts.now.history.items sets.old }
    ensures known { AreDoubts parts.now.head parts.now.history.items sets.new }
    ensures fresh { result ≡ false → is_some (find (is_stale_at parts.now.head (world_of parts.now) index) (entries_of (world_of parts.now) index)) ≡ false }
{
    let at = index.0 as usize;
    if at < sets.len() {
        return may_be_stale_by(alloc, sets.item_mut(at), parts, index, def, keys);
    }
    is_stale_in_all(parts, index, def, keys)
}

/// The least purgeable pair of the index with this number; none where there is no such index.
fn least_of(
    alloc: Global,
    sets: &mut Items<Doubt>,
    parts: &Parts,
    index: IndexId,
) -> Option<(Value, Rid)>
    requires stands { StandsFor parts.now }
    requires known { AreDoubts parts.now.head parts.now.history.items sets.old }
    ensures known { AreDoubts parts.now.head parts.now.history.items sets.new }
    ensures least { result ≡ find (is_purgeable parts.now.head (world_of parts.now) index) (entries_of (world_of parts.now) index) }
{
    let at = index.0 as usize;
    match parts.head.indexes.get(at) {
        Some(def) => match parts.indexes.get(at) {
            Some(keys) => least_in(alloc, sets, parts, index, def, keys),
            None => None,
        },
        None => None,
    }
}

/// Whether a pair of the index with this number may be stale; none is where there is no such index.
fn may_be_stale_of(alloc: Global, sets: &mut Items<Doubt>, parts: &Parts, index: IndexId) -> bool
    requires stands { StandsFor parts.now }
    requires known { AreDoubts parts.now.head parts.now.history.items sets.old }
    ensures known { AreDoubts parts.now.head parts.now.history.items sets.new }
    ensures fresh { result ≡ false → is_some (find (is_stale_at parts.now.head (world_of parts.now) index) (entries_of (world_of parts.now) index)) ≡ false }
{
    let at = index.0 as usize;
    match parts.head.indexes.get(at) {
        Some(def) => match parts.indexes.get(at) {
            Some(keys) => may_be_stale_in(alloc, sets, parts, index, def, keys),
            None => false,
        },
        None => false,
    }
}

/// The least purgeable pair, by index, key and rid.
fn least(alloc: Global, sets: &mut Items<Doubt>, parts: &Parts) -> Option<(IndexId, (Value, Rid))>
    requires stands { StandsFor parts.now }
    requires known { AreDoubts parts.now.head parts.now.history.items sets.old }
    ensures known { AreDoubts parts.now.head parts.now.history.items sets.new }
    ensures least { result ≡ least_purgeable parts.now.head (world_of parts.now) }
{
    for at in 0..parts.head.indexes.len() {
        let index = IndexId(at as u8);
        if let Some(pair) = least_of(alloc, sets, parts, index) {
            return Some((index, pair));
        }
    }
    None
}

/// Whether a pair of an index may be stale.
fn may_be_stale(alloc: Global, sets: &mut Items<Doubt>, parts: &Parts) -> bool
    requires stands { StandsFor parts.now }
    requires known { AreDoubts parts.now.head parts.now.history.items sets.old }
    ensures known { AreDoubts parts.now.head parts.now.history.items sets.new }
    ensures fresh { result ≡ false → any_stale parts.now.head (world_of parts.now) ≡ false }
{
    for at in 0..parts.head.indexes.len() {
        if may_be_stale_of(alloc, sets, parts, IndexId(at as u8)) {
            return true;
        }
    }
    false
}

impl Doubts {
    /// Nothing is known of any pair.
    pub fn new(alloc: Global) -> Doubts
        ensures { (head : Head) (es : List Entry) → AreKept head es result }
    {
        Doubts {
            alloc,
            sets: Items::new(alloc),
            fresh: None,
        }
    }

    /// Whether it is known that no pair is stale, without a look at any pair.
    fn knows_fresh(&mut self, parts: &Parts) -> bool
        requires stands { StandsFor parts.now }
        requires kept { AreKept parts.now.head parts.now.history.items self.old }
        ensures kept { AreKept parts.now.head parts.now.history.items self.new }
        ensures none { result ≡ true → least_purgeable parts.now.head (world_of parts.now) ≡ None }
    {
        match self.fresh {
            Some(start) => {
                let at = fresh_until(parts, start);
                self.fresh = Some(at);
                at == parts.history.len()
            }
            None => false,
        }
    }

    /// Whether it is known that no pair is stale. Pairs are looked at only where that is not known yet, or where an entry has
    /// committed or undone since, and then those that may be stale.
    fn is_fresh(&mut self, parts: &Parts) -> bool
        requires stands { StandsFor parts.now }
        requires kept { AreKept parts.now.head parts.now.history.items self.old }
        ensures kept { AreKept parts.now.head parts.now.history.items self.new }
        ensures none { result ≡ true → least_purgeable parts.now.head (world_of parts.now) ≡ None }
    {
        if self.knows_fresh(parts) {
            return true;
        }
        widen(self.alloc, &mut self.sets, parts);
        if may_be_stale(self.alloc, &mut self.sets, parts) {
            return false;
        }
        self.fresh = Some(parts.history.len());
        true
    }

    /// The least purgeable pair, by index, key and rid. It reads each entry of the history once for each index, and once more;
    /// where none has committed or undone since no pair was stale it looks at no pair, else at the doubtful pairs of each index up
    /// to the least purgeable one: those of rows that were changed since they were seen to have their keys, but for those whose
    /// keys' names are held to the end of a unit. Such a pair is looked at once, and once more behind each end of that unit. Where
    /// there is no memory for what is kept of an index it looks at all of its pairs. (This project's own.)
    pub fn least(&mut self, parts: &Parts) -> Option<(IndexId, (Value, Rid))>
        requires stands { StandsFor parts.now }
        requires kept { AreKept parts.now.head parts.now.history.items self.old }
        ensures kept { AreKept parts.now.head parts.now.history.items self.new }
        ensures least { result ≡ least_purgeable parts.now.head (world_of parts.now) }
    {
        if self.is_fresh(parts) {
            return None;
        }
        least(self.alloc, &mut self.sets, parts)
    }
}
