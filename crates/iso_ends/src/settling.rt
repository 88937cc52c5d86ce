//! Calm pairs: their keys are kept at their rids, and they are doubtful no more. Those that are not calm may be parked.

ghost use Rattle.std.specs.Prelude.{◌≡◌, ◌<◌, true, List, ◌∷◌, [], length, slice_get, Some, OnOk, IfSome};
ghost use Rattle.iso_ends.specs.Doubts.{IsKnown, kept_at, known_of};
ghost use Rattle.iso_ends.specs.Filling.{IsFilled, Keeps};
ghost use Rattle.iso_ends.specs.Purges.{is_calm as calm};
ghost use Rattle.iso_history.specs.Entries.{entries_of};
ghost use Rattle.iso_history.specs.Orders.{has_pair};
ghost use Rattle.iso_history.specs.Versions.{versions};
ghost use Rattle.iso_key.specs.Pages.{entries};
ghost use Rattle.iso_state.specs.Stands.{StandsFor, world_of};
ghost use Rattle.iso_types.specs.declared.value.Rid.{Rid as Slot};
ghost use Rattle.iso_types.specs.declared.value.Value.{Value as Key};

use crate::doubt::{Doubt, add};
use crate::parking::park;
use crate::purging::is_calm;
use iso_key::KeyIndex;
use iso_state::Parts;
use iso_types::{IndexDef, IndexId, Items, Memory, Rid, Value};

/// Makes room for a key at a place; false where there is no memory for it. It takes a step for each place that is added.
fn widen(keys: &mut Items<Option<Value>>, at: usize) -> bool
    ensures same { (r : Slot) → kept_at keys.new r ≡ kept_at keys.old r }
    ensures room { result ≡ true → at < length keys.new }
{
    'places: while keys.len() <= at {
        match keys.push(None) {
            Ok(()) => {}
            Err(_) => return false,
        }
    }
    true
}

/// Keeps the key at its rid; false where one is kept there already, or there is no memory.
fn keep(keys: &mut Items<Option<Value>>, key: &Value, rid: Rid) -> bool
    ensures { Keeps keys.old keys.new rid key.now result }
{
    let at = rid.0 as usize;
    if !widen(keys, at) {
        return false;
    }
    if keys.as_slice()[at].is_some() {
        return false;
    }
    *keys.item_mut(at) = Some(*key);
    true
}

/// Keeps the key of a pair, where the pair is calm; whether it is kept.
fn settle(
    keys: &mut Items<Option<Value>>,
    parts: &Parts,
    index: IndexId,
    def: &IndexDef,
    pair: &(Value, Rid),
) -> bool
    requires stands { StandsFor parts.now }
    requires def { slice_get parts.now.head.indexes index.0 ≡ Some def.now }
    ensures keeps { Keeps keys.old keys.new pair.now.1 pair.now.0 result }
    ensures calm { result ≡ true → calm parts.now.head index pair.now.0 (versions (world_of parts.now) def.now.table pair.now.1) ≡ true }
{
    if is_calm(parts, index, def, pair) {
        return keep(keys, &pair.0, pair.1);
    }
    false
}

/// Takes a pair of the index into the doubt: its key where it is calm, else the pair.
fn take_in(
    doubt: &mut Doubt,
    parts: &Parts,
    index: IndexId,
    def: &IndexDef,
    pair: &(Value, Rid),
) -> Result<(), Memory>
    requires stands { StandsFor parts.now }
    requires def { slice_get parts.now.head.indexes index.0 ≡ Some def.now }
    requires there { has_pair (entries_of (world_of parts.now) index) pair.now ≡ true }
    ensures { OnOk result ((left : List (Key × Slot)) → IsFilled parts.now.head (world_of parts.now) index (known_of doubt.old) (pair.now ∷ left)
        → IsFilled parts.now.head (world_of parts.now) index (known_of doubt.new) left) }
{
    if settle(&mut doubt.keys, parts, index, def, pair) {
        return Ok(());
    }
    add(&mut doubt.pairs, &pair.0, pair.1)?;
    Ok(())
}

/// Takes all pairs of the index into a doubt that is empty. It finds each by halving, and looks at its slot.
pub(crate) fn fill(
    doubt: &mut Doubt,
    parts: &Parts,
    index: IndexId,
    def: &IndexDef,
    keys: &KeyIndex,
) -> Result<(), Memory>
    requires stands { StandsFor parts.now }
    requires def { slice_get parts.now.head.indexes index.0 ≡ Some def.now }
    requires keys { entries keys.now ≡ entries_of (world_of parts.now) index }
    requires empty { entries doubt.old.pairs ≡ [] }
    requires none { doubt.old.keys ≡ [] }
    requires free { entries doubt.old.parked ≡ [] }
    ensures { OnOk result (IsKnown parts.now.head (world_of parts.now) index (known_of doubt.new)) }
{
    let mut next = keys.first_from(None);
    while let Some(pair) = next {
        take_in(doubt, parts, index, def, &pair)?;
        next = keys.next_after(pair);
    }
    Ok(())
}

/// Takes a doubtful pair out of the doubtful ones where it is calm, and keeps its key, or where it can be parked; whether it did.
fn calm_down(
    doubt: &mut Doubt,
    parts: &Parts,
    index: IndexId,
    def: &IndexDef,
    pair: &(Value, Rid),
) -> bool
    requires stands { StandsFor parts.now }
    requires def { slice_get parts.now.head.indexes index.0 ≡ Some def.now }
    requires there { has_pair (entries doubt.old.pairs) pair.now ≡ true }
    requires known { IsKnown parts.now.head (world_of parts.now) index (known_of doubt.old) }
    ensures { IsKnown parts.now.head (world_of parts.now) index (known_of doubt.new) }
{
    if settle(&mut doubt.keys, parts, index, def, pair) {
        doubt.pairs.remove(pair.0, pair.1);
        return true;
    }
    park(doubt, parts, index, def, pair)
}

/// The next doubtful pair that is looked at: the first, or the one behind the last that was.
fn next_swept(doubt: &Doubt) -> Option<(Value, Rid)>
    ensures { IfSome result (λ p. has_pair (entries doubt.now.pairs) p ≡ true) }
{
    match &doubt.swept {
        Some(at) => doubt.pairs.next_after(*at),
        None => doubt.pairs.first_from(None),
    }
}

/// Looks at a doubtful pair, and takes it out where it is calm or can be parked; whether it did.
fn sweep_pair(
    doubt: &mut Doubt,
    parts: &Parts,
    index: IndexId,
    def: &IndexDef,
    pair: &(Value, Rid),
) -> bool
    requires stands { StandsFor parts.now }
    requires def { slice_get parts.now.head.indexes index.0 ≡ Some def.now }
    requires there { has_pair (entries doubt.old.pairs) pair.now ≡ true }
    requires known { IsKnown parts.now.head (world_of parts.now) index (known_of doubt.old) }
    ensures { IsKnown parts.now.head (world_of parts.now) index (known_of doubt.new) }
{
    doubt.swept = Some(*pair);
    calm_down(doubt, parts, index, def, pair)
}

/// Looks at so many doubtful pairs, behind the last that was looked at and up to their end, and at two more for each that it takes
/// out: one that is calm, or can be parked.
pub(crate) fn sweep(doubt: &mut Doubt, parts: &Parts, index: IndexId, def: &IndexDef, some: usize)
    requires stands { StandsFor parts.now }
    requires def { slice_get parts.now.head.indexes index.0 ≡ Some def.now }
    requires known { IsKnown parts.now.head (world_of parts.now) index (known_of doubt.old) }
    ensures { IsKnown parts.now.head (world_of parts.now) index (known_of doubt.new) }
{
    let mut left = some;
    for _ in 0..u32::MAX {
        if left == 0 {
            return;
        }
        match next_swept(doubt) {
            Some(pair) => {
                if sweep_pair(doubt, parts, index, def, &pair) {
                    left = left.saturating_add(1);
                } else {
                    left -= 1;
                }
            }
            None => {
                doubt.swept = None;
                return;
            }
        }
    }
}
