//! The entry of an index where a scan comes to stand.
ghost use Rattle.std.specs.Prelude.{◌≡◌};
ghost use Rattle.iso_history.specs.Entries as pairs;
ghost use Rattle.iso_types.specs.Value.{value_eq, value_lt};
ghost use Rattle.iso_state.specs.Stands.{StandsFor, world_of};

use iso_history::Stand;
use iso_key::compare_keys;
use iso_state::Parts;
use iso_types::{Edge, IndexId, Name, Range, Rid, Value};

/// The least entry behind `after`, or at first the least one whose key meets the range's low bound; None where there is none.
pub fn find_entry(
    parts: &Parts,
    index: IndexId,
    range: &Range,
    after: &Option<(Value, Rid)>,
) -> Option<(Value, Rid)>
    requires stands { StandsFor parts.now }
    ensures { result ≡ pairs.found (world_of parts.now) index range.now after.now }
{
    let entries = parts.indexes.get(index.0 as usize)?;
    match after {
        Some(at) => entries.next_after(*at),
        None => entries.first_from(range.low),
    }
}

#[tactic(auto, unfolding(iso_types::specs::Value::value_lt))]
fn is_less(a: &Value, b: &Value) -> bool
    ensures { result ≡ value_lt a.now b.now }
{
    compare_keys(a, b).is_lt()
}

#[tactic(auto, unfolding(iso_types::specs::Value::value_eq))]
fn is_same(a: &Value, b: &Value) -> bool
    ensures { result ≡ value_eq a.now b.now }
{
    *a == *b
}

/// Whether the key is not below the range.
fn meets_low(low: &Option<Edge>, key: &Value) -> bool
    ensures { result ≡ pairs.meets_low low.now key.now }
{
    match low {
        Some(edge) => { is_less(&edge.value, key) || (edge.inclusive && is_same(&edge.value, key)) }
        None => true,
    }
}

/// Whether the key is not above the range.
fn meets_high(high: &Option<Edge>, key: &Value) -> bool
    ensures { result ≡ pairs.meets_high high.now key.now }
{
    match high {
        Some(edge) => { is_less(key, &edge.value) || (edge.inclusive && is_same(&edge.value, key)) }
        None => true,
    }
}

/// Where a scan of the range stands that has found this entry.
pub fn stand_at(range: &Range, found: &Option<(Value, Rid)>) -> Stand
    ensures { result ≡ pairs.stand_of range.now found.now }
{
    match found {
        Some(entry) => {
            if meets_low(&range.low, &entry.0) && meets_high(&range.high, &entry.0) {
                Stand::At(entry.0, entry.1)
            } else {
                Stand::Past
            }
        }
        None => Stand::Past,
    }
}

/// The lock name of the entry that was found: its key, or the end of the index.
pub fn key_name(index: IndexId, found: &Option<(Value, Rid)>) -> Name
    ensures { result ≡ pairs.key_name index found.now }
{
    match found {
        Some(entry) => Name::Key(index, entry.0),
        None => Name::End(index),
    }
}
