ghost use Rattle.std.specs.Prelude.{◌≡◌};
ghost use Rattle.iso_types.specs.Ids.{pair_eq, pair_lt};
ghost use Rattle.iso_types.specs.Value.{value_cmp, value_eq, value_lt};
ghost use Rattle.iso_key.specs.Cuts.{low_cut, passes};

use iso_types::{Edge, Rid, Value};
use std::cmp::Ordering;

/// A place between two entries, from which a search goes on.
#[derive(Clone, Copy)]
pub enum Cut {
    /// Before all entries.
    First,
    /// Before the first entry whose key is this one or above it.
    FromKey(Value),
    /// Before the first entry whose key is above this one.
    AfterKey(Value),
    /// Before the first entry that is this one or above it.
    From(Value, Rid),
    /// Before the first entry that is above this one.
    After(Value, Rid),
}

impl Cut {
    /// Before the first key that meets the low bound.
    pub fn low(edge: &Option<Edge>) -> Cut
        ensures { result ≡ low_cut edge.now }
    {
        match edge {
            None => Cut::First,
            Some(edge) => {
                if edge.inclusive {
                    Cut::FromKey(edge.value)
                } else {
                    Cut::AfterKey(edge.value)
                }
            }
        }
    }
}

/// The order of values, as `Value::compare` tells it. Two integers are compared here, so that most steps through an index make no
/// call. (This project's own.)
#[tactic(auto, unfolding(iso_types::specs::Value::value_cmp))]
pub fn compare_keys(a: &Value, b: &Value) -> Ordering
    ensures { result ≡ value_cmp a.now b.now }
{
    match (a, b) {
        (Value::Int(m), Value::Int(n)) => m.cmp(n),
        _ => a.compare(b),
    }
}

/// Whether the first value is less.
#[tactic(auto, unfolding(iso_types::specs::Value::value_lt))]
fn is_less(a: &Value, b: &Value) -> bool
    ensures { result ≡ value_lt a.now b.now }
{
    compare_keys(a, b).is_lt()
}

/// Whether the first entry is less: by key, then by rid.
fn is_below(key: &Value, rid: Rid, other: &Value, other_rid: Rid) -> bool
    ensures { result ≡ pair_lt (key.now, rid) (other.now, other_rid) }
{
    match compare_keys(key, other) {
        Ordering::Less => true,
        Ordering::Equal => rid.0 < other_rid.0,
        Ordering::Greater => false,
    }
}

/// Whether both entries are the same.
#[tactic(auto, unfolding(iso_types::specs::Value::value_eq))]
pub fn is_same(a: &(Value, Rid), key: &Value, rid: Rid) -> bool
    ensures { result ≡ pair_eq (key.now, rid) a.now }
{
    *key == a.0 && rid.0 == a.1.0
}

/// Whether the entry has the key.
#[tactic(auto, unfolding(iso_types::specs::Value::value_eq))]
pub fn has_key(entry: &(Value, Rid), key: &Value) -> bool
    ensures { result ≡ value_eq entry.now.0 key.now }
{
    entry.0 == *key
}

/// Whether the entry stands behind the cut.
pub fn passes(cut: &Cut, entry: &(Value, Rid)) -> bool
    ensures { result ≡ passes cut.now entry.now }
{
    match cut {
        Cut::First => true,
        Cut::FromKey(key) => !is_less(&entry.0, key),
        Cut::AfterKey(key) => is_less(key, &entry.0),
        Cut::From(key, rid) => !is_below(&entry.0, entry.1, key, *rid),
        Cut::After(key, rid) => is_below(key, *rid, &entry.0, entry.1),
    }
}
