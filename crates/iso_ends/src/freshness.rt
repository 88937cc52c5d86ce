//! How far it is known that no pair of an index is stale: so far nothing is purgeable, and no pair has to be looked at.

ghost use Rattle.std.specs.Prelude.{◌≡◌, ◌≤◌, length, Some};
ghost use Rattle.iso_ends.specs.Freshness.{WasFresh};
ghost use Rattle.iso_ends.specs.Purges.{may_ripen};
ghost use Rattle.iso_state.specs.Stands.{StandsFor, content_of};

use iso_history::{Act, Entry};
use iso_state::Parts;

/// Whether a pair may be stale after the entry that was not before it.
fn ripens(entry: &Entry) -> bool
    ensures { result ≡ may_ripen entry.now.act }
{
    match &entry.act {
        Act::Commit => true,
        Act::Undo { .. } => true,
        _ => false,
    }
}

/// Up to which entry no pair is stale, where none was at this one: the next that commits or undoes, or the end. It looks at
/// the entries between.
pub(crate) fn fresh_until(parts: &Parts, start: usize) -> usize
    requires stands { StandsFor parts.now }
    requires fresh { WasFresh parts.now.head parts.now.history.items (Some start) }
    ensures { WasFresh parts.now.head parts.now.history.items (Some result) }
{
    let entries = parts.history.as_slice();
    for at in start..entries.len() {
        if ripens(&entries[at]) {
            return at;
        }
    }
    entries.len()
}
