//! How far it is known that no connections wait for each other in a circle: so far no circle has to be sought.

ghost use Rattle.std.specs.Prelude.{◌≡◌, true, false, is_some, Some, None};
ghost use Rattle.iso_director.specs.Untied.{WasAcyclic, may_tie};
ghost use Rattle.iso_history.specs.After.{after};
ghost use Rattle.iso_history.specs.Facts.{WaitersOpen};
ghost use Rattle.iso_history.specs.Legal.{Allowed};
ghost use Rattle.iso_history.specs.Quiet.{cycle_in};
ghost use Rattle.iso_history.specs.World.{World};
ghost use Rattle.iso_history.specs.declared.entry.Entry.{Entry as Made};
ghost use Rattle.iso_state.specs.Stands.{StandsFor, world_of};
ghost use Rattle.iso_types.specs.declared.head.Head.{Head};

use crate::director::Director;
use iso_history::{Act, Entry, Got, Stand};
use iso_pace::cyclic;
use iso_state::Parts;

/// Where no connections wait for each other in a circle, none do after an entry by which its maker does not queue: it brings no
/// edges but to its maker, who does not wait then, and a circle runs over connections that wait.
pub fn stays_acyclic()
    ensures { (head : Head) (w : World) (e : Made) → Allowed head w e → WaitersOpen w → may_tie e.act ≡ false → cycle_in head w ≡ None
        → cycle_in head (after head w e) ≡ None }
{}

/// Whether connections may wait in a circle after the entry that did not before it: its maker waits.
fn ties(entry: &Entry) -> bool
    ensures { result ≡ may_tie entry.now.act }
{
    match &entry.act {
        Act::Lock {
            got: Got::Queued(_),
            ..
        }
        | Act::Look {
            got: Got::Queued(_),
            ..
        } => true,
        Act::Next { got, .. } => match got.get() {
            Stand::Queued(_) => true,
            _ => false,
        },
        _ => false,
    }
}

/// Up to which entry there was no circle, where there was none at this one: the next that queues, or the end. It looks at the
/// entries between.
fn untied_until(parts: &Parts, start: usize) -> usize
    requires stands { StandsFor parts.now }
    requires acyclic { WasAcyclic parts.now.head parts.now.history.items (Some start) }
    ensures { WasAcyclic parts.now.head parts.now.history.items (Some result) }
{
    let entries = parts.history.as_slice();
    for at in start..entries.len() {
        if ties(&entries[at]) {
            return at;
        }
    }
    entries.len()
}

impl Director {
    /// Whether it is known that there is no circle, without a search.
    fn knows_acyclic(&mut self, parts: &Parts) -> bool
        requires stands { StandsFor parts.now }
        requires acyclic { WasAcyclic parts.now.head parts.now.history.items self.old.acyclic }
        ensures acyclic { WasAcyclic parts.now.head parts.now.history.items self.new.acyclic }
        ensures taken { self.new.taken ≡ self.old.taken }
        ensures doubts { self.new.doubts ≡ self.old.doubts }
        ensures none { result ≡ true → cycle_in parts.now.head (world_of parts.now) ≡ None }
    {
        match self.acyclic {
            Some(start) => {
                let at = untied_until(parts, start);
                self.acyclic = Some(at);
                at == parts.history.len()
            }
            None => false,
        }
    }

    /// Whether some connections wait for each other in a circle. One is sought, as by `cyclic`, only where an entry has queued since
    /// there was none.
    pub(crate) fn is_cyclic(&mut self, parts: &Parts) -> bool
        requires stands { StandsFor parts.now }
        requires acyclic { WasAcyclic parts.now.head parts.now.history.items self.old.acyclic }
        ensures acyclic { WasAcyclic parts.now.head parts.now.history.items self.new.acyclic }
        ensures taken { self.new.taken ≡ self.old.taken }
        ensures doubts { self.new.doubts ≡ self.old.doubts }
        ensures answer { result ≡ is_some (cycle_in parts.now.head (world_of parts.now)) }
    {
        if self.knows_acyclic(parts) {
            return false;
        }
        if cyclic(parts) {
            return true;
        }
        self.acyclic = Some(parts.history.len());
        false
    }
}
