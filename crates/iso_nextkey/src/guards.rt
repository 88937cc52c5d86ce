ghost use Rattle.std.specs.Prelude.{List, ◌≡◌, if◌then◌else◌, Some, None};
ghost use Rattle.iso_key.specs.Pages.{entries};
ghost use Rattle.iso_locklist.specs.Holding.{LocksAre};
ghost use Rattle.iso_modes.specs.Terms.{is_kept};
ghost use Rattle.iso_modes.specs.declared.Mode.TheVariants as Modes;
ghost use Rattle.iso_nextkey.specs.Guards.{guard_in, inherited_mode};
ghost use Rattle.iso_queue.specs.Locks.{Hold as Held, others_guard};
ghost use Rattle.iso_types.specs.declared.value.Name.TheVariants as names;
ghost use Rattle.iso_queue.specs.Queues.{Wait as Awaiting};

use iso_key::KeyIndex;
use iso_locklist::LockList;
use iso_modes::{Mode, Term};
use iso_types::{Conn, Edge, IndexId, Name, Rid, Value};

/// The lock name that guards the key value in the index: the key itself where an entry has it, else the next greater one,
/// else the index's END. It costs a binary search. Db2 LUW, 'Next-key locking'.
pub fn guard_of(index: &KeyIndex, id: IndexId, key: &Value) -> Name
    ensures { result ≡ guard_in id key.now (entries index.now) }
{
    let from = Edge {
        value: *key,
        inclusive: true,
    };
    match index.first_from(Some(from)) {
        Some(entry) => name_of(id, &entry),
        None => Name::End(id),
    }
}

/// The lock name of the entry.
fn name_of(id: IndexId, entry: &(Value, Rid)) -> Name
    ensures { result ≡ names.Key id entry.now.0 }
{
    Name::Key(id, entry.0)
}

/// Whether another connection's lock on the guard is in the way of a new key: one in S, by which a range was read, or in NW,
/// by which another key goes there. Its cost is that of a look into the lock list. Db2 LUW, 'Next-key locking'.
pub fn blocked(locks: &LockList, conn: Conn, guard: &Name) -> bool
    ensures { (hs : List Held) (xs : List Awaiting) → LocksAre hs xs locks.now → result ≡ others_guard hs conn guard.now }
{
    locks.others_hold(conn, *guard)
}

/// The mode in which the new key is locked for the connection, since it has a lock that is kept on the key's guard: S, and
/// None exactly where it has no such lock. Its cost is that of a look into the lock list. This project's own.
pub fn inherits(locks: &LockList, conn: Conn, guard: &Name) -> Option<Mode>
    ensures { (hs : List Held) (xs : List Awaiting) → LocksAre hs xs locks.now → result ≡ inherited_mode hs conn guard.now }
{
    match locks.held(conn, *guard) {
        Some(hold) => kept_mode(hold.term),
        None => None,
    }
}

/// S where the term is Kept.
fn kept_mode(term: Term) -> Option<Mode>
    ensures { result ≡ (if is_kept term then Some Modes.S else None) }
{
    if term == Term::Kept {
        Some(Mode::S)
    } else {
        None
    }
}
