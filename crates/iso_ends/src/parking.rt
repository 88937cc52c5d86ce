//! Parked pairs: a name of their key is held to the end of a unit, and they are not looked at before that.

ghost use Rattle.std.specs.Prelude.{◌≡◌, ◌<◌, true, false, slice_get, IfSome, OnOk, Some};
ghost use Rattle.iso_ends.specs.Doubts.{IsFreed, IsKnown, IsParking, IsStill, IsUnparked, known_of, may_free};
ghost use Rattle.iso_history.specs.Holds.{keeps as kept_by};
ghost use Rattle.iso_history.specs.Orders.{has_pair};
ghost use Rattle.iso_history.specs.declared.entry.Who.TheVariants as Makers;
ghost use Rattle.iso_key.specs.Pages.{entries};
ghost use Rattle.iso_modes.specs.Terms.{is_kept as is_lasting};
ghost use Rattle.iso_state.specs.Stands.{StandsFor, world_of};
ghost use Rattle.iso_types.specs.Edges.{has_edge};
ghost use Rattle.iso_types.specs.declared.value.Conn.{Conn as Connection};
ghost use Rattle.iso_types.specs.declared.value.Name.TheVariants as Names;

use crate::doubt::{Doubt, add};
use crate::purging::{is_stale, is_used};
use iso_history::{Act, Entry, Who};
use iso_modes::Term;
use iso_state::{Parts, hold};
use iso_types::{Conn, Edges, IndexDef, IndexId, Memory, Name, Rid, Value};

/// Whether a hold of the term stays to the end of its unit.
fn is_kept(term: Term) -> bool
    ensures { result ≡ is_lasting term }
{
    match term {
        Term::Kept => true,
        Term::Fresh => false,
        Term::Brief => false,
    }
}

/// Whether the connection holds the name to the end of its unit.
fn keeps(parts: &Parts, conn: Conn, name: &Name) -> bool
    requires stands { StandsFor parts.now }
    ensures { result ≡ kept_by (world_of parts.now) conn name.now }
{
    match hold(parts, conn, name) {
        Some(hold) => is_kept(hold.term),
        None => false,
    }
}

/// The least connection that holds the name to the end of its unit. It asks the lock list up to 32 times.
fn first_keeper(parts: &Parts, name: &Name) -> Option<Conn>
    requires stands { StandsFor parts.now }
    ensures { IfSome result (λ c. (c.0 < 32) × (kept_by (world_of parts.now) c name.now ≡ true)) }
{
    for at in 0..32u8 {
        let conn = Conn(at);
        if keeps(parts, conn, name) {
            return Some(conn);
        }
    }
    None
}

/// A connection that holds the name of a stale pair's key to the end of its unit.
fn keeper(parts: &Parts, index: IndexId, def: &IndexDef, pair: &(Value, Rid)) -> Option<Conn>
    requires stands { StandsFor parts.now }
    requires def { slice_get parts.now.head.indexes index.0 ≡ Some def.now }
    ensures { IfSome result (λ c. (c.0 < 32) × (kept_by (world_of parts.now) c (Names.Key index pair.now.0) ≡ true)) }
{
    if is_stale(parts, index, def, pair) && is_used(parts, index, &pair.0) {
        return first_keeper(parts, &Name::Key(index, pair.0));
    }
    None
}

/// Parks a doubtful pair; false, and all as before, where there is no memory for it.
fn park_by(doubt: &mut Doubt, pair: &(Value, Rid), conn: Conn) -> bool
    requires conn { conn.0 < 32 }
    ensures parked { result ≡ true → IsParking (known_of doubt.old) (known_of doubt.new) pair.now conn }
    ensures same { result ≡ false → known_of doubt.new ≡ known_of doubt.old }
{
    match doubt.parked.insert(pair.0, pair.1) {
        Ok(_) => {
            doubt.pairs.remove(pair.0, pair.1);
            doubt.by = doubt.by.with(conn);
            true
        }
        Err(_) => false,
    }
}

/// Parks a doubtful pair where its key's name is held to the end of a unit; whether it did. It asks the lock list up to 33 times.
pub(crate) fn park(
    doubt: &mut Doubt,
    parts: &Parts,
    index: IndexId,
    def: &IndexDef,
    pair: &(Value, Rid),
) -> bool
    requires stands { StandsFor parts.now }
    requires def { slice_get parts.now.head.indexes index.0 ≡ Some def.now }
    requires there { has_pair (entries doubt.old.pairs) pair.now ≡ true }
    requires known { IsKnown parts.now.head (world_of parts.now) index (known_of doubt.old) }
    ensures { IsKnown parts.now.head (world_of parts.now) index (known_of doubt.new) }
{
    match keeper(parts, index, def, pair) {
        Some(conn) => park_by(doubt, pair, conn),
        None => false,
    }
}

/// Makes a parked pair doubtful.
fn move_back(doubt: &mut Doubt, pair: &(Value, Rid)) -> Result<(), Memory>
    requires { has_pair (entries doubt.old.parked) pair.now ≡ true }
    ensures { OnOk result (IsStill (known_of doubt.old) (known_of doubt.new)) }
{
    add(&mut doubt.pairs, &pair.0, pair.1)?;
    doubt.parked.remove(pair.0, pair.1);
    Ok(())
}

/// Makes all parked pairs doubtful. It moves each of them, found by halving.
fn unpark(doubt: &mut Doubt) -> Result<(), Memory>
    ensures { OnOk result ((c : Connection) → IsUnparked c (known_of doubt.old) (known_of doubt.new)) }
{
    for _ in 0..u32::MAX {
        match doubt.parked.first_from(None) {
            Some(pair) => move_back(doubt, &pair)?,
            None => {
                doubt.by = Edges::none();
                return Ok(());
            }
        }
    }
    Err(Memory)
}

/// Whether the entry's maker may lose a hold by it that it keeps.
fn may_lose(entry: &Entry) -> bool
    ensures { result ≡ may_free entry.now.act }
{
    match &entry.act {
        Act::Collapse { .. } => true,
        Act::Commit => true,
        Act::Rollback { .. } => true,
        Act::Ended => true,
        _ => false,
    }
}

/// Whether a pair is parked by the connection.
fn is_by(doubt: &Doubt, conn: Conn) -> bool
    ensures { result ≡ false → has_edge doubt.now.by conn ≡ false }
{
    if conn.0 < 32 {
        doubt.by.has(conn)
    } else {
        true
    }
}

/// Makes the parked pairs doubtful where one is parked by the connection.
fn unpark_by(doubt: &mut Doubt, conn: Conn) -> Result<(), Memory>
    ensures { OnOk result (IsUnparked conn (known_of doubt.old) (known_of doubt.new)) }
{
    if is_by(doubt, conn) {
        unpark(doubt)?;
        return Ok(());
    }
    Ok(())
}

/// Makes the parked pairs doubtful before an entry of the connection by which a name of theirs may be free.
fn free_by(doubt: &mut Doubt, entry: &Entry, conn: Conn) -> Result<(), Memory>
    requires { entry.now.who ≡ Makers.Agent conn }
    ensures { OnOk result (IsFreed entry.now (known_of doubt.old) (known_of doubt.new)) }
{
    if may_lose(entry) {
        unpark_by(doubt, conn)?;
        return Ok(());
    }
    Ok(())
}

/// Makes the parked pairs doubtful before an entry by which a name of theirs may be free.
pub(crate) fn free(doubt: &mut Doubt, entry: &Entry) -> Result<(), Memory>
    ensures { OnOk result (IsFreed entry.now (known_of doubt.old) (known_of doubt.new)) }
{
    match entry.who {
        Who::Dispatcher => Ok(()),
        Who::Agent(conn) => free_by(doubt, entry, conn),
    }
}
