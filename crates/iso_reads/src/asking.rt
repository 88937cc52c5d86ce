//! What a look asks for, and what comes of it.
ghost use Rattle.std.specs.Prelude.{◌≡◌, ◌<◌, length, false, if◌then◌else◌, is_some, Some, None};
ghost use Rattle.iso_history.specs.Holds.{placed_by_want};
ghost use Rattle.iso_history.specs.Looks.{is_current as is_current_in, is_settled as is_settled_in, look as looks, look_asks, want_asks};
ghost use Rattle.iso_history.specs.Versions.{slots};
ghost use Rattle.iso_history.specs.Waits.{wait_term};
ghost use Rattle.iso_modes.specs.declared.Mode.TheVariants as modes;
ghost use Rattle.iso_queue.specs.Locks.{holds_at_least};
ghost use Rattle.iso_queue.specs.Queues.{is_waiting};
ghost use Rattle.iso_types.specs.declared.value.Name.TheVariants as names;
ghost use Rattle.iso_types.specs.declared.value.Rid.{Rid as RowKey};
ghost use Rattle.iso_types.specs.declared.value.TableId.{TableId as TableKey};
ghost use Rattle.iso_state.specs.Judged.{judged_as};
ghost use Rattle.iso_state.specs.Stands.{StandsFor, is_claimed, world_of};
ghost use Rattle.iso_reads.specs.Answers.{asked_mode, places as places_lock};

use crate::slots::{is_changed_beside, is_dead, is_first_in_window};
use iso_history::Want;
use iso_modes::{Mode, Term, is_same, joined};
use iso_state::{Judged, Parts, covered, desk_of, grants, hold, judge};
use iso_types::{Conn, Name, Rid, TableId};

/// Whether the connection holds NS or more on the name.
#[tactic(auto, unfolding(iso_modes::specs::Modes::at_least))]
fn holds_ns(parts: &Parts, conn: Conn, name: &Name) -> bool
    requires stands { StandsFor parts.now }
    ensures { result ≡ holds_at_least (world_of parts.now).holds conn name.now modes.Ns }
{
    match hold(parts, conn, name) {
        Some(hold) => is_same(joined(hold.mode, Mode::Ns), hold.mode),
        None => false,
    }
}

/// Whether Current needs no lock.
fn is_current(parts: &Parts, conn: Conn, table: TableId, rid: Rid) -> bool
    requires stands { StandsFor parts.now }
    requires conn { conn.0 < length parts.now.head.conns }
    requires rid { rid.0 < slots (world_of parts.now) table }
    ensures { result ≡ is_current_in parts.now.head (world_of parts.now) conn table rid }
{
    !is_changed_beside(parts, conn, table, rid)
        || is_first_in_window(parts, table, rid)
        || holds_ns(parts, conn, &Name::Row(table, rid))
}

/// Whether NS would be granted without regard to the limit.
fn is_settled(parts: &Parts, conn: Conn, name: &Name) -> bool
    requires stands { StandsFor parts.now }
    requires idle { is_waiting (world_of parts.now).waits conn ≡ false }
    ensures { (t : TableKey) (r : RowKey) → name.now ≡ names.Row t r → result ≡ is_settled_in parts.now.head (world_of parts.now) conn t r }
{
    covered(parts, conn, name, Mode::Ns) || grants(parts, conn, name, Mode::Ns)
}

/// The mode that the want asks of a slot that is not dead.
fn wants(parts: &Parts, conn: Conn, table: TableId, rid: Rid, want: Want) -> Option<Mode>
    requires stands { StandsFor parts.now }
    requires conn { conn.0 < length parts.now.head.conns }
    requires rid { rid.0 < slots (world_of parts.now) table }
    requires idle { is_waiting (world_of parts.now).waits conn ≡ false }
    ensures { result ≡ want_asks parts.now.head (world_of parts.now) conn table rid want }
{
    match want {
        Want::Dirty => None,
        Want::Current => unless(is_current(parts, conn, table, rid)),
        Want::Settled => unless(is_settled(parts, conn, &Name::Row(table, rid))),
        Want::Steady => Some(Mode::Ns),
        Want::Repeat => Some(Mode::S),
        Want::Alter => Some(Mode::U),
        Want::AlterKept => Some(Mode::U),
    }
}

fn unless(free: bool) -> Option<Mode>
    ensures { result ≡ (if free then None else Some modes.Ns) }
{
    if free { None } else { Some(Mode::Ns) }
}

/// The mode that a look asks.
fn asks(parts: &Parts, conn: Conn, table: TableId, rid: Rid, want: Want) -> Option<Mode>
    requires stands { StandsFor parts.now }
    requires conn { conn.0 < length parts.now.head.conns }
    requires rid { rid.0 < slots (world_of parts.now) table }
    requires idle { is_waiting (world_of parts.now).waits conn ≡ false }
    ensures { result ≡ look_asks parts.now.head (world_of parts.now) conn table rid want }
{
    if is_dead(parts, table, rid) {
        None
    } else {
        wants(parts, conn, table, rid, want)
    }
}

/// What a look comes to.
pub fn judge_look(parts: &Parts, conn: Conn, table: TableId, rid: Rid, want: Want) -> Judged
    requires stands { StandsFor parts.now }
    requires conn { conn.0 < length parts.now.head.conns }
    requires rid { rid.0 < slots (world_of parts.now) table }
    requires idle { is_waiting (world_of parts.now).waits conn ≡ false }
    ensures { judged_as result ≡ looks parts.now.head (world_of parts.now) conn table rid want }
{
    match asks(parts, conn, table, rid, want) {
        Some(mode) => judge(parts, conn, &Name::Row(table, rid), mode),
        None => Judged::Granted,
    }
}

/// Whether a look that is granted places a lock.
pub fn places(parts: &Parts, table: TableId, rid: Rid, want: Want) -> bool
    requires stands { StandsFor parts.now }
    requires rid { rid.0 < slots (world_of parts.now) table }
    ensures { result ≡ places_lock (world_of parts.now) table rid want }
{
    is_locking(want) && !is_dead(parts, table, rid)
}

fn is_locking(want: Want) -> bool
    ensures { result ≡ is_some (placed_by_want want) }
{
    match want {
        Want::Dirty => false,
        Want::Current => false,
        Want::Settled => false,
        Want::Steady => true,
        Want::Repeat => true,
        Want::Alter => true,
        Want::AlterKept => true,
    }
}

/// The mode that a want asks for, where it asks.
pub fn mode_of(want: Want) -> Mode
    ensures { result ≡ asked_mode want }
{
    match want {
        Want::Dirty => Mode::Ns,
        Want::Current => Mode::Ns,
        Want::Settled => Mode::Ns,
        Want::Steady => Mode::Ns,
        Want::Repeat => Mode::S,
        Want::Alter => Mode::U,
        Want::AlterKept => Mode::U,
    }
}

/// The term of the lock that is awaited, or placed.
pub fn term_of(want: Want) -> Term
    ensures { result ≡ wait_term want }
{
    match want {
        Want::Dirty => Term::Brief,
        Want::Current => Term::Brief,
        Want::Settled => Term::Brief,
        Want::Steady => Term::Fresh,
        Want::Repeat => Term::Kept,
        Want::Alter => Term::Fresh,
        Want::AlterKept => Term::Kept,
    }
}

/// Whether the connection's last own entry is a claim.
pub fn has_claimed(parts: &Parts, conn: Conn) -> bool
    requires stands { StandsFor parts.now }
    requires conn { conn.0 < length parts.now.head.conns }
    ensures { result ≡ is_claimed ((world_of parts.now).last conn) }
{
    desk_of(parts, conn).claimed
}

/// The name whose Fresh hold stays.
pub fn spare_for(parts: &Parts, conn: Conn, name: &Name) -> Option<Name>
    requires stands { StandsFor parts.now }
    requires conn { conn.0 < length parts.now.head.conns }
    ensures { result ≡ (if is_claimed ((world_of parts.now).last conn) then Some name.now else None) }
{
    if has_claimed(parts, conn) {
        Some(*name)
    } else {
        None
    }
}
