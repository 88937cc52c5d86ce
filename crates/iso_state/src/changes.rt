ghost use Rattle.std.specs.Prelude.{◌≡◌, ◌≤◌, ◌<◌, ◌+◌, length, nat_lt, true, Err, OnOk};
ghost use Rattle.iso_history.specs.Stops.{history_limit};
ghost use Rattle.iso_state.specs.Changes.{entered, noted, seated};
ghost use Rattle.iso_state.specs.Stands.{StandsFor, content_of, desk_at};
ghost use Rattle.iso_state.specs.Steps.{IsReady, Spends, is_past};

use crate::parts::Parts;
use iso_history::Entry;
use iso_types::{Conn, Desk, StepFault};

/// Whether so many entries and reserves, with so many more for a step, pass the limit of 2,000,000 entries.
fn is_past_limit(entries: usize, reserved: u32, more: u32) -> bool
    requires few { entries ≤ 2000000 }
    ensures { result ≡ nat_lt history_limit (entries + reserved + more) }
{
    entries as u64 + u64::from(reserved) + u64::from(more) > 2_000_000
}

/// Makes room for one more entry and all that is kept in reserve then. `more`: by how much the step raises the sum of entries
/// and reserves. `HistoryFull` exactly where that passes the limit; after a fault all is as before.
pub fn make_room(parts: &mut Parts, more: u32) -> Result<(), StepFault>
    requires stands { StandsFor parts.old }
    ensures stands { StandsFor parts.new }
    ensures same { content_of parts.new ≡ content_of parts.old }
    ensures full { result ≡ Err StepFault.HistoryFull → is_past (content_of parts.old) more ≡ true }
    ensures ready { OnOk result (IsReady parts.new more) }
{
    if is_past_limit(parts.history.len(), parts.reserved, more) {
        return Err(StepFault::HistoryFull);
    }
    match parts.history.reserve(parts.reserved as usize + 3) {
        Ok(()) => Ok(()),
        Err(_) => Err(StepFault::Memory),
    }
}

/// The desk of a connection.
pub fn desk_of(parts: &Parts, conn: Conn) -> Desk
    requires { conn.0 < length parts.now.desks }
    ensures { result ≡ desk_at parts.now.desks conn }
{
    parts.desks.as_slice()[conn.0 as usize]
}

/// Writes an entry, and nothing else: for the dispatcher.
pub fn note(parts: &mut Parts, entry: Entry)
    requires room { 1 ≤ parts.old.history.spare }
    ensures wrote { content_of parts.new ≡ noted (content_of parts.old) entry }
    ensures spends { Spends parts.old parts.new }
{
    parts.history.push_reserved(entry);
}

/// Writes a connection's desk and an entry.
pub fn move_to(parts: &mut Parts, conn: Conn, desk: Desk, entry: Entry)
    requires conn { conn.0 < length parts.old.desks }
    requires room { 1 ≤ parts.old.history.spare }
    ensures wrote { content_of parts.new ≡ seated (content_of parts.old) conn desk entry }
    ensures spends { Spends parts.old parts.new }
{
    *parts.desks.item_mut(conn.0 as usize) = desk;
    parts.history.push_reserved(entry);
}

/// Writes an entry of a connection that is no claim, and no more of its desk.
pub fn enter(parts: &mut Parts, conn: Conn, entry: Entry)
    requires conn { conn.0 < length parts.old.desks }
    requires room { 1 ≤ parts.old.history.spare }
    ensures wrote { content_of parts.new ≡ entered (content_of parts.old) conn entry }
    ensures spends { Spends parts.old parts.new }
{
    let desk = Desk {
        claimed: false,
        ..desk_of(parts, conn)
    };
    move_to(parts, conn, desk, entry);
}
