ghost use Rattle.std.specs.Option.{option_map, option_map_or};
ghost use Rattle.std.specs.Prelude.{◌≡◌, ◌≢◌, ◌<◌, ◌&&◌, ◌||◌, not, length, false, true, if◌then◌else◌, None, Some, Err, OnOk, OnErr};
ghost use Rattle.iso_modes.specs.Modes.{mode_eq};
ghost use Rattle.iso_queue.specs.Locks.{held, hold_on, is_covered, is_held, placed, settled, target as target_in, without_briefs};
ghost use Rattle.iso_modes.specs.Terms as terms;
ghost use Rattle.iso_modes.specs.declared.Term.TheVariants as Terms;
ghost use Rattle.iso_history.specs.Legal.{is_fresh_on};
ghost use Rattle.iso_queue.specs.Queues.{is_grantable, is_waiting, queued, would_wait};
ghost use Rattle.iso_locklist.specs.Lists.{asked_for, named_hold};
ghost use Rattle.iso_locklist.specs.Places.{IsSameLimits};
ghost use Rattle.iso_history.specs.Requests.{asking, is_limited as is_at_limit, need_of, request};
ghost use Rattle.iso_history.specs.Requests.Outcome.{Gives};
ghost use Rattle.iso_history.specs.declared.entry.Got.{Got as Gained};
ghost use Rattle.iso_state.specs.Changes.{relocked};
ghost use Rattle.iso_state.specs.Judged.{judged_as};
ghost use Rattle.iso_locklist.specs.Holding.{LocksAre};
ghost use Rattle.iso_state.specs.Stands.{StandsFor, content_of, world_of};
ghost use Rattle.iso_state.specs.Steps.{KeepsRoom};

use crate::changes::desk_of;
use crate::parts::Parts;
use iso_locklist::Room;
use iso_modes::{Mode, Term, joined};
use iso_queue::Hold;
use iso_types::{Conn, Name, StepFault};

/// What a request comes to: it is granted, it queues for the mode that it will hold, it times out, or its need is at a
/// limit.
#[derive(Clone, Copy, PartialEq, Eq)]
pub enum Judged {
    Granted,
    Queues(Mode),
    TimesOut,
    AtLimit,
}

/// The connection's hold on the name.
pub fn hold(parts: &Parts, conn: Conn, name: &Name) -> Option<Hold>
    requires stands { StandsFor parts.now }
    ensures { option_map (named_hold name.now) result ≡ hold_on (world_of parts.now).holds conn name.now }
{
    parts.locks.held(conn, *name)
}

/// Whether the connection's lock on the name's table covers a request for the mode.
pub fn covered(parts: &Parts, conn: Conn, name: &Name, mode: Mode) -> bool
    requires stands { StandsFor parts.now }
    ensures { result ≡ is_covered parts.now.head (world_of parts.now).holds conn name.now mode }
{
    parts.locks.covered(conn, *name, mode)
}

/// Whether the connection holds the mode already.
fn has_mode(parts: &Parts, conn: Conn, name: &Name, mode: Mode) -> bool
    requires stands { StandsFor parts.now }
    ensures { result ≡ option_map_or (mode_eq (target_in (world_of parts.now).holds conn name.now mode)) (held (world_of parts.now).holds conn name.now) false }
{
    match hold(parts, conn, name) {
        Some(hold) => same_mode(joined(hold.mode, mode), hold.mode),
        None => false,
    }
}

#[tactic(auto, unfolding(iso_modes::specs::Modes::mode_eq, iso_modes::specs::Modes::mode_number))]
fn same_mode(a: Mode, b: Mode) -> bool
    ensures { result ≡ mode_eq a b }
{
    a == b
}

/// What the connection holds once the mode is granted.
fn target(parts: &Parts, conn: Conn, name: &Name, mode: Mode) -> Mode
    requires stands { StandsFor parts.now }
    ensures { result ≡ target_in (world_of parts.now).holds conn name.now mode }
{
    match hold(parts, conn, name) {
        Some(hold) => joined(hold.mode, mode),
        None => mode,
    }
}

/// The slots that a request on the name needs.
fn need(parts: &Parts, conn: Conn, name: &Name) -> u32
    requires stands { StandsFor parts.now }
    ensures { result ≡ need_of (world_of parts.now) conn name.now }
{
    if hold(parts, conn, name).is_some() {
        0
    } else {
        1
    }
}

/// Whether a need of so many more slots is at a limit.
pub fn is_limited(parts: &Parts, conn: Conn, more: u32) -> bool
    requires stands { StandsFor parts.now }
    requires conn { conn.0 < length parts.now.head.conns }
    ensures { result ≡ is_at_limit parts.now.head (world_of parts.now) conn more }
{
    match parts.locks.room(conn, more) {
        Room::Free => false,
        Room::AtShare => true,
        Room::AtCapacity => true,
    }
}

/// Whether a request that is not covered would be granted, as far as the queue says.
pub fn grants(parts: &Parts, conn: Conn, name: &Name, mode: Mode) -> bool
    requires stands { StandsFor parts.now }
    requires idle { is_waiting (world_of parts.now).waits conn ≡ false }
    ensures { result ≡ (option_map_or (mode_eq (target_in (world_of parts.now).holds conn name.now mode)) (held (world_of parts.now).holds conn name.now) false || not (would_wait (world_of parts.now).holds (world_of parts.now).waits (asking (world_of parts.now) conn name.now mode))) }
{
    parts.locks.would_grant(conn, *name, mode)
}

/// What a request of the connection for the mode on the name comes to.
pub fn judge(parts: &Parts, conn: Conn, name: &Name, mode: Mode) -> Judged
    requires stands { StandsFor parts.now }
    requires conn { conn.0 < length parts.now.head.conns }
    requires idle { is_waiting (world_of parts.now).waits conn ≡ false }
    ensures { judged_as result ≡ request parts.now.head (world_of parts.now) conn name.now mode }
{
    if covered(parts, conn, name, mode) || has_mode(parts, conn, name, mode) {
        Judged::Granted
    } else if is_limited(parts, conn, need(parts, conn, name)) {
        Judged::AtLimit
    } else if grants(parts, conn, name, mode) {
        Judged::Granted
    } else if desk_of(parts, conn).may_wait {
        Judged::Queues(target(parts, conn, name, mode))
    } else {
        Judged::TimesOut
    }
}

/// Whether the connection waits, and its wait has no edge.
pub fn can_claim(parts: &Parts, conn: Conn) -> bool
    requires stands { StandsFor parts.now }
    ensures { result ≡ is_grantable (world_of parts.now).holds (world_of parts.now).waits conn }
{
    parts.locks.can_claim(conn)
}

/// Places a request that is granted: nothing where it is covered. After `Memory` all is as before.
pub fn place(
    parts: &mut Parts,
    conn: Conn,
    name: &Name,
    mode: Mode,
    term: Term,
) -> Result<(), StepFault>
    requires stands { StandsFor parts.old }
    requires conn { conn.0 < length parts.old.head.conns }
    requires idle { is_waiting (world_of parts.old).waits conn ≡ false }
    requires granted { request parts.old.head (world_of parts.old) conn name.now mode ≡ Gives Gained.Granted }
    ensures content { content_of parts.new ≡ relocked (content_of parts.old) parts.new.locks }
    ensures room { KeepsRoom parts.old parts.new }
    ensures ok { OnOk result (LocksAre (placed parts.old.head (world_of parts.old).holds conn (asked_for name.now mode term)) (world_of parts.old).waits parts.new.locks) }
    ensures limits { IsSameLimits parts.new.locks parts.old.locks }
    ensures err { OnErr result (content_of parts.new ≡ content_of parts.old) }
    ensures stands { OnErr result (StandsFor parts.new) }
    ensures fault { result ≢ Err StepFault.HistoryFull }
{
    if covered(parts, conn, name, mode) {
        return Ok(());
    }
    match parts.locks.request(conn, *name, mode, term) {
        Ok(_) => Ok(()),
        Err(_) => Err(StepFault::Memory),
    }
}

/// Queues a request, for the mode that the connection will hold. After `Memory` all is as before.
pub fn enqueue(
    parts: &mut Parts,
    conn: Conn,
    name: &Name,
    mode: Mode,
    term: Term,
    to: Mode,
) -> Result<(), StepFault>
    requires stands { StandsFor parts.old }
    requires conn { conn.0 < length parts.old.head.conns }
    requires idle { is_waiting (world_of parts.old).waits conn ≡ false }
    requires queues { request parts.old.head (world_of parts.old) conn name.now mode ≡ Gives (Gained.Queued to) }
    ensures content { content_of parts.new ≡ relocked (content_of parts.old) parts.new.locks }
    ensures room { KeepsRoom parts.old parts.new }
    ensures ok { OnOk result (LocksAre (world_of parts.old).holds (queued (world_of parts.old).holds (record { name = name.now; conn = conn; target = to; term = term }) (world_of parts.old).waits) parts.new.locks) }
    ensures limits { IsSameLimits parts.new.locks parts.old.locks }
    ensures err { OnErr result (content_of parts.new ≡ content_of parts.old) }
    ensures stands { OnErr result (StandsFor parts.new) }
    ensures fault { result ≢ Err StepFault.HistoryFull }
{
    match parts.locks.request(conn, *name, mode, term) {
        Ok(_) => Ok(()),
        Err(_) => Err(StepFault::Memory),
    }
}

/// Places a request that is granted, as one that is kept, and settles the holds. After `Memory` all is as before.
pub fn take_kept(parts: &mut Parts, conn: Conn, name: &Name, mode: Mode) -> Result<(), StepFault>
    requires stands { StandsFor parts.old }
    requires conn { conn.0 < length parts.old.head.conns }
    requires idle { is_waiting (world_of parts.old).waits conn ≡ false }
    requires granted { request parts.old.head (world_of parts.old) conn name.now mode ≡ Gives Gained.Granted }
    ensures content { content_of parts.new ≡ relocked (content_of parts.old) parts.new.locks }
    ensures room { KeepsRoom parts.old parts.new }
    ensures ok { OnOk result (LocksAre (without_briefs (placed parts.old.head (world_of parts.old).holds conn (asked_for name.now mode Terms.Kept)) conn (settled conn None (placed parts.old.head (world_of parts.old).holds conn (asked_for name.now mode Terms.Kept)))) (world_of parts.old).waits parts.new.locks) }
    ensures limits { IsSameLimits parts.new.locks parts.old.locks }
    ensures err { OnErr result (content_of parts.new ≡ content_of parts.old) }
    ensures stands { OnErr result (StandsFor parts.new) }
    ensures fault { result ≢ Err StepFault.HistoryFull }
{
    place(parts, conn, name, mode, Term::Kept)?;
    parts.locks.settle(conn, None);
    Ok(())
}

/// Places a request that is granted, and settles the holds but that on its name. After `Memory` all is as before.
fn take_spared(
    parts: &mut Parts,
    conn: Conn,
    name: &Name,
    mode: Mode,
    term: Term,
) -> Result<(), StepFault>
    requires stands { StandsFor parts.old }
    requires conn { conn.0 < length parts.old.head.conns }
    requires idle { is_waiting (world_of parts.old).waits conn ≡ false }
    requires granted { request parts.old.head (world_of parts.old) conn name.now mode ≡ Gives Gained.Granted }
    ensures content { content_of parts.new ≡ relocked (content_of parts.old) parts.new.locks }
    ensures room { KeepsRoom parts.old parts.new }
    ensures ok { OnOk result (LocksAre (without_briefs (placed parts.old.head (world_of parts.old).holds conn (asked_for name.now mode term)) conn (settled conn (Some name.now) (placed parts.old.head (world_of parts.old).holds conn (asked_for name.now mode term)))) (world_of parts.old).waits parts.new.locks) }
    ensures limits { IsSameLimits parts.new.locks parts.old.locks }
    ensures err { OnErr result (content_of parts.new ≡ content_of parts.old) }
    ensures stands { OnErr result (StandsFor parts.new) }
    ensures fault { result ≢ Err StepFault.HistoryFull }
{
    place(parts, conn, name, mode, term)?;
    parts.locks.settle(conn, Some(*name));
    Ok(())
}

/// Whether the connection has a Fresh hold on the name.
pub fn is_fresh_on(parts: &Parts, conn: Conn, name: &Name) -> bool
    requires stands { StandsFor parts.now }
    ensures { result ≡ is_fresh_on (world_of parts.now) conn name.now }
{
    match hold(parts, conn, name) {
        Some(hold) => is_fresh(hold.term),
        None => false,
    }
}

fn is_fresh(term: Term) -> bool
    ensures { result ≡ terms.is_fresh term }
{
    term == Term::Fresh
}

/// Whether the connection's hold on the name is Fresh, and becomes Kept.
fn becomes_kept(parts: &Parts, conn: Conn, name: &Name, spared: bool) -> bool
    requires stands { StandsFor parts.now }
    ensures { result ≡ (not spared && is_fresh_on (world_of parts.now) conn name.now) }
{
    !spared && is_fresh_on(parts, conn, name)
}

/// Places a request that is granted, once Fresh holds have become Kept, but that on its name where it is spared; then what
/// was Brief before goes. After `Memory` all is as before.
pub fn take(
    parts: &mut Parts,
    conn: Conn,
    name: &Name,
    mode: Mode,
    term: Term,
    spared: bool,
) -> Result<(), StepFault>
    requires stands { StandsFor parts.old }
    requires conn { conn.0 < length parts.old.head.conns }
    requires idle { is_waiting (world_of parts.old).waits conn ≡ false }
    requires granted { request parts.old.head (world_of parts.old) conn name.now mode ≡ Gives Gained.Granted }
    requires long { terms.is_brief term ≡ false }
    ensures content { content_of parts.new ≡ relocked (content_of parts.old) parts.new.locks }
    ensures room { KeepsRoom parts.old parts.new }
    ensures ok { OnOk result (LocksAre (without_briefs (world_of parts.old).holds conn (placed parts.old.head (settled conn (if spared then Some name.now else None) (world_of parts.old).holds) conn (asked_for name.now mode term))) (world_of parts.old).waits parts.new.locks) }
    ensures limits { IsSameLimits parts.new.locks parts.old.locks }
    ensures err { OnErr result (content_of parts.new ≡ content_of parts.old) }
    ensures stands { OnErr result (StandsFor parts.new) }
    ensures fault { result ≢ Err StepFault.HistoryFull }
{
    let becomes_kept = becomes_kept(parts, conn, name, spared);
    if becomes_kept {
        take_kept(parts, conn, name, mode)
    } else {
        take_spared(parts, conn, name, mode, term)
    }
}
