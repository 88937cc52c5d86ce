//! The steps by which the dispatcher takes a line of the script.

ghost use Rattle.std.specs.Prelude.{if◌then◌else◌, ◌≡◌, ◌≢◌, ◌<◌, ◌≤◌, ◌++◌, [], ◌∷◌, length, false, true, Err, IfOk, OnOk, OnErr, Option, Some, None};
ghost use Rattle.iso_history.specs.Makers.{by_dispatcher};
ghost use Rattle.iso_history.specs.Phases.{is_phase, phase};
ghost use Rattle.iso_history.specs.Quiet.{is_busy, is_quiet};
ghost use Rattle.iso_history.specs.Stops.{is_full};
ghost use Rattle.iso_history.specs.declared.entry.Act.TheVariants as Acts;
ghost use Rattle.iso_queue.specs.Snapshots.{snapshot as listed};
ghost use Rattle.iso_state.specs.Stands.{StandsFor, content_of, pace_of, world_of};
ghost use Rattle.iso_state.specs.Changes.{noted, repaced};
ghost use Rattle.iso_state.specs.Steps.{Spends};
ghost use Rattle.iso_pace.specs.Answers.{MayTakeLine, expired, is_taken, shown};
ghost use Rattle.iso_types.specs.declared.desk.Phase.TheVariants as Phases;

use crate::phases::waits;
use crate::resting::quiet;
use iso_history::{Act, Entry, Who};
use iso_queue::LockLine;
use iso_state::{Parts, desk_of, make_room, move_to, note};
use iso_types::{Conn, Desk, Items, Phase, StepFault};

/// What comes of a line. `NoEffect`: nobody waited. `NotQuiet`: the line is not taken yet. `Stopping`: no line is taken any more.
#[derive(Clone, Copy, PartialEq, Eq)]
pub enum Paced {
    Done,
    Busy,
    NoEffect,
    NotQuiet,
    Stopping,
}

/// An entry of the dispatcher.
pub(crate) fn of_dispatcher(act: Act) -> Entry
    ensures { result ≡ by_dispatcher act }
{
    Entry {
        who: Who::Dispatcher,
        act,
    }
}

/// Makes an entry of the dispatcher that changes nothing but the history.
fn mark(parts: &mut Parts, entry: Entry)
    requires room { 1 ≤ parts.old.history.spare }
    ensures wrote { content_of parts.new ≡ repaced (noted (content_of parts.old) entry) (record (pace_of parts.old.pace) { purged = false }) }
    ensures spends { Spends parts.old parts.new }
{
    parts.pace.purged = false;
    note(parts, entry);
}

/// Passes over the line of a connection that waits.
pub(crate) fn pass_over(parts: &mut Parts, line: u32, conn: Conn) -> Result<(), StepFault>
    requires stands { StandsFor parts.old }
    requires open { (world_of parts.old).pace.finished ≡ false }
    requires may { MayTakeLine parts.old.head (world_of parts.old) }
    requires going { (world_of parts.old).pace.stopped ≡ false }
    requires conn { conn.0 < length parts.old.head.conns }
    requires busy { is_busy parts.old.head (world_of parts.old) conn ≡ true }
    ensures stands { StandsFor parts.new }
    ensures head { parts.new.head ≡ parts.old.head }
    ensures full { result ≡ Err StepFault.HistoryFull → is_full parts.old.head (world_of parts.old) (by_dispatcher (Acts.Busy line conn)) ≡ true }
    ensures ok { OnOk result (parts.new.history.items ≡ parts.old.history.items ++ by_dispatcher (Acts.Busy line conn) ∷ []) }
    ensures err { OnErr result (content_of parts.new ≡ content_of parts.old) }
{
    make_room(parts, 1)?;
    mark(parts, of_dispatcher(Act::Busy { line, conn }));
    Ok(())
}

/// Records that nobody's wait was to be ended.
fn expire_none(parts: &mut Parts, line: u32, conn: Conn) -> Result<(), StepFault>
    requires stands { StandsFor parts.old }
    requires open { (world_of parts.old).pace.finished ≡ false }
    requires may { MayTakeLine parts.old.head (world_of parts.old) }
    requires going { (world_of parts.old).pace.stopped ≡ false }
    requires conn { conn.0 < length parts.old.head.conns }
    requires quiet { is_quiet parts.old.head (world_of parts.old) ≡ true }
    requires vain { is_phase (phase (world_of parts.old) conn) Phases.Waiting ≡ false }
    ensures stands { StandsFor parts.new }
    ensures head { parts.new.head ≡ parts.old.head }
    ensures full { result ≡ Err StepFault.HistoryFull → is_full parts.old.head (world_of parts.old) (by_dispatcher (Acts.Expire line conn false)) ≡ true }
    ensures ok { OnOk result (parts.new.history.items ≡ parts.old.history.items ++ by_dispatcher (Acts.Expire line conn false) ∷ []) }
    ensures err { OnErr result (content_of parts.new ≡ content_of parts.old) }
{
    make_room(parts, 1)?;
    mark(
        parts,
        of_dispatcher(Act::Expire {
            line,
            conn,
            ended: false,
        }),
    );
    Ok(())
}

/// Ends the wait of a connection, which has to roll back then.
fn expire_wait(parts: &mut Parts, line: u32, conn: Conn)
    requires stands { StandsFor parts.old }
    requires open { (world_of parts.old).pace.finished ≡ false }
    requires may { MayTakeLine parts.old.head (world_of parts.old) }
    requires going { (world_of parts.old).pace.stopped ≡ false }
    requires conn { conn.0 < length parts.old.head.conns }
    requires quiet { is_quiet parts.old.head (world_of parts.old) ≡ true }
    requires waits { phase (world_of parts.old) conn ≡ Phases.Waiting }
    ensures stands { StandsFor parts.new }
    ensures head { parts.new.head ≡ parts.old.head }
    ensures ok { parts.new.history.items ≡ parts.old.history.items ++ by_dispatcher (Acts.Expire line conn true) ∷ [] }
{
    parts.locks.cancel(conn);
    parts.reserved -= 1;
    parts.pace.purged = false;
    let desk = Desk {
        phase: Phase::Rolling,
        doom: 68,
        ..desk_of(parts, conn)
    };
    let ended = true;
    move_to(
        parts,
        conn,
        desk,
        of_dispatcher(Act::Expire { line, conn, ended }),
    );
}

/// Takes a line EXPIRE. `Done`: the connection waited, and has to roll back with -911 and reason 68; `NoEffect`: it did not
/// wait; `NotQuiet`, `Stopping`: the line is not taken, since not all is quiet, or somebody stopped. `HistoryFull`: its entry
/// would be full; never where the connection waits. A fault comes only where the line was to be taken, and leaves all as it was.
/// It costs what `quiet` costs. Db2 LUW, 'SQLCODE -911'.
pub fn expire(parts: &mut Parts, line: u32, conn: Conn) -> Result<Paced, StepFault>
    requires stands { StandsFor parts.old }
    requires open { (world_of parts.old).pace.finished ≡ false }
    requires may { MayTakeLine parts.old.head (world_of parts.old) }
    requires conn { conn.0 < length parts.old.head.conns }
    ensures stands { StandsFor parts.new }
    ensures head { parts.new.head ≡ parts.old.head }
    ensures answer { IfOk result (λ a. a ≡ expired parts.old.head (world_of parts.old) conn) }
    ensures full { result ≡ Err StepFault.HistoryFull → is_full parts.old.head (world_of parts.old) (by_dispatcher (Acts.Expire line conn (is_phase (phase (world_of parts.old) conn) Phases.Waiting))) ≡ true }
    ensures ok { OnOk result (parts.new.history.items ≡ parts.old.history.items ++ (if is_taken (expired parts.old.head (world_of parts.old) conn) then by_dispatcher (Acts.Expire line conn (is_phase (phase (world_of parts.old) conn) Phases.Waiting)) ∷ [] else [])) }
    ensures err { OnErr result (content_of parts.new ≡ content_of parts.old) }
    ensures due { OnErr result (is_taken (expired parts.old.head (world_of parts.old) conn) ≡ true) }
{
    if parts.pace.stopped {
        return Ok(Paced::Stopping);
    }
    if !quiet(parts) {
        return Ok(Paced::NotQuiet);
    }
    if waits(parts, conn) {
        expire_wait(parts, line, conn);
        return Ok(Paced::Done);
    }
    expire_none(parts, line, conn)?;
    Ok(Paced::NoEffect)
}

/// All holds and waits, as a snapshot lists them.
fn list(parts: &Parts) -> Result<Items<LockLine>, StepFault>
    requires stands { StandsFor parts.now }
    ensures lines { IfOk result (λ lines. lines ≡ listed parts.now.head (world_of parts.now).holds (world_of parts.now).waits) }
    ensures fault { result ≢ Err StepFault.HistoryFull }
{
    match parts.locks.snapshot(&parts.head) {
        Ok(lines) => Ok(lines),
        Err(_) => Err(StepFault::Memory),
    }
}

/// Records all holds and waits.
fn show(parts: &mut Parts, line: u32, locks: Items<LockLine>) -> Result<(), StepFault>
    requires stands { StandsFor parts.old }
    requires open { (world_of parts.old).pace.finished ≡ false }
    requires may { MayTakeLine parts.old.head (world_of parts.old) }
    requires going { (world_of parts.old).pace.stopped ≡ false }
    requires quiet { is_quiet parts.old.head (world_of parts.old) ≡ true }
    requires locks { locks ≡ listed parts.old.head (world_of parts.old).holds (world_of parts.old).waits }
    ensures stands { StandsFor parts.new }
    ensures head { parts.new.head ≡ parts.old.head }
    ensures full { result ≡ Err StepFault.HistoryFull → is_full parts.old.head (world_of parts.old) (by_dispatcher (Acts.Snapshot line (listed parts.old.head (world_of parts.old).holds (world_of parts.old).waits))) ≡ true }
    ensures ok { OnOk result (parts.new.history.items ≡ parts.old.history.items ++ by_dispatcher (Acts.Snapshot line (listed parts.old.head (world_of parts.old).holds (world_of parts.old).waits)) ∷ []) }
    ensures err { OnErr result (content_of parts.new ≡ content_of parts.old) }
{
    make_room(parts, 1)?;
    mark(parts, of_dispatcher(Act::Snapshot { line, locks }));
    Ok(())
}

/// Takes a line SNAPSHOT. `Done`: all holds and waits are recorded; `NotQuiet`, `Stopping`: the line is not taken, since not
/// all is quiet, or somebody stopped. `HistoryFull`: its entry would be full. A fault comes only where the line was to be
/// taken, and leaves all as it was. It costs what `quiet` costs, and then it sorts the names. Db2 LUW, 'MON_GET_LOCKS'.
pub fn snapshot(parts: &mut Parts, line: u32) -> Result<Paced, StepFault>
    requires stands { StandsFor parts.old }
    requires open { (world_of parts.old).pace.finished ≡ false }
    requires may { MayTakeLine parts.old.head (world_of parts.old) }
    ensures stands { StandsFor parts.new }
    ensures head { parts.new.head ≡ parts.old.head }
    ensures answer { IfOk result (λ a. a ≡ shown parts.old.head (world_of parts.old)) }
    ensures full { result ≡ Err StepFault.HistoryFull → is_full parts.old.head (world_of parts.old) (by_dispatcher (Acts.Snapshot line (listed parts.old.head (world_of parts.old).holds (world_of parts.old).waits))) ≡ true }
    ensures ok { OnOk result (parts.new.history.items ≡ parts.old.history.items ++ (if is_taken (shown parts.old.head (world_of parts.old)) then by_dispatcher (Acts.Snapshot line (listed parts.old.head (world_of parts.old).holds (world_of parts.old).waits)) ∷ [] else [])) }
    ensures err { OnErr result (content_of parts.new ≡ content_of parts.old) }
    ensures due { OnErr result (is_taken (shown parts.old.head (world_of parts.old)) ≡ true) }
{
    if parts.pace.stopped {
        return Ok(Paced::Stopping);
    }
    if !quiet(parts) {
        return Ok(Paced::NotQuiet);
    }
    let locks = list(parts)?;
    show(parts, line, locks)?;
    Ok(Paced::Done)
}
