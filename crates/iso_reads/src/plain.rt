//! A look that needs no lock and sees the present row.
ghost use Rattle.std.specs.Prelude.{◌≡◌, ◌≢◌, ◌<◌, ◌++◌, [], ◌∷◌, length, false, true, Err, IsTrue, IfOk, OnOk, OnErr};
ghost use Rattle.iso_history.specs.Legal.{Runs};
ghost use Rattle.iso_history.specs.Looks.{look as looks, may_look};
ghost use Rattle.iso_history.specs.Makers.{by_agent};
ghost use Rattle.iso_history.specs.Requests.Outcome.{Gives};
ghost use Rattle.iso_history.specs.Stops.{is_full};
ghost use Rattle.iso_history.specs.Versions.{present, slots, versions};
ghost use Rattle.iso_history.specs.declared.entry.Act.TheVariants as acts;
ghost use Rattle.iso_history.specs.declared.entry.Got.{Got as Gained};
ghost use Rattle.iso_state.specs.Stands.{StandsFor, content_of, world_of};
ghost use Rattle.iso_reads.specs.Answers.{is_beside as beside, places as places_lock, seen};

use crate::outcomes::{Looked, pass};
use crate::slots::{is_changed_beside, present_row};
use iso_history::Want;
use iso_state::Parts;
use iso_types::{Conn, Rid, StepFault, TableId};
use std::alloc::Global;

/// Whether the want needs no lock on the slot, and sees its present row: it is Dirty, or Current where no other unit's version is
/// pending.
pub fn is_plain(parts: &Parts, conn: Conn, table: TableId, rid: Rid, want: Want) -> bool
    requires stands { StandsFor parts.now }
    requires conn { conn.0 < length parts.now.head.conns }
    requires rid { rid.0 < slots (world_of parts.now) table }
    ensures outcome { result ≡ true → looks parts.now.head (world_of parts.now) conn table rid want ≡ Gives Gained.Granted }
    ensures alone { result ≡ true → beside (world_of parts.now) conn table rid want ≡ false }
    ensures bare { result ≡ true → places_lock (world_of parts.now) table rid want ≡ false }
{
    match want {
        Want::Dirty => true,
        Want::Current => !is_changed_beside(parts, conn, table, rid),
        Want::Settled => false,
        Want::Steady => false,
        Want::Repeat => false,
        Want::Alter => false,
        Want::AlterKept => false,
    }
}

/// A copy of the present row of a slot.
pub fn show(alloc: Global, parts: &Parts, table: TableId, rid: Rid) -> Result<Looked, StepFault>
    requires stands { StandsFor parts.now }
    requires rid { rid.0 < slots (world_of parts.now) table }
    ensures answer { IfOk result (λ a. a ≡ Looked.Shown (present (versions (world_of parts.now) table rid))) }
    ensures fault { result ≢ Err StepFault.HistoryFull }
{
    match present_row(alloc, parts, table, rid) {
        Ok(row) => Ok(Looked::Shown(row)),
        Err(_) => Err(StepFault::Memory),
    }
}

/// Makes the entry of a look that needs no lock, and tells the present row: it is copied before anything is written.
pub fn look_plain(
    alloc: Global,
    parts: &mut Parts,
    conn: Conn,
    table: TableId,
    rid: Rid,
    want: Want,
) -> Result<Looked, StepFault>
    requires stands { StandsFor parts.old }
    requires open { (world_of parts.old).pace.finished ≡ false }
    requires conn { conn.0 < length parts.old.head.conns }
    requires runs { Runs (world_of parts.old) conn }
    requires rid { rid.0 < slots (world_of parts.old) table }
    requires may { IsTrue (may_look parts.old.head (world_of parts.old) conn table rid want) }
    requires outcome { looks parts.old.head (world_of parts.old) conn table rid want ≡ Gives Gained.Granted }
    requires alone { beside (world_of parts.old) conn table rid want ≡ false }
    requires bare { places_lock (world_of parts.old) table rid want ≡ false }
    ensures stands { StandsFor parts.new }
    ensures head { parts.new.head ≡ parts.old.head }
    ensures answer { IfOk result (λ a. a ≡ seen (content_of parts.old) conn table rid want) }
    ensures full { result ≡ Err StepFault.HistoryFull → is_full parts.old.head (world_of parts.old) (by_agent conn (acts.Look table rid want Gained.Granted)) ≡ true }
    ensures ok { OnOk result (parts.new.history.items ≡ parts.old.history.items ++ by_agent conn (acts.Look table rid want Gained.Granted) ∷ []) }
    ensures err { OnErr result (content_of parts.new ≡ content_of parts.old) }
{
    let seen = show(alloc, parts, table, rid)?;
    pass(parts, conn, table, rid, want)?;
    Ok(seen)
}
