//! A task is told what was kept.
ghost use Rattle.std.specs.Prelude.{◌≡◌, true, OnErr, OnOk};
ghost use Rattle.iso_conduct.specs.Points.{told_all};
ghost use Rattle.iso_agent.specs.Fits.{CanTell, told_list, wants};

use iso_conduct::{Task, Told};
use iso_types::Memory;
use std::alloc::Global;

/// Tells the task an answer, and then that it queues where it does. `Memory`: there was none for a row that is kept, or for one that an UPDATE makes.
pub fn tell(alloc: Global, task: &mut Task, told: Told, queued: bool) -> Result<(), Memory>
    requires can { CanTell task.old (told_list told queued) }
    ensures ok { OnOk result (task.new ≡ told_all task.old (told_list told queued)) }
    ensures err { OnErr result (wants task.old (told_list told queued) ≡ true) }
{
    task.told(alloc, told)?;
    if queued {
        task.told(alloc, Told::Queued)?;
    }
    Ok(())
}
