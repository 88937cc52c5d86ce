ghost use Rattle.std.specs.Prelude.{◌≡◌, ◌<◌, ◌++◌, [], ◌∷◌, length, false, true, Err, IsTrue, IfOk, OnOk, OnErr};
ghost use Rattle.iso_history.specs.Legal.{Runs};
ghost use Rattle.iso_history.specs.Makers.{by_agent};
ghost use Rattle.iso_history.specs.Outcomes.{blocked_by};
ghost use Rattle.iso_history.specs.Requests.{may_ask, request};
ghost use Rattle.iso_history.specs.Stops.{is_full};
ghost use Rattle.iso_history.specs.Writes.{is_block};
ghost use Rattle.iso_state.specs.Stands.{StandsFor, content_of, world_of};
ghost use Rattle.iso_locks.specs.Answers.{answer_of};

use crate::locking::{Answer, escalate, time_out, wait};
use iso_history::Why;
use iso_modes::{Mode, Term};
use iso_state::{Judged, Parts, judge};
use iso_types::{Conn, Name, StepFault};

/// Asks for the lock of a write that another connection's lock blocks: NS on a row, NW on the guard of a key. It is never
/// granted at once. `Queued`: it waits, and what it is granted then goes with its next entry; `TimedOut`: it may not wait, and
/// has to roll back. Where the need is at a limit: as `escalate`. `HistoryFull`: its entry would be full. After a fault all is
/// as before. Its cost is that of a request. Db2 LUW, 'Next-key locking', 'Lock waits and timeouts', 'SQLCODE -911'.
pub fn block(parts: &mut Parts, conn: Conn, name: &Name, mode: Mode) -> Result<Answer, StepFault>
    requires stands { StandsFor parts.old }
    requires open { (world_of parts.old).pace.finished ≡ false }
    requires conn { conn.0 < length parts.old.head.conns }
    requires runs { Runs (world_of parts.old) conn }
    requires may { IsTrue (may_ask parts.old.head (world_of parts.old) conn name.now mode) }
    requires blocked { IsTrue (is_block parts.old.head (world_of parts.old) conn name.now mode) }
    ensures stands { StandsFor parts.new }
    ensures head { parts.new.head ≡ parts.old.head }
    ensures answer { IfOk result (λ a. a ≡ answer_of (blocked_by parts.old.head (world_of parts.old) conn name.now mode (request parts.old.head (world_of parts.old) conn name.now mode))) }
    ensures full { result ≡ Err StepFault.HistoryFull → is_full parts.old.head (world_of parts.old) (by_agent conn (blocked_by parts.old.head (world_of parts.old) conn name.now mode (request parts.old.head (world_of parts.old) conn name.now mode))) ≡ true }
    ensures ok { OnOk result (parts.new.history.items ≡ parts.old.history.items ++ by_agent conn (blocked_by parts.old.head (world_of parts.old) conn name.now mode (request parts.old.head (world_of parts.old) conn name.now mode)) ∷ []) }
    ensures err { OnErr result (content_of parts.new ≡ content_of parts.old) }
{
    match judge(parts, conn, name, mode) {
        Judged::Granted => unreachable!(),
        Judged::Queues(to) => {
            wait(parts, conn, name, mode, Term::Brief, Why::Blocked, to)?;
            Ok(Answer::Queued)
        }
        Judged::TimesOut => {
            time_out(parts, conn, name, mode, Term::Brief, Why::Blocked)?;
            Ok(Answer::TimedOut)
        }
        Judged::AtLimit => escalate(parts, conn),
    }
}
