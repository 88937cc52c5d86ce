//! What comes of a write: what its judging finds, and what its step answers.
ghost use Rattle.std.specs.Prelude.{◌≡◌, true};
ghost use Rattle.iso_writes.specs.Walk.{is_done};
ghost use Rattle.iso_writes.specs.Answers.{coming_as, comes_at_limit, limited as limited_by};

use iso_locks::Answer;
use iso_modes::Mode;
use iso_types::{Name, TableId};

/// What comes of a write. `Blocked`: another connection's lock on that name is in its way, and it waits; `Escalates`: the
/// lock of that table was asked for instead; `Refused`: with this SQLCODE; `Full`: the table has all its slots.
#[derive(Clone, Copy, PartialEq, Eq)]
pub enum Written {
    Done,
    Blocked(Name),
    TimedOut,
    Escalates(TableId),
    Refused(i32),
    Full,
}

/// What an insertion or an update comes to before it is made: it can be done, its table has all its slots, its need is at a
/// lock limit, it is past the log, another row has its key in a unique index, or another connection's lock on that name is in
/// its way, for which the name is asked for in that mode.
#[derive(Clone, Copy, PartialEq, Eq)]
pub enum Coming {
    Done,
    Full,
    AtLimit,
    PastLog,
    Taken,
    Blocked(Name, Mode),
}

impl Coming {
    /// Whether nothing is in the way.
    pub fn is_done(&self) -> bool
        ensures { result ≡ is_done (coming_as self.now) }
    {
        matches!(self, Coming::Done)
    }
}

/// The answer to a write at the lock limit.
pub fn limited(answer: Answer) -> Written
    requires { comes_at_limit answer ≡ true }
    ensures { result ≡ limited_by answer }
{
    match answer {
        Answer::Escalates(table) => Written::Escalates(table),
        Answer::TimedOut => Written::TimedOut,
        Answer::Refused(code) => Written::Refused(code),
        Answer::Done => unreachable!(),
        Answer::Queued => unreachable!(),
    }
}
