//! Why a script is refused.

ghost use Rattle.std.specs.Prelude.{◌≡◌};
ghost use Rattle.iso_script.specs.Reading as spec;

use iso_grammar::{Cause, Fault};
use iso_types::Memory;
use thiserror::Error;

/// What is wrong with a line, with the place in bytes from 1. A line has one cause: the syntax comes first, then of its
/// faults the least one (by place, and at one place in the order in which they stand here).
#[derive(Clone, Copy, PartialEq, Eq, Debug, Error)]
pub enum LineCause {
    /// The first token with which the line begins no line of the grammar in this position; one more than the line's
    /// length where its tokens end too soon.
    #[error("SYNTAX AT {0}")]
    Syntax(u32),
    /// A name that is not declared.
    #[error("UNKNOWN AT {0}")]
    Unknown(u32),
    /// A value or a column that does not fit.
    #[error("TYPE AT {0}")]
    TypeFault(u32),
    /// A setting or a name that is declared twice.
    #[error("DUPLICATE AT {0}")]
    Duplicate(u32),
    /// A passed limit: at its token, or for what is counted at place 1.
    #[error("LIMIT AT {0}")]
    Limit(u32),
}

/// Why a script was not read: its first bad line, by its number from 1, or want of memory.
#[derive(Clone, Copy, PartialEq, Eq, Debug, Error)]
pub enum ScriptFault {
    /// The number of the line, and what is wrong with it.
    #[error("LINE {0} {1}")]
    BadLine(u32, LineCause),
    /// Want of memory.
    #[error("want of memory")]
    Memory,
}

impl From<Memory> for ScriptFault {
    ghost use Rattle.iso_script.specs.declared.fault.ScriptFault.TheVariants as fault;
    ghost use Rattle.std.specs.Prelude.{◌≡◌};

    ghost from_gives = { λ _ e. e ≡ fault.Memory };

    fn from(_memory: Memory) -> ScriptFault {
        ScriptFault::Memory
    }
}

impl LineCause {
    /// The word for it in the line that refuses a script, and its place there, in bytes of the bad line from 1. No memory. The
    /// words are this project's own.
    pub fn word_and_place(self) -> (&'static str, u32)
        ensures word { result.0.now ≡ spec.word_of self }
        ensures place { result.1 ≡ spec.place_at self }
    {
        match self {
            LineCause::Syntax(place) => ("SYNTAX", place),
            LineCause::Unknown(place) => ("UNKNOWN", place),
            LineCause::TypeFault(place) => ("TYPE", place),
            LineCause::Duplicate(place) => ("DUPLICATE", place),
            LineCause::Limit(place) => ("LIMIT", place),
        }
    }
}

/// The cause of a line with this fault.
pub fn cause_of(fault: Fault) -> LineCause
    ensures { result ≡ spec.cause_of fault }
{
    match fault.cause {
        Cause::Unknown => LineCause::Unknown(fault.place),
        Cause::TypeFault => LineCause::TypeFault(fault.place),
        Cause::Duplicate => LineCause::Duplicate(fault.place),
        Cause::Limit => LineCause::Limit(fault.place),
    }
}
