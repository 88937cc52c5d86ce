//! Why a text is refused.

use iso_types::Memory;
use thiserror::Error;

/// Why a text was not read as a statement. A place counts the text's bytes from 1.
#[derive(Clone, Copy, PartialEq, Eq, Debug, Error)]
pub enum SqlFault {
    /// The first token with which the text begins no statement; behind the last token, the text's length plus 1.
    #[error("SYNTAX AT {0}")]
    Syntax(u32),
    /// A name that isn't declared.
    #[error("UNKNOWN AT {0}")]
    Unknown(u32),
    /// A value or a column that does not fit.
    #[error("TYPE AT {0}")]
    TypeFault(u32),
    /// A column that is listed twice.
    #[error("DUPLICATE AT {0}")]
    Duplicate(u32),
    /// A name, a literal, a parenthesis or a comparison past its limit.
    #[error("LIMIT AT {0}")]
    Limit(u32),
    /// Want of memory.
    #[error("want of memory")]
    Memory,
}

impl From<Memory> for SqlFault {
    ghost use Rattle.iso_sql.specs.declared.fault.SqlFault.TheVariants as fault;
    ghost use Rattle.std.specs.Prelude.{◌≡◌};

    ghost from_gives = { λ _ e. e ≡ fault.Memory };

    fn from(_memory: Memory) -> SqlFault {
        SqlFault::Memory
    }
}
