use iso_modes::{Mode, Term};
use iso_types::Conn;

/// What a request came to.
#[derive(Clone, Copy, PartialEq, Eq)]
pub enum Asked {
    Granted,
    Queued,
}

/// What a claim came to.
#[derive(Clone, Copy, PartialEq, Eq)]
pub enum Claimed {
    Granted,
    NotYet,
}

/// A connection's hold on one name.
#[derive(Clone, Copy, PartialEq, Eq)]
pub struct Hold {
    pub conn: Conn,
    pub mode: Mode,
    pub term: Term,
}

/// A connection's wait for one name: the mode that it will hold, and the term that it asked for.
#[derive(Clone, Copy, PartialEq, Eq)]
pub struct Waiter {
    pub conn: Conn,
    pub target: Mode,
    pub term: Term,
}

/// The hold that stands in the unused places of a list of holders: nobody reads it.
impl Default for Hold {
    fn default() -> Hold {
        Hold {
            conn: Conn(0),
            mode: Mode::In,
            term: Term::Kept,
        }
    }
}
