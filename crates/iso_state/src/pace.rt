/// What the dispatcher has done. (This project's own.)
#[derive(Clone, Copy, PartialEq, Eq)]
pub struct Pace {
    /// Its last entry is a Purge.
    pub purged: bool,
    /// Somebody's Stopped stands: no line is taken any more.
    pub stopped: bool,
    /// Its own Stopped stands.
    pub halted: bool,
    /// Its Finish stands: the history is over.
    pub finished: bool,
}
