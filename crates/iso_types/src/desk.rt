use crate::head::Isolation;

/// What a connection is about to do.
#[derive(Clone, Copy, PartialEq, Eq)]
pub enum Phase {
    Idle,
    Running,
    Waiting,
    Rolling,
    Closing,
    Ended,
}

/// What is kept of a connection between its steps.
#[derive(Clone, Copy)]
pub struct Desk {
    /// The phase as the history gives it.
    pub phase: Phase,
    /// The script line of the open statement, or of the last one.
    pub line: u32,
    /// The level for statements without a WITH clause.
    pub isolation: Isolation,
    /// Whether requests may queue.
    pub may_wait: bool,
    /// The reason of a coming -911: 2 after a deadlock, 68 after a timeout, else 0.
    pub doom: u8,
    /// The number of log records when the open statement was dispatched.
    pub start: u32,
    /// Whether the connection's last own entry is a Claim: the look after it spares its row's lock.
    pub claimed: bool,
}
