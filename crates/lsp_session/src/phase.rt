//! How far a session has come.

/// How far a session has come: the last of these that applies (LSP 3.17, "Server lifecycle").
#[derive(Clone, Copy, Debug, PartialEq, Eq)]
pub enum Phase {
    /// No `initialize` is open, and none was answered by a result.
    Fresh,
    /// An `initialize` is open.
    Waiting,
    /// An `initialize` was answered by a result.
    Answered,
    /// The editor sent `initialized`.
    Ready,
    /// The editor sent `shutdown`.
    Stopping,
    /// The editor sent `exit`.
    Exited,
}
