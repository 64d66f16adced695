//! Which lines show the events of a session.

/// What the line of an event contains.
#[derive(Clone, Copy, Debug, PartialEq, Eq)]
pub enum Lines {
    /// The number of the event among all, from 1, and what it is.
    Short,
    /// After that, its number among the messages of its side, or among the snapshots; for a message
    /// about a document also its URI, and the version that the message sets.
    Long,
}
