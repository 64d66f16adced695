//! What is known of a document from the events before a call on it.

use lsp_replay::EventPlace;

/// What earlier events did to a document since it was opened.
#[derive(Clone, Copy)]
pub struct Earlier {
    /// The event that set the version that is held, where it is known.
    pub set_by: Option<EventPlace>,
    /// Whether a snapshot was equal to the text of its version.
    pub was_equal: bool,
}
