//! Whether a session must be complete.

/// Whether a session must be complete: each request of the editor is answered (JSON-RPC 2.0,
/// section 4), and the editor sends `exit` (LSP 3.17, "Exit Notification").
#[derive(Clone, Copy, Debug, PartialEq, Eq)]
pub enum Completeness {
    /// A session may end anywhere.
    Ignored,
    /// It must be complete: what is missing at its end is an offence, 303 or 407.
    Required,
}
