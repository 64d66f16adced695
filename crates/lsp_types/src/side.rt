//! The two sides of a session.

/// A side of the session: the editor, which is the client of LSP 3.17, or the language server.
#[derive(Clone, Copy, Debug, PartialEq, Eq)]
pub enum Side {
    Editor,
    Server,
}
