//! Changes of a document, and how they are sent (LSP 3.17, "Text Document Synchronization").
use crate::position::Span;

/// How the editor sends changes of a document (LSP 3.17, TextDocumentSyncKind).
#[derive(Clone, Copy, Debug, PartialEq, Eq)]
pub enum SyncKind {
    /// It sends no changes (kind 0, `None`).
    Nothing,
    /// Each change is the whole text (kind 1).
    Full,
    /// A change may replace a span (kind 2).
    Incremental,
}

/// A change of a document (LSP 3.17, TextDocumentContentChangeEvent): `text` replaces the span, or
/// the whole text if `span` is `None`.
#[derive(Debug, Drop, PartialEq, Eq)]
pub struct Change {
    pub span: Option<Span>,
    /// How long the replaced text is said to be: `rangeLength`, where that is an integer. No rule
    /// judges it.
    pub range_length: Option<i32>,
    pub text: String,
}
