//! The terms on which documents are held.

use lsp_types::LineEnds;

/// The terms on which documents are held, as a log's format and the limits give them.
#[derive(Clone, Copy)]
pub(crate) struct Terms {
    /// The most bytes of UTF-8 that a text may have.
    pub(crate) limit: u64,
    /// How many versions before the held one are kept.
    pub(crate) kept: usize,
    /// Whether texts are compared with their line ends.
    pub(crate) line_ends: LineEnds,
}
