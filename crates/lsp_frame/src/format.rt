//! The two formats of a log.

/// The format of a log, which its first line names.
#[derive(Clone, Copy, Debug, PartialEq, Eq)]
pub enum Format {
    /// Format 1, `lsp-session 1`. A snapshot of a version before the current one is late.
    One,
    /// Format 2, `lsp-session 2`. A snapshot may be of one of the last versions before the current
    /// one.
    Two,
}
