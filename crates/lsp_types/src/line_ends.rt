//! Whether the line ends of texts count.

/// Whether two texts are compared character by character, or by their lines alone (LSP 3.17, "Text
/// Documents").
#[derive(Clone, Copy, Debug, PartialEq, Eq)]
pub enum LineEnds {
    /// Line ends count: the same texts have the same characters.
    Exact,
    /// Line ends do not count: CR LF, LF and CR are equivalent, and a line end at the end of a text
    /// is ignored.
    Ignored,
}
