//! What was tried of changes that are refused.

use lsp_text::TextStore;

/// A copy of a held text in which changes were made, one after another, until one failed or all
/// were made.
#[derive(Drop)]
pub struct Tried<S: TextStore> {
    pub store: S,
    /// How many of them are made.
    pub count: usize,
}
