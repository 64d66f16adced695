//! The URIs of the open documents, one after another.

ghost use Rattle.std.specs.Prelude.{◌≡◌, drop, option_map, slice_get};

use crate::document::Document;
use lsp_text::TextStore;
use lsp_types::Walk;
use std::marker::Model;

/// The URIs that are still to come, in the order in which they were opened. Contracts see their
/// list.
#[derive(Drop)]
pub struct OpenUris<'a, S: TextStore> {
    pub(crate) walk: Walk<'a, String, Document<S>>,
}

impl<'a, S: TextStore> Model for OpenUris<'a, S> {
    ghost use Rattle.std.specs.Prelude.{List, map, string_bytes};
    ghost use Rattle.lsp_docs.specs.Calls.{Bytes};

    ghost Value = { List Bytes };

    ghost view = { λ u. map (λ e. string_bytes e.0) u.walk };
}

impl<'a, S: TextStore> OpenUris<'a, S> {
    /// The next URI; none after the last.
    pub fn next(&mut self) -> Option<&'a str>
        ensures next { option_map (λ uri. uri.now) result ≡ slice_get self.old 0 }
        ensures rest { self.new ≡ drop 1 self.old }
    {
        let (uri, _) = self.walk.next()?;
        Some(uri.as_str())
    }
}
