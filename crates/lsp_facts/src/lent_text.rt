//! A text that is lent, whole or as it is stored.

ghost use Rattle.std.specs.Prelude.{◌≡◌, IfOk, option_map};
ghost use Rattle.std.specs.Str.{chars};
ghost use Rattle.lsp_docs.specs.Stored.{text_of, texts_of};
ghost use Rattle.lsp_facts.specs.TwoTexts.{lent_text};
ghost use Rattle.lsp_facts.specs.Refuting as spec;

use lsp_docs::{has_text, is_other_text};
use lsp_rpc::Result;
use lsp_text::TextStore;
use lsp_types::LineEnds;
use std::alloc::Global;

/// A text of a message or a snapshot, or one that is stored.
#[derive(Drop)]
pub enum LentText<'a, S: TextStore> {
    Whole(&'a str),
    Stored(&'a S),
}

impl<'a, S: TextStore> LentText<'a, S> {
    /// Whether another text is not the same.
    pub(crate) fn is_other(&self, line_ends: LineEnds, other: &String) -> bool
        ensures { result ≡ spec.is_other line_ends (lent_text S.content self.now)
            (text_of other.now) }
    {
        match self {
            LentText::Whole(text) => is_other_text(line_ends, other, text),
            LentText::Stored(store) => !has_text(line_ends, *store, other.as_str()),
        }
    }

    /// The first that is not the same.
    pub(crate) fn first_other<'b>(
        &self,
        line_ends: LineEnds,
        texts: &'b [String],
    ) -> Option<&'b str>
        ensures { option_map (λ t. chars t.now) result
            ≡ spec.first_other line_ends (lent_text S.content self.now) (texts_of texts.now) }
    {
        for other in texts {
            if self.is_other(line_ends, other) {
                return Some(other.as_str());
            }
        }
        None
    }

    /// A copy of it.
    ///
    /// # Errors
    /// `Memory` where memory was refused.
    pub fn to_text(&self, alloc: Global) -> Result<String>
        ensures { IfOk result (λ text. text_of text ≡ lent_text S.content self.now) }
    {
        match self {
            LentText::Whole(text) => Ok(String::from_str(alloc, text)?),
            LentText::Stored(store) => store.to_text(alloc),
        }
    }
}
