//! How the names and the characters of one log are shown.
ghost use Rattle.std.specs.Prelude.{◌≡◌, IfOk, string_bytes};
ghost use Rattle.lsp_redact.specs.Characters.{shown_bytes};
ghost use Rattle.lsp_redact.specs.Names.{no_names};
ghost use Rattle.lsp_redact.specs.Naming.{Stands};

use crate::characters::shown_text;
use crate::names::Names;
use lsp_rpc::Result;
use std::alloc::Global;

/// How the names and the characters of one log are shown.
pub(crate) struct Redaction {
    pub(crate) alloc: Global,
    pub(crate) names: Names,
    /// The character that must stay apart from others of its kind.
    pub(crate) apart: Option<char>,
}

impl Drop for Redaction {
    fn drop(self) {
        let Redaction {
            alloc: _,
            names: _,
            apart: _,
        } = self;
    }
}

impl Redaction {
    pub(crate) fn new(alloc: Global, apart: Option<char>) -> Self
        ensures names { Stands result.names no_names }
        ensures apart { result.apart ≡ apart }
    {
        Redaction {
            alloc,
            names: Names::new(alloc),
            apart,
        }
    }

    /// What a text is shown by.
    pub(crate) fn text(&self, text: &str) -> Result<String>
        ensures { IfOk result (λ shown. string_bytes shown
            ≡ shown_bytes self.now.apart text.now) }
    {
        shown_text(self.alloc, text, self.apart)
    }
}
