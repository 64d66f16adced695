//! What is said about documents, and what an accepted call says.

ghost use Rattle.std.specs.Prelude.{◌≡◌};
ghost use Rattle.lsp_docs.specs.Calls.{uri_of};
ghost use Rattle.lsp_docs.specs.Taken.{call_view, took_found};

use crate::snapshot::Match;
use lsp_text::Findings;
use lsp_types::{Change, Encoding, SyncKind};

/// What is said about a document: by a message of the editor, or by a snapshot (LSP 3.17, "Text
/// Document Synchronization").
#[derive(Clone, Copy)]
pub enum Call<'a> {
    /// `didOpen`.
    Opens {
        uri: &'a str,
        version: i32,
        text: &'a str,
    },
    /// `didChange`, with what the session agreed on.
    Changes {
        encoding: Encoding,
        kind: SyncKind,
        uri: &'a str,
        version: i32,
        changes: &'a [Change],
    },
    /// `didClose`.
    Closes {
        uri: &'a str,
    },
    /// `didSave`.
    Saves {
        uri: &'a str,
        text: Option<&'a str>,
    },
    /// The editor really had this text at this version.
    Shows {
        uri: &'a str,
        version: i32,
        text: &'a str,
    },
}

impl<'a> Call<'a> {
    /// The URI of its document.
    pub fn uri(self) -> &'a str
        ensures { result.now ≡ uri_of (call_view self.entry) }
    {
        match self {
            Call::Opens { uri, .. } => uri,
            Call::Changes { uri, .. } => uri,
            Call::Closes { uri } => uri,
            Call::Saves { uri, .. } => uri,
            Call::Shows { uri, .. } => uri,
        }
    }
}

/// What an accepted call says.
#[derive(Clone, Copy, Debug, PartialEq, Eq)]
pub enum Took {
    /// Nothing.
    Done,
    /// What of its changes does not fit the text.
    Changed(Findings),
    /// How the snapshot was compared.
    Shown(Match),
}

impl Took {
    /// What changes say that found this.
    pub(crate) fn of(found: Findings) -> Took
        ensures { result ≡ took_found found }
    {
        if found.past_end.is_none() && found.range_length.is_none() {
            Took::Done
        } else {
            Took::Changed(found)
        }
    }
}
