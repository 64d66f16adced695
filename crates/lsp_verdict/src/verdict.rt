//! The verdict on a session.
ghost use Rattle.std.specs.Prelude.{◌≡◌};
ghost use Rattle.lsp_verdict.specs.Verdict as spec;

use lsp_log::LogCode;
use lsp_rpc::{Encoding, Side, SyncKind};
use lsp_session::OpenRequest;

/// The origin of an event.
#[derive(Clone, Copy, Debug, PartialEq, Eq)]
pub enum Who {
    /// A message or a frame fault of the editor.
    Editor,
    /// A message or a frame fault of the server.
    Server,
    /// A snapshot of the editor's text.
    Snapshot,
}

/// The origin of an event of this side.
pub fn who_of(side: Side) -> Who
    ensures { result ≡ spec.who_of side }
{
    match side {
        Side::Editor => Who::Editor,
        Side::Server => Who::Server,
    }
}

/// A document that is open at the end of a session.
#[derive(Debug, Drop)]
pub struct OpenDocument {
    /// Its URI, as the editor wrote it.
    pub uri: String,
    /// Its version (LSP 3.17, `VersionedTextDocumentIdentifier`).
    pub version: i32,
    /// The size of its text, in bytes of UTF-8.
    pub bytes: u64,
}

/// The summary of a session that keeps the rules. Counts stop at 2^64 - 1.
#[derive(Drop)]
pub struct Summary {
    /// How many messages the editor sent.
    pub editor: u64,
    /// How many messages the server sent.
    pub server: u64,
    /// How many snapshots there are.
    pub snapshots: u64,
    /// How many of the snapshots were never compared with a held text.
    pub unmatched: u64,
    /// The agreed position encoding (LSP 3.17, PositionEncodingKind), if any.
    pub encoding: Option<Encoding>,
    /// The agreed way to send changes (LSP 3.17, TextDocumentSyncKind), if any.
    pub sync: Option<SyncKind>,
    /// The open documents, in the order in which they were opened.
    pub documents: Vec<OpenDocument>,
    /// The open requests: the editor's, then the server's, in the order in which they were sent.
    pub requests: Vec<(Side, OpenRequest)>,
}

/// The verdict on a session.
#[derive(Drop)]
pub enum Verdict {
    /// The session keeps the rules.
    Yes(Summary),
    /// An event breaks a rule.
    No {
        rule: u16,
        who: Who,
        /// Its number among the events of `who`, from 1.
        number: u64,
        /// Its number among all events, from 1.
        event: u64,
    },
    /// The log has a fault, and nothing before it offends.
    BadLog {
        /// The number of the record, from 1; 0 for the first line.
        number: u64,
        fault: LogCode,
    },
}
