//! What a message means to a session.
use crate::message::{Id, Message};
use lsp_types::{Change, SyncKind};

/// What the editor offers in its `initialize` (LSP 3.17, Initialize Request). `None` is a member
/// that is missing or null.
#[derive(Debug, Drop, PartialEq, Eq)]
pub struct Offer {
    /// The names in `capabilities.general.positionEncodings`, in their order.
    pub encodings: Option<Vec<String>>,
    /// The `workDoneToken` (LSP 3.17, WorkDoneProgressParams).
    pub token: Option<Id>,
}

/// What the server picks in its result of `initialize` (LSP 3.17, ServerCapabilities).
#[derive(Debug, Drop, PartialEq, Eq)]
pub struct Picked {
    /// The name of a position encoding, `utf-16` if the server gives none.
    pub encoding: String,
    /// How the editor must send changes, `Nothing` if the server does not say.
    pub kind: SyncKind,
}

/// What a message means to a session, by its side, its kind and its method (LSP 3.17). Versions are
/// those of VersionedTextDocumentIdentifier.
#[derive(Debug, Drop, PartialEq, Eq)]
pub enum Act {
    /// The editor's request `initialize`.
    Initialize(Offer),
    /// The editor's notification `initialized`.
    Initialized,
    /// The editor's request `shutdown`.
    Shutdown,
    /// The editor's notification `exit`.
    Exit,
    /// The editor's notification `textDocument/didOpen`.
    DidOpen {
        uri: String,
        version: i32,
        text: String,
    },
    /// The editor's notification `textDocument/didChange`.
    DidChange {
        uri: String,
        version: i32,
        changes: Vec<Change>,
    },
    /// The editor's notification `textDocument/didClose`.
    DidClose {
        uri: String,
    },
    /// The editor's notification `textDocument/didSave`; `text` is `None` if it includes none.
    DidSave {
        uri: String,
        text: Option<String>,
    },
    /// A notification `$/cancelRequest` of either side.
    Cancel {
        id: Id,
    },
    /// The server's notification `$/progress`.
    Progress {
        token: Id,
    },
    /// A message other than `$/progress` that the server may send before it answers `initialize`.
    Early,
    /// The server's request `client/registerCapability`, with the methods that it registers.
    Register {
        methods: Vec<String>,
    },
    /// Any other message. Its params are not read.
    Other,
}

/// A message without its params, and what it means to a session.
#[derive(Debug, Drop)]
pub struct Spoken {
    pub message: Message,
    pub act: Act,
}
