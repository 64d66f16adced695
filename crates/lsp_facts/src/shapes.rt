//! What the params of a message, and the result of `initialize`, must be (LSP 3.17): the members
//! that are read, in the order in which they are read. Each is read with all that is inside it
//! before the next one.
use Kind::{Array, Id, Integer, Object, Sync, SyncKind, Text, Uinteger};
use Need::{May, Must};

/// What a JSON value must be.
#[derive(Clone, Copy)]
pub(crate) enum Kind {
    /// A string.
    Text,
    /// From -2,147,483,648 to 2,147,483,647 (LSP 3.17, Base Types).
    Integer,
    /// From 0 to 2,147,483,647 (LSP 3.17, Base Types).
    Uinteger,
    /// An integer or a string.
    Id,
    /// 0, 1 or 2 (LSP 3.17, TextDocumentSyncKind).
    SyncKind,
    /// A sync kind or an object (LSP 3.17, ServerCapabilities).
    Sync,
    /// An array.
    Array,
    /// An object.
    Object,
}

/// Whether a member must or may be there.
#[derive(Clone, Copy)]
pub(crate) enum Need {
    /// It must be there.
    Must,
    /// It may be missing or null.
    May,
}

/// A member: the JSON pointer (RFC 6901) of the object that it is in, its name, whether it must be
/// there, and what it is. Where the pointer leads to no object, nothing is asked.
pub(crate) type Row = (&'static str, &'static str, Need, Kind);

/// A part of the params of a method: the method, and the JSON pointer of the array whose items are
/// meant, or none for the params themselves; then what these must be, and their members.
pub(crate) type Part = (&'static str, Option<&'static str>, Kind, &'static [Row]);

/// InitializeParams, ClientCapabilities, GeneralClientCapabilities.
const INITIALIZE: [Row; 3] = [
    ("", "capabilities", Must, Object),
    ("/capabilities", "general", May, Object),
    ("/capabilities/general", "positionEncodings", May, Array),
];

/// WorkDoneProgressParams.
const WORK_DONE_PROGRESS: [Row; 1] = [("", "workDoneToken", May, Id)];

/// DidOpenTextDocumentParams, TextDocumentItem.
const DID_OPEN: [Row; 4] = [
    ("", "textDocument", Must, Object),
    ("/textDocument", "uri", Must, Text),
    ("/textDocument", "version", Must, Integer),
    ("/textDocument", "text", Must, Text),
];

/// DidChangeTextDocumentParams, VersionedTextDocumentIdentifier.
const DID_CHANGE: [Row; 4] = [
    ("", "textDocument", Must, Object),
    ("/textDocument", "uri", Must, Text),
    ("/textDocument", "version", Must, Integer),
    ("", "contentChanges", Must, Array),
];

/// TextDocumentContentChangeEvent, Range, Position.
const CHANGE: [Row; 8] = [
    ("", "range", May, Object),
    ("/range", "start", Must, Object),
    ("/range/start", "line", Must, Uinteger),
    ("/range/start", "character", Must, Uinteger),
    ("/range", "end", Must, Object),
    ("/range/end", "line", Must, Uinteger),
    ("/range/end", "character", Must, Uinteger),
    ("", "text", Must, Text),
];

/// DidCloseTextDocumentParams, TextDocumentIdentifier.
const DID_CLOSE: [Row; 2] = [
    ("", "textDocument", Must, Object),
    ("/textDocument", "uri", Must, Text),
];

/// DidSaveTextDocumentParams, TextDocumentIdentifier.
const DID_SAVE: [Row; 3] = [
    ("", "textDocument", Must, Object),
    ("/textDocument", "uri", Must, Text),
    ("", "text", May, Text),
];

/// CancelParams.
const CANCEL: [Row; 1] = [("", "id", Must, Id)];

/// ProgressParams.
const PROGRESS: [Row; 1] = [("", "token", Must, Id)];

/// RegistrationParams.
const REGISTER: [Row; 1] = [("", "registrations", Must, Array)];

/// Registration.
const REGISTRATION: [Row; 1] = [("", "method", Must, Text)];

/// The params of the methods.
pub(crate) const PARAMS: [Part; 12] = [
    ("initialize", None, Object, &INITIALIZE),
    (
        "initialize",
        Some("/capabilities/general/positionEncodings"),
        Text,
        &[],
    ),
    ("initialize", None, Object, &WORK_DONE_PROGRESS),
    ("textDocument/didOpen", None, Object, &DID_OPEN),
    ("textDocument/didChange", None, Object, &DID_CHANGE),
    (
        "textDocument/didChange",
        Some("/contentChanges"),
        Object,
        &CHANGE,
    ),
    ("textDocument/didClose", None, Object, &DID_CLOSE),
    ("textDocument/didSave", None, Object, &DID_SAVE),
    ("$/cancelRequest", None, Object, &CANCEL),
    ("$/progress", None, Object, &PROGRESS),
    ("client/registerCapability", None, Object, &REGISTER),
    (
        "client/registerCapability",
        Some("/registrations"),
        Object,
        &REGISTRATION,
    ),
];

/// InitializeResult, ServerCapabilities, TextDocumentSyncOptions.
pub(crate) const RESULT: [Row; 4] = [
    ("", "capabilities", Must, Object),
    ("/capabilities", "positionEncoding", May, Text),
    ("/capabilities", "textDocumentSync", May, Sync),
    ("/capabilities/textDocumentSync", "change", May, SyncKind),
];
