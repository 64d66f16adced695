//! Which document a message names in its params, and whether a document is open.
ghost use Rattle.std.specs.Prelude.{◌≡◌, IfOk, List, None, is_some, option_map, string_bytes};
ghost use Rattle.lsp_docs.specs.Calls.{Call as SpecCall};
ghost use Rattle.lsp_replay.specs.Common.{Event, held, MaySpeak, message_view, outline, Stands};
ghost use Rattle.lsp_trail.specs.Naming as spec;
ghost use Rattle.lsp_trail.specs.Naming.{version_named, version_named_at};
ghost use Rattle.lsp_outline.specs.Versions.{version_view, versioned};
ghost use Rattle.lsp_rpc.specs.Message.{Message as AMessage};
ghost use Rattle.lsp_rpc.specs.Reading.{Reads};
ghost use Rattle.lsp_types.specs.declared.side.Side.TheVariants.{Editor, Server};
ghost use Rattle.lsp_verdict.specs.Given.{raw_view};
ghost use Rattle.lsp_verdict.specs.Placed as placed;

use lsp_docs::Docs;
use lsp_lined::Lined;
use lsp_outline::{DocumentVersion, document_of, version_of};
use lsp_rpc::{Message, Result, Side, Spoken};
use lsp_verdict::Raw;
use std::alloc::Global;

// ---- the document that a message names

/// The document that the message of an event names: any of the editor's may name one, and of the
/// server's the diagnostics, with the version of it. It is read once for all notes.
///
/// # Errors
/// `Memory` where memory was refused.
pub fn named_document(
    alloc: Global,
    raw: Raw<'_>,
    spoken: Option<&Spoken>,
) -> Result<Option<DocumentVersion>>
    ensures { IfOk result (λ named. (kept : List Event) (event : Event)
        → placed.Reads (raw_view raw.entry) event
        → MaySpeak kept event (option_map (λ s. s.now) spoken.entry)
        → option_map version_view named ≡ version_named_at event) }
{
    let Raw::Content { side, content, .. } = raw else {
        return Ok(None);
    };
    let Some(spoken) = spoken else {
        return Ok(None);
    };
    named_in(alloc, side, &spoken.message, content)
}

/// The one that a message of this side names, read from this content.
fn named_in(
    alloc: Global,
    side: Side,
    message: &Message,
    content: &[u8],
) -> Result<Option<DocumentVersion>>
    ensures { IfOk result (λ named. (m : AMessage) → Reads content.now m
        → outline m ≡ outline (message_view message.now)
        → option_map version_view named ≡ version_named side m) }
{
    match side {
        Side::Editor => by_editor(alloc, message, content),
        Side::Server => by_server(alloc, message, content),
    }
}

fn by_editor(alloc: Global, message: &Message, content: &[u8]) -> Result<Option<DocumentVersion>>
    ensures { IfOk result (λ named. (m : AMessage) → Reads content.now m
        → outline m ≡ outline (message_view message.now)
        → option_map version_view named ≡ version_named Editor m) }
{
    if !is_call(message) {
        return Ok(None);
    }
    let uri = document_of(alloc, Side::Editor, content)?;
    Ok(without_version(uri))
}

fn by_server(alloc: Global, message: &Message, content: &[u8]) -> Result<Option<DocumentVersion>>
    ensures { IfOk result (λ named. (m : AMessage) → Reads content.now m
        → outline m ≡ outline (message_view message.now)
        → option_map version_view named ≡ version_named Server m) }
{
    if !diagnoses(message) {
        return Ok(None);
    }
    version_of(alloc, content)
}

fn without_version(uri: Option<String>) -> Option<DocumentVersion>
    ensures { option_map version_view result
        ≡ option_map (versioned None) (option_map (λ s. string_bytes s) uri) }
{
    let uri = uri?;
    Some(DocumentVersion { uri, version: None })
}

fn is_call(message: &Message) -> bool
    ensures { result ≡ spec.is_call (message_view message.now) }
{
    !matches!(message, Message::Response { .. })
}

/// Whether a message is a notification of diagnostics.
fn diagnoses(message: &Message) -> bool
    ensures { result ≡ spec.diagnoses (message_view message.now) }
{
    match message {
        Message::Notification { method, .. } => is_diagnostics(method.as_str()),
        _ => false,
    }
}

pub(crate) fn is_diagnostics(method: &str) -> bool
    ensures { result ≡ spec.is_diagnostics method.now }
{
    method == "textDocument/publishDiagnostics"
}

// ---- whether it is open

/// Whether the document of this URI is open.
pub(crate) fn is_open(docs: &Docs<Lined>, uri: &str) -> bool
    ensures { (calls : List SpecCall) → Stands docs.now calls
        → result ≡ is_some (held docs.now.terms uri.now calls) }
{
    docs.version_of(uri).is_some()
}

/// The URI, if no document of it is open.
#[inline(never)]
pub fn if_unopened<'a>(docs: &Docs<Lined>, uri: &'a str) -> Option<&'a str>
    ensures { (calls : List SpecCall) → Stands docs.now calls
        → option_map (λ uri. uri.now) result ≡ spec.if_unopened docs.now.terms calls uri.now }
{
    if is_open(docs, uri) { None } else { Some(uri) }
}
