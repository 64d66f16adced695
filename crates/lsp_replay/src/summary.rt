//! The result of a session that keeps the rules.
ghost use Rattle.std.specs.Prelude.{◌≡◌, ◌++◌, List, Some, map, IfOk, OnOk};
ghost use Rattle.lsp_session.specs.Entry.{request_view};
ghost use Rattle.lsp_docs.specs.Calls.{Call, byte_len};
ghost use Rattle.lsp_docs.specs.Documents.{Version, held, documents};
ghost use Rattle.lsp_docs.specs.State as docs_state;
ghost use Rattle.lsp_session.specs.State as session_state;
ghost use Rattle.lsp_verdict.specs.Event.{Event, sent_in};
ghost use Rattle.lsp_verdict.specs.Given.{document_view, requests_view, summary_view, as_given};
ghost use Rattle.lsp_replay.specs.Standing.{Follows};
ghost use Rattle.lsp_verdict.specs.Verdict as spec;
ghost use Rattle.lsp_verdict.specs.Verdict.{document_of, yes};

use crate::events::Events;
use lsp_docs::Docs;
use lsp_rpc::{Result, Side, copy_id};
use lsp_session::{OpenRequest, Pending, Session};
use lsp_text::TextStore;
use lsp_verdict::{OpenDocument, Summary};
use std::alloc::Global;

/// The result of the events, read off what is held.
pub fn summary_of<S: TextStore>(alloc: Global, events: &Events<S>) -> Result<Summary>
    ensures { IfOk result (λ summary. (so_far : List Event)
        → Follows events.now.session events.now.docs events.now.counts so_far
        → yes (summary_view summary) ≡ as_given (yes (spec.summary events.now.docs.terms so_far))) }
{
    Ok(Summary {
        editor: events.counts.editor,
        server: events.counts.server,
        snapshots: events.counts.snapshots,
        unmatched: events.docs.unmatched(),
        encoding: events.session.encoding(),
        sync: events.session.sync_kind(),
        documents: open_documents(alloc, &events.docs)?,
        requests: open_requests(alloc, &events.session)?,
    })
}

/// The documents that are open, in the order in which they were opened.
fn open_documents<S: TextStore>(alloc: Global, docs: &Docs<S>) -> Result<Vec<OpenDocument>>
    ensures { IfOk result (λ found. (calls : List Call) → docs_state.Stands docs.now calls
        → map document_view found.items ≡ map document_of (documents docs.now.terms calls)) }
{
    let mut found = Vec::new(alloc);
    let mut uris = docs.uris();
    while let Some(uri) = uris.next() {
        found.push(open_document(alloc, docs, uri)?)?;
    }
    Ok(found)
}

fn open_document<S: TextStore>(alloc: Global, docs: &Docs<S>, uri: &str) -> Result<OpenDocument>
    ensures { IfOk result (λ found. (calls : List Call) (version : Version)
        → docs_state.Stands docs.now calls
        → held docs.now.terms uri.now calls ≡ Some version
        → document_view found ≡ document_of (record { uri = uri.now; version = version })) }
{
    Ok(OpenDocument {
        uri: String::from_str(alloc, uri)?,
        version: version_held(docs, uri),
        bytes: bytes_held(docs, uri),
    })
}

/// The version of an open document.
fn version_held<S: TextStore>(docs: &Docs<S>, uri: &str) -> i32
    ensures { (calls : List Call) (version : Version) → docs_state.Stands docs.now calls
        → held docs.now.terms uri.now calls ≡ Some version → result ≡ version.number }
{
    docs.version_of(uri).unwrap_or(0)
}

/// The bytes of UTF-8 that the text of an open document has.
fn bytes_held<S: TextStore>(docs: &Docs<S>, uri: &str) -> u64
    ensures { (calls : List Call) (version : Version) → docs_state.Stands docs.now calls
        → held docs.now.terms uri.now calls ≡ Some version → result ≡ byte_len version.text }
{
    match docs.store_of(uri) {
        Some(store) => store.byte_len(),
        None => 0,
    }
}

/// The requests that are open: the editor's, then the server's, each in the order in which they
/// were sent.
fn open_requests(alloc: Global, session: &Session) -> Result<Vec<(Side, OpenRequest)>>
    ensures { IfOk result (λ found. (so_far : List Event)
        → session_state.Stands session.now (sent_in so_far)
        → requests_view found.items ≡ spec.open_of Side.Editor so_far
        ++ spec.open_of Side.Server so_far) }
{
    let mut found = Vec::new(alloc);
    push_requests(&mut found, Side::Editor, session.pending(Side::Editor))?;
    push_requests(&mut found, Side::Server, session.pending(Side::Server))?;
    Ok(found)
}

fn push_requests(found: &mut Vec<(Side, OpenRequest)>, side: Side, pending: &Pending) -> Result<()>
    ensures { OnOk result (requests_view found.new.items ≡ requests_view found.old.items
        ++ map (λ r. (side, r)) pending.now) }
{
    let mut requests = pending.walk();
    while let Some(request) = requests.next() {
        found.push((side, copy_request(request)?))?;
    }
    Ok(())
}

fn copy_request(request: &OpenRequest) -> Result<OpenRequest>
    ensures { IfOk result (λ copy. request_view copy ≡ request_view request.now) }
{
    Ok(OpenRequest {
        id: copy_id(&request.id)?,
        method: request.method.clone()?,
        cancelled: request.cancelled,
    })
}
