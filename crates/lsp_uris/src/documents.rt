//! What a call says of a document whose text is held: that text again, or another.
ghost use Rattle.std.specs.Prelude.{◌≡◌, List, Some, chars, is_none};
ghost use Rattle.std.specs.List.{list_any};
ghost use Rattle.lsp_docs.specs.Calls.{Call as SpecCall, opens};
ghost use Rattle.lsp_docs.specs.Documents.{held};
ghost use Rattle.lsp_docs.specs.State.{Stands};
ghost use Rattle.lsp_docs.specs.Taken.{call_view};
ghost use Rattle.lsp_verdict.specs.Offences.{is_other, is_reopened, renews};

use lsp_docs::{Call, Docs, has_text};
use lsp_rpc::Change;
use lsp_text::TextStore;

/// Whether a change is of the whole text.
fn any_whole(changes: &[Change]) -> bool
    ensures { result ≡ list_any (λ change. is_none change.span) changes.now }
{
    changes.iter().any(|change| change.span.is_none())
}

/// Whether a call gives the whole text of its document again.
#[inline(always)]
pub fn renews(call: Call<'_>) -> bool
    ensures { result ≡ renews (call_view call.entry) }
{
    match call {
        Call::Opens { .. } => true,
        Call::Changes { changes, .. } => any_whole(changes),
        Call::Closes { .. } => false,
        Call::Saves { .. } => false,
        Call::Shows { .. } => false,
    }
}

/// Whether another version or text is held of a document.
fn holds_other<S: TextStore>(docs: &Docs<S>, uri: &str, version: i32, text: &str) -> bool
    ensures { (calls : List SpecCall) → Stands docs.now calls
        → result ≡ is_other docs.now.terms (opens uri.now version (chars text.now))
        (held docs.now.terms uri.now calls) }
{
    let Some(number) = docs.version_of(uri) else {
        return false;
    };
    let Some(store) = docs.store_of(uri) else {
        return false;
    };
    if number != version {
        return true;
    }
    !has_text(docs.line_ends(), store, text)
}

/// Whether a call opens a document that is open, with another version or text than is held of it.
pub fn reopens<S: TextStore>(docs: &Docs<S>, call: Call<'_>) -> bool
    ensures { (calls : List SpecCall) → Stands docs.now calls
        → result ≡ is_reopened docs.now.terms calls (Some (call_view call.entry)) }
{
    match call {
        Call::Opens { uri, version, text } => holds_other(docs, uri, version, text),
        _ => false,
    }
}
