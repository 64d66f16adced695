//! Documents of which a message that was to change the text was skipped.
ghost use Rattle.std.specs.Prelude.{◌≡◌, ◌++◌, ◌∷◌, [], List, IfOk, OnOk, false, option_map};
ghost use Rattle.std.specs.Prelude.{string_bytes, true};
ghost use Rattle.lsp_docs.specs.Calls.{Call as SpecCall};
ghost use Rattle.lsp_trail.specs.Common.{call_view, Heard, is_reopened, IsSeen, raw_view, Stands};
ghost use Rattle.lsp_trail.specs.Common.{Terms};
ghost use Rattle.lsp_uris.specs.Held.{has_uri};
ghost use Rattle.lsp_notes.specs.Behind as spec;
ghost use Rattle.lsp_notes.specs.Behind.{AreBehind, PutsBehind, is_among, renewed};

use indexmap::IndexMap;
use lsp_docs::{Call, Docs};
use lsp_lined::Lined;
use lsp_outline::document_of;
use lsp_replay::{Events, Fate, Seen};
use lsp_rpc::{Result, Side};
use lsp_types::rules;
use lsp_uris::{Uris, add_uri, forget_uri, renews, reopens, sets_text};
use lsp_verdict::Raw;
use std::alloc::Global;

/// The documents that are behind: a message that was to change the text was skipped, since it broke
/// a rule, and none has given the whole text since. So what is held is not the editor's text.
///
/// It stands for the events of a session.
#[derive(Drop)]
pub(crate) struct Behind {
    uris: Uris,
}

impl Behind {
    /// None is.
    pub(crate) fn new(alloc: Global) -> Behind
        ensures { (terms : Terms) → AreBehind terms result [] }
    {
        Behind {
            uris: IndexMap::new(alloc),
        }
    }

    /// Whether what is said, if anything, is about a document that is behind.
    pub(crate) fn has(&self, said: Option<Call<'_>>) -> bool
        ensures { result ≡ is_among self.now.uris.entries (option_map call_view said.entry) }
    {
        match said {
            Some(call) => self.has_uri(call.uri()),
            None => false,
        }
    }

    fn has_uri(&self, uri: &str) -> bool
        ensures { result ≡ has_uri self.now.uris.entries uri.now }
    {
        self.uris.contains_key(uri)
    }

    /// Notes the next event.
    pub(crate) fn note(&mut self, held: &Events<Lined>, seen: &Seen<'_>) -> Result<()>
        ensures { OnOk result ((terms : Terms) (before : List Heard) (h : Heard)
            → AreBehind terms self.old before
            → IsSeen held.now.session held.now.docs held.now.counts seen.now terms before h
            → AreBehind terms self.new (before ++ h ∷ [])) }
    {
        match seen.fate {
            Fate::Kept(_) => {
                renew(&mut self.uris, seen.call);
                Ok(())
            }
            Fate::Offends { rule, .. } => {
                skip(&mut self.uris, &held.docs, seen.raw, rule, seen.call)
            }
        }
    }
}

/// A message is kept that says this of a document, if anything: whether it gives the whole text.
fn renew(uris: &mut Uris, said: Option<Call<'_>>)
    ensures { PutsBehind false (renewed (option_map call_view said.entry)) uris.old.entries
        uris.new.entries }
{
    let Some(call) = said else {
        return;
    };
    if !renews(call) {
        return;
    }
    forget_uri(uris, call.uri());
}

/// An event is skipped that breaks this rule, and says this of a document, if anything.
fn skip(
    uris: &mut Uris,
    docs: &Docs<Lined>,
    raw: Raw<'_>,
    rule: u16,
    said: Option<Call<'_>>,
) -> Result<()>
    ensures { OnOk result ((calls : List SpecCall) → Stands docs.now calls
        → PutsBehind true (spec.skipped (raw_view raw.entry) rule
        (is_reopened docs.now.terms calls (option_map call_view said.entry))
        (option_map call_view said.entry)) uris.old.entries uris.new.entries) }
{
    let Some(call) = said else {
        return skip_malformed(uris, docs.alloc(), raw, rule);
    };
    if parts(rule, reopens(docs, call), call) {
        return add_uri(uris, call.uri());
    }
    Ok(())
}

/// Whether a call that breaks this rule was to change the text that is held of its document. An
/// opening of an open document was only if it is `reopened` with another version or text.
fn parts(rule: u16, reopened: bool, call: Call<'_>) -> bool
    ensures { result ≡ spec.parts rule reopened (call_view call.entry) }
{
    if rule == rules::DOCUMENT_ALREADY_OPEN {
        return reopened;
    }
    sets_text(call)
}

/// An event is skipped that breaks this rule, and is no call: if its params do not have their
/// shape, it may have been to change the document that they name.
fn skip_malformed(uris: &mut Uris, alloc: Global, raw: Raw<'_>, rule: u16) -> Result<()>
    ensures { OnOk result (PutsBehind true (spec.malformed (raw_view raw.entry) rule)
        uris.old.entries uris.new.entries) }
{
    let Some(uri) = malformed(alloc, raw, rule)? else {
        return Ok(());
    };
    add_uri(uris, uri.as_str())
}

/// The document that a message of the editor names whose params do not have their shape.
fn malformed(alloc: Global, raw: Raw<'_>, rule: u16) -> Result<Option<String>>
    ensures { IfOk result (λ uri. option_map string_bytes uri
        ≡ spec.malformed (raw_view raw.entry) rule) }
{
    if rule != rules::BAD_METHOD_PARAMS {
        return Ok(None);
    }
    match raw {
        Raw::Content {
            side: Side::Editor,
            content,
            ..
        } => document_of(alloc, Side::Editor, content),
        _ => Ok(None),
    }
}
