//! Facts on calls that break a rule on documents.

ghost use Rattle.std.specs.Prelude.{◌≡◌, [], ◌∷◌, ◌++◌, List, false, Some, IfOk, OnOk, codes};
ghost use Rattle.std.specs.Prelude.{option_map};
ghost use Rattle.std.specs.Str.{chars};
ghost use Rattle.json.specs.Print.{quoted};
ghost use Rattle.lsp_replay.specs.Common.{call_rule, call_view, edits_of, held, IsTried, Stands};
ghost use Rattle.lsp_replay.specs.Common.{tried_in, uri_of};
ghost use Rattle.lsp_docs.specs.Calls.{Call as SpecCall, changes as changes_by};
ghost use Rattle.lsp_docs.specs.Snapshots.{kept};
ghost use Rattle.lsp_verdict.specs.Report.{line};
ghost use Rattle.lsp_facts.specs.DocumentFacts.{held_fact, kept_fact, opening_facts, sent_facts};
ghost use Rattle.lsp_facts.specs.DocumentFacts.{editor_key, AreDetails, AreDocumentFacts};
ghost use Rattle.lsp_facts.specs.DocumentFacts.{AreOfRule};
ghost use Rattle.lsp_facts.specs.TwoTexts as spec;

use crate::difference::apart;
use crate::earlier::Earlier;
use crate::facts::Facts;
use crate::made::{Made, as_tried};
use crate::refused_change::{misfit, refused};
use crate::two_texts::texts_of;
use lsp_docs::{Call, Docs, Tried};
use lsp_replay::EventPlace;
use lsp_rpc::Result;
use lsp_text::TextStore;
use lsp_types::{Change, Encoding, SyncKind, rules};
use std::alloc::Global;

/// What is said about a call that breaks this rule, 601 to 702. Columns count units of the
/// encoding. The documents are those before the call, this was tried of its changes, and this is
/// known of the events before it.
///
/// # Errors
/// `Memory` where memory was refused.
pub fn call_facts<S: TextStore>(
    docs: &Docs<S>,
    encoding: Encoding,
    call: Call<'_>,
    rule: u16,
    tried: Option<&Tried<S>>,
    earlier: Earlier,
) -> Result<Facts>
    ensures { IfOk result (λ facts. (calls : List SpecCall) → Stands docs.now calls
        → call_rule docs.now.terms calls (call_view call.entry) ≡ Some rule
        → IsTried docs.now.terms calls (call_view call.entry)
        (tried_in S.content (option_map (λ t. t.now) tried.entry))
        → AreDocumentFacts docs.now.terms encoding calls (call_view call.entry) rule earlier
        facts) }
{
    let mut facts = head(docs, call.uri(), earlier.set_by)?;
    push_sent(&mut facts, call)?;
    facts.append(details(docs, encoding, call, rule, tried, earlier.was_equal)?)?;
    Ok(facts)
}

/// The URI, the version that is held of it, and the event that set that.
fn head<S: TextStore>(docs: &Docs<S>, uri: &str, set_by: Option<EventPlace>) -> Result<Facts>
    ensures { IfOk result (λ facts. (calls : List SpecCall) → Stands docs.now calls
        → facts ≡ line (codes "uri" ∷ quoted uri.now ∷ [])
        ∷ held_fact set_by (held docs.now.terms uri.now calls)) }
{
    let mut facts = Facts::new(docs.alloc());
    facts.text("uri", uri)?;
    if let Some(version) = docs.version_of(uri) {
        facts.held(version, set_by)?;
    }
    Ok(facts)
}

/// Adds the version that was sent, and how many changes; or that of a snapshot.
fn push_sent(facts: &mut Facts, call: Call<'_>) -> Result<()>
    ensures { OnOk result (facts.new ≡ facts.old ++ sent_facts (call_view call.entry)) }
{
    match call {
        Call::Opens { version, .. } => facts.version("sent", version),
        Call::Changes {
            version,
            changes,
            ..
        } => {
            facts.version("sent", version)?;
            facts.number("changes", changes.len() as u64)
        }
        Call::Shows { version, .. } => facts.version("version", version),
        Call::Closes { .. } | Call::Saves { .. } => Ok(()),
    }
}

/// What is said under the rule: of two texts, where it compares two; texts of the document may have
/// been equal before.
fn details<S: TextStore>(
    docs: &Docs<S>,
    encoding: Encoding,
    call: Call<'_>,
    rule: u16,
    tried: Option<&Tried<S>>,
    was_equal: bool,
) -> Result<Facts>
    ensures { IfOk result (λ facts. (calls : List SpecCall) → Stands docs.now calls
        → call_rule docs.now.terms calls (call_view call.entry) ≡ Some rule
        → IsTried docs.now.terms calls (call_view call.entry)
        (tried_in S.content (option_map (λ t. t.now) tried.entry))
        → AreDetails docs.now.terms encoding calls (call_view call.entry) rule was_equal
        (spec.texts_of docs.now.terms calls (call_view call.entry) rule) facts) }
{
    let Some(texts) = texts_of(docs, call, rule, tried) else {
        let facts = of_rule(docs, call, rule, tried)?;
        return Ok(facts);
    };
    let alloc = docs.alloc();
    let made = texts.by_messages.to_text(alloc)?;
    let ends = docs.line_ends();
    let key = editor_key(call);
    let facts = apart(
        alloc,
        ends,
        encoding,
        was_equal,
        made.as_str(),
        texts.in_editor,
        key,
    )?;
    Ok(facts)
}

/// The key of the text that was saved, or that the editor really had.
fn editor_key(call: Call<'_>) -> &'static str
    ensures { result.now ≡ editor_key (call_view call.entry) }
{
    match call {
        Call::Saves { .. } => "saved",
        _ => "in-editor",
    }
}

/// What is said under a rule that compares no texts.
fn of_rule<S: TextStore>(
    docs: &Docs<S>,
    call: Call<'_>,
    rule: u16,
    tried: Option<&Tried<S>>,
) -> Result<Facts>
    ensures { IfOk result (λ facts. (calls : List SpecCall) → Stands docs.now calls
        → call_rule docs.now.terms calls (call_view call.entry) ≡ Some rule
        → IsTried docs.now.terms calls (call_view call.entry)
        (tried_in S.content (option_map (λ t. t.now) tried.entry))
        → spec.is_of_texts rule ≡ false
        → AreOfRule docs.now.terms.limit
        (held docs.now.terms (uri_of (call_view call.entry)) calls)
        (kept docs.now.terms (uri_of (call_view call.entry)) calls) (call_view call.entry) rule
        facts) }
{
    match call {
        Call::Opens { text, .. } => of_opening(docs.alloc(), text, rule, docs.limit()),
        Call::Changes {
            encoding,
            kind,
            uri,
            version,
            changes,
        } => of_change(docs, encoding, kind, uri, version, changes, rule, tried),
        Call::Shows { uri, .. } => kept_facts(docs, uri),
        Call::Closes { .. } | Call::Saves { .. } => Ok(Facts::new(docs.alloc())),
    }
}

/// What is said about an opening with this text.
fn of_opening(alloc: Global, text: &str, rule: u16, limit: u64) -> Result<Facts>
    ensures { IfOk result (λ facts. facts ≡ opening_facts limit (chars text.now) rule) }
{
    let mut facts = Facts::new(alloc);
    if rule != rules::DOCUMENT_OVER_LIMIT {
        return Ok(facts);
    }
    facts.number("bytes", text.len() as u64)?;
    facts.number("limit", limit)?;
    Ok(facts)
}

/// What is said about a change under its rule.
fn of_change<S: TextStore>(
    docs: &Docs<S>,
    encoding: Encoding,
    kind: SyncKind,
    uri: &str,
    version: i32,
    changes: &[Change],
    rule: u16,
    tried: Option<&Tried<S>>,
) -> Result<Facts>
    ensures { IfOk result (λ facts. (calls : List SpecCall) → Stands docs.now calls
        → call_rule docs.now.terms calls
        (changes_by encoding kind uri.now version (edits_of changes.now)) ≡ Some rule
        → IsTried docs.now.terms calls
        (changes_by encoding kind uri.now version (edits_of changes.now))
        (tried_in S.content (option_map (λ t. t.now) tried.entry))
        → spec.is_of_texts rule ≡ false
        → AreOfRule docs.now.terms.limit (held docs.now.terms uri.now calls)
        (kept docs.now.terms uri.now calls)
        (changes_by encoding kind uri.now version (edits_of changes.now)) rule facts) }
{
    let alloc = docs.alloc();
    let Some(store) = docs.store_of(uri) else {
        return Ok(Facts::new(alloc));
    };
    if rule == rules::VERSION_DOES_NOT_RISE {
        return Ok(Facts::new(alloc));
    }
    if rule == rules::CHANGE_NOT_OF_KIND {
        return misfit(alloc, store, encoding, kind, changes, docs.limit());
    }
    let Made { store, count } = as_tried(store, tried);
    if changes.len() <= count {
        return Ok(Facts::new(alloc));
    }
    let text = store.to_text(alloc)?;
    let text = text.as_str();
    let change = &changes[count];
    refused(alloc, encoding, text, count, change, rule, docs.limit())
}

/// The versions that are kept of a URI, where there are any.
fn kept_facts<S: TextStore>(docs: &Docs<S>, uri: &str) -> Result<Facts>
    ensures { IfOk result (λ facts. (calls : List SpecCall) → Stands docs.now calls
        → facts ≡ kept_fact (kept docs.now.terms uri.now calls)) }
{
    let mut facts = Facts::new(docs.alloc());
    let numbers = docs.kept_versions(uri)?;
    if numbers.len() > 0 {
        facts.kept(numbers.as_slice())?;
    }
    Ok(facts)
}
