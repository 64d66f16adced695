//! The two texts of a 608 or 702: what the messages make, and what the editor saved or showed.

ghost use Rattle.std.specs.Prelude.{◌≡◌, ℕ, List, Some, true, option_map};
ghost use Rattle.std.specs.Str.{chars};
ghost use Rattle.lsp_docs.specs.Calls.{Call as SpecCall};
ghost use Rattle.lsp_replay.specs.Common.{call_at, call_rule, call_view, calls, Event, IsTried};
ghost use Rattle.lsp_replay.specs.Common.{made_in, offence, Stands, tried_in, TriesCall};
ghost use Rattle.lsp_facts.specs.TwoTexts as spec;
ghost use Rattle.lsp_facts.specs.TwoTexts.{brought_view, seen_texts, texts_view};

use crate::lent_text::LentText;
use crate::made::{Brought, brings};
use lsp_docs::{Call, Docs, Tried};
use lsp_lined::Lined;
use lsp_replay::Events;
use lsp_text::TextStore;
use lsp_types::rules;

/// Two texts of one document that differ.
#[derive(Drop)]
pub struct TwoTexts<'a, S: TextStore> {
    /// The one that the messages make.
    pub by_messages: LentText<'a, S>,
    /// The one that the editor saved, or that a snapshot has.
    pub in_editor: &'a str,
}

/// Which of two texts that differ.
#[derive(Clone, Copy, Debug, PartialEq, Eq)]
pub enum ComparedText {
    /// The one that the messages make.
    ByMessages,
    /// The one that the editor saved, or that a snapshot has.
    InEditor,
}

/// The two texts of an event that offends by this rule and says this about a document, where it has
/// any; this was tried of its changes.
pub fn texts_at<'a>(
    held: &'a Events<Lined>,
    call: Option<Call<'a>>,
    rule: u16,
    tried: Option<&'a Tried<Lined>>,
) -> Option<TwoTexts<'a, Lined>>
    ensures { (kept : List Event) (event : Event) → Stands held.now.docs (calls kept)
        → option_map call_view call.entry ≡ call_at kept event
        → offence held.now.docs.terms kept event ≡ Some rule
        → TriesCall held.now.docs.terms kept (call_at kept event) rule
        (made_in (option_map (λ t. t.now) tried.entry))
        → option_map seen_texts result ≡ spec.texts_at held.now.docs.terms kept event rule }
{
    match call {
        Some(call) => texts_of(&held.docs, call, rule, tried),
        None => None,
    }
}

/// The two texts of a call that breaks this rule: none where that is not 608 or 702. The documents
/// are those before it, and this was tried of its changes.
pub fn texts_of<'a, S: TextStore>(
    docs: &'a Docs<S>,
    call: Call<'a>,
    rule: u16,
    tried: Option<&'a Tried<S>>,
) -> Option<TwoTexts<'a, S>>
    ensures { (calls : List SpecCall) → Stands docs.now calls
        → (spec.is_of_texts rule ≡ true
        → call_rule docs.now.terms calls (call_view call.entry) ≡ Some rule)
        → (spec.is_of_texts rule ≡ true → IsTried docs.now.terms calls (call_view call.entry)
        (tried_in S.content (option_map (λ t. t.now) tried.entry)))
        → option_map (texts_view S.content) result
        ≡ spec.texts_of docs.now.terms calls (call_view call.entry) rule }
{
    if is_of_texts(rule) {
        compared(docs, call, tried)
    } else {
        None
    }
}

/// Whether a rule says that two texts differ.
fn is_of_texts(rule: u16) -> bool
    ensures { result ≡ spec.is_of_texts rule }
{
    rule == rules::SAVED_TEXT_DIFFERS || rule == rules::SNAPSHOT_DIFFERS
}

/// The two texts of a call that breaks such a rule.
fn compared<'a, S: TextStore>(
    docs: &'a Docs<S>,
    call: Call<'a>,
    tried: Option<&'a Tried<S>>,
) -> Option<TwoTexts<'a, S>>
    ensures { (calls : List SpecCall) (rule : ℕ) → Stands docs.now calls
        → call_rule docs.now.terms calls (call_view call.entry) ≡ Some rule
        → spec.is_of_texts rule ≡ true
        → IsTried docs.now.terms calls (call_view call.entry)
        (tried_in S.content (option_map (λ t. t.now) tried.entry))
        → option_map (texts_view S.content) result
        ≡ spec.compared docs.now.terms calls (call_view call.entry) }
{
    match call {
        Call::Saves { uri, text } => stored(docs.store_of(uri), text?),
        Call::Shows { uri, version, text } => stored(docs.store_at(uri, version), text),
        _ => {
            let brought = brings(docs, call, tried)?;
            against(docs, call.uri(), brought)
        }
    }
}

/// The text of a version, and that of the first snapshot that waits for it and has another.
fn against<'a, S: TextStore>(
    docs: &'a Docs<S>,
    uri: &str,
    brought: Brought<'a, S>,
) -> Option<TwoTexts<'a, S>>
    ensures { (calls : List SpecCall) → Stands docs.now calls
        → option_map (texts_view S.content) result
        ≡ spec.against docs.now.terms calls uri.now (brought_view S.content brought.entry) }
{
    let Brought { version, text } = brought;
    let waiting = docs.waiting_texts(uri, version);
    let in_editor = text.first_other(docs.line_ends(), waiting)?;
    Some(TwoTexts {
        by_messages: text,
        in_editor,
    })
}

/// The text of a store, where there is one, and this one.
fn stored<'a, S: TextStore>(store: Option<&'a S>, text: &'a str) -> Option<TwoTexts<'a, S>>
    ensures { option_map (texts_view S.content) result
        ≡ spec.recorded (chars text.now) (option_map (λ s. S.content s.now) store.entry) }
{
    Some(TwoTexts {
        by_messages: LentText::Stored(store?),
        in_editor: text,
    })
}
