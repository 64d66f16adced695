//! The text to which a call brings its document.

ghost use Rattle.std.specs.Prelude.{◌≡◌, ℕ, List, Some, true, option_map};
ghost use Rattle.lsp_replay.specs.Common.{AreTriedOn, call_rule, call_view, edits_of, Encoding};
ghost use Rattle.lsp_replay.specs.Common.{held, IsTried, Stands, tried_in};
ghost use Rattle.lsp_docs.specs.Calls.{Call as SpecCall};
ghost use Rattle.lsp_docs.specs.Tried.{made_of};
ghost use Rattle.lsp_facts.specs.Refuting.{brings, made_text};
ghost use Rattle.lsp_facts.specs.TwoTexts.{brought_view, is_of_texts};

use crate::lent_text::LentText;
use lsp_docs::{Call, Docs, Tried};
use lsp_text::TextStore;
use lsp_types::Change;

/// A text in which as many changes are made as can be.
pub(crate) struct Made<'a, S: TextStore> {
    pub(crate) store: &'a S,
    /// How many of them are made.
    pub(crate) count: usize,
}

/// A version to which a call brings its document.
#[derive(Drop)]
pub(crate) struct Brought<'a, S: TextStore> {
    pub(crate) version: i32,
    pub(crate) text: LentText<'a, S>,
}

/// The version to which a call that breaks 608 or 702 brings its document, if it does and its
/// changes can be made. The documents are those before it, and this was tried of its changes.
pub(crate) fn brings<'a, S: TextStore>(
    docs: &'a Docs<S>,
    call: Call<'a>,
    tried: Option<&'a Tried<S>>,
) -> Option<Brought<'a, S>>
    ensures { (calls : List SpecCall) (rule : ℕ) → Stands docs.now calls
        → call_rule docs.now.terms calls (call_view call.entry) ≡ Some rule
        → is_of_texts rule ≡ true
        → IsTried docs.now.terms calls (call_view call.entry)
        (tried_in S.content (option_map (λ t. t.now) tried.entry))
        → option_map (brought_view S.content) result
        ≡ brings docs.now.terms calls (call_view call.entry) }
{
    match call {
        Call::Opens { version, text, .. } => Some(Brought {
            version,
            text: LentText::Whole(text),
        }),
        Call::Changes {
            uri,
            version,
            changes,
            ..
        } => {
            let store = whole(docs, uri, changes, tried)?;
            Some(Brought {
                version,
                text: LentText::Stored(store),
            })
        }
        _ => None,
    }
}

/// The text with the changes made, if the document is open and all can be made. This was tried.
fn whole<'a, S: TextStore>(
    docs: &'a Docs<S>,
    uri: &str,
    changes: &[Change],
    tried: Option<&'a Tried<S>>,
) -> Option<&'a S>
    ensures { (encoding : Encoding) (calls : List SpecCall) → Stands docs.now calls
        → AreTriedOn docs.now.terms.limit encoding (held docs.now.terms uri.now calls)
        (edits_of changes.now) (tried_in S.content (option_map (λ t. t.now) tried.entry))
        → option_map (λ store. S.content store.now) result
        ≡ made_text docs.now.terms encoding (edits_of changes.now)
        (held docs.now.terms uri.now calls) }
{
    let Made { store, count } = as_tried(docs.store_of(uri)?, tried);
    if count < changes.len() {
        None
    } else {
        Some(store)
    }
}

/// What was tried of the changes of a held text; the text itself where none was made.
pub(crate) fn as_tried<'a, S: TextStore>(store: &'a S, tried: Option<&'a Tried<S>>) -> Made<'a, S>
    ensures { record { text = S.content result.store.now; count = result.count }
        ≡ made_of (S.content store.now) (tried_in S.content (option_map (λ t. t.now) tried.entry)) }
{
    match tried {
        Some(tried) => Made {
            store: &tried.store,
            count: tried.count,
        },
        None => Made { store, count: 0 },
    }
}
