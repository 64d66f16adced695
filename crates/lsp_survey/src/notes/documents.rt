//! What is said about documents, and what it leaves of the notes.
ghost use Rattle.std.specs.Prelude.{List, Some, None, OnOk, false, option_map, string_bytes};
ghost use Rattle.lsp_docs.specs.Calls.{Call as SpecCall};
ghost use Rattle.lsp_replay.specs.Common.{call_view, is_reopened, Stands};
ghost use Rattle.lsp_survey.specs.Notes.{AreAfter, Leaves};

use crate::notes::note::Notes;
use crate::notes::rules::loses;
use lsp_docs::{Call, Docs};
use lsp_rpc::Result;
use lsp_text::TextStore;
use lsp_types::rules;
use lsp_uris::{renews, reopens};

/// Notes a message or a snapshot that breaks this rule, with what it says about a document, if it
/// says anything.
pub(crate) fn note_refused<S: TextStore>(
    notes: &mut Notes,
    docs: &Docs<S>,
    rule: u16,
    said: Option<Call<'_>>,
) -> Result<()>
    ensures { OnOk result ((calls : List SpecCall) → Stands docs.now calls
        → Leaves (Some rule) None
        (is_reopened docs.now.terms calls (option_map call_view said.entry))
        (option_map call_view said.entry) notes.old.map.entries notes.new.map.entries) }
{
    let Some(call) = said else {
        return Ok(());
    };
    if !loses(rule, reopens(docs, call), call) {
        return Ok(());
    }
    if rule == rules::DOCUMENT_NOT_OPEN {
        return notes.lose_alike(call.uri());
    }
    notes.lose(call.uri())
}

/// Notes a message that breaks this rule, and the URI of the document that it was to open or to
/// change, if any.
pub(crate) fn note_malformed(notes: &mut Notes, rule: u16, brings: Option<String>) -> Result<()>
    ensures { OnOk result (Leaves (Some rule) (option_map string_bytes brings) false None
        notes.old.map.entries notes.new.map.entries) }
{
    let Some(uri) = brings else {
        return Ok(());
    };
    if rule == rules::BAD_METHOD_PARAMS {
        notes.lose(uri.as_str())
    } else {
        Ok(())
    }
}

/// Notes a message that is kept, with what it says about a document, if it says anything.
#[inline(always)]
pub(crate) fn note_kept(notes: &mut Notes, said: Option<Call<'_>>) -> Result<()>
    ensures { OnOk result (AreAfter (option_map call_view said.entry) notes.old.map.entries
        notes.new.map.entries) }
{
    let Some(call) = said else {
        return Ok(());
    };
    if renews(call) {
        notes.renew(call.uri())
    } else {
        Ok(())
    }
}
