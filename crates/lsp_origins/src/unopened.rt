//! What is said about a document that is not open.
ghost use Rattle.std.specs.Prelude.{◌≡◌, ◌++◌, List, OnOk};
ghost use Rattle.std.specs.List.{flat_map};
ghost use Rattle.lsp_trail.specs.Common.{call_view, Event, is_standing, on_view, ons_view};
ghost use Rattle.lsp_trail.specs.Common.{StandsAfter, terms_in, uri_of};
ghost use Rattle.lsp_origins.specs.Traced as spec;

use lsp_docs::Call;
use lsp_facts::Facts;
use lsp_replay::EventPlace;
use lsp_rpc::Result;
use lsp_trail::{Closing, DocumentEvent, Past, is_spelled, stands_open};
use lsp_types::rules;
use lsp_uris::folded;

/// Adds to the facts on a call that breaks this rule, under 602, how the document of which it
/// speaks was closed, and saved since, and which documents with a similar URI are open. The past is
/// of the events before it.
pub(crate) fn trace_unopened(
    facts: &mut Facts,
    past: Past<'_>,
    call: Call<'_>,
    rule: u16,
) -> Result<()>
    ensures { OnOk result ((before : List Event) → StandsAfter past.entry before
        → facts.new ≡ facts.old ++ spec.unopened_traced (terms_in past.entry) before rule
        (uri_of (call_view call.entry))) }
{
    if rule != rules::DOCUMENT_NOT_OPEN {
        return Ok(());
    }
    let uri = call.uri();
    let closing = past.trail.openings.closing(uri);
    push_closing(facts, closing)?;
    push_saved(facts, closing, past.trail.saves.last(uri))?;
    push_similar(facts, past, uri)
}

fn push_closing(facts: &mut Facts, closing: Closing) -> Result<()>
    ensures { OnOk result (facts.new ≡ facts.old
        ++ spec.closing_facts closing) }
{
    match closing {
        Closing::Last(place) => facts.event("closed", place),
        Closing::Never => facts.word("opened", "never"),
        Closing::Forgotten => Ok(()),
    }
}

/// Adds the message that saved the document last while it was not open, if none closed it since.
fn push_saved(facts: &mut Facts, closing: Closing, saved: Option<EventPlace>) -> Result<()>
    ensures { OnOk result (facts.new ≡ facts.old ++ spec.saved_facts closing saved) }
{
    match saved {
        Some(place) => push_save(facts, closing, place),
        None => Ok(()),
    }
}

fn push_save(facts: &mut Facts, closing: Closing, place: EventPlace) -> Result<()>
    ensures { OnOk result (facts.new ≡ facts.old ++ spec.save_facts closing place) }
{
    if is_since(closing, place) {
        facts.event("saved-as", place)
    } else {
        Ok(())
    }
}

/// Whether the event of this place comes after the closing, if one is known.
fn is_since(closing: Closing, place: EventPlace) -> bool
    ensures { result ≡ spec.is_since closing place }
{
    match closing {
        Closing::Last(closed) => closed.event < place.event,
        Closing::Never => true,
        Closing::Forgotten => true,
    }
}

/// Adds the open documents of which the URI differs from this one in its spelling alone.
fn push_similar(facts: &mut Facts, past: Past<'_>, uri: &str) -> Result<()>
    ensures { OnOk result ((before : List Event) → StandsAfter past.entry before
        → facts.new ≡ facts.old ++ spec.similar_facts (terms_in past.entry) before uri.now) }
{
    let size = uri.len();
    let spelling = folded(facts.alloc(), uri)?;
    let spelling = spelling.as_slice();
    let (first, second) = past.trail.openings.last_opened();
    push_spelled(facts, past, size, spelling, first)?;
    push_spelled(facts, past, size, spelling, second)
}

/// Adds those of the open documents that these messages opened and that differ in their spelling
/// alone from a URI of this size with this spelling.
fn push_spelled(
    facts: &mut Facts,
    past: Past<'_>,
    size: usize,
    spelling: &[u8],
    opened: &[DocumentEvent],
) -> Result<()>
    ensures { OnOk result ((before : List Event) → StandsAfter past.entry before
        → facts.new ≡ facts.old ++ flat_map (spec.similar_fact (terms_in past.entry) before size
        spelling.now) (ons_view opened.now)) }
{
    for on in opened {
        push_spelled_one(facts, past, size, spelling, on)?;
    }
    Ok(())
}

fn push_spelled_one(
    facts: &mut Facts,
    past: Past<'_>,
    size: usize,
    spelling: &[u8],
    on: &DocumentEvent,
) -> Result<()>
    ensures { OnOk result ((before : List Event) → StandsAfter past.entry before
        → facts.new ≡ facts.old ++ spec.similar_fact (terms_in past.entry) before size
        spelling.now (on_view on.now)) }
{
    if !is_spelled(facts.alloc(), size, spelling, on.uri.as_str())? {
        return Ok(());
    }
    if !is_standing(past, on) {
        return Ok(());
    }
    facts.text_by("similar", on.uri.as_str(), on.place)
}

/// Whether the document is open that this message opened, and none opened it later.
fn is_standing(past: Past<'_>, on: &DocumentEvent) -> bool
    ensures { (before : List Event) → StandsAfter past.entry before
        → result ≡ is_standing (terms_in past.entry) before (on_view on.now) }
{
    let Past { held, trail } = past;
    stands_open(&held.docs, &trail.openings, on)
}
