//! Open documents of which the URI differs from another one in its spelling alone.
ghost use Rattle.std.specs.Prelude.{◌≡◌, ◌&&◌, List, IfOk, is_some, string_bytes};
ghost use Rattle.lsp_docs.specs.Calls.{Call as SpecCall};
ghost use Rattle.lsp_replay.specs.Common.{Event, held, Stands, Terms};
ghost use Rattle.lsp_trail.specs.Openings.{AreOpenings, last_on};
ghost use Rattle.lsp_trail.specs.Spelled as spec;

use crate::openings::{DocumentEvent, Openings};
use lsp_docs::Docs;
use lsp_lined::Lined;
use lsp_replay::EventPlace;
use lsp_rpc::Result;
use lsp_uris::folded;
use std::alloc::Global;

/// Whether another URI differs in its spelling alone from one of this size, in bytes, with this
/// spelling, as `folded` gives it, and is at most three times as long.
///
/// # Errors
/// `Memory` where memory was refused.
pub fn is_spelled(alloc: Global, size: usize, spelling: &[u8], other: &str) -> Result<bool>
    ensures { IfOk result (λ spelled. spelled ≡ spec.is_spelled size spelling.now other.now) }
{
    if is_long(size, other.len()) {
        return Ok(false);
    }
    let folded = folded(alloc, other)?;
    Ok(spelling == folded.as_slice())
}

/// Whether the other size is more than three times this one.
fn is_long(size: usize, other: usize) -> bool
    ensures { result ≡ spec.is_long size other }
{
    other > size.saturating_mul(3)
}

/// Whether the document is open that this message opened, and none opened it later.
pub fn stands_open(docs: &Docs<Lined>, openings: &Openings, on: &DocumentEvent) -> bool
    ensures { (terms : Terms) (before : List Event) (made : List SpecCall) → Stands docs.now made
        → AreOpenings terms openings.now before
        → result ≡ (is_some (held docs.now.terms (string_bytes on.now.uri) made)
        && spec.is_at on.now.place
        (last_on (string_bytes on.now.uri) (spec.last_openings terms before))) }
{
    let uri = on.uri.as_str();
    docs.version_of(uri).is_some() && is_at(on.place, openings.opening(uri))
}

fn is_at(place: EventPlace, other: Option<EventPlace>) -> bool
    ensures { result ≡ spec.is_at place other }
{
    match other {
        Some(other) => place.event == other.event,
        None => false,
    }
}
