//! Versions of documents that no message has set.
ghost use Rattle.std.specs.Prelude.{◌≡◌, List, IfOk, option_map, string_bytes};
ghost use Rattle.std.specs.List.{list_any};
ghost use Rattle.lsp_trail.specs.Common.{Event, is_set_to, IsTrail, Terms};
ghost use Rattle.lsp_notes.specs.ServerEdits.{if_unsent};
ghost use Rattle.lsp_notes.specs.Unsent as spec;

use lsp_rpc::Result;
use lsp_trail::{Closing, Trail, VersionEvent};
use std::alloc::Global;

/// The words of a note on this version of the document of a URI, if no message has set it.
pub(crate) fn words_if_unsent(
    alloc: Global,
    trail: &Trail,
    uri: &str,
    version: i32,
) -> Result<Option<String>>
    ensures { IfOk result (λ words. (terms : Terms) (before : List Event)
        → IsTrail terms trail.now before
        → option_map string_bytes words ≡ if_unsent terms before uri.now version) }
{
    let setters = trail.marks.setters(uri)?;
    if !is_unset(version, setters.as_slice()) {
        return Ok(None);
    }
    if !is_never(trail.openings.closing(uri)) {
        return Ok(None);
    }
    let words = format!(in alloc; "note unsent {version}")?;
    Ok(Some(words))
}

/// Whether no message of an opening set this version, of which these were the last that set one.
fn is_unset(version: i32, setters: &[VersionEvent]) -> bool
    ensures { result ≡ spec.is_unset version setters.now }
{
    let Some(oldest) = setters.first() else {
        return false;
    };
    covers(version, *oldest) && !is_set(version, setters)
}

/// Whether a message is the `didOpen`, or set a version below this one.
fn covers(version: i32, setter: VersionEvent) -> bool
    ensures { result ≡ spec.covers version setter }
{
    setter.rank == 1 || setter.version < version
}

/// Whether one of these messages set this version.
fn is_set(version: i32, setters: &[VersionEvent]) -> bool
    ensures { result ≡ list_any (is_set_to version) setters.now }
{
    setters.iter().any(|setter| setter.version == version)
}

/// Whether no message closed a document.
fn is_never(closing: Closing) -> bool
    ensures { result ≡ spec.is_never closing }
{
    matches!(closing, Closing::Never)
}
