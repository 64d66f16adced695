//! What is said about a version that does not rise.
ghost use Rattle.std.specs.Prelude.{◌≡◌, ◌≤◌, ◌++◌, List, OnOk, Some, length};
ghost use Rattle.std.specs.List.{prefix_len};
ghost use Rattle.lsp_trail.specs.Common.{call_view, edits_of, Event, is_set_to, last_change};
ghost use Rattle.lsp_trail.specs.Common.{last_setter, recent, StandsAfter, steps, Terms, terms_in};
ghost use Rattle.lsp_trail.specs.LastChange.{IsLastChange};
ghost use Rattle.lsp_origins.specs.Traced as spec;

use lsp_docs::Call;
use lsp_facts::Facts;
use lsp_replay::EventPlace;
use lsp_rpc::Result;
use lsp_trail::{LastChange, Past, VersionEvent};
use lsp_types::{Change, rules};

/// Adds to the facts on a call that breaks this rule, under 603, the message that set its version,
/// if that is the last one that changed a document, and has the same changes; or, where none set
/// it, the one that set the version right after it, if one set that right before it, too. The past
/// is of the events before it.
pub(crate) fn trace_unrisen(
    facts: &mut Facts,
    past: Past<'_>,
    call: Call<'_>,
    rule: u16,
) -> Result<()>
    ensures { OnOk result ((before : List Event) → StandsAfter past.entry before
        → facts.new ≡ facts.old ++ spec.unrisen_traced (terms_in past.entry) before rule
        (call_view call.entry)) }
{
    if rule != rules::VERSION_DOES_NOT_RISE {
        return Ok(());
    }
    match call {
        Call::Changes {
            uri,
            version,
            changes,
            ..
        } => trace_change(facts, past, uri, version, changes),
        Call::Opens { .. } | Call::Closes { .. } => Ok(()),
        Call::Saves { .. } | Call::Shows { .. } => Ok(()),
    }
}

/// Adds the same of changes of a document by which it would come to this version.
fn trace_change(
    facts: &mut Facts,
    past: Past<'_>,
    uri: &str,
    version: i32,
    changes: &[Change],
) -> Result<()>
    ensures { OnOk result ((before : List Event) → StandsAfter past.entry before
        → facts.new ≡ facts.old ++ spec.unrisen_facts version (edits_of changes.now)
        (last_change (terms_in past.entry) before)
        (recent (steps (terms_in past.entry) uri.now before))) }
{
    let setters = past.trail.marks.setters(uri)?;
    let last = &past.trail.last_change;
    push_unrisen(facts, last, version, changes, setters.as_slice())
}

/// Adds the same after these messages, which set the versions of the document.
fn push_unrisen(
    facts: &mut Facts,
    last: &LastChange,
    version: i32,
    changes: &[Change],
    setters: &[VersionEvent],
) -> Result<()>
    ensures { OnOk result ((terms : Terms) (before : List Event)
        → IsLastChange terms last.now before
        → facts.new ≡ facts.old ++ spec.unrisen_facts version (edits_of changes.now)
        (last_change terms before) setters.now) }
{
    let below = count_below(version, setters);
    let earlier = last_of(&setters[..below]);
    match setters[below..].first() {
        Some(setter) => push_setter(facts, last, version, changes, earlier, *setter),
        None => Ok(()),
    }
}

/// Adds the message that set this version, if it is the last one that changed a document and has
/// the same changes, or that set the version right after it, if the earlier one set that right
/// before it.
fn push_setter(
    facts: &mut Facts,
    last: &LastChange,
    version: i32,
    changes: &[Change],
    earlier: Option<VersionEvent>,
    setter: VersionEvent,
) -> Result<()>
    ensures { OnOk result ((terms : Terms) (before : List Event)
        → IsLastChange terms last.now before
        → facts.new ≡ facts.old ++ spec.setter_facts version (edits_of changes.now)
        (last_change terms before) earlier (Some setter)) }
{
    if is_set_to(version, setter) {
        return push_same(facts, last, setter.place, changes);
    }
    push_precedes(facts, version, earlier, setter)
}

/// Whether the message set this version.
fn is_set_to(version: i32, setter: VersionEvent) -> bool
    ensures { result ≡ is_set_to version setter }
{
    setter.version == version
}

/// How many of the messages come before the first that set this version or a greater one.
fn count_below(version: i32, setters: &[VersionEvent]) -> usize
    ensures value { result ≡ prefix_len (spec.is_below version) setters.now }
    ensures bound { result ≤ length setters.now }
{
    setters
        .iter()
        .take_while(|setter| setter.version < version)
        .count()
}

/// The last of these messages.
fn last_of(setters: &[VersionEvent]) -> Option<VersionEvent>
    ensures { result ≡ last_setter setters.now }
{
    setters.last().copied()
}

/// Adds the event of this place, if it is the last message that changed a document, and has the
/// same changes.
fn push_same(
    facts: &mut Facts,
    last: &LastChange,
    place: EventPlace,
    changes: &[Change],
) -> Result<()>
    ensures { OnOk result ((terms : Terms) (before : List Event)
        → IsLastChange terms last.now before
        → facts.new ≡ facts.old ++ spec.same_facts place (edits_of changes.now)
        (last_change terms before)) }
{
    if !last.has_changes(place, changes) {
        return Ok(());
    }
    facts.event("same", place)
}

/// Adds the message that set the version right after this one, if the earlier one set that right
/// before it.
fn push_precedes(
    facts: &mut Facts,
    version: i32,
    earlier: Option<VersionEvent>,
    setter: VersionEvent,
) -> Result<()>
    ensures { OnOk result (facts.new ≡ facts.old ++ spec.precedes_facts version earlier setter) }
{
    if !is_between(earlier, version, setter) {
        return Ok(());
    }
    facts.version_by("precedes", setter.version, setter.place)
}

/// Whether the version is the only one between those that these messages set.
fn is_between(earlier: Option<VersionEvent>, version: i32, later: VersionEvent) -> bool
    ensures { result ≡ spec.is_between earlier version later }
{
    match earlier {
        Some(earlier) => is_next(earlier.version, version) && is_next(version, later.version),
        None => false,
    }
}

/// Whether the one version is that right after the other.
fn is_next(version: i32, other: i32) -> bool
    ensures { result ≡ spec.is_next version other }
{
    version < other && version.abs_diff(other) == 1
}
