//! The notes on a session, and the line of each.
ghost use Rattle.std.specs.Prelude.{◌≡◌, ◌++◌, List, IfOk, OnOk, length, map, option_map};
ghost use Rattle.std.specs.Prelude.{string_bytes};
ghost use Rattle.lsp_trail.specs.Common.{Event, misused_views, names_view, numbered, on_view};
ghost use Rattle.lsp_trail.specs.Common.{StandsAfter, terms_in, verdict_view};
ghost use Rattle.lsp_notes.specs.MessageNotes.{AreNoted};
ghost use Rattle.lsp_notes.specs.Misfits.{AreMisfits, Found};
ghost use Rattle.lsp_notes.specs.Notes as spec;
ghost use Rattle.lsp_notes.specs.Notes.{count_line, exit_notes, misuse_line, name_notes, name_of};
ghost use Rattle.lsp_notes.specs.Notes.{note_lines, notes_by, noticed, old_name_notes, uncompared};
ghost use Rattle.lsp_notes.specs.Notes.{unshown_line, with_exit, with_server};

use crate::document_notes::push_lines;
use crate::messages::MessageNotes;
use crate::misfits::Misfits;
use lsp_facts::{Facts, push_facts};
use lsp_replay::EventPlace;
use lsp_rpc::{Encoding, Result};
use lsp_trail::{DocumentEvent, Misuse, Misused, Past};
use lsp_verdict::{Verdict, encoding_name};
use std::alloc::Global;
use std::fmt::Write;

/// Adds the notes on the messages that were heard, each on a line, and how many they are.
///
/// # Errors
/// `Memory` where memory was refused.
pub fn push_notes(
    lines: &mut String,
    past: Past<'_>,
    misfits: &Misfits,
    messages: &MessageNotes,
    verdict: &Verdict,
) -> Result<()>
    ensures { OnOk result ((before : List Event) (found : List Found)
        → StandsAfter past.entry before → AreMisfits misfits.now found
        → AreNoted (terms_in past.entry) messages.now before before
        → string_bytes lines.new ≡ string_bytes lines.old ++ note_lines
        (notes_by (verdict_view verdict.now) (noticed (terms_in past.entry) before found))) }
{
    let alloc = *lines.allocator();
    let exit = past.trail.said.notes.abrupt_exit;
    let notes = notes_of(alloc, past, exit, misfits, messages, verdict)?;
    push_facts(lines, &notes)?;
    push_count(lines, &notes)
}

/// All notes on the messages that were heard, where this is the `exit` without a `shutdown`.
pub(crate) fn notes_of(
    alloc: Global,
    past: Past<'_>,
    exit: Option<EventPlace>,
    misfits: &Misfits,
    messages: &MessageNotes,
    verdict: &Verdict,
) -> Result<Facts>
    ensures { IfOk result (λ notes. (before served : List Event) (found : List Found)
        → StandsAfter past.entry before → AreMisfits misfits.now found
        → AreNoted (terms_in past.entry) messages.now before served
        → notes ≡ notes_by (verdict_view verdict.now)
        (with_exit exit (with_server (terms_in past.entry) served
        (noticed (terms_in past.entry) before found)))) }
{
    let said = &past.trail.said;
    let unshown = past.trail.openings.unshown()?;
    let mut notes = Facts::new(alloc);
    push_misuses(&mut notes, said.notes.misuses.as_slice())?;
    push_exit(&mut notes, exit)?;
    push_name(&mut notes, name_in(past))?;
    push_renamed(&mut notes, said.renames.renamed())?;
    push_uncompared(&mut notes, verdict, unshown.as_slice())?;
    push_lines(&mut notes, misfits.past_ends.as_slice())?;
    push_lines(&mut notes, misfits.range_lengths.as_slice())?;
    push_lines(&mut notes, messages.refusals.refused.as_slice())?;
    push_lines(&mut notes, messages.spellings.named.as_slice())?;
    let edits = &messages.server_edits;
    push_lines(&mut notes, edits.late_edits.as_slice())?;
    push_lines(&mut notes, edits.outside.as_slice())?;
    push_lines(&mut notes, edits.overlaps.as_slice())?;
    push_lines(&mut notes, edits.unsent.as_slice())?;
    Ok(notes)
}

/// Adds how many notes there are, if there are any.
pub(crate) fn push_count(lines: &mut String, notes: &Facts) -> Result<()>
    ensures { OnOk result (string_bytes lines.new
        ≡ string_bytes lines.old ++ count_line (length notes.now)) }
{
    let count = notes.len();
    if count > 0 {
        writeln!(lines, "notes {count}")?;
    }
    Ok(())
}

/// Adds the calls that were not sent as LSP 3.17 defines them.
pub(crate) fn push_misuses(notes: &mut Facts, misuses: &[Misused]) -> Result<()>
    ensures { OnOk result (notes.new
        ≡ notes.old ++ map misuse_line (misused_views misuses.now)) }
{
    for misused in misuses {
        let key = misuse_key(misused.misuse);
        notes.text_by(key, misused.method.as_str(), misused.place)?;
    }
    Ok(())
}

fn misuse_key(misuse: Misuse) -> &'static str
    ensures { result.now ≡ spec.misuse_key misuse }
{
    match misuse {
        Misuse::AsRequest => "note as-request",
        Misuse::AsNotification => "note as-notification",
        Misuse::ByEditor => "note by-editor",
        Misuse::ByServer => "note by-server",
    }
}

/// Adds the `exit` without a `shutdown` before it, if there is one.
pub(crate) fn push_exit(notes: &mut Facts, exit: Option<EventPlace>) -> Result<()>
    ensures { OnOk result (notes.new ≡ notes.old ++ exit_notes exit) }
{
    match exit {
        Some(place) => notes.event("note exit-without-shutdown", place),
        None => Ok(()),
    }
}

/// The encoding that the answer to `initialize` names in the older way, where it is not the agreed
/// one.
pub(crate) fn name_in<'a>(past: Past<'a>) -> Option<&'a str>
    ensures { (before : List Event) → StandsAfter past.entry before
        → option_map (λ s. s.now) result ≡ name_of (numbered (terms_in past.entry) before) }
{
    let Past { held, trail } = past;
    other_name(trail.said.notes.older_encoding(), held.session.encoding())
}

/// Adds the encoding that is named in the older way, if there is one.
pub(crate) fn push_name(notes: &mut Facts, name: Option<&str>) -> Result<()>
    ensures { OnOk result (notes.new
        ≡ notes.old ++ name_notes (option_map (λ s. s.now) name.entry)) }
{
    match name {
        Some(name) => notes.text("note offset-encoding", name),
        None => Ok(()),
    }
}

/// Adds the message about a document under a URI that its file lost when renamed, if there is one.
pub(crate) fn push_renamed(notes: &mut Facts, renamed: Option<&DocumentEvent>) -> Result<()>
    ensures { OnOk result (notes.new
        ≡ notes.old ++ old_name_notes (option_map (λ r. on_view r.now) renamed.entry)) }
{
    match renamed {
        Some(renamed) => notes.text_by("note renamed", renamed.uri.as_str(), renamed.place),
        None => Ok(()),
    }
}

/// Adds of a Yes that no snapshot was compared, or else the documents that were changed and have
/// none.
pub(crate) fn push_uncompared(
    notes: &mut Facts,
    verdict: &Verdict,
    unshown: &[String],
) -> Result<()>
    ensures { OnOk result (notes.new
        ≡ notes.old ++ uncompared (verdict_view verdict.now) (names_view unshown.now)) }
{
    let Verdict::Yes(summary) = verdict else {
        return Ok(());
    };
    if summary.snapshots == summary.unmatched {
        return notes.word("note", "nothing-compared");
    }
    push_unshown(notes, unshown)
}

/// Adds the documents that were changed and have no snapshot.
fn push_unshown(notes: &mut Facts, unshown: &[String]) -> Result<()>
    ensures { OnOk result (notes.new
        ≡ notes.old ++ map unshown_line (names_view unshown.now)) }
{
    for uri in unshown {
        notes.text("note no-snapshot", uri.as_str())?;
    }
    Ok(())
}

/// The name that was used in the older way, where it is not that of the agreed encoding.
fn other_name<'a>(name: Option<&'a str>, agreed: Option<Encoding>) -> Option<&'a str>
    ensures { option_map (λ s. s.now) result
        ≡ spec.other_name (option_map (λ s. s.now) name.entry) agreed }
{
    let name = name?;
    let agreed = agreed?;
    if name == encoding_name(Some(agreed)) {
        return None;
    }
    Some(name)
}
