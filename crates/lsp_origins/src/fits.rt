//! What the suspects make of a text, and in which other encodings they make the one that the editor
//! had.
ghost use Rattle.std.specs.Prelude.{◌≡◌, ◌≤◌, ◌++◌, ◌∷◌, [], true, IfOk, OnOk, MatchOption, length};
ghost use Rattle.std.specs.List.{prefix_len};
ghost use Rattle.lsp_trail.specs.Common.{are_few, call_view, edits_of, sent_edits, sent_view};
ghost use Rattle.lsp_trail.specs.Common.{sents_view};
ghost use Rattle.lsp_facts.specs.DocumentFacts.{fits_fact};
ghost use Rattle.lsp_trail.specs.Bases.{sent_in};
ghost use Rattle.lsp_origins.specs.Fits as spec;
ghost use Rattle.lsp_origins.specs.Fits.{suspected_view, suspects_view, text_if};

use crate::suspects::{MOST_NAMED, Until};
use lsp_docs::{Call, Docs, has_text};
use lsp_facts::Facts;
use lsp_lined::Lined;
use lsp_rpc::{Encoding, Result};
use lsp_text::{TextStore, change_all};
use lsp_trail::{Base, SentChanges};
use lsp_types::{Change, Fault, Memory};
use std::alloc::Global;

/// A message that may have made texts differ: its changes, and the version that it set or would
/// set.
#[derive(Clone, Copy)]
pub(crate) struct Suspect<'a> {
    pub(crate) version: i32,
    pub(crate) changes: &'a [Change],
}

/// What the suspects are tried on: they are to make the other text of this one.
#[derive(Clone, Copy)]
pub(crate) struct Trial<'a> {
    pub(crate) docs: &'a Docs<Lined>,
    /// The encoding that was agreed.
    pub(crate) encoding: Encoding,
    pub(crate) text: &'a Lined,
    pub(crate) other: &'a str,
}

/// The messages that may have made texts differ: earlier ones, and the call that offends.
#[derive(Clone, Copy)]
pub(crate) struct Suspected<'a> {
    sent: &'a [SentChanges],
    own: Option<Suspect<'a>>,
}

/// The suspects, if there is one at least and not more than are named. None either, if the changes
/// since the base, with those of the call, are more or larger than is held.
pub(crate) fn suspects_of<'a>(base: &'a Base, until: Until, call: Call<'a>) -> Option<Suspected<'a>>
    ensures { are_few (sent_in base.now) ≡ true
        → MatchOption result (spec.suspects_in until (sent_in base.now) (call_view call.entry) ≡ [])
        (spec.AreSuspects (spec.suspects_in until (sent_in base.now) (call_view call.entry))) }
{
    let sent = up_to(until, base.sent.as_slice());
    match call {
        Call::Changes {
            version,
            changes,
            ..
        } => with_own(base, sent, version, changes),
        _ => without_own(sent),
    }
}

/// These messages, and the one that offends.
fn with_own<'a>(
    base: &'a Base,
    sent: &'a [SentChanges],
    version: i32,
    changes: &'a [Change],
) -> Option<Suspected<'a>>
    ensures { spec.AreNamed (are_few (sent_in base.now
        ++ sent_edits version (edits_of changes.now) ∷ []))
        (sents_view sent.now ++ sent_edits version (edits_of changes.now) ∷ []) result }
{
    if sent.len() >= MOST_NAMED {
        return None;
    }
    if !base.has_room(changes) {
        return None;
    }
    let own = Some(Suspect { version, changes });
    Some(Suspected { sent, own })
}

/// These messages alone.
fn without_own<'a>(sent: &'a [SentChanges]) -> Option<Suspected<'a>>
    ensures { spec.AreNamed true (sents_view sent.now) result }
{
    if sent.is_empty() {
        return None;
    }
    if sent.len() > MOST_NAMED {
        return None;
    }
    let own = None;
    Some(Suspected { sent, own })
}

/// The messages that come no later than the one by which the text came about.
fn up_to(until: Until, sent: &[SentChanges]) -> &[SentChanges]
    ensures { result.now ≡ spec.held_reached until sent.now }
{
    &sent[..count_up_to(until, sent)]
}

fn count_up_to(until: Until, sent: &[SentChanges]) -> usize
    ensures value { result ≡ prefix_len (λ one. spec.is_reached until (sent_view one)) sent.now }
    ensures bound { result ≤ length sent.now }
{
    sent.iter().take_while(|one| is_up_to(until, one)).count()
}

fn is_up_to(until: Until, one: &SentChanges) -> bool
    ensures { result ≡ spec.is_reached until (sent_view one.now) }
{
    match until {
        Until::Version(version) => one.version <= version,
        _ => true,
    }
}

/// The suspects, in order.
pub(crate) fn listed<'a>(alloc: Global, suspected: Suspected<'a>) -> Result<Vec<Suspect<'a>>>
    ensures { IfOk result (λ all. suspects_view all.items ≡ suspected_view suspected.entry) }
{
    let Suspected { sent, own } = suspected;
    let mut suspects = sent_ones(alloc, sent)?;
    match own {
        Some(own) => {
            suspects.push(own)?;
            Ok(suspects)
        }
        None => Ok(suspects),
    }
}

/// Those that were sent earlier.
fn sent_ones<'a>(alloc: Global, sent: &'a [SentChanges]) -> Result<Vec<Suspect<'a>>>
    ensures { IfOk result (λ all. suspects_view all.items ≡ sents_view sent.now) }
{
    let mut suspects = Vec::new(alloc);
    for one in sent {
        let version = one.version;
        let changes = one.changes.as_slice();
        suspects.push(Suspect { version, changes })?;
    }
    Ok(suspects)
}

/// Adds the encodings, other than the agreed one, in which the suspects make the other text.
pub(crate) fn push_fitting(
    facts: &mut Facts,
    trial: Trial<'_>,
    suspects: &[Suspect<'_>],
) -> Result<()>
    ensures { OnOk result (facts.new ≡ facts.old
        ++ fits_fact (spec.fitting_by trial.entry (suspects_view suspects.now))) }
{
    let (first, second) = others(trial.encoding);
    let mut names = Vec::new(facts.alloc());
    push_if_given(&mut names, trial, first, suspects)?;
    push_if_given(&mut names, trial, second, suspects)?;
    facts.fitting(names.as_slice())
}

/// The encodings other than this one.
pub(crate) fn others(encoding: Encoding) -> (Encoding, Encoding)
    ensures { spec.both result ≡ spec.other_encodings encoding }
{
    match encoding {
        Encoding::Utf8 => (Encoding::Utf16, Encoding::Utf32),
        Encoding::Utf16 => (Encoding::Utf8, Encoding::Utf32),
        Encoding::Utf32 => (Encoding::Utf8, Encoding::Utf16),
    }
}

/// Adds an encoding, if the suspects make the other text in it.
fn push_if_given(
    names: &mut Vec<Encoding>,
    trial: Trial<'_>,
    encoding: Encoding,
    suspects: &[Suspect<'_>],
) -> Result<()>
    ensures { OnOk result (names.new.items ≡ names.old.items
        ++ spec.if_given trial.entry (suspects_view suspects.now) encoding) }
{
    if gives(trial, encoding, suspects)? {
        names.push(encoding)?;
    }
    Ok(())
}

/// Whether messages make the other text, where columns count units of this encoding.
pub(crate) fn gives(trial: Trial<'_>, encoding: Encoding, suspects: &[Suspect<'_>]) -> Result<bool>
    ensures { IfOk result (λ is_given. is_given
        ≡ spec.is_given_by trial.entry (suspects_view suspects.now) encoding) }
{
    let Trial {
        docs,
        text,
        other,
        ..
    } = trial;
    let mut made = text.copy(docs.alloc())?;
    if !make_all(&mut made, encoding, suspects, docs.limit())? {
        return Ok(false);
    }
    Ok(has_text(docs.line_ends(), &made, other))
}

/// Makes the changes of messages, one after another. Answers whether all could be made.
fn make_all(
    made: &mut Lined,
    encoding: Encoding,
    suspects: &[Suspect<'_>],
    limit: u64,
) -> Result<bool>
    ensures { IfOk result (λ all. text_if all made.new.content
        ≡ spec.made_by limit encoding made.old.content (suspects_view suspects.now)) }
{
    for suspect in suspects {
        if !make(made, encoding, suspect.changes, limit)? {
            return Ok(false);
        }
    }
    Ok(true)
}

/// Makes changes. Answers whether all could be made, none of them with a position past the end.
fn make(made: &mut Lined, encoding: Encoding, changes: &[Change], limit: u64) -> Result<bool>
    ensures { IfOk result (λ all. text_if all made.new.content
        ≡ spec.made limit encoding made.old.content (edits_of changes.now)) }
{
    match change_all(made, encoding, changes, limit) {
        Ok(found) => Ok(found.past_end.is_none()),
        Err(failed) => match failed.fault {
            Fault::Rule(_) => Ok(false),
            Fault::Memory => Err(Memory),
        },
    }
}
