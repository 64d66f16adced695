//! The last message that changed a document, with its changes.
ghost use Rattle.std.specs.Prelude.{◌≡◌, [], List, Some, OnOk, option_map};
ghost use Rattle.std.specs.Option.{option_or};
ghost use Rattle.std.specs.Str.{bytes_eq, chars};
ghost use Rattle.lsp_replay.specs.Common.{call_view, edit_of, edits_of, Event, Terms};
ghost use Rattle.lsp_trail.specs.LastChange as spec;
ghost use Rattle.lsp_trail.specs.LastChange.{IsLastChange, held_edits, held_view, last_view};
ghost use Rattle.lsp_trail.specs.LastChange.{same_edits, sent_change};

use crate::base::room_after;
use crate::copies::write_over;
use lsp_docs::Call;
use lsp_replay::EventPlace;
use lsp_rpc::Result;
use lsp_types::Change;
use std::alloc::Global;

/// How large the changes of the message are at most together, if they are held.
const MOST_SIZE: u64 = 65_536;

/// The last message that changed a document, with its changes if they are small enough.
///
/// It stands for the events of a session of which those that offend are skipped.
#[derive(Drop)]
pub struct LastChange {
    place: Option<EventPlace>,
    are_held: bool,
    changes: Vec<Change>,
}

impl LastChange {
    /// Nothing was changed.
    pub(crate) fn new(alloc: Global) -> LastChange
        ensures { (terms : Terms) → IsLastChange terms result [] }
    {
        LastChange {
            place: None,
            are_held: false,
            changes: Vec::new(alloc),
        }
    }

    /// Keeps what a kept event, that of this place, says about a document, if it changes it.
    #[inline(always)]
    pub(crate) fn keep(&mut self, place: &EventPlace, call: Call<'_>) -> Result<()>
        ensures { OnOk result (last_view self.new
            ≡ option_or (spec.change_by place.now (call_view call.entry)) (last_view self.old)) }
    {
        let Some(changes) = changes_of(call) else {
            return Ok(());
        };
        self.put(*place, changes)
    }

    /// Puts a message in the place of the one before.
    #[inline(always)]
    fn put(&mut self, place: EventPlace, changes: &[Change]) -> Result<()>
        ensures { OnOk result (last_view self.new
            ≡ Some (sent_change place (held_edits (edits_of changes.now)))) }
    {
        self.place = Some(place);
        self.are_held = are_small(changes);
        if !self.are_held {
            return Ok(());
        }
        write_over(&mut self.changes, changes)
    }

    /// Whether the event of this place is the message that is held, and has these changes, which
    /// are small enough.
    pub fn has_changes(&self, place: EventPlace, changes: &[Change]) -> bool
        ensures { (terms : Terms) (events : List Event) → IsLastChange terms self.now events
            → result ≡ spec.has_changes place (edits_of changes.now)
            (spec.last_change terms events) }
    {
        match self.place {
            Some(own) => own.event == place.event && self.has_edits(changes),
            None => false,
        }
    }

    /// Whether the message has these changes.
    fn has_edits(&self, changes: &[Change]) -> bool
        ensures { result ≡ spec.are_edits (edits_of changes.now)
            (held_view self.now.are_held self.now.changes) }
    {
        self.are_held && same_changes(changes, self.changes.as_slice())
    }
}

/// The changes of a call that changes its document.
#[inline(always)]
fn changes_of(call: Call<'_>) -> Option<&[Change]>
    ensures { option_map (λ changes. edits_of changes.now) result
        ≡ spec.edits_said (call_view call.entry) }
{
    match call {
        Call::Changes { changes, .. } => Some(changes),
        Call::Opens { .. } | Call::Closes { .. } => None,
        Call::Saves { .. } | Call::Shows { .. } => None,
    }
}

/// Whether they are small enough to be held.
#[inline(always)]
fn are_small(changes: &[Change]) -> bool
    ensures { result ≡ spec.are_small (edits_of changes.now) }
{
    room_after(MOST_SIZE, changes).is_some()
}

// ---- the same changes

fn same_changes(changes: &[Change], others: &[Change]) -> bool
    ensures { result ≡ same_edits (edits_of changes.now) (edits_of others.now) }
{
    let mut first = changes;
    let mut second = others;
    while let [change, rest @ ..] = first {
        let [other, ahead @ ..] = second else {
            return false;
        };
        if !same_change(change, other) {
            return false;
        }
        first = rest;
        second = ahead;
    }
    second.is_empty()
}

/// Whether two changes replace the same range by the same text.
fn same_change(change: &Change, other: &Change) -> bool
    ensures { result ≡ spec.same_edit (edit_of change.now) (edit_of other.now) }
{
    change.span == other.span && same_text(change.text.as_str(), other.text.as_str())
}

fn same_text(text: &str, other: &str) -> bool
    ensures { result ≡ bytes_eq (chars other.now) (chars text.now) }
{
    text == other
}
