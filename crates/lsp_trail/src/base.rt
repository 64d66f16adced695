//! A text from which a document may have drifted, and the changes since.
ghost use Rattle.std.specs.Prelude.{◌≡◌, ◌+◌, ◌<◌, ◌≤◌, MatchOption, filter, int_lt};
ghost use Rattle.std.specs.Str.{chars};
ghost use Rattle.lsp_replay.specs.Common.{byte_len, edit_of, edits_of};
ghost use Rattle.lsp_trail.specs.SentEdits.{edits_size, most_size, per_change, sents_view};
ghost use Rattle.lsp_trail.specs.SentEdits.{total_size, weight};

use crate::copies::write_over;
use lsp_lined::Lined;
use lsp_rpc::Result;
use lsp_types::Change;
use std::alloc::Global;
use std::mem;

/// How many messages are held of a document at most: the 17 that may be named as suspects, and
/// those that set the 16 versions that may be kept after the one that differs.
const MOST_SENT: usize = 33;

/// How large their changes may be together.
const MOST_SIZE: u64 = 1 << 20;

/// What a change takes beside its text.
const PER_CHANGE: u64 = 64;

/// The changes of a message that is kept, and the version that it set.
#[derive(Drop)]
pub struct SentChanges {
    /// The version.
    pub version: i32,
    /// The changes, in the order of the message.
    pub changes: Vec<Change>,
}

/// A text that a document had at a version, and the changes that were made in it since.
#[derive(Drop)]
pub struct Base {
    /// The version of the text. Once that is no longer held, the one after which the changes come.
    pub since: i32,
    /// The text, unless it was let go of.
    pub text: Option<Lined>,
    /// What the messages since changed, in order.
    pub sent: Vec<SentChanges>,
    /// How large further changes may be.
    room: u64,
    /// The changes that were let go of last, over which others are written.
    spare: Vec<Change>,
    ghost counted: { room + total_size (sents_view sent.items) ≡ most_size },
}

impl Base {
    ghost use Rattle.std.specs.Prelude.{◌≡◌, ◌++◌, ◌<◌, ◌∷◌, [], None, OnOk, ℤ, length, true};
    ghost use Rattle.lsp_text.specs.Changes.{edits_of};
    ghost use Rattle.lsp_trail.specs.Bases.{AddsTo, BeginsAt, DropsFirst, IsNewBase, IsRoom};
    ghost use Rattle.lsp_trail.specs.Bases.{LeavesRoom, sent_in, text_in};
    ghost use Rattle.lsp_trail.specs.SentEdits.{are_few, sent_edits};

    /// A text of this version, in which nothing was changed.
    pub(crate) fn new(alloc: Global, version: i32, text: Lined) -> Base
        ensures { IsNewBase version text.content result }
    {
        Base {
            since: version,
            text: Some(text),
            sent: Vec::new(alloc),
            room: MOST_SIZE,
            spare: Vec::new(alloc),
        }
    }

    /// Begins again with the text of a later version, or of the same. Where some of the changes
    /// after that version are no longer held, all stays.
    pub(crate) fn begin(&mut self, version: i32, text: Lined)
        ensures { BeginsAt version text.content self.old self.new }
    {
        if version < self.since {
            return;
        }
        self.since = version;
        self.text = Some(text);
        drop_until(&mut self.sent, version);
        self.room = room_beside(self.sent.as_slice());
    }

    /// Adds the changes of a message that set this version. Where there is no room for them, the
    /// first ones are let go of, and with them the text.
    pub(crate) fn add(&mut self, version: i32, changes: &[Change]) -> Result<()>
        ensures { OnOk result (AddsTo (sent_edits version (edits_of changes.now))
            self.old self.new) }
    {
        let Some(room) = self.make_room(changes) else {
            self.since = version;
            self.text = None;
            return Ok(());
        };
        let mut copies = mem::replace(&mut self.spare, Vec::new(*self.sent.allocator()));
        write_over(&mut copies, changes)?;
        self.sent.push(SentChanges {
            version,
            changes: copies,
        })?;
        self.room = room;
        Ok(())
    }

    /// Lets go of the first changes until there is room for these, or none is left. Answers how
    /// much room these then leave, if there is enough for them.
    fn make_room(&mut self, changes: &[Change]) -> Option<u64>
        ensures { LeavesRoom (edits_of changes.now) result self.old self.new }
    {
        'messages: while !self.sent.is_empty() {
            if let Some(room) = self.room_for(changes) {
                return Some(room);
            }
            self.drop_first();
        }
        self.room_for(changes)
    }

    /// Lets go of the text and of the changes of the first message.
    fn drop_first(&mut self)
        requires { 0 < length self.old.sent.items }
        ensures { DropsFirst self.old self.new }
    {
        let first = self.sent.remove(0);
        self.since = first.version;
        self.text = None;
        self.room += size_of_changes(first.changes.as_slice());
        self.spare = first.changes;
    }

    /// Whether the text was held before, as is said, and is not held now.
    pub(crate) fn has_lost(&self, was_held: bool) -> bool
        ensures { result ≡ true → text_in self.now ≡ None }
    {
        was_held && self.text.is_none()
    }

    /// Whether the changes that are held are few enough with these of one more message.
    pub fn has_room(&self, changes: &[Change]) -> bool
        ensures { (number : ℤ) → result ≡ are_few (sent_in self.now
            ++ sent_edits number (edits_of changes.now) ∷ []) }
    {
        self.room_for(changes).is_some()
    }

    /// How much room these changes of one more message would leave, if there is enough for them.
    fn room_for(&self, changes: &[Change]) -> Option<u64>
        ensures { (number : ℤ) → IsRoom (sent_in self.now)
            (sent_edits number (edits_of changes.now)) result }
    {
        if self.sent.len() >= MOST_SENT {
            return None;
        }
        room_after(self.room, changes)
    }
}

/// How large changes may be beside those of these messages.
fn room_beside(sent: &[SentChanges]) -> u64
    requires { total_size (sents_view sent.now) ≤ most_size }
    ensures { result + total_size (sents_view sent.now) ≡ most_size }
{
    let mut room = MOST_SIZE;
    for one in sent {
        room -= size_of_changes(one.changes.as_slice());
    }
    room
}

/// How large these changes are, which are held.
fn size_of_changes(changes: &[Change]) -> u64
    requires { edits_size (edits_of changes.now) ≤ most_size }
    ensures { result ≡ edits_size (edits_of changes.now) }
{
    let mut size = 0;
    for change in changes {
        size += size_of_change(change);
    }
    size
}

/// How much of this room these changes leave, in bytes, if there is enough for them: each takes the
/// bytes of its text, and 64 more.
pub fn room_after(room: u64, changes: &[Change]) -> Option<u64>
    ensures { MatchOption result (room < edits_size (edits_of changes.now))
        (λ left. left + edits_size (edits_of changes.now) ≡ room) }
{
    let mut left = room;
    for change in changes {
        left = left.checked_sub(size_of_change(change))?;
    }
    Some(left)
}

/// How much of the room a change takes.
fn size_of_change(change: &Change) -> u64
    ensures { result ≡ weight (edit_of change.now) }
{
    size_of_text(change.text.as_str())
}

/// How much of it a change with this text takes.
fn size_of_text(text: &str) -> u64
    ensures { result ≡ per_change + byte_len (chars text.now) }
{
    PER_CHANGE + text.len() as u64
}

/// Lets go of the changes of the messages that set versions up to this one.
fn drop_until(sent: &mut Vec<SentChanges>, version: i32)
    ensures { sent.new.items ≡ filter (λ one. int_lt version one.version) sent.old.items }
{
    sent.retain(|one| version < one.version);
}
