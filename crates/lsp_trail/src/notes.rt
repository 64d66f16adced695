//! What the notes say of the messages of a session.
ghost use Rattle.std.specs.Prelude.{◌≡◌, ◌&&◌, [], IfOk, OnOk, if◌then◌else◌, not};
ghost use Rattle.std.specs.Prelude.{option_map, string_bytes};
ghost use Rattle.lsp_rpc.specs.View.{message_view};
ghost use Rattle.lsp_trail.specs.SessionNotes as spec;
ghost use Rattle.lsp_trail.specs.SessionNotes.{AreNotes, NotesBy, older_held, older_of};

use crate::misuses::{Misused, note_misuse};
use lsp_replay::EventPlace;
use lsp_rpc::{Answer, Message, Result, Side, text_at};
use lsp_session::Phase;
use std::alloc::Global;

/// What the notes say of the messages of a session: which calls were not sent as LSP 3.17 defines
/// them, of each method the first; whether the editor sent `exit` without `shutdown`; and which
/// encoding the answer to `initialize` names in the older way.
#[derive(Drop)]
pub struct Notes {
    /// The calls that were not sent as LSP 3.17 defines them, in order.
    pub misuses: Vec<Misused>,
    /// The place of the event of the `exit` without a `shutdown` before it.
    pub abrupt_exit: Option<EventPlace>,
    is_done: bool,
    older_encoding: Option<String>,
}

impl Notes {
    /// No message was heard.
    pub(crate) fn new(alloc: Global) -> Notes
        ensures { AreNotes result [] }
    {
        Notes {
            misuses: Vec::new(alloc),
            abrupt_exit: None,
            is_done: false,
            older_encoding: None,
        }
    }

    /// The encoding that the answer to `initialize` names in the older way.
    pub fn older_encoding(&self) -> Option<&str>
        ensures { option_map (λ s. s.now) result ≡ older_held self.now }
    {
        self.older_encoding.as_ref().map(|name| name.as_str())
    }

    /// Adds a message that is kept, the event of this place, before and after which the
    /// session is in these phases, and after which the handshake is settled or is not.
    pub(crate) fn keep(
        &mut self,
        place: EventPlace,
        side: Side,
        message: &Message,
        before: Phase,
        after: Phase,
        done: bool,
    ) -> Result<()>
        ensures { OnOk result (NotesBy place side (message_view message.now) before after done
            self.old self.new) }
    {
        if is_abrupt(before, after) {
            self.abrupt_exit = Some(place);
        }
        self.keep_answer(message, done)?;
        note_misuse(&mut self.misuses, place, side, message)
    }

    /// Keeps what a message answers, after which the handshake is settled or is not.
    fn keep_answer(&mut self, message: &Message, done: bool) -> Result<()>
        ensures misuses { self.new.misuses ≡ self.old.misuses }
        ensures abrupt { self.new.abrupt_exit ≡ self.old.abrupt_exit }
        ensures done { OnOk result (self.new.is_done ≡ done) }
        ensures older { OnOk result (older_held self.new
            ≡ (if not self.old.is_done && done then older_of (message_view message.now)
            else older_held self.old)) }
    {
        if !self.is_done && done {
            let alloc = *self.misuses.allocator();
            self.older_encoding = copy_older(alloc, message)?;
        }
        self.is_done = done;
        Ok(())
    }
}

/// Whether a session has exited that was not told to shut down before.
fn is_abrupt(before: Phase, after: Phase) -> bool
    ensures { result ≡ spec.is_abrupt before after }
{
    after == Phase::Exited && before != Phase::Exited && before != Phase::Stopping
}

/// A copy of the encoding that what a message answers names in the older way.
fn copy_older(alloc: Global, message: &Message) -> Result<Option<String>>
    ensures { IfOk result
        (λ name. option_map string_bytes name ≡ older_of (message_view message.now)) }
{
    match older_name(message) {
        Some(name) => Ok(Some(String::from_str(alloc, name)?)),
        None => Ok(None),
    }
}

/// The encoding that what a message answers names in the older way.
fn older_name(message: &Message) -> Option<&str>
    ensures { option_map (λ s. s.now) result ≡ older_of (message_view message.now) }
{
    match message {
        Message::Response {
            answer: Answer::Result(value),
            ..
        } => text_at(value, "offsetEncoding"),
        _ => None,
    }
}
