//! Which events sent and answered requests, and which event led to the phase.
ghost use Rattle.std.specs.Prelude.{◌≡◌, [], List, None, OnOk, unwrap_or};
ghost use Rattle.lsp_replay.specs.Common.{Event, id_view, message_view, Terms};
ghost use Rattle.lsp_trail.specs.Asking.{answered, asked, leads, numbered, same_phase, since};
ghost use Rattle.lsp_trail.specs.Renames.{RenamesIn};
ghost use Rattle.lsp_trail.specs.Conversations.{IsConversation, Exchanges, Says, SessionStands};

use crate::exchange::Exchange;
use crate::notes::Notes;
use crate::renames::Renames;
use lsp_replay::EventPlace;
use lsp_rpc::{Id, Message, Result, Side};
use lsp_session::Phase;
use std::alloc::Global;

/// Which events sent and answered the requests of both sides, and which one led to the phase of the
/// session. Of the answers to a side's requests, the last 1,024 whose id has at most 128 bytes are
/// held. Also what the notes say of the messages.
///
/// It stands for the events of a session of which those that offend are skipped.
#[derive(Drop)]
pub struct Conversation {
    editor: Exchange,
    server: Exchange,
    phase: Phase,
    since: Option<EventPlace>,
    /// What the notes say of the messages.
    pub notes: Notes,
    /// What they say about files.
    pub renames: Renames,
}

impl Conversation {
    /// Nothing was said.
    pub(crate) fn new(alloc: Global) -> Conversation
        ensures { SessionStands result [] }
    {
        Conversation {
            editor: Exchange::new(alloc),
            server: Exchange::new(alloc),
            phase: Phase::Fresh,
            since: None,
            notes: Notes::new(alloc),
            renames: Renames::new(alloc),
        }
    }

    /// The place of the event that sent the open request of this side with this id.
    pub fn asked(&self, side: Side, id: &Id) -> Option<EventPlace>
        ensures { (terms : Terms) (events : List Event) → IsConversation terms self.now events
            → result ≡ asked side (id_view id.now) (numbered terms events) }
    {
        match side {
            Side::Editor => self.editor.asked.place(id),
            Side::Server => self.server.asked.place(id),
        }
    }

    /// The place of the last event that answered a request of this side with this id, where it is
    /// among the last 1,024 answers to requests of this side, and the id has at most 128 bytes.
    pub fn answered(&self, side: Side, id: &Id) -> Option<EventPlace>
        ensures { (terms : Terms) (events : List Event) → IsConversation terms self.now events
            → result ≡ answered side (id_view id.now) (numbered terms events) }
    {
        match side {
            Side::Editor => self.editor.answered(id),
            Side::Server => self.server.answered(id),
        }
    }

    /// The place of the event that led to the phase of the session; none at the start.
    pub fn since(&self) -> Option<EventPlace>
        ensures { (terms : Terms) (events : List Event) → IsConversation terms self.now events
            → result ≡ since (numbered terms events) }
    {
        self.since
    }

    /// Adds a message that is kept and says nothing of a document, the event of this place,
    /// which was read from this content, and after which the session is in this phase, and the
    /// handshake is settled or is not.
    ///
    /// # Errors
    /// `Memory` where memory was refused; nothing is then known of the requests, but the phase and
    /// the event that led to it are.
    pub(crate) fn keep(
        &mut self,
        place: EventPlace,
        side: Side,
        content: &[u8],
        message: &Message,
        phase: Phase,
        done: bool,
    ) -> Result<()>
        ensures phase { self.new.phase ≡ phase }
        ensures since { self.new.since
            ≡ unwrap_or (leads place self.old.phase phase) self.old.since }
        ensures said { OnOk result (Says place side (message_view message.now) phase done
            self.old self.new) }
        ensures renames { OnOk result (RenamesIn place side content.now
            (message_view message.now) None self.old.renames self.new.renames) }
    {
        let before = self.phase;
        if !is_same(before, phase) {
            self.since = Some(place);
        }
        self.phase = phase;
        self.notes.keep(place, side, message, before, phase, done)?;
        exchange(&mut self.editor, &mut self.server, place, side, message)?;
        self.renames.keep(side, message, content)?;
        Ok(())
    }
}

/// Keeps which request a message sends or answers, of the editor's and of the server's.
fn exchange(
    editor: &mut Exchange,
    server: &mut Exchange,
    place: EventPlace,
    side: Side,
    message: &Message,
) -> Result<()>
    ensures editor { OnOk result
        (Exchanges Side.Editor place side (message_view message.now) editor.old editor.new) }
    ensures server { OnOk result
        (Exchanges Side.Server place side (message_view message.now) server.old server.new) }
{
    match message {
        Message::Request { id, .. } => match side {
            Side::Editor => editor.asked.add(id, place),
            Side::Server => server.asked.add(id, place),
        },
        Message::Response { id: Some(id), .. } => match side {
            Side::Editor => server.answer(id, place),
            Side::Server => editor.answer(id, place),
        },
        _ => Ok(()),
    }
}

/// Whether two phases are the same.
fn is_same(one: Phase, other: Phase) -> bool
    ensures { result ≡ same_phase one other }
{
    one == other
}
