//! Which requests were skipped, so that a response to one of them meets no open request.
ghost use Rattle.std.specs.Prelude.{◌≡◌, OnOk, Some, false, option_map, true};
ghost use Rattle.lsp_replay.specs.Common.{id_view, message_view, other_side, response, response_id};
ghost use Rattle.lsp_rpc.specs.Message.{Reply};
ghost use Rattle.lsp_rpc.specs.declared.message.Id.{Id as AnId};
ghost use Rattle.lsp_survey.specs.Notes.{Passes, SetsRequest, SetsAny, has_any, has_passed};
ghost use Rattle.lsp_types.specs.declared.side.Side.{Side as ASide};

use indexmap::IndexMap;
use lsp_rpc::{Id, Message, Result, Side};
use lsp_types::rules;
use lsp_uris::{forget, put};
use std::alloc::Global;

type Ids = IndexMap<Id, ()>;

/// The ids of the requests of both sides that were passed over, since they offended, and that were
/// not answered since.
#[derive(Drop)]
pub(crate) struct Passed {
    editor: Ids,
    server: Ids,
}

impl Passed {
    /// None was.
    pub(crate) fn new(alloc: Global) -> Passed
        ensures { (side : ASide) (k : AnId) → has_passed result side (id_view k) ≡ false }
    {
        Passed {
            editor: IndexMap::new(alloc),
            server: IndexMap::new(alloc),
        }
    }

    /// Whether a message of this side answers a request that was passed over.
    pub(crate) fn answers(&self, side: Side, message: &Message) -> bool
        ensures { result
            ≡ has_any self.now (other_side side) (response_id (message_view message.now)) }
    {
        match message {
            Message::Response { id: Some(id), .. } => self.has_other(side, id),
            _ => false,
        }
    }

    /// Notes that a message of this side breaks this rule.
    pub(crate) fn note(&mut self, side: Side, rule: u16, message: &Message) -> Result<()>
        ensures { OnOk result (Passes rule side (message_view message.now) self.old self.new) }
    {
        match message {
            Message::Request { id, .. } => self.ask(side, id),
            Message::Response { id, .. } => {
                self.answer_any(side, rule, id);
                Ok(())
            }
            Message::Notification { .. } => Ok(()),
        }
    }

    /// Notes the request of this side with this id, if there is one.
    pub(crate) fn note_asked(&mut self, side: Side, asked: Option<Id>) -> Result<()>
        ensures { OnOk result (SetsAny side (option_map id_view asked) self.old self.new) }
    {
        match asked {
            Some(id) => self.ask(side, &id),
            None => Ok(()),
        }
    }

    /// A request of this side is passed over.
    fn ask(&mut self, side: Side, id: &Id) -> Result<()>
        ensures { OnOk result (SetsRequest side (id_view id.now) true self.old self.new) }
    {
        match side {
            Side::Editor => put(&mut self.editor, id, ()),
            Side::Server => put(&mut self.server, id, ()),
        }
    }

    /// A response of this side breaks this rule, and has an id or null.
    fn answer_any(&mut self, side: Side, rule: u16, id: &Option<Id>)
        ensures { (reply : Reply)
            → Passes rule side (response (option_map id_view id.now) reply) self.old self.new }
    {
        if let Some(id) = id {
            self.answer(side, rule, id);
        }
    }

    /// A response of this side breaks this rule: it answers a request of the other side that was
    /// passed over, if it answers no open one.
    fn answer(&mut self, side: Side, rule: u16, id: &Id)
        ensures { (reply : Reply)
            → Passes rule side (response (Some (id_view id.now)) reply) self.old self.new }
    {
        if rule != rules::RESPONSE_TO_NO_OPEN_REQUEST {
            return;
        }
        self.forget_other(side, id);
    }

    /// This side answers such a request of the other.
    fn forget_other(&mut self, side: Side, id: &Id)
        ensures { SetsRequest (other_side side) (id_view id.now) false self.old self.new }
    {
        match side {
            Side::Editor => forget(&mut self.server, id),
            Side::Server => forget(&mut self.editor, id),
        }
    }

    /// Whether a request of the other side was passed over.
    fn has_other(&self, side: Side, id: &Id) -> bool
        ensures { result ≡ has_passed self.now (other_side side) (id_view id.now) }
    {
        match side {
            Side::Editor => self.server.contains_key(id),
            Side::Server => self.editor.contains_key(id),
        }
    }
}
