//! The messages of two sides, judged one after another (LSP 3.17, "Server lifecycle").
ghost use Rattle.std.specs.Prelude.{◌≡◌, ℕ, Some, true, false, ◌++◌, ◌∷◌, [], List, None, IfErr};
ghost use Rattle.std.specs.Prelude.{IfOk, OnOk, OnErr, Option, map, not, option_map};
ghost use Rattle.std.specs.Prelude.{option_to_list};
ghost use Rattle.lsp_rpc.specs.Ident.{id_view};
ghost use Rattle.lsp_rpc.specs.View.{act_view, message_view, offer_view};
ghost use Rattle.lsp_session.specs.ByState as by_state;
ghost use Rattle.lsp_session.specs.Entry.{has_id, new_entry};
ghost use Rattle.lsp_session.specs.Handshake as handshake;
ghost use Rattle.lsp_session.specs.Incomplete as complete;
ghost use Rattle.lsp_session.specs.Negotiation as negotiation;
ghost use Rattle.lsp_session.specs.Negotiation.{shape_rule};
ghost use Rattle.lsp_types.specs.Fault.{Names};
ghost use Rattle.lsp_session.specs.Requests.{open_requests};
ghost use Rattle.lsp_session.specs.Rules.{early_rule, rule_after};
ghost use Rattle.lsp_session.specs.Sent.{Sent, other_side};
ghost use Rattle.lsp_session.specs.Sent as message_spec;
ghost use Rattle.lsp_session.specs.State.{Stands, after_answer, next, next_open};
ghost use Rattle.lsp_session.specs.View.{sent, settled_view};

use crate::handshake::{OpenInitialize, comes_early, open_initialize};
use crate::negotiation::{Agreed, agree, registers_synchronisation};
use crate::pending::Pending;
use crate::phase::Phase;
use lsp_rpc::{Act, Answer, Encoding, Id, Memory, Message, Offer, Result, Side, SyncKind, same_id};
use lsp_types::{Fault, rules};
use serde_json::Value;
use std::alloc::Global;
use std::marker::Model;

/// A session of two sides: which requests are open, how far the handshake has come, and what was
/// agreed. Contracts see for which lists of messages it stands.
#[derive(Drop)]
pub struct Session {
    alloc: Global,
    editor: Pending,
    server: Pending,
    initialize: Option<OpenInitialize>,
    agreed: Option<Agreed>,
    initialized: bool,
    shutdown: bool,
    exited: bool,
}

impl Model for Session {
    ghost use Rattle.std.specs.Prelude.{Some, option_map};
    ghost use Rattle.lsp_session.specs.OpenInitialize.{initializes_view};
    ghost use Rattle.lsp_session.specs.State.{State};

    ghost Value = { State };

    ghost view = { λ s. record {
      editor = s.editor;
      server = s.server;
      initializes = initializes_view s.initialize;
      agreed = option_map (λ agreed. Some agreed) s.agreed;
      initialized = s.initialized;
      shutdown = s.shutdown;
      exit = s.exited;
    } };
}

impl Session {
    /// A session before its first message.
    pub fn new(alloc: Global) -> Self
        ensures { Stands result [] }
    {
        Session {
            alloc,
            editor: Pending::new(alloc),
            server: Pending::new(alloc),
            initialize: None,
            agreed: None,
            initialized: false,
            shutdown: false,
            exited: false,
        }
    }

    /// Admits a message that breaks no rule, and otherwise names the least rule that it breaks: 301
    /// and 302 on ids, 401 to 412 on who may send what, 501 to 504 on what is agreed (LSP 3.17,
    /// "Base Protocol" and "Server lifecycle"). A refusal changes nothing. The act is what the
    /// message means on its side. Memory is requested only where the message breaks no rule except,
    /// perhaps, 502 or 503.
    pub fn admit(&mut self, side: Side, message: &Message, act: &Act) -> Result<(), Fault>
        ensures admitted { OnOk result ((before : List Sent) → Stands self.old before
            → Stands self.new (before ++ sent side message.now act.now ∷ [])) }
        ensures accepted { OnOk result ((before : List Sent) → Stands self.old before
            → rule_after before (sent side message.now act.now) ≡ None) }
        ensures rule { IfErr result (λ refusal. (before : List Sent) → Stands self.old before
            → Names (rule_after before (sent side message.now act.now)) refusal) }
        ensures memory { result ≡ Err Fault.Memory
            → ((before : List Sent) → Stands self.old before
            → early_rule before (sent side message.now act.now) ≡ None) }
        ensures unchanged { OnErr result (self.new ≡ self.old) }
    {
        if let Some(rule) = self.request_rule(side, message) {
            return Err(Fault::Rule(rule));
        }
        if let Some(rule) = self.lifecycle_rule(side, message, act) {
            return Err(Fault::Rule(rule));
        }
        let agreed = self.settle(side, message)?;
        if side == Side::Server && registers_synchronisation(act) {
            return Err(Fault::Rule(rules::DYNAMIC_REGISTRATION));
        }
        self.take(side, message, act, agreed)?;
        Ok(())
    }

    /// What columns count, once a result has answered `initialize`.
    pub fn encoding(&self) -> Option<Encoding>
        ensures { (before : List Sent) → Stands self.now before
            → result ≡ negotiation.encoding before }
    {
        self.agreed.map(|agreed| agreed.encoding)
    }

    /// How the editor sends changes, once a result has answered `initialize`.
    pub fn sync_kind(&self) -> Option<SyncKind>
        ensures { (before : List Sent) → Stands self.now before
            → result ≡ negotiation.sync_kind before }
    {
        self.agreed.map(|agreed| agreed.kind)
    }

    /// How far the session has come.
    pub fn phase(&self) -> Phase
        ensures { (before : List Sent) → Stands self.now before
            → result ≡ handshake.phase before }
    {
        if self.exited {
            Phase::Exited
        } else if self.shutdown {
            Phase::Stopping
        } else if self.initialized {
            Phase::Ready
        } else if self.agreed.is_some() {
            Phase::Answered
        } else if self.initialize.is_some() {
            Phase::Waiting
        } else {
            Phase::Fresh
        }
    }

    /// The requests of this side that wait for their response.
    pub fn pending(&self, side: Side) -> &Pending
        ensures state { result.now ≡ by_state.open_of side self.now }
        ensures open { (before : List Sent) → Stands self.now before
            → result.now ≡ open_requests side before }
    {
        match side {
            Side::Editor => &self.editor,
            Side::Server => &self.server,
        }
    }

    /// What is missing if the session ends here: 303 where a request of the editor, cancelled or
    /// not, has no response yet (JSON-RPC 2.0, section 4), else 407 where the editor did not send
    /// `exit` (LSP 3.17, "Exit Notification").
    pub fn incomplete(&self) -> Option<u16>
        ensures { (before : List Sent) → Stands self.now before
            → result ≡ complete.incomplete before }
    {
        if self.editor.len() > 0 {
            Some(rules::REQUEST_NOT_ANSWERED)
        } else if self.exited {
            None
        } else {
            Some(rules::EXIT_MISSING)
        }
    }

    /// Whether a result has answered an `initialize` (LSP 3.17, "Initialize Request"), so that the
    /// handshake is settled.
    pub fn is_done(&self) -> bool
        ensures { (before : List Sent) → Stands self.now before
            → result ≡ handshake.is_done before }
    {
        self.agreed.is_some()
    }

    /// Whether an `initialize` waits for its response, so that the value of a result may matter.
    pub fn awaits_initialize(&self) -> bool
        ensures { (before : List Sent) → Stands self.now before
            → result ≡ not (handshake.is_empty (handshake.open_initializes before)) }
    {
        self.initialize.is_some()
    }

    /// What the `initialize` offers that waits for its response (LSP 3.17, "Initialize Request").
    pub fn offered(&self) -> Option<&Offer>
        ensures { (before : List Sent) → Stands self.now before
            → option_to_list (option_map (λ offer. offer_view offer.now) result)
            ≡ map (λ i. i.offer) (handshake.open_initializes before) }
    {
        match &self.initialize {
            Some(initialize) => Some(&initialize.offer),
            None => None,
        }
    }

    /// What the open `initialize` offers that the message answers by a result, and that result;
    /// `None` for other messages.
    pub fn settled<'a>(&'a self, side: Side, message: &'a Message) -> Option<(&'a Offer, &'a Value)>
        ensures state { option_map (λ s. settled_view s.0.now s.1.now) result
            ≡ handshake.settled_among self.now.initializes side (message_view message.now) }
        ensures settled { (before : List Sent) → Stands self.now before
            → option_map (λ s. settled_view s.0.now s.1.now) result
            ≡ handshake.settled_among (handshake.open_initializes before) side
            (message_view message.now) }
    {
        match (side, message, &self.initialize) {
            (
                Side::Server,
                Message::Response {
                    id: Some(id),
                    answer: Answer::Result(value),
                },
                Some(initialize),
            ) if same_id(id, &initialize.id) => Some((&initialize.offer, value)),
            _ => None,
        }
    }

    /// The requests that this side must answer.
    fn asked_of(&self, side: Side) -> &Pending
        ensures { result.now ≡ by_state.open_of (other_side side) self.now }
    {
        match side {
            Side::Editor => &self.server,
            Side::Server => &self.editor,
        }
    }

    /// The rule on ids: a response answers an open request, and a request has an id that is not
    /// open.
    fn request_rule(&self, side: Side, message: &Message) -> Option<u16>
        ensures { result ≡ by_state.request_rule self.now side (message_view message.now) }
    {
        match message {
            Message::Request { id, .. } => {
                if self.pending(side).contains(id) {
                    Some(rules::ID_ALREADY_OPEN)
                } else {
                    None
                }
            }
            Message::Notification { .. } => None,
            Message::Response { id: Some(id), .. } => {
                if self.asked_of(side).contains(id) {
                    None
                } else {
                    Some(rules::RESPONSE_TO_NO_OPEN_REQUEST)
                }
            }
            Message::Response { id: None, .. } => Some(rules::RESPONSE_TO_NO_OPEN_REQUEST),
        }
    }

    fn lifecycle_rule(&self, side: Side, message: &Message, act: &Act) -> Option<u16>
        ensures { result
            ≡ by_state.lifecycle_rule self.now side (message_view message.now) (act_view act.now) }
    {
        match side {
            Side::Editor => self.editor_rule(message, act),
            Side::Server => self.server_rule(message, act),
        }
    }

    fn editor_rule(&self, message: &Message, act: &Act) -> Option<u16>
        ensures { result
            ≡ by_state.editor_rule self.now (message_view message.now) (act_view act.now) }
    {
        if self.exited {
            Some(rules::EDITOR_AFTER_EXIT)
        } else if is_response(message) || matches!(act, Act::Exit) {
            None
        } else if self.agreed.is_none() {
            self.rule_before_result(act)
        } else {
            self.rule_after_result(act)
        }
    }

    /// The rule for a request or notification of the editor, other than `exit`, before an
    /// `initialize` was answered by a result.
    fn rule_before_result(&self, act: &Act) -> Option<u16>
        requires { by_state.is_done self.now ≡ false }
        ensures { result ≡ by_state.handshake_rule self.now (act_view act.now) }
    {
        if self.initialize.is_some() {
            Some(rules::EDITOR_WHILE_INITIALIZE_OPEN)
        } else if matches!(act, Act::Initialize(_)) {
            None
        } else {
            Some(rules::EDITOR_BEFORE_INITIALIZE)
        }
    }

    /// The same after that.
    fn rule_after_result(&self, act: &Act) -> Option<u16>
        requires { by_state.is_done self.now ≡ true }
        ensures { result ≡ by_state.handshake_rule self.now (act_view act.now) }
    {
        if self.shutdown {
            return Some(rules::EDITOR_AFTER_SHUTDOWN);
        }
        match act {
            Act::Initialize(_) => Some(rules::INITIALIZE_AGAIN),
            Act::Initialized => {
                if self.initialized {
                    Some(rules::INITIALIZE_AGAIN)
                } else {
                    None
                }
            }
            _ => {
                if self.initialized {
                    None
                } else {
                    Some(rules::INITIALIZED_NOT_FIRST)
                }
            }
        }
    }

    fn server_rule(&self, message: &Message, act: &Act) -> Option<u16>
        ensures { result
            ≡ by_state.server_rule self.now (message_view message.now) (act_view act.now) }
    {
        if is_response(message) || self.agreed.is_some() {
            return None;
        }
        match &self.initialize {
            None => Some(rules::SERVER_BEFORE_INITIALIZE),
            Some(initialize) if comes_early(initialize, act) => None,
            Some(_) => Some(rules::SERVER_WHILE_INITIALIZE_OPEN),
        }
    }

    /// What a result agrees on that answers the open `initialize`; `None` for other messages.
    fn settle(&self, side: Side, message: &Message) -> Result<Option<Agreed>, Fault>
        ensures ok { IfOk result (λ agreed. option_map (λ a. Some a) agreed
            ≡ by_state.agreed_by self.now side (message_view message.now)) }
        ensures accepted { OnOk result
            (by_state.result_rule self.now side (message_view message.now) ≡ None) }
        ensures rule { IfErr result
            (Names (by_state.result_rule self.now side (message_view message.now))) }
        ensures memory { result ≡ Err Fault.Memory → ((other : Option ℕ) → shape_rule
            (handshake.settled_among self.now.initializes side (message_view message.now)) other
            ≡ None) }
    {
        match self.settled(side, message) {
            Some((offer, value)) => Ok(Some(agree(self.alloc, offer, value)?)),
            None => Ok(None),
        }
    }

    /// Takes in a message that breaks no rule.
    fn take(
        &mut self,
        side: Side,
        message: &Message,
        act: &Act,
        agreed: Option<Agreed>,
    ) -> Result<()>
        requires ids { by_state.request_rule self.old side (message_view message.now) ≡ None }
        requires lifecycle { by_state.lifecycle_rule self.old side
            (message_view message.now) (act_view act.now) ≡ None }
        requires agreed { option_map (λ a. Some a) agreed
            ≡ by_state.agreed_by self.old side (message_view message.now) }
        ensures ok { OnOk result (self.new ≡ next self.old (sent side message.now act.now)) }
        ensures err { OnErr result (self.new ≡ self.old) }
    {
        self.take_open(side, message, act)?;
        if self.agreed.is_none() {
            self.agreed = agreed;
        }
        if let Side::Editor = side {
            match act {
                Act::Initialized => self.initialized = true,
                Act::Shutdown => self.shutdown = true,
                Act::Exit => self.exited = true,
                _ => {}
            }
        }
        Ok(())
    }

    /// Takes in what the message does to the open requests.
    fn take_open(&mut self, side: Side, message: &Message, act: &Act) -> Result<()>
        requires ids { by_state.request_rule self.old side (message_view message.now) ≡ None }
        requires lifecycle { by_state.lifecycle_rule self.old side
            (message_view message.now) (act_view act.now) ≡ None }
        ensures ok { OnOk result (self.new ≡ next_open self.old (sent side message.now act.now)) }
        ensures err { OnErr result (self.new ≡ self.old) }
    {
        match message {
            Message::Request { id, method, .. } => match side {
                Side::Editor => {
                    let opened = match act {
                        Act::Initialize(offer) => Some(open_initialize(self.alloc, id, offer)?),
                        _ => None,
                    };
                    ask(&mut self.editor, id, method.as_str())?;
                    if opened.is_some() {
                        self.initialize = opened;
                    }
                    Ok(())
                }
                Side::Server => ask(&mut self.server, id, method.as_str()),
            },
            Message::Notification { .. } => {
                if let Act::Cancel { id } = act {
                    match side {
                        Side::Editor => self.editor.cancel(id),
                        Side::Server => self.server.cancel(id),
                    };
                }
                Ok(())
            }
            Message::Response { id: None, .. } => Ok(()),
            Message::Response { id: Some(id), .. } => {
                match side {
                    Side::Editor => {
                        let _ = self.server.answer(id);
                    }
                    Side::Server => self.take_answer(id),
                }
                Ok(())
            }
        }
    }

    /// Takes in the server's answer to an open request.
    fn take_answer(&mut self, id: &Id)
        ensures { self.new ≡ after_answer self.old (id_view id.now) }
    {
        let _ = self.editor.answer(id);
        let answers_initialize = match &self.initialize {
            Some(initialize) => same_id(id, &initialize.id),
            None => false,
        };
        if answers_initialize {
            self.initialize = None;
        }
    }
}

fn is_response(message: &Message) -> bool
    ensures { result ≡ message_spec.is_response (message_view message.now) }
{
    matches!(message, Message::Response { .. })
}

/// Adds a request that is not open yet.
fn ask(pending: &mut Pending, id: &Id, method: &str) -> Result<()>
    requires { has_id (id_view id.now) pending.old ≡ false }
    ensures ok { OnOk result
        (pending.new ≡ pending.old ++ new_entry (id_view id.now) method.now ∷ []) }
    ensures err { OnErr result (pending.new ≡ pending.old) }
{
    match pending.ask(id, method) {
        Ok(()) => Ok(()),
        Err(_) => Err(Memory),
    }
}
