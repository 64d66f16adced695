//! What stays of a message, as JSON text (JSON-RPC 2.0, sections 4 and 5).
ghost use Rattle.std.specs.Prelude.{◌≡◌, IfOk, Some, option_map, string_bytes};
ghost use Rattle.lsp_redact.specs.Copies.{call_of};
ghost use Rattle.lsp_redact.specs.Messages.{answer_members, answered_data, call_members};
ghost use Rattle.lsp_redact.specs.Messages.{called_members, content_of, error_data, id_data};
ghost use Rattle.lsp_redact.specs.Messages.{members_of, params_of, reply_data, response_members};
ghost use Rattle.lsp_redact.specs.Messages as spec;
ghost use Rattle.lsp_redact.specs.Names.{Names, act_names, call_names, given_names, joined};
ghost use Rattle.lsp_redact.specs.Names.{message_names, reply_names, shown_id, shown_method};
ghost use Rattle.lsp_redact.specs.Naming.{Writes};
ghost use Rattle.lsp_redact.specs.Shown.{shown_act, shown_head, shown_reply};
ghost use Rattle.lsp_redact.specs.View.{head_view, reply_view};
ghost use Rattle.lsp_replay.specs.Common.{act_view, id_view};
ghost use Rattle.serde_json.specs.Data.{object};
ghost use Rattle.serde_json.specs.View.{view};

use crate::kept::{Head, Reply};
use crate::redaction::Redaction;
use crate::values::{no_members, object_of, put_given, text_value};
use lsp_rpc::{Act, Id, Result};
use serde_json::{Value, json, put};
use std::alloc::Global;

/// A value with one member, which names an id or a token.
fn naming_value(alloc: Global, name: &str, id: Value) -> Result<Value>
    ensures { IfOk result (λ shown. view shown ≡ spec.one name.now (view id)) }
{
    let mut members = no_members(alloc);
    put(&mut members, alloc, name, id)?;
    Ok(object_of(members))
}

fn version_value(alloc: Global) -> Result<Value>
    ensures { IfOk result (λ shown. view shown ≡ spec.version_data) }
{
    Ok(text_value(String::from_str(alloc, "2.0")?))
}

/// A call of this method, a request if it has an id.
pub(crate) fn call_value(
    alloc: Global,
    id: Option<Value>,
    method: String,
    params: Option<Value>,
) -> Result<Value>
    ensures { IfOk result (λ shown. view shown ≡ object
        (call_members (option_map view id) (string_bytes method) (option_map view params))) }
{
    let mut members = no_members(alloc);
    put_given(&mut members, alloc, "id", id)?;
    put(&mut members, alloc, "jsonrpc", version_value(alloc)?)?;
    put(&mut members, alloc, "method", text_value(method))?;
    put_given(&mut members, alloc, "params", params)?;
    Ok(object_of(members))
}

/// A response with this id, and this member that says what is answered.
fn response_value(alloc: Global, id: Value, name: &str, answer: Value) -> Result<Value>
    ensures { IfOk result (λ shown. view shown
        ≡ object (answer_members (view id) name.now (view answer))) }
{
    let mut members = no_members(alloc);
    put(&mut members, alloc, "jsonrpc", version_value(alloc)?)?;
    put(&mut members, alloc, "id", id)?;
    put(&mut members, alloc, name, answer)?;
    Ok(object_of(members))
}

fn error_value(alloc: Global, code: i32) -> Result<Value>
    ensures { IfOk result (λ shown. view shown ≡ error_data code) }
{
    Ok(json!(in alloc; {"code": code, "message": ""})?)
}

/// The name of the member that says what is answered.
fn reply_name(reply: &Reply) -> &'static str
    ensures { (names : Names) → result.now
        ≡ spec.reply_name (shown_reply names (reply_view reply.now)) }
{
    match reply {
        Reply::Picks(_) => "result",
        Reply::Nothing => "result",
        Reply::Error { .. } => "error",
    }
}

impl Redaction {
    /// An id or a token, where there is one.
    pub(crate) fn given_id(&mut self, id: Option<&Id>) -> Result<Option<Value>>
        ensures { IfOk result (λ shown. Writes self.old self.new
            (given_names (option_map (λ i. id_view i.now) id.entry))
            (λ n. option_map id_data (option_map (shown_id n)
            (option_map (λ i. id_view i.now) id.entry))) (option_map view shown)) }
    {
        match id {
            Some(id) => {
                let shown = self.names.id(id)?;
                Ok(Some(shown))
            }
            None => Ok(None),
        }
    }

    /// What stays of what a message says about a document.
    fn call(&mut self, act: &Act) -> Result<Option<Value>>
        ensures { IfOk result (λ params. Writes self.old self.new
            (act_names (call_of (act_view act.now)))
            (λ n. params_of (shown_act n self.old.apart (call_of (act_view act.now))))
            (option_map view params)) }
    {
        match act {
            Act::DidOpen { uri, version, text } => {
                let opened = self.opened(uri.as_str(), *version, text.as_str())?;
                Ok(Some(opened))
            }
            Act::DidChange {
                uri,
                version,
                changes,
            } => {
                let changed = self.changed(uri.as_str(), *version, changes.as_slice())?;
                Ok(Some(changed))
            }
            Act::DidClose { uri } => {
                let closed = self.closed(uri.as_str())?;
                Ok(Some(closed))
            }
            Act::DidSave { uri, text } => {
                let saved = self.saved(uri.as_str(), text.as_ref())?;
                Ok(Some(saved))
            }
            _ => Ok(None),
        }
    }

    /// The params that name this id by a member of this name.
    fn naming(&mut self, name: &str, id: &Id) -> Result<Option<Value>>
        ensures { IfOk result (λ params. Writes self.old self.new
            (given_names (Some (id_view id.now)))
            (λ n. Some (spec.one name.now (id_data (shown_id n (id_view id.now)))))
            (option_map view params)) }
    {
        let shown = self.names.id(id)?;
        let params = naming_value(self.alloc, name, shown)?;
        Ok(Some(params))
    }

    /// The params that stay of a message that means this, if any do.
    fn params(&mut self, act: &Act) -> Result<Option<Value>>
        ensures { IfOk result (λ params. Writes self.old self.new (act_names (act_view act.now))
            (λ n. params_of (shown_act n self.old.apart (act_view act.now)))
            (option_map view params)) }
    {
        match act {
            Act::Initialize(offer) => {
                let offered = self.initialize(offer)?;
                Ok(Some(offered))
            }
            Act::Cancel { id } => self.naming("id", id),
            Act::Progress { token } => self.naming("token", token),
            Act::Register { methods } => {
                let registered = self.registered(methods.as_slice())?;
                Ok(Some(registered))
            }
            _ => self.call(act),
        }
    }

    /// The id of a response.
    fn answered(&mut self, id: Option<&Id>) -> Result<Value>
        ensures { IfOk result (λ shown. Writes self.old self.new
            (given_names (option_map (λ i. id_view i.now) id.entry))
            (λ n. answered_data (option_map (shown_id n)
            (option_map (λ i. id_view i.now) id.entry))) (view shown)) }
    {
        match id {
            Some(id) => {
                let shown = self.names.id(id)?;
                Ok(shown)
            }
            None => Ok(Value::Null),
        }
    }

    /// What stays of an answer.
    fn answer(&mut self, reply: &Reply) -> Result<Value>
        ensures { IfOk result (λ shown. Writes self.old self.new
            (reply_names (reply_view reply.now))
            (λ n. reply_data (shown_reply n (reply_view reply.now))) (view shown)) }
    {
        match reply {
            Reply::Picks(picked) => {
                let shown = self.picked(picked)?;
                Ok(shown)
            }
            Reply::Nothing => Ok(Value::Null),
            Reply::Error { code } => {
                let error = error_value(self.alloc, *code)?;
                Ok(error)
            }
        }
    }

    /// A call with its params, a request if it has an id.
    fn called(&mut self, id: Option<&Id>, method: &str, act: &Act) -> Result<Value>
        ensures { IfOk result (λ shown. Writes self.old self.new
            (joined (call_names (option_map (λ i. id_view i.now) id.entry) method.now)
            (act_names (act_view act.now)))
            (λ n. object (called_members
            (option_map (shown_id n) (option_map (λ i. id_view i.now) id.entry))
            (shown_method n method.now)
            (params_of (shown_act n self.old.apart (act_view act.now)))))
            (view shown)) }
    {
        let own = self.given_id(id)?;
        let name = self.names.method(method)?;
        let params = self.params(act)?;
        let shown = call_value(self.alloc, own, name, params)?;
        Ok(shown)
    }

    /// A response.
    fn response(&mut self, id: Option<&Id>, reply: &Reply) -> Result<Value>
        ensures { IfOk result (λ shown. Writes self.old self.new
            (joined (given_names (option_map (λ i. id_view i.now) id.entry))
            (reply_names (reply_view reply.now)))
            (λ n. object (response_members
            (option_map (shown_id n) (option_map (λ i. id_view i.now) id.entry))
            (shown_reply n (reply_view reply.now)))) (view shown)) }
    {
        let own = self.answered(id)?;
        let answer = self.answer(reply)?;
        let shown = response_value(self.alloc, own, reply_name(reply), answer)?;
        Ok(shown)
    }

    /// A message that means this.
    fn message(&mut self, head: &Head, act: &Act) -> Result<Value>
        ensures { IfOk result (λ shown. Writes self.old self.new
            (message_names (head_view head.now) (act_view act.now))
            (λ n. object (members_of (shown_head n (head_view head.now))
            (shown_act n self.old.apart (act_view act.now)))) (view shown)) }
    {
        match head {
            Head::Request { id, method } => self.called(Some(id), method.as_str(), act),
            Head::Notification { method } => self.called(None, method.as_str(), act),
            Head::Response { id, reply } => self.response(id.as_ref(), reply),
        }
    }

    /// The JSON text of a message that means this.
    pub(crate) fn content(&mut self, head: &Head, act: &Act) -> Result<String>
        ensures { IfOk result (λ text. Writes self.old self.new
            (message_names (head_view head.now) (act_view act.now))
            (λ n. content_of (shown_head n (head_view head.now))
            (shown_act n self.old.apart (act_view act.now))) (string_bytes text)) }
    {
        let message = self.message(head, act)?;
        let text = message.to_string(self.alloc)?;
        Ok(text)
    }
}
