//! What a message means, by its side, its kind and its method.
ghost use Rattle.std.specs.Prelude.{◌≡◌, Option, None, Some, IfSome, codes, option_map};
ghost use Rattle.serde_json.specs.Data.{Data};
ghost use Rattle.serde_json.specs.Find.{as_str};
ghost use Rattle.serde_json.specs.View.{view};
ghost use Rattle.lsp_rpc.specs.Fault.{Gives};
ghost use Rattle.lsp_rpc.specs.Ident.{id_view};
ghost use Rattle.lsp_rpc.specs.Methods.{IsMethod, meaning};
ghost use Rattle.lsp_rpc.specs.Params as spec;
ghost use Rattle.lsp_rpc.specs.Outline.{without_params};
ghost use Rattle.lsp_rpc.specs.Shape.{as_id};
ghost use Rattle.lsp_rpc.specs.View.{act_view, lent_view, message_view, texts_view};
ghost use Rattle.lsp_types.specs.declared.rules.TheConstants as rules;
ghost use Rattle.lsp_types.specs.declared.side.Side.{Side};
ghost use Rattle.lsp_rpc.specs.declared.methods.Method.{Method};

use crate::act::Act;
use crate::documents::{did_change_of, did_close_of, did_open_of, did_save_of};
use crate::initialize::initialize_of;
use crate::message::{Id, Message};
use crate::params::{PARAMS_FAULT, into_member, into_text, items_of, required_params};
use crate::shape::id_in;
use lsp_types::{Fault, Side};
use serde_json::Value;
use std::alloc::Global;
use std::borrow::Cow;

/// What calls are to a session, by their side, their kind and their name (LSP 3.17, Lifecycle
/// Messages, Text Document Synchronization, Cancellation Support and Progress Support).
#[derive(Clone, Copy, PartialEq, Eq)]
pub enum Method {
    Initialize,
    Initialized,
    Shutdown,
    Exit,
    DidOpen,
    DidChange,
    DidClose,
    DidSave,
    Cancel,
    Progress,
    Register,
    /// The server may send it before it answers `initialize`.
    Early,
    Other,
}

impl Method {
    /// What its calls mean, where their params are not read. `None` exactly where they are: a call
    /// without params has no meaning then.
    pub fn plain_act(self) -> Option<Act>
        ensures means { IfSome result
            (λ act. (params : Option Data) → meaning self params ≡ Some (act_view act)) }
        ensures exact { option_map (λ act. act_view act) result ≡ meaning self None }
    {
        match self {
            Method::Initialized => Some(Act::Initialized),
            Method::Shutdown => Some(Act::Shutdown),
            Method::Exit => Some(Act::Exit),
            Method::Early => Some(Act::Early),
            Method::Other => Some(Act::Other),
            _ => None,
        }
    }
}

/// The method of the side's requests of this name.
pub fn request_method(side: Side, name: &str) -> Method
    ensures { (params : Option Data)
        → spec.act_by (spec.requests side) name.now params ≡ meaning result params }
{
    match (side, name) {
        (Side::Editor, "initialize") => Method::Initialize,
        (Side::Editor, "shutdown") => Method::Shutdown,
        (Side::Server, "window/showMessageRequest") => Method::Early,
        (Side::Server, "client/registerCapability") => Method::Register,
        _ => Method::Other,
    }
}

/// The method of the side's notifications of this name.
pub fn notification_method(side: Side, name: &str) -> Method
    ensures { (params : Option Data)
        → spec.act_by (spec.notifications side) name.now params ≡ meaning result params }
{
    match (side, name) {
        (Side::Editor, "textDocument/didChange") => Method::DidChange,
        (Side::Editor, "textDocument/didOpen") => Method::DidOpen,
        (Side::Editor, "textDocument/didClose") => Method::DidClose,
        (Side::Editor, "textDocument/didSave") => Method::DidSave,
        (Side::Editor, "initialized") => Method::Initialized,
        (Side::Editor, "exit") => Method::Exit,
        (Side::Server, "$/progress") => Method::Progress,
        (Side::Server, "window/showMessage" | "window/logMessage" | "telemetry/event") =>
            Method::Early,
        (_, "$/cancelRequest") => Method::Cancel,
        _ => Method::Other,
    }
}

/// The method of a message of the side. A response is `Other`.
pub fn method_of(side: Side, message: &Message) -> Method
    ensures { IsMethod side (message_view message.now) result }
{
    match message {
        Message::Request { method, .. } => request_method(side, method.as_str()),
        Message::Notification { method, .. } => notification_method(side, method.as_str()),
        Message::Response { .. } => Method::Other,
    }
}

/// The id that the member of this name is, moved out of the value.
fn id_at(value: Value, name: &str) -> Option<Id>
    ensures { option_map id_view result ≡ spec.required name.now as_id (view value) }
{
    id_in(into_member(value, name)?)
}

fn cancel_of(params: Value) -> Result<Act, Fault>
    ensures { Gives act_view rules.BAD_METHOD_PARAMS result (spec.cancel_at (view params)) }
{
    let id = id_at(params, "id").ok_or(PARAMS_FAULT)?;
    Ok(Act::Cancel { id })
}

fn progress_of(params: Value) -> Result<Act, Fault>
    ensures { Gives act_view rules.BAD_METHOD_PARAMS result (spec.progress_at (view params)) }
{
    let token = id_at(params, "token").ok_or(PARAMS_FAULT)?;
    Ok(Act::Progress { token })
}

fn methods_of(alloc: Global, value: Value) -> Result<Vec<String>, Fault>
    ensures { Gives (λ v. texts_view v.items) rules.BAD_METHOD_PARAMS result
        (spec.array_of (spec.required (codes "method") as_str) (view value)) }
{
    let mut found = Vec::new(alloc);
    for item in items_of(value).ok_or(PARAMS_FAULT)? {
        found.push(into_text(item, "method").ok_or(PARAMS_FAULT)?)?;
    }
    Ok(found)
}

fn register_of(alloc: Global, params: Value) -> Result<Act, Fault>
    ensures { Gives act_view rules.BAD_METHOD_PARAMS result (spec.register_at (view params)) }
{
    let registrations = into_member(params, "registrations").ok_or(PARAMS_FAULT)?;
    let methods = methods_of(alloc, registrations)?;
    Ok(Act::Register { methods })
}

/// What a call of this method means by its params.
fn act_by(alloc: Global, method: Method, params: Option<Cow<'_, Value>>) -> Result<Act, Fault>
    ensures { Gives act_view
        rules.BAD_METHOD_PARAMS result (meaning method (option_map lent_view params.entry)) }
{
    match method {
        Method::Initialize => initialize_of(alloc, required_params(params)?),
        Method::Initialized => Ok(Act::Initialized),
        Method::Shutdown => Ok(Act::Shutdown),
        Method::Exit => Ok(Act::Exit),
        Method::DidOpen => did_open_of(required_params(params)?),
        Method::DidChange => did_change_of(alloc, required_params(params)?),
        Method::DidClose => did_close_of(required_params(params)?),
        Method::DidSave => did_save_of(required_params(params)?),
        Method::Cancel => cancel_of(required_params(params)?),
        Method::Progress => progress_of(required_params(params)?),
        Method::Register => register_of(alloc, required_params(params)?),
        Method::Early => Ok(Act::Early),
        Method::Other => Ok(Act::Other),
    }
}

/// The params of a message, lent.
fn lent_params(message: &Message) -> Option<Cow<'_, Value>>
    ensures { (side : Side) (method : Method) → IsMethod side (message_view message.now) method
        → spec.act_at side (message_view message.now)
        ≡ meaning method (option_map lent_view result) }
{
    match message {
        Message::Request { params, .. } => params.as_ref().map(Cow::Borrowed),
        Message::Notification { params, .. } => params.as_ref().map(Cow::Borrowed),
        Message::Response { .. } => None,
    }
}

/// The params of a message, taken out of it.
fn take_params(message: &mut Message) -> Option<Cow<'static, Value>>
    ensures taken { (side : Side) (method : Method)
        → IsMethod side (message_view message.old) method
        → spec.act_at side (message_view message.old)
        ≡ meaning method (option_map lent_view result) }
    ensures left { message_view message.new ≡ without_params (message_view message.old) }
{
    let params = match message {
        Message::Request { params, .. } => params.take(),
        Message::Notification { params, .. } => params.take(),
        Message::Response { .. } => None,
    };
    match params {
        Some(params) => Some(Cow::Owned(params)),
        None => None,
    }
}

/// What a message means on its side (LSP 3.17, Lifecycle Messages and Text Document
/// Synchronization). A response is `Act::Other`. Params that are read are copied; [`take_act`]
/// moves them.
///
/// # Errors
/// Rule 209 if the method is read on that side and in that kind, and the params do not have its
/// shape; or `Memory`.
pub fn act_of(alloc: Global, message: &Message, side: Side) -> Result<Act, Fault>
    ensures { Gives act_view
        rules.BAD_METHOD_PARAMS result (spec.act_at side (message_view message.now)) }
{
    act_by(alloc, method_of(side, message), lent_params(message))
}

/// What [`act_of`] gives, with the texts moved out of the message. The message loses its params,
/// even if there is an error.
pub fn take_act(alloc: Global, message: &mut Message, side: Side) -> Result<Act, Fault>
    ensures gives { Gives act_view
        rules.BAD_METHOD_PARAMS result (spec.act_at side (message_view message.old)) }
    ensures rest { message_view message.new ≡ without_params (message_view message.old) }
{
    let method = method_of(side, message);
    act_by(alloc, method, take_params(message))
}
