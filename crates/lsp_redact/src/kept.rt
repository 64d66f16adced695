//! What is kept of an event: what the rules read.
ghost use Rattle.std.specs.Prelude.{◌≡◌, IfOk, List, chars, option_map};
ghost use Rattle.lsp_redact.specs.Kept as spec;
ghost use Rattle.lsp_redact.specs.Kept.{awaits};
ghost use Rattle.lsp_redact.specs.View.{head_view, kept_view, reply_view, spoken_kept};
ghost use Rattle.lsp_replay.specs.Common.{act_view, Event, MaySpeak, message_view, Reads};
ghost use Rattle.lsp_rpc.specs.View.{answer_view};
ghost use Rattle.lsp_verdict.specs.Given.{raw_view};
ghost use Rattle.lsp_rpc.specs.Message as message;
ghost use Rattle.serde_json.specs.View.{view};

use crate::copies::{copy_act, copy_given_id};
use lsp_replay::Seen;
use lsp_rpc::{
    Act, Answer, Id, Message, Picked, Result, RpcFault, Side, Spoken, copy_id, picked_of,
};
use lsp_verdict::Raw;
use serde_json::Value;
use std::alloc::Global;

/// What is kept of the answer in a response.
#[derive(Drop)]
pub(crate) enum Reply {
    /// What a result picks that comes while an `initialize` is open.
    Picks(Picked),
    /// Any other result, of which nothing is read.
    Nothing,
    Error { code: i32 },
}

/// What is kept of a message apart from what it means (JSON-RPC 2.0, sections 4 and 5).
#[derive(Drop)]
pub(crate) enum Head {
    Request { id: Id, method: String },
    Notification { method: String },
    Response { id: Option<Id>, reply: Reply },
}

/// What is kept of an event that is no fault.
#[derive(Drop)]
pub(crate) enum Kept {
    Message {
        side: Side,
        head: Head,
        act: Act,
    },
    Snapshot {
        version: i32,
        uri: String,
        text: String,
    },
}

/// What is kept of a result, where an `initialize` is open or not.
fn reply_of(alloc: Global, value: &Value, awaited: bool) -> Result<Reply>
    ensures { IfOk result (λ reply. reply_view reply
        ≡ spec.reply_of awaited (message.result (view value.now))) }
{
    if !awaited {
        return Ok(Reply::Nothing);
    }
    match picked_of(alloc, value) {
        Ok(picked) => Ok(Reply::Picks(picked)),
        Err(RpcFault::Rule(_)) => Ok(Reply::Nothing),
        Err(RpcFault::Memory) => Err(lsp_rpc::Memory),
    }
}

/// What is kept of an answer.
fn answer_of(alloc: Global, answer: &Answer, awaited: bool) -> Result<Reply>
    ensures { IfOk result (λ reply. reply_view reply
        ≡ spec.reply_of awaited (answer_view answer.now)) }
{
    match answer {
        Answer::Result(value) => reply_of(alloc, value, awaited),
        Answer::Error { code } => Ok(Reply::Error { code: *code }),
    }
}

/// What is kept of a message, where an `initialize` is open or not.
fn head_of(alloc: Global, message: &Message, awaited: bool) -> Result<Head>
    ensures { IfOk result (λ head. head_view head
        ≡ spec.head_of awaited (message_view message.now)) }
{
    match message {
        Message::Request { id, method, .. } => Ok(Head::Request {
            id: copy_id(id)?,
            method: method.clone()?,
        }),
        Message::Notification { method, .. } => Ok(Head::Notification {
            method: method.clone()?,
        }),
        Message::Response { id, answer } => Ok(Head::Response {
            id: copy_given_id(id.as_ref())?,
            reply: answer_of(alloc, answer, awaited)?,
        }),
    }
}

/// What is kept of a message of a side, where an `initialize` is open or not.
fn message_of(alloc: Global, side: Side, spoken: &Spoken, awaited: bool) -> Result<Kept>
    ensures { IfOk result (λ kept. kept_view kept ≡ spec.message side
        (spec.head_of awaited (message_view spoken.now.message)) (act_view spoken.now.act)) }
{
    Ok(Kept::Message {
        side,
        head: head_of(alloc, &spoken.message, awaited)?,
        act: copy_act(alloc, &spoken.act)?,
    })
}

/// What is kept of a content of a side, which is this message or none.
fn content_of(
    alloc: Global,
    side: Side,
    spoken: Option<&Spoken>,
    awaited: bool,
) -> Result<Option<Kept>>
    ensures { IfOk result (λ kept. option_map kept_view kept
        ≡ option_map (spoken_kept side awaited) (option_map (λ s. s.now) spoken.entry)) }
{
    match spoken {
        Some(spoken) => Ok(Some(message_of(alloc, side, spoken, awaited)?)),
        None => Ok(None),
    }
}

/// What is kept of a snapshot: all of it.
fn snapshot_of(alloc: Global, version: i32, uri: &str, text: &str) -> Result<Kept>
    ensures { IfOk result (λ kept. kept_view kept
        ≡ spec.snapshot uri.now version (chars text.now)) }
{
    Ok(Kept::Snapshot {
        version,
        uri: String::from_str(alloc, uri)?,
        text: String::from_str(alloc, text)?,
    })
}

/// What is kept of an event, where an `initialize` was open before it or not. Nothing is of a fault
/// of a side's frames, and of a content that is no message.
pub(crate) fn kept_of(alloc: Global, seen: &Seen<'_>, awaited: bool) -> Result<Option<Kept>>
    ensures { IfOk result (λ kept. (before : List Event) (event : Event)
        → awaited ≡ awaits before → Reads (raw_view seen.now.raw) event
        → MaySpeak before event (option_map (λ s. s.now) seen.now.spoken)
        → option_map kept_view kept ≡ spec.kept_of before event) }
{
    match seen.raw {
        Raw::Content { side, .. } => {
            let kept = content_of(alloc, side, seen.spoken, awaited)?;
            Ok(kept)
        }
        Raw::Broken { .. } => Ok(None),
        Raw::Snapshot { version, uri, text } => {
            let shown = snapshot_of(alloc, version, uri, text)?;
            Ok(Some(shown))
        }
    }
}
