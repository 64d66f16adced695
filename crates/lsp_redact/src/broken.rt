//! What stands for a content that is no message, or whose params do not have their shape.
ghost use Rattle.std.specs.Prelude.{◌≡◌, IfOk, string_bytes};
ghost use Rattle.lsp_redact.specs.Broken as spec;
ghost use Rattle.lsp_redact.specs.Broken.{bare_method, bare_of, left_of, refused_text};
ghost use Rattle.lsp_redact.specs.Names.{written_method};
ghost use Rattle.lsp_replay.specs.Common.{message_view, Side};
ghost use Rattle.lsp_rpc.specs.Params.{IsRefused};
ghost use Rattle.serde_json.specs.View.{view};

use crate::messages::call_value;
use crate::names::is_known;
use lsp_rpc::{Message, Result, RpcFault, read};
use lsp_types::rules;
use serde_json::Value;
use std::alloc::Global;

/// A content that breaks a rule of 201 to 208 (JSON-RPC 2.0, sections 4 and 5).
fn broken_content(rule: u16) -> &'static str
    ensures { result.now ≡ spec.broken_content rule }
{
    match rule {
        rules::MESSAGE_NOT_OBJECT => "[]",
        rules::BAD_JSONRPC_VERSION => "{}",
        rules::METHOD_NOT_STRING => "{\"jsonrpc\":\"2.0\",\"method\":null}",
        rules::BAD_ID => "{\"id\":[],\"jsonrpc\":\"2.0\"}",
        rules::BAD_PARAMS => "{\"jsonrpc\":\"2.0\",\"method\":\"\",\"params\":0}",
        rules::NOT_A_MESSAGE => "{\"jsonrpc\":\"2.0\"}",
        rules::BAD_ERROR_OBJECT => "{\"error\":null,\"id\":0,\"jsonrpc\":\"2.0\"}",
        _ => "",
    }
}

/// A method that the rules name, as each is whose params are read; nothing of any other.
fn known_method(method: &str) -> &str
    ensures { result.now ≡ written_method (bare_method method.now) }
{
    if is_known(method) { method } else { "" }
}

/// A call of a method without its params.
fn bare_call(alloc: Global, message: &Message) -> Result<Value>
    ensures { IfOk result (λ value. view value ≡ spec.bare_data (bare_of (message_view message.now))) }
{
    match message {
        Message::Request { method, .. } => {
            let method = String::from_str(alloc, known_method(method.as_str()))?;
            call_value(alloc, Some(Value::from(0u64)), method, None)
        }
        Message::Notification { method, .. } => {
            let method = String::from_str(alloc, known_method(method.as_str()))?;
            call_value(alloc, None, method, None)
        }
        Message::Response { .. } => Ok(Value::Null),
    }
}

/// A call of a method without its params, as JSON text.
fn bare_text(alloc: Global, message: &Message) -> Result<String>
    ensures { IfOk result (λ text. string_bytes text
        ≡ refused_text (bare_of (message_view message.now))) }
{
    let bare = bare_call(alloc, message)?;
    let text = bare.to_string(alloc)?;
    Ok(text)
}

/// What stands for a content that breaks this rule of 201 to 209: of bad params only the method
/// stays, and of all else nothing.
pub(crate) fn broken_text(alloc: Global, content: &[u8], rule: u16) -> Result<String>
    ensures { IfOk result (λ text. (side : Side) → IsRefused side content.now rule
        → string_bytes text ≡ refused_text (left_of content.now rule)) }
{
    if rule != rules::BAD_METHOD_PARAMS {
        let text = String::from_str(alloc, broken_content(rule))?;
        return Ok(text);
    }
    match read(alloc, content) {
        Ok(message) => bare_text(alloc, &message),
        Err(RpcFault::Rule(_)) => Ok(String::new(alloc)),
        Err(RpcFault::Memory) => Err(lsp_rpc::Memory),
    }
}
