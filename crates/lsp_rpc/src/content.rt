//! From the bytes of a content to its message.
ghost use Rattle.std.specs.Prelude.{◌≡◌, ◌<◌, ◌&&◌, ◌∷◌, [], Some, Err, codes, length, IfOk, IfErr};
ghost use Rattle.std.specs.Prelude.{not, option_map, option_and_then, string_bytes, is_some};
ghost use Rattle.serde_json.specs.Data.{string};
ghost use Rattle.serde_json.specs.Errors.{IsMemory};
ghost use Rattle.serde_json.specs.View.{view};
ghost use Rattle.lsp_rpc.specs.Ident.{id_view};
ghost use Rattle.lsp_rpc.specs.Message.{response};
ghost use Rattle.lsp_rpc.specs.View.{message_view, answer_view, parts_view};
ghost use Rattle.lsp_rpc.specs.Shape as shape;
ghost use Rattle.lsp_rpc.specs.Shape.{as_id, is_id, unless_null, holds_unless_absent};
ghost use Rattle.lsp_rpc.specs.Reading as reading;
ghost use Rattle.lsp_rpc.specs.Reading.{least_broken};
ghost use Rattle.lsp_rpc.specs.Fault.{IsLeast, rule_unless_read};
ghost use Rattle.lsp_types.specs.declared.rules.TheConstants as rules;

use crate::fault::BrokenRule;
use crate::message::{Answer, Id, Message};
use crate::parts::{Parts, parts_of};
use crate::shape::{id_in, integer_at, is_structure, is_text};
use lsp_types::{Fault, rules};
use serde_json::{Error, Value};
use std::alloc::Global;

/// Rule 205: the value is neither an integer nor a string.
fn id_of(value: Value) -> Result<Id, BrokenRule>
    ensures ok { IfOk result (λ id. as_id (view value) ≡ Some (id_view id)) }
    ensures rule { IsLeast (rule_unless_read rules.BAD_ID (as_id (view value))) result }
{
    id_in(value).ok_or(BrokenRule(rules::BAD_ID))
}

/// The id of a response, `None` where it is null. Rule 205: it is none of an integer, a string and
/// null. Rule 207: there is no id.
fn response_id(id: Option<Value>) -> Result<Option<Id>, BrokenRule>
    ensures ok { IfOk result (λ own.
        option_map id_view own ≡ option_and_then as_id (option_map view id)) }
    ensures rule { IsLeast (least_broken
        ((rules.BAD_ID, not (holds_unless_absent shape.is_id_or_null (option_map view id)))
        ∷ (rules.NOT_A_MESSAGE, not (is_some id)) ∷ [])) result }
{
    match id {
        Some(Value::Null) => Ok(None),
        Some(id) => Ok(Some(id_of(id)?)),
        None => Err(BrokenRule(rules::NOT_A_MESSAGE)),
    }
}

/// The params, where there are any; null stands for none. Rule 206: they are neither an array, an
/// object nor null.
fn params_of(params: Option<Value>) -> Result<Option<Value>, BrokenRule>
    ensures ok { IfOk result (λ own.
        option_map view own ≡ option_and_then unless_null (option_map view params)) }
    ensures rule { IsLeast (least_broken
        ((
          rules.BAD_PARAMS,
          not (holds_unless_absent shape.is_structure_or_null (option_map view params)),
        )
        ∷ [])) result }
{
    match params {
        Some(Value::Null) | None => Ok(None),
        Some(params) if is_structure(&params) => Ok(Some(params)),
        Some(_) => Err(BrokenRule(rules::BAD_PARAMS)),
    }
}

/// The code of an error object (JSON-RPC 2.0, section 5.1).
fn code_of(error: &Value) -> Option<i32>
    ensures { result ≡ reading.code_of (view error.now) }
{
    if !error.get("message")?.is_string() {
        return None;
    }
    integer_at(error, "code")
}

/// What a response answers. Rule 207: there is not exactly one of a result and an error. Rule 208:
/// the error is not an error object.
fn answer_of(value: Option<Value>, error: Option<Value>) -> Result<Answer, BrokenRule>
    ensures ok { IfOk result (λ answer.
        reading.reply_in (option_map view value) (option_map view error)
        ≡ Some (answer_view answer)) }
    ensures rule { IsLeast (least_broken
        ((rules.NOT_A_MESSAGE, not (reading.either (option_map view value) (option_map view error)))
        ∷ (
          rules.BAD_ERROR_OBJECT,
          not (holds_unless_absent reading.is_error (option_map view error)),
        ) ∷ [])) result }
{
    match (value, error) {
        (Some(value), None) => Ok(Answer::Result(value)),
        (None, Some(error)) => {
            let code = code_of(&error).ok_or(BrokenRule(rules::BAD_ERROR_OBJECT))?;
            Ok(Answer::Error { code })
        }
        _ => Err(BrokenRule(rules::NOT_A_MESSAGE)),
    }
}

/// A request or a notification.
fn call_of(method: String, id: Option<Value>, params: Option<Value>) -> Result<Message, BrokenRule>
    ensures ok { IfOk result (λ message. message_view message ≡ reading.call (string_bytes method)
        (option_and_then as_id (option_map view id))
        (option_and_then unless_null (option_map view params))) }
    ensures rule { IsLeast (least_broken
        ((rules.BAD_ID, not (holds_unless_absent is_id (option_map view id)))
        ∷ (
          rules.BAD_PARAMS,
          not (holds_unless_absent shape.is_structure_or_null (option_map view params)),
        )
        ∷ [])) result }
{
    let id = id.map(id_of).transpose()?;
    let params = params_of(params)?;
    Ok(match id {
        Some(id) => Message::Request { id, method, params },
        None => Message::Notification { method, params },
    })
}

fn response_of(
    id: Option<Value>,
    value: Option<Value>,
    error: Option<Value>,
) -> Result<Message, BrokenRule>
    ensures ok { IfOk result (λ message. Some (message_view message) ≡ option_map
        (response (option_and_then as_id (option_map view id)))
        (reading.reply_in (option_map view value) (option_map view error))) }
    ensures rule { IsLeast (least_broken
        ((rules.BAD_ID, not (holds_unless_absent shape.is_id_or_null (option_map view id)))
        ∷ (
          rules.NOT_A_MESSAGE,
          not (is_some id && reading.either (option_map view value) (option_map view error)),
        )
        ∷ (
          rules.BAD_ERROR_OBJECT,
          not (holds_unless_absent reading.is_error (option_map view error)),
        ) ∷ [])) result }
{
    let id = response_id(id)?;
    let answer = answer_of(value, error)?;
    Ok(Message::Response { id, answer })
}

fn has_version(version: Option<Value>) -> bool
    ensures { result ≡ shape.holds_of (shape.is_text (codes "2.0")) (option_map view version) }
{
    version.is_some_and(|version| is_text(&version, "2.0"))
}

/// The method, where there is one. Rule 203: the version is not 2.0. Rule 204: the method is not a
/// string.
fn versioned_method(
    version: Option<Value>,
    method: Option<Value>,
) -> Result<Option<String>, BrokenRule>
    ensures ok { IfOk result (λ name.
        option_map view method ≡ option_map (λ s. string (string_bytes s)) name) }
    ensures rule { IsLeast (least_broken
        ((
          rules.BAD_JSONRPC_VERSION,
          not (shape.holds_of (shape.is_text (codes "2.0")) (option_map view version)),
        )
        ∷ (
          rules.METHOD_NOT_STRING,
          not (holds_unless_absent shape.is_string (option_map view method)),
        ) ∷ [])) result }
{
    if !has_version(version) {
        return Err(BrokenRule(rules::BAD_JSONRPC_VERSION));
    }
    match method {
        Some(Value::String(name)) => Ok(Some(name)),
        Some(_) => Err(BrokenRule(rules::METHOD_NOT_STRING)),
        None => Ok(None),
    }
}

/// The message that the parts make (JSON-RPC 2.0, sections 4 and 5). The refusal is the least of
/// the rules 203 to 208 that they break.
fn assemble(parts: Parts) -> Result<Message, BrokenRule>
    ensures ok { IfOk result (λ message.
        reading.message_in (parts_view parts) ≡ Some (message_view message)) }
    ensures rule { IsLeast (least_broken (reading.rules_on (parts_view parts))) result }
{
    match versioned_method(parts.version, parts.method)? {
        Some(method) => call_of(method, parts.id, parts.params),
        None => response_of(parts.id, parts.result, parts.error),
    }
}

/// The message that a value is. The refusal is the least rule that it breaks.
fn message_of(value: Value) -> Result<Message, BrokenRule>
    ensures ok { IfOk result (λ message. reading.IsMessage (view value) (message_view message)) }
    ensures rule { IsLeast (reading.broken_rule (view value)) result }
{
    assemble(parts_of(value)?)
}

/// Why no value was read: memory was refused, or the content is not a JSON text (rule 201).
fn unread(error: &Error) -> Fault
    ensures memory { IsMemory error.now → result ≡ Fault.Memory }
    ensures rule { ¬ IsMemory error.now → result ≡ Fault.Rule rules.CONTENT_NOT_JSON }
{
    if error.is_memory() {
        Fault::Memory
    } else {
        Fault::Rule(rules::CONTENT_NOT_JSON)
    }
}

/// The value of a JSON text. Rule 201: the content is none.
fn value_of(alloc: Global, content: &[u8]) -> Result<Value, Fault>
    ensures ok { IfOk result (λ value. reading.IsJson content.now (view value)) }
    ensures rule { IfErr result (reading.IsRefusal content.now) }
    ensures memory { result ≡ Err Fault.Memory → 0 < length content.now }
{
    match Value::from_slice(alloc, content) {
        Ok(value) => Ok(value),
        Err(error) => Err(unread(&error)),
    }
}

/// Reads the message of a content (JSON-RPC 2.0, sections 4 and 5; LSP 3.17, Base Protocol). Memory
/// is taken for the JSON value alone, and none for an empty content.
///
/// # Errors
/// The lowest rule that the content breaks: 201 if it is not JSON, 202 to 208 if its value is not a
/// message; or `Memory`.
pub fn read(alloc: Global, content: &[u8]) -> Result<Message, Fault>
    ensures ok { IfOk result (λ message. reading.Reads content.now (message_view message)) }
    ensures rule { IfErr result (reading.IsRefusal content.now) }
    ensures memory { result ≡ Err Fault.Memory → 0 < length content.now }
{
    let value = value_of(alloc, content)?;
    Ok(message_of(value)?)
}
