//! Reading a message, member by member, without building what its params and its result hold
//! (JSON-RPC 2.0, sections 4 and 5).
ghost use Rattle.std.specs.Prelude.{◌≡◌, ◌≤◌, ℕ, length, true, Some, IfSome, codes, option_map};
ghost use Rattle.std.specs.Prelude.{string_bytes};
ghost use Rattle.serde_json.specs.Data.{Data, Members, no_members, object};
ghost use Rattle.lsp_outline.specs.Outlined.{AreOutlined, IsLeft, id_in, call_in, response_in};
ghost use Rattle.lsp_walk.specs.Walk.{IsValue};
ghost use Rattle.lsp_rpc.specs.Ident.{id_view};
ghost use Rattle.lsp_rpc.specs.Params as params;
ghost use Rattle.lsp_rpc.specs.Reading as reading;
ghost use Rattle.lsp_rpc.specs.Shape.{as_integer, holds_of, is_string, member};
ghost use Rattle.lsp_rpc.specs.View.{message_view};

use crate::members::{Gathered, given_text, id_at, integer_at, keep, object_at};
use crate::params::{Told, params_at};
use lsp_rpc::{Answer, Id, Message, Method, notification_method, request_method};
use lsp_types::Side;
use lsp_walk::{byte_at, literal_end, skipped, string_copy, string_end};
use serde_json::Value;
use std::alloc::Global;

/// The version of JSON-RPC.
const VERSION: &str = "2.0";

/// By what method the params of a message are read.
#[derive(Clone, Copy)]
pub(crate) enum Reads {
    /// They are skipped.
    Nothing,
    /// By the one that the side's message names before them.
    OfSide(Side),
    OfMethod(Method),
}

/// The id that begins there, `None` where it is null, and where it ends.
fn id_or_null_at(alloc: Global, text: &str, from: usize) -> Option<(Option<Id>, usize)>
    requires { from ≤ length text.now }
    ensures { IfSome result (λ r. (d : Data) × ((depth : ℕ) → IsValue depth text.now from r.1 d)
        × (id_in d ≡ Some (option_map id_view r.0))) }
{
    let bytes = text.as_bytes();
    if byte_at(bytes, from) == b'n' {
        let end = literal_end(bytes, from, b"null")?;
        return Some((None, end));
    }
    let (id, end) = id_at(alloc, text, from)?;
    Some((Some(id), end))
}

/// Where the string that begins there ends, of which nothing else is wanted.
fn string_passed(text: &str, from: usize, depth: usize) -> Option<usize>
    requires { from ≤ length text.now }
    ensures { IfSome result (λ end. (d : Data) × IsValue depth text.now from end d
        × (is_string d ≡ true)) }
{
    if byte_at(text.as_bytes(), from) != b'"' {
        return None;
    }
    string_end(text.as_bytes(), from)
}

/// The members of an error object.
#[derive(Drop)]
struct ErrorParts {
    code: Option<i32>,
    has_message: bool,
}

impl Gathered for ErrorParts {
    ghost gathers = { λ ms parts.
        (params.required (codes "code") as_integer (object ms) ≡ parts.code)
        × (holds_of is_string (member (codes "message") (object ms)) ≡ parts.has_message) };

    fn none() -> ErrorParts {
        ErrorParts {
            code: None,
            has_message: false,
        }
    }

    #[inline(always)]
    fn take(
        &mut self,
        _alloc: Global,
        name: &str,
        text: &str,
        from: usize,
        depth: usize,
    ) -> Option<usize> {
        match name {
            "code" => keep!(self.code = Some(integer_at(text, from))),
            "message" => {
                let end = string_passed(text, from, depth)?;
                self.has_message = true;
                Some(end)
            }
            _ => skipped(text, from, depth),
        }
    }
}

/// The code of the error object that begins there (JSON-RPC 2.0, section 5.1), and where it ends.
fn error_at(alloc: Global, text: &str, from: usize, depth: usize) -> Option<(i32, usize)>
    requires { from ≤ length text.now }
    ensures { IfSome result (λ r. (ms : Members) × IsValue depth text.now from r.1 (object ms)
        × (reading.code_of (object ms) ≡ Some r.0)) }
{
    let (parts, end): (ErrorParts, usize) = object_at(alloc, text, from, depth)?;
    if !parts.has_message {
        return None;
    }
    let code = parts.code?;
    Some((code, end))
}

/// The method by which params are read that come next, after these members.
fn reads_by(reads: Reads, method: Option<&String>, has_id: bool) -> Method {
    match (reads, method) {
        (Reads::OfMethod(method), _) => method,
        (Reads::OfSide(side), Some(name)) if has_id => request_method(side, name.as_str()),
        (Reads::OfSide(side), Some(name)) => notification_method(side, name.as_str()),
        _ => Method::Other,
    }
}

/// The members of a message, apart from what its result holds.
#[derive(Drop)]
pub(crate) struct MessageParts {
    reads: Reads,
    has_version: bool,
    method: Option<String>,
    /// `Some(None)` is null.
    id: Option<Option<Id>>,
    /// What the params mean, where they are read.
    pub(crate) told: Option<Told>,
    has_result: bool,
    /// Its code.
    error: Option<i32>,
}

impl Gathered for MessageParts {
    ghost gathers = { λ ms parts. AreOutlined ms parts };

    fn none() -> MessageParts {
        MessageParts {
            reads: Reads::Nothing,
            has_version: false,
            method: None,
            id: None,
            told: None,
            has_result: false,
            error: None,
        }
    }

    #[inline(always)]
    fn take(
        &mut self,
        alloc: Global,
        name: &str,
        text: &str,
        from: usize,
        depth: usize,
    ) -> Option<usize> {
        match name {
            "jsonrpc" => {
                let end = given_text(text, from, VERSION)?;
                self.has_version = true;
                Some(end)
            }
            "method" => keep!(self.method = Some(string_copy(alloc, text, from))),
            "id" => keep!(self.id = Some(id_or_null_at(alloc, text, from))),
            "params" => {
                let method = reads_by(self.reads, self.method.as_ref(), self.id.is_some());
                keep!(self.told = params_at(alloc, method, text, from, depth))
            }
            "result" => {
                let end = skipped(text, from, depth)?;
                self.has_result = true;
                Some(end)
            }
            "error" => keep!(self.error = Some(error_at(alloc, text, from, depth))),
            _ => skipped(text, from, depth),
        }
    }
}

impl MessageParts {
    /// Nothing gathered yet, of a message whose params are read so.
    pub(crate) fn reading(reads: Reads) -> MessageParts
        ensures { AreOutlined no_members result }
    {
        let mut parts = MessageParts::none();
        parts.reads = reads;
        parts
    }
}

/// Puts a call without its params in the place of a message.
fn put_call(message: &mut Message, method: String, id: Option<Option<Id>>) -> Option<()>
    ensures { IfSome result (λ _. call_in (string_bytes method)
        (option_map (λ id. option_map id_view id) id) ≡ Some (message_view message.new)) }
{
    *message = match id {
        None => Message::Notification {
            method,
            params: None,
        },
        Some(id) => Message::Request {
            id: id?,
            method,
            params: None,
        },
    };
    Some(())
}

/// Puts a response without the value of its result in the place of a message.
fn put_response(
    message: &mut Message,
    id: Option<Id>,
    has_result: bool,
    error: Option<i32>,
) -> Option<()>
    ensures { IfSome result (λ _. response_in (option_map id_view id) has_result error
        ≡ Some (message_view message.new)) }
{
    let answer = match error {
        None if has_result => Answer::Result(Value::Null),
        Some(code) if !has_result => Answer::Error { code },
        _ => return None,
    };
    *message = Message::Response { id, answer };
    Some(())
}

/// Puts what the parts leave of their message in the place of another, where they keep the rules
/// (JSON-RPC 2.0, sections 4 and 5).
#[inline(never)]
pub(crate) fn put_message(parts: &mut MessageParts, message: &mut Message) -> Option<()>
    ensures left { IfSome result (λ _. (ms : Members) → AreOutlined ms parts.old
        → IsLeft ms (message_view message.new) parts.old.told) }
    ensures told { parts.new.told ≡ parts.old.told }
{
    if !parts.has_version {
        return None;
    }
    let Some(method) = parts.method.take() else {
        return put_response(message, parts.id.take()?, parts.has_result, parts.error);
    };
    put_call(message, method, parts.id.take())
}
