//! The words that name a message in a report.
ghost use Rattle.std.specs.Prelude.{◌≡◌, ◌++◌, IfOk, OnOk, OnErr, string_bytes, option_map};
ghost use Rattle.std.specs.Fmt.{signed_decimal};
ghost use Rattle.json.specs.Print.{quoted};
ghost use Rattle.lsp_rpc.specs.Ident.{id_view};
ghost use Rattle.lsp_rpc.specs.View.{message_view, answer_view};
ghost use Rattle.lsp_rpc.specs.Message.{response};
ghost use Rattle.lsp_rpc.specs.Words as spec;

use crate::Result;
use crate::message::{Answer, Id, Message};
use itoa::Buffer;
use serde_json::Value;
use std::alloc::Global;

/// Appends a text as a JSON string. If memory is refused, the words stay as they are.
pub fn push_quoted(alloc: Global, words: &mut String, text: &str) -> Result<()>
    ensures ok { OnOk result (string_bytes words.new ≡ string_bytes words.old ++ quoted text.now) }
    ensures err { OnErr result (string_bytes words.new ≡ string_bytes words.old) }
{
    let value = Value::String(String::from_str(alloc, text)?);
    Ok(words.push_str(value.to_string(alloc)?.as_str())?)
}

fn push_number(words: &mut String, n: i32) -> Result<()>
    ensures ok { OnOk result (string_bytes words.new ≡ string_bytes words.old ++ signed_decimal n) }
    ensures err { OnErr result (string_bytes words.new ≡ string_bytes words.old) }
{
    Ok(words.push_str(Buffer::new().format(n))?)
}

/// Appends an id as JSON text. If memory is refused, the words stay as they are.
pub fn push_id(alloc: Global, words: &mut String, id: &Id) -> Result<()>
    ensures ok { OnOk result
        (string_bytes words.new ≡ string_bytes words.old ++ spec.id_text (id_view id.now)) }
    ensures err { OnErr result (string_bytes words.new ≡ string_bytes words.old) }
{
    match id {
        Id::Number(n) => push_number(words, *n),
        Id::Text(text) => push_quoted(alloc, words, text.as_str()),
    }
}

fn push_response_id(alloc: Global, words: &mut String, id: Option<&Id>) -> Result<()>
    ensures { OnOk result (string_bytes words.new
        ≡ string_bytes words.old
        ++ spec.response_id_text (option_map (λ i. id_view i.now) id.entry)) }
{
    match id {
        Some(id) => push_id(alloc, words, id),
        None => Ok(words.push_str("null")?),
    }
}

/// The words that name a message in a report: `request <id> <method>`, `notification <method>`,
/// `result <id>` or `error <id> <code>`. Ids and methods are JSON text; an id may be `null`.
pub fn words_of(alloc: Global, message: &Message) -> Result<String>
    ensures { IfOk result (λ text. string_bytes text ≡ spec.words_of (message_view message.now)) }
{
    let mut text = String::new(alloc);
    match message {
        Message::Request { id, method, .. } => {
            text.push_str("request ")?;
            push_id(alloc, &mut text, id)?;
            text.push_str(" ")?;
            push_quoted(alloc, &mut text, method.as_str())?;
        }
        Message::Notification { method, .. } => {
            text.push_str("notification ")?;
            push_quoted(alloc, &mut text, method.as_str())?;
        }
        Message::Response { id, answer } => push_answer(alloc, &mut text, id.as_ref(), answer)?,
    }
    Ok(text)
}

fn push_answer(alloc: Global, words: &mut String, id: Option<&Id>, answer: &Answer) -> Result<()>
    ensures { OnOk result (string_bytes words.new ≡ string_bytes words.old
        ++ spec.words_of (response (option_map (λ i. id_view i.now) id.entry)
        (answer_view answer.now))) }
{
    match answer {
        Answer::Result(_) => {
            words.push_str("result ")?;
            push_response_id(alloc, words, id)
        }
        Answer::Error { code } => {
            words.push_str("error ")?;
            push_response_id(alloc, words, id)?;
            words.push_str(" ")?;
            push_number(words, *code)
        }
    }
}
