//! Facts about contents that are no message, and messages whose params have the wrong shape.
ghost use Rattle.std.specs.Prelude.{◌≡◌, ◌≤◌, ◌-◌, ◌++◌, IfOk, IfSome, OnOk, length};
ghost use Rattle.std.specs.List.{prefix_len};
ghost use Rattle.lsp_facts.specs.EventFacts as spec;
ghost use Rattle.lsp_facts.specs.Members.{Finds};

use crate::facts::Facts;
use crate::json_text::json_break;
use crate::members::wrong_member;
use crate::messages::{front_facts, push_member, shown, text_front};
use crate::whole::push_whole;
use lsp_rpc::{Memory, Result, RpcFault, read};
use lsp_types::rules;
use std::alloc::Global;

/// How many bytes are shown before the place where a content breaks, and how many after it.
const AROUND_BYTES: usize = 32;

/// What is said about a content that breaks this rule, 201 to 209, and these bytes at hand behind
/// it: how it begins, as far as that is UTF-8; under 201 where it is no longer the front of a JSON
/// text, what is before and after that place, and how long the JSON text is that ends behind the
/// content; under 209 the member of its params that does not have its shape.
///
/// # Errors
/// `Memory` where memory was refused.
pub fn content_facts(alloc: Global, content: &[u8], behind: &[u8], rule: u16) -> Result<Facts>
    ensures { IfOk result (λ facts. facts ≡ spec.content_facts rule content.now behind.now) }
{
    let mut facts = front_facts(alloc, content)?;
    push_reason(&mut facts, content, behind, rule)?;
    Ok(facts)
}

fn push_reason(facts: &mut Facts, content: &[u8], behind: &[u8], rule: u16) -> Result<()>
    ensures { OnOk result (facts.new ≡ facts.old
        ++ spec.reason_facts rule content.now behind.now) }
{
    if rule == rules::CONTENT_NOT_JSON {
        return push_no_json(facts, content, behind);
    }
    if rule == rules::BAD_METHOD_PARAMS {
        let found = member_in(facts.alloc(), content)?;
        return push_member(facts, found);
    }
    Ok(())
}

// ---- 209

/// The member of the params that does not have its shape, if there is one.
fn member_in(alloc: Global, content: &[u8]) -> Result<Option<String>>
    ensures { Finds result (spec.wrong_in content.now) }
{
    match read(alloc, content) {
        Ok(message) => wrong_member(alloc, &message),
        Err(RpcFault::Rule(_)) => Ok(None),
        Err(RpcFault::Memory) => Err(Memory),
    }
}

// ---- 201

/// Where a content is no JSON text, and how long it is with some of the bytes behind it.
fn push_no_json(facts: &mut Facts, content: &[u8], behind: &[u8]) -> Result<()>
    ensures { OnOk result (facts.new ≡ facts.old ++ spec.no_json_facts content.now behind.now) }
{
    push_break(facts, content)?;
    push_whole(facts, content, behind)
}

/// Where a content is no longer the front of a JSON text, and what is around that place.
fn push_break(facts: &mut Facts, content: &[u8]) -> Result<()>
    ensures { OnOk result (facts.new ≡ facts.old
        ++ spec.break_facts content.now (spec.content_break content.now)) }
{
    match content_break(facts.alloc(), content)? {
        Some(place) => push_place(facts, content, place),
        None => Ok(()),
    }
}

/// How many bytes of a content come before the first one that a JSON text of UTF-8 does not allow
/// there; all if it ends too early.
fn content_break(alloc: Global, content: &[u8]) -> Result<Option<usize>>
    ensures place { IfOk result (λ place. place ≡ spec.content_break content.now) }
    ensures within { IfOk result (λ place. IfSome place (λ n. n ≤ length content.now)) }
{
    let text = text_front(content).as_bytes();
    if let Some(place) = json_break(alloc, text)? {
        return Ok(Some(place));
    }
    Ok((text.len() < content.len()).then_some(text.len()))
}

/// A place, and what is before and after it.
fn push_place(facts: &mut Facts, content: &[u8], place: usize) -> Result<()>
    requires { place ≤ length content.now }
    ensures { OnOk result (facts.new ≡ facts.old ++ spec.place_facts content.now place) }
{
    facts.number("breaks", place as u64)?;
    facts.text("before", text_before(content, place))?;
    facts.text("after", shown(&content[place..], AROUND_BYTES))
}

/// The last bytes before a place, from the first whole character on.
fn text_before(content: &[u8], place: usize) -> &str
    requires { place ≤ length content.now }
    ensures { result.now
        ≡ spec.from_character (spec.part content.now (place - spec.around_bytes) place) }
{
    from_character(part(content, place.saturating_sub(AROUND_BYTES), place))
}

/// The bytes between two places.
fn part(bytes: &[u8], from: usize, end: usize) -> &[u8]
    requires order { from ≤ end }
    requires within { end ≤ length bytes.now }
    ensures { result.now ≡ spec.part bytes.now from end }
{
    &bytes[from..end]
}

/// Some bytes from the first whole character on.
fn from_character(bytes: &[u8]) -> &str
    ensures { result.now ≡ spec.from_character bytes.now }
{
    text_front(&bytes[continuation_len(bytes)..])
}

/// How many bytes in front are no first byte of a character.
fn continuation_len(bytes: &[u8]) -> usize
    ensures value { result ≡ prefix_len spec.is_continuation bytes.now }
    ensures bound { result ≤ length bytes.now }
{
    bytes
        .iter()
        .take_while(|byte| is_continuation(**byte))
        .count()
}

/// Whether it is no first byte of a character.
fn is_continuation(byte: u8) -> bool
    ensures { result ≡ spec.is_continuation byte }
{
    matches!(byte, 128..=191)
}
