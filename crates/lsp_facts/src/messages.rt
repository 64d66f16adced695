//! Facts on messages, and how some bytes begin.
ghost use Rattle.std.specs.Prelude.{◌≡◌, ◌≤◌, List, [], ◌∷◌, ◌++◌, IfOk, OnOk, length, take};
ghost use Rattle.std.specs.Prelude.{codes, map, option_map, string_bytes, unwrap_or};
ghost use Rattle.std.specs.List.{flat_map};
ghost use Rattle.std.specs.Str.{IsUtf8};
ghost use Rattle.json.specs.Print.{quoted};
ghost use Rattle.serde_json.specs.View.{view};
ghost use Rattle.lsp_replay.specs.Common.{act_view, id_view, message_view, offer_view};
ghost use Rattle.lsp_replay.specs.Common.{open_initializes, phase, picked_at, Sent, texts_view};
ghost use Rattle.lsp_session.specs.Handshake.{settled_among};
ghost use Rattle.lsp_session.specs.State.{Stands};
ghost use Rattle.lsp_session.specs.View.{sent};
ghost use Rattle.lsp_facts.specs.Fact.{in_phase, more_words, spaced};
ghost use Rattle.lsp_facts.specs.Members.{pointer_view};
ghost use Rattle.lsp_facts.specs.EventFacts as spec;

use crate::facts::Facts;
use crate::members::wrong_result;
use lsp_rpc::{Act, Id, Memory, Message, Offer, Result, RpcFault, Side, picked_of, push_quoted};
use lsp_session::{Session, is_synchronisation};
use lsp_types::rules;
use serde_json::Value;
use std::alloc::Global;
use std::fmt::Write;
use std::str::from_utf8;

/// How many bytes of a content, of a header part or of an unfinished frame are shown.
const SHOWN_BYTES: usize = 64;

/// How many bytes are shown of the names that an `initialize` offers, a byte more counted for each.
const OFFERED_BYTES: usize = 256;

/// The first bytes, of which the length is given, as a text.
fn front_of(bytes: &[u8], len: usize) -> &str
    requires within { len ≤ length bytes.now }
    requires text { IsUtf8 (take len bytes.now) }
    ensures { result.now ≡ take len bytes.now }
{
    from_utf8(&bytes[..len]).unwrap()
}

/// The longest front of some bytes that is UTF-8.
pub(crate) fn text_front(bytes: &[u8]) -> &str
    ensures { result.now ≡ spec.text_front bytes.now }
{
    match from_utf8(bytes) {
        Ok(text) => text,
        Err(error) => front_of(bytes, error.valid_up_to()),
    }
}

/// As much of some bytes as is UTF-8, and lies within so many.
pub(crate) fn shown(bytes: &[u8], most: usize) -> &str
    ensures { result.now ≡ spec.shown most bytes.now }
{
    let len = most.min(bytes.len());
    text_front(&bytes[..len])
}

/// How some bytes begin, as far as that is UTF-8: those of a content, of a header part, or of a
/// stream that ends inside a frame (107).
pub(crate) fn front_facts(alloc: Global, bytes: &[u8]) -> Result<Facts>
    ensures { IfOk result (λ facts. facts ≡ spec.front_facts bytes.now) }
{
    let mut facts = Facts::new(alloc);
    facts.text("begins", shown(bytes, SHOWN_BYTES))?;
    Ok(facts)
}

/// Adds a member that does not have its shape, where there is one.
pub(crate) fn push_member(facts: &mut Facts, found: Option<String>) -> Result<()>
    ensures { OnOk result (facts.new ≡ facts.old ++ spec.member_facts (pointer_view found)) }
{
    match found {
        Some(pointer) => facts.text("member", pointer.as_str()),
        None => Ok(()),
    }
}

/// The id in a message, if it has one.
pub fn id_in(message: &Message) -> Option<&Id>
    ensures { option_map (λ i. id_view i.now) result ≡ spec.id_in (message_view message.now) }
{
    match message {
        Message::Request { id, .. } => Some(id),
        Message::Notification { .. } => None,
        Message::Response { id, .. } => id.as_ref(),
    }
}

fn push_id(facts: &mut Facts, message: &Message) -> Result<()>
    ensures { OnOk result (facts.new
        ≡ facts.old ++ spec.id_fact (message_view message.now) ∷ []) }
{
    match id_in(message) {
        Some(id) => facts.id("id", id),
        None => facts.word("id", "null"),
    }
}

/// How many of the first names fit into the bytes that are shown of them.
fn count_fitting(names: &[String]) -> usize
    ensures within { result ≤ length names.now }
    ensures count { result ≡ spec.names_fitting spec.offered_bytes (texts_view names.now) }
{
    let mut room = OFFERED_BYTES;
    let mut count = 0;
    for name in names {
        let size = name.as_str().len();
        if size >= room {
            return count;
        }
        room -= size + 1;
        count += 1;
    }
    count
}

/// Adds as many of the first names as fit, and how many more there are.
fn push_names(facts: &mut Facts, names: &[String]) -> Result<()>
    ensures { OnOk result (facts.new
        ≡ facts.old ++ spec.offer_fact (texts_view names.now) ∷ []) }
{
    let count = count_fitting(names);
    let more = names.len() - count;
    let mut words = shown_names(facts.alloc(), &names[..count])?;
    push_more(&mut words, more)?;
    facts.push_end(words)
}

/// Adds how many names are left out, where any are.
fn push_more(words: &mut String, more: usize) -> Result<()>
    ensures { OnOk result (string_bytes words.new ≡ string_bytes words.old ++ more_words more) }
{
    if more == 0 {
        return Ok(());
    }
    write!(words, " and {more}")?;
    Ok(())
}

/// Names that are offered.
fn shown_names(alloc: Global, names: &[String]) -> Result<String>
    ensures { IfOk result (λ words. string_bytes words ≡ codes "offered"
        ++ flat_map (λ name. spaced (quoted name)) (texts_view names.now)) }
{
    let mut words = String::from_str(alloc, "offered")?;
    for name in names {
        push_name(alloc, &mut words, name.as_str())?;
    }
    Ok(words)
}

fn push_name(alloc: Global, words: &mut String, name: &str) -> Result<()>
    ensures { OnOk result (string_bytes words.new
        ≡ string_bytes words.old ++ spaced (quoted name.now)) }
{
    words.push_str(" ")?;
    push_quoted(alloc, words, name)
}

/// Adds the encodings that are offered; none where none is named.
fn push_offered(facts: &mut Facts, offer: &Offer) -> Result<()>
    ensures { OnOk result (facts.new ≡ facts.old
        ++ spec.offer_fact (unwrap_or (offer_view offer.now).encodings []) ∷ []) }
{
    match &offer.encodings {
        Some(encodings) => push_names(facts, encodings.as_slice()),
        None => push_names(facts, &[]),
    }
}

/// Adds what the result of `initialize` picks, where it has the shape.
fn push_picked(facts: &mut Facts, value: &Value) -> Result<()>
    ensures { OnOk result (facts.new ≡ facts.old ++ spec.pick_facts (picked_at (view value.now))) }
{
    match picked_of(facts.alloc(), value) {
        Ok(picked) => facts.text("picked", picked.encoding.as_str()),
        Err(RpcFault::Rule(_)) => Ok(()),
        Err(RpcFault::Memory) => Err(Memory),
    }
}

/// Adds what a result of `initialize` agrees on, or would.
fn push_settled(facts: &mut Facts, session: &Session, side: Side, message: &Message) -> Result<()>
    ensures { OnOk result ((before : List Sent) → Stands session.now before
        → facts.new ≡ facts.old ++ spec.settled_facts (settled_among (open_initializes before) side
        (message_view message.now))) }
{
    let Some((offer, value)) = session.settled(side, message) else {
        return Ok(());
    };
    push_offered(facts, offer)?;
    push_picked(facts, value)?;
    let found = wrong_result(facts.alloc(), value)?;
    push_member(facts, found)
}

/// The first of the methods that is one of text synchronisation.
fn first_synchronisation(methods: &[String]) -> Option<&str>
    ensures { option_map (λ m. m.now) result ≡ spec.first_synchronisation (texts_view methods.now) }
{
    for method in methods {
        if is_synchronisation(method.as_str()) {
            return Some(method.as_str());
        }
    }
    None
}

fn registered(act: &Act) -> Option<&str>
    ensures { option_map (λ m. m.now) result ≡ spec.registered (act_view act.now) }
{
    match act {
        Act::Register { methods } => first_synchronisation(methods.as_slice()),
        _ => None,
    }
}

fn push_registered(facts: &mut Facts, act: &Act) -> Result<()>
    ensures { OnOk result (facts.new ≡ facts.old ++ spec.register_facts (act_view act.now)) }
{
    match registered(act) {
        Some(method) => facts.text("registers", method),
        None => Ok(()),
    }
}

/// The token of the open `initialize`, if it has one.
fn expected(session: &Session) -> Option<&Id>
    ensures { (before : List Sent) → Stands session.now before
        → option_map (λ id. id_view id.now) result
        ≡ spec.token_of (map (λ i. i.offer) (open_initializes before)) }
{
    session.offered()?.token.as_ref()
}

/// Adds the token of a progress, and the one that it may have.
fn push_tokens(facts: &mut Facts, session: &Session, act: &Act) -> Result<()>
    ensures { OnOk result ((before : List Sent) → Stands session.now before
        → facts.new ≡ facts.old ++ spec.token_facts before (act_view act.now)) }
{
    let Act::Progress { token } = act else {
        return Ok(());
    };
    facts.id("token", token)?;
    match expected(session) {
        Some(own) => facts.id("expected", own),
        None => Ok(()),
    }
}

/// Adds how far the session has come, and under 412 the tokens of a progress before that.
fn push_phase(facts: &mut Facts, session: &Session, act: &Act, rule: u16) -> Result<()>
    ensures { OnOk result ((before : List Sent) → Stands session.now before
        → facts.new ≡ facts.old ++ spec.early_facts rule before (act_view act.now)
        ++ in_phase (phase before) ∷ []) }
{
    if rule == rules::SERVER_WHILE_INITIALIZE_OPEN {
        push_tokens(facts, session, act)?;
    }
    facts.phase(session.phase())
}

/// What is said about a message that breaks this rule, 301 to 504, after the messages of the
/// session: of 301 and 302 its id, of 401 to 412 how far the session has come, of 412 also the
/// token of a progress and that of the open `initialize`, of 501 to 503 the encodings that the open
/// `initialize` offers and the one that its result picks, or the member of that which does not have
/// its shape, of 504 the first method of text synchronisation that is to be registered. The act is
/// what the message means on its side.
///
/// # Errors
/// `Memory` where memory was refused.
pub fn session_facts(
    alloc: Global,
    session: &Session,
    side: Side,
    message: &Message,
    act: &Act,
    rule: u16,
) -> Result<Facts>
    ensures { IfOk result (λ facts. (before : List Sent) → Stands session.now before
        → facts ≡ spec.session_facts rule before (sent side message.now act.now)) }
{
    let mut facts = Facts::new(alloc);
    match rule {
        rules::RESPONSE_TO_NO_OPEN_REQUEST..=rules::ID_ALREADY_OPEN => {
            push_id(&mut facts, message)?;
        }
        rules::EDITOR_BEFORE_INITIALIZE..=rules::SERVER_WHILE_INITIALIZE_OPEN => {
            push_phase(&mut facts, session, act, rule)?;
        }
        rules::BAD_INITIALIZE_RESULT..=rules::ENCODING_OUTSIDE_PROFILE => {
            push_settled(&mut facts, session, side, message)?;
        }
        _ => push_registered(&mut facts, act)?,
    }
    Ok(facts)
}
