//! Which events led to an offence: lines that name earlier events.
ghost use Rattle.std.specs.Prelude.{◌≡◌, ◌++◌, ◌∷◌, [], List, Some, IfOk, OnOk, codes, map};
ghost use Rattle.std.specs.Prelude.{option_map};
ghost use Rattle.lsp_trail.specs.Common.{AreMarks, call_rule, call_view, calls, Event, id_view};
ghost use Rattle.lsp_trail.specs.Common.{IsSpoken, IsTriedOf, kept_of, made_in, message_view};
ghost use Rattle.lsp_trail.specs.Common.{numbered, other_side, place_of, said_at, sent_in};
ghost use Rattle.lsp_trail.specs.Common.{StandsAfter, steps, Terms, terms_in, uri_of};
ghost use Rattle.lsp_docs.specs.Tried.{IsTried};
ghost use Rattle.lsp_session.specs.Entry.{request_view};
ghost use Rattle.lsp_types.specs.declared.rules.TheConstants as rules;
ghost use Rattle.lsp_verdict.specs.Verdict.{document_rule};
ghost use Rattle.lsp_trail.specs.Conversations.{IsConversation};
ghost use Rattle.lsp_facts.specs.EventFacts.{AreCallFacts, id_in, session_facts};
ghost use Rattle.lsp_facts.specs.Fact.{cited};
ghost use Rattle.lsp_origins.specs.Traced as spec;
ghost use Rattle.lsp_origins.specs.Traced.{twin};

use crate::older_encoding::trace_older;
use crate::suspects::{Until, push_suspects};
use crate::told::push_told;
use crate::twins::twin_of;
use crate::unopened::trace_unopened;
use crate::unrisen::trace_unrisen;
use lsp_docs::{Call, Tried};
use lsp_facts::{Earlier, Facts, call_facts, id_in, refuting, session_facts};
use lsp_lined::Lined;
use lsp_replay::EventPlace;
use lsp_rpc::{Encoding, Id, Message, Result, Side, Spoken};
use lsp_session::{OpenRequest, Pending};
use lsp_trail::{Conversation, Marks, Past, VersionEvent};
use lsp_types::rules;
use std::alloc::Global;

/// What is said about a message of a side that offends by this rule, 301 to 504, with the events
/// that brought it. The past is of the events before it.
pub(crate) fn message_traced(
    past: Past<'_>,
    side: Side,
    spoken: &Spoken,
    rule: u16,
) -> Result<Facts>
    ensures { IfOk result (λ facts. (event : Event) (before : List Event)
        → StandsAfter past.entry before
        → (heard : IsSpoken (kept_of (terms_in past.entry) before) event side spoken.now)
        → facts ≡ session_facts rule (sent_in (kept_of (terms_in past.entry) before)) heard.sent
        ++ spec.session_trace rule (numbered (terms_in past.entry) before) heard.sent.side
        (id_in heard.sent.message)) }
{
    let Past { held, trail } = past;
    let (alloc, message) = (held.docs.alloc(), &spoken.message);
    let mut facts = session_facts(alloc, &held.session, side, message, &spoken.act, rule)?;
    trace_message(&mut facts, &trail.said, side, message, rule)?;
    Ok(facts)
}

/// What is said about a call, if there is one, the event of this place, that offends by this rule,
/// with the events that brought it. The past is of the events before it, and this was tried of its
/// changes.
pub(crate) fn said_traced(
    past: Past<'_>,
    place: EventPlace,
    call: Option<Call<'_>>,
    rule: u16,
    tried: Option<&Tried<Lined>>,
) -> Result<Facts>
    ensures { IfOk result (λ facts. (before : List Event) (event : Event)
        → StandsAfter past.entry before → place ≡ place_of before event
        → option_map call_view call.entry ≡ said_at (terms_in past.entry) before event
        → document_rule (terms_in past.entry) (kept_of (terms_in past.entry) before) event
        ≡ Some rule
        → IsTriedOf (terms_in past.entry) (calls (kept_of (terms_in past.entry) before))
        (said_at (terms_in past.entry) before event) (made_in (option_map (λ t. t.now) tried.entry))
        → spec.AreTraced (AreCallFacts (terms_in past.entry)
        (kept_of (terms_in past.entry) before) rule (said_at (terms_in past.entry) before event))
        (spec.earlier_at (terms_in past.entry) before event)
        (spec.said_traced (terms_in past.entry) before event rule) facts) }
{
    match call {
        Some(call) => call_traced(past, place, call, rule, tried),
        None => Ok(Facts::new(past.held.docs.alloc())),
    }
}

/// The same of a call.
fn call_traced(
    past: Past<'_>,
    place: EventPlace,
    call: Call<'_>,
    rule: u16,
    tried: Option<&Tried<Lined>>,
) -> Result<Facts>
    ensures { IfOk result (λ facts. (before : List Event) → StandsAfter past.entry before
        → call_rule (terms_in past.entry) (calls (kept_of (terms_in past.entry) before))
        (call_view call.entry) ≡ Some rule
        → IsTried (terms_in past.entry) (calls (kept_of (terms_in past.entry) before))
        (call_view call.entry) (made_in (option_map (λ t. t.now) tried.entry))
        → spec.AreTraced (AreCallFacts (terms_in past.entry)
        (kept_of (terms_in past.entry) before) rule (Some (call_view call.entry)))
        (spec.earlier_of (terms_in past.entry) before (uri_of (call_view call.entry)))
        (spec.call_traced (terms_in past.entry) before place rule (call_view call.entry)) facts) }
{
    let Past { held, trail } = past;
    let encoding = held.session.encoding().unwrap_or(Encoding::Utf16);
    let earlier = earlier_of(&trail.marks, call.uri())?;
    let mut facts = call_facts(&held.docs, encoding, call, rule, tried, earlier)?;
    trace_call(&mut facts, past, place, call, rule, tried)?;
    trace_unopened(&mut facts, past, call, rule)?;
    trace_unrisen(&mut facts, past, call, rule)?;
    trace_older(&mut facts, past, rule)?;
    Ok(facts)
}

/// What is known of the document of a URI.
fn earlier_of(marks: &Marks, uri: &str) -> Result<Earlier>
    ensures { IfOk result (λ earlier. (terms : Terms) (before : List Event)
        → AreMarks terms marks.now.map.entries before
        → earlier ≡ spec.earlier_of terms before uri.now) }
{
    let set_by = setter_of(marks, uri)?;
    let was_equal = marks.agreed(uri).is_some();
    Ok(Earlier { set_by, was_equal })
}

/// The event that set the version that is held of a URI.
fn setter_of(marks: &Marks, uri: &str) -> Result<Option<EventPlace>>
    ensures { IfOk result (λ place. (terms : Terms) (before : List Event)
        → AreMarks terms marks.now.map.entries before
        → place ≡ spec.setter_of terms before uri.now) }
{
    let setters = marks.setters(uri)?;
    Ok(last_place(setters.as_slice()))
}

/// The place of the last of these messages, which set the held version.
fn last_place(setters: &[VersionEvent]) -> Option<EventPlace>
    ensures { result ≡ spec.last_place setters.now }
{
    Some(setters.last()?.place)
}

/// Adds to the facts on a call, the event of this place, that breaks this rule, under 702 the
/// snapshots that differ from its text; under 608 and 702 the snapshot that was found equal, and
/// the messages that can have made the texts differ.
fn trace_call(
    facts: &mut Facts,
    past: Past<'_>,
    place: EventPlace,
    call: Call<'_>,
    rule: u16,
    tried: Option<&Tried<Lined>>,
) -> Result<()>
    ensures { OnOk result ((before : List Event) → StandsAfter past.entry before
        → call_rule (terms_in past.entry) (calls (kept_of (terms_in past.entry) before))
        (call_view call.entry) ≡ Some rule
        → IsTried (terms_in past.entry) (calls (kept_of (terms_in past.entry) before))
        (call_view call.entry) (made_in (option_map (λ t. t.now) tried.entry))
        → facts.new ≡ facts.old ++ spec.apart_traced (terms_in past.entry) before place rule
        (call_view call.entry)) }
{
    let marks = &past.trail.marks;
    let (uri, until) = (call.uri(), until_of(place, call));
    if rule == rules::SNAPSHOT_DIFFERS {
        let snapshots = differing(past, until, place, call, tried)?;
        push_snapshots(facts, snapshots.as_slice())?;
        trace_texts(facts, marks, uri, until)?;
        return push_told(facts, past, call, rule, until, tried);
    }
    if rule == rules::SAVED_TEXT_DIFFERS {
        trace_texts(facts, marks, uri, until)?;
        return push_told(facts, past, call, rule, until, tried);
    }
    Ok(())
}

/// Adds the snapshot that was found equal of the document of this URI, and the messages that can
/// have made the texts differ.
fn trace_texts(facts: &mut Facts, marks: &Marks, uri: &str, until: Until) -> Result<()>
    ensures { OnOk result ((terms : Terms) (before : List Event)
        → AreMarks terms marks.now.map.entries before
        → facts.new ≡ facts.old ++ spec.apart_facts (steps terms uri.now before) until) }
{
    let equal = marks.agreed(uri);
    let setters = marks.setters(uri)?;
    push_equal(facts, equal)?;
    push_suspects(facts, equal, until, setters.as_slice())
}

/// By which message the text came about that differs.
fn until_of(place: EventPlace, call: Call<'_>) -> Until
    ensures { result ≡ spec.until_of place (call_view call.entry) }
{
    match call {
        Call::Opens { version, .. } => Until::Message { place, version },
        Call::Changes { version, .. } => Until::Message { place, version },
        Call::Shows { version, .. } => Until::Version(version),
        _ => Until::Held,
    }
}

/// The snapshots that differ from the text of a call that breaks 702: of those that wait for its
/// version the ones with another text, or it is one itself.
fn differing(
    past: Past<'_>,
    until: Until,
    place: EventPlace,
    call: Call<'_>,
    tried: Option<&Tried<Lined>>,
) -> Result<Vec<EventPlace>>
    ensures { IfOk result (λ snapshots. (before : List Event) → StandsAfter past.entry before
        → call_rule (terms_in past.entry) (calls (kept_of (terms_in past.entry) before))
        (call_view call.entry) ≡ Some rules.SNAPSHOT_DIFFERS
        → IsTried (terms_in past.entry) (calls (kept_of (terms_in past.entry) before))
        (call_view call.entry) (made_in (option_map (λ t. t.now) tried.entry))
        → snapshots.items ≡ spec.differing (terms_in past.entry)
        (calls (kept_of (terms_in past.entry) before))
        (steps (terms_in past.entry) (uri_of (call_view call.entry)) before) place
        (call_view call.entry) until) }
{
    let Past { held, trail } = past;
    let docs = &held.docs;
    match until {
        Until::Message { version, .. } => {
            let waiting = trail.marks.waiting(call.uri(), version);
            refuting(docs, call, tried, waiting)
        }
        Until::Version(_) => Ok(Vec::from_slice(docs.alloc(), &[place])?),
        Until::Held => Ok(Vec::new(docs.alloc())),
    }
}

fn push_snapshots(facts: &mut Facts, snapshots: &[EventPlace]) -> Result<()>
    ensures { OnOk result (facts.new ≡ facts.old ++ map (cited (codes "snapshot")) snapshots.now) }
{
    for place in snapshots {
        facts.event("snapshot", *place)?;
    }
    Ok(())
}

/// Adds the snapshot that was found equal, if one was.
fn push_equal(facts: &mut Facts, equal: Option<VersionEvent>) -> Result<()>
    ensures { OnOk result (facts.new ≡ facts.old ++ spec.equal_facts equal) }
{
    match equal {
        Some(VersionEvent { place, version, .. }) => facts.version_by("equal", version, place),
        None => Ok(()),
    }
}

/// Adds to the facts on a message of a side that breaks this rule, 301 to 504, under 401 to 412 the
/// event that led to the phase, under 301 and 302 the events that have to do with its id.
fn trace_message(
    facts: &mut Facts,
    said: &Conversation,
    side: Side,
    message: &Message,
    rule: u16,
) -> Result<()>
    ensures { OnOk result ((terms : Terms) (before : List Event) → IsConversation terms said.now before
        → facts.new ≡ facts.old ++ spec.session_trace rule (numbered terms before) side
        (id_in (message_view message.now))) }
{
    if is_on_phase(rule) {
        return push_earlier(facts, "since", said.since());
    }
    match id_in(message) {
        Some(id) => trace_id(facts, said, side, id, rule),
        None => Ok(()),
    }
}

/// Whether a rule, 401 to 412, says what may be sent in a phase.
fn is_on_phase(rule: u16) -> bool
    ensures { result ≡ spec.is_on_phase rule }
{
    matches!(
        rule,
        rules::EDITOR_BEFORE_INITIALIZE..=rules::SERVER_WHILE_INITIALIZE_OPEN
    )
}

/// Adds to the facts on a message of a side with this id, under 301 the open request whose id
/// differs in its type alone, under 302 the event that asked the request that is open, under both
/// the one that answered a request of this id before.
fn trace_id(facts: &mut Facts, said: &Conversation, side: Side, id: &Id, rule: u16) -> Result<()>
    ensures { OnOk result ((terms : Terms) (before : List Event) → IsConversation terms said.now before
        → facts.new ≡ facts.old
        ++ spec.id_trace rule (numbered terms before) side (id_view id.now)) }
{
    match rule {
        rules::RESPONSE_TO_NO_OPEN_REQUEST => {
            let asker = other_side(side);
            push_twin(facts, said, asker, id)?;
            push_earlier(facts, "answered", said.answered(asker, id))
        }
        rules::ID_ALREADY_OPEN => {
            push_earlier(facts, "asked", said.asked(side, id))?;
            push_earlier(facts, "answered", said.answered(side, id))
        }
        _ => Ok(()),
    }
}

/// Adds this side's open request whose id differs from this one in its type alone.
fn push_twin(facts: &mut Facts, said: &Conversation, side: Side, id: &Id) -> Result<()>
    ensures { OnOk result ((terms : Terms) (before : List Event) → IsConversation terms said.now before
        → facts.new ≡ facts.old
        ++ spec.twin_facts side (numbered terms before) (twin (id_view id.now))) }
{
    let Some(twin) = twin_of(facts.alloc(), id)? else {
        return Ok(());
    };
    match said.asked(side, &twin) {
        Some(place) => facts.id_by("open", &twin, place),
        None => Ok(()),
    }
}

/// Adds an earlier event under this key, where there is one.
fn push_earlier(facts: &mut Facts, key: &str, place: Option<EventPlace>) -> Result<()>
    ensures { OnOk result (facts.new ≡ facts.old ++ spec.place_facts key.now place) }
{
    match place {
        Some(place) => facts.event(key, place),
        None => Ok(()),
    }
}

fn other_side(side: Side) -> Side
    ensures { result ≡ other_side side }
{
    match side {
        Side::Editor => Side::Server,
        Side::Server => Side::Editor,
    }
}

/// What is said about a session that ends and is not complete: the requests of the editor's that
/// wait, in the order in which they were sent, with the events that sent them; how far the session
/// has come, and the event that led there. The past is of all its events.
pub(crate) fn lack_traced(past: Past<'_>) -> Result<Facts>
    ensures { IfOk result (λ facts. (before : List Event) → StandsAfter past.entry before
        → facts ≡ spec.lack_traced (numbered (terms_in past.entry) before)) }
{
    let Past { held, trail } = past;
    let said = &trail.said;
    let mut facts = requests(held.docs.alloc(), held.session.pending(Side::Editor), said)?;
    facts.phase(held.session.phase())?;
    push_earlier(&mut facts, "since", said.since())?;
    Ok(facts)
}

/// The requests that wait, with the events that asked them.
fn requests(alloc: Global, pending: &Pending, said: &Conversation) -> Result<Facts>
    ensures { IfOk result (λ facts. (terms : Terms) (before : List Event)
        → IsConversation terms said.now before
        → facts ≡ map (spec.waiting_by (numbered terms before)) pending.now) }
{
    let mut facts = Facts::new(alloc);
    let mut requests = pending.walk();
    while let Some(request) = requests.next() {
        push_request(&mut facts, request, said)?;
    }
    Ok(facts)
}

fn push_request(facts: &mut Facts, request: &OpenRequest, said: &Conversation) -> Result<()>
    ensures { OnOk result ((terms : Terms) (before : List Event) → IsConversation terms said.now before
        → facts.new ≡ facts.old
        ++ spec.waiting_by (numbered terms before) (request_view request.now) ∷ []) }
{
    let asked = said.asked(Side::Editor, &request.id);
    facts.request(&request.id, request.method.as_str(), asked)
}
