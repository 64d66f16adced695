//! What the offences so far have left lost, so that later ones follow from them.
ghost use Rattle.std.specs.Prelude.{◌≡◌, ◌&&◌, ◌||◌, ◌==◌, ℕ, [], List, Option, None, Some};
ghost use Rattle.std.specs.Prelude.{IfOk, OnErr, OnOk, false, option_map, true};
ghost use Rattle.lsp_docs.specs.Calls.{Call as SpecCall};
ghost use Rattle.lsp_replay.specs.Common.{breaks_handshake, call_view, Event, events_of};
ghost use Rattle.lsp_replay.specs.Common.{follows_bytes, follows_passed, Heard, Holds, is_on_lost};
ghost use Rattle.lsp_replay.specs.Common.{is_reopened, IsReading, IsSeen, kept_of, may_answer};
ghost use Rattle.lsp_replay.specs.Common.{message_view, Noted, notes_of, other_side, response_id};
ghost use Rattle.lsp_replay.specs.Common.{rule_of, same_side, sent_in, Terms};
ghost use Rattle.lsp_docs.specs.State as documents;
ghost use Rattle.lsp_rpc.specs.Message.{Message as AMessage};
ghost use Rattle.lsp_session.specs.State.{Stands};
ghost use Rattle.lsp_survey.specs.Lost.{AreLosses, HoldsSent, IsMessageOf, IsNotedIn, WasTold};
ghost use Rattle.lsp_survey.specs.Lost.{follows_of, may_lose};
ghost use Rattle.lsp_survey.specs.Notes.{Leaves, has_any, sides_failed};
ghost use Rattle.lsp_types.specs.declared.rules.TheConstants as rules;
ghost use Rattle.lsp_types.specs.declared.side.Side.TheVariants.{Editor};
ghost use Rattle.lsp_verdict.specs.Event.{fault};
ghost use Rattle.lsp_verdict.specs.Given.{raw_view};
ghost use Rattle.lsp_verdict.specs.Offences.{is_handshake_lost};
ghost use Rattle.lsp_verdict.specs.Offences.{tells_initialized};

use crate::notes::{
    Malformed, Notes, Passed, Sides, breaks_handshake, meant_again, note_kept, note_malformed,
    note_refused, wants_handshake, wants_text,
};
use lsp_docs::Call;
use lsp_lined::Lined;
use lsp_replay::{Events, Fate, Seen};
use lsp_rpc::{Message, Result, Side};
use lsp_session::Session;
use lsp_types::rules;
use lsp_verdict::Raw;
use std::alloc::Global;

/// What the offences so far have left lost.
#[derive(Drop)]
pub struct Losses {
    /// Which documents are lost.
    documents: Notes,
    /// Whether an event of the handshake was refused.
    handshake: bool,
    /// How the bytes of the two sides failed.
    sides: Sides,
    /// Which requests were passed over.
    passed: Passed,
    /// Whether the editor's `initialized` was passed over.
    unheard: bool,
    /// Whether synchronisation was registered, so that all documents are lost.
    unsynced: bool,
}

impl Losses {
    /// Nothing is lost before the first event.
    pub fn new(alloc: Global) -> Losses
        ensures { (terms : Terms) → AreLosses terms result [] }
    {
        Losses {
            documents: Notes::new(alloc),
            handshake: false,
            sides: Sides::new(),
            passed: Passed::new(alloc),
            unheard: false,
            unsynced: false,
        }
    }

    /// This was seen of the next event. Whether it offends and follows from an earlier one.
    ///
    /// # Errors
    /// `Memory` where memory was refused.
    #[inline(always)]
    pub fn tell(&mut self, held: &Events<Lined>, seen: &Seen<'_>) -> Result<bool>
        ensures told { IfOk result (λ late. (terms : Terms) (before : List Heard) (h : Heard)
            → AreLosses terms self.old (notes_of before)
            → IsSeen held.now.session held.now.docs held.now.counts seen.now terms before h
            → WasTold self.new terms before h late) }
        ensures memory { OnErr result ((terms : Terms) (before : List Heard) (h : Heard)
            → IsSeen held.now.session held.now.docs held.now.counts seen.now terms before h
            → may_lose h.raw (rule_of terms before h) ≡ true) }
    {
        match seen.fate {
            Fate::Kept(_) => {
                let Raw::Content { side, .. } = seen.raw else {
                    return Ok(false);
                };
                self.sides = self.sides.after_message(side);
                note_kept(&mut self.documents, seen.call)?;
                Ok(false)
            }
            Fate::Offends { rule, .. } => self.offend(held, seen, rule),
        }
    }

    /// An event offends by this rule; session and documents are those before it. Whether it follows
    /// from an earlier one.
    fn offend(&mut self, held: &Events<Lined>, seen: &Seen<'_>, rule: u16) -> Result<bool>
        ensures told { IfOk result (λ late. (terms : Terms) (before : List Heard) (h : Heard)
            → AreLosses terms self.old (notes_of before)
            → IsSeen held.now.session held.now.docs held.now.counts seen.now terms before h
            → rule_of terms before h ≡ Some rule → WasTold self.new terms before h late) }
        ensures memory { OnErr result (may_lose (raw_view seen.now.raw) (Some rule) ≡ true) }
    {
        match seen.raw {
            Raw::Content { side, content, .. } => match seen.spoken {
                Some(spoken) => self.offend_message(held, side, rule, &spoken.message, seen.call),
                None => self.offend_unread(held.docs.alloc(), &held.session, side, rule, content),
            },
            Raw::Broken { side, .. } => Ok(self.offend_fault(&held.session, side, rule, false)),
            Raw::Snapshot { .. } => self.offend_call(held, rule, seen.call, false),
        }
    }

    /// A message of a side offends, with what it says about a document, if it says anything.
    fn offend_message(
        &mut self,
        held: &Events<Lined>,
        side: Side,
        rule: u16,
        message: &Message,
        said: Option<Call<'_>>,
    ) -> Result<bool>
        ensures { IfOk result (λ late. (terms : Terms) (before : List Noted) (event : Event)
            → AreLosses terms self.old before → held.now.docs.terms ≡ terms
            → Holds held.now.session held.now.docs (kept_of terms (events_of before))
            → IsMessageOf side (message_view message.now) event
            → (late ≡ follows_of terms before rule
            (is_on_lost terms before (option_map call_view said.entry)) (follows_passed terms rule before event
            || follows_bytes rule (events_of before) event))
            × IsNotedIn terms before event None (option_map call_view said.entry)
            (Some rule) self.old self.new) }
    {
        let late = self.message_follows(side, rule, message);
        let follows = self.offend_call(held, rule, said, late)?;
        self.sides = self.sides.after_message(side);
        self.passed.note(side, rule, message)?;
        self.unheard |= is_initialized(side, message) | (rule == rules::INITIALIZED_NOT_FIRST);
        self.unsynced |= rule == rules::DYNAMIC_REGISTRATION;
        Ok(follows)
    }

    /// A message or a snapshot offends, with what it says about a document, if it says anything. It
    /// is `late` if it follows from bytes that failed, or from a message that was passed over.
    fn offend_call(
        &mut self,
        held: &Events<Lined>,
        rule: u16,
        said: Option<Call<'_>>,
        late: bool,
    ) -> Result<bool>
        ensures stays { OnOk result (self.new ≡ record self.old {
          documents = self.new.documents;
          handshake = self.old.handshake || breaks_handshake false rule;
        }) }
        ensures noted { OnOk result ((calls : List SpecCall) → documents.Stands held.now.docs calls
            → Leaves (Some rule) None
            (is_reopened held.now.docs.terms calls (option_map call_view said.entry))
            (option_map call_view said.entry) self.old.documents.map.entries
            self.new.documents.map.entries) }
        ensures follows { IfOk result (λ follows. (terms : Terms) (before : List Noted)
            → AreLosses terms self.old before → HoldsSent held.now.session terms before
            → follows ≡ follows_of terms before rule
            (is_on_lost terms before (option_map call_view said.entry)) late) }
    {
        let on_lost = self.is_on_lost(said)?;
        let follows = self.follows(&held.session, rule, on_lost, late);
        self.handshake |= breaks_handshake(false, rule);
        note_refused(&mut self.documents, &held.docs, rule, said)?;
        Ok(follows)
    }

    /// A content of a side offends that is no message, or is one whose params have the wrong shape.
    fn offend_unread(
        &mut self,
        alloc: Global,
        session: &Session,
        side: Side,
        rule: u16,
        content: &[u8],
    ) -> Result<bool>
        ensures { IfOk result (λ late. (malformed : Option AMessage)
            × IsReading content.now malformed × ((terms : Terms) (before : List Noted)
            → AreLosses terms self.old before → HoldsSent session.now terms before
            → (late ≡ follows_of terms before rule false
            (follows_bytes rule (events_of before) (fault side rule)))
            × IsNotedIn terms before (fault side rule) malformed None (Some rule)
            self.old self.new)) }
    {
        let Malformed {
            asks,
            brings,
            asked,
        } = meant_again(alloc, content)?;
        let follows = self.offend_fault(session, side, rule, asks);
        note_malformed(&mut self.documents, rule, brings)?;
        self.passed.note_asked(side, asked)?;
        Ok(follows)
    }

    /// A frame or a content of a side offends; the content may ask for the handshake.
    fn offend_fault(&mut self, session: &Session, side: Side, rule: u16, asks: bool) -> bool
        ensures stays { self.new ≡ record self.old {
          handshake = self.new.handshake;
          sides = sides_failed side rule self.old.sides;
        } }
        ensures broken { (kept : List Event) → Stands session.now (sent_in kept)
            → self.new.handshake ≡ (self.old.handshake || (breaks_handshake asks rule
            || may_answer kept (fault side rule))) }
        ensures follows { (terms : Terms) (before : List Noted) → AreLosses terms self.old before
            → HoldsSent session.now terms before → result ≡ follows_of terms before rule false
            (follows_bytes rule (events_of before) (fault side rule)) }
    {
        let late = self.sides.fault_follows(side, rule);
        let follows = self.follows(session, rule, false, late);
        self.handshake |= breaks(session, side, rule, asks);
        self.sides = self.sides.after_fault(side, rule);
        follows
    }

    /// Whether an offence of this message by this rule follows from the broken frames of the other
    /// side or a content of it that was no message, or from a message that was passed over: it
    /// answers a request, or wants `initialized` before it.
    fn message_follows(&self, side: Side, rule: u16, message: &Message) -> bool
        ensures { (terms : Terms) (before : List Noted) (event : Event)
            → AreLosses terms self.now before → IsMessageOf side (message_view message.now) event
            → result ≡ (follows_passed terms rule before event
            || follows_bytes rule (events_of before) event) }
    {
        let answers = self.answers_passed(side, rule, message);
        let wants = (rule == rules::INITIALIZED_NOT_FIRST) & self.unheard;
        answers | wants | self.sides.message_follows(side, rule, message)
    }

    /// Whether a message of this side that breaks this rule answers a request that was passed over.
    fn answers_passed(&self, side: Side, rule: u16, message: &Message) -> bool
        ensures { result ≡ (rule == rules.RESPONSE_TO_NO_OPEN_REQUEST
            && has_any self.now.passed (other_side side) (response_id (message_view message.now))) }
    {
        rule == rules::RESPONSE_TO_NO_OPEN_REQUEST && self.passed.answers(side, message)
    }

    /// Whether an offence by this rule follows from an earlier one. It may be `on_lost`, about a
    /// document that is lost, or `late`, the result of bytes that failed or of a message that was
    /// passed over.
    fn follows(&self, session: &Session, rule: u16, on_lost: bool, late: bool) -> bool
        ensures { (terms : Terms) (before : List Noted) → AreLosses terms self.now before
            → HoldsSent session.now terms before
            → result ≡ follows_of terms before rule on_lost late }
    {
        (wants_handshake(rule) && self.is_handshake_lost(session))
            || (wants_text(rule) && on_lost)
            || late
    }

    /// Whether what is said, if anything, is about a document that is lost.
    fn is_on_lost(&self, said: Option<Call<'_>>) -> Result<bool>
        ensures { IfOk result (λ lost. (terms : Terms) (before : List Noted)
            → AreLosses terms self.now before
            → lost ≡ is_on_lost terms before (option_map call_view said.entry)) }
    {
        let is_noted = self.documents.is_lost(said)?;
        Ok(is_noted | (self.unsynced & said.is_some()))
    }

    /// Whether an event of the handshake was refused, and no answer has settled it.
    fn is_handshake_lost(&self, session: &Session) -> bool
        ensures { (terms : Terms) (before : List Noted) → AreLosses terms self.now before
            → HoldsSent session.now terms before → result ≡ is_handshake_lost terms before }
    {
        self.handshake && !session.is_done()
    }
}

/// Whether a frame or a content of this side that breaks this rule breaks the handshake; the
/// content may ask for it.
fn breaks(session: &Session, side: Side, rule: u16, asks: bool) -> bool
    ensures { (kept : List Event) → Stands session.now (sent_in kept)
        → result ≡ (breaks_handshake asks rule || may_answer kept (fault side rule)) }
{
    breaks_handshake(asks, rule) || may_answer(session, side)
}

/// Whether what cannot be read of this side may be the answer to an `initialize`.
fn may_answer(session: &Session, side: Side) -> bool
    ensures { (kept : List Event) (rule : ℕ) → Stands session.now (sent_in kept)
        → result ≡ may_answer kept (fault side rule) }
{
    match side {
        Side::Editor => false,
        Side::Server => session.awaits_initialize(),
    }
}

/// Whether a message of this side is the editor's `initialized`.
fn is_initialized(side: Side, message: &Message) -> bool
    ensures { result ≡ (same_side Editor side && tells_initialized (message_view message.now)) }
{
    match side {
        Side::Editor => tells_initialized(message),
        Side::Server => false,
    }
}

/// Whether a message is a notification `initialized`.
fn tells_initialized(message: &Message) -> bool
    ensures { result ≡ tells_initialized (message_view message.now) }
{
    match message {
        Message::Request { .. } => false,
        Message::Notification { method, .. } => method.as_str() == "initialized",
        Message::Response { .. } => false,
    }
}
