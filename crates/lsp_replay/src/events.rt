//! The events of a session, heard one after another.
ghost use Rattle.std.specs.Prelude.{◌≡◌, [], List, IfErr, IfOk, None, OnErr, OnOk, Err, option_map};
ghost use Rattle.lsp_rpc.specs.Fault.{IsUnspoken};
ghost use Rattle.lsp_rpc.specs.View.{act_view};
ghost use Rattle.lsp_docs.specs.Calls as spec;
ghost use Rattle.lsp_docs.specs.Documents.{Terms, terms_of};
ghost use Rattle.lsp_types.specs.Fault.{IsRule, Names};
ghost use Rattle.lsp_docs.specs.State as documents;
ghost use Rattle.lsp_docs.specs.Taken.{call_view};
ghost use Rattle.lsp_docs.specs.Tried.{tried_in};
ghost use Rattle.lsp_outline.specs.declared.outline.Results.TheVariants.{LeftOut};
ghost use Rattle.lsp_session.specs.Handshake.{open_initializes};
ghost use Rattle.lsp_session.specs.Sent.{Sent};
ghost use Rattle.lsp_session.specs.State.{Stands};
ghost use Rattle.lsp_verdict.specs.Event as event;
ghost use Rattle.lsp_verdict.specs.Event.{Event, call_at, sent_in};
ghost use Rattle.lsp_verdict.specs.Given.{raw_view};
ghost use Rattle.lsp_verdict.specs.Placed.{Reads};
ghost use Rattle.lsp_replay.specs.Keeping.{IsAdmitted, IsKept, IsMessageOf, IsRead, IsSound};
ghost use Rattle.lsp_replay.specs.Keeping.{RefusesEvent, Tries, message_rule};
ghost use Rattle.lsp_replay.specs.Standing.{CanWantMemory, Follows, Holds, MayLackFor};
ghost use Rattle.lsp_replay.specs.Standing.{RefusesCall, RefusesFor, Takes, TakesCall};
ghost use Rattle.lsp_replay.specs.Telling.{MaySpeak};
ghost use Rattle.lsp_replay.specs.Tries.{IsTriedOf};

use lsp_docs::{Call, Docs, Took, Tried};
use lsp_frame::{Format, Limits};
use lsp_outline::{MessageReader, Results};
use lsp_rpc::{Act, Encoding, Side, Spoken, SyncKind};
use lsp_session::Session;
use lsp_text::TextStore;
use lsp_types::Fault;
use lsp_verdict::{Counts, Raw};
use std::alloc::Global;

/// The result of the events heard so far, none of which offends after those before it.
///
/// It stands for these events: the session for their messages, the documents for their calls, and
/// the counts for how many they were, as far as each was counted.
#[derive(Drop)]
pub struct Events<S: TextStore> {
    pub session: Session,
    pub docs: Docs<S>,
    pub counts: Counts,
    pub(crate) messages: MessageReader,
    /// What was tried of the changes that the documents refused last.
    pub(crate) tried: Option<Tried<S>>,
}

/// An event as it was read, and what was agreed before it.
#[derive(Clone, Copy)]
pub(crate) struct ReadEvent<'a> {
    pub(crate) raw: Raw<'a>,
    /// The message that it is, without its params and the value of a result that nothing reads.
    pub(crate) spoken: Option<&'a Spoken>,
    encoding: Encoding,
    kind: SyncKind,
}

impl<'a> ReadEvent<'a> {
    /// What it says about a document.
    #[inline(always)]
    pub(crate) fn call(&self) -> Option<Call<'a>>
        ensures { (events : List Event) (event : Event) → IsRead events event self.now
            → option_map call_view result ≡ call_at events event }
    {
        match self.raw {
            Raw::Content { .. } => match self.spoken {
                Some(spoken) => call_of(self.encoding, self.kind, &spoken.act),
                None => None,
            },
            Raw::Broken { .. } => None,
            Raw::Snapshot { version, uri, text } => Some(Call::Shows { version, uri, text }),
        }
    }
}

impl<S: TextStore> Events<S> {
    /// Nothing heard yet, of a log of this format.
    pub fn new(alloc: Global, limits: Limits, format: Format) -> Self
        ensures terms { result.docs.terms ≡ terms_of limits format }
        ensures follows { Follows result.session result.docs result.counts [] }
    {
        Events {
            session: Session::new(alloc),
            docs: Docs::of_format(alloc, limits, format),
            counts: Counts::new(),
            messages: MessageReader::new(alloc),
            tried: None,
        }
    }

    /// Hears the next event and counts it, unless it breaks a rule after the events heard.
    ///
    /// # Errors
    /// `Rule` by the least rule that the event breaks after the events heard, and `Memory` where
    /// memory was refused, instead of whatever would be answered about a content or a snapshot.
    /// What is held and the counts stay, so that the event after it can be heard.
    pub fn take(&mut self, raw: Raw<'_>) -> Result<(), Fault>
        ensures terms { self.new.docs.terms ≡ self.old.docs.terms }
        ensures ok { OnOk result (Takes (raw_view raw.entry) self.old.docs.terms self.old.counts
            self.old.session self.old.docs self.new.session self.new.docs self.new.counts) }
        ensures rule { IfErr result (λ fault. (events : List Event)
            → Holds self.old.session self.old.docs events
            → RefusesFor (raw_view raw.entry) self.old.docs.terms events fault) }
        ensures err { OnErr result ((events : List Event)
            → Holds self.old.session self.old.docs events
            → Holds self.new.session self.new.docs events) }
        ensures uncounted { OnErr result (self.new.counts ≡ self.old.counts) }
    {
        match raw {
            Raw::Content { side, content, .. } => {
                let mut spoken = self.messages.blank();
                read_into(
                    &self.session,
                    &mut self.messages,
                    side,
                    content,
                    &mut spoken,
                )?;
                let read = self.as_read(raw, Some(&spoken));
                self.keep(&read)?;
                Ok(())
            }
            Raw::Broken { rule, .. } => Err(Fault::Rule(rule)),
            Raw::Snapshot { .. } => {
                let read = self.as_read(raw, None);
                self.keep(&read)?;
                Ok(())
            }
        }
    }

    /// An event that was read, under what is agreed now; and the message that it is.
    #[inline(always)]
    pub(crate) fn as_read<'a>(&self, raw: Raw<'a>, spoken: Option<&'a Spoken>) -> ReadEvent<'a>
        ensures raw { result.raw ≡ raw.entry }
        ensures read { (events : List Event) (event : Event)
            → Stands self.now.session (sent_in events) → Reads (raw_view raw.entry) event
            → MaySpeak events event (option_map (λ s. s.now) spoken.entry)
            → IsRead events event result }
    {
        ReadEvent {
            raw,
            spoken,
            encoding: self.session.encoding().unwrap_or(Encoding::Utf16),
            kind: self.session.sync_kind().unwrap_or(SyncKind::Nothing),
        }
    }

    /// Keeps an event that was read: admits the message that it is, takes over what it says about a
    /// document, and counts it. What its call says is answered.
    ///
    /// # Errors
    /// `Rule` by the least of the rules 301 to 702 that the event offends, and `Memory` where
    /// memory was refused. What is held and the counts stay, so that the event after it can be
    /// heard, and what was tried of refused changes is kept.
    #[inline(always)]
    pub(crate) fn keep(&mut self, read: &ReadEvent<'_>) -> Result<Took, Fault>
        ensures terms { self.new.docs.terms ≡ self.old.docs.terms }
        ensures ok { IfOk result (λ took. (events : List Event) (event : Event)
            → Holds self.old.session self.old.docs events → IsSound event
            → IsRead events event read.now
            → IsKept self.old.docs.terms self.old.counts self.new.session self.new.docs
            self.new.counts events event took) }
        ensures rule { IfErr result (λ fault. (events : List Event) (event : Event)
            → Holds self.old.session self.old.docs events → IsSound event
            → IsRead events event read.now
            → RefusesEvent (raw_view read.now.raw) self.old.docs.terms events event fault) }
        ensures tried { IfErr result (λ fault. (events : List Event) (event : Event)
            → Holds self.old.session self.old.docs events → IsSound event
            → IsRead events event read.now
            → Tries self.old.docs.terms events event fault (tried_in S.content self.new.tried)) }
        ensures err { OnErr result ((events : List Event) (event : Event)
            → Holds self.old.session self.old.docs events → IsSound event
            → IsRead events event read.now → Holds self.new.session self.new.docs events) }
        ensures uncounted { OnErr result (self.new.counts ≡ self.old.counts) }
    {
        admit(&mut self.session, read)?;
        let took = take_call(&mut self.docs, read.call(), &mut self.tried)?;
        self.counts.add(read.raw.who());
        Ok(took)
    }
}

/// Admits the message that an event is, if it is one.
#[inline(always)]
fn admit(session: &mut Session, read: &ReadEvent<'_>) -> Result<(), Fault>
    ensures ok { OnOk result ((events : List Event) (event : Event)
        → Stands session.old (sent_in events) → IsSound event → IsRead events event read.now
        → IsAdmitted session.new events event) }
    ensures rule { IfErr result (λ refusal. (events : List Event) (event : Event)
        → Stands session.old (sent_in events) → IsSound event → IsRead events event read.now
        → Names (message_rule events event) refusal) }
    ensures content { OnErr result ((terms : Terms) (events : List Event)
        → CanWantMemory terms events (raw_view read.now.raw)) }
    ensures err { OnErr result (session.new ≡ session.old) }
{
    if let Raw::Content { side, .. } = read.raw {
        if let Some(spoken) = read.spoken {
            session.admit(side, &spoken.message, &spoken.act)?;
        }
    }
    Ok(())
}

/// Takes over what is said about a document, if anything is.
#[inline(always)]
fn take_call<S: TextStore>(
    docs: &mut Docs<S>,
    call: Option<Call<'_>>,
    tried: &mut Option<Tried<S>>,
) -> Result<Took, Fault>
    ensures takes { IfOk result
        (TakesCall docs.old docs.new (option_map call_view call.entry)) }
    ensures refuses { IfErr result (RefusesCall docs.old (option_map call_view call.entry)) }
    ensures memory { result ≡ Err Fault.Memory
        → MayLackFor docs.old (option_map call_view call.entry) }
    ensures tried { IfErr result (λ fault. (calls : List spec.Call)
        → documents.Stands docs.old calls → IsRule fault
        → IsTriedOf docs.old.terms calls (option_map call_view call.entry)
        (tried_in S.content tried.new)) }
    ensures err { OnErr result (docs.new ≡ docs.old) }
{
    match call {
        Some(call) => docs.take(call, tried),
        None => Ok(Took::Done),
    }
}

/// Whether the value of a result is wanted: a session that awaits its handshake reads one.
fn wanted_results(session: &Session) -> Results
    ensures { result ≡ LeftOut → (before : List Sent) → Stands session.now before
        → open_initializes before ≡ [] }
{
    if session.awaits_initialize() {
        Results::Whole
    } else {
        Results::LeftOut
    }
}

/// Reads a content of a side with what it means, in the place of another message. It is heard once
/// it is kept.
///
/// # Errors
/// `Rule` by the least of 201 to 209 that the content breaks, and `Memory` where memory was
/// refused.
pub(crate) fn read_into(
    session: &Session,
    messages: &mut MessageReader,
    side: Side,
    content: &[u8],
    spoken: &mut Spoken,
) -> Result<(), Fault>
    ensures ok { OnOk result ((events : List Event) → Stands session.now (sent_in events)
        → IsMessageOf events side content.now spoken.new) }
    ensures rule { IfErr result (IsUnspoken side content.now) }
{
    messages.hear_into(side, content, wanted_results(session), spoken)?;
    Ok(())
}

/// What an act says about a document, under this encoding and kind.
#[inline(always)]
fn call_of(encoding: Encoding, kind: SyncKind, act: &Act) -> Option<Call<'_>>
    ensures { option_map call_view result ≡ event.call_of encoding kind (act_view act.now) }
{
    match act {
        Act::DidOpen { uri, version, text } => Some(Call::Opens {
            uri: uri.as_str(),
            version: *version,
            text: text.as_str(),
        }),
        Act::DidChange {
            uri,
            version,
            changes,
        } => Some(Call::Changes {
            encoding,
            kind,
            uri: uri.as_str(),
            version: *version,
            changes: changes.as_slice(),
        }),
        Act::DidClose { uri } => Some(Call::Closes { uri: uri.as_str() }),
        Act::DidSave { uri, text } => Some(Call::Saves {
            uri: uri.as_str(),
            text: text.as_ref().map(|text| text.as_str()),
        }),
        _ => None,
    }
}
