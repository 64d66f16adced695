//! One pass over a log.
ghost use Rattle.std.specs.Prelude.{◌≡◌, ◌++◌, ◌∷◌, ◌+◌, ◌<◌, ◌^◌, [], List, IfOk, IfErr, length};
ghost use Rattle.std.specs.Prelude.{None, OnErr, OnOk, Some, option_map, string_bytes, true};
ghost use Rattle.lsp_docs.specs.Documents.{Terms};
ghost use Rattle.lsp_frame.specs.Bounds.{IsInRange};
ghost use Rattle.lsp_frame.specs.Sink.{Writes};
ghost use Rattle.lsp_frame.specs.Told.{Told};
ghost use Rattle.lsp_replay.specs.Keeping.{IsRead, IsSound};
ghost use Rattle.lsp_replay.specs.LogEvents.{Opens};
ghost use Rattle.lsp_replay.specs.Run.{Passes, Steps, WantsAt};
ghost use Rattle.lsp_replay.specs.Telling.{Comes, DueAtEnd, DueOf, MaySpeak, Saw, ShowsFault};
ghost use Rattle.lsp_replay.specs.Telling.{Stood, kept_before, rule_of};
ghost use Rattle.lsp_replay.specs.Tries.{TriesCall, made_in};
ghost use Rattle.lsp_verdict.specs.Event.{call_at};
ghost use Rattle.lsp_verdict.specs.Heard.{Heard, heard_events};
ghost use Rattle.lsp_verdict.specs.Given.{raw_view};
ghost use Rattle.lsp_verdict.specs.Outcome.{log_terms};
ghost use Rattle.lsp_verdict.specs.Placed as placed;
ghost use Rattle.lsp_verdict.specs.Runs.{BreaksOff};

use crate::account::Account;
use crate::events::{Events, ReadEvent, read_into};
use crate::log_events::{End, LogEvents, Next};
use crate::seen::{Fate, Flow, Seen};
use lsp_frame::{Format, Limits, Sink, Source, WriteFault, put_all};
use lsp_lined::Lined;
use lsp_rpc::{Result, Side, Spoken};
use lsp_verdict::{Outcome, Raw, RunFault};
use std::alloc::Global;

/// A log that is read, what is held of its events, and what is said of one.
pub(crate) struct Reading {
    log: LogEvents,
    held: Events<Lined>,
    text: String,
}

impl Drop for Reading {
    fn drop(self) {
        let Reading {
            log: _,
            held: _,
            text: _,
        } = self;
    }
}

/// Reads a log, and writes what an account says of it.
///
/// # Errors
/// `Read` where the source failed, `Write` where the sink did, and `Memory` where memory was
/// refused; what was written before stays written.
pub fn pass<R: Source, W: Sink, A: Account>(
    alloc: Global,
    reader: &mut R,
    writer: &mut W,
    limits: Limits,
    account: &mut A,
) -> Result<Outcome, RunFault>
    requires begins { (terms : Terms) → A.stands account.old terms [] }
    ensures range { IsInRange limits }
    ensures passes { Passes (A.run (A.asked account.old)) limits (R.told reader.old)
        (R.told reader.new) (W.told writer.old) (W.told writer.new) result }
{
    let mut reading = open(alloc, reader, limits)?;
    read_log(&mut reading, reader, writer, limits, account)
}

/// A log that is read up to its first record, of which nothing was heard.
fn open<R: Source>(alloc: Global, reader: &mut R, limits: Limits) -> Result<Reading, RunFault>
    ensures ok { IfOk result (λ reading.
        Opens limits (R.told reader.old) (R.told reader.new) reading.log
        × Stood (log_terms limits reading.log.log.format) reading.held.session reading.held.docs
        reading.held.counts []) }
    ensures err { IfErr result (BreaksOff limits (R.told reader.old) (R.told reader.new)) }
{
    let log = LogEvents::open(alloc, reader, limits)?;
    let format = log.format().unwrap_or(Format::One);
    Ok(Reading {
        log,
        held: Events::new(alloc, limits, format),
        text: String::new(alloc),
    })
}

/// Reads a log that was opened, and writes what an account says of it.
fn read_log<R: Source, W: Sink, A: Account>(
    reading: &mut Reading,
    reader: &mut R,
    writer: &mut W,
    limits: Limits,
    account: &mut A,
) -> Result<Outcome, RunFault>
    requires begins { (terms : Terms) → A.stands account.old terms [] }
    requires stood { Stood (log_terms limits reading.old.log.log.format) reading.old.held.session
        reading.old.held.docs reading.old.held.counts [] }
    requires opens { (start : Told) × Opens limits start (R.told reader.old) reading.old.log }
    ensures { (start : Told) → Opens limits start (R.told reader.old) reading.old.log
        → Passes (A.run (A.asked account.old)) limits start (R.told reader.new)
        (W.told writer.old) (W.told writer.new) result }
{
    loop {
        match reading.log.next(reader) {
            Err(fault) => return Err(fault),
            Ok(Next::End(end)) => return close(reading, writer, account, end),
            Ok(Next::Event(raw)) => {
                let text = &mut reading.text;
                match tell(&mut reading.held, text, writer, account, raw)? {
                    Flow::GoOn => {}
                    Flow::Stop(outcome) => return Ok(Box::into_inner(outcome)),
                }
            }
        }
    }
}

/// Writes what an account says at the end of a log.
fn close<W: Sink, A: Account>(
    reading: &mut Reading,
    writer: &mut W,
    account: &mut A,
    end: End,
) -> Result<Outcome, RunFault>
    ensures { (terms : Terms) (heard : List Heard) → A.stands account.old terms heard
        → Stood terms reading.old.held.session reading.old.held.docs reading.old.held.counts heard
        → length heard < 2 ^ 63
        → Steps (W.told writer.old) (W.told writer.new) (Unit {0})
        (DueAtEnd (A.run (A.asked account.old)) terms heard reading.old.log end) result }
{
    let text = &mut reading.text;
    text.clear();
    let outcome = account.end(&reading.held, &reading.log, end, text)?;
    put_text(writer, text.as_str())?;
    Ok(outcome)
}

/// Writes what an account says of the next event.
fn tell<W: Sink, A: Account>(
    held: &mut Events<Lined>,
    text: &mut String,
    writer: &mut W,
    account: &mut A,
    raw: Raw<'_>,
) -> Result<Flow, RunFault>
    ensures asked { A.asked account.new ≡ A.asked account.old }
    ensures steps { (terms : Terms) (before : List Heard) (h : Heard)
        → Comes (raw_view raw.entry) terms held.old.session held.old.docs held.old.counts before h
        (A.stands account.old terms before)
        → Steps (W.told writer.old) (W.told writer.new)
        (WantsAt (A.run (A.asked account.old)) terms before h)
        (DueOf (A.run (A.asked account.old)) terms before h
        (ShowsFault raw.entry (heard_events before))
        (A.stands account.new terms (before ++ h ∷ [])) held.new.session held.new.docs
        held.new.counts) result }
{
    text.clear();
    let flow = see(held, account, raw, text)?;
    put_text(writer, text.as_str())?;
    Ok(flow)
}

/// Hears the next event, and adds to a text what an account says of it.
fn see<A: Account>(
    held: &mut Events<Lined>,
    account: &mut A,
    raw: Raw<'_>,
    text: &mut String,
) -> Result<Flow>
    ensures asked { A.asked account.new ≡ A.asked account.old }
    ensures memory { OnErr result ((terms : Terms) (before : List Heard) (h : Heard)
        → Comes (raw_view raw.entry) terms held.old.session held.old.docs held.old.counts before h
        (A.stands account.old terms before)
        → WantsAt (A.run (A.asked account.old)) terms before h) }
    ensures saw { IfOk result (λ flow. (terms : Terms) (before : List Heard) (h : Heard)
        → Comes (raw_view raw.entry) terms held.old.session held.old.docs held.old.counts before h
        (A.stands account.old terms before)
        → Saw (A.run (A.asked account.old)) terms before h
        (ShowsFault raw.entry (heard_events before)) (string_bytes text.old)
        (string_bytes text.new) (A.stands account.new terms (before ++ h ∷ []))
        held.new.session held.new.docs held.new.counts flow) }
{
    match raw {
        Raw::Content { side, content, .. } => {
            let mut spoken = held.messages.blank();
            see_content(held, account, raw, side, content, &mut spoken, text)
        }
        Raw::Broken { rule, .. } => skip(held, account, raw, rule, None, text),
        Raw::Snapshot { .. } => {
            let read = held.as_read(raw, None);
            see_read(held, account, read, text)
        }
    }
}

/// Hears a content of a side, in the place of this message, and adds what an account says of it.
fn see_content<A: Account>(
    held: &mut Events<Lined>,
    account: &mut A,
    raw: Raw<'_>,
    side: Side,
    content: &[u8],
    spoken: &mut Spoken,
    text: &mut String,
) -> Result<Flow>
    requires { raw_view raw ≡ placed.content side content.now }
    ensures asked { A.asked account.new ≡ A.asked account.old }
    ensures saw { IfOk result (λ flow. (terms : Terms) (before : List Heard) (h : Heard)
        → Comes (raw_view raw.entry) terms held.old.session held.old.docs held.old.counts before h
        (A.stands account.old terms before)
        → Saw (A.run (A.asked account.old)) terms before h
        (ShowsFault raw.entry (heard_events before)) (string_bytes text.old)
        (string_bytes text.new) (A.stands account.new terms (before ++ h ∷ []))
        held.new.session held.new.docs held.new.counts flow) }
{
    match read_into(&held.session, &mut held.messages, side, content, spoken) {
        Ok(()) => {
            let read = held.as_read(raw, Some(spoken));
            see_read(held, account, read, text)
        }
        Err(fault) => {
            let rule = fault.rule()?;
            skip(held, account, raw, rule, None, text)
        }
    }
}

/// Hears an event that was read, and adds what an account says of it.
#[inline(always)]
fn see_read<A: Account>(
    held: &mut Events<Lined>,
    account: &mut A,
    read: ReadEvent<'_>,
    text: &mut String,
) -> Result<Flow>
    ensures asked { A.asked account.new ≡ A.asked account.old }
    ensures memory { OnErr result ((terms : Terms) (before : List Heard) (h : Heard)
        → Comes (raw_view read.entry.raw) terms held.old.session held.old.docs held.old.counts
        before h (A.stands account.old terms before)
        → IsSound h.note.event → IsRead (kept_before terms before) h.note.event read.entry
        → WantsAt (A.run (A.asked account.old)) terms before h) }
    ensures saw { IfOk result (λ flow. (terms : Terms) (before : List Heard) (h : Heard)
        → Comes (raw_view read.entry.raw) terms held.old.session held.old.docs held.old.counts
        before h (A.stands account.old terms before)
        → IsSound h.note.event → IsRead (kept_before terms before) h.note.event read.entry
        → Saw (A.run (A.asked account.old)) terms before h
        (ShowsFault read.entry.raw (heard_events before)) (string_bytes text.old)
        (string_bytes text.new) (A.stands account.new terms (before ++ h ∷ []))
        held.new.session held.new.docs held.new.counts flow) }
{
    match held.keep(&read) {
        Ok(took) => {
            let seen = Seen {
                raw: read.raw,
                spoken: read.spoken,
                call: read.call(),
                fate: Fate::Kept(took),
            };
            account.event(held, &seen, text)
        }
        Err(fault) => {
            let rule = fault.rule()?;
            skip(held, account, read.raw, rule, read.spoken, text)
        }
    }
}

/// Counts an event that breaks this rule, and adds what an account says of it. What was tried of it
/// is let go of.
#[cold]
#[inline(never)]
fn skip<A: Account>(
    held: &mut Events<Lined>,
    account: &mut A,
    raw: Raw<'_>,
    rule: u16,
    spoken: Option<&Spoken>,
    text: &mut String,
) -> Result<Flow>
    ensures asked { A.asked account.new ≡ A.asked account.old }
    ensures let_go { OnOk result (held.new.tried ≡ None) }
    ensures memory { OnErr result ((terms : Terms) (before : List Heard) (h : Heard)
        → Comes (raw_view raw.entry) terms held.old.session held.old.docs held.old.counts
        before h (A.stands account.old terms before)
        → rule_of terms before h ≡ Some rule
        → MaySpeak (kept_before terms before) h.note.event
        (option_map (λ s. s.now) spoken.entry)
        → TriesCall terms (kept_before terms before)
        (call_at (kept_before terms before) h.note.event) rule (made_in held.old.tried)
        → (A.run (A.asked account.old)).wants terms before h ≡ true) }
    ensures saw { IfOk result (λ flow. (terms : Terms) (before : List Heard) (h : Heard)
        → Comes (raw_view raw.entry) terms held.old.session held.old.docs held.old.counts
        before h (A.stands account.old terms before)
        → rule_of terms before h ≡ Some rule
        → MaySpeak (kept_before terms before) h.note.event
        (option_map (λ s. s.now) spoken.entry)
        → TriesCall terms (kept_before terms before)
        (call_at (kept_before terms before) h.note.event) rule (made_in held.old.tried)
        → Saw (A.run (A.asked account.old)) terms before h
        (ShowsFault raw.entry (heard_events before)) (string_bytes text.old)
        (string_bytes text.new) (A.stands account.new terms (before ++ h ∷ []))
        held.new.session held.new.docs held.new.counts flow) }
{
    held.counts.add(raw.who());
    let seen = Seen {
        raw,
        spoken,
        call: held.as_read(raw, spoken).call(),
        fate: Fate::Offends {
            rule,
            tried: held.tried.as_ref(),
        },
    };
    let flow = account.event(held, &seen, text)?;
    held.tried = None;
    Ok(flow)
}

/// Writes a text; one that is empty takes no call of the sink.
fn put_text<W: Sink>(writer: &mut W, text: &str) -> Result<(), WriteFault>
    ensures writes { Writes (W.told writer.old) (W.told writer.new) result text.now }
    ensures quiet { OnOk result (text.now ≡ [] → W.told writer.new ≡ W.told writer.old) }
    ensures some { OnErr result (text.now ≡ [] → ⊥) }
{
    if text.is_empty() {
        return Ok(());
    }
    put_all(writer, text.as_bytes())
}
