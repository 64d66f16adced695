//! What is kept of a log on the way, and what is written of it once its verdict is known.
ghost use Rattle.std.specs.Prelude.{◌≡◌, ◌++◌, ◌∷◌, [], IfOk, List, None, OnOk, Some, false, map};
ghost use Rattle.std.specs.Prelude.{max, option_map, option_to_list, string_bytes};
ghost use Rattle.std.specs.List.{flat_map};
ghost use Rattle.lsp_replay.specs.Common.{Bounds, Event, Heard, heard_events, IsSeen, MaySpeak};
ghost use Rattle.lsp_replay.specs.Common.{Reads, rule_of, spelling, Terms};
ghost use Rattle.lsp_redact.specs.Keeping.{Keeps};
ghost use Rattle.lsp_redact.specs.Kept.{awaits};
ghost use Rattle.lsp_redact.specs.Kept as spec;
ghost use Rattle.lsp_redact.specs.Names.{names_in, names_of, no_names};
ghost use Rattle.lsp_redact.specs.Naming.{Stands, Writes};
ghost use Rattle.lsp_redact.specs.Records.{records_of};
ghost use Rattle.lsp_redact.specs.Records as records;
ghost use Rattle.lsp_redact.specs.Redacting.{AddsLast, IsBroken, IsFaultOf, apart_at, format_by};
ghost use Rattle.lsp_redact.specs.Redacting.{left_to, log_by, redact_run};
ghost use Rattle.lsp_redact.specs.Shown.{shown_kept};
ghost use Rattle.lsp_redact.specs.View.{kept_view};
ghost use Rattle.lsp_verdict.specs.Given.{raw_view};

use crate::apart::apart_of;
use crate::broken::broken_text;
use crate::check::put_checked;
use crate::kept::{Kept, kept_of};
use crate::records::{push_content, push_first_line, push_snapshot};
use crate::redaction::Redaction;
use lsp_docs::Docs;
use lsp_frame::{Format, Limits};
use lsp_judge::verdict_at;
use lsp_lined::Lined;
use lsp_replay::{Account, End, Events, Fate, Flow, LogEvents, Seen, last_offence};
use lsp_rpc::Result;
use lsp_verdict::{Completeness, Outcome, Raw};
use std::alloc::Global;

/// The most bytes of UTF-8 that a character has.
const MOST_BYTES: u64 = 4;

/// Keeps what the rules read of each event, and says it at the first event that offends or at the
/// end of the log.
#[derive(Drop)]
pub(crate) struct Redacting {
    kept: Vec<Kept>,
    /// Whether an `initialize` is open.
    awaits: bool,
    limits: Limits,
}

/// How many characters a record has at most, if it has more than one.
fn most_of(limits: Limits) -> usize
    ensures { max result 1 ≡ records.most_of limits }
{
    (limits.chunk() / MOST_BYTES) as usize
}

impl Redacting {
    /// Nothing is kept yet of a log that is read within these limits.
    pub(crate) fn new(alloc: Global, limits: Limits) -> Self
        ensures kept { result.kept.items ≡ [] }
        ensures awaits { result.awaits ≡ false }
        ensures limits { result.limits ≡ limits }
    {
        Redacting {
            kept: Vec::new(alloc),
            awaits: false,
            limits,
        }
    }

    /// Keeps an event.
    fn keep(&mut self, alloc: Global, held: &Events<Lined>, seen: &Seen<'_>) -> Result<()>
        ensures limits { self.new.limits ≡ self.old.limits }
        ensures keeps { OnOk result ((terms : Terms) (before : List Heard) (h : Heard)
            → Keeps self.old terms before
            → IsSeen held.now.session held.now.docs held.now.counts seen.now terms before h
            → rule_of terms before h ≡ None → Keeps self.new terms (before ++ h ∷ [])) }
    {
        let kept = kept_of(alloc, seen, self.awaits)?;
        push_given(&mut self.kept, kept)?;
        self.awaits = held.session.awaits_initialize();
        Ok(())
    }

    /// The log of what is kept, in records of so many characters.
    fn said(&self, redaction: &mut Redaction, format: Format, most: usize) -> Result<String>
        ensures { IfOk result (λ text. Writes redaction.old redaction.new
            (names_in (map kept_view self.now.kept.items))
            (λ n. log_by (max most 1) format n redaction.old.apart
            (map kept_view self.now.kept.items)) (string_bytes text)) }
    {
        let mut text = String::new(redaction.alloc);
        push_first_line(&mut text, format)?;
        for kept in &self.kept {
            push_kept(&mut text, redaction, kept, most)?;
        }
        Ok(text)
    }

    /// Adds the event that offends, in records of so many characters.
    fn say_last(
        &self,
        text: &mut String,
        redaction: &mut Redaction,
        seen: &Seen<'_>,
        rule: u16,
        most: usize,
    ) -> Result<()>
        ensures { OnOk result ((before : List Event) (event : Event)
            → self.now.awaits ≡ awaits before → Reads (raw_view seen.now.raw) event
            → MaySpeak before event (option_map (λ s. s.now) seen.now.spoken)
            → IsFaultOf rule event
            → AddsLast (max most 1) redaction.old redaction.new (raw_view seen.now.raw) rule
            (spec.kept_of before event) (string_bytes text.old) (string_bytes text.new)) }
    {
        match kept_of(redaction.alloc, seen, self.awaits)? {
            Some(kept) => push_kept(text, redaction, &kept, most),
            None => push_broken(text, redaction.alloc, seen.raw, rule, most),
        }
    }

    /// The log of what is kept and of the event that offends.
    fn left_to(
        &self,
        redaction: &mut Redaction,
        held: &Events<Lined>,
        seen: &Seen<'_>,
        rule: u16,
    ) -> Result<String>
        ensures { IfOk result (λ left. (terms : Terms) (before : List Heard) (h : Heard)
            → Keeps self.now terms before
            → IsSeen held.now.session held.now.docs held.now.counts seen.now terms before h
            → rule_of terms before h ≡ Some rule → Stands redaction.old.names no_names
            → redaction.old.apart ≡ apart_at terms (heard_events before) h.note.event rule
            → string_bytes left ≡ left_to self.now.limits terms before h rule) }
    {
        let most = most_of(self.limits);
        let mut left = self.said(redaction, format_of(&held.docs), most)?;
        self.say_last(&mut left, redaction, seen, rule, most)?;
        Ok(left)
    }
}

/// Adds what stands for a content that is refused; of a fault of the frames nothing.
fn push_broken(text: &mut String, alloc: Global, raw: Raw<'_>, rule: u16, most: usize) -> Result<()>
    ensures { OnOk result ((event : Event) → Reads (raw_view raw.entry) event
        → IsFaultOf rule event → IsBroken (max most 1) (raw_view raw.entry) event rule
        (string_bytes text.old) (string_bytes text.new)) }
{
    let Raw::Content { side, content, .. } = raw else {
        return Ok(());
    };
    let broken = broken_text(alloc, content, rule)?;
    push_content(text, side, broken.as_str(), most)?;
    Ok(())
}

/// Adds what is kept of an event to what is kept of others, if anything is.
fn push_given(all: &mut Vec<Kept>, kept: Option<Kept>) -> Result<()>
    ensures { OnOk result (map kept_view all.new.items
        ≡ map kept_view all.old.items ++ option_to_list (option_map kept_view kept)) }
{
    match kept {
        Some(kept) => Ok(all.push(kept)?),
        None => Ok(()),
    }
}

/// Adds what is kept of one event.
fn push_kept(text: &mut String, redaction: &mut Redaction, kept: &Kept, most: usize) -> Result<()>
    ensures { OnOk result (Writes redaction.old redaction.new (names_of (kept_view kept.now))
        (λ n. string_bytes text.old
        ++ flat_map spelling (records_of (max most 1)
        (shown_kept n redaction.old.apart (kept_view kept.now))))
        (string_bytes text.new)) }
{
    match kept {
        Kept::Message { side, head, act } => {
            let content = redaction.content(head, act)?;
            push_content(text, *side, content.as_str(), most)?;
            Ok(())
        }
        Kept::Snapshot {
            version,
            uri,
            text: shown,
        } => {
            let name = redaction.names.uri(uri.as_str())?;
            let body = redaction.text(shown.as_str())?;
            push_snapshot(text, *version, name.as_str(), body.as_str())?;
            Ok(())
        }
    }
}

/// The format of a log of these documents.
fn format_of(docs: &Docs<Lined>) -> Format
    ensures { result ≡ format_by docs.now.terms.kept }
{
    if docs.kept() == 0 {
        Format::One
    } else {
        Format::Two
    }
}

impl Account for Redacting {
    ghost Asked = { Bounds };

    ghost asked = { λ account. account.limits };

    ghost run = { redact_run };

    ghost stands = { Keeps };

    fn event(&mut self, held: &Events<Lined>, seen: &Seen<'_>, text: &mut String) -> Result<Flow> {
        let alloc = *text.allocator();
        let Fate::Offends { rule, tried } = seen.fate else {
            self.keep(alloc, held, seen)?;
            return Ok(Flow::GoOn);
        };
        let apart = apart_of(alloc, held, seen.call, rule, tried)?;
        let mut redaction = Redaction::new(alloc, apart);
        let left = self.left_to(&mut redaction, held, seen, rule)?;
        let verdict = last_offence(&held.counts, seen.raw, rule, false).verdict();
        let outcome = put_checked(text, left.as_str(), verdict, self.limits)?;
        let boxed = Box::new(alloc, outcome)?;
        Ok(Flow::Stop(boxed))
    }

    fn end(
        &mut self,
        held: &Events<Lined>,
        log: &LogEvents,
        end: End,
        text: &mut String,
    ) -> Result<Outcome> {
        let alloc = *text.allocator();
        let mut redaction = Redaction::new(alloc, None);
        let most = most_of(self.limits);
        let left = self.said(&mut redaction, format_of(&held.docs), most)?;
        let verdict = verdict_at(held, log, end, Completeness::Ignored)?;
        let outcome = put_checked(text, left.as_str(), verdict, self.limits)?;
        Ok(outcome)
    }
}
