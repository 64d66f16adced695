//! Judges a recorded session record by record.
ghost use Rattle.std.specs.Prelude.{◌≡◌, ◌++◌, ◌∷◌, [], ℕ, List, Some, None, Ok, IfOk};
ghost use Rattle.std.specs.Prelude.{OnOk, option_map};
ghost use Rattle.lsp_replay.specs.Common.{as_given, ends_inside, Event, Follows, IsFinal};
ghost use Rattle.lsp_replay.specs.Common.{IsSession, record_view, terms_of, verdict_view};
ghost use Rattle.lsp_log.specs.Log as log;
ghost use Rattle.lsp_judge.specs.Answered.{NamesFirst, NoneOffends};
ghost use Rattle.lsp_judge.specs.Judging.{AnswersEnd, KeepsAnswer};
ghost use Rattle.lsp_judge.specs.Standing.{EndIs, end_by, Stands, WasRefused, is_given};
ghost use Rattle.lsp_verdict.specs.Verdict as spec;

use crate::contents::hear_record;
use crate::ending::end_of;
use crate::ruling::Ruling;
use lsp_frame::{Format, Limits};
use lsp_log::{LogCode, Record};
use lsp_replay::{Events, Streams};
use lsp_rpc::{Result, Side};
use lsp_text::TextStore;
use lsp_verdict::{Completeness, Summary, Verdict, Who};
use std::alloc::Global;
use std::marker::Model;

/// Judges a recorded session of an editor and a language server, record by record.
///
/// It stands for the records taken. Once a record brings an event that offends, it answers the No
/// at that event; a No, a fault of the log and a refusal of memory stay.
#[derive(Drop)]
pub struct Judge<S: TextStore> {
    limits: Limits,
    format: Format,
    streams: Streams,
    events: Events<S>,
    given: Option<Ruling>,
}

impl<S: TextStore> Model for Judge<S> {
    ghost use Rattle.lsp_judge.specs.Standing.{State};

    ghost Value = { State };

    ghost view = { λ j. record {
      limits = j.limits;
      format = j.format;
      streams = j.streams;
      messages = j.events.session;
      documents = j.events.docs;
      counts = j.events.counts;
      given = j.given;
    } };
}

impl<S: TextStore> Judge<S> {
    /// A judge of a log of format 1 that took no record.
    pub fn new(alloc: Global, limits: Limits) -> Self
        ensures limits { result.limits ≡ limits }
        ensures format { result.format ≡ Format.One }
        ensures stands { Stands result [] }
        ensures ungiven { result.given ≡ None }
    {
        Judge::of_format(alloc, limits, Format::One)
    }

    /// A judge of a log of this format that took no record.
    pub fn of_format(alloc: Global, limits: Limits, format: Format) -> Self
        ensures limits { result.limits ≡ limits }
        ensures format { result.format ≡ format }
        ensures stands { Stands result [] }
        ensures ungiven { result.given ≡ None }
    {
        // A proof knows that limits are in range once one of them is asked for.
        let _document = limits.document();
        Judge {
            limits,
            format,
            streams: Streams::new(alloc, limits),
            events: Events::new(alloc, limits, format),
            given: None,
        }
    }

    /// Takes the next record, and answers the No at the first event that offends, once a record has
    /// brought it.
    pub fn take(&mut self, next: Record) -> Result<Option<Verdict>>
        ensures keeps { KeepsAnswer self.old self.new
            (λ answer given. option_map verdict_view answer ≡ Some given) result }
        ensures stands { OnOk result ((records : List log.Record) → Stands self.old records
            → Stands self.new (records ++ record_view next ∷ [])) }
        ensures verdict { IfOk result (λ answer. (records : List log.Record) (events : List Event)
            → Stands self.old records
            → IsSession self.old.limits (records ++ record_view next ∷ []) events
            → option_map verdict_view answer
            ≡ option_map as_given
            (spec.first_no (terms_of self.old.limits self.old.format) events)) }
        // A No names the first event of the records that offends, and its least rule.
        ensures no { (records : List log.Record) (rule number event : ℕ) (who : Who)
            → Stands self.old records
            → result ≡ Ok (Some (Verdict.No rule who number event))
            → NamesFirst self.old.limits self.old.format (records ++ record_view next ∷ [])
            (spec.no rule who number event) }
        ensures none { (records : List log.Record) → Stands self.old records → result ≡ Ok None
            → NoneOffends self.old.limits self.old.format (records ++ record_view next ∷ []) }
        ensures given { IfOk result (λ answer. option_map verdict_view answer
            ≡ is_given self.new.given) }
    {
        if let Some(ruling) = self.given {
            return Ok(Some(ruling.answer()?));
        }
        match hear_record(&mut self.streams, &mut self.events, next) {
            Ok(()) => Ok(None),
            Err(ruling) => {
                self.given = Some(ruling);
                Ok(Some(ruling.answer()?))
            }
        }
    }

    /// The outcome of the session where the log has a fault after the records: the No that was
    /// answered before, or else the fault.
    pub fn bad_log(&mut self, number: u64, fault: LogCode) -> Verdict
        requires memory { WasRefused self.old.given → ⊥ }
        ensures keeps { KeepsAnswer self.old self.new (λ answer given. verdict_view answer ≡ given)
            (Ok result) }
        ensures verdict { (records : List log.Record) (v : spec.Verdict) → Stands self.old records
            → IsFinal self.old.limits self.old.format records (Some (number, fault)) v
            → verdict_view result ≡ as_given v }
        // A No names the first event of the records that offends; the fault is given where none
        // does.
        ensures no { (records : List log.Record) (rule count event : ℕ) (who : Who)
            → Stands self.old records
            → result ≡ Verdict.No rule who count event
            → NamesFirst self.old.limits self.old.format records (spec.no rule who count event) }
        ensures fault { (records : List log.Record) (at : ℕ) (code : LogCode)
            → Stands self.old records
            → result ≡ Verdict.BadLog at code
            → (at ≡ number) × (code ≡ fault) × NoneOffends self.old.limits self.old.format records }
        // Of a judge that has given nothing yet the fault is given.
        ensures ungiven { self.old.given ≡ None → result ≡ Verdict.BadLog number fault }
        ensures given { Some (verdict_view result) ≡ is_given self.new.given }
    {
        match self.given {
            Some(ruling) => ruling.answer().unwrap(),
            None => {
                self.given = Some(Ruling::BadLog { number, fault });
                Verdict::BadLog { number, fault }
            }
        }
    }

    /// The verdict on the records taken, of a log without a fault.
    pub fn finish(&mut self) -> Result<Verdict>
        ensures keeps { KeepsAnswer self.old self.new (λ answer given. verdict_view answer ≡ given)
            result }
        ensures finishes { AnswersEnd Completeness.Ignored self.old self.new result }
    {
        self.finish_by(Completeness::Ignored)
    }

    /// The verdict on the records taken, of a log without a fault whose session must be complete:
    /// that of [`Judge::finish`], but instead of Yes a No by 303 where a request of the editor has
    /// no answer (JSON-RPC 2.0, section 4), or else by 407 where the editor did not send `exit`
    /// (LSP 3.17, "Exit Notification").
    pub fn finish_complete(&mut self) -> Result<Verdict>
        ensures keeps { KeepsAnswer self.old self.new (λ answer given. verdict_view answer ≡ given)
            result }
        ensures finishes { AnswersEnd Completeness.Required self.old self.new result }
    {
        self.finish_by(Completeness::Required)
    }

    /// The verdict on the records taken, of a log without a fault.
    fn finish_by(&mut self, completeness: Completeness) -> Result<Verdict>
        ensures keeps { KeepsAnswer self.old self.new (λ answer given. verdict_view answer ≡ given)
            result }
        ensures finishes { AnswersEnd completeness self.old self.new result }
    {
        if let Some(ruling) = self.given {
            return ruling.answer();
        }
        match self.end(completeness) {
            Ok(summary) => Ok(Verdict::Yes(summary)),
            Err(ruling) => {
                self.given = Some(ruling);
                ruling.answer()
            }
        }
    }

    /// What is given where the session ends here.
    fn end(&self, completeness: Completeness) -> Result<Summary, Ruling>
        ensures { (events : List Event) → Follows self.now.messages self.now.documents
            self.now.counts events
            → EndIs result (end_by completeness self.now.documents.terms events
            (ends_inside self.now.streams.editor) (ends_inside self.now.streams.server)) }
    {
        let editor = self.streams.ends_inside(Side::Editor);
        let server = self.streams.ends_inside(Side::Server);
        end_of(&self.events, editor, server, completeness)
    }
}
