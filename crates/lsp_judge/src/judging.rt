//! What is said of a log up to its verdict, and for that.
ghost use Rattle.std.specs.Prelude.{◌≡◌, ◌++◌, None, OnOk, string_bytes};
ghost use Rattle.lsp_judge.specs.JudgingRun.{JudgingAsked, due_for, form_view, judging_run};
ghost use Rattle.lsp_replay.specs.Common.{first_no, heard_events, verdict_view};

use crate::check_line::{line_remark, push_line};
use crate::check_object::push_object;
use crate::ending::verdict_at;
use lsp_lined::Lined;
use lsp_replay::{Account, End, Events, Fate, Flow, LogEvents, Seen, last_offence, push_kept_line};
use lsp_rpc::Result;
use lsp_verdict::{Completeness, Lines, Outcome, Verdict, verdict_report};

/// What is said for a verdict.
#[derive(Clone, Copy)]
pub(crate) enum Form<'a> {
    /// The report of the verdict.
    Report,
    /// For one of several logs a line, with its name.
    Line(&'a str),
    /// For one of several logs the object of that line, with the name of its file.
    Object(&'a str),
}

/// Says the verdict on a log, at the first event that offends or at the end. It shows the events
/// before that by lines of a kind, or by none.
#[derive(Drop)]
pub(crate) struct Judging<'a> {
    /// Whether the session must be complete.
    pub(crate) completeness: Completeness,
    pub(crate) lines: Option<Lines>,
    pub(crate) form: Form<'a>,
}

impl Judging<'_> {
    /// Adds what is due for a verdict.
    fn say(&self, verdict: &Verdict, text: &mut String) -> Result<()>
        ensures { OnOk result (string_bytes text.new ≡ string_bytes text.old
            ++ due_for (form_view self.now.form) (verdict_view verdict.now)) }
    {
        let report = verdict_report(*text.allocator(), verdict)?;
        match self.form {
            Form::Report => Ok(text.push_str(report.as_str())?),
            Form::Line(name) => push_line(text, name, report.as_str(), line_remark(verdict)),
            Form::Object(file) => push_object(text, file, report.as_str(), line_remark(verdict)),
        }
    }
}

impl Account for Judging<'_> {
    ghost Asked = { JudgingAsked };

    ghost asked = { λ account. record {
      completeness = account.completeness;
      lines = account.lines;
      form = form_view account.form;
    } };

    ghost run = { judging_run };

    ghost stands = { λ account terms heard. first_no terms (heard_events heard) ≡ None };

    #[inline(always)]
    fn event(&mut self, held: &Events<Lined>, seen: &Seen<'_>, text: &mut String) -> Result<Flow> {
        if let Fate::Offends { rule, .. } = seen.fate {
            let verdict = last_offence(&held.counts, seen.raw, rule, false).verdict();
            self.say(&verdict, text)?;
            let boxed = Box::new(*text.allocator(), Outcome::Judged(verdict))?;
            return Ok(Flow::Stop(boxed));
        }
        push_kept_line(text, self.lines, held, seen)?;
        Ok(Flow::GoOn)
    }

    fn end(
        &mut self,
        held: &Events<Lined>,
        log: &LogEvents,
        end: End,
        text: &mut String,
    ) -> Result<Outcome> {
        let verdict = verdict_at(held, log, end, self.completeness)?;
        self.say(&verdict, text)?;
        Ok(Outcome::Judged(verdict))
    }
}

/// The same for a log in memory. What `check` runs is so compiled for `check` alone, and its calls
/// stay as few.
#[derive(Drop)]
pub(crate) struct Rejudging<'a> {
    pub(crate) judging: Judging<'a>,
}

impl Account for Rejudging<'_> {
    ghost Asked = { JudgingAsked };

    ghost asked = { λ account. record {
      completeness = account.judging.completeness;
      lines = account.judging.lines;
      form = form_view account.judging.form;
    } };

    ghost run = { judging_run };

    ghost stands = { λ account terms heard. first_no terms (heard_events heard) ≡ None };

    fn event(&mut self, held: &Events<Lined>, seen: &Seen<'_>, text: &mut String) -> Result<Flow> {
        self.judging.event(held, seen, text)
    }

    fn end(
        &mut self,
        held: &Events<Lined>,
        log: &LogEvents,
        end: End,
        text: &mut String,
    ) -> Result<Outcome> {
        self.judging.end(held, log, end, text)
    }
}
