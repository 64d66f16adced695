//! Does what the words ask for.
ghost use Rattle.std.specs.Prelude.{◌≡◌, [], None, Err, OnOk, IsSome};
ghost use Rattle.lsp_judge.specs.Checked.{Checked};
ghost use Rattle.lsp_judge.specs.ShownLog.{Showed};
ghost use Rattle.lsp_verdict.specs.Runs.{ports};
ghost use Rattle.lsp_verdict.specs.declared.outcome.RunFault.TheVariants as faults;
ghost use Rattle.lsp_request.specs.Ports.{input_error, late_error, output_error, unwritten};
ghost use Rattle.lsp_command.specs.Tasks.{RanTask, RanThrough, handed_on, of_event, of_run};
ghost use Rattle.lsp_request.specs.declared.command_line.task.Task.TheVariants as tasks;

use lsp_explain::{run_compared, run_explain, run_explain_all, run_explain_noted};
use lsp_frame::{Failed, Limits, Sink, Source};
use lsp_judge::{
    Completeness, EventOutcome, Lines, Outcome, RunFault, run_check, run_check_complete,
    run_check_json, run_check_line, run_check_object, run_event, run_frames, run_normal, run_show,
    run_show_json, run_show_long, run_text, run_upgrade,
};
use lsp_redact::run_redact;
use lsp_replay::Form;
use lsp_request::{
    BufferedInput, BufferedOutput, Explanation, Extent, Report, Rewrite, Task, TaskOutcome, Watch,
};
use lsp_survey::{run_show_all, run_survey, run_text_all};
use std::alloc::Global;
use std::io::{Read, Write};
use std::num::NonZeroU64;

/// Does the task over a source and a sink.
pub fn run_task<R: Source, W: Sink>(
    alloc: Global,
    task: Task<'_>,
    source: &mut R,
    sink: &mut W,
    limits: Limits,
) -> Result<TaskOutcome, RunFault>
    ensures ran { RanTask limits task.entry
        (ports (R.told source.old) (R.told source.new) (W.told sink.old) (W.told sink.new))
        result }
{
    match task {
        Task::Check(completeness, report, form) => {
            of_run(check(alloc, source, sink, limits, completeness, report, form))
        }
        Task::Explain(completeness, explanation, form) => {
            of_run(explain(alloc, source, sink, limits, completeness, explanation, form))
        }
        Task::Compared(which) => of_run(run_compared(alloc, source, sink, limits, which)),
        Task::Show(lines, extent, form) => {
            of_run(show(alloc, source, sink, limits, lines, extent, form))
        }
        Task::Text {
            number,
            uri,
            extent,
        } => of_run(text(alloc, source, sink, limits, number, uri, extent)),
        Task::Event { number } => of_event(run_event(alloc, source, sink, limits, number.get())),
        Task::Rewrite(how) => of_run(rewrite(alloc, source, sink, limits, how)),
        Task::Frames(mode) => of_run(run_frames(alloc, source, sink, limits, mode)),
    }
}

/// How a task ended whose run over a log or a stream ended so.
fn of_run(ended: Result<Outcome, RunFault>) -> Result<TaskOutcome, RunFault>
    ensures { result ≡ of_run ended }
{
    match ended {
        Ok(outcome) => Ok(TaskOutcome::Run(outcome)),
        Err(fault) => Err(fault),
    }
}

/// How a task ended whose run for one event ended so.
fn of_event(ended: Result<EventOutcome, RunFault>) -> Result<TaskOutcome, RunFault>
    ensures { result ≡ of_event ended }
{
    match ended {
        Ok(outcome) => Ok(TaskOutcome::Event(outcome)),
        Err(fault) => Err(fault),
    }
}

/// Judges a session, which must be complete or not, and writes this report of it.
fn check<R: Source, W: Sink>(
    alloc: Global,
    source: &mut R,
    sink: &mut W,
    limits: Limits,
    completeness: Completeness,
    report: Report<'_>,
    form: Form,
) -> Result<Outcome, RunFault>
    ensures ran { RanTask limits (tasks.Check completeness report.entry form)
        (ports (R.told source.old) (R.told source.new) (W.told sink.old) (W.told sink.new))
        (of_run result) }
{
    match (report, form) {
        (Report::Verdict, Form::Lines) => judge(alloc, source, sink, limits, completeness),
        (Report::Verdict, Form::Json) => run_check_json(alloc, source, sink, limits, completeness),
        (Report::Line(name), Form::Lines) => {
            run_check_line(alloc, source, sink, limits, completeness, name)
        }
        (Report::Line(file), Form::Json) => {
            run_check_object(alloc, source, sink, limits, completeness, file)
        }
        (Report::Offences(listing), form) => {
            run_survey(alloc, source, sink, limits, completeness, listing, form)
        }
    }
}

/// Judges a session, which must be complete or not, and writes its verdict.
fn judge<R: Source, W: Sink>(
    alloc: Global,
    source: &mut R,
    sink: &mut W,
    limits: Limits,
    completeness: Completeness,
) -> Result<Outcome, RunFault>
    ensures checked { Checked completeness limits
        (ports (R.told source.old) (R.told source.new) (W.told sink.old) (W.told sink.new))
        result }
{
    match completeness {
        Completeness::Ignored => run_check(alloc, source, sink, limits),
        Completeness::Required => run_check_complete(alloc, source, sink, limits),
    }
}

/// Explains what is wrong with a session, which must be complete or not.
fn explain<R: Source, W: Sink>(
    alloc: Global,
    source: &mut R,
    sink: &mut W,
    limits: Limits,
    completeness: Completeness,
    explanation: Explanation,
    form: Form,
) -> Result<Outcome, RunFault>
    ensures ran { RanTask limits (tasks.Explain completeness explanation form)
        (ports (R.told source.old) (R.told source.new) (W.told sink.old) (W.told sink.new))
        (of_run result) }
{
    match explanation {
        Explanation::Verdict => run_explain(alloc, source, sink, limits, completeness, form),
        Explanation::All => run_explain_all(alloc, source, sink, limits, completeness, form),
        Explanation::AllWithNotes => {
            run_explain_noted(alloc, source, sink, limits, completeness, form)
        }
    }
}

/// Lists the events of a session, followed this far, by short or long lines.
fn show<R: Source, W: Sink>(
    alloc: Global,
    source: &mut R,
    sink: &mut W,
    limits: Limits,
    lines: Lines,
    extent: Extent,
    form: Form,
) -> Result<Outcome, RunFault>
    ensures ran { RanTask limits (tasks.Show lines extent form)
        (ports (R.told source.old) (R.told source.new) (W.told sink.old) (W.told sink.new))
        (of_run result) }
{
    match (extent, form) {
        (Extent::First, Form::Lines) => list(alloc, source, sink, limits, lines),
        (Extent::First, Form::Json) => run_show_json(alloc, source, sink, limits, lines),
        (Extent::All, form) => run_show_all(alloc, source, sink, limits, lines, form),
    }
}

/// Lists the events of a session up to its verdict, by short or long lines.
fn list<R: Source, W: Sink>(
    alloc: Global,
    source: &mut R,
    sink: &mut W,
    limits: Limits,
    lines: Lines,
) -> Result<Outcome, RunFault>
    ensures showed { Showed lines limits
        (ports (R.told source.old) (R.told source.new) (W.told sink.old) (W.told sink.new))
        result }
{
    match lines {
        Lines::Short => run_show(alloc, source, sink, limits),
        Lines::Long => run_show_long(alloc, source, sink, limits),
    }
}

/// Writes the text of a document after the editor's message of this number, in a session that is
/// followed this far.
fn text<R: Source, W: Sink>(
    alloc: Global,
    source: &mut R,
    sink: &mut W,
    limits: Limits,
    number: NonZeroU64,
    uri: &str,
    extent: Extent,
) -> Result<Outcome, RunFault>
    ensures ran { RanTask limits (tasks.Text number uri.entry extent)
        (ports (R.told source.old) (R.told source.new) (W.told sink.old) (W.told sink.new))
        (of_run result) }
{
    match extent {
        Extent::First => run_text(alloc, source, sink, limits, number.get(), uri),
        Extent::All => run_text_all(alloc, source, sink, limits, number.get(), uri),
    }
}

/// Writes a log again.
fn rewrite<R: Source, W: Sink>(
    alloc: Global,
    source: &mut R,
    sink: &mut W,
    limits: Limits,
    how: Rewrite,
) -> Result<Outcome, RunFault>
    ensures ran { RanTask limits (tasks.Rewrite how)
        (ports (R.told source.old) (R.told source.new) (W.told sink.old) (W.told sink.new))
        (of_run result) }
{
    match how {
        Rewrite::Normal => run_normal(alloc, source, sink, limits),
        Rewrite::Upgrade => run_upgrade(alloc, source, sink, limits),
        Rewrite::Redact => run_redact(alloc, source, sink, limits),
    }
}

/// What is answered where a task ended so and its output was then flushed with this answer.
fn handed_on(
    ended: Result<TaskOutcome, RunFault>,
    flushed: Result<(), Failed>,
) -> Result<TaskOutcome, RunFault>
    ensures { result ≡ handed_on ended flushed }
{
    match flushed {
        Err(Failed) if ended.is_ok() => Err(RunFault::Write),
        _ => ended,
    }
}

/// Does the task over an input and into an output. What the task wrote is passed on even if it
/// failed.
pub fn run_through<'a, R: Read + Drop, W: Write + Drop, V: Watch>(
    alloc: Global,
    task: Task<'_>,
    input: &mut BufferedInput<'a, R, V>,
    output: &mut BufferedOutput<'a, W, V>,
    limits: Limits,
) -> Result<TaskOutcome, RunFault>
    ensures ran { RanThrough limits task.entry
        (ports (⟦<BufferedInput<'a, R, V> as Source>⟧.told input.old)
        (⟦<BufferedInput<'a, R, V> as Source>⟧.told input.new)
        (⟦<BufferedOutput<'a, W, V> as Sink>⟧.told output.old)
        (⟦<BufferedOutput<'a, W, V> as Sink>⟧.told output.new)) (unwritten output.new) result }
    ensures flushed { OnOk result (unwritten output.new ≡ []) }
    // No error of the writer is left to be told.
    ensures settled { late_error output.new ≡ None }
    // A fault of the input or the output has its error.
    ensures read_error { result ≡ Err faults.Read → IsSome (input_error input.new) }
    ensures write_error { result ≡ Err faults.Write → IsSome (output_error output.new) }
{
    let ended = run_task(alloc, task, input, output, limits);
    let flushed = output.flush();
    handed_on(ended, flushed)
}
