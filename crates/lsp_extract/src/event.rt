//! The content of one event of a log.
ghost use Rattle.std.specs.Prelude.{◌≡◌, ◌<◌, ℕ};
ghost use Rattle.lsp_replay.specs.Common.{Bounds, ports, Told};
ghost use Rattle.lsp_extract.specs.Event.{GivesEvent, content_of, outcome_of, without, HasPassed};
ghost use Rattle.lsp_replay.specs.LogEvents.{flaw_of};
ghost use Rattle.lsp_verdict.specs.Given.{raw_view};

use lsp_frame::{Limits, Sink, Source, put_all};
use lsp_log::LogCode;
use lsp_replay::{End, LogEvents, Next};
use lsp_verdict::{Raw, RunFault};
use std::alloc::Global;

/// How a run for one event ended, if not by a fault of reading, writing or memory.
#[derive(Clone, Copy, Debug, PartialEq, Eq)]
pub enum EventOutcome {
    /// What the event holds was written.
    Done,
    /// The event is a fault of a side's frames: it has no content.
    NoContent,
    /// The log ends before the event.
    FewerEvents,
    /// The log has this fault before the event, at the record of this number, from 1; 0 is the
    /// first line.
    BadLog { number: u64, fault: LogCode },
}

/// What this event holds: nothing where it has no content.
fn held_by<'a>(raw: &'a Raw<'_>) -> &'a [u8]
    ensures { result.now ≡ content_of (raw_view raw.now) }
{
    match raw {
        Raw::Content { content, .. } => content,
        Raw::Broken { .. } => &[],
        Raw::Snapshot { text, .. } => text.as_bytes(),
    }
}

/// How the run ends for this event.
fn outcome_of(raw: &Raw<'_>) -> EventOutcome
    ensures { result ≡ outcome_of (raw_view raw.now) }
{
    match raw {
        Raw::Broken { .. } => EventOutcome::NoContent,
        Raw::Content { .. } | Raw::Snapshot { .. } => EventOutcome::Done,
    }
}

/// How the run ends where the log ends so, before the event.
fn outcome_at(end: End) -> EventOutcome
    ensures { result ≡ without (flaw_of end) }
{
    match end {
        End::Sound => EventOutcome::FewerEvents,
        End::Bad { number, fault } => EventOutcome::BadLog { number, fault },
    }
}

/// Skips the events that come next, up to the one of this number, from 1, and writes what that
/// holds.
fn write_nth<R: Source, W: Sink>(
    events: &mut LogEvents,
    reader: &mut R,
    writer: &mut W,
    number: u64,
) -> Result<EventOutcome, RunFault>
    requires { 0 < number }
    ensures { (limits : Bounds) (start : Told) (n : ℕ)
        → HasPassed limits events.old start (R.told reader.old) n number
        → GivesEvent limits (ports start (R.told reader.new) (W.told writer.old)
        (W.told writer.new)) n result }
{
    let mut left = number;
    loop {
        match events.next(reader) {
            Err(fault) => return Err(fault),
            Ok(Next::End(end)) => return Ok(outcome_at(end)),
            Ok(Next::Event(raw)) => {
                left -= 1;
                if left == 0 {
                    put_all(writer, held_by(&raw))?;
                    return Ok(outcome_of(&raw));
                }
            }
        }
    }
}

/// Reads a log up to the event of this number, from 1, and writes what it holds and nothing else:
/// the content of a message as it was sent, or the text of a snapshot.
///
/// Events are counted as a verdict numbers them, but nothing is judged: an event may offend, and so
/// may those before it. An event that is a fault of a side's frames has no content. Where the log
/// ends before the event, the outcome is the log's fault, or that there are fewer events.
///
/// # Errors
/// `Read` where the source failed, `Write` where the sink did, and `Memory` where memory was
/// refused.
pub fn run_event<R: Source, W: Sink>(
    alloc: Global,
    reader: &mut R,
    writer: &mut W,
    limits: Limits,
    number: u64,
) -> Result<EventOutcome, RunFault>
    requires { 0 < number }
    ensures gives { GivesEvent limits (ports (R.told reader.old) (R.told reader.new)
        (W.told writer.old) (W.told writer.new)) number result }
{
    let mut events = LogEvents::open(alloc, reader, limits)?;
    write_nth(&mut events, reader, writer, number)
}
