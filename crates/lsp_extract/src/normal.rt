//! The normal form of a log: each message as its canonical frame, in full records.
ghost use Rattle.std.specs.Prelude.{◌≡◌, ◌<◌, [], List, Some, None};
ghost use Rattle.lsp_replay.specs.Common.{Bounds, Opens, ports, Told};
ghost use Rattle.lsp_log.specs.Log as log;
ghost use Rattle.lsp_extract.specs.Normal as normal;
ghost use Rattle.lsp_extract.specs.Normal.{Normalizes, first_broken, Counted, CarriesCapped, EndsLog};
ghost use Rattle.lsp_extract.specs.Normal.{WritesEvent, WroteHead};
ghost use Rattle.lsp_replay.specs.Streams.{Stands};
ghost use Rattle.lsp_verdict.specs.Given.{raw_view};
ghost use Rattle.lsp_verdict.specs.Placed.{Raw as PlacedRaw};

use crate::pieces::write_content;
use lsp_frame::{Format, Limits, Sink, Source};
use lsp_log::{write_head_of, write_snapshot};
use lsp_replay::{End, LogEvents, Next};
use lsp_rpc::Side;
use lsp_types::rules;
use lsp_verdict::{Counts, Outcome, Raw, RunFault, Verdict, Who, who_of};
use std::alloc::Global;

/// No at the event that comes next, with the number that the side's next message has.
fn no_next(counts: &Counts, rule: u16, side: Side) -> Outcome
    ensures { (raws : List PlacedRaw) → Counted counts.now raws
        → CarriesCapped result (Some (normal.no_next rule side raws)) }
{
    let who = who_of(side);
    let (number, event) = counts.next(who);
    Outcome::Judged(Verdict::No {
        rule,
        who,
        number,
        event,
    })
}

/// Writes the records of an event and counts it, or gives the No at a fault of the frames.
fn write_event<W: Sink>(
    writer: &mut W,
    head: &mut String,
    size: usize,
    counts: &mut Counts,
    raw: &Raw<'_>,
) -> Result<Option<Outcome>, RunFault>
    requires { 0 < size }
    ensures { (before : List PlacedRaw) → Counted counts.old before
        → WritesEvent size counts.new (W.told writer.old) (W.told writer.new) before
        (raw_view raw.now) result }
{
    match raw {
        Raw::Content { side, content, .. } => {
            write_content(writer, head, size, *side, content)?;
            counts.add(who_of(*side));
            Ok(None)
        }
        Raw::Broken { side, rule, .. } => Ok(Some(no_next(counts, *rule, *side))),
        Raw::Snapshot { version, uri, text } => {
            write_snapshot(writer, *version, uri, text)?;
            counts.add(Who::Snapshot);
            Ok(None)
        }
    }
}

/// The outcome where the log ends so, after events that were counted.
fn outcome_at(events: &LogEvents, counts: &Counts, end: End) -> Outcome
    ensures { (limits : Bounds) (records : List log.Record) (given : List PlacedRaw)
        → Stands limits events.now.streams records given [] → Counted counts.now given
        → first_broken given ≡ None → EndsLog limits records given end result }
{
    if let End::Bad { number, fault } = end {
        return Outcome::Judged(Verdict::BadLog { number, fault });
    }
    if events.ends_inside(Side::Editor) {
        return no_next(counts, rules::STREAM_ENDS_INSIDE_FRAME, Side::Editor);
    }
    if events.ends_inside(Side::Server) {
        return no_next(counts, rules::STREAM_ENDS_INSIDE_FRAME, Side::Server);
    }
    Outcome::Done
}

/// Writes the records of the events of a log.
fn write_events<R: Source, W: Sink>(
    alloc: Global,
    reader: &mut R,
    writer: &mut W,
    limits: Limits,
    events: &mut LogEvents,
) -> Result<Outcome, RunFault>
    requires { (start : Told) × Opens limits start (R.told reader.old) events.old }
    ensures { (start sink : Told) → Opens limits start (R.told reader.old) events.old
        → WroteHead events.old sink (W.told writer.old)
        → Normalizes limits (ports start (R.told reader.new) sink (W.told writer.new)) result }
{
    let size = limits.chunk() as usize;
    let mut head = String::new(alloc);
    let mut counts = Counts::new();
    loop {
        match events.next(reader) {
            Err(fault) => return Err(fault),
            Ok(Next::End(end)) => return Ok(outcome_at(events, &counts, end)),
            Ok(Next::Event(raw)) => {
                if let Some(outcome) = write_event(writer, &mut head, size, &mut counts, &raw)? {
                    return Ok(outcome);
                }
            }
        }
    }
}

/// Writes the normal form of a log: the first line of its format, and for each of its events the
/// records of it.
///
/// A content is written as its canonical frame (LSP 3.17, "Base Protocol"), in records of its side
/// that are full but for the last; a snapshot is written as it is. Contents are kept byte for byte
/// and are not read as JSON, and nothing is judged. A fault of a side's frames or of the log ends
/// the normal form after the records of the events before it, and so do bytes at the end that are
/// not a whole frame; the outcome is then the verdict at that fault, and else `Done`.
///
/// The answer is `Read` where the source failed, `Write` where the sink did, and `Memory` where
/// memory was refused; what was written before stays written.
pub fn run_normal<R: Source, W: Sink>(
    alloc: Global,
    reader: &mut R,
    writer: &mut W,
    limits: Limits,
) -> Result<Outcome, RunFault>
    ensures normalized { Normalizes limits (ports (R.told reader.old) (R.told reader.new)
        (W.told writer.old) (W.told writer.new)) result }
{
    let mut events = LogEvents::open(alloc, reader, limits)?;
    write_head_of(writer, events.format().unwrap_or(Format::One))?;
    write_events(alloc, reader, writer, limits, &mut events)
}
