//! Writes a log again in format 2.
ghost use Rattle.std.specs.Prelude.{◌≡◌, IfOk};
ghost use Rattle.lsp_replay.specs.Common.{ports, record_view};
ghost use Rattle.lsp_judge.specs.ShownLog.{UpgradesLog};

use crate::contents::hear_record;
use crate::ending::verdict_at;
use lsp_frame::{Format, Limits, Sink, Source};
use lsp_lined::Lined;
use lsp_log::{Record, write_head_of, write_record};
use lsp_replay::{Entry, Events, LogEvents};
use lsp_rpc::Result;
use lsp_verdict::{Completeness, Outcome, RunFault};
use std::alloc::Global;

/// A log that is written again as it is read, and what is held of its events.
struct Upgrade {
    log: LogEvents,
    events: Events<Lined>,
}

impl Drop for Upgrade {
    fn drop(self) {
        let Upgrade { log: _, events: _ } = self;
    }
}

/// Reads a log up to the first event that offends, or to its end, and writes it again in format 2:
/// the first line of that format, and each record that brings no event which offends, up to the
/// first that does.
///
/// A log of either format is judged as such, and its records are written as they are.
///
/// # Errors
/// `Read` is answered where the source failed, `Write` where the sink did, and `Memory` where
/// memory was refused; what was written before stays written.
pub fn run_upgrade<R: Source, W: Sink>(
    alloc: Global,
    reader: &mut R,
    writer: &mut W,
    limits: Limits,
) -> Result<Outcome, RunFault>
    ensures upgraded { UpgradesLog limits (ports (R.told reader.old) (R.told reader.new)
        (W.told writer.old) (W.told writer.new)) result }
{
    let mut log = LogEvents::new(alloc, limits);
    write_head_of(writer, Format::Two)?;
    let mut next = log.read(reader)?;
    let format = log.format().unwrap_or(Format::One);
    let events = Events::new(alloc, limits, format);
    let mut reading = Upgrade { log, events };
    loop {
        match next {
            Entry::End(end) => {
                let held = &reading.events;
                let verdict = verdict_at(held, &reading.log, end, Completeness::Ignored)?;
                return Ok(Outcome::Judged(verdict));
            }
            Entry::Record(record) => {
                let copy = copy_of(&record)?;
                match hear_record(&mut reading.log.streams, &mut reading.events, record) {
                    Ok(()) => write_record(writer, &copy)?,
                    Err(ruling) => return Ok(Outcome::Judged(ruling.answer()?)),
                }
            }
        }
        next = reading.log.read(reader)?;
    }
}

fn copy_of(next: &Record) -> Result<Record>
    ensures { IfOk result (λ copy. record_view copy ≡ record_view next.now) }
{
    match next {
        Record::Bytes { side, bytes } => Ok(Record::Bytes {
            side: *side,
            bytes: bytes.clone()?,
        }),
        Record::Snapshot { version, uri, text } => Ok(Record::Snapshot {
            version: *version,
            uri: uri.clone()?,
            text: text.clone()?,
        }),
    }
}
