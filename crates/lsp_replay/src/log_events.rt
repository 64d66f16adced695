//! The events of a log one after another, before their contents are read.
ghost use Rattle.std.specs.Prelude.{◌≡◌, ◌<◌, [], IfOk, IfErr, List, None, Option, OnOk, Ok};
ghost use Rattle.std.specs.Borrow.{sem};
ghost use Rattle.lsp_frame.specs.Bounds.{Bounds};
ghost use Rattle.lsp_frame.specs.Told.{Told};
ghost use Rattle.lsp_frame.specs.declared.format.Format.{Format};
ghost use Rattle.lsp_log.specs.Log as log;
ghost use Rattle.lsp_log.specs.Reader.{KeepsFormat, shown_by};
ghost use Rattle.lsp_verdict.specs.Placed as placed;
ghost use Rattle.lsp_verdict.specs.Runs.{BreaksOff};
ghost use Rattle.lsp_replay.specs.LogEvents.{Brings, Finds, HoldsStep, IsIdle, Opens, Reads, Takes};
ghost use Rattle.lsp_replay.specs.LogEvents.{unread};
ghost use Rattle.lsp_replay.specs.LogLending.{LendsNext};
ghost use Rattle.lsp_replay.specs.Streams.{decoder_of, ends_inside};

use crate::streams::{Due, Streams};
use lsp_frame::{Format, Limits, Source};
use lsp_log::{LogCode, LogFault, LogReader, Record};
use lsp_rpc::Side;
use lsp_verdict::{Raw, RunFault};
use std::alloc::Global;

/// What a log has next.
#[derive(Clone, Copy)]
pub enum Next<'a> {
    /// An event.
    Event(Raw<'a>),
    /// Its end.
    End(End),
}

/// An entry of a log.
#[derive(Drop)]
pub enum Entry {
    /// A record.
    Record(Record),
    /// The end of the log.
    End(End),
}

/// How a log ends.
#[derive(Clone, Copy)]
pub enum End {
    /// Without a fault.
    Sound,
    /// With this fault.
    Bad {
        /// The number of the record, from 1; 0 for the first line.
        number: u64,
        /// What is wrong there.
        fault: LogCode,
    },
}

/// What a log has next, without what is lent of it.
#[derive(Clone, Copy)]
pub(crate) enum Step {
    Event(Due),
    End(End),
}

/// Reads the events of a log one after another, up to its end.
#[derive(Drop)]
pub struct LogEvents {
    log: LogReader,
    /// The events of the records that were read and pushed.
    pub streams: Streams,
    /// The end of the log, once it was read.
    end: Option<End>,
}

impl LogEvents {
    /// The events of a log of which nothing was read.
    pub fn new(alloc: Global, limits: Limits) -> LogEvents
        ensures end { result.end ≡ None }
        ensures idle { (start : Told) → IsIdle limits result start start [] [] [] }
    {
        LogEvents {
            log: LogReader::new(alloc, limits),
            streams: Streams::new(alloc, limits),
            end: None,
        }
    }

    /// Reads a log up to its first record, and with it the log's format.
    ///
    /// # Errors
    /// `Read` where the source failed, and `Memory` where memory was refused.
    pub fn open<R: Source>(
        alloc: Global,
        reader: &mut R,
        limits: Limits,
    ) -> Result<LogEvents, RunFault>
        ensures ok { IfOk result (Opens limits (R.told reader.old) (R.told reader.new)) }
        ensures err { IfErr result (BreaksOff limits (R.told reader.old) (R.told reader.new)) }
    {
        let mut events = LogEvents::new(alloc, limits);
        events.take(reader)?;
        Ok(events)
    }

    /// The format of the log; a log of which the first line is missing (L1) has none.
    pub fn format(&self) -> Option<Format>
        ensures { result ≡ self.now.log.format }
    {
        self.log.format()
    }

    /// The next event of the log, or its end, which is given again from then on.
    ///
    /// # Errors
    /// `Read` where the source failed, and `Memory` where memory was refused.
    pub fn next<R: Source>(&mut self, reader: &mut R) -> Result<Next<'_>, RunFault>
        ensures* lends { sem 𝓛 (LendsNext self.entry (R.told reader.old)
            (R.told reader.new) result) }
    {
        match self.find(reader) {
            Ok(Step::Event(due)) => Ok(Next::Event(self.streams.lend(due))),
            Ok(Step::End(end)) => Ok(Next::End(end)),
            Err(fault) => Err(fault),
        }
    }

    /// The bytes of a side after its last whole frame. After a fault of its frames, they reach at
    /// least far enough to show it.
    pub fn rest(&self, side: Side) -> &[u8]
        ensures { result.now ≡ (decoder_of side self.now.streams).rest }
    {
        self.streams.rest(side)
    }

    /// Whether a side's frames, of which none has a fault, end inside one.
    pub fn ends_inside(&self, side: Side) -> bool
        ensures { result ≡ ends_inside (decoder_of side self.now.streams) }
    {
        self.streams.ends_inside(side)
    }

    /// After a fault of the log, how many of its bytes precede the fault: the bad record begins
    /// there; 0 where the first line is missing.
    pub fn place(&self) -> u64
        ensures { result ≡ self.now.log.place }
    {
        self.log.place()
    }

    /// After a fault of the log, the line at its place, its LF included, but at most its first 64
    /// bytes, or 14 in a log whose first line is missing.
    pub fn found(&self) -> &[u8]
        ensures { result.now ≡ shown_by self.now.log }
    {
        self.log.found()
    }

    /// Skips the next event of the log.
    fn find<R: Source>(&mut self, reader: &mut R) -> Result<Step, RunFault>
        ensures held { IfOk result (HoldsStep self.new.streams) }
        ensures answer { (limits : Bounds) (format : Option Format) (start : Told)
            (records : List log.Record) (given due : List placed.Raw)
            → Reads limits format self.old start (R.told reader.old) records given due
            → Finds limits format self.new start (R.told reader.new) records given result }
    {
        loop {
            if let Some(due) = self.streams.advance() {
                return Ok(Step::Event(due));
            }
            if let Some(end) = self.end {
                return Ok(Step::End(end));
            }
            self.take(reader)?;
        }
    }

    /// Takes the next entry of the log, all of whose events so far were given.
    fn take<R: Source>(&mut self, reader: &mut R) -> Result<(), RunFault>
        requires { self.old.end ≡ None }
        ensures format { KeepsFormat self.old.log.format self.new.log.format }
        // An entry leaves less to read, so that a caller's loop ends.
        ensures less { OnOk result (unread self.new < unread self.old) }
        ensures answer { (limits : Bounds) (start : Told) (records : List log.Record)
            (given : List placed.Raw)
            → IsIdle limits self.old start (R.told reader.old) records records given
            → Takes limits self.old.log.format self.new start
            (R.told reader.new) records given result }
    {
        match self.read(reader)? {
            Entry::Record(record) => self.streams.push(record)?,
            Entry::End(_) => (),
        }
        Ok(())
    }

    /// Reads the next entry of the log, all of whose events so far were given. A record's own
    /// events are given once it is pushed to the streams.
    ///
    /// # Errors
    /// `Read` where the source failed, and `Memory` where memory was refused.
    pub fn read<R: Source>(&mut self, reader: &mut R) -> Result<Entry, RunFault>
        requires { self.old.end ≡ None }
        ensures streams { self.new.streams ≡ self.old.streams }
        ensures format { KeepsFormat self.old.log.format self.new.log.format }
        // An entry leaves less to read, so that a caller's loop ends.
        ensures less { OnOk result (unread self.new < unread self.old) }
        ensures answer { (limits : Bounds) (start : Told) (records : List log.Record)
            (given : List placed.Raw)
            → IsIdle limits self.old start (R.told reader.old) records records given
            → Brings limits self.old.log.format self.new start (R.told reader.new) records given
            result }
    {
        match self.log.next(reader) {
            Ok(Some(record)) => Ok(Entry::Record(record)),
            Ok(None) => {
                self.end = Some(End::Sound);
                Ok(Entry::End(End::Sound))
            }
            Err(LogFault::Bad { number, code }) => {
                let end = End::Bad {
                    number,
                    fault: code,
                };
                self.end = Some(end);
                Ok(Entry::End(end))
            }
            Err(LogFault::Read) => Err(RunFault::Read),
            Err(LogFault::Memory) => Err(RunFault::Memory),
        }
    }
}
