//! Reads a log record by record.
ghost use Rattle.std.specs.Prelude.{◌≡◌, ◌<◌, ◌≤◌, ℕ, List, [], None, IfOk, IfSome, length};
ghost use Rattle.lsp_log.specs.Log as log;
ghost use Rattle.lsp_log.specs.Place.{place_of, line_of, shown_bytes, found_behind};
ghost use Rattle.lsp_log.specs.Reader.{empty, ahead, passed, shown_by, IsBad, kept_by, keeps_of};
ghost use Rattle.lsp_log.specs.Reader.{RepeatsKept, TellsFormat, KeepsFormat, Gives, StandsFor};
ghost use Rattle.lsp_log.specs.Reader.{answer_of};
ghost use Rattle.lsp_log.specs.Ending.{StartAnswer, FindAnswer, EndAnswer, fault_of};

use crate::fault::{LogCode, LogFault};
use crate::format::LINE_LEN;
use crate::found::{first_line, record};
use crate::record::Record;
use crate::stop::Stop;
use crate::tape::{Tape, WINDOW};
use lsp_frame::{Format, Limits, Source};
use memchr::memchr;
use std::alloc::Global;
use std::marker::Model;

/// How far a log was read.
#[derive(Clone, Copy)]
pub(crate) enum Progress {
    FirstLine,
    Records,
    /// The answer that is given from now on.
    Over(Result<(), LogFault>),
}

/// Gives the records of a log one after another.
///
/// It reads at most 64 bytes past the record that it gives, or past the bytes that show a fault,
/// and of a log that is over its limit one byte past the limit.
#[derive(Drop)]
pub struct LogReader {
    alloc: Global,
    limits: Limits,
    tape: Tape,
    progress: Progress,
    format: Option<Format>,
    given: u64,
    /// How many bytes of the log come before what is given next.
    place: u64,
}

impl Model for LogReader {
    ghost use Rattle.lsp_log.specs.Reader.{State, FitsProgress};

    ghost Value = { State };

    ghost view = { λ a. record {
      limits = a.limits;
      tape = a.tape;
      progress = a.progress;
      format = a.format;
      given = a.given;
      place = a.place;
    } };

    ghost invariant = { λ a. FitsProgress a.progress a.format };
}

impl LogReader {
    /// A reader that has read nothing.
    pub fn new(alloc: Global, limits: Limits) -> LogReader
        ensures value { result ≡ empty limits }
        ensures stands { StandsFor result [] [] }
    {
        let left = limits.log();
        LogReader {
            alloc,
            limits,
            tape: Tape::new(left),
            progress: Progress::FirstLine,
            format: None,
            given: 0,
            place: 0,
        }
    }

    /// The format of the log, once its first line was read. A log of which this is missing (L1) has
    /// none.
    pub fn format(&self) -> Option<Format>
        ensures { result ≡ self.now.format }
    {
        self.format
    }

    /// How many bytes of the log come before what is given next: its first line and the records
    /// given. After a fault the bad record begins there; 0 where the first line is missing.
    pub fn place(&self) -> u64
        ensures value { result ≡ self.now.place }
        ensures stands { (bytes : List ℕ) (records : List log.Record) →
            StandsFor self.now bytes records → result ≡ place_of self.now.format records }
    {
        self.place
    }

    /// After a fault of the log, the line at its place, its LF included, but at most its first 64
    /// bytes, or 14 in a log whose first line is missing. Nothing is read for it.
    pub fn found(&self) -> &[u8]
        ensures value { result.now ≡ shown_by self.now }
        ensures stands { (bytes : List ℕ) (records : List log.Record) →
            StandsFor self.now bytes records → IsBad self.now.progress →
            result.now ≡ found_behind self.now.limits self.now.format records bytes }
    {
        let near = self.tape.near();
        let shown = near.len().min(self.shown_bytes());
        line_of(&near[..shown])
    }

    /// How many bytes are looked at where the log has its fault.
    fn shown_bytes(&self) -> usize
        ensures { result ≡ shown_bytes self.now.format }
    {
        match self.format {
            None => LINE_LEN,
            Some(_) => WINDOW,
        }
    }

    /// The next record, or None where the log ends without a fault.
    ///
    /// Of a log over its limit, the bytes up to the limit are read, and one more, which shows that
    /// there are more. Where these bytes end after a record or inside one, the fault is L6.
    ///
    /// An answer that is not a record is kept: it is given from then on, and nothing more is read.
    ///
    /// # Errors
    /// `Bad` names what is wrong with the log and at which record. `Read` is answered where the
    /// reader failed, and `Memory` where it was refused for a record whose first line was read.
    pub fn next<R: Source>(&mut self, reader: &mut R) -> Result<Option<Record>, LogFault>
        // The limits stay.
        ensures limits { self.new.limits ≡ self.old.limits }
        // A record leaves less to give, so that a caller's loop ends.
        ensures less { IfOk result (λ answer.
            IfSome answer (λ _. ahead self.new < ahead self.old)) }
        // At most 64 bytes after the record were read.
        ensures near { IfOk result (λ answer. IfSome answer (λ _. length self.new.tape.rest ≤ 64)) }
        // Every answer but a record is kept.
        ensures keeps { kept_by self.new ≡ keeps_of result }
        // The format is known after a record, and where the log ended without a fault; L1 says
        // that there is none. Once read, it stays.
        ensures format { TellsFormat result self.new.format }
        ensures same_format { KeepsFormat self.old.format self.new.format }
        // A kept answer is given again, and nothing is read or changed.
        ensures kept { RepeatsKept self.old self.new
            (R.told reader.old) (R.told reader.new) result }
        // Otherwise the reader stands for the bytes read and the records given, this one
        // included, and the answer is that of the log. Where bytes show a fault, at most 64 more
        // were read.
        ensures gives { kept_by self.old ≡ None
            → Gives self.old self.new (R.told reader.old) (R.told reader.new) result }
    {
        if let Progress::Over(end) = self.progress {
            return none_of(end);
        }
        match self.find(reader) {
            Ok(record) => {
                self.given = self.given.saturating_add(1);
                self.place = self.passed();
                Ok(Some(record))
            }
            Err(stop) => {
                let end = self.end(reader, stop);
                self.progress = Progress::Over(end);
                none_of(end)
            }
        }
    }

    /// The next record.
    fn find<R: Source>(&mut self, reader: &mut R) -> Result<Record, Stop>
        requires { kept_by self.old ≡ None }
        ensures limits { self.new.limits ≡ self.old.limits }
        ensures same_format { KeepsFormat self.old.format self.new.format }
        ensures answer { FindAnswer self.old self.new
            (R.told reader.old) (R.told reader.new) result }
    {
        self.start(reader)?;
        record(self.alloc, &self.limits, &mut self.tape, reader)
    }

    /// Skips the first line, where it was not yet read.
    fn start<R: Source>(&mut self, reader: &mut R) -> Result<(), Stop>
        requires { kept_by self.old ≡ None }
        ensures limits { self.new.limits ≡ self.old.limits }
        ensures same_format { KeepsFormat self.old.format self.new.format }
        ensures answer { StartAnswer self.old self.new
            (R.told reader.old) (R.told reader.new) result }
    {
        let Progress::FirstLine = self.progress else {
            return Ok(());
        };
        let format = first_line(&mut self.tape, reader)?;
        self.format = Some(format);
        self.progress = Progress::Records;
        self.place = self.passed();
        Ok(())
    }

    /// How many bytes were given.
    fn passed(&self) -> u64
        ensures { result ≡ passed self.now }
    {
        let near = self.tape.near().len() as u64;
        self.limits
            .log()
            .saturating_sub(self.tape.left())
            .saturating_sub(near)
    }

    /// The final answer, where no record was found.
    fn end<R: Source>(&self, reader: &mut R, stop: Stop) -> Result<(), LogFault>
        ensures { EndAnswer self.now (R.told reader.old) (R.told reader.new) stop result }
    {
        match stop {
            Stop::Nothing | Stop::Short => match self.tape.is_cut(reader) {
                Ok(cut) => fault_of(self.given, cut, stop),
                Err(_) => Err(LogFault::Read),
            },
            _ => fault_of(self.given, false, stop),
        }
    }
}

/// The bytes up to the first LF, which is included.
fn line_of(bytes: &[u8]) -> &[u8]
    ensures { result.now ≡ line_of bytes.now }
{
    match memchr(b'\n', bytes) {
        Some(end) => &bytes[..=end],
        None => bytes,
    }
}

/// The answer that ends a log after this many records. Where the log continues past its limit, that
/// stands for bytes that are missing.
fn fault_of(given: u64, is_cut: bool, stop: Stop) -> Result<(), LogFault>
    ensures { result ≡ fault_of given is_cut stop }
{
    let code = match stop {
        Stop::FirstLine => {
            return Err(LogFault::Bad {
                number: 0,
                code: LogCode::L1,
            });
        }
        Stop::Nothing | Stop::Short if is_cut => LogCode::L6,
        Stop::Nothing => return Ok(()),
        Stop::Form => LogCode::L2,
        Stop::Number => LogCode::L3,
        Stop::Short | Stop::End => LogCode::L4,
        Stop::Text => LogCode::L5,
        Stop::Read => return Err(LogFault::Read),
        Stop::Memory => return Err(LogFault::Memory),
    };
    Err(LogFault::Bad {
        number: given.saturating_add(1),
        code,
    })
}

/// The answer that gives no record.
fn none_of(end: Result<(), LogFault>) -> Result<Option<Record>, LogFault>
    ensures { result ≡ answer_of end }
{
    match end {
        Ok(()) => Ok(None),
        Err(fault) => Err(fault),
    }
}
