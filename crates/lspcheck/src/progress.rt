//! How far the input was read: a line on standard error, where that is a terminal.
use lsp_command::Watch;
use std::cell::Cell;
use std::rt::Clock;
use std::time::Instant;

/// How many seconds pass before the line is written, and before it is written again.
const PAUSE: u64 = 1;

/// How many bytes are a megabyte.
const MEGABYTE: u64 = 1_000_000;

/// What takes the line back: as many spaces as it can be long.
const BLANK: &str = "\r                                                            \r";

/// The line on how far the input was read.
///
/// It is written each second, and taken back before anything else is written to the terminal.
#[derive(Drop)]
pub(crate) struct Progress<'a, R> {
    rt: &'a R,
    /// The bytes of the input, where they are known.
    size: Option<u64>,
    /// Whether standard output is a terminal too, so that its text stands in the way of the line.
    is_shared: bool,
    /// The bytes that were read.
    read: Cell<u64>,
    /// When the line was written, or the run began; `None` where it is left out.
    since: Cell<Option<Instant>>,
    /// Whether the line stands on the terminal.
    is_shown: Cell<bool>,
}

impl<'a, R: Clock + Eprint> Progress<'a, R> {
    /// Of an input of this many bytes, where they are known; nothing is shown unless it is `on`.
    pub(crate) fn new(rt: &'a R, size: Option<u64>, on: bool, is_shared: bool) -> Progress<'a, R> {
        Progress {
            rt,
            size,
            is_shared,
            read: Cell::new(0),
            since: Cell::new(if on { Instant::now(rt).ok() } else { None }),
            is_shown: Cell::new(false),
        }
    }

    /// Whether a second has passed. A clock that fails ends the line.
    fn is_due(&self) -> bool {
        match self.since.get() {
            Some(since) =>
                matches!(since.elapsed(self.rt), Ok(passed) if passed.as_secs() >= PAUSE),
            None => false,
        }
    }

    /// Writes the line over the one that stands there.
    fn show(&self, megabytes: u64) {
        self.is_shown.set(true);
        let _ = match self.size {
            Some(size) => {
                let all = size / MEGABYTE;
                let percent = percent_of(megabytes, all);
                eprint!(self.rt; "\rlspcheck: read {megabytes} of {all} MB, {percent} %")
            }
            None => eprint!(self.rt; "\rlspcheck: read {megabytes} MB"),
        };
    }

    /// Counts bytes that were read.
    fn count(&self, count: usize) {
        self.read.set(self.read.get().saturating_add(count as u64));
    }

    /// Writes the line, and begins another second.
    fn renew(&self) {
        self.since.set(Instant::now(self.rt).ok());
        self.show(self.read.get() / MEGABYTE);
    }

    /// Takes the line back.
    pub(crate) fn clear(&self) {
        if self.is_shown.replace(false) {
            let _ = self.rt.eprint(BLANK);
        }
    }
}

impl<R: Clock + Eprint> Watch for &Progress<'_, R> {
    fn advance(&self, count: usize) {
        self.count(count);
        if self.is_due() {
            self.renew();
        }
    }

    /// Takes the line back for text on standard output. Where that is a terminal the text itself
    /// shows how far the run is, and the line does not come again.
    fn make_way(&self) {
        if self.is_shared {
            self.clear();
            self.since.set(None);
        }
    }
}

/// How many percent of the megabytes were read; 100 where there is none.
fn percent_of(megabytes: u64, all: u64) -> u64 {
    if megabytes >= all {
        100
    } else {
        megabytes.saturating_mul(100) / all
    }
}
