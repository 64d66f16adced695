//! The bytes of a reader, a few of them looked at before they are given.
ghost use Rattle.std.specs.Prelude.{◌≡◌, ◌≤◌, ◌-◌, length, take, drop, IfOk, OnOk, []};
ghost use Rattle.std.specs.Prelude.{vec_len, vec_capacity};
ghost use Rattle.lsp_log.specs.Tape.{PullAnswer, UpAnswer, FillAnswer, ReachAnswer, LineAnswer};
ghost use Rattle.lsp_log.specs.Tape.{TakeAnswer, PartAnswer, CutAnswer};

use crate::stop::Stop;
use lsp_frame::{Failed, Source};
use memchr::memchr;
use std::alloc::Global;
use std::marker::Model;

/// How many bytes are looked at before they are given.
pub(crate) const WINDOW: usize = 64;

/// The bytes that were read and not given, at most a window of them. They move to the window's
/// front where more is read.
#[derive(Drop)]
pub(crate) struct Tape {
    near: [u8; WINDOW],
    /// Where the bytes begin that were not given.
    start: usize,
    /// Where the bytes end that were read.
    end: usize,
    /// How many bytes more may be read.
    left: u64,
}

impl Model for Tape {
    ghost use Rattle.std.specs.Prelude.{◌≤◌, take, drop};
    ghost use Rattle.lsp_log.specs.Tape.{Held};

    ghost Value = { Held };

    ghost view = { λ a. record { rest = drop a.start (take a.end a.near); left = a.left } };

    ghost invariant = { λ a. (a.start ≤ a.end) × (a.end ≤ 64) };
}

/// Reads into the front of the buffer, and counts what was read.
fn pull_within<R: Source>(
    reader: &mut R,
    left: &mut u64,
    buffer: &mut [u8],
) -> Result<usize, Failed>
    ensures len { length buffer.new ≡ length buffer.old }
    ensures count { IfOk result (λ n. n ≤ length buffer.new) }
    ensures bytes { PullAnswer left.old left.new
        (R.told reader.old) (R.told reader.new) buffer.new result }
{
    let most = (*left).min(buffer.len() as u64) as usize;
    if most == 0 {
        return Ok(0);
    }
    let count = reader.pull(&mut buffer[..most])?;
    *left -= count as u64;
    Ok(count)
}

/// Appends what is read to the bytes, until there are `len`, for which there is room, or no more
/// can be read.
fn fill_up<R: Source>(
    reader: &mut R,
    left: &mut u64,
    bytes: &mut Vec<u8>,
    len: usize,
) -> Result<(), Failed>
    requires room { len ≤ vec_capacity bytes.old }
    requires within { vec_len bytes.old ≤ len }
    ensures within { OnOk result (length bytes.new.items ≤ len) }
    ensures bytes { UpAnswer left.old left.new (R.told reader.old) (R.told reader.new)
        bytes.old.items bytes.new.items len result }
{
    while bytes.len() < len {
        let most = (*left).min((len - bytes.len()) as u64) as usize;
        if most == 0 {
            return Ok(());
        }
        let count = reader.pull_onto(bytes, most)?;
        if count == 0 {
            return Ok(());
        }
        *left -= count as u64;
    }
    Ok(())
}

/// Moves the bytes between two places to the front.
fn to_front(near: &mut [u8; WINDOW], start: usize, end: usize)
    requires { (start ≤ end) × (end ≤ 64) }
    ensures len { length near.new ≡ 64 }
    ensures front { take (end - start) near.new ≡ drop start (take end near.old) }
{
    near.copy_within(start..end, 0);
}

impl Tape {
    /// A tape of which nothing was read.
    pub(crate) fn new(left: u64) -> Tape
        ensures { result ≡ record { rest = []; left = left } }
    {
        Tape {
            near: [0; WINDOW],
            start: 0,
            end: 0,
            left,
        }
    }

    /// The bytes that were read and not given.
    pub(crate) fn near(&self) -> &[u8]
        ensures value { result.now ≡ self.now.rest }
        ensures short { length result.now ≤ 64 }
    {
        &self.near[self.start..self.end]
    }

    /// Gives bytes that were read.
    pub(crate) fn skip(&mut self, count: usize)
        requires { count ≤ length self.old.rest }
        ensures { self.new ≡ record self.old { rest = drop count self.old.rest } }
    {
        self.start += count;
    }

    /// How many bytes more may be read.
    pub(crate) fn left(&self) -> u64
        ensures { result ≡ self.now.left }
    {
        self.left
    }

    /// Replaces by these bytes those that were read and not given.
    pub(crate) fn put_back(&mut self, bytes: &[u8])
        requires { length bytes.now ≤ 64 }
        ensures { self.new ≡ record self.old { rest = bytes.now } }
    {
        self.near[..bytes.len()].copy_from_slice(bytes);
        self.start = 0;
        self.end = bytes.len();
    }

    /// Reads more into the window.
    fn fill<R: Source>(&mut self, reader: &mut R) -> Result<usize, Failed>
        ensures short { length self.new.rest ≤ 64 }
        ensures answer { FillAnswer self.old self.new
            (R.told reader.old) (R.told reader.new) result }
    {
        to_front(&mut self.near, self.start, self.end);
        self.end -= self.start;
        self.start = 0;
        let count = pull_within(reader, &mut self.left, &mut self.near[self.end..])?;
        self.end += count;
        Ok(count)
    }

    /// Reads until this many bytes are in the window, or no more can be read.
    pub(crate) fn reach<R: Source>(&mut self, reader: &mut R, count: usize) -> Result<(), Failed>
        requires { count ≤ 64 }
        ensures short { length self.new.rest ≤ 64 }
        ensures answer { ReachAnswer self.old self.new
            (R.told reader.old) (R.told reader.new) count result }
    {
        while self.near().len() < count {
            if self.fill(reader)? == 0 {
                return Ok(());
            }
        }
        Ok(())
    }

    /// Reads until a line end is in the window, and gives its place.
    pub(crate) fn line<R: Source>(&mut self, reader: &mut R) -> Result<Option<usize>, Failed>
        ensures short { length self.new.rest ≤ 64 }
        ensures answer { LineAnswer self.old self.new
            (R.told reader.old) (R.told reader.new) result }
    {
        loop {
            if let Some(end) = memchr(b'\n', self.near()) {
                return Ok(Some(end));
            }
            if self.near().len() == WINDOW {
                return Ok(None);
            }
            if self.fill(reader)? == 0 {
                return Ok(None);
            }
        }
    }

    /// Takes this many bytes: those in the window, then what is read.
    fn take<R: Source>(
        &mut self,
        alloc: Global,
        reader: &mut R,
        len: usize,
    ) -> Result<Vec<u8>, Stop>
        ensures short { length self.new.rest ≤ 64 }
        ensures answer { TakeAnswer self.old self.new
            (R.told reader.old) (R.told reader.new) len result }
    {
        let near = self.near();
        let held = near.len().min(len);
        let mut bytes = Vec::with_capacity(alloc, len)?;
        bytes.extend_from_slice(&near[..held])?;
        self.skip(held);
        fill_up(reader, &mut self.left, &mut bytes, len)?;
        if bytes.len() < len {
            return Err(Stop::Short);
        }
        Ok(bytes)
    }

    /// Takes this many bytes and the line end after them.
    pub(crate) fn part<R: Source>(
        &mut self,
        alloc: Global,
        reader: &mut R,
        len: usize,
    ) -> Result<Vec<u8>, Stop>
        ensures short { length self.new.rest ≤ 64 }
        ensures answer { PartAnswer self.old self.new
            (R.told reader.old) (R.told reader.new) len result }
    {
        let bytes = self.take(alloc, reader, len)?;
        self.reach(reader, 1)?;
        let near = self.near();
        if near.is_empty() {
            return Err(Stop::Short);
        }
        if near[0] != b'\n' {
            return Err(Stop::End);
        }
        self.skip(1);
        Ok(bytes)
    }

    /// Whether a byte follows all that may be read. It reads that byte, where no other may be
    /// read.
    pub(crate) fn is_cut<R: Source>(&self, reader: &mut R) -> Result<bool, Failed>
        ensures { CutAnswer self.now.left (R.told reader.old) (R.told reader.new) result }
    {
        if self.left > 0 {
            return Ok(false);
        }
        let mut next = [0];
        Ok(reader.pull(&mut next)? > 0)
    }
}
