//! Frames from bytes that come in pieces (LSP 3.17, "Base Protocol").
ghost use Rattle.std.specs.Prelude.{◌≡◌, ◌≤◌, ◌<◌, ◌+◌, ◌-◌, ◌^◌, ℕ, List, [], ◌++◌, length, take};
ghost use Rattle.std.specs.Prelude.{drop, vec_len, Some, None, Err, Result, IsSome, IsOk, IfOk};
ghost use Rattle.std.specs.Prelude.{OnOk, OnErr, MatchOption, max};
ghost use Rattle.std.specs.Io.KnownBytes.{IsAtEnd};
ghost use Rattle.std.specs.Borrow.{sem};
ghost use Rattle.lsp_frame.specs.Frame.{Frames, IsStream};
ghost use Rattle.lsp_frame.specs.Decoder.{empty, pushed, FitsIn, held_of, finish_of, StandsFor};
ghost use Rattle.lsp_frame.specs.Buffer.{Advances, ReadsAhead, last_of};
ghost use Rattle.lsp_frame.specs.Pulling.{Pulls, PullFails, Misses, MissesNone, GoesPast, Passes};
ghost use Rattle.lsp_frame.specs.Pulling.{window_of};
ghost use Rattle.lsp_frame.specs.Start.{StartsWithHeader, StartsWithNone};
ghost use Rattle.lsp_frame.specs.Lending.{LendsContent};
ghost use Rattle.lsp_frame.specs.Front.{HoldsRest};

use crate::io::{Failed, Source};
use crate::limits::Limits;
use crate::start::{FrameSize, Start, start_of};
use lsp_types::{Memory, rules};
use std::alloc::{AllocError, Global};
use std::marker::Model;
use thiserror::Error;

/// How many bytes of a content that is dropped are requested from a source at once.
const WINDOW: usize = 65_536;

/// A fault of a stream of frames, by its rule:
///
/// - 101: the header part is too long;
/// - 102: a line of it is not a field;
/// - 103: it has not exactly one `Content-Length`;
/// - 104: the value of that one is not 1 to 10 decimal digits;
/// - 105: the content is too long;
/// - 106: it names a charset other than UTF-8;
/// - 107: the stream ends inside a frame.
#[derive(Clone, Copy, Debug, PartialEq, Eq, Error)]
#[error("frame fault {rule}")]
pub struct FrameFault {
    pub rule: u16,
}

/// Why a decoder took no bytes of a source.
#[derive(Clone, Copy, Debug, PartialEq, Eq, Error)]
pub enum PullFault {
    /// The source failed.
    #[error("read fault")]
    Read,
    /// Memory was refused.
    #[error("out of memory")]
    Memory,
}

impl From<AllocError> for PullFault {
    ghost use Rattle.std.specs.Prelude.{◌≡◌};
    ghost use Rattle.lsp_frame.specs.declared.decoder.PullFault.TheVariants.{Memory};

    ghost from_gives = { λ _ fault. fault ≡ Memory };

    fn from(_error: AllocError) -> PullFault {
        PullFault::Memory
    }
}

impl From<Failed> for PullFault {
    ghost use Rattle.std.specs.Prelude.{◌≡◌};
    ghost use Rattle.lsp_frame.specs.declared.decoder.PullFault.TheVariants.{Read};

    ghost from_gives = { λ _ fault. fault ≡ Read };

    fn from(_failed: Failed) -> PullFault {
        PullFault::Read
    }
}

/// A content of which the last bytes are missing: how long it is, and how many they are.
#[derive(Clone, Copy)]
pub struct Missing {
    pub content: usize,
    pub bytes: usize,
}

/// Takes the bytes of a stream in pieces of any size, and lends the contents of its frames one by
/// one.
///
/// The bytes are in one buffer, from which each content is lent. A header part is parsed once,
/// and a content is neither read nor moved while it grows. The next push gives up the bytes of the
/// frames given, and moves the rest to the front.
#[derive(Drop)]
pub struct Decoder {
    limits: Limits,
    /// The bytes pushed, and after them room for more.
    buffer: Vec<u8>,
    /// Where the bytes begin that belong to no frame given.
    start: usize,
    /// Where the bytes pushed end.
    end: usize,
    /// The size of the frame that begins there, once its header part was read.
    ahead: Option<FrameSize>,
    /// The fault that was given.
    fault: Option<u16>,
}

impl Model for Decoder {
    ghost use Rattle.std.specs.Prelude.{◌≤◌, length, take, drop, vec_len};
    ghost use Rattle.lsp_frame.specs.Decoder.{State};
    ghost use Rattle.lsp_frame.specs.Buffer.{AheadStands, FaultStands};

    ghost Value = { State };

    ghost view = { λ a. record {
      limits = a.limits;
      kept = take a.start a.buffer.items;
      rest = drop a.start (take a.end a.buffer.items);
      fault = a.fault;
      room = length a.buffer.items;
    } };

    ghost invariant = { λ a. (a.start ≤ a.end)
        × (a.end ≤ vec_len a.buffer)
        × AheadStands a.limits (drop a.start (take a.end a.buffer.items)) a.ahead
        × FaultStands a.limits (drop a.start (take a.end a.buffer.items)) a.fault };
}

/// Moves the bytes between two places to the front.
fn to_front(buffer: &mut [u8], start: usize, end: usize)
    requires { (start ≤ end) × (end ≤ length buffer.old) }
    ensures len { length buffer.new ≡ length buffer.old }
    ensures front { take (end - start) buffer.new ≡ drop start (take end buffer.old) }
{
    if start == 0 {
        return;
    }
    let rest = end - start;
    if rest <= start {
        let (front, back) = buffer.split_at_mut(start);
        front[..rest].copy_from_slice(&back[..rest]);
    } else {
        buffer.copy_within(start..end, 0);
    }
}

/// Moves the bytes between two places to the front, and makes room for this many after them. An
/// `Err` changes nothing.
fn make_room(buffer: &mut Vec<u8>, start: usize, end: usize, more: usize) -> Result<(), AllocError>
    requires places { (start ≤ end) × (end ≤ vec_len buffer.old) }
    requires more { more < 2 ^ 63 }
    ensures front { OnOk result (take (end - start) buffer.new.items
        ≡ drop start (take end buffer.old.items)) }
    ensures len { OnOk result (length buffer.new.items
        ≡ max (length buffer.old.items) (end - start + more)) }
    ensures err { OnErr result (buffer.new.items ≡ buffer.old.items) }
{
    let rest = end - start;
    if buffer.len() - rest < more {
        buffer.resize(rest + more, 0)?;
    }
    to_front(buffer, start, end);
    Ok(())
}

/// Moves the bytes between two places to the front, and puts the piece after them. An `Err`
/// changes nothing.
fn push_after(
    buffer: &mut Vec<u8>,
    start: usize,
    end: usize,
    piece: &[u8],
) -> Result<(), AllocError>
    requires { (start ≤ end) × (end ≤ vec_len buffer.old) }
    ensures len { OnOk result (length buffer.new.items
        ≡ max (length buffer.old.items) (end - start + length piece.now)) }
    ensures ok { OnOk result (take (end - start + length piece.now) buffer.new.items
        ≡ drop start (take end buffer.old.items) ++ piece.now) }
    ensures err { OnErr result (buffer.new.items ≡ buffer.old.items) }
{
    make_room(buffer, start, end, piece.len())?;
    let rest = end - start;
    buffer[rest..rest + piece.len()].copy_from_slice(piece);
    Ok(())
}

/// Takes this many bytes of a source, one window over another. It gives fewer only at its end.
fn go_past<R: Source>(source: &mut R, window: &mut [u8], most: usize) -> Result<usize, Failed>
    requires { 0 < length window.old }
    ensures { GoesPast (R.told source.old) (R.told source.new) most result }
{
    let mut past = 0;
    while past < most {
        let wanted = window.len().min(most - past);
        let count = source.pull(&mut window[..wanted])?;
        if count == 0 {
            return Ok(past);
        }
        past += count;
    }
    Ok(past)
}

/// Takes this many bytes of a source over those before a place, as [`go_past`] does.
fn go_past_before<R: Source>(
    source: &mut R,
    bytes: &mut [u8],
    start: usize,
    most: usize,
) -> Result<usize, Failed>
    requires { (0 < start) × (start ≤ length bytes.old) }
    ensures past { GoesPast (R.told source.old) (R.told source.new) most result }
    ensures rest { drop start bytes.new ≡ drop start bytes.old }
    ensures len { length bytes.new ≡ length bytes.old }
{
    go_past(source, &mut bytes[..start], most)
}

/// The same in a buffer.
fn go_past_over<R: Source>(
    source: &mut R,
    buffer: &mut Vec<u8>,
    start: usize,
    most: usize,
) -> Result<usize, Failed>
    requires { (0 < start) × (start ≤ vec_len buffer.old) }
    ensures past { GoesPast (R.told source.old) (R.told source.new) most result }
    ensures rest { drop start buffer.new.items ≡ drop start buffer.old.items }
    ensures len { length buffer.new.items ≡ length buffer.old.items }
{
    go_past_before(source, buffer, start, most)
}

impl Decoder {
    /// A decoder at the start of a stream. It takes memory from `alloc` as bytes are pushed.
    pub fn new(alloc: Global, limits: Limits) -> Decoder
        ensures value { result ≡ empty limits }
        ensures stands { StandsFor result [] [] }
    {
        Decoder {
            limits,
            buffer: Vec::new(alloc),
            start: 0,
            end: 0,
            ahead: None,
            fault: None,
        }
    }

    /// Takes the next bytes of the stream; once a fault was given, nothing. Where memory is
    /// refused, nothing changes.
    pub fn push(&mut self, piece: &[u8]) -> Result<(), Memory>
        ensures ok { OnOk result (self.new ≡ pushed self.old piece.now) }
        ensures stands { OnOk result ((bytes : List ℕ) (contents : List (List ℕ)) →
            StandsFor self.old bytes contents → StandsFor self.new (bytes ++ piece.now) contents) }
        ensures err { OnErr result (self.new ≡ self.old) }
        ensures after_fault { IsSome self.old.fault → IsOk result }

        // Where every whole frame pushed before was given, and there was no fault, one frame and
        // the piece have room.
        ensures held { OnOk result ((bytes : List ℕ) (contents : List (List ℕ)) →
            StandsFor self.old bytes contents →
            IsStream self.old.limits bytes contents self.old.rest None →
            held_of self.new ≤ self.old.limits.header + self.old.limits.content
            + length piece.now) }
    {
        self.append(piece)
    }

    /// Takes the next bytes of the stream as [`Decoder::push`] does. Where no byte is held that
    /// belongs to no frame given, it takes their buffer in place of its own, and copies
    /// nothing.
    pub fn push_owned(&mut self, piece: Vec<u8>) -> Result<(), Memory>
        ensures ok { OnOk result (FitsIn self.new (pushed self.old piece.items)) }
        ensures stands { OnOk result ((bytes : List ℕ) (contents : List (List ℕ)) →
            StandsFor self.old bytes contents
            → StandsFor self.new (bytes ++ piece.items) contents) }
        ensures err { OnErr result (self.new ≡ self.old) }
        ensures after_fault { IsSome self.old.fault → IsOk result }

        // Where every whole frame pushed before was given, and there was no fault, one frame and
        // the piece have room.
        ensures held { OnOk result ((bytes : List ℕ) (contents : List (List ℕ)) →
            StandsFor self.old bytes contents →
            IsStream self.old.limits bytes contents self.old.rest None →
            held_of self.new ≤ self.old.limits.header + self.old.limits.content
            + length piece.items) }
    {
        if self.fault.is_some() || self.start < self.end {
            return self.append(piece.as_slice());
        }
        self.start = 0;
        self.end = piece.len();
        self.buffer = piece;
        Ok(())
    }

    /// Takes the next bytes of the stream straight from a source: those that one call of it gives,
    /// at most this many, and none only at its end; once a fault was given, nothing. Where the
    /// source fails or memory is refused, no byte is taken.
    pub fn pull<R: Source>(&mut self, source: &mut R, most: u32) -> Result<usize, PullFault>
        ensures ok { IfOk result (λ n.
            Pulls self.old self.new (R.told source.old) (R.told source.new) most n) }
        ensures end { IfOk result (λ n.
            n ≡ 0 → 0 < most → self.old.fault ≡ None → IsAtEnd (R.told source.new).bytes) }
        ensures read_fault { result ≡ Err PullFault.Read →
            PullFails self.old self.new (R.told source.old) (R.told source.new) most }
        ensures memory { result ≡ Err PullFault.Memory →
            (self.new ≡ self.old) × (R.told source.new ≡ R.told source.old) }
    {
        if self.fault.is_some() {
            return Ok(0);
        }
        // The buffer keeps its length, so that nothing is zeroed before the source fills it, and
        // in a stream of frames only the unfinished frame at the end of a piece is moved. The input
        // of such a stream reads nothing ahead: that would copy every piece once more.
        make_room(&mut self.buffer, self.start, self.end, most as usize)?;
        self.end -= self.start;
        self.start = 0;
        let end = self.end + most as usize;
        let count = source.pull(&mut self.buffer[self.end..end])?;
        self.end += count;
        Ok(count)
    }

    /// The size of the frame that the rest begins with, where its header part is whole and has no
    /// fault. It is read again where no content was waited for.
    fn size_ahead(&self) -> Option<FrameSize>
        ensures { MatchOption result (StartsWithNone self.now.limits self.now.rest)
            (StartsWithHeader self.now.limits self.now.rest) }
    {
        if let Some(size) = self.ahead {
            return Some(size);
        }
        match start_of(&self.limits, &self.buffer[self.start..self.end]) {
            Start::Header(size) => Some(size),
            Start::Fault(_) | Start::Unfinished => None,
        }
    }

    /// The next content, where its header part is whole and its last bytes are missing.
    pub fn missing(&self) -> Option<Missing>
        ensures { MatchOption result (MissesNone self.now) (Misses self.now) }
    {
        if self.fault.is_some() {
            return None;
        }
        let size = self.size_ahead()?;
        let held = self.end - self.start - size.header;
        if size.content <= held {
            return None;
        }
        Some(Missing {
            content: size.content,
            bytes: size.content - held,
        })
    }

    /// Takes what is missing of the next content straight from a source, and drops this content: it
    /// is given, but not lent, and never held as a whole. `false` where the source ended before
    /// that; then nothing is given.
    pub fn pass<R: Source>(&mut self, source: &mut R, missing: Missing) -> Result<bool, PullFault>
        requires { Misses self.old missing }
        ensures { Passes self.old self.new (R.told source.old) (R.told source.new) missing result }
    {
        // Over the bytes of frames already given, nothing has to be moved.
        if missing.bytes.min(WINDOW) <= self.start {
            return self.pass_in_front(source, missing);
        }
        self.pass_behind(source, missing)
    }

    /// Does what [`Decoder::pass`] says, through a window over the bytes of frames already given.
    /// The content is moved only where the source ends before it does.
    fn pass_in_front<R: Source>(
        &mut self,
        source: &mut R,
        missing: Missing,
    ) -> Result<bool, PullFault>
        requires misses { Misses self.old missing }
        requires room { window_of missing ≤ length self.old.kept }
        ensures { Passes self.old self.new (R.told source.old) (R.told source.new) missing result }
    {
        match go_past_over(source, &mut self.buffer, self.start, missing.bytes) {
            Ok(past) if past < missing.bytes => {
                self.settle();
                Ok(false)
            }
            Ok(_) => {
                self.start = 0;
                self.end = 0;
                self.ahead = None;
                Ok(true)
            }
            Err(Failed) => {
                self.settle();
                Err(PullFault::Read)
            }
        }
    }

    /// Moves the rest to the front.
    fn settle(&mut self)
        ensures { self.new ≡ record self.old { kept = [] } }
    {
        to_front(&mut self.buffer, self.start, self.end);
        self.end -= self.start;
        self.start = 0;
    }

    /// Does what [`Decoder::pass`] says, through a window after the rest.
    fn pass_behind<R: Source>(
        &mut self,
        source: &mut R,
        missing: Missing,
    ) -> Result<bool, PullFault>
        requires { Misses self.old missing }
        ensures { Passes self.old self.new (R.told source.old) (R.told source.new) missing result }
    {
        make_room(
            &mut self.buffer,
            self.start,
            self.end,
            missing.bytes.min(WINDOW),
        )?;
        self.end -= self.start;
        self.start = 0;
        if go_past(source, &mut self.buffer[self.end..], missing.bytes)? < missing.bytes {
            return Ok(false);
        }
        self.end = 0;
        self.ahead = None;
        Ok(true)
    }

    fn append(&mut self, piece: &[u8]) -> Result<(), Memory>
        ensures ok { OnOk result (self.new ≡ pushed self.old piece.now) }
        ensures err { OnErr result (self.new ≡ self.old) }
        ensures after_fault { IsSome self.old.fault → IsOk result }
    {
        if self.fault.is_none() {
            push_after(&mut self.buffer, self.start, self.end, piece)?;
            self.end = self.end - self.start + piece.len();
            self.start = 0;
        }
        Ok(())
    }

    /// The size of the frame that the rest begins with, once its header part is whole.
    fn read_ahead(&mut self) -> Result<Option<FrameSize>, FrameFault>
        ensures { ReadsAhead self.old self.new result }
    {
        if let Some(rule) = self.fault {
            return Err(FrameFault { rule });
        }
        if let Some(size) = self.ahead {
            return Ok(Some(size));
        }
        match start_of(&self.limits, &self.buffer[self.start..self.end]) {
            Start::Header(size) => {
                self.ahead = Some(size);
                Ok(Some(size))
            }
            Start::Fault(rule) => {
                self.fault = Some(rule);
                Err(FrameFault { rule })
            }
            Start::Unfinished => Ok(None),
        }
    }

    /// Skips the next frame as [`Decoder::next`] does, and gives the length of its content,
    /// which [`Decoder::last`] lends.
    pub fn advance(&mut self) -> Result<Option<usize>, FrameFault>
        ensures { Advances self.old self.new result }
    {
        let Some(size) = self.read_ahead()? else {
            return Ok(None);
        };
        if self.end - self.start - size.header < size.content {
            return Ok(None);
        }
        self.start += size.header + size.content;
        self.ahead = None;
        Ok(Some(size.content))
    }

    /// The last bytes of the frames given since the last push: the content of the last one, at its
    /// length.
    pub fn last(&self, len: usize) -> &[u8]
        requires { len ≤ length self.now.kept }
        ensures { result.now ≡ last_of self.now.kept len }
    {
        &self.buffer[self.start - len..self.start]
    }

    /// The next content, or none where the bytes pushed hold no further frame. A fault, 101 to 106,
    /// stays.
    pub fn next(&mut self) -> Result<Option<&[u8]>, FrameFault>
        ensures* lends { sem 𝓛 (LendsContent self.entry result) }
        ensures kept_fault { (rule : ℕ) → self.old.fault ≡ Some rule
            → result ≡ Err (record { rule = rule }) }
    {
        match self.advance()? {
            None => Ok(None),
            Some(len) => Ok(Some(self.last(len))),
        }
    }

    /// The fault that was given, if any.
    pub fn fault(&self) -> Option<u16>
        ensures { result ≡ self.now.fault }
    {
        self.fault
    }

    /// How many bytes are in the buffer: those of the frames given since the last push, and those
    /// after them.
    pub fn held(&self) -> u64
        ensures { result ≡ held_of self.now }
    {
        self.end as u64
    }

    /// The bytes pushed that belong to no frame given. Where the stream ends inside a frame they
    /// are what there is of it. After a fault they begin the frame that has it, and reach at least
    /// as far as the fault is seen: to the end of its header part, or of one that is too long as
    /// many bytes as one may have. What was pushed later is not held.
    pub fn rest(&self) -> &[u8]
        ensures value { result.now ≡ self.now.rest }
        ensures stands { (bytes : List ℕ) (contents : List (List ℕ)) →
            StandsFor self.now bytes contents → HoldsRest self.now bytes contents result.now }
    {
        &self.buffer[self.start..self.end]
    }

    /// Whether the stream may end here. The fault is that which `next` gave, else 107, where a byte
    /// pushed belongs to no frame given.
    pub fn finish(&self) -> Result<(), FrameFault>
        ensures value { result ≡ finish_of self.now }
        ensures whole { OnOk result ((bytes : List ℕ) (contents : List (List ℕ)) →
            StandsFor self.now bytes contents → Frames self.now.limits bytes contents []) }
    {
        match self.fault {
            Some(rule) => Err(FrameFault { rule }),
            None if self.start == self.end => Ok(()),
            None => Err(FrameFault {
                rule: rules::STREAM_ENDS_INSIDE_FRAME,
            }),
        }
    }
}
