//! A text in blocks, and a window on it: a short text that replaces some of its bytes.
//!
//! Editors mostly make one edit near another. The first of them is made in the blocks; from the
//! second on, they are made in a window around the place, so that the chunks and blocks stay as
//! they are and copies of the text share them all: a version takes three allocations and 900
//! instructions, where a path of shared chunks takes eight and 2,400. An edit elsewhere closes the
//! window first, which puts its changed bytes into the blocks, mostly those that were typed. Which
//! bytes at its ends are unchanged is known by two numbers and not by comparing: an edit looks at
//! no byte for it that its steps do not count.

ghost use Rattle.std.specs.Prelude.{◌≡◌, ◌+◌, ◌-◌, ◌<◌, ◌≤◌, ◌^◌, ◌++◌, None, length, take};
ghost use Rattle.std.specs.Prelude.{false, IfOk, IfSome, OnOk, OnErr, IsTrue, MatchOption};
ghost use Rattle.std.specs.List.{replace_range};
ghost use Rattle.std.specs.Str.{chars, IsCharBoundary};
ghost use Rattle.std.specs.String.{string_bytes};
ghost use Rattle.lsp_text.specs.Places.{units, place_in_line};
ghost use Rattle.lsp_text.specs.Offsets.{IsOffset};
ghost use Rattle.lsp_lined.specs.Ends.{ends_in, IsLineEnd};
ghost use Rattle.lsp_lined.specs.Sums.{sums_of};
ghost use Rattle.lsp_lined.specs.Walks.{IsInOrder};
ghost use Rattle.lsp_lined.specs.Parts.{IsSeam, IsSpan};
ghost use Rattle.lsp_text.specs.Spans.{CanReplace, bytes_between};
ghost use Rattle.lsp_lined.specs.Patches.{IsPatch, AreSameEndsOf};
ghost use Rattle.lsp_lined.specs.Windows.{text_with, moved_end, nearer_end, IsWindowed, IsClosed};
ghost use Rattle.lsp_lined.specs.Windows.{CanEdit, HoldsText, HoldsTextOr, HoldsRenewedOr};

use crate::block::Block;
use crate::lined::patch::{Patch, patch_to};
use crate::lined::tree::{SHORT, Tree};
use crate::part::{LineEnd, Part, SharedPart, first_bytes};
use crate::sums::{Measure, Sums};
use crate::walk::Visitor;
use lsp_types::Encoding;
use std::alloc::{AllocError, Global};

/// The bytes that a window has before an edit when it is opened, and those after it, at least.
const BEFORE: usize = 128;

const AFTER: usize = 384;

/// The bytes of a window, at most.
const MOST: usize = 1000;

/// The bytes between two edits that are near each other, at most.
const NEAR: usize = 256;

/// A text in blocks, and the window on it: its text, and the sums of what comes before it in the
/// blocks and of what comes before the bytes after it. Also the sums of the whole, and the place of
/// the last edit in the blocks, or where the last whole text first differed.
///
/// `put` counts the bytes put into the blocks since the text was last cut: the number of blocks and
/// their room follow it. `same_front` and `same_back` are how many bytes at the ends of the window
/// are still those of the blocks: no edit has changed them since it was opened.
#[derive(Drop)]
pub(super) struct Windowed {
    pub(super) tree: Tree,
    pub(super) before: Sums,
    pub(super) skipped: Sums,
    pub(super) window: Block,
    pub(super) sums: Sums,
    last: usize,
    put: u64,
    pub(super) same_front: usize,
    pub(super) same_back: usize,
    pub(super) alloc: Global,
}

impl Windowed {
    /// A text, with no window.
    pub(super) fn of(alloc: Global, text: &str) -> Result<Windowed, AllocError>
        ensures { IfOk result (λ held. HoldsText held text.now) }
    {
        let tree = Tree::of(alloc, text)?;
        Ok(Windowed {
            before: Sums::none(),
            skipped: Sums::none(),
            window: Block::new(alloc, "")?,
            sums: tree.sums(),
            tree,
            last: 0,
            put: text.len() as u64,
            same_front: 0,
            same_back: 0,
            alloc,
        })
    }

    /// The same text with the same window, each held by one more.
    pub(super) fn share(&self) -> Result<Windowed, AllocError>
        requires { IsWindowed self.now }
        ensures { IfOk result (λ held. HoldsText held (text_with self.now)) }
    {
        Ok(Windowed {
            tree: self.tree.share()?,
            before: self.before,
            skipped: self.skipped,
            window: self.window.share()?,
            sums: self.sums,
            last: self.last,
            put: self.put,
            same_front: self.same_front,
            same_back: self.same_back,
            alloc: self.alloc,
        })
    }

    /// Makes it hold a text by replacing only what differs. Answers whether it did: not if that is
    /// more than half of the text, nor if the text is short enough for one block, nor if the blocks
    /// may have become too many or too large for it.
    pub(super) fn renew(&mut self, text: &str) -> Result<bool, AllocError>
        requires { IsWindowed self.old }
        ensures ok { IfOk result (HoldsRenewedOr (text_with self.old) text.now self.new) }
        ensures err { OnErr result (HoldsText self.new (text_with self.old)) }
    {
        if text.len() <= SHORT || (text.len() as u64) < self.put / 2 {
            return Ok(false);
        }
        self.close()?;
        let patch = patch_to(&self.tree, text);
        if patch.text.len() > text.len() / 2 {
            return Ok(false);
        }
        self.last = patch.from;
        self.put = self.put.saturating_add(patch.text.len() as u64);
        self.tree
            .edit(self.alloc, patch.from, patch.to, patch.text)?;
        self.sums = self.tree.sums();
        Ok(true)
    }

    /// Replaces some bytes by a text: in the window if the edit stays inside it, in one that is
    /// opened around the edit if that is near the last one, and else in the blocks.
    pub(super) fn replace(&mut self, from: usize, to: usize, text: &str) -> Result<(), AllocError>
        requires { CanEdit self.old from to text.now }
        ensures ok { OnOk result
            (HoldsText self.new (replace_range (text_with self.old) from to text.now)) }
        ensures err { OnErr result (HoldsText self.new (text_with self.old)) }
    {
        if self.replace_inside(from, to, text)? {
            return Ok(());
        }
        self.close()?;
        if self.replace_near(from, to, text)? {
            return Ok(());
        }
        self.close()?;
        self.replace_apart(from, to, text)
    }

    /// Replaces some bytes by a text in a window that is opened around the edit, if one is worth it
    /// and places for its ends are found. Answers whether it did.
    fn replace_near(&mut self, from: usize, to: usize, text: &str) -> Result<bool, AllocError>
        requires edit { CanEdit self.old from to text.now }
        requires closed { IsClosed self.old }
        ensures ok { IfOk result (HoldsTextOr (text_with self.old) from to text.now self.new) }
        ensures err { OnErr result (HoldsText self.new (text_with self.old)) }
    {
        if !self.is_near(from) || text.len() > NEAR || self.is_at_end(from, to) {
            return Ok(false);
        }
        if !self.open(from, to)? {
            return Ok(false);
        }
        self.replace_inside(from, to, text)
    }

    /// Whether a place is near the last edit in the blocks.
    fn is_near(&self, place: usize) -> bool {
        place <= self.last.saturating_add(NEAR) && self.last <= place.saturating_add(NEAR)
    }

    /// Whether an edit reaches the start or the end of the text, which no window's inside does.
    fn is_at_end(&self, from: usize, to: usize) -> bool {
        from == 0 || to as u64 == self.sums.bytes
    }

    /// Replaces some bytes of the window by a text, if the edit leaves the window's first and last
    /// bytes and the window stays short. Answers whether it did.
    fn replace_inside(&mut self, from: usize, to: usize, text: &str) -> Result<bool, AllocError>
        requires { CanEdit self.old from to text.now }
        ensures ok { IfOk result (HoldsTextOr (text_with self.old) from to text.now self.new) }
        ensures err { OnErr result (HoldsText self.new (text_with self.old)) }
    {
        let start = self.before.bytes as usize;
        let old = self.window.sums();
        let len = old.bytes as usize;
        if from <= start || to - start >= len || len > MOST || text.len() > MOST - len {
            return Ok(false);
        }
        if !self.window.replace(from - start, to - start, text)? {
            return Ok(false);
        }
        self.same_front = self.same_front.min(from - start);
        self.same_back = self.same_back.min(len - (to - start));
        self.sums = self.sums.exchanged(old, self.window.sums());
        Ok(true)
    }

    /// Replaces some bytes of the blocks by a text, where no window is open.
    fn replace_apart(&mut self, from: usize, to: usize, text: &str) -> Result<(), AllocError>
        requires edit { CanEdit self.old from to text.now }
        requires closed { IsClosed self.old }
        ensures ok { OnOk result
            (HoldsText self.new (replace_range (text_with self.old) from to text.now)) }
        ensures err { OnErr result (HoldsText self.new (text_with self.old)) }
    {
        self.last = from;
        self.put = self.put.saturating_add(text.len() as u64);
        self.tree.edit(self.alloc, from, to, text)?;
        self.sums = self.tree.sums();
        Ok(())
    }

    /// Closes the window, if one is open: its changed bytes are put into the blocks.
    fn close(&mut self) -> Result<(), AllocError>
        requires { IsWindowed self.old }
        ensures ok { OnOk result (HoldsText self.new (text_with self.old) × IsClosed self.new) }
        ensures err { OnErr result (HoldsText self.new (text_with self.old)) }
    {
        if self.skipped.bytes == 0 && self.window.sums().bytes == 0 {
            return Ok(());
        }
        let none = Block::new(self.alloc, "")?;
        let patch = patch_between(
            &self.tree,
            self.before.bytes as usize,
            self.skipped.bytes as usize,
            self.window.as_str(),
            self.same_front,
            self.same_back,
        );
        self.put = self.put.saturating_add(patch.text.len() as u64);
        self.tree
            .edit(self.alloc, patch.from, patch.to, patch.text)?;
        self.same_front = 0;
        self.same_back = 0;
        self.before = Sums::none();
        self.skipped = Sums::none();
        self.window = none;
        Ok(())
    }

    /// Opens a window around an edit, if places for its ends are found. Answers whether it did.
    fn open(&mut self, from: usize, to: usize) -> Result<bool, AllocError>
        requires held { IsWindowed self.old }
        requires can { CanReplace (text_with self.old) from to }
        requires closed { IsClosed self.old }
        ensures { HoldsText self.new (text_with self.old) }
    {
        let (Some(start), Some(end)) = (seam_before(&self.tree, from), seam_after(&self.tree, to))
        else {
            return Ok(false);
        };
        if from < start || end < to || end - start > MOST {
            return Ok(false);
        }
        let mut text = String::with_capacity(self.alloc, end - start)?;
        self.tree.walk(start, end, &mut text)?;
        let window = Block::new(self.alloc, text.as_str())?;
        self.before = sums_before(&self.tree, start);
        self.skipped = self.before.with(window.sums());
        self.window = window;
        self.same_front = from - start;
        self.same_back = end - to;
        Ok(true)
    }

    /// Its line end `n`, of which there are more.
    pub(super) fn line_end(&self, n: u64) -> LineEnd<'_>
        requires held { IsWindowed self.now }
        requires some { n < ends_in (text_with self.now) }
        ensures { IsLineEnd (text_with self.now) n result }
    {
        if n < self.before.ends {
            return up_to_place(self.tree.line_end(n), self.before.bytes as usize);
        }
        let n = n - self.before.ends;
        let sums = self.window.sums();
        let start = self.before.bytes as usize;
        if n < sums.ends {
            return moved(self.window.line_end(n), 0, start);
        }
        let end = self.tree.line_end(n - sums.ends + self.skipped.ends);
        moved(
            end,
            self.skipped.bytes as usize,
            start + sums.bytes as usize,
        )
    }

    /// The bytes before a column, as if the text were one line, or `None` where it lies inside a
    /// character.
    pub(super) fn offset_of(&self, encoding: Encoding, column: u64) -> Option<usize>
        requires held { IsWindowed self.now }
        requires within { column < units encoding (chars (text_with self.now)) }
        ensures { MatchOption result
            (place_in_line encoding (chars (text_with self.now)) column ≡ None)
            (IsOffset encoding (text_with self.now) column) }
    {
        let by = Measure::Units(encoding);
        if column < self.before.by(by) {
            return self.tree.offset_of(encoding, column);
        }
        let column = column - self.before.by(by);
        let sums = self.window.sums();
        let start = self.before.bytes as usize;
        if column < sums.by(by) {
            return Some(start + self.window.offset_of(encoding, column)?);
        }
        let offset = self
            .tree
            .offset_of(encoding, column - sums.by(by) + self.skipped.by(by))?;
        Some(offset - self.skipped.bytes as usize + (start + sums.bytes as usize))
    }

    /// The units before a place.
    pub(super) fn units_before(&self, encoding: Encoding, place: usize) -> u64
        requires held { IsWindowed self.now }
        requires boundary { IsCharBoundary (text_with self.now) place }
        ensures { result ≡ units encoding (chars (take place (text_with self.now))) }
    {
        let by = Measure::Units(encoding);
        let start = self.before.bytes as usize;
        if place < start {
            return self.tree.units_before(encoding, place);
        }
        let sums = self.window.sums();
        let place = place - start;
        let len = sums.bytes as usize;
        if place < len {
            return self.before.by(by) + self.window.units_before(encoding, place);
        }
        let whole = self
            .tree
            .units_before(encoding, place - len + self.skipped.bytes as usize);
        whole - self.skipped.by(by) + (self.before.by(by) + sums.by(by))
    }

    /// Has a visitor see the text.
    ///
    /// # Errors
    /// Why the visitor stopped.
    pub(super) fn walk<V: Visitor>(&self, visitor: &mut V) -> Result<(), V::Stop>
        requires order { IsInOrder V.sees V.stops }
        requires held { IsWindowed self.now }
        ensures ok { OnOk result (V.sees visitor.old (text_with self.now) visitor.new) }
        ensures err { OnErr result (V.stops visitor.old (text_with self.now) visitor.new) }
    {
        let tree = &self.tree;
        tree.walk(0, self.before.bytes as usize, visitor)?;
        visitor.visit(self.window.as_str())?;
        tree.walk(
            self.skipped.bytes as usize,
            tree.sums().bytes as usize,
            visitor,
        )
    }
}

/// The patch that puts a window's text in the place of some bytes of the blocks, without the
/// unchanged bytes at its ends.
fn patch_between<'a>(
    tree: &Tree,
    from: usize,
    to: usize,
    text: &'a str,
    front: usize,
    back: usize,
) -> Patch<'a>
    requires span { IsSpan tree.now from to }
    requires same { AreSameEndsOf (bytes_between tree.now from to) text.now front back }
    ensures { IsPatch tree.now from to text.now result }
{
    let (middle, _) = text.split_at(text.len() - back);
    let (_, middle) = middle.split_at(front);
    Patch {
        from: from + front,
        to: to - back,
        text: middle,
    }
}

/// A line end before a place, with no more of what follows it than up to there.
fn up_to_place(end: LineEnd<'_>, place: usize) -> LineEnd<'_>
    requires within { end.after ≤ place }
    requires boundary { place - end.after < length end.rest.now
        → IsCharBoundary end.rest.now (place - end.after) }
    ensures at { result.at ≡ end.entry.at }
    ensures after { result.after ≡ end.entry.after }
    ensures rest { result.rest.now ≡ take (place - end.entry.after) end.entry.rest.now }
    ensures plain { result.is_plain ≡ end.entry.is_plain }
{
    LineEnd {
        at: end.at,
        after: end.after,
        rest: first_bytes(end.rest, place - end.after),
        is_plain: end.is_plain,
    }
}

/// A line end this many bytes nearer, and then so many further.
fn moved(end: LineEnd<'_>, nearer: usize, further: usize) -> LineEnd<'_>
    requires at { nearer ≤ end.at }
    requires order { end.at ≤ end.after }
    requires fits { end.after - nearer + further < 2 ^ 64 }
    ensures { result ≡ moved_end further (nearer_end nearer end.entry) }
{
    LineEnd {
        at: end.at - nearer + further,
        after: end.after - nearer + further,
        rest: end.rest,
        is_plain: end.is_plain,
    }
}

/// The sums of what comes before a place.
fn sums_before(tree: &Tree, place: usize) -> Sums
    requires { IsSeam tree.now place }
    ensures { result ≡ sums_of (take place tree.now) }
{
    Sums {
        ends: tree.ends_before(place),
        bytes: place as u64,
        chars: tree.units_before(Encoding::Utf32, place),
        utf16: tree.units_before(Encoding::Utf16, place),
    }
}

/// A place before another at which a text may be cut, if one is found near by.
fn seam_before(tree: &Tree, place: usize) -> Option<usize>
    ensures { IfSome result (IsSeam tree.now) }
{
    let len = tree.sums().bytes as usize;
    if place.min(len) <= BEFORE {
        return Some(0);
    }
    seam_from(tree, place - BEFORE)
}

/// A place after another at which a text may be cut, if one is found near by.
fn seam_after(tree: &Tree, place: usize) -> Option<usize>
    ensures { IfSome result (IsSeam tree.now) }
{
    let len = tree.sums().bytes as usize;
    if len.saturating_sub(place) <= AFTER {
        return Some(len);
    }
    seam_from(tree, place + AFTER)
}

/// A place at which a text may be cut, this or one of the three after it, if one of them is before
/// a character that is no LF.
fn seam_from(tree: &Tree, place: usize) -> Option<usize>
    ensures { IfSome result (IsSeam tree.now) }
{
    for more in 0..4 {
        let at = place.saturating_add(more);
        if is_seam(tree, at) {
            return Some(at);
        }
    }
    None
}

/// Whether a character begins at a place, and is no LF.
fn is_seam(tree: &Tree, place: usize) -> bool
    ensures { IsTrue result → IsSeam tree.now place }
{
    let Some(at) = tree.offset_of(Encoding::Utf8, place as u64) else {
        return false;
    };
    if at != place {
        return false;
    }
    let rest = tree.rest_of_block(place).as_bytes();
    rest.len() > 0 && rest[0] != b'\n'
}
