//! Parts of a text, one after another: the blocks of a chunk, and the chunks of a text.

ghost use Rattle.std.specs.Prelude.{◌≡◌, ◌+◌, ◌-◌, ◌<◌, ◌≤◌, ◌^◌, ◌++◌, ℕ, List, length, take, map};
ghost use Rattle.std.specs.Prelude.{drop, None, MatchOption, IfSome, IfOk, OnOk, OnErr};
ghost use Rattle.std.specs.List.{replace_range, splice};
ghost use Rattle.std.specs.Str.{chars, IsUtf8, IsCharBoundary};
ghost use Rattle.lsp_text.specs.Places.{units, place_in_line};
ghost use Rattle.lsp_text.specs.Offsets.{IsOffset};
ghost use Rattle.lsp_lined.specs.Ends.{ends_in, IsLineEnd, IsRest};
ghost use Rattle.lsp_lined.specs.Sums.{sums_of};
ghost use Rattle.lsp_text.specs.Parting.{AreSameFrom};
ghost use Rattle.lsp_lined.specs.Walks.{IsInOrder};
ghost use Rattle.lsp_lined.specs.Parts.{joined, MakeUp, AreParts, IsReplacedOr};
ghost use Rattle.lsp_lined.specs.Parts.{CanReplaceIn, IsReplacedIn, IsReplacedInOr, IsFound};
ghost use Rattle.lsp_lined.specs.Parts.{IsFoundBefore, IsSpot, IsSeam, IsSpan};
ghost use Rattle.lsp_text.specs.Spans.{CanReplace, bytes_between};

use crate::sums::{Measure, Sums};
use crate::walk::Visitor;
use lsp_types::Encoding;
use std::alloc::{AllocError, Global};

/// A line end of a text: the bytes before it, those up to after it, and the rest of its block.
#[derive(Clone, Copy)]
pub(crate) struct LineEnd<'a> {
    pub(crate) at: usize,
    pub(crate) after: usize,
    pub(crate) rest: &'a str,
    // Whether the block's characters have one byte each.
    pub(crate) is_plain: bool,
}

/// A part of a text.
pub(crate) trait Part: Drop {
    /// Its bytes.
    ghost text: { Self → List ℕ };

    /// Its sums.
    fn sums(&self) -> Sums
        ensures sums { result ≡ sums_of (text self.now) }
        ensures utf8 { IsUtf8 (text self.now) };

    /// Its line end `n`, of which there are more.
    fn line_end(&self, n: u64) -> LineEnd<'_>
        requires { n < ends_in (text self.now) }
        ensures { IsLineEnd (text self.now) n result };

    /// The bytes before a column, as if the part were one line, or `None` where it lies inside a
    /// character.
    fn offset_of(&self, encoding: Encoding, column: u64) -> Option<usize>
        ensures { MatchOption result (place_in_line encoding (chars (text self.now)) column ≡ None)
            (IsOffset encoding (text self.now) column) };

    /// The units before a place.
    fn units_before(&self, encoding: Encoding, offset: usize) -> u64
        requires { IsCharBoundary (text self.now) offset }
        ensures { result ≡ units encoding (chars (take offset (text self.now))) };

    /// The line ends before a place, which is not between CR and LF.
    fn ends_before(&self, offset: usize) -> u64
        requires { IsSeam (text self.now) offset }
        ensures { result ≡ ends_in (take offset (text self.now)) };

    /// What comes after a place in its block.
    fn rest_of_block(&self, offset: usize) -> &str
        requires { IsCharBoundary (text self.now) offset }
        ensures { IsRest (drop offset (text self.now)) result.now };

    /// Has a visitor see the bytes from one place to another, block by block.
    ///
    /// # Errors
    /// Why the visitor stopped.
    fn walk<V: Visitor>(&self, from: usize, to: usize, visitor: &mut V) -> Result<(), V::Stop>
        requires order { IsInOrder V.sees V.stops }
        requires span { IsSpan (text self.now) from to }
        ensures ok { OnOk result
            (V.sees visitor.old (bytes_between (text self.now) from to) visitor.new) }
        ensures err { OnErr result
            (V.stops visitor.old (bytes_between (text self.now) from to) visitor.new) };

    /// How many bytes at its end, after a place, a text ends with too. They begin with a whole
    /// character.
    fn same_back(&self, from: usize, other: &str) -> usize
        requires { IsCharBoundary (text self.now) from }
        ensures same { AreSameFrom (text self.now) other.now result }
        ensures within { from + result ≤ length (text self.now) };
}

/// A part that texts share, and that edits replace and cut.
pub(crate) trait SharedPart: Part {
    /// The same part, held by one more.
    fn share(&self) -> Result<Self, AllocError>
        ensures { IfOk result (λ part. part ≡ self.now) };

    /// Replaces some bytes by a text, in a part of its own, if it has room. Answers
    /// whether it did.
    fn replace(&mut self, from: usize, to: usize, inserted: &str) -> Result<bool, AllocError>
        requires can { CanReplace (Self.text self.old) from to }
        requires fits { length (replace_range (Self.text self.old) from to inserted.now) < 2 ^ 64 }
        ensures ok { IfOk result
            (IsReplacedOr (Self.text self.old) from to inserted.now (Self.text self.new)) }
        ensures err { OnErr result (Self.text self.new ≡ Self.text self.old) };

    /// A text in parts.
    fn cut(alloc: Global, whole: &str) -> Result<Vec<Self>, AllocError>
        ensures { IfOk result (λ parts. MakeUp (map Self.text parts.items) whole.now) };

    /// The first bytes of a part, a text, and the bytes of a part from one on, in parts.
    fn between(
        alloc: Global,
        first: &Self,
        from: usize,
        inserted: &str,
        last: &Self,
        to: usize,
    ) -> Result<Vec<Self>, AllocError>
        requires from { IsCharBoundary (Self.text first.now) from }
        requires to { IsCharBoundary (Self.text last.now) to }
        requires fits { length ((take from (Self.text first.now) ++ inserted.now)
            ++ drop to (Self.text last.now)) < 2 ^ 64 }
        ensures { IfOk result (λ parts. MakeUp (map Self.text parts.items)
            ((take from (Self.text first.now) ++ inserted.now)
            ++ drop to (Self.text last.now))) };
}

/// A part in which a number of some measure falls: its index, the bytes before it, and what is left
/// of the number.
#[derive(Clone, Copy)]
pub(crate) struct Found {
    pub(crate) index: usize,
    pub(crate) bytes: usize,
    pub(crate) left: u64,
}

/// The part in which number `at` of a measure falls, or the last.
pub(crate) fn find<T: Part>(parts: &[T], by: Measure, at: u64) -> Found
    requires some { 0 < length parts.now }
    requires fits { length (joined (map T.text parts.now)) < 2 ^ 64 }
    ensures { IsFound (map T.text parts.now) by at result }
{
    let mut index = 0;
    let mut bytes = 0;
    let mut left = at;
    while index + 1 < parts.len() {
        let sums = parts[index].sums();
        if left < sums.by(by) {
            break;
        }
        left -= sums.by(by);
        bytes += sums.bytes as usize;
        index += 1;
    }
    Found { index, bytes, left }
}

/// The part that the byte before a place is in, and the place there.
pub(crate) fn find_before<T: Part>(parts: &[T], place: usize) -> Found
    requires some { 0 < length parts.now }
    requires fits { length (joined (map T.text parts.now)) < 2 ^ 64 }
    requires within { place ≤ length (joined (map T.text parts.now)) }
    ensures { IsFoundBefore (map T.text parts.now) place result }
{
    let before = place.saturating_sub(1);
    let found = find(parts, Measure::Units(Encoding::Utf8), before as u64);
    Found {
        index: found.index,
        bytes: found.bytes,
        left: found.left + (place - before) as u64,
    }
}

/// The part that an edit stays in, and from where to where it goes there.
#[derive(Clone, Copy)]
pub(crate) struct Spot {
    pub(crate) index: usize,
    pub(crate) from: usize,
    pub(crate) to: usize,
}

/// The part that an edit stays in, if it leaves the part's first and last bytes before and after
/// others.
pub(crate) fn spot_in<T: Part>(parts: &[T], from: usize, to: usize) -> Option<Spot>
    requires some { 0 < length parts.now }
    requires fits { length (joined (map T.text parts.now)) < 2 ^ 64 }
    requires order { from ≤ to }
    requires within { to ≤ length (joined (map T.text parts.now)) }
    ensures { IfSome result (IsSpot (map T.text parts.now) from to) }
{
    let found = find_before(parts, from);
    let first = found.left as usize;
    let last = first + (to - from);
    let len = parts[found.index].sums().bytes as usize;
    if last > len || (last == len && found.index + 1 < parts.len()) {
        return None;
    }
    Some(Spot {
        index: found.index,
        from: first,
        to: last,
    })
}

/// Replaces some bytes of one part by a text, if the edit stays in one that has room.
/// Answers the new sums if it did.
pub(crate) fn replace_in<T: SharedPart>(
    parts: &mut Vec<T>,
    sums: Sums,
    from: usize,
    to: usize,
    inserted: &str,
) -> Result<Option<Sums>, AllocError>
    requires { CanReplaceIn (map T.text parts.old.items) sums from to inserted.now }
    ensures ok { IfOk result
        (IsReplacedInOr (map T.text parts.old.items) from to inserted.now
        (map T.text parts.new.items)) }
    ensures err { OnErr result (map T.text parts.new.items ≡ map T.text parts.old.items) }
{
    let Some(spot) = spot_in(parts, from, to) else {
        return Ok(None);
    };
    let old = parts[spot.index].sums();
    if !parts[spot.index].replace(spot.from, spot.to, inserted)? {
        return Ok(None);
    }
    let new = parts[spot.index].sums();
    Ok(Some(sums.exchanged(old, new)))
}

/// Replaces some bytes of parts by a text, in one part where it can. Answers the sums of all.
pub(crate) fn replace_in_parts<T: SharedPart>(
    alloc: Global,
    parts: &mut Vec<T>,
    sums: Sums,
    from: usize,
    to: usize,
    text: &str,
) -> Result<Sums, AllocError>
    requires { CanReplaceIn (map T.text parts.old.items) sums from to text.now }
    ensures ok { IfOk result (IsReplacedIn (map T.text parts.old.items) from to text.now
        (map T.text parts.new.items)) }
    ensures err { OnErr result (map T.text parts.new.items ≡ map T.text parts.old.items) }
{
    match replace_in(parts, sums, from, to, text)? {
        Some(sums) => Ok(sums),
        None => rebuild(alloc, parts, from, to, text),
    }
}

/// The same with parts that are cut again.
fn rebuild<T: SharedPart>(
    alloc: Global,
    parts: &mut Vec<T>,
    from: usize,
    to: usize,
    text: &str,
) -> Result<Sums, AllocError>
    requires { CanReplaceIn (map T.text parts.old.items)
        (sums_of (joined (map T.text parts.old.items))) from to text.now }
    ensures ok { IfOk result (IsReplacedIn (map T.text parts.old.items) from to text.now
        (map T.text parts.new.items)) }
    ensures err { OnErr result (parts.new.items ≡ parts.old.items) }
{
    let a = find_before(parts, from);
    let b = find(parts, Measure::Units(Encoding::Utf8), to as u64);
    let fresh = T::between(
        alloc,
        &parts[a.index],
        a.left as usize,
        text,
        &parts[b.index],
        b.left as usize,
    )?;
    put(parts, a.index, b.index + 1, fresh)?;
    Ok(sums_in(parts))
}

/// Replaces by parts those from `first` up to `end`.
fn put<T: SharedPart>(
    parts: &mut Vec<T>,
    first: usize,
    end: usize,
    fresh: Vec<T>,
) -> Result<(), AllocError>
    requires order { first ≤ end }
    requires within { end ≤ length parts.old.items }
    ensures ok { OnOk result (parts.new.items ≡ splice parts.old.items first end fresh.items) }
    ensures err { OnErr result (parts.new.items ≡ parts.old.items) }
{
    parts.splice(first..end, fresh)?;
    Ok(())
}

/// The sums of parts.
pub(crate) fn sums_in<T: Part>(parts: &[T]) -> Sums
    requires parts { AreParts (map T.text parts.now) }
    requires fits { length (joined (map T.text parts.now)) < 2 ^ 64 }
    ensures { result ≡ sums_of (joined (map T.text parts.now)) }
{
    let mut sums = Sums::none();
    for part in parts {
        sums = sums.with(part.sums());
    }
    sums
}

/// Line end `n` of parts, of which there are more.
pub(crate) fn line_end_in<T: Part>(parts: &[T], n: u64) -> LineEnd<'_>
    requires parts { AreParts (map T.text parts.now) }
    requires some { n < ends_in (joined (map T.text parts.now)) }
    requires fits { length (joined (map T.text parts.now)) < 2 ^ 64 }
    ensures { IsLineEnd (joined (map T.text parts.now)) n result }
{
    let found = find(parts, Measure::Ends, n);
    let end = parts[found.index].line_end(found.left);
    LineEnd {
        at: found.bytes + end.at,
        after: found.bytes + end.after,
        rest: end.rest,
        is_plain: end.is_plain,
    }
}

/// The bytes before a column, as if the parts were one line, or `None` where it lies inside a
/// character.
pub(crate) fn offset_in<T: Part>(parts: &[T], encoding: Encoding, column: u64) -> Option<usize>
    requires parts { AreParts (map T.text parts.now) }
    requires some { 0 < length parts.now }
    requires fits { length (joined (map T.text parts.now)) < 2 ^ 64 }
    ensures { MatchOption result
        (place_in_line encoding (chars (joined (map T.text parts.now))) column ≡ None)
        (IsOffset encoding (joined (map T.text parts.now)) column) }
{
    let found = find(parts, Measure::Units(encoding), column);
    let offset = parts[found.index].offset_of(encoding, found.left)?;
    Some(found.bytes + offset)
}

/// The units before a place in parts.
pub(crate) fn units_before_in<T: Part>(parts: &[T], encoding: Encoding, offset: usize) -> u64
    requires parts { AreParts (map T.text parts.now) }
    requires some { 0 < length parts.now }
    requires fits { length (joined (map T.text parts.now)) < 2 ^ 64 }
    requires boundary { IsCharBoundary (joined (map T.text parts.now)) offset }
    ensures { result ≡ units encoding (chars (take offset (joined (map T.text parts.now)))) }
{
    let found = find(parts, Measure::Units(Encoding::Utf8), offset as u64);
    let before = sums_in(&parts[..found.index]).by(Measure::Units(encoding));
    before + parts[found.index].units_before(encoding, found.left as usize)
}

/// The line ends before a place in parts, which is not between CR and LF.
pub(crate) fn ends_before_in<T: Part>(parts: &[T], offset: usize) -> u64
    requires parts { AreParts (map T.text parts.now) }
    requires some { 0 < length parts.now }
    requires fits { length (joined (map T.text parts.now)) < 2 ^ 64 }
    requires seam { IsSeam (joined (map T.text parts.now)) offset }
    ensures { result ≡ ends_in (take offset (joined (map T.text parts.now))) }
{
    let found = find(parts, Measure::Units(Encoding::Utf8), offset as u64);
    let before = sums_in(&parts[..found.index]);
    before.ends + parts[found.index].ends_before(found.left as usize)
}

/// What comes after a place in its block.
pub(crate) fn rest_in<T: Part>(parts: &[T], offset: usize) -> &str
    requires parts { AreParts (map T.text parts.now) }
    requires some { 0 < length parts.now }
    requires fits { length (joined (map T.text parts.now)) < 2 ^ 64 }
    requires boundary { IsCharBoundary (joined (map T.text parts.now)) offset }
    ensures { IsRest (drop offset (joined (map T.text parts.now))) result.now }
{
    let found = find(parts, Measure::Units(Encoding::Utf8), offset as u64);
    parts[found.index].rest_of_block(found.left as usize)
}

/// Has a visitor see the bytes of parts from one place to another, in order.
pub(crate) fn walk_in<T: Part, V: Visitor>(
    parts: &[T],
    from: usize,
    to: usize,
    visitor: &mut V,
) -> Result<(), V::Stop>
    requires order { IsInOrder V.sees V.stops }
    requires parts { AreParts (map T.text parts.now) }
    requires some { 0 < length parts.now }
    requires span { IsSpan (joined (map T.text parts.now)) from to }
    ensures ok { OnOk result
        (V.sees visitor.old (bytes_between (joined (map T.text parts.now)) from to) visitor.new) }
    ensures err { OnErr result
        (V.stops visitor.old (bytes_between (joined (map T.text parts.now)) from to) visitor.new) }
{
    let found = find(parts, Measure::Units(Encoding::Utf8), from as u64);
    let mut index = found.index;
    let mut start = found.bytes;
    let mut at = from;
    while at < to {
        let part = &parts[index];
        let len = part.sums().bytes as usize;
        let last = len.min(to - start);
        part.walk(at - start, last, visitor)?;
        at = start + last;
        start += len;
        index += 1;
    }
    Ok(())
}

/// How many bytes at the end of parts, after a place, a text ends with too. They begin with a whole
/// character.
pub(crate) fn same_back_in<T: Part>(parts: &[T], from: usize, other: &str) -> usize
    requires parts { AreParts (map T.text parts.now) }
    requires fits { length (joined (map T.text parts.now)) < 2 ^ 64 }
    requires boundary { IsCharBoundary (joined (map T.text parts.now)) from }
    ensures same { AreSameFrom (joined (map T.text parts.now)) other.now result }
    ensures within { from + result ≤ length (joined (map T.text parts.now)) }
{
    let len = sums_in(parts).bytes as usize;
    let mut index = parts.len();
    let mut start = len;
    let mut same = 0;
    while from < start && same == len - start {
        index -= 1;
        let size = parts[index].sums().bytes as usize;
        start -= size;
        let (front, _) = other.split_at(other.len() - same);
        same += parts[index].same_back(from.saturating_sub(start), front);
    }
    same
}

/// Puts the same parts after others, each held by one more.
pub(crate) fn share_into<T: SharedPart>(to: &mut Vec<T>, parts: &[T]) -> Result<(), AllocError>
    ensures { OnOk result (to.new.items ≡ to.old.items ++ parts.now) }
{
    to.reserve(parts.len())?;
    for part in parts {
        to.push_reserved(part.share()?);
    }
    Ok(())
}

/// The first bytes of a text, or all where it has no more.
pub(crate) fn first_bytes(text: &str, most: usize) -> &str
    requires { most < length text.now → IsCharBoundary text.now most }
    ensures { result.now ≡ take most text.now }
{
    if text.len() <= most {
        return text;
    }
    let (front, _) = text.split_at(most);
    front
}
