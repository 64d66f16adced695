//! Blocks of a text, each a part that texts share.
//!
//! A block ends anywhere but inside a character or between CR and LF: so the line ends of a text
//! are those of its blocks, and sums add up. It keeps the places after its line ends, two bytes
//! each: searching 2 KB for the n-th line end takes 1,660 instructions. Its table is made with it,
//! since an edit that made it would search bytes that its steps do not count.

ghost use Rattle.std.specs.Prelude.{◌≡◌, ◌+◌, ◌-◌, ◌<◌, ◌≤◌, ◌^◌, ◌++◌, length, map, take, drop};
ghost use Rattle.std.specs.Prelude.{None, MatchOption, IfSome, IfOk, OnOk, OnErr, EachIndex};
ghost use Rattle.std.specs.Prelude.{slice_index};
ghost use Rattle.std.specs.List.{replace_range};
ghost use Rattle.std.specs.Str.{chars, IsUtf8, IsCharBoundary};
ghost use Rattle.std.specs.String.{string_bytes};
ghost use Rattle.lsp_text.specs.Places.{units, place_in_line};
ghost use Rattle.lsp_text.specs.Offsets.{IsOffset};
ghost use Rattle.lsp_lined.specs.Ends.{ends_in, moved_place, CanMove, IsLineEnd};
ghost use Rattle.lsp_lined.specs.Sums.{sums_of};
ghost use Rattle.lsp_text.specs.SameText.{BeginsOtherwise, due, with_feeds};
ghost use Rattle.lsp_text.specs.Spans.{CanReplace};
ghost use Rattle.lsp_lined.specs.Parts.{IsReplacedOr, KeepsEnds, IsCutPlace};

use crate::ends::{end_len_before, is_return_last, is_whole, move_places, places_of, places_up_to};
use crate::part::{LineEnd, Part, SharedPart};
use crate::sums::{Measure, Sums};
use crate::walk::Visitor;
use lsp_text::{offset_in_counted, same_back, width_of};
use lsp_types::Encoding;
use std::alloc::{AllocError, Global};
use std::marker::Model;
use std::rc::Rc;

/// The bytes of a block that is cut from a text, at most.
const FULL: usize = 2048;

/// The bytes of a block, at most.
const MOST: usize = 4096;

/// The room that an edit makes in a text is a multiple of this, less one.
const STEP: usize = 64;

/// The bytes of room that an edited text keeps unused, at most.
// Room of 4 KB from the first edit on saved 0.4 percent of the instructions of a workload, and took
// 1.7 times the memory where open documents were edited in each of their blocks.
const SPARE: usize = 192;

/// A text, the places after its line ends, and its sums.
#[derive(Drop)]
struct BlockText {
    text: String,
    places: Vec<u16>,
    sums: Sums,
    alloc: Global,
}

/// A piece of a text, which texts share. It is one pointer, so that tables of blocks are short.
#[derive(Drop)]
pub(crate) struct Block {
    text: Rc<BlockText>,
}

impl Model for Block {
    ghost use Rattle.std.specs.Prelude.{List, ℕ};
    ghost use Rattle.std.specs.String.{string_bytes};

    ghost Value = { List ℕ };

    ghost use Rattle.lsp_lined.specs.Blocks.{IsBlock};

    ghost view = { λ a. string_bytes a.text.value.text };

    ghost invariant = { IsBlock };
}

impl Part for Block {
    ghost text = { λ bytes. bytes };

    fn sums(&self) -> Sums {
        let held: &BlockText = &self.text;
        held.sums
    }

    fn line_end(&self, n: u64) -> LineEnd<'_> {
        let held: &BlockText = &self.text;
        let text = held.text.as_str();
        let after = held.places[n as usize] as usize;
        let (_, rest) = text.split_at(after);
        LineEnd {
            at: after - end_len_before(text, after),
            after,
            rest,
            is_plain: held.sums.chars == held.sums.bytes,
        }
    }

    fn offset_of(&self, encoding: Encoding, column: u64) -> Option<usize> {
        let held: &BlockText = &self.text;
        let width = held.sums.by(Measure::Units(encoding));
        if width <= column {
            return Some(held.sums.bytes as usize);
        }
        if held.sums.chars == held.sums.bytes {
            return Some(column as usize);
        }
        offset_in_counted(self.as_str(), encoding, column as u32, width as u32)
    }

    fn units_before(&self, encoding: Encoding, offset: usize) -> u64 {
        let sums = self.sums();
        if offset as u64 == sums.bytes {
            return sums.by(Measure::Units(encoding));
        }
        if sums.chars == sums.bytes {
            return offset as u64;
        }
        let (front, _) = self.as_str().split_at(offset);
        width_of(front, encoding)
    }

    fn ends_before(&self, offset: usize) -> u64 {
        let held: &BlockText = &self.text;
        places_up_to(&held.places, offset as u16) as u64
    }

    fn rest_of_block(&self, offset: usize) -> &str {
        let (_, rest) = self.as_str().split_at(offset);
        rest
    }

    fn walk<V: Visitor>(&self, from: usize, to: usize, visitor: &mut V) -> Result<(), V::Stop> {
        let (front, _) = self.as_str().split_at(to);
        let (_, piece) = front.split_at(from);
        visitor.visit(piece)
    }

    fn same_back(&self, from: usize, other: &str) -> usize {
        let (_, rest) = self.as_str().split_at(from);
        same_back(rest, other)
    }
}

impl SharedPart for Block {
    fn share(&self) -> Result<Block, AllocError> {
        Ok(Block {
            text: self.text.clone()?,
        })
    }

    fn replace(&mut self, from: usize, to: usize, inserted: &str) -> Result<bool, AllocError> {
        if inserted.len() > MOST - self.as_str().len() {
            return Ok(false);
        }
        let Some(sums) = kept_sums(self, from, to, inserted) else {
            *self = self.rebuilt(from, to, inserted)?;
            return Ok(true);
        };
        replace_shared(&mut self.text, from, to, inserted, sums)?;
        Ok(true)
    }

    fn cut(alloc: Global, whole: &str) -> Result<Vec<Block>, AllocError> {
        let mut blocks = Vec::new(alloc);
        let mut rest = whole;
        while rest.len() > FULL {
            let (block, tail) = rest.split_at(cut_place(rest));
            blocks.push(Block::new(alloc, block)?)?;
            rest = tail;
        }
        blocks.push(Block::new(alloc, rest)?)?;
        Ok(blocks)
    }

    fn between(
        alloc: Global,
        first: &Block,
        from: usize,
        inserted: &str,
        last: &Block,
        to: usize,
    ) -> Result<Vec<Block>, AllocError> {
        let (front, _) = first.as_str().split_at(from);
        let (_, back) = last.as_str().split_at(to);
        let whole = in_one(alloc, front, inserted, back)?;
        Block::cut(alloc, whole.as_str())
    }
}

impl Block {
    /// A block of a text.
    pub(crate) fn new(alloc: Global, text: &str) -> Result<Block, AllocError>
        requires { length text.now ≤ MOST }
        ensures { IfOk result (λ block. block ≡ text.now) }
    {
        let places = places_of(alloc, text)?;
        let sums = Sums::of(text, places.len());
        let held = BlockText {
            text: String::from_str(alloc, text)?,
            places,
            sums,
            alloc,
        };
        Ok(Block {
            text: Rc::new(alloc, held)?,
        })
    }

    /// Its text.
    pub(crate) fn as_str(&self) -> &str
        ensures { result.now ≡ self.now }
    {
        let held: &BlockText = &self.text;
        held.text.as_str()
    }

    /// Its text with some bytes replaced by another, of any length.
    pub(crate) fn replaced(
        &self,
        alloc: Global,
        from: usize,
        to: usize,
        text: &str,
    ) -> Result<String, AllocError>
        requires { CanReplace self.now from to }
        ensures { IfOk result (λ whole. string_bytes whole
            ≡ replace_range self.now from to text.now) }
    {
        replaced_in(alloc, self.as_str(), from, to, text)
    }

    /// The same block with some bytes replaced by a text.
    fn rebuilt(&self, from: usize, to: usize, text: &str) -> Result<Block, AllocError>
        requires can { CanReplace self.now from to }
        requires room { length self.now + length text.now ≤ MOST }
        ensures { IfOk result (λ block. block ≡ replace_range self.now from to text.now) }
    {
        let held: &BlockText = &self.text;
        let whole = self.replaced(held.alloc, from, to, text)?;
        Block::new(held.alloc, whole.as_str())
    }
}

/// The sums of a block where a text replaces some bytes, if no line end comes, goes, or
/// is joined.
fn kept_sums(block: &Block, from: usize, to: usize, text: &str) -> Option<Sums>
    requires can { CanReplace block.now from to }
    requires room { length block.now + length text.now ≤ MOST }
    ensures { IfSome result (KeepsEnds block.now from to text.now) }
{
    let (front, _) = block.as_str().split_at(to);
    let (front, removed) = front.split_at(from);
    if is_return_last(front) || !is_whole(removed) || !is_whole(text) {
        return None;
    }
    let sums = block.sums();
    Some(sums.exchanged(Sums::of(removed, 0), Sums::of(text, 0)))
}

/// Replaces some bytes of a text that others may hold too, in a text of its own,
/// which has these sums then.
fn replace_shared(
    shared: &mut Rc<BlockText>,
    from: usize,
    to: usize,
    text: &str,
    sums: Sums,
) -> Result<(), AllocError>
    requires can { CanReplace (string_bytes shared.old.value.text) from to }
    requires room { length (string_bytes shared.old.value.text) + length text.now ≤ MOST }
    requires moves { EachIndex shared.old.value.places.items
        (λ k. CanMove from (to - from) (length text.now)
        (slice_index shared.old.value.places.items k)) }
    ensures text { OnOk result (string_bytes shared.new.value.text
        ≡ replace_range (string_bytes shared.old.value.text) from to text.now) }
    ensures places { OnOk result (shared.new.value.places.items
        ≡ map (moved_place from (to - from) (length text.now)) shared.old.value.places.items) }
    ensures sums { OnOk result (shared.new.value.sums ≡ sums) }
    ensures err_text { OnErr result (string_bytes shared.new.value.text
        ≡ string_bytes shared.old.value.text) }
    ensures err_places { OnErr result (shared.new.value.places.items
        ≡ shared.old.value.places.items) }
    ensures err_sums { OnErr result (shared.new.value.sums ≡ shared.old.value.sums) }
{
    let Some(own) = Rc::get_mut(shared) else {
        return replace_copied(shared, from, to, text, sums);
    };
    replace_in_place(&mut own.text, from, to, text)?;
    move_places(
        &mut own.places,
        from as u16,
        (to - from) as u16,
        text.len() as u16,
    );
    own.sums = sums;
    Ok(())
}

/// The same where others may hold the text: in a copy, which is made with the bytes replaced.
fn replace_copied(
    shared: &mut Rc<BlockText>,
    from: usize,
    to: usize,
    text: &str,
    sums: Sums,
) -> Result<(), AllocError>
    requires can { CanReplace (string_bytes shared.old.value.text) from to }
    requires room { length (string_bytes shared.old.value.text) + length text.now ≤ MOST }
    requires moves { EachIndex shared.old.value.places.items
        (λ k. CanMove from (to - from) (length text.now)
        (slice_index shared.old.value.places.items k)) }
    ensures text { OnOk result (string_bytes shared.new.value.text
        ≡ replace_range (string_bytes shared.old.value.text) from to text.now) }
    ensures places { OnOk result (shared.new.value.places.items
        ≡ map (moved_place from (to - from) (length text.now)) shared.old.value.places.items) }
    ensures sums { OnOk result (shared.new.value.sums ≡ sums) }
    ensures err { OnErr result (shared.new.value ≡ shared.old.value) }
{
    let held: &BlockText = shared;
    let mut copy = BlockText {
        text: replaced_in(held.alloc, held.text.as_str(), from, to, text)?,
        places: Vec::from_slice(held.alloc, &held.places)?,
        sums,
        alloc: held.alloc,
    };
    move_places(
        &mut copy.places,
        from as u16,
        (to - from) as u16,
        text.len() as u16,
    );
    *shared = Rc::new(copy.alloc, copy)?;
    Ok(())
}

/// Replaces some bytes of a text by another. Its room follows its length: room that each block kept
/// for later edits would add up over many documents.
fn replace_in_place(
    whole: &mut String,
    from: usize,
    to: usize,
    text: &str,
) -> Result<(), AllocError>
    requires { CanReplace (string_bytes whole.old) from to }
    ensures ok { OnOk result (string_bytes whole.new
        ≡ replace_range (string_bytes whole.old) from to text.now) }
    ensures err { OnErr result (string_bytes whole.new ≡ string_bytes whole.old) }
{
    make_room(whole, to - from, text.len())?;
    whole.replace_range(from..to, text)?;
    give_room_back(whole);
    Ok(())
}

/// Makes room in a text, unless it has that, for its bytes once some are removed and others
/// inserted.
fn make_room(text: &mut String, removed: usize, inserted: usize) -> Result<(), AllocError>
    ensures { string_bytes text.new ≡ string_bytes text.old }
{
    let held = text.as_str().len();
    let len = held.saturating_sub(removed).saturating_add(inserted);
    if len <= text.capacity() {
        return Ok(());
    }
    text.reserve_exact(room_for(len).saturating_sub(held))
}

/// Gives room back where a text leaves much of it unused.
fn give_room_back(text: &mut String)
    ensures { string_bytes text.new ≡ string_bytes text.old }
{
    let len = text.as_str().len();
    if text.capacity().saturating_sub(len) > SPARE {
        text.shrink_to(room_for(len));
    }
}

/// A text with some bytes replaced by another, in a `String` of its own.
fn replaced_in(
    alloc: Global,
    whole: &str,
    from: usize,
    to: usize,
    text: &str,
) -> Result<String, AllocError>
    requires { CanReplace whole.now from to }
    ensures { IfOk result (λ copy. string_bytes copy ≡ replace_range whole.now from to text.now) }
{
    let (front, _) = whole.split_at(from);
    let (_, back) = whole.split_at(to);
    in_one(alloc, front, text, back)
}

/// The room for a text of so many bytes, and for a few more.
fn room_for(bytes: usize) -> usize {
    bytes | (STEP - 1)
}

/// Three texts in one.
fn in_one(alloc: Global, front: &str, text: &str, back: &str) -> Result<String, AllocError>
    ensures { IfOk result (λ whole. string_bytes whole ≡ (front.now ++ text.now) ++ back.now) }
{
    let len = front.len().saturating_add(text.len());
    let room = room_for(len.saturating_add(back.len()));
    let mut whole = String::with_capacity(alloc, room)?;
    whole.push_str(front)?;
    whole.push_str(text)?;
    whole.push_str(back)?;
    Ok(whole)
}

/// A place in a long text, at no character's inside and not between CR and LF.
fn cut_place(text: &str) -> usize
    requires { 2048 < length text.now }
    ensures most { result ≤ 2048 }
    ensures place { IsCutPlace text.now result }
{
    let at = text.floor_char_boundary(FULL);
    let bytes = text.as_bytes();
    if bytes[at - 1] == b'\r' && bytes[at] == b'\n' {
        at - 1
    } else {
        at
    }
}
