//! A generated document, kept in blocks, so that an edit moves few bytes.
ghost use Rattle.std.specs.Prelude.{◌≤◌, length};

use crate::random::Random;
use crate::words::{Script, push_quoted, push_words};
use std::alloc::{AllocError, Global};
use std::simd::prelude::*;

/// About how many bytes a block has.
const BLOCK: usize = 2_500;

/// How many bytes are counted together.
const LANES: usize = 16;

/// A part of a text.
#[derive(Drop)]
struct Block {
    text: Vec<u8>,
    /// The text as it stands inside a JSON string, unless it changed since.
    quoted: Vec<u8>,
    is_changed: bool,
    /// How many line ends it has.
    ends: usize,
    /// How many UTF-16 units it has.
    units: usize,
}

/// A place in a document.
#[derive(Clone, Copy)]
pub(crate) struct Place {
    block: usize,
    /// How many bytes of the block come before it.
    offset: usize,
    pub(crate) line: usize,
    /// How many UTF-16 units of the line come before it.
    pub(crate) character: usize,
}

/// The front of a document.
pub(crate) const FRONT: Place = Place {
    block: 0,
    offset: 0,
    line: 0,
    character: 0,
};

/// A document that is open, as its editor shows it.
#[derive(Drop)]
pub(crate) struct Document {
    pub(crate) uri: String,
    pub(crate) version: i32,
    blocks: Vec<Block>,
}

/// How many UTF-16 units the character has that begins with this byte; none where none begins.
fn units_of(byte: u8) -> usize {
    match byte {
        0x80..=0xbf => 0,
        0xf0..=0xff => 2,
        _ => 1,
    }
}

/// How many UTF-16 units the text has.
fn count_units(text: &[u8]) -> usize {
    let mut units: usize = 0;
    for lanes in text.chunks(LANES) {
        units = units.saturating_add(units_in(lanes));
    }
    units
}

fn units_in(lanes: &[u8]) -> usize {
    if lanes.len() == LANES {
        let lanes = u8x16::from_slice(lanes);
        if lanes.simd_lt(u8x16::splat(0x80)).all() {
            return LANES;
        }
    }
    let mut units: usize = 0;
    for byte in lanes {
        units = units.saturating_add(units_of(*byte));
    }
    units
}

/// How many LF the text has.
fn count_ends(text: &[u8]) -> usize {
    let mut ends: usize = 0;
    for lanes in text.chunks(LANES) {
        ends = ends.saturating_add(ends_in(lanes));
    }
    ends
}

fn ends_in(lanes: &[u8]) -> usize {
    if lanes.len() == LANES {
        let found = u8x16::from_slice(lanes).simd_eq(u8x16::splat(b'\n'));
        return found.to_bitmask().count_ones() as usize;
    }
    lanes.iter().filter(|byte| **byte == b'\n').count()
}

/// Puts bytes at an offset.
fn insert_bytes(text: &mut Vec<u8>, offset: usize, bytes: &[u8]) -> Result<(), AllocError>
    requires { offset ≤ length text.old.items }
{
    let len = text.len();
    text.extend_from_slice(bytes)?;
    text.copy_within(offset..len, offset + bytes.len());
    text[offset..offset + bytes.len()].copy_from_slice(bytes);
    Ok(())
}

/// Takes out the bytes between two offsets.
fn remove_bytes(text: &mut Vec<u8>, start: usize, end: usize)
    requires order { start ≤ end }
    requires within { end ≤ length text.old.items }
{
    let len = text.len();
    text.copy_within(end..len, start);
    text.truncate(start + (len - end));
}

impl Block {
    /// The last place before this offset where a character begins that is no CR, or the front.
    fn boundary(&self, offset: usize) -> usize {
        let front = &self.text[..offset.min(self.text.len())];
        let begins = |byte: &u8| *byte != b'\r' && *byte != b'\n' && units_of(*byte) > 0;
        front.iter().rposition(begins).unwrap_or(0)
    }

    fn insert(&mut self, offset: usize, bytes: &[u8]) -> Result<(), AllocError> {
        let offset = offset.min(self.text.len());
        self.is_changed = true;
        self.ends = self.ends.saturating_add(count_ends(bytes));
        self.units = self.units.saturating_add(count_units(bytes));
        insert_bytes(&mut self.text, offset, bytes)
    }

    fn remove(&mut self, start: usize, end: usize) {
        let end = end.min(self.text.len());
        let start = start.min(end);
        let taken = &self.text[start..end];
        self.is_changed = true;
        self.ends = self.ends.saturating_sub(count_ends(taken));
        self.units = self.units.saturating_sub(count_units(taken));
        remove_bytes(&mut self.text, start, end);
    }

    /// Brings the quoted text up to date.
    fn quote(&mut self) -> Result<(), AllocError> {
        if self.is_changed {
            self.quoted.clear();
            push_quoted(&mut self.quoted, &self.text)?;
            self.is_changed = false;
        }
        Ok(())
    }
}

/// Lines that documents are made of, each made once.
#[derive(Drop)]
pub(crate) struct Lines {
    plain: Vec<Vec<u8>>,
    quoted: Vec<Vec<u8>>,
}

/// How many lines are held.
const HELD: usize = 256;

impl Lines {
    /// Lines of words, indented as source text is, or without line ends.
    pub(crate) fn new(
        alloc: Global,
        random: &mut Random,
        script: &Script,
        is_line: bool,
    ) -> Result<Lines, AllocError> {
        let mut lines = Lines {
            plain: Vec::new(alloc),
            quoted: Vec::new(alloc),
        };
        let end = if is_line { "" } else { script.line_end() };
        for _ in 0..HELD {
            let mut line = Vec::new(alloc);
            let indent = random.below(4);
            line.extend_from_slice(&b"            "[..4 * indent])?;
            let width = random.between(10, 60);
            push_words(&mut line, random, script, width)?;
            line.extend_from_slice(end.as_bytes())?;
            let mut quoted = Vec::new(alloc);
            push_quoted(&mut quoted, &line)?;
            lines.plain.push(line)?;
            lines.quoted.push(quoted)?;
        }
        Ok(lines)
    }

    /// A block of some of the lines.
    fn block(&self, alloc: Global, random: &mut Random) -> Result<Block, AllocError> {
        let mut text = Vec::with_capacity(alloc, BLOCK + BLOCK / 4)?;
        let mut quoted = Vec::with_capacity(alloc, BLOCK + BLOCK / 2)?;
        for _ in 0..BLOCK {
            if text.len() >= BLOCK {
                break;
            }
            let line = random.below(HELD);
            if let (Some(plain), Some(escaped)) = (self.plain.get(line), self.quoted.get(line)) {
                text.extend_from_slice(plain)?;
                quoted.extend_from_slice(escaped)?;
            }
        }
        let ends = count_ends(&text);
        let units = count_units(&text);
        Ok(Block {
            text,
            quoted,
            is_changed: false,
            ends,
            units,
        })
    }
}

impl Document {
    /// A document of about this many bytes.
    pub(crate) fn new(
        alloc: Global,
        random: &mut Random,
        uri: String,
        lines: &Lines,
        bytes: usize,
    ) -> Result<Document, AllocError> {
        let mut blocks = Vec::new(alloc);
        for _ in 0..=bytes / BLOCK {
            blocks.push(lines.block(alloc, random)?)?;
        }
        Ok(Document {
            uri,
            version: 1,
            blocks,
        })
    }

    /// How many bytes of UTF-8 the text has.
    pub(crate) fn len(&self) -> usize {
        let mut len: usize = 0;
        for block in &self.blocks {
            len = len.saturating_add(block.text.len());
        }
        len
    }

    /// The text of a block.
    pub(crate) fn text_of(&self, block: usize) -> Option<&[u8]> {
        Some(self.blocks.get(block)?.text.as_slice())
    }

    /// Appends the text as it stands inside a JSON string.
    pub(crate) fn push_quoted(&mut self, out: &mut Vec<u8>) -> Result<(), AllocError> {
        for block in self.blocks.iter_mut() {
            block.quote()?;
            out.extend_from_slice(&block.quoted)?;
        }
        Ok(())
    }

    /// Appends the text.
    pub(crate) fn push_text(&self, out: &mut Vec<u8>) -> Result<(), AllocError> {
        for block in &self.blocks {
            out.extend_from_slice(&block.text)?;
        }
        Ok(())
    }

    /// Some place. Lines may be counted as if the text were one line.
    pub(crate) fn some_place(&self, random: &mut Random, is_line: bool) -> Place {
        let block = random.below(self.blocks.len().max(1));
        let Some(held) = self.blocks.get(block) else {
            return FRONT;
        };
        let offset = held.boundary(random.below(held.text.len().max(1)));
        let front = &held.text[..offset.min(held.text.len())];
        let before = &self.blocks[..block.min(self.blocks.len())];
        let (line, character) = if is_line {
            (0, sum_of_units(before).saturating_add(count_units(front)))
        } else {
            let line = sum_of_ends(before).saturating_add(count_ends(front));
            (line, count_units(last_line(front)))
        };
        Place {
            block,
            offset,
            line,
            character,
        }
    }

    /// Inserts a text without line ends, or a line end alone, and gives the place after it.
    pub(crate) fn insert(&mut self, at: Place, text: &str) -> Result<Place, AllocError> {
        if let Some(block) = self.blocks.get_mut(at.block) {
            block.insert(at.offset, text.as_bytes())?;
        }
        let ends = count_ends(text.as_bytes());
        let character = if ends > 0 { 0 } else { at.character };
        let units = if ends > 0 {
            0
        } else {
            count_units(text.as_bytes())
        };
        Ok(Place {
            block: at.block,
            offset: at.offset.saturating_add(text.len()),
            line: at.line.saturating_add(ends),
            character: character.saturating_add(units),
        })
    }

    /// Removes what is between two places of a block.
    pub(crate) fn remove(&mut self, start: Place, end: Place) {
        if let Some(block) = self.blocks.get_mut(start.block) {
            block.remove(start.offset, end.offset);
        }
    }
}

/// The place one ASCII character before, in the same line.
pub(crate) fn one_before(place: Place) -> Place {
    Place {
        offset: place.offset.saturating_sub(1),
        character: place.character.saturating_sub(1),
        ..place
    }
}

fn sum_of_units(blocks: &[Block]) -> usize {
    let mut units: usize = 0;
    for block in blocks {
        units = units.saturating_add(block.units);
    }
    units
}

fn sum_of_ends(blocks: &[Block]) -> usize {
    let mut ends: usize = 0;
    for block in blocks {
        ends = ends.saturating_add(block.ends);
    }
    ends
}

/// What comes after the last line end.
fn last_line(text: &[u8]) -> &[u8] {
    match text.iter().rposition(|byte| *byte == b'\n') {
        Some(end) => &text[end + 1..],
        None => text,
    }
}
