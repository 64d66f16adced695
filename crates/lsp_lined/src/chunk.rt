//! Parts in chunks, which texts share: blocks, or smaller chunks.
//!
//! A copy of a text adds one owner to all chunks. The first write to a shared chunk makes a new
//! one, and adds one owner to each of its parts. So a version of a document of 15 MB takes 4,800
//! instructions with two levels of chunks, and 11,700 with one of 16 to 32 parts.

ghost use Rattle.std.specs.Prelude.{◌≡◌, ◌<◌, ◌^◌, ◌++◌, length, map, take, drop, IfOk, OnOk, OnErr};
ghost use Rattle.std.specs.List.{replace_range};
ghost use Rattle.std.specs.Str.{IsCharBoundary};
ghost use Rattle.lsp_lined.specs.Parts.{joined, MakeUp, AreKept, CanReplaceIn};
ghost use Rattle.lsp_text.specs.Spans.{CanReplace};
ghost use Rattle.lsp_lined.specs.Chunks.{TakesOr};

use crate::part::{
    LineEnd, Part, SharedPart, ends_before_in, find, find_before, line_end_in, offset_in,
    replace_in, replace_in_parts, rest_in, same_back_in, share_into, sums_in, units_before_in,
    walk_in,
};
use crate::sums::{Measure, Sums};
use crate::walk::Visitor;
use lsp_types::Encoding;
use std::alloc::{AllocError, Global};
use std::marker::Model;
use std::rc::Rc;

/// The parts that a chunk is given at first.
const FULL: usize = 8;

/// The parts of a chunk, at most.
const MOST: usize = 16;

/// Some parts, one after another, and the sums of their text.
#[derive(Drop)]
struct Parts<T: SharedPart> {
    items: Vec<T>,
    sums: Sums,
    alloc: Global,
}

impl<T: SharedPart> Clone for Parts<T> {
    ghost is_clone = { λ old copy. (copy.items.items ≡ old.items.items)
        × (copy.sums ≡ old.sums) };

    fn clone(&self) -> Result<Parts<T>, AllocError> {
        let mut items = Vec::new(self.alloc);
        share_into(&mut items, &self.items)?;
        Ok(Parts {
            items,
            sums: self.sums,
            alloc: self.alloc,
        })
    }
}

/// Some parts of a text, which texts share. It is one pointer, so that tables of chunks are short.
#[derive(Drop)]
pub(crate) struct Chunk<T: SharedPart> {
    parts: Rc<Parts<T>>,
}

impl<T: SharedPart> Model for Chunk<T> {
    ghost use Rattle.std.specs.Prelude.{List, ℕ, map};
    ghost use Rattle.lsp_lined.specs.Parts.{joined};
    ghost use Rattle.lsp_lined.specs.Chunks.{IsChunk};

    ghost Value = { List ℕ };

    ghost view = { λ a. joined (map T.text a.parts.value.items.items) };

    ghost invariant = { λ a. IsChunk (map T.text a.parts.value.items.items)
        a.parts.value.sums };
}

impl<T: SharedPart> Part for Chunk<T> {
    ghost text = { λ bytes. bytes };

    fn sums(&self) -> Sums {
        let parts: &Parts<T> = &self.parts;
        parts.sums
    }

    fn line_end(&self, n: u64) -> LineEnd<'_> {
        line_end_in(held(&self.parts), n)
    }

    fn offset_of(&self, encoding: Encoding, column: u64) -> Option<usize> {
        offset_in(held(&self.parts), encoding, column)
    }

    fn units_before(&self, encoding: Encoding, offset: usize) -> u64 {
        units_before_in(held(&self.parts), encoding, offset)
    }

    fn ends_before(&self, offset: usize) -> u64 {
        ends_before_in(held(&self.parts), offset)
    }

    fn rest_of_block(&self, offset: usize) -> &str {
        rest_in(held(&self.parts), offset)
    }

    fn walk<V: Visitor>(&self, from: usize, to: usize, visitor: &mut V) -> Result<(), V::Stop> {
        walk_in(held(&self.parts), from, to, visitor)
    }

    fn same_back(&self, from: usize, other: &str) -> usize {
        same_back_in(held(&self.parts), from, other)
    }
}

impl<T: SharedPart> SharedPart for Chunk<T> {
    fn share(&self) -> Result<Chunk<T>, AllocError> {
        Ok(Chunk {
            parts: self.parts.clone()?,
        })
    }

    fn replace(&mut self, from: usize, to: usize, inserted: &str) -> Result<bool, AllocError> {
        replace_shared(&mut self.parts, from, to, inserted)
    }

    fn cut(alloc: Global, whole: &str) -> Result<Vec<Chunk<T>>, AllocError> {
        chunks_of(alloc, &T::cut(alloc, whole)?)
    }

    fn between(
        alloc: Global,
        first: &Chunk<T>,
        from: usize,
        inserted: &str,
        last: &Chunk<T>,
        to: usize,
    ) -> Result<Vec<Chunk<T>>, AllocError> {
        let parts = recut(
            alloc,
            held(&first.parts),
            from,
            inserted,
            held(&last.parts),
            to,
        )?;
        chunks_of(alloc, &parts)
    }
}

impl<T: SharedPart> Chunk<T> {
    /// Replaces some bytes by a text, in as many parts as that takes.
    pub(crate) fn edit(&mut self, from: usize, to: usize, text: &str) -> Result<(), AllocError>
        requires can { CanReplace self.old from to }
        requires fits { length (replace_range self.old from to text.now) < 2 ^ 64 }
        ensures ok { OnOk result (self.new ≡ replace_range self.old from to text.now) }
        ensures err { OnErr result (self.new ≡ self.old) }
    {
        let own = Rc::make_mut(&mut self.parts)?;
        own.sums = replace_in_parts(own.alloc, &mut own.items, own.sums, from, to, text)?;
        Ok(())
    }

    /// A chunk of some parts, each held by one more, however many there are.
    pub(crate) fn of(alloc: Global, parts: &[T]) -> Result<Chunk<T>, AllocError>
        requires { AreKept (map T.text parts.now) }
        ensures { IfOk result (λ chunk. chunk ≡ joined (map T.text parts.now)) }
    {
        let mut items = Vec::new(alloc);
        share_into(&mut items, parts)?;
        let held = Parts {
            items,
            sums: sums_in(parts),
            alloc,
        };
        Ok(Chunk {
            parts: Rc::new(alloc, held)?,
        })
    }
}

/// The parts that others may hold too.
fn held<T: SharedPart>(shared: &Rc<Parts<T>>) -> &[T]
    ensures { result.now ≡ shared.now.value.items.items }
{
    let parts: &Parts<T> = shared;
    &parts.items
}

/// Replaces some bytes of one part by a text, if that has room, in parts of its own.
/// Answers whether it did.
fn replace_shared<T: SharedPart>(
    shared: &mut Rc<Parts<T>>,
    from: usize,
    to: usize,
    inserted: &str,
) -> Result<bool, AllocError>
    requires { CanReplaceIn (map T.text shared.old.value.items.items) shared.old.value.sums
        from to inserted.now }
    ensures ok { IfOk result (TakesOr (map T.text shared.old.value.items.items)
        shared.old.value.sums from to inserted.now
        (map T.text shared.new.value.items.items) shared.new.value.sums) }
    ensures err { OnErr result ((map T.text shared.new.value.items.items
        ≡ map T.text shared.old.value.items.items)
        × (shared.new.value.sums ≡ shared.old.value.sums)) }
{
    let own = Rc::make_mut(shared)?;
    let sums = replace_in(&mut own.items, own.sums, from, to, inserted)?;
    let Some(sums) = sums else {
        return Ok(false);
    };
    own.sums = sums;
    Ok(true)
}

/// Puts parts in chunks.
pub(crate) fn chunks_of<T: SharedPart>(
    alloc: Global,
    parts: &[T],
) -> Result<Vec<Chunk<T>>, AllocError>
    requires { AreKept (map T.text parts.now) }
    ensures { IfOk result (λ chunks. MakeUp chunks.items (joined (map T.text parts.now))) }
{
    let mut chunks = Vec::new(alloc);
    let mut rest = parts;
    while rest.len() > MOST {
        let (front, back) = rest.split_at(FULL);
        chunks.push(Chunk::of(alloc, front)?)?;
        rest = back;
    }
    chunks.push(Chunk::of(alloc, rest)?)?;
    Ok(chunks)
}

/// The first bytes of some parts, a text, and the bytes of some parts from one on, in parts. The
/// part before the first cut and the one after the second are cut again with the text, so that no
/// CR and LF are kept apart.
fn recut<T: SharedPart>(
    alloc: Global,
    head: &[T],
    from: usize,
    text: &str,
    tail: &[T],
    to: usize,
) -> Result<Vec<T>, AllocError>
    requires head { AreKept (map T.text head.now) }
    requires from { IsCharBoundary (joined (map T.text head.now)) from }
    requires tail { AreKept (map T.text tail.now) }
    requires to { IsCharBoundary (joined (map T.text tail.now)) to }
    requires fits { length ((take from (joined (map T.text head.now)) ++ text.now)
        ++ drop to (joined (map T.text tail.now))) < 2 ^ 64 }
    ensures { IfOk result (λ parts. MakeUp (map T.text parts.items)
        ((take from (joined (map T.text head.now)) ++ text.now)
        ++ drop to (joined (map T.text tail.now)))) }
{
    let a = find_before(head, from);
    let b = find(tail, Measure::Units(Encoding::Utf8), to as u64);
    let mut middle = T::between(
        alloc,
        &head[a.index],
        a.left as usize,
        text,
        &tail[b.index],
        b.left as usize,
    )?;
    let mut parts = Vec::new(alloc);
    share_into(&mut parts, &head[..a.index])?;
    parts.append(&mut middle)?;
    share_into(&mut parts, &tail[b.index + 1..])?;
    Ok(parts)
}
