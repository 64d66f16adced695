//! A text in one block while it is short, in one chunk while that has room for its blocks, and in
//! chunks of chunks once it is longer.

ghost use Rattle.std.specs.Prelude.{◌≡◌, ◌<◌, ◌^◌, length, IfOk, OnOk, OnErr};
ghost use Rattle.std.specs.List.{replace_range};
ghost use Rattle.lsp_lined.specs.Parts.{joined, AreKept};
ghost use Rattle.lsp_text.specs.Spans.{CanReplace};
ghost use Rattle.lsp_lined.specs.Trees.{text_kept};

use crate::block::Block;
use crate::chunk::{Chunk, chunks_of};
use crate::part::{LineEnd, Part, SharedPart};
use crate::sums::Sums;
use crate::walk::Visitor;
use lsp_types::Encoding;
use std::alloc::{AllocError, Global};
use std::marker::Model;

/// The bytes of a text that is kept in one block, at most.
// Three levels would take nine allocations when a document is opened, and 336 bytes while it is.
pub(super) const SHORT: usize = 2048;

/// How a text is kept.
#[derive(Drop)]
enum Kept {
    /// In one block, which has less to allocate and to search.
    Short(Block),
    /// In one chunk. With many documents open, an edit mostly finds its text in no cache, and waits
    /// for each level of chunks.
    Middle(Chunk<Block>),
    /// In chunks of chunks.
    Long(Chunk<Chunk<Chunk<Block>>>),
}

/// A text in one block or in chunks.
#[derive(Drop)]
pub(super) struct Tree {
    kept: Kept,
}

impl Model for Tree {
    ghost use Rattle.std.specs.Prelude.{List, ℕ};

    ghost Value = { List ℕ };

    ghost use Rattle.lsp_lined.specs.Trees.{text_kept};

    ghost view = { λ a. text_kept a.kept };
}

/// What the block or the chunks of a tree answer.
macro_rules! kept_in {
    ($tree:expr, $part:ident => $answer:expr) => {
        match &$tree.kept {
            Kept::Short($part) => $answer,
            Kept::Middle($part) => $answer,
            Kept::Long($part) => $answer,
        }
    };
}

impl Part for Tree {
    ghost text = { λ bytes. bytes };

    fn sums(&self) -> Sums {
        kept_in!(self, part => part.sums())
    }

    fn line_end(&self, n: u64) -> LineEnd<'_> {
        kept_in!(self, part => part.line_end(n))
    }

    fn offset_of(&self, encoding: Encoding, column: u64) -> Option<usize> {
        kept_in!(self, part => part.offset_of(encoding, column))
    }

    fn units_before(&self, encoding: Encoding, offset: usize) -> u64 {
        kept_in!(self, part => part.units_before(encoding, offset))
    }

    fn ends_before(&self, offset: usize) -> u64 {
        kept_in!(self, part => part.ends_before(offset))
    }

    fn rest_of_block(&self, offset: usize) -> &str {
        kept_in!(self, part => part.rest_of_block(offset))
    }

    fn walk<V: Visitor>(&self, from: usize, to: usize, visitor: &mut V) -> Result<(), V::Stop> {
        kept_in!(self, part => part.walk(from, to, visitor))
    }

    fn same_back(&self, from: usize, other: &str) -> usize {
        kept_in!(self, part => part.same_back(from, other))
    }
}

impl Tree {
    /// A text, in one block if it is short.
    pub(super) fn of(alloc: Global, text: &str) -> Result<Tree, AllocError>
        ensures { IfOk result (λ tree. tree ≡ text.now) }
    {
        if text.len() > SHORT {
            return Tree::in_chunks(alloc, text);
        }
        Ok(Tree {
            kept: Kept::Short(Block::new(alloc, text)?),
        })
    }

    /// A text in one chunk, or in chunks of chunks if one has no room for its blocks.
    fn in_chunks(alloc: Global, text: &str) -> Result<Tree, AllocError>
        ensures { IfOk result (λ tree. tree ≡ text.now) }
    {
        let chunks = Chunk::cut(alloc, text)?;
        Ok(Tree {
            kept: kept_in_chunks(alloc, &chunks)?,
        })
    }

    /// The same text, held by one more.
    pub(super) fn share(&self) -> Result<Tree, AllocError>
        ensures { IfOk result (λ tree. tree ≡ self.now) }
    {
        let kept = match &self.kept {
            Kept::Short(block) => Kept::Short(block.share()?),
            Kept::Middle(chunk) => Kept::Middle(chunk.share()?),
            Kept::Long(chunks) => Kept::Long(chunks.share()?),
        };
        Ok(Tree { kept })
    }

    /// Replaces some bytes by a text. A block that is full then becomes chunks, and a chunk without
    /// room for its blocks becomes chunks of chunks.
    pub(super) fn edit(
        &mut self,
        alloc: Global,
        from: usize,
        to: usize,
        text: &str,
    ) -> Result<(), AllocError>
        requires can { CanReplace self.old from to }
        requires fits { length (replace_range self.old from to text.now) < 2 ^ 64 }
        ensures ok { OnOk result (self.new ≡ replace_range self.old from to text.now) }
        ensures err { OnErr result (self.new ≡ self.old) }
    {
        match &mut self.kept {
            Kept::Long(chunks) => chunks.edit(from, to, text),
            Kept::Middle(chunk) => {
                if chunk.replace(from, to, text)? {
                    return Ok(());
                }
                let chunks = Chunk::between(alloc, chunk, from, text, chunk, to)?;
                self.kept = kept_in_chunks(alloc, &chunks)?;
                Ok(())
            }
            Kept::Short(block) => {
                if block.replace(from, to, text)? {
                    return Ok(());
                }
                let whole = block.replaced(alloc, from, to, text)?;
                *self = Tree::in_chunks(alloc, whole.as_str())?;
                Ok(())
            }
        }
    }
}

/// Chunks of blocks, kept as they are if they are one, and else in chunks of chunks.
fn kept_in_chunks(alloc: Global, chunks: &[Chunk<Block>]) -> Result<Kept, AllocError>
    requires { AreKept chunks.now }
    ensures { IfOk result (λ kept. text_kept kept ≡ joined chunks.now) }
{
    if chunks.len() == 1 {
        return Ok(Kept::Middle(chunks[0].share()?));
    }
    let larger = chunks_of(alloc, chunks)?;
    Ok(Kept::Long(Chunk::of(alloc, &larger)?))
}
