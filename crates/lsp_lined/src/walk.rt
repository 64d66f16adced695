//! What is done with the blocks of a text one after another.
//!
//! Looking up each block from the top would take a time that grows with the square of the text. An
//! iterator over blocks would need a stack of its own for each level.

ghost use Rattle.std.specs.Prelude.{◌≡◌, ◌++◌, ℕ, List, IfSome, OnOk, OnErr};
ghost use Rattle.std.specs.String.{string_bytes};
ghost use Rattle.lsp_lined.specs.Patches.{BeginsAs, PartsIn};
ghost use Rattle.lsp_text.specs.SameText.{BeginsOtherwise, due, with_feeds};

use crate::ends::is_joined;
use lsp_text::{LinesLeft, after_front, before_last_end, parting, take_lines};
use std::alloc::AllocError;

/// What sees a text piece by piece, in order, and may stop.
pub(crate) trait Visitor {
    /// Why it stops.
    type Stop;

    /// It saw these bytes, and became another.
    ghost sees: { Self → List ℕ → Self → Type 0 };

    /// It stopped at some of these bytes, and became another.
    ghost stops: { Self → List ℕ → Self → Type 0 };

    /// Shows it the next piece, which ends at no character's inside and not between CR and LF.
    ///
    /// # Errors
    /// Why it stops.
    fn visit(&mut self, piece: &str) -> Result<(), Self::Stop>
        ensures ok { OnOk result (sees self.old piece.now self.new) }
        ensures err { OnErr result (stops self.old piece.now self.new) };
}

/// A text that takes what it sees at its end.
impl Visitor for String {
    type Stop = AllocError;

    ghost sees = { λ a p b. string_bytes b ≡ string_bytes a ++ p };

    ghost stops = { λ a p b. Unit };

    fn visit(&mut self, piece: &str) -> Result<(), AllocError> {
        self.push_str(piece)
    }
}

/// Why a text is not what it is compared with: something else comes.
#[derive(Clone, Copy)]
pub(crate) struct Differs;

/// What is left of a text after what was seen, as long as it begins with that.
#[derive(Clone, Copy)]
pub(crate) struct Front<'a> {
    pub(crate) rest: &'a str,
}

impl Visitor for Front<'_> {
    type Stop = Differs;

    ghost sees = { λ a p b. a.rest.now ≡ p ++ b.rest.now };

    ghost stops = { λ a p b. PartsIn p a.rest.now b.rest.now };

    fn visit(&mut self, piece: &str) -> Result<(), Differs> {
        if let Some(rest) = after_front(self.rest, piece) {
            self.rest = rest;
            return Ok(());
        }
        self.rest = after_common(self.rest, piece);
        Err(Differs)
    }
}

/// What is left of a text after lines that were seen, as long as these come first. Mostly they come
/// byte by byte, which is told sooner. Once a piece does not, lines are compared.
#[derive(Clone, Copy)]
pub(crate) struct LinesAhead<'a> {
    pub(crate) left: LinesLeft<'a>,
    pub(crate) is_same: bool,
}

impl Visitor for LinesAhead<'_> {
    type Stop = Differs;

    ghost sees = { λ a p b. due a.left ≡ with_feeds p ++ due b.left };

    ghost stops = { λ a p b. BeginsOtherwise (with_feeds p) (due a.left) };

    fn visit(&mut self, piece: &str) -> Result<(), Differs> {
        if self.is_same {
            if let Some(left) = take_bytes(self.left, piece) {
                self.left = left;
                return Ok(());
            }
            self.is_same = false;
        }
        let Some(left) = take_lines(self.left, piece) else {
            return Err(Differs);
        };
        self.left = left;
        Ok(())
    }
}

/// What is left after bytes, if these come first. The line end at their end may be the one that was
/// cut off the text.
fn take_bytes<'a>(left: LinesLeft<'a>, bytes: &str) -> Option<LinesLeft<'a>>
    ensures { IfSome result (λ next. due left.entry ≡ with_feeds bytes.now ++ due next) }
{
    let LinesLeft::Rest(text) = left else {
        return None;
    };
    if text.len() < bytes.len() {
        let rest = after_front(text, before_last_end(bytes)?)?;
        return rest.is_empty().then_some(LinesLeft::Nothing);
    }
    let rest = after_front(text, bytes)?;
    (!is_joined(bytes, rest)).then_some(LinesLeft::Rest(rest))
}

/// What comes in a text after the characters with which it begins as another does.
fn after_common<'a>(text: &'a str, other: &str) -> &'a str
    ensures { BeginsAs other.now text.now result.now }
{
    let Some(front) = parting(other, text) else {
        return "";
    };
    let (_, rest) = text.split_at(front);
    rest
}
