//! What remains to be replaced when a text takes the place of one that it mostly repeats.
//!
//! Editors without incremental changes send the whole text after each key. The unchanged blocks at
//! both ends stay, so versions share them, and no line end is looked for there. The comparison
//! stops at the first character that differs from each end, so it costs little where most is new.

ghost use Rattle.std.specs.Prelude.{◌<◌, ◌^◌, length};
ghost use Rattle.lsp_lined.specs.Patches.{IsPatch};

use crate::part::Part;
use crate::walk::Front;

/// Bytes that are replaced, from one place to another, and the text that takes their place.
#[derive(Clone, Copy)]
pub(crate) struct Patch<'a> {
    pub(crate) from: usize,
    pub(crate) to: usize,
    pub(crate) text: &'a str,
}

/// A patch with the same effect as a text in the place of all bytes, without the characters at both
/// ends that do not change.
pub(crate) fn patch_to<'a, T: Part>(part: &T, text: &'a str) -> Patch<'a>
    requires { length (T.text part.now) < 2 ^ 64 }
    ensures { IsPatch (T.text part.now) 0 (length (T.text part.now)) text.now result }
{
    let len = part.sums().bytes as usize;
    let mut front = Front { rest: text };
    // Where it stops, the front that is the same ends.
    let _ = part.walk(0, len, &mut front);
    let from = text.len() - front.rest.len();
    let back = part.same_back(from, front.rest);
    let (text, _) = front.rest.split_at(front.rest.len() - back);
    Patch {
        from,
        to: len - back,
        text,
    }
}
