//! An event of a session before its content is read.
ghost use Rattle.std.specs.Prelude.{◌≡◌};
ghost use Rattle.lsp_verdict.specs.Given.{raw_view, whose_raw};

use crate::verdict::{Who, who_of};
use lsp_rpc::Side;

/// An event before its content is read, lent from where it is held.
#[derive(Clone, Copy, Debug, PartialEq, Eq)]
pub enum Raw<'a> {
    /// A content that a side sent (LSP 3.17, "Base Protocol"), and the bytes of the side after its
    /// frame in the record in which that ends.
    Content {
        side: Side,
        content: &'a [u8],
        behind: &'a [u8],
    },
    /// A fault of a side's frames, by its rule, 101 to 106, and the bytes of the side after its
    /// last whole frame. They reach at least far enough to show the header part that has the fault.
    Broken {
        side: Side,
        rule: u16,
        rest: &'a [u8],
    },
    /// A text that the editor showed.
    Snapshot {
        version: i32,
        uri: &'a str,
        text: &'a str,
    },
}

impl Raw<'_> {
    /// Whose event it is.
    pub fn who(&self) -> Who
        ensures { result ≡ whose_raw (raw_view self.now) }
    {
        match self {
            Raw::Content { side, .. } => who_of(*side),
            Raw::Broken { side, .. } => who_of(*side),
            Raw::Snapshot { .. } => Who::Snapshot,
        }
    }
}
