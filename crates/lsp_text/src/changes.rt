//! The changes of a document, made in any store.

ghost use Rattle.std.specs.Prelude.{◌≡◌, Ok, OnOk, OnErr, IfOk, IfErr};
ghost use Rattle.std.specs.Str.{chars};
ghost use Rattle.lsp_text.specs.Edits.{changed, applied, IsFaultOf, FailsAfter};
ghost use Rattle.lsp_text.specs.Changes.{edits_of};
ghost use Rattle.lsp_text.specs.Findings.{noted, found_of, findings};

use crate::findings::Findings;
use crate::store::TextStore;
use lsp_types::{Change, Encoding, Fault, Span};

/// Makes a change: of the characters of a span where there is one, and else of the whole text (LSP
/// 3.17, "TextDocumentContentChangeEvent"). The limit is in bytes of UTF-8. A refused change leaves
/// the text.
pub fn change<S: TextStore>(
    store: &mut S,
    encoding: Encoding,
    span: Option<Span>,
    text: &str,
    limit: u64,
) -> Result<(), Fault>
    ensures ok { OnOk result (changed encoding (S.content store.old) span (chars text.now) limit
        ≡ Ok (S.content store.new)) }
    ensures fault { IfErr result
        (IsFaultOf (changed encoding (S.content store.old) span (chars text.now) limit)) }
    ensures err { OnErr result (S.content store.new ≡ S.content store.old) }
{
    let found = &mut Findings::none();
    change_noting(store, encoding, span, None, text, limit, found)
}

/// The same, which notes what of the change does not fit the text, if it is made.
pub fn change_noting<S: TextStore>(
    store: &mut S,
    encoding: Encoding,
    span: Option<Span>,
    range_length: Option<i32>,
    text: &str,
    limit: u64,
    found: &mut Findings,
) -> Result<(), Fault>
    ensures found { OnOk result (found.new
        ≡ noted found.old (found_of encoding (S.content store.old) span range_length)) }
    ensures err_found { OnErr result (found.new ≡ found.old) }
    ensures ok { OnOk result (changed encoding (S.content store.old) span (chars text.now) limit
        ≡ Ok (S.content store.new)) }
    ensures fault { IfErr result
        (IsFaultOf (changed encoding (S.content store.old) span (chars text.now) limit)) }
    ensures err { OnErr result (S.content store.new ≡ S.content store.old) }
{
    match span {
        Some(span) => store.replace_noting(encoding, span, range_length, text, limit, found),
        None => store.replace_all(text, limit),
    }
}

/// Why changes are not all made.
#[derive(Clone, Copy, Debug, PartialEq, Eq)]
pub struct ChangeFault {
    /// How many are made before the one that fails.
    pub made: usize,
    /// Why that one is refused.
    pub fault: Fault,
}

/// Makes changes in order, each of the text that the one before left (LSP 3.17,
/// "DidChangeTextDocument"). The first one that fails decides, and leaves the text that the changes
/// before it made. Answers what was found first.
pub fn change_all<S: TextStore>(
    store: &mut S,
    encoding: Encoding,
    changes: &[Change],
    limit: u64,
) -> Result<Findings, ChangeFault>
    ensures found { IfOk result (λ found. found
        ≡ findings limit encoding (S.content store.old) (edits_of changes.now)) }
    ensures ok { OnOk result (applied limit encoding (S.content store.old) (edits_of changes.now)
        ≡ Ok (S.content store.new)) }
    ensures fault { IfErr result (λ failed.
        IsFaultOf (applied limit encoding (S.content store.old) (edits_of changes.now))
        failed.fault) }
    ensures err { IfErr result
        (FailsAfter limit encoding (S.content store.old) (edits_of changes.now)
        (S.content store.new)) }
{
    let mut found = Findings::none();
    for (made, next) in changes.iter().enumerate() {
        let text = next.text.as_str();
        let length = next.range_length;
        let span = next.span;
        if let Err(fault) = change_noting(store, encoding, span, length, text, limit, &mut found) {
            return Err(ChangeFault { made, fault });
        }
    }
    Ok(found)
}
