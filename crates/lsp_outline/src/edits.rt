//! Positions, ranges and changes of a text, read member by member (LSP 3.17, Position, Range and
//! TextDocumentContentChangeEvent).
ghost use Rattle.std.specs.Prelude.{◌≡◌, ◌<◌, ◌≤◌, ℕ, length, Some, IfSome, codes, option_map};
ghost use Rattle.std.specs.Prelude.{string_bytes};
ghost use Rattle.serde_json.specs.Data.{Data, Members, Items, object, array};
ghost use Rattle.lsp_rpc.specs.Params as spec;
ghost use Rattle.lsp_rpc.specs.Shape.{as_integer, unless_null};
ghost use Rattle.lsp_rpc.specs.View.{change_view, changes_view};
ghost use Rattle.lsp_walk.specs.Walk.{IsValue, AreItems};

use crate::members::{Gathered, integer_at, keep, object_at, object_into, uinteger_at};
use lsp_types::{Change, Position, Span};
use lsp_walk::{byte_at, digit_at, literal_end, range_at, skipped, spaces_end, string_copy};
use std::alloc::Global;

/// The members of a position.
#[derive(Drop)]
struct PositionParts {
    line: Option<u32>,
    column: Option<u32>,
}

impl Gathered for PositionParts {
    ghost gathers = { λ ms parts.
        (spec.required (codes "line") spec.as_uinteger (object ms) ≡ parts.line)
        × (spec.required (codes "character") spec.as_uinteger (object ms) ≡ parts.column) };

    fn none() -> PositionParts {
        PositionParts {
            line: None,
            column: None,
        }
    }

    #[inline(always)]
    fn take(
        &mut self,
        _alloc: Global,
        name: &str,
        text: &str,
        from: usize,
        depth: usize,
    ) -> Option<usize> {
        match name {
            "line" => keep!(self.line = Some(uinteger_at(text, from))),
            "character" => keep!(self.column = Some(uinteger_at(text, from))),
            _ => skipped(text, from, depth),
        }
    }
}

/// The position that begins there, and where it ends.
#[inline(never)]
fn position_at(alloc: Global, text: &str, from: usize, depth: usize) -> Option<(Position, usize)>
    requires { from ≤ length text.now }
    ensures { IfSome result (λ r. (ms : Members) × IsValue depth text.now from r.1 (object ms)
        × (spec.position_at (object ms) ≡ Some r.0)) }
{
    let (parts, end): (PositionParts, usize) = object_at(alloc, text, from, depth)?;
    let position = Position {
        line: parts.line?,
        column: parts.column?,
    };
    Some((position, end))
}

/// The members of a range.
#[derive(Drop)]
struct SpanParts {
    first: Option<Position>,
    second: Option<Position>,
}

impl Gathered for SpanParts {
    ghost gathers = { λ ms parts.
        (spec.required (codes "start") spec.position_at (object ms) ≡ parts.first)
        × (spec.required (codes "end") spec.position_at (object ms) ≡ parts.second) };

    fn none() -> SpanParts {
        SpanParts {
            first: None,
            second: None,
        }
    }

    #[inline(always)]
    fn take(
        &mut self,
        alloc: Global,
        name: &str,
        text: &str,
        from: usize,
        depth: usize,
    ) -> Option<usize> {
        match name {
            "start" => keep!(self.first = Some(position_at(alloc, text, from, depth))),
            "end" => keep!(self.second = Some(position_at(alloc, text, from, depth))),
            _ => skipped(text, from, depth),
        }
    }
}

/// The span that begins there as most programs write it, and where it ends.
#[inline(never)]
fn plain_span_at(text: &str, from: usize) -> Option<(Span, usize)>
    requires { from ≤ length text.now }
    ensures { IfSome result (λ r. (depth : ℕ) → 1 < depth
        → (x : Data) × IsValue depth text.now from r.1 x × (spec.span_at x ≡ Some r.0)) }
{
    let ((start, stop), end) = range_at(text.as_bytes(), from)?;
    let span = Span {
        first: Position {
            line: start.0,
            column: start.1,
        },
        second: Position {
            line: stop.0,
            column: stop.1,
        },
    };
    Some((span, end))
}

/// The span that begins there, and where it ends. It is tried as most programs write it, until one
/// is written otherwise.
#[inline(always)]
fn span_at(
    alloc: Global,
    text: &str,
    from: usize,
    depth: usize,
    tries: &mut bool,
) -> Option<(Span, usize)>
    requires { from ≤ length text.now }
    ensures { IfSome result (λ r. (x : Data) × IsValue depth text.now from r.1 x
        × (spec.span_at x ≡ Some r.0)) }
{
    if depth < 2 || !*tries {
        return any_span_at(alloc, text, from, depth);
    }
    if let Some(found) = plain_span_at(text, from) {
        return Some(found);
    }
    *tries = false;
    any_span_at(alloc, text, from, depth)
}

/// The span of whatever form that begins there, and where it ends.
#[inline(never)]
fn any_span_at(alloc: Global, text: &str, from: usize, depth: usize) -> Option<(Span, usize)>
    requires { from ≤ length text.now }
    ensures { IfSome result (λ r. (x : Data) × IsValue depth text.now from r.1 x
        × (spec.span_at x ≡ Some r.0)) }
{
    let (parts, end): (SpanParts, usize) = object_at(alloc, text, from, depth)?;
    let span = Span {
        first: parts.first?,
        second: parts.second?,
    };
    Some((span, end))
}

/// The span that begins there, where it is not null, and where it ends.
#[inline(always)]
fn span_unless_null_at(
    alloc: Global,
    text: &str,
    from: usize,
    depth: usize,
    tries: &mut bool,
) -> Option<(Option<Span>, usize)>
    requires { from ≤ length text.now }
    ensures { IfSome result (λ r. (d : Data) × IsValue depth text.now from r.1 d
        × (spec.if_given spec.span_at (unless_null d) ≡ Some r.0)) }
{
    let bytes = text.as_bytes();
    if byte_at(bytes, from) == b'n' {
        let end = literal_end(bytes, from, b"null")?;
        return Some((None, end));
    }
    let (span, end) = span_at(alloc, text, from, depth, tries)?;
    Some((Some(span), end))
}

/// The integer of 32 bits that begins there, where it is not null, and where it ends. Most have one
/// digit.
#[inline(always)]
pub(crate) fn integer_unless_null_at(text: &str, from: usize) -> Option<(Option<i32>, usize)>
    requires { from ≤ length text.now }
    ensures { IfSome result (λ r. (d : Data) × ((depth : ℕ) → IsValue depth text.now from r.1 d)
        × (as_integer d ≡ r.0)) }
{
    let bytes = text.as_bytes();
    if let Some((n, end)) = digit_at(bytes, from) {
        return Some((Some(n as i32), end));
    }
    if byte_at(bytes, from) == b'n' {
        let end = literal_end(bytes, from, b"null")?;
        return Some((None, end));
    }
    let (n, end) = integer_at(text, from)?;
    Some((Some(n), end))
}

/// The members of a change. A `range` that is null is none, and so is a length of it.
#[derive(Drop)]
struct ChangeParts {
    span: Option<Span>,
    range_length: Option<i32>,
    text: Option<String>,
    /// Whether spans are still tried as most programs write them.
    tries: bool,
}

impl Gathered for ChangeParts {
    ghost gathers = { λ ms parts.
        (spec.allowed (codes "range") spec.span_at (object ms) ≡ Some parts.span)
        × ((spec.range_length_at (object ms) ≡ parts.range_length)
        × (spec.text_at (object ms) ≡ option_map (λ s. string_bytes s) parts.text)) };

    fn none() -> ChangeParts {
        ChangeParts {
            span: None,
            range_length: None,
            text: None,
            tries: true,
        }
    }

    #[inline(always)]
    fn take(
        &mut self,
        alloc: Global,
        name: &str,
        text: &str,
        from: usize,
        depth: usize,
    ) -> Option<usize> {
        match name {
            "range" => keep!(
                self.span = span_unless_null_at(alloc, text, from, depth, &mut self.tries)
            ),
            "text" => keep!(self.text = Some(string_copy(alloc, text, from))),
            "rangeLength" => keep!(self.range_length = integer_unless_null_at(text, from)),
            _ => skipped(text, from, depth),
        }
    }
}

/// The change that begins there, and where it ends.
fn change_at(
    alloc: Global,
    text: &str,
    from: usize,
    depth: usize,
    tries: &mut bool,
) -> Option<(Change, usize)>
    requires { from ≤ length text.now }
    ensures { IfSome result (λ r. (ms : Members) × IsValue depth text.now from r.1 (object ms)
        × (spec.change_at (object ms) ≡ Some (change_view r.0))) }
{
    let mut parts = ChangeParts::none();
    parts.tries = *tries;
    let end = object_into(alloc, text, from, depth, &mut parts)?;
    *tries = parts.tries;
    let change = Change {
        span: parts.span,
        range_length: parts.range_length,
        text: parts.text?,
    };
    Some((change, end))
}

/// The changes of the array whose bracket is just before that place, and where it ends.
fn rest_of_changes(
    alloc: Global,
    text: &str,
    from: usize,
    depth: usize,
) -> Option<(Vec<Change>, usize)>
    requires { from ≤ length text.now }
    ensures { IfSome result (λ r. (ds : Items) × AreItems depth text.now from r.1 ds
        × (spec.all_of spec.change_at ds ≡ Some (changes_view r.0.items))) }
{
    let bytes = text.as_bytes();
    let mut found = Vec::new(alloc);
    let mut tries = true;
    let mut at = spaces_end(bytes, from);
    if byte_at(bytes, at) == b']' {
        return Some((found, at + 1));
    }
    'changes: loop {
        let (change, end) = change_at(alloc, text, at, depth, &mut tries)?;
        found.push(change).ok()?;
        let next = spaces_end(bytes, end);
        let mark = byte_at(bytes, next);
        if mark == b']' {
            return Some((found, next + 1));
        }
        if mark != b',' {
            return None;
        }
        at = spaces_end(bytes, next + 1);
    }
}

/// The array of changes that begins there, and where it ends.
pub(crate) fn changes_at(
    alloc: Global,
    text: &str,
    from: usize,
    depth: usize,
) -> Option<(Vec<Change>, usize)>
    requires { from ≤ length text.now }
    ensures { IfSome result (λ r. (ds : Items) × IsValue depth text.now from r.1 (array ds)
        × (spec.all_of spec.change_at ds ≡ Some (changes_view r.0.items))) }
{
    if depth == 0 || byte_at(text.as_bytes(), from) != b'[' {
        return None;
    }
    rest_of_changes(alloc, text, from + 1, depth - 1)
}
