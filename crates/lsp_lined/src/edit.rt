//! Edits of kept lines, which see no held bytes but those of lines that `Lines::read` lent.

ghost use Rattle.std.specs.Prelude.{◌≡◌, ◌<◌, ◌+◌, ◌*◌, ◌^◌, Ok, None, length, MatchOption};
ghost use Rattle.std.specs.Prelude.{IfOk, OnOk, OnErr, IfErr, IfSome, IsTrue, ◌↔◌};
ghost use Rattle.std.specs.Str.{chars};
ghost use Rattle.lsp_text.specs.Places.{place_of};
ghost use Rattle.lsp_text.specs.Offsets.{IsTextOffset};
ghost use Rattle.lsp_text.specs.Edits.{replaced, IsFaultOf};
ghost use Rattle.lsp_lined.specs.LentLines.{IsLentLine};
ghost use Rattle.lsp_text.specs.Findings.{text_extent, past_of};
ghost use Rattle.lsp_lined.specs.Steps.{raised, RisesWithin, line_bytes, line_number, touched};

use crate::lined::lines::{LentLine, Lines, Steps};
use lsp_text::{Extent, PastEnd, past_end_of};
use lsp_types::{Encoding, Fault, Position, Span, rules};

/// Replaces what the span holds: 605, then 606, then 607 where the result is over the limit.
/// Answers which of its positions lies past the end, if one does.
pub(crate) fn edit(
    lines: &mut Lines,
    steps: &mut Steps,
    encoding: Encoding,
    span: Span,
    text: &str,
    limit: u64,
) -> Result<Option<PastEnd>, Fault>
    ensures past { IfOk result (λ past. past ≡ past_of encoding (chars lines.old) span) }
    ensures ok { OnOk result (replaced encoding (chars lines.old) span (chars text.now) limit
        ≡ Ok (chars lines.new)) }
    ensures fault { IfErr result
        (IsFaultOf (replaced encoding (chars lines.old) span (chars text.now) limit)) }
    ensures err { OnErr result (lines.new ≡ lines.old) }

    // What an edit counts is about what it has to touch.
    ensures counted { OnOk result
        (RisesWithin steps.old steps.new (length text.now)
        (4 * touched (chars lines.old) span (chars text.now))) }
    ensures err_counted { OnErr result
        (RisesWithin steps.old steps.new 0
        (4 * touched (chars lines.old) span (chars text.now))) }
{
    let line = read_at(lines, span.first, steps);
    let Some(first) = find_in(lines, &line, encoding, span.first) else {
        return Err(Fault::Rule(rules::POSITION_INSIDE_CHARACTER));
    };
    let Some(second) = find_second(lines, &line, encoding, span, first, steps) else {
        return Err(Fault::Rule(rules::POSITION_INSIDE_CHARACTER));
    };
    let bytes = lines.byte_len();
    if second.offset < first.offset {
        return Err(Fault::Rule(rules::RANGE_REVERSED));
    }
    if is_over(
        bytes - (second.offset - first.offset) as u64,
        text.len(),
        limit,
    ) {
        return Err(Fault::Rule(rules::DOCUMENT_OVER_LIMIT));
    }
    lines.replace(first.offset, second.offset, text)?;
    steps.add(text.len());
    Ok(past_end_of(span, first.extent, second.extent))
}

/// Lends the line that a position falls in, and counts its bytes.
pub(crate) fn read_at<'a>(lines: &'a Lines, position: Position, steps: &mut Steps) -> LentLine<'a>
    ensures value { IsLentLine lines.now (line_number (chars lines.now) position) result }
    ensures counted { steps.new
        ≡ raised steps.old (line_bytes (chars lines.now) (line_number (chars lines.now) position)) }
{
    lines.read(lines.number_of(position), steps)
}

/// Where a position lies in a text: the bytes before its place, and how far the text goes, if it
/// lies past the end.
#[derive(Clone, Copy)]
pub(crate) struct Spotted {
    pub(crate) offset: usize,
    pub(crate) extent: Option<Extent>,
}

/// Where a position lies that falls in a lent line, or `None` where it lies inside a character.
#[inline(always)]
pub(crate) fn find_in(
    lines: &Lines,
    line: &LentLine<'_>,
    encoding: Encoding,
    position: Position,
) -> Option<Spotted>
    requires { IsLentLine lines.now (line_number (chars lines.now) position) line.now }
    ensures place { MatchOption result (place_of encoding (chars lines.now) position ≡ None)
        (λ spotted. IsTextOffset encoding lines.now position spotted.offset) }
    ensures extent { IfSome result
        (λ spotted. spotted.extent ≡ text_extent encoding (chars lines.now) position) }
{
    if lines.number_of(position) < position.line as u64 {
        return Some(Spotted {
            offset: lines.byte_len() as usize,
            extent: Some(Extent::Lines(lines.count())),
        });
    }
    let offset = line.offset_of(encoding, position.column)?;
    let extent = line.extent(encoding, position.column, offset);
    Some(Spotted { offset, extent })
}

/// Where the second position of a span lies, or `None` where it lies inside a character. It
/// mostly is on the line of the first, which was read, and after it.
#[inline(always)]
fn find_second(
    lines: &Lines,
    line: &LentLine<'_>,
    encoding: Encoding,
    span: Span,
    first: Spotted,
    steps: &mut Steps,
) -> Option<Spotted>
    requires line { IsLentLine lines.now (line_number (chars lines.now) span.first) line.now }
    requires place { IsTextOffset encoding lines.now span.first first.offset }
    requires extent { first.extent ≡ text_extent encoding (chars lines.now) span.first }
    requires counting { steps.old < 2 ^ 64 }
    ensures place { MatchOption result (place_of encoding (chars lines.now) span.second ≡ None)
        (λ spotted. IsTextOffset encoding lines.now span.second spotted.offset) }
    ensures extent { IfSome result
        (λ spotted. spotted.extent ≡ text_extent encoding (chars lines.now) span.second) }
    ensures counted { RisesWithin steps.old steps.new 0
        (line_bytes (chars lines.now) (line_number (chars lines.now) span.second)) }
{
    if span.second == span.first {
        return Some(first);
    }
    if span.second.line == span.first.line && span.first.column < span.second.column {
        return find_in(lines, line, encoding, span.second);
    }
    let other = read_at(lines, span.second, steps);
    find_in(lines, &other, encoding, span.second)
}

/// Whether the bytes of a text and of an insertion are over the limit.
fn is_over(bytes: u64, inserted: usize, limit: u64) -> bool
    ensures { IsTrue result ↔ (limit < bytes + inserted) }
{
    limit < bytes || limit - bytes < inserted as u64
}
