//! Facts on two texts that differ.

ghost use Rattle.std.specs.Prelude.{IfOk};
ghost use Rattle.std.specs.Str.{chars};
ghost use Rattle.lsp_types.specs.declared.line_ends.LineEnds.TheVariants.{Ignored};
ghost use Rattle.lsp_text.specs.SameText.{SameText, compared};
ghost use Rattle.lsp_facts.specs.DocumentFacts.{AreApart, FindsDifference};

use crate::facts::Facts;
use crate::part::{char_behind, part_at};
use lsp_rpc::Result;
use lsp_text::{compared_lines, first_difference};
use lsp_types::{Encoding, LineEnds};
use std::alloc::Global;

/// The facts on a held text and another one, which differ: where they first do, as they are
/// compared, the line of each there, and whether they differ in line ends alone. Texts of the
/// document may have been equal before.
pub(crate) fn apart(
    alloc: Global,
    line_ends: LineEnds,
    encoding: Encoding,
    was_equal: bool,
    held: &str,
    other: &str,
    key: &str,
) -> Result<Facts>
    ensures { IfOk result (λ facts. (SameText line_ends (chars held.now) (chars other.now) → ⊥)
        → AreApart line_ends encoding was_equal (chars held.now) (chars other.now)
        key.now facts) }
{
    let Some(mut facts) = place(alloc, line_ends, encoding, held, other, key)? else {
        return Ok(Facts::new(alloc));
    };
    facts.line_ends(was_equal, held, other)?;
    Ok(facts)
}

/// Where two texts first differ, as they are compared, and the line of each there.
fn place(
    alloc: Global,
    line_ends: LineEnds,
    encoding: Encoding,
    held: &str,
    other: &str,
    key: &str,
) -> Result<Option<Facts>>
    ensures { IfOk result (FindsDifference encoding (compared line_ends (chars held.now))
        (compared line_ends (chars other.now)) key.now) }
{
    match line_ends {
        LineEnds::Exact => at_difference(alloc, encoding, held, other, key),
        LineEnds::Ignored => by_lines(alloc, encoding, held, other, key),
    }
}

/// The same of two texts where line ends do not count: each is shown with a LF.
fn by_lines(
    alloc: Global,
    encoding: Encoding,
    held: &str,
    other: &str,
    key: &str,
) -> Result<Option<Facts>>
    ensures { IfOk result (FindsDifference encoding (compared Ignored (chars held.now))
        (compared Ignored (chars other.now)) key.now) }
{
    let held = compared_lines(alloc, held)?;
    let other = compared_lines(alloc, other)?;
    let found = at_difference(alloc, encoding, held.as_str(), other.as_str(), key)?;
    Ok(found)
}

/// Where two texts first differ, the line of each there, of a long one the part around it, and the
/// character of each.
fn at_difference(
    alloc: Global,
    encoding: Encoding,
    held: &str,
    other: &str,
    key: &str,
) -> Result<Option<Facts>>
    ensures { IfOk result (FindsDifference encoding (chars held.now) (chars other.now) key.now) }
{
    let Some(found) = first_difference(held, other, encoding) else {
        return Ok(None);
    };
    let mut facts = Facts::new(alloc);
    facts.encoding(encoding)?;
    facts.place(found.at)?;
    let held = part_at(alloc, found.held, found.held_front)?;
    facts.part("by-messages", &held)?;
    let other = part_at(alloc, found.other, found.other_front)?;
    facts.part(key, &other)?;
    let sent = char_behind(found.held, found.held_front);
    let shown = char_behind(found.other, found.other_front);
    facts.codes(sent, shown)?;
    Ok(Some(facts))
}
