//! The encodings in which a column lies at the edge of a character.
ghost use Rattle.std.specs.Prelude.{◌≡◌, ◌++◌, IfOk, OnOk, is_some};
ghost use Rattle.std.specs.Str.{chars};
ghost use Rattle.lsp_text.specs.Findings.{text_extent};
ghost use Rattle.lsp_facts.specs.DocumentFacts as spec;

use lsp_rpc::Result;
use lsp_text::{char_inside, line_at, width_of};
use lsp_types::{Encoding, Position};
use std::alloc::Global;

/// The encodings in which a position lies in its line, and there at the edge of a character.
pub(crate) fn edges(alloc: Global, text: &str, position: Position) -> Result<Vec<Encoding>>
    ensures { IfOk result (λ names. names.items ≡ spec.edges (chars text.now) position) }
{
    let mut names = Vec::new(alloc);
    push_edge(&mut names, text, position, Encoding::Utf8)?;
    push_edge(&mut names, text, position, Encoding::Utf16)?;
    push_edge(&mut names, text, position, Encoding::Utf32)?;
    Ok(names)
}

/// Adds an encoding, if the position lies at an edge in it.
fn push_edge(
    names: &mut Vec<Encoding>,
    text: &str,
    position: Position,
    encoding: Encoding,
) -> Result<()>
    ensures { OnOk result (names.new.items ≡ names.old.items
        ++ spec.edge_in (chars text.now) position encoding) }
{
    if is_edge(text, position, encoding) {
        names.push(encoding)?;
    }
    Ok(())
}

fn is_edge(text: &str, position: Position, encoding: Encoding) -> bool
    ensures { result ≡ spec.is_edge (chars text.now) position encoding }
{
    if is_past(text, encoding, position) {
        return false;
    }
    char_inside(text, encoding, position).is_none()
}

/// Whether a position lies past the end of its line, or past the last line.
pub fn is_past(text: &str, encoding: Encoding, position: Position) -> bool
    ensures { result ≡ is_some (text_extent encoding (chars text.now) position) }
{
    match line_at(text, position.line) {
        Some(line) => width_of(line, encoding) < position.column as u64,
        None => true,
    }
}
