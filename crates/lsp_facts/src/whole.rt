//! How long a content really is whose header says less than it has.
ghost use Rattle.std.specs.Prelude.{◌≡◌, ◌≤◌, ◌++◌, IfOk, IfSome, OnOk, length, option_map};
ghost use Rattle.lsp_facts.specs.Whole as spec;

use crate::facts::Facts;
use crate::json_text::more_of_text;
use lsp_rpc::Result;
use lsp_text::width_of;
use lsp_types::Encoding;
use std::alloc::Global;
use std::str::from_utf8;

/// Adds how many bytes a content has, if with some of these behind it, it is a JSON text, and in
/// which encodings the header has counted its characters.
pub(crate) fn push_whole(facts: &mut Facts, content: &[u8], behind: &[u8]) -> Result<()>
    ensures { OnOk result (facts.new ≡ facts.old ++ spec.whole_facts content.now behind.now) }
{
    let Some(more) = more_of_text(facts.alloc(), content, behind)? else {
        return Ok(());
    };
    let bytes = joined(facts.alloc(), content, &behind[..more])?;
    push_length(facts, content.len(), text_of(bytes.as_slice()))
}

/// Some bytes, and those behind them.
fn joined(alloc: Global, bytes: &[u8], behind: &[u8]) -> Result<Vec<u8>>
    ensures { IfOk result (λ all. all.items ≡ bytes.now ++ behind.now) }
{
    let mut all = Vec::new(alloc);
    all.extend_from_slice(bytes)?;
    all.extend_from_slice(behind)?;
    Ok(all)
}

/// Bytes as a text, if they are UTF-8.
fn text_of(bytes: &[u8]) -> Option<&str>
    ensures { option_map (λ t. t.now) result ≡ spec.if_utf8 bytes.now }
{
    from_utf8(bytes).ok()
}

/// Adds the length of a text, and in which encodings it has this many units.
fn push_length(facts: &mut Facts, number: usize, text: Option<&str>) -> Result<()>
    ensures { OnOk result (facts.new ≡ facts.old
        ++ spec.length_facts number (option_map (λ t. t.now) text.entry)) }
{
    let Some(text) = text else {
        return Ok(());
    };
    facts.number("whole", text.len() as u64)?;
    let names = counting(facts.alloc(), number, text)?;
    facts.encodings("counts", names.as_slice())
}

/// The encodings in which a text, which has more bytes than this, has so many units.
fn counting(alloc: Global, number: usize, text: &str) -> Result<Vec<Encoding>>
    ensures { IfOk result (λ names. names.items ≡ spec.counting number text.now) }
{
    let mut names = Vec::new(alloc);
    push_counting(&mut names, number, text, Encoding::Utf16)?;
    push_counting(&mut names, number, text, Encoding::Utf32)?;
    Ok(names)
}

/// Adds an encoding, if the text has so many units in it.
fn push_counting(
    names: &mut Vec<Encoding>,
    number: usize,
    text: &str,
    encoding: Encoding,
) -> Result<()>
    ensures { OnOk result (names.new.items ≡ names.old.items
        ++ spec.counted_in number text.now encoding) }
{
    if width_of(text, encoding) == number as u64 {
        names.push(encoding)?;
    }
    Ok(())
}
