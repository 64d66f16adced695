//! The objects of the lines of a report.
ghost use Rattle.std.specs.Prelude.{◌≡◌, ◌++◌, IfOk, OnOk, map, option_map, string_bytes};
ghost use Rattle.lsp_json.specs.Fields.{word_view};
ghost use Rattle.lsp_json.specs.Lines as spec;
ghost use Rattle.lsp_json.specs.Lines.{front, json_by, line_by, object_by, row_for, row_view};
ghost use Rattle.lsp_json.specs.Lines.{text_json};
ghost use Rattle.lsp_json.specs.Rows.{json_lines};
ghost use Rattle.lsp_json.specs.Words.{words_in};

use crate::field::fit;
use crate::members::{push_members, push_named};
use crate::rows::{ROWS, Row};
use crate::words::words_in;
use lsp_rpc::{Result, push_quoted};

/// Adds the lines of a report to a text as JSON: an object for each line. A No and a bad log have
/// the line behind them, which says what is wrong, in their object.
///
/// # Errors
/// `Memory` where memory was refused.
pub fn push_json(text: &mut String, report: &str) -> Result<()>
    ensures { OnOk result (string_bytes text.new ≡ string_bytes text.old ++ json_lines report.now) }
{
    push_json_by(&ROWS, text, report)
}

/// Adds the lines of a report to a text as JSON, by these rows.
fn push_json_by(rows: &[Row], text: &mut String, report: &str) -> Result<()>
    ensures { OnOk result (string_bytes text.new ≡ string_bytes text.old
        ++ json_by (map row_view rows.now) report.now) }
{
    let mut awaits_text = false;
    for line in report.lines() {
        awaits_text = push_line(rows, text, line, awaits_text)?;
    }
    push_end_unless(text, !awaits_text)?;
    Ok(())
}

/// Adds what a line becomes, which may be the text of an object. Answers whether a text comes next.
fn push_line(rows: &[Row], text: &mut String, line: &str, is_text: bool) -> Result<bool>
    ensures added { OnOk result (string_bytes text.new ≡ string_bytes text.old
        ++ line_by (map row_view rows.now) is_text line.now) }
    ensures awaits { IfOk result (λ awaits. awaits
        ≡ spec.awaits_text (map row_view rows.now) is_text line.now) }
{
    if is_text {
        push_text(text, line)?;
        return Ok(false);
    }
    push_object(rows, text, line)
}

/// Adds the text of an object, and ends it.
fn push_text(text: &mut String, line: &str) -> Result<()>
    ensures { OnOk result (string_bytes text.new ≡ string_bytes text.old ++ text_json line.now) }
{
    push_named(text, "text", line)?;
    Ok(text.push_str("}\n")?)
}

/// Adds the object of a line, and ends it, unless it has a text: that comes next then.
fn push_object(rows: &[Row], text: &mut String, line: &str) -> Result<bool>
    ensures added { OnOk result (string_bytes text.new ≡ string_bytes text.old
        ++ object_by (map row_view rows.now) line.now) }
    ensures awaits { IfOk result
        (λ awaits. awaits ≡ spec.has_text (row_for (map row_view rows.now) (words_in line.now))) }
{
    let words = words_in(*text.allocator(), line)?;
    let words = words.as_slice();
    let row = row_for(rows, words);
    push_front(text, row, words, line)?;
    let awaits_text = has_text(row);
    push_end_unless(text, awaits_text)?;
    Ok(awaits_text)
}

/// Adds the end of an object, unless its text comes next.
fn push_end_unless(text: &mut String, awaits_text: bool) -> Result<()>
    ensures { OnOk result (string_bytes text.new ≡ string_bytes text.old
        ++ spec.end_unless awaits_text) }
{
    if awaits_text {
        return Ok(());
    }
    Ok(text.push_str("}\n")?)
}

/// Adds an object up to its end. A line that no row takes is a text.
fn push_front(text: &mut String, row: Option<&Row>, words: &[&str], line: &str) -> Result<()>
    ensures { OnOk result (string_bytes text.new ≡ string_bytes text.old
        ++ front (option_map (λ row. row_view row.now) row.entry) (map word_view words.now)
        line.now) }
{
    match row {
        Some((is, pattern)) => {
            push_is(text, is)?;
            push_members(text, pattern, words)
        }
        None => {
            push_is(text, "line")?;
            push_named(text, "text", line)
        }
    }
}

/// Adds the beginning of an object: what its line is.
fn push_is(text: &mut String, is: &str) -> Result<()>
    ensures { OnOk result (string_bytes text.new ≡ string_bytes text.old ++ spec.is_front is.now) }
{
    text.push_str("{\"is\":")?;
    push_quoted(*text.allocator(), text, is)
}

/// The first row whose pattern takes all words.
fn row_for<'r>(rows: &'r [Row], words: &[&str]) -> Option<&'r Row>
    ensures { option_map (λ row. row_view row.now) result
        ≡ row_for (map row_view rows.now) (map word_view words.now) }
{
    for row in rows {
        let (_, pattern) = row;
        if fit(pattern, words) {
            return Some(row);
        }
    }
    None
}

/// Whether the line behind such a line says what is wrong.
fn has_text(row: Option<&Row>) -> bool
    ensures { result ≡ spec.has_text (option_map (λ row. row_view row.now) row.entry) }
{
    match row {
        Some((is, _)) => *is == "no" || *is == "bad log",
        None => false,
    }
}
