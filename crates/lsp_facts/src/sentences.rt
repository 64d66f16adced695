//! What facts mean together, in one plain sentence, and whose fault that usually is.
ghost use Rattle.std.specs.Prelude.{◌≡◌, ◌++◌, OnOk, map, option_map, string_bytes};
ghost use Rattle.lsp_facts.specs.Sentences as spec;
ghost use Rattle.lsp_facts.specs.Sentences.{row_view, so_line, so_lines};

use crate::facts::Facts;
use lsp_rpc::{Result, push_quoted};

/// How two lines of the facts begin, and what is said where both are there. Any line begins with no
/// text.
pub(crate) type Row = (&'static str, &'static str, &'static str);

/// The first row whose lines are there has the sentence.
pub(crate) const ROWS: [Row; 42] = [
    (
        "offset-encoding utf-8\n",
        "fits utf-8",
        "The editor seems to count columns in utf-8, which only the older offsetEncoding names.",
    ),
    (
        "offset-encoding utf-16\n",
        "fits utf-16",
        "The editor seems to count columns in utf-16, which only the older offsetEncoding names.",
    ),
    (
        "offset-encoding utf-32\n",
        "fits utf-32",
        "The editor seems to count columns in utf-32, which only the older offsetEncoding names.",
    ),
    (
        "offset-encoding utf-16\n",
        "fits utf-8 utf-16\n",
        "The editor seems to count columns in utf-16, which only the older offsetEncoding names.",
    ),
    (
        "offset-encoding utf-32\n",
        "fits utf-8 utf-32\n",
        "The editor seems to count columns in utf-32, which only the older offsetEncoding names.",
    ),
    (
        "offset-encoding utf-32\n",
        "fits utf-16 utf-32\n",
        "The editor seems to count columns in utf-32, which only the older offsetEncoding names.",
    ),
    (
        "fits utf-8\n",
        "inside ",
        "The editor may split a character, or count columns in utf-8, which was not agreed.",
    ),
    (
        "fits utf-16\n",
        "inside ",
        "The editor may split a character, or count columns in utf-16, which was not agreed.",
    ),
    (
        "fits utf-32\n",
        "inside ",
        "The editor may split a character, or count columns in utf-32, which was not agreed.",
    ),
    (
        "fits ",
        "inside ",
        "The editor may split a character, or count columns in another encoding than the agreed one.",
    ),
    (
        "fits utf-8\n",
        "encoding utf-16\n",
        "The editor seems to count columns in utf-8; utf-16 was agreed.",
    ),
    (
        "fits utf-8\n",
        "encoding utf-32\n",
        "The editor seems to count columns in utf-8; utf-32 was agreed.",
    ),
    (
        "fits utf-16\n",
        "encoding utf-8\n",
        "The editor seems to count columns in utf-16; utf-8 was agreed.",
    ),
    (
        "fits utf-16\n",
        "encoding utf-32\n",
        "The editor seems to count columns in utf-16; utf-32 was agreed.",
    ),
    (
        "fits utf-32\n",
        "encoding utf-8\n",
        "The editor seems to count columns in utf-32; utf-8 was agreed.",
    ),
    (
        "fits utf-32\n",
        "encoding utf-16\n",
        "The editor seems to count columns in utf-32; utf-16 was agreed.",
    ),
    (
        "fits ",
        "",
        "The editor seems to count columns in another encoding than the agreed one.",
    ),
    (
        "lines-by lf\n",
        "",
        "The editor seems to end lines at LF alone; LSP ends them at CR, too.",
    ),
    (
        "lines-by ecmascript\n",
        "",
        "The editor seems to end lines at U+2028 and U+2029, too; LSP does not.",
    ),
    (
        "lines-by python\n",
        "",
        "The editor seems to split lines like Python's splitlines; LSP has fewer line ends.",
    ),
    (
        "at-once ",
        "",
        "The editor may compute all ranges of a message against the text before that message.",
    ),
    (
        "exchanged ",
        "",
        "The editor may have sent two messages in the wrong order.",
    ),
    (
        "without ",
        "",
        "The editor may have sent a change that it did not make.",
    ),
    (
        "ends converted ",
        "",
        "Only line ends differ: each is written in another way.",
    ),
    (
        "ends last\n",
        "",
        "Only the line end at the very end differs.",
    ),
    ("ends mixed\n", "", "Only line ends differ."),
    (
        "right-from ",
        "",
        "The last messages seem right; an earlier one is wrong, or a change was never sent.",
    ),
    (
        "suspects 0\n",
        "saved ",
        "The text may have changed without a message, or another text may have been saved.",
    ),
    (
        "suspects 0\n",
        "",
        "The text may have changed without a message, or the snapshot may be of another moment.",
    ),
    (
        "suspects 1\n",
        "equal ",
        "Either one message is wrong, or one change was never sent.",
    ),
    (
        "header-ends lf\n",
        "",
        "A header line ends with LF alone; it must end with CR LF.",
    ),
    (
        "counts ",
        "",
        "Content-Length seems to count characters; it must count bytes.",
    ),
    ("whole ", "", "Content-Length is smaller than the content."),
    ("same ", "", "The editor sent the same changes twice."),
    (
        "precedes ",
        "",
        "The editor seems to have sent two messages in the wrong order.",
    ),
    (
        "saved-as ",
        "closed ",
        "The editor closed this document, saved it later, and did not open it again.",
    ),
    (
        "saved-as ",
        "",
        "The editor saved a document under this name, and did not open it.",
    ),
    (
        "similar ",
        "",
        "A document is open under another spelling of this URI.",
    ),
    ("opened never\n", "", "The document was never opened."),
    (
        "open ",
        "",
        "The id is a text where that of the request is a number, or the reverse.",
    ),
    (
        "asked ",
        "",
        "The id was used again before the first request was answered.",
    ),
    ("answered ", "", "The request was answered before."),
];

/// Whose fault it usually is, whatever the rule, where these lines are there.
pub(crate) const BLAMES: [Row; 7] = [
    ("offset-encoding utf-8\n", "fits utf-8", "outside"),
    ("offset-encoding utf-16\n", "fits utf-16", "outside"),
    ("offset-encoding utf-32\n", "fits utf-32", "outside"),
    ("offset-encoding utf-16\n", "fits utf-8 utf-16\n", "outside"),
    ("offset-encoding utf-32\n", "fits utf-8 utf-32\n", "outside"),
    (
        "offset-encoding utf-32\n",
        "fits utf-16 utf-32\n",
        "outside",
    ),
    ("suspects 0\n", "in-editor ", "editor or recorder"),
];

/// Whose fault it usually is by these facts, where a row says so; else it is this side's, or who
/// else is named here.
pub(crate) fn blamed<'a>(facts: &Facts, usual: &'a str) -> &'a str
    ensures { result.now ≡ spec.blamed facts.now usual.now }
{
    blamed_by(&BLAMES, facts, usual)
}

/// The same by these rows.
fn blamed_by<'a>(rows: &[Row], facts: &Facts, usual: &'a str) -> &'a str
    ensures { result.now ≡ spec.blamed_by (map row_view rows.now) facts.now usual.now }
{
    match row_for(rows, facts) {
        Some(row) => row.2,
        None => usual,
    }
}

/// Adds the line of the sentence that a row has for the facts, if one does.
pub(crate) fn push_sentence(lines: &mut String, facts: &Facts) -> Result<()>
    ensures { OnOk result (string_bytes lines.new
        ≡ string_bytes lines.old ++ so_lines facts.now) }
{
    push_by(&ROWS, lines, facts)
}

/// The same by these rows.
fn push_by(rows: &[Row], lines: &mut String, facts: &Facts) -> Result<()>
    ensures { OnOk result (string_bytes lines.new ≡ string_bytes lines.old
        ++ so_line (spec.row_for (map row_view rows.now) facts.now)) }
{
    let Some((_, _, sentence)) = row_for(rows, facts) else {
        return Ok(());
    };
    lines.push_str("so ")?;
    push_quoted(*lines.allocator(), lines, sentence)?;
    Ok(lines.push_str("\n")?)
}

/// The first row both of whose lines are there.
fn row_for<'r>(rows: &'r [Row], facts: &Facts) -> Option<&'r Row>
    ensures { option_map (λ row. row_view row.now) result
        ≡ spec.row_for (map row_view rows.now) facts.now }
{
    for row in rows {
        let (one, other, _) = row;
        if facts.has_line(one) && facts.has_line(other) {
            return Some(row);
        }
    }
    None
}
