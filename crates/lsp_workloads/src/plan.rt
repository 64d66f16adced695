//! What the sessions of each workload are like.
use crate::words::Script;

/// What a session is like. Numbers named `_in_thousand` say how often something happens after a
/// change.
#[derive(Clone, Copy)]
pub(crate) struct Plan {
    /// The words of the command line that judge it.
    pub(crate) words: &'static [&'static str],
    /// How many hundredths of the workload's bytes it gets.
    pub(crate) share: u64,
    /// The first line of the log.
    pub(crate) head: &'static str,
    /// How many documents there are, and between how many bytes each has.
    pub(crate) documents: usize,
    pub(crate) least: usize,
    pub(crate) most: usize,
    pub(crate) script: Script,
    pub(crate) is_line: bool,
    /// How many keys are typed at a place.
    pub(crate) keys: usize,
    pub(crate) snapshots_in_thousand: usize,
    /// Of these, the ones whose lines end by LF where those of the document end by CR LF.
    pub(crate) feeds_in_thousand: usize,
    /// Whether snapshots come a few changes late.
    pub(crate) is_late: bool,
    /// Changes that hold the whole text, saves with the text, and documents closed and opened again.
    pub(crate) wholes_in_thousand: usize,
    pub(crate) saves_in_thousand: usize,
    pub(crate) reopens_in_thousand: usize,
    pub(crate) diagnostics_in_thousand: usize,
    /// Requests and their answers, of which most have up to `answer` bytes.
    pub(crate) requests_in_thousand: usize,
    pub(crate) answer: usize,
    pub(crate) cancels_in_thousand: usize,
}

const ASCII: Script = Script {
    is_wide: false,
    is_crlf: false,
};

const WIDE: Script = Script {
    is_wide: true,
    is_crlf: false,
};

const CRLF: Script = Script {
    is_wide: false,
    is_crlf: true,
};

/// Typing into one document of 10,000 lines.
const TYPING: Plan = Plan {
    words: &["lspcheck", "explain"],
    share: 100,
    head: "lsp-session 1\n",
    documents: 1,
    least: 400_000,
    most: 400_000,
    script: ASCII,
    is_line: false,
    keys: 40,
    snapshots_in_thousand: 1,
    feeds_in_thousand: 0,
    is_late: false,
    wholes_in_thousand: 0,
    saves_in_thousand: 0,
    reopens_in_thousand: 0,
    diagnostics_in_thousand: 0,
    requests_in_thousand: 0,
    answer: 0,
    cancels_in_thousand: 0,
};

/// What the recorders write: small and middling files, a snapshot after nearly every change, and
/// what a server says meanwhile.
const RECORDED: Plan = Plan {
    words: &["lspcheck", "check"],
    documents: 40,
    least: 500,
    most: 80_000,
    snapshots_in_thousand: 950,
    wholes_in_thousand: 40,
    saves_in_thousand: 25,
    reopens_in_thousand: 25,
    diagnostics_in_thousand: 120,
    requests_in_thousand: 220,
    answer: 400,
    cancels_in_thousand: 20,
    ..TYPING
};

/// Whole texts: changes without a span, saves, documents closed and opened again.
const TEXTS: Plan = Plan {
    words: &["lspcheck", "check"],
    documents: 40,
    least: 20_000,
    most: 400_000,
    keys: 1,
    snapshots_in_thousand: 50,
    wholes_in_thousand: 700,
    saves_in_thousand: 150,
    reopens_in_thousand: 150,
    ..TYPING
};

/// Long answers, diagnostics and requests that are cancelled.
const ANSWERS: Plan = Plan {
    words: &["lspcheck", "check"],
    documents: 3,
    least: 20_000,
    most: 40_000,
    diagnostics_in_thousand: 300,
    requests_in_thousand: 1_000,
    answer: 30_000,
    cancels_in_thousand: 80,
    ..TYPING
};

/// Edits all over 2,000 open documents.
const MANY: Plan = Plan {
    words: &["lspcheck", "check"],
    documents: 2_000,
    least: 800,
    most: 16_000,
    keys: 4,
    snapshots_in_thousand: 20,
    saves_in_thousand: 10,
    reopens_in_thousand: 10,
    ..TYPING
};

/// A line of 1 MB that is not ASCII, in format 2, with late snapshots.
const LONG_LINE: Plan = Plan {
    words: &["lspcheck", "check"],
    share: 40,
    head: "lsp-session 2\n",
    least: 1_000_000,
    most: 1_000_000,
    script: WIDE,
    is_line: true,
    keys: 100,
    is_late: true,
    ..TYPING
};

/// Edits all over a document of 8 MB.
const LARGE: Plan = Plan {
    words: &["lspcheck", "check"],
    share: 20,
    least: 8_000_000,
    most: 8_000_000,
    keys: 5,
    snapshots_in_thousand: 0,
    ..TYPING
};

/// A snapshot after each change of a text with CR LF, compared without line ends: half of the
/// snapshots have LF.
const LINE_ENDS: Plan = Plan {
    words: &["lspcheck", "check", "--ignore-line-ends"],
    share: 40,
    documents: 4,
    least: 8_000,
    most: 40_000,
    script: CRLF,
    snapshots_in_thousand: 1_000,
    feeds_in_thousand: 500,
    ..TYPING
};

/// The sessions of a workload, one after another; none where there is no workload of this name.
pub(crate) fn plans_of(workload: &str) -> &'static [Plan] {
    match workload {
        "recorded" => &[RECORDED],
        "typing" => &[TYPING],
        "texts" => &[TEXTS],
        "answers" => &[ANSWERS],
        "many" => &[MANY],
        "awkward" => &[LONG_LINE, LARGE, LINE_ENDS],
        _ => &[],
    }
}
