//! Whether a log that is to be written shows the verdict on the log that was read.
ghost use Rattle.std.specs.Prelude.{◌≡◌, ◌++◌, List, ℕ, IfOk, Some, None, map, string_bytes};
ghost use Rattle.lsp_extract.specs.Normal.{is_frame_rule};
ghost use Rattle.lsp_redact.specs.Check as spec;
ghost use Rattle.lsp_redact.specs.Check.{Checks, EndsBy, IsShown};
ghost use Rattle.lsp_session.specs.Entry.{request_view};
ghost use Rattle.lsp_session.specs.Sent.{same_side};
ghost use Rattle.lsp_verdict.specs.Given.{document_view, requests_view, summary_view, verdict_view};
ghost use Rattle.lsp_verdict.specs.Verdict as verdicts;

use lsp_frame::Limits;
use lsp_judge::verdict_of;
use lsp_rpc::{Encoding, Result, Side, SyncKind};
use lsp_session::OpenRequest;
use lsp_types::rules;
use lsp_verdict::{OpenDocument, Outcome, Summary, Verdict, Who};
use std::alloc::Global;

fn same_who(who: Who, other: Who) -> bool
    ensures { result ≡ spec.same_who who other }
{
    match (who, other) {
        (Who::Editor, Who::Editor) => true,
        (Who::Server, Who::Server) => true,
        (Who::Snapshot, Who::Snapshot) => true,
        _ => false,
    }
}

fn same_encoding(encoding: Option<Encoding>, other: Option<Encoding>) -> bool
    ensures { result ≡ spec.same_encoding encoding other }
{
    match (encoding, other) {
        (None, None) => true,
        (Some(Encoding::Utf8), Some(Encoding::Utf8)) => true,
        (Some(Encoding::Utf16), Some(Encoding::Utf16)) => true,
        (Some(Encoding::Utf32), Some(Encoding::Utf32)) => true,
        _ => false,
    }
}

fn same_kind(kind: Option<SyncKind>, other: Option<SyncKind>) -> bool
    ensures { result ≡ spec.same_kind kind other }
{
    match (kind, other) {
        (None, None) => true,
        (Some(SyncKind::Nothing), Some(SyncKind::Nothing)) => true,
        (Some(SyncKind::Full), Some(SyncKind::Full)) => true,
        (Some(SyncKind::Incremental), Some(SyncKind::Incremental)) => true,
        _ => false,
    }
}

fn same_flag(flag: bool, other: bool) -> bool
    ensures { result ≡ spec.same_flag flag other }
{
    if flag { other } else { !other }
}

fn same_side(side: Side, other: Side) -> bool
    ensures { result ≡ same_side side other }
{
    match (side, other) {
        (Side::Editor, Side::Editor) => true,
        (Side::Server, Side::Server) => true,
        _ => false,
    }
}

/// Whether two documents are the same but for their URIs.
fn same_document(document: &OpenDocument, other: &OpenDocument) -> bool
    ensures { result ≡ spec.same_document (document_view document.now) (document_view other.now) }
{
    document.version == other.version && document.bytes == other.bytes
}

fn same_documents(documents: &[OpenDocument], others: &[OpenDocument]) -> bool
    ensures { result ≡ spec.same_documents (map document_view documents.now)
        (map document_view others.now) }
{
    let mut first = documents;
    let mut second = others;
    while let [document, rest @ ..] = first {
        let [other, ahead @ ..] = second else {
            return false;
        };
        if !same_document(document, other) {
            return false;
        }
        first = rest;
        second = ahead;
    }
    second.is_empty()
}

/// Whether two open requests are the same but for their ids and methods.
fn same_request(request: &(Side, OpenRequest), other: &(Side, OpenRequest)) -> bool
    ensures { result ≡ spec.same_request (request.now.0, request_view request.now.1)
        (other.now.0, request_view other.now.1) }
{
    same_side(request.0, other.0) && same_flag(request.1.cancelled, other.1.cancelled)
}

fn same_requests(requests: &[(Side, OpenRequest)], others: &[(Side, OpenRequest)]) -> bool
    ensures { result ≡ spec.same_requests (requests_view requests.now)
        (requests_view others.now) }
{
    let mut first = requests;
    let mut second = others;
    while let [request, rest @ ..] = first {
        let [other, ahead @ ..] = second else {
            return false;
        };
        if !same_request(request, other) {
            return false;
        }
        first = rest;
        second = ahead;
    }
    second.is_empty()
}

fn same_counts(summary: &Summary, other: &Summary) -> bool
    ensures { result ≡ spec.same_counts (summary_view summary.now) (summary_view other.now) }
{
    summary.editor == other.editor
        && summary.server == other.server
        && summary.snapshots == other.snapshots
        && summary.unmatched == other.unmatched
}

/// Whether two summaries are the same but for names.
fn same_summary(summary: &Summary, other: &Summary) -> bool
    ensures { result ≡ spec.same_summary (summary_view summary.now) (summary_view other.now) }
{
    same_counts(summary, other)
        && same_encoding(summary.encoding, other.encoding)
        && same_kind(summary.sync, other.sync)
        && same_documents(summary.documents.as_slice(), other.documents.as_slice())
        && same_requests(summary.requests.as_slice(), other.requests.as_slice())
}

/// Whether two verdicts are the same but for names, none of which is on the log.
fn same_but_names(verdict: &Verdict, own: &Verdict) -> bool
    ensures { result ≡ spec.same_but_names (verdict_view verdict.now) (verdict_view own.now) }
{
    match (verdict, own) {
        (Verdict::Yes(summary), Verdict::Yes(other)) => same_summary(summary, other),
        (
            Verdict::No {
                rule,
                who,
                number,
                event,
            },
            Verdict::No {
                rule: other,
                who: by,
                number: count,
                event: place,
            },
        ) => *rule == *other && same_who(*who, *by) && *number == *count && *event == *place,
        _ => false,
    }
}

/// Whether this rule is one on frames, 101 to 107.
fn is_of_frames(rule: u16) -> bool
    ensures { result ≡ is_frame_rule rule }
{
    rules::HEADER_PART_TOO_LONG <= rule && rule <= rules::STREAM_ENDS_INSIDE_FRAME
}

/// Whether this is a fault of the frames or of the log, which no log shows that has only whole
/// frames.
fn is_fault(verdict: &Verdict) -> bool
    ensures { result ≡ spec.is_fault (verdict_view verdict.now) }
{
    match verdict {
        Verdict::Yes(_) => false,
        Verdict::No { rule, .. } => is_of_frames(*rule),
        Verdict::BadLog { .. } => true,
    }
}

fn is_yes(verdict: &Verdict) -> bool
    ensures { result ≡ spec.is_yes (verdict_view verdict.now) }
{
    match verdict {
        Verdict::Yes(_) => true,
        _ => false,
    }
}

/// Whether a log with the second verdict shows the first: it is the same but for names, or Yes up
/// to a fault.
fn shows(verdict: &Verdict, own: &Verdict) -> bool
    ensures { result ≡ spec.shows (verdict_view verdict.now) (verdict_view own.now) }
{
    if is_fault(verdict) {
        is_yes(own)
    } else {
        same_but_names(verdict, own)
    }
}

/// How the run ends on a log with this verdict, which what is written shows.
fn outcome_of(verdict: Verdict) -> Outcome
    ensures { EndsBy (spec.is_fault (verdict_view verdict)) (verdict_view verdict) result }
{
    if is_fault(&verdict) {
        Outcome::Judged(verdict)
    } else {
        Outcome::Done
    }
}

/// Whether a log shows this verdict.
fn is_shown(alloc: Global, log: &str, verdict: &Verdict, limits: Limits) -> Result<bool>
    ensures { IfOk result (λ shown. IsShown limits log.now (verdict_view verdict.now) shown) }
{
    let own = verdict_of(alloc, log.as_bytes(), limits)?;
    Ok(shows(verdict, &own))
}

/// Adds a log to a text where it shows this verdict, and else nothing.
pub(crate) fn put_checked(
    text: &mut String,
    log: &str,
    verdict: Verdict,
    limits: Limits,
) -> Result<Outcome>
    ensures { IfOk result (λ outcome. (said : List ℕ)
        × (string_bytes text.new ≡ string_bytes text.old ++ said)
        × Checks limits log.now (verdict_view verdict) said outcome) }
{
    let shown = is_shown(*text.allocator(), log, &verdict, limits)?;
    if !shown {
        return Ok(Outcome::Unlike);
    }
    text.push_str(log)?;
    Ok(outcome_of(verdict))
}
