//! Reports of a verdict, and of a fault of a stream.
ghost use Rattle.std.specs.Prelude.{◌≡◌, ◌++◌, IfOk, OnOk, string_bytes, map};
ghost use Rattle.std.specs.List.{flat_map};
ghost use Rattle.lsp_session.specs.Entry.{request_view};
ghost use Rattle.lsp_verdict.specs.Given.{document_view, summary_view, verdict_view};
ghost use Rattle.lsp_verdict.specs.Report.{count_lines, document_line, request_line, report};
ghost use Rattle.lsp_verdict.specs.Report.{two_lines, stream_report};
ghost use Rattle.lsp_verdict.specs.Verdict.{yes, bad_log};

use crate::names::{encoding_name, kind_name, side_name};
use crate::offence::{Offence, offence_report};
use crate::outcome::StreamFault;
use crate::texts::{code_name, code_text, text_of};
use crate::verdict::{OpenDocument, Summary, Verdict};
use itoa::Buffer;
use lsp_log::LogCode;
use lsp_rpc::{Result, Side, push_id, push_quoted};
use lsp_session::OpenRequest;
use std::alloc::Global;
use std::fmt::Write;

fn two_lines(alloc: Global, code: &str, frame: u64, text: &str) -> Result<String>
    ensures { IfOk result (λ written. string_bytes written ≡ two_lines code.now frame text.now) }
{
    let report = format!(in alloc; "fault {code} frame {frame}\n{text}\n")?;
    Ok(report)
}

/// The two lines about the fault of a frame: its code and the frame's number, from 1, and the
/// rule's fixed text. If the rule has no text, the second line is empty.
pub fn frame_report(alloc: Global, frame: u64, fault: StreamFault) -> Result<String>
    ensures { IfOk result (λ written. string_bytes written ≡ stream_report frame fault) }
{
    match fault {
        StreamFault::Rule(rule) => {
            let mut digits = Buffer::new();
            two_lines(alloc, digits.format(rule), frame, text_of(rule))
        }
        StreamFault::TooLong => {
            two_lines(alloc, code_name(LogCode::L6), frame, code_text(LogCode::L6))
        }
    }
}

/// The bytes of [`frame_report`].
pub fn stream_report(alloc: Global, frame: u64, fault: StreamFault) -> Result<Vec<u8>>
    ensures { IfOk result (λ written. written.items ≡ stream_report frame fault) }
{
    let report = frame_report(alloc, frame, fault)?;
    Ok(report.into_bytes())
}

fn push_document(alloc: Global, report: &mut String, document: &OpenDocument) -> Result<()>
    ensures { OnOk result (string_bytes report.new
        ≡ string_bytes report.old ++ document_line (document_view document.now)) }
{
    let OpenDocument {
        uri,
        version,
        bytes,
    } = document;
    write!(report, "document {version} {bytes} ")?;
    push_quoted(alloc, report, uri.as_str())?;
    Ok(report.push_str("\n")?)
}

fn push_request(alloc: Global, report: &mut String, side: Side, request: &OpenRequest) -> Result<()>
    ensures { OnOk result (string_bytes report.new
        ≡ string_bytes report.old ++ request_line (side, request_view request.now)) }
{
    let name = side_name(side);
    write!(report, "request {name} ")?;
    push_id(alloc, report, &request.id)?;
    report.push_str(" ")?;
    push_quoted(alloc, report, request.method.as_str())?;
    let end = if request.cancelled {
        " cancelled\n"
    } else {
        "\n"
    };
    Ok(report.push_str(end)?)
}

fn push_documents(alloc: Global, report: &mut String, documents: &[OpenDocument]) -> Result<()>
    ensures { OnOk result (string_bytes report.new
        ≡ string_bytes report.old ++ flat_map document_line (map document_view documents.now)) }
{
    for document in documents {
        push_document(alloc, report, document)?;
    }
    Ok(())
}

fn push_requests(alloc: Global, report: &mut String, requests: &[(Side, OpenRequest)]) -> Result<()>
    ensures { OnOk result (string_bytes report.new ≡ string_bytes report.old
        ++ flat_map request_line (map (λ r. (r.0, request_view r.1)) requests.now)) }
{
    for (side, request) in requests {
        push_request(alloc, report, *side, request)?;
    }
    Ok(())
}

fn push_counts(report: &mut String, summary: &Summary) -> Result<()>
    ensures { OnOk result (string_bytes report.new
        ≡ string_bytes report.old ++ count_lines (summary_view summary.now)) }
{
    let Summary {
        editor,
        server,
        snapshots,
        unmatched,
        ..
    } = summary;
    let encoding = encoding_name(summary.encoding);
    let sync = kind_name(summary.sync);
    writeln!(report, "messages {editor} {server}")?;
    writeln!(report, "snapshots {snapshots} unmatched {unmatched}")?;
    writeln!(report, "encoding {encoding} sync {sync}")?;
    Ok(())
}

fn summary_report(alloc: Global, summary: &Summary) -> Result<String>
    ensures { IfOk result (λ written. string_bytes written
        ≡ report (yes (summary_view summary.now))) }
{
    let mut report = String::from_str(alloc, "yes\n")?;
    push_counts(&mut report, summary)?;
    push_documents(alloc, &mut report, summary.documents.as_slice())?;
    push_requests(alloc, &mut report, summary.requests.as_slice())?;
    Ok(report)
}

fn bad_log_report(alloc: Global, number: u64, fault: LogCode) -> Result<String>
    ensures { IfOk result (λ written. string_bytes written ≡ report (bad_log number fault)) }
{
    let code = code_name(fault);
    let text = code_text(fault);
    let report = format!(in alloc; "bad log {code} record {number}\n{text}\n")?;
    Ok(report)
}

/// The report of a verdict; each line ends with a line feed.
///
/// For Yes: what was counted and agreed, a line for each open document, in the order in which they
/// were opened, and one for each open request, the editor's first. URIs, ids and methods are JSON
/// text. For No: the rule, whose event it is, its number among those of that side, its number among
/// all events, and the rule's fixed text. For a bad log: its code, the number of the record, and
/// the code's fixed text.
pub fn verdict_report(alloc: Global, verdict: &Verdict) -> Result<String>
    ensures { IfOk result (λ written. string_bytes written ≡ report (verdict_view verdict.now)) }
{
    match verdict {
        Verdict::Yes(summary) => summary_report(alloc, summary),
        Verdict::No {
            rule,
            who,
            number,
            event,
        } => {
            let offence = Offence {
                rule: *rule,
                who: *who,
                number: *number,
                event: *event,
                follows: false,
            };
            offence_report(alloc, &offence)
        }
        Verdict::BadLog { number, fault } => bad_log_report(alloc, *number, *fault),
    }
}

/// The bytes of [`verdict_report`].
pub fn report_of(alloc: Global, verdict: &Verdict) -> Result<Vec<u8>>
    ensures { IfOk result (λ written. written.items ≡ report (verdict_view verdict.now)) }
{
    let report = verdict_report(alloc, verdict)?;
    Ok(report.into_bytes())
}
