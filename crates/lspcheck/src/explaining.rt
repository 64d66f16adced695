//! Which command explains a No.
use crate::shown_name::ShownName;
use lsp_command::{Report, Request, Task};
use lsp_judge::Completeness;
use lsp_types::LineEnds;

/// Says which command explains the No of `check` on this file, or on standard input.
pub(crate) fn show_explaining<R: Eprint>(
    rt: &R,
    request: &Request<'_>,
    file: Option<&ShownName<'_>>,
) {
    let (all, completeness) = match request.task {
        Task::Check(completeness, Report::Offences(_), _) => (" --all", completeness),
        Task::Check(completeness, ..) => ("", completeness),
        _ => return,
    };
    let complete = match completeness {
        Completeness::Required => " --complete",
        Completeness::Ignored => "",
    };
    let ends = match request.line_ends {
        LineEnds::Ignored => " --ignore-line-ends",
        LineEnds::Exact => "",
    };
    let _ = match file {
        Some(name) => {
            eprintln!(rt; "lspcheck: hint: lspcheck explain{all}{complete}{ends} {name} says why")
        }
        None => eprintln!(rt; "lspcheck: hint: lspcheck explain{all}{complete}{ends} says why"),
    };
}
