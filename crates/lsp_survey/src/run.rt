//! Reports all that is wrong with a log, or shows all its events, in lines or as JSON.
ghost use Rattle.lsp_replay.specs.JsonRun.{run_in};
ghost use Rattle.lsp_replay.specs.Common.{PassesOn, ports};
ghost use Rattle.lsp_survey.specs.SurveyRun.{report_run, show_all_run};

use crate::survey::{Options, Survey};
use lsp_frame::{Limits, Sink, Source};
use lsp_replay::{Form, pass_in};
use lsp_verdict::{Completeness, Lines, Listing, Outcome, RunFault};
use std::alloc::Global;

/// Reads a log to its end, and writes the report of all that is wrong with it: two lines for each
/// offence that is listed, in order, those of a fault of the log, and how many offences were found.
/// For a log with nothing wrong, it is the report of the verdict.
///
/// An event that offends is skipped, as if it had not been sent, and the next is judged after those
/// that keep the rules. After a fault of a side's frames, the other side is still read. The lines
/// of an offence are written when it is found.
///
/// # Errors
/// `Read` is answered where the source failed, `Write` where the sink did, and `Memory` where
/// memory was refused; what was written before stays written.
pub fn run_survey<R: Source, W: Sink>(
    alloc: Global,
    reader: &mut R,
    writer: &mut W,
    limits: Limits,
    completeness: Completeness,
    listing: Listing,
    form: Form,
) -> Result<Outcome, RunFault>
    // The verdict is the one that `run_check` gives, or `run_check_complete`: the first No that is
    // listed, else the fault of the log, else Yes.
    ensures passes { PassesOn (run_in form (report_run completeness listing)) limits
        (ports (R.told reader.old) (R.told reader.new) (W.told writer.old) (W.told writer.new))
        result }
{
    let options = Options {
        completeness,
        listing,
        lines: None,
    };
    let account = Survey::new(alloc, options);
    pass_in(alloc, reader, writer, limits, account, form)
}

/// Reads a log to its end, and writes a line for each event that is kept, short or long, and in
/// its place the two lines of each that offends; then what [`run_survey`] writes at the end, where
/// it lists every offence.
///
/// An event that offends is skipped, as if it had not been sent. The lines of an event are written
/// when it is heard.
///
/// # Errors
/// `Read` is answered where the source failed, `Write` where the sink did, and `Memory` where
/// memory was refused; what was written before stays written.
pub fn run_show_all<R: Source, W: Sink>(
    alloc: Global,
    reader: &mut R,
    writer: &mut W,
    limits: Limits,
    lines: Lines,
    form: Form,
) -> Result<Outcome, RunFault>
    // The verdict is the one that `run_check` gives.
    ensures passes { PassesOn (run_in form (show_all_run lines)) limits
        (ports (R.told reader.old) (R.told reader.new) (W.told writer.old) (W.told writer.new))
        result }
{
    let options = Options {
        completeness: Completeness::Ignored,
        listing: Listing::Every,
        lines: Some(lines),
    };
    let account = Survey::new(alloc, options);
    pass_in(alloc, reader, writer, limits, account, form)
}
