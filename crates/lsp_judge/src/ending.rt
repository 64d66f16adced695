//! What is given where a session ends of which no event offends.
ghost use Rattle.std.specs.Prelude.{◌≡◌, IfOk, List};
ghost use Rattle.lsp_replay.specs.Common.{Event, Follows, verdict_view};
ghost use Rattle.lsp_judge.specs.Standing.{EndIs, closed_by, end_by};

use crate::ruling::Ruling;
use lsp_replay::{End, Events, LogEvents, first_end, summary_of};
use lsp_rpc::{Result, Side};
use lsp_text::TextStore;
use lsp_verdict::{Completeness, Summary, Verdict};

/// The verdict where the log ends so after these events: a fault of it, or what its session gives.
pub fn verdict_at<S: TextStore>(
    events: &Events<S>,
    log: &LogEvents,
    end: End,
    completeness: Completeness,
) -> Result<Verdict>
    ensures { IfOk result (λ verdict. (so_far : List Event)
        → Follows events.now.session events.now.docs events.now.counts so_far
        → verdict_view verdict
        ≡ closed_by completeness events.now.docs.terms so_far log.now end) }
{
    if let End::Bad { number, fault } = end {
        return Ok(Verdict::BadLog { number, fault });
    }
    let editor = log.ends_inside(Side::Editor);
    let server = log.ends_inside(Side::Server);
    match end_of(events, editor, server, completeness) {
        Ok(summary) => Ok(Verdict::Yes(summary)),
        Err(ruling) => ruling.answer(),
    }
}

/// The result of the events where the session ends after them, or the No by what is wrong there.
pub(crate) fn end_of<S: TextStore>(
    events: &Events<S>,
    editor: bool,
    server: bool,
    completeness: Completeness,
) -> Result<Summary, Ruling>
    ensures { (so_far : List Event) → Follows events.now.session events.now.docs events.now.counts
        so_far
        → EndIs result (end_by completeness events.now.docs.terms so_far editor server) }
{
    match first_end(events, editor, server, completeness) {
        Some((rule, who)) => Err(Ruling::no_next(&events.counts, rule, who)),
        None => Ok(summary_of(events.docs.alloc(), events)?),
    }
}
