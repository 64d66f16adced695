//! How the session of a log ends.
ghost use Rattle.std.specs.Prelude.{◌≡◌, ◌++◌, ◌+◌, ◌<◌, ◌^◌, List, map, IfOk, OnOk, length};
ghost use Rattle.std.specs.Prelude.{option_map};
ghost use Rattle.lsp_replay.specs.Common.{AreCounts, bad_log_of, by_itself, Event, Heard};
ghost use Rattle.lsp_replay.specs.Common.{offence_view, Stood, Terms, verdict_view};
ghost use Rattle.lsp_replay.specs.LogEvents.{flaw_of};
ghost use Rattle.lsp_survey.specs.SessionEnds.{ends_held, listed_by, second_end};

use lsp_lined::Lined;
use lsp_replay::{End, Events, LogEvents, first_end};
use lsp_rpc::{Result, Side};
use lsp_types::rules;
use lsp_verdict::{Completeness, Counts, Offence, Verdict, Who};

/// How a session ends.
#[derive(Drop)]
pub struct SessionEnd {
    /// What is listed of it; nothing where the log has a fault.
    pub listed: Vec<Offence>,
    /// The fault of the log, if it has one.
    pub bad: Option<Verdict>,
}

/// How the session of a log ends after the events heard, which may have to be complete.
///
/// # Errors
/// `Memory` where memory was refused.
pub fn session_end(
    held: &Events<Lined>,
    log: &LogEvents,
    end: End,
    completeness: Completeness,
) -> Result<SessionEnd>
    ensures listed { IfOk result (λ told. (terms : Terms) (heard : List Heard)
        → Stood terms held.now.session held.now.docs held.now.counts heard
        → length heard < 2 ^ 63 → map offence_view told.listed.items
        ≡ map by_itself (ends_held completeness terms heard log.now end)) }
    ensures bad { IfOk result (λ told.
        option_map verdict_view told.bad ≡ bad_log_of (flaw_of end)) }
{
    let mut listed = Vec::new(held.docs.alloc());
    if let End::Bad { number, fault } = end {
        return Ok(SessionEnd {
            listed,
            bad: Some(Verdict::BadLog { number, fault }),
        });
    }
    let editor = log.ends_inside(Side::Editor);
    let server = log.ends_inside(Side::Server);
    let counts = &held.counts;
    let first = first_end(held, editor, server, completeness);
    list(&mut listed, counts, first)?;
    list(&mut listed, counts, second_end(editor, server))?;
    Ok(SessionEnd { listed, bad: None })
}

/// Lists the offence of the end by this rule, if one is broken, whose it is.
fn list(listed: &mut Vec<Offence>, counts: &Counts, broken: Option<(u16, Who)>) -> Result<()>
    ensures { OnOk result ((events : List Event) → AreCounts counts.now events
        → length events + 1 < 2 ^ 64 → map offence_view listed.new.items
        ≡ map offence_view listed.old.items ++ listed_by broken events) }
{
    let Some((rule, by)) = broken else {
        return Ok(());
    };
    listed.push(Offence::next(counts, rule, by, false))?;
    Ok(())
}

/// 107 for the server, where the streams of both sides end inside a frame.
fn second_end(editor: bool, server: bool) -> Option<(u16, Who)>
    ensures { result ≡ second_end editor server }
{
    if editor && server {
        Some((rules::STREAM_ENDS_INSIDE_FRAME, Who::Server))
    } else {
        None
    }
}
