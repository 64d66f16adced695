//! What is wrong where a session ends.
ghost use Rattle.std.specs.Prelude.{◌≡◌, List};
ghost use Rattle.lsp_replay.specs.SessionEnd.{first_end};
ghost use Rattle.lsp_replay.specs.Standing.{Holds};
ghost use Rattle.lsp_verdict.specs.Event.{Event};

use crate::events::Events;
use lsp_text::TextStore;
use lsp_types::rules;
use lsp_verdict::{Completeness, Who};

/// The rule that is broken first where the session ends after the events that are held, and by
/// whom: bytes of the editor's or the server's are not a whole frame; or, where it must be
/// complete, a request of the editor's has no answer, else an `exit` was not sent.
pub fn first_end<S: TextStore>(
    events: &Events<S>,
    editor: bool,
    server: bool,
    completeness: Completeness,
) -> Option<(u16, Who)>
    ensures { (kept : List Event) → Holds events.now.session events.now.docs kept
        → result ≡ first_end completeness kept editor server }
{
    if editor {
        return Some((rules::STREAM_ENDS_INSIDE_FRAME, Who::Editor));
    }
    if server {
        return Some((rules::STREAM_ENDS_INSIDE_FRAME, Who::Server));
    }
    match completeness {
        Completeness::Ignored => None,
        Completeness::Required => Some((events.session.incomplete()?, Who::Editor)),
    }
}
