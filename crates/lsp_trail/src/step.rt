//! What a kept event does to a document.
ghost use Rattle.std.specs.Prelude.{◌≡◌};
ghost use Rattle.lsp_docs.specs.Taken.{call_view};
ghost use Rattle.lsp_trail.specs.History as spec;

use lsp_docs::{Call, Match, Took};

/// What a kept event does to a document.
#[derive(Clone, Copy, Debug, PartialEq, Eq)]
pub(crate) enum Step {
    /// It brings it to this version: it opens it, or changes it.
    Reaches { version: i32, opens: bool },
    /// It closes it.
    Closes,
    /// It shows a text of this version, and is answered so.
    Shows(i32, Match),
}

/// What a call does that says this. One that saves a document leaves it as it is.
#[inline(always)]
pub(crate) fn step_of(call: Call<'_>, said: Took) -> Option<Step>
    ensures { result ≡ spec.step_of (call_view call.entry) said }
{
    match call {
        Call::Opens { version, .. } => {
            let opens = true;
            Some(Step::Reaches { version, opens })
        }
        Call::Changes { version, .. } => {
            let opens = false;
            Some(Step::Reaches { version, opens })
        }
        Call::Closes { .. } => Some(Step::Closes),
        Call::Saves { .. } => None,
        Call::Shows { version, .. } => match said {
            Took::Shown(answer) => Some(Step::Shows(version, answer)),
            _ => None,
        },
    }
}
