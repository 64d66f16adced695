//! Where an event stands.
ghost use Rattle.std.specs.Prelude.{◌≡◌, List, [], ◌∷◌, ◌++◌};
ghost use Rattle.lsp_replay.specs.Lines.{place_of};
ghost use Rattle.lsp_verdict.specs.Given.{AreCounts};
ghost use Rattle.lsp_verdict.specs.Event.{Event};
ghost use Rattle.lsp_verdict.specs.Verdict as spec;

use lsp_verdict::{Counts, Who};

/// Where an event stands, as reports name it.
#[derive(Clone, Copy, Debug, PartialEq, Eq)]
pub struct EventPlace {
    /// Its number among all events, from 1.
    pub event: u64,
    /// Whose it is.
    pub who: Who,
    /// Its number among theirs, from 1.
    pub number: u64,
}

impl EventPlace {
    /// The place of the last event of this origin that was counted, where these are the counts
    /// after it.
    pub fn last(counts: &Counts, who: Who) -> EventPlace
        ensures { (before : List Event) (event : Event)
            → AreCounts counts.now (before ++ event ∷ [])
            → who ≡ spec.whose event → result ≡ place_of before event }
    {
        EventPlace {
            event: counts.all,
            who,
            number: counts.of(who),
        }
    }
}
