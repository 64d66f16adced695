//! Numbers of events.
ghost use Rattle.std.specs.Prelude.{◌≡◌, ◌++◌, ◌∷◌, [], ℕ, List};
ghost use Rattle.lsp_verdict.specs.Given.{AreCounts, as_given};
ghost use Rattle.lsp_verdict.specs.Event.{Event};
ghost use Rattle.lsp_docs.specs.State.{capped};
ghost use Rattle.lsp_verdict.specs.Verdict.{belongs_to, count_of, no, no_next, whose};

use crate::verdict::Who;

/// How many events there were, of each kind and in all. Each count stops at 2^64 - 1.
#[derive(Clone, Copy, Debug, PartialEq, Eq)]
pub struct Counts {
    /// Messages and frame faults of the editor.
    pub editor: u64,
    /// Messages and frame faults of the server.
    pub server: u64,
    /// Snapshots.
    pub snapshots: u64,
    /// All of these.
    pub all: u64,
}

impl Counts {
    /// The counts before the first event.
    pub fn new() -> Counts
        ensures { AreCounts result [] }
    {
        Counts {
            editor: 0,
            server: 0,
            snapshots: 0,
            all: 0,
        }
    }

    /// Counts one more event.
    pub fn add(&mut self, by: Who)
        ensures { (events : List Event) (event : Event) → AreCounts self.old events
            → whose event ≡ by
            → AreCounts self.new (events ++ event ∷ []) }
    {
        match by {
            Who::Editor => self.editor = self.editor.saturating_add(1),
            Who::Server => self.server = self.server.saturating_add(1),
            Who::Snapshot => self.snapshots = self.snapshots.saturating_add(1),
        }
        self.all = self.all.saturating_add(1);
    }

    /// How many events of `by` there were.
    pub fn of(&self, by: Who) -> u64
        ensures { (events : List Event) → AreCounts self.now events
            → result ≡ capped (count_of (belongs_to by) events) }
    {
        match by {
            Who::Editor => self.editor,
            Who::Server => self.server,
            Who::Snapshot => self.snapshots,
        }
    }

    /// The numbers of the next event, from 1: among those of `by`, and among all.
    pub fn next(&self, by: Who) -> (u64, u64)
        ensures { (rule : ℕ) (events : List Event) → AreCounts self.now events
            → no rule by result.0 result.1 ≡ as_given (no_next rule by events) }
    {
        (self.of(by).saturating_add(1), self.all.saturating_add(1))
    }
}
