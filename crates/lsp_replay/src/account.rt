//! What a run says of a log.
ghost use Rattle.std.specs.Prelude.{◌≡◌, ◌++◌, ◌∷◌, ◌+◌, ◌<◌, ◌^◌, [], List, IfOk, length};
ghost use Rattle.std.specs.Prelude.{OnErr, string_bytes, true};
ghost use Rattle.lsp_docs.specs.Documents.{Terms};
ghost use Rattle.lsp_replay.specs.Run.{Run};
ghost use Rattle.lsp_replay.specs.Telling.{Closes, IsEnd, IsSeen, Says, ShowsFault, Stood};
ghost use Rattle.lsp_verdict.specs.Heard.{Heard, heard_events};

use crate::events::Events;
use crate::log_events::{End, LogEvents};
use crate::seen::{Flow, Seen};
use lsp_lined::Lined;
use lsp_rpc::Result;
use lsp_verdict::Outcome;

/// What a run says of a log, event by event, and at its end. It adds to a text, and writes nothing.
pub trait Account {
    /// What is asked of the run, which stays.
    ghost Asked: { Type 0 };

    ghost asked: { Self → Asked };
    /// What it says, as a definition.
    ghost run: { Asked → Run };
    /// It was told of these events, and stopped at none.
    ghost stands: { Self → Terms → List Heard → Type 0 };

    /// Says what there is to say of the next event.
    ///
    /// # Errors
    /// `Memory` where memory was refused, which the run wants of such an event.
    fn event(&mut self, held: &Events<Lined>, seen: &Seen<'_>, text: &mut String) -> Result<Flow>
        ensures asked { asked self.new ≡ asked self.old }
        ensures memory { OnErr result ((terms : Terms) (before : List Heard) (h : Heard)
            → stands self.old terms before
            → IsSeen held.now.session held.now.docs held.now.counts seen.now terms before h
            → (run (asked self.old)).wants terms before h ≡ true) }
        ensures says { IfOk result (λ flow. (terms : Terms) (before : List Heard) (h : Heard)
            → stands self.old terms before
            → IsSeen held.now.session held.now.docs held.now.counts seen.now terms before h
            → Says (run (asked self.old)) terms before h
            (ShowsFault seen.now.raw (heard_events before)) (string_bytes text.old)
            (string_bytes text.new) (stands self.new terms (before ++ h ∷ [])) flow) };

    /// Says what there is to say at the end of the log, and how the run ends. The log has its last
    /// bytes, and where it has a fault, the place of that.
    ///
    /// # Errors
    /// `Memory` where memory was refused.
    fn end(
        &mut self,
        held: &Events<Lined>,
        log: &LogEvents,
        end: End,
        text: &mut String,
    ) -> Result<Outcome>
        ensures closes { IfOk result (λ outcome. (terms : Terms) (heard : List Heard)
            → stands self.old terms heard
            → Stood terms held.now.session held.now.docs held.now.counts heard
            → length heard < 2 ^ 63
            → Closes (run (asked self.old)) terms heard (IsEnd log.now end heard)
            (string_bytes text.old) (string_bytes text.new) outcome) };
}
