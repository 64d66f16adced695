//! What is answered for the text held after a message, and what is said for it.
ghost use Rattle.std.specs.Prelude.{◌≡◌, ◌++◌, List, IfOk, string_bytes};
ghost use Rattle.lsp_docs.specs.Calls.{Call};
ghost use Rattle.lsp_docs.specs.Documents.{held};
ghost use Rattle.lsp_docs.specs.State.{Stands};
ghost use Rattle.lsp_replay.specs.LogEvents.{flaw_of};
ghost use Rattle.lsp_replay.specs.TextAnswers.{StopsWith, answer_view, end_answer};
ghost use Rattle.lsp_verdict.specs.Given.{verdict_view};
ghost use Rattle.lsp_verdict.specs.Shown.{held_answer, missing_answer, EndsAs, written_of};
ghost use Rattle.lsp_verdict.specs.Verdict.{bad_log_of};

use crate::log_events::End;
use crate::seen::Flow;
use lsp_docs::Docs;
use lsp_rpc::Result;
use lsp_text::TextStore;
use lsp_types::rules;
use lsp_verdict::{Outcome, Verdict};
use std::alloc::Global;

/// What is answered for the text that the server holds of a URI just after a message of the
/// editor's.
#[derive(Drop)]
pub enum TextAnswer {
    /// The text.
    Text(String),
    /// No document of the URI is open there.
    NoDocument,
    /// The editor sent fewer messages, and nothing else is wrong, apart from bytes at the end that
    /// are not a whole frame.
    TooFew,
    /// The verdict is not that two texts differ.
    NoDifference,
    /// An event offends, at that message or before it, or the log has a fault before it.
    Refused(Verdict),
}

impl TextAnswer {
    /// The text that is held of a URI.
    pub fn held<S: TextStore>(alloc: Global, docs: &Docs<S>, uri: &str) -> Result<TextAnswer>
        ensures { IfOk result (λ answer. (calls : List Call) → Stands docs.now calls
            → answer_view answer ≡ held_answer (held docs.now.terms uri.now calls)) }
    {
        match docs.store_of(uri) {
            Some(store) => Ok(TextAnswer::Text(store.to_text(alloc)?)),
            None => Ok(TextAnswer::NoDocument),
        }
    }

    /// What the verdict on a session says where the message is missing in it.
    pub fn missing(verdict: Verdict) -> TextAnswer
        ensures { answer_view result ≡ missing_answer (verdict_view verdict) }
    {
        match verdict {
            Verdict::Yes(_) => TextAnswer::TooFew,
            Verdict::No {
                rule: rules::STREAM_ENDS_INSIDE_FRAME,
                ..
            } => TextAnswer::TooFew,
            refusal => TextAnswer::Refused(refusal),
        }
    }

    /// What the end of a log says where the message is missing in it.
    pub(crate) fn at_end(end: End) -> TextAnswer
        ensures { answer_view result ≡ end_answer (bad_log_of (flaw_of end)) }
    {
        match end {
            End::Sound => TextAnswer::TooFew,
            End::Bad { number, fault } => TextAnswer::Refused(Verdict::BadLog { number, fault }),
        }
    }

    /// Ends a run with the answer, which is added to a text.
    ///
    /// # Errors
    /// `Memory` where memory was refused.
    pub fn stop(self, text: &mut String) -> Result<Flow>
        ensures { IfOk result
            (StopsWith (answer_view self) (string_bytes text.old) (string_bytes text.new)) }
    {
        let outcome = self.add(text)?;
        let boxed = Box::new(*text.allocator(), outcome)?;
        Ok(Flow::Stop(boxed))
    }

    /// Adds the text, or nothing where there is none, and says how a run ends by that.
    ///
    /// # Errors
    /// `Memory` where memory was refused.
    pub fn add(self, text: &mut String) -> Result<Outcome>
        ensures { IfOk result (λ outcome.
            (string_bytes text.new ≡ string_bytes text.old ++ written_of (answer_view self))
            × EndsAs (answer_view self) outcome) }
    {
        match self {
            TextAnswer::Text(held) => {
                text.push_str(held.as_str())?;
                Ok(Outcome::Done)
            }
            TextAnswer::NoDocument => Ok(Outcome::NoDocument),
            TextAnswer::TooFew => Ok(Outcome::TooFew),
            TextAnswer::NoDifference => Ok(Outcome::NoDifference),
            TextAnswer::Refused(verdict) => Ok(Outcome::Judged(verdict)),
        }
    }
}
