//! The text that is held after a message of the editor's, as an account.
ghost use Rattle.std.specs.Prelude.{◌≡◌, ◌<◌, List, option_map};
ghost use Rattle.lsp_docs.specs.Documents.{Terms};
ghost use Rattle.lsp_replay.specs.Telling.{IsSeen, no_of};
ghost use Rattle.lsp_replay.specs.TextAnswers.{TextAsked, refusal_by, text_run};
ghost use Rattle.lsp_types.specs.declared.side.Side.TheVariants.{Editor};
ghost use Rattle.lsp_verdict.specs.Given.{verdict_view};
ghost use Rattle.lsp_verdict.specs.Heard.{Heard, heard_events};
ghost use Rattle.lsp_verdict.specs.Verdict.{count_of, is_of};

use crate::account::Account;
use crate::events::Events;
use crate::log_events::{End, LogEvents};
use crate::seen::{Fate, Flow, Seen, last_offence};
use crate::text_answer::TextAnswer;
use lsp_lined::Lined;
use lsp_rpc::Result;
use lsp_verdict::{Outcome, Verdict};

/// Says the text that is held of a URI just after the editor's message of this number, from 1.
#[derive(Drop)]
pub struct HeldText<'a> {
    pub number: u64,
    pub uri: &'a str,
    /// Whether an event that offends is skipped, as if it had not been sent, or ends the run.
    pub skips: bool,
}

impl HeldText<'_> {
    /// The No at an event that ends the run.
    fn refusal(&self, held: &Events<Lined>, seen: &Seen<'_>) -> Option<Verdict>
        ensures { (terms : Terms) (before : List Heard) (h : Heard)
            → IsSeen held.now.session held.now.docs held.now.counts seen.now terms before h
            → option_map verdict_view result ≡ refusal_by self.now.skips (no_of terms before h) }
    {
        if self.skips {
            return None;
        }
        match seen.fate {
            Fate::Offends { rule, .. } => {
                Some(last_offence(&held.counts, seen.raw, rule, false).verdict())
            }
            Fate::Kept(_) => None,
        }
    }
}

impl Account for HeldText<'_> {
    ghost Asked = { TextAsked };

    ghost asked = { λ account. record {
      number = account.number;
      uri = account.uri.now;
      skips = account.skips;
    } };

    ghost run = { text_run };

    ghost stands = { λ account terms heard.
        count_of (is_of Editor) (heard_events heard) < account.number };

    fn event(&mut self, held: &Events<Lined>, seen: &Seen<'_>, text: &mut String) -> Result<Flow> {
        if let Some(verdict) = self.refusal(held, seen) {
            return TextAnswer::missing(verdict).stop(text);
        }
        if held.counts.editor != self.number {
            return Ok(Flow::GoOn);
        }
        TextAnswer::held(*text.allocator(), &held.docs, self.uri)?.stop(text)
    }

    fn end(
        &mut self,
        _held: &Events<Lined>,
        _log: &LogEvents,
        end: End,
        text: &mut String,
    ) -> Result<Outcome> {
        let outcome = TextAnswer::at_end(end).add(text)?;
        Ok(outcome)
    }
}
