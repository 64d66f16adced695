//! What is said where all that is wrong with a log is listed, and its kept events are shown or
//! aren't.
ghost use Rattle.std.specs.Prelude.{◌≡◌, []};
ghost use Rattle.lsp_docs.specs.Documents.{Terms};
ghost use Rattle.lsp_survey.specs.SurveyRun.{SurveyAsked, SurveyStands, survey_run};

use crate::end_of_session::{SessionEnd, session_end};
use crate::losses::Losses;
use crate::offence_count::OffenceCount;
use lsp_lined::Lined;
use lsp_replay::{Account, End, Events, Fate, Flow, LogEvents, Seen, last_offence, push_kept_line};
use lsp_rpc::Result;
use lsp_verdict::{Completeness, Lines, Listing, Outcome};
use std::alloc::Global;

/// What is listed of a log, and what is shown.
#[derive(Clone, Copy)]
pub(crate) struct Options {
    /// Whether the session must be complete.
    pub(crate) completeness: Completeness,
    /// Which offences are listed.
    pub(crate) listing: Listing,
    /// By which lines the kept events are shown, if they are.
    pub(crate) lines: Option<Lines>,
}

/// Lists the offences of a log in their places and how it ends, and may show the events that are
/// kept.
#[derive(Drop)]
pub(crate) struct Survey {
    options: Options,
    losses: Losses,
    tally: OffenceCount,
}

impl Survey {
    /// A survey that was told of nothing.
    pub(crate) fn new(alloc: Global, options: Options) -> Survey
        ensures options { result.options ≡ options }
        ensures stands { (terms : Terms) → SurveyStands result terms [] }
    {
        Survey {
            options,
            losses: Losses::new(alloc),
            tally: OffenceCount::new(),
        }
    }
}

impl Account for Survey {
    ghost Asked = { SurveyAsked };

    ghost asked = { λ s. s.options };

    ghost run = { survey_run };

    ghost stands = { SurveyStands };

    #[inline(always)]
    fn event(&mut self, held: &Events<Lined>, seen: &Seen<'_>, text: &mut String) -> Result<Flow> {
        let follows = self.losses.tell(held, seen)?;
        let Fate::Offends { rule, .. } = seen.fate else {
            push_kept_line(text, self.options.lines, held, seen)?;
            return Ok(Flow::GoOn);
        };
        let offence = last_offence(&held.counts, seen.raw, rule, follows);
        let listing = self.options.listing;
        self.tally.list(listing, &offence, text)?;
        Ok(Flow::GoOn)
    }

    fn end(
        &mut self,
        held: &Events<Lined>,
        log: &LogEvents,
        end: End,
        text: &mut String,
    ) -> Result<Outcome> {
        let completeness = self.options.completeness;
        let listing = self.options.listing;
        let SessionEnd { listed, bad } = session_end(held, log, end, completeness)?;
        self.tally.list_all(listing, listed.as_slice(), text)?;
        let verdict = self.tally.push_verdict(held, bad, text)?;
        self.tally.push_count(text)?;
        Ok(Outcome::Judged(verdict))
    }
}
