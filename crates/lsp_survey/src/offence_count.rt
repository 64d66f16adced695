//! How many offences were found, and what is said of them at the end of a log.
ghost use Rattle.std.specs.Prelude.{◌≡◌, ◌++◌, ◌∷◌, ◌<◌, ◌^◌, ◌||◌, not, [], List, None, IfOk};
ghost use Rattle.std.specs.Prelude.{OnErr, OnOk, length, map, option_map, string_bytes, true};
ghost use Rattle.lsp_replay.specs.Common.{as_given, bad_lines, Event, first_no, first_verdict};
ghost use Rattle.lsp_replay.specs.Common.{Follows, Heard, heard_events, offence_view, report};
ghost use Rattle.lsp_replay.specs.Common.{Stood, summary, Terms, verdict_view, yes};
ghost use Rattle.lsp_survey.specs.Reported.{IsTally, count_line, is_every, lines_of, verdict_lines};
ghost use Rattle.lsp_verdict.specs.Offences.{Offence as SpecOffence};

use lsp_lined::Lined;
use lsp_replay::{Events, summary_of};
use lsp_rpc::Result;
use lsp_verdict::{Listing, Offence, Verdict, found_report, offence_report, verdict_report};

/// The first offence, how many there were, and how many of them follow from earlier ones.
#[derive(Drop)]
pub struct OffenceCount {
    /// The first that was found.
    pub first: Option<Offence>,
    /// How many were found, at most 2^64 - 1.
    pub found: u64,
    /// How many of them follow from earlier ones, at most 2^64 - 1.
    pub following: u64,
}

impl OffenceCount {
    /// The tally of no offences.
    pub fn new() -> OffenceCount
        ensures { IsTally result [] }
    {
        OffenceCount {
            first: None,
            found: 0,
            following: 0,
        }
    }

    /// One more offence.
    pub fn add(&mut self, offence: &Offence)
        ensures { (found : List SpecOffence) → IsTally self.old found
            → IsTally self.new (found ++ offence_view offence.now ∷ []) }
    {
        self.first = self.first.or(Some(*offence));
        self.found = self.found.saturating_add(1);
        if offence.follows {
            self.following = self.following.saturating_add(1);
        }
    }

    /// Counts an offence, and adds its lines to a text where it is listed.
    pub(crate) fn list(
        &mut self,
        listing: Listing,
        offence: &Offence,
        text: &mut String,
    ) -> Result<()>
        ensures tally { (found : List SpecOffence) → IsTally self.old found
            → IsTally self.new (found ++ offence_view offence.now ∷ []) }
        ensures said { OnOk result (string_bytes text.new ≡ string_bytes text.old
            ++ lines_of listing (offence_view offence.now ∷ [])) }
        ensures memory { OnErr result ((is_every listing || not offence.now.follows) ≡ true) }
    {
        self.add(offence);
        if !is_listed(listing, offence.follows) {
            return Ok(());
        }
        let lines = offence_report(*text.allocator(), offence)?;
        Ok(text.push_str(lines.as_str())?)
    }

    /// Does what [`list`](OffenceCount::list) does with one offence after another.
    pub(crate) fn list_all(
        &mut self,
        listing: Listing,
        offences: &[Offence],
        text: &mut String,
    ) -> Result<()>
        ensures tally { OnOk result ((found : List SpecOffence) → IsTally self.old found
            → IsTally self.new (found ++ map offence_view offences.now)) }
        ensures said { OnOk result (string_bytes text.new ≡ string_bytes text.old
            ++ lines_of listing (map offence_view offences.now)) }
    {
        for offence in offences {
            self.list(listing, offence, text)?;
        }
        Ok(())
    }

    /// Adds the lines of a fault of the log to a text, or where nothing was found those of the
    /// verdict, and gives the verdict: the first offence, else the fault of the log, else Yes.
    ///
    /// # Errors
    /// `Memory` where memory was refused.
    pub fn push_verdict(
        &self,
        held: &Events<Lined>,
        bad: Option<Verdict>,
        text: &mut String,
    ) -> Result<Verdict>
        ensures { IfOk result (λ verdict. (terms : Terms) (heard : List Heard)
            (found : List SpecOffence)
            → Stood terms held.now.session held.now.docs held.now.counts heard
            → length heard < 2 ^ 63 → IsTally self.now found
            → (found ≡ [] → first_no terms (heard_events heard) ≡ None)
            → (string_bytes text.new ≡ string_bytes text.old ++ verdict_lines found
            (option_map verdict_view bad) (summary terms (heard_events heard)))
            × (verdict_view verdict ≡ first_verdict found (option_map verdict_view bad)
            (summary terms (heard_events heard)))) }
    {
        match self.first {
            Some(first) => {
                push_bad(&bad, text)?;
                Ok(first.verdict())
            }
            None => {
                let verdict = sound(held, bad)?;
                push_report(&verdict, text)?;
                Ok(verdict)
            }
        }
    }

    /// Adds the line that says how many were found to a text, where any were.
    ///
    /// # Errors
    /// `Memory` where memory was refused.
    pub fn push_count(&self, text: &mut String) -> Result<()>
        ensures { OnOk result ((found : List SpecOffence) → IsTally self.now found
            → length found < 2 ^ 64
            → string_bytes text.new ≡ string_bytes text.old ++ count_line found) }
    {
        if self.found == 0 {
            return Ok(());
        }
        let count = found_report(*text.allocator(), self.found, self.following)?;
        Ok(text.push_str(count.as_str())?)
    }
}

/// The verdict where nothing is listed: the fault of the log, else Yes.
fn sound(held: &Events<Lined>, bad: Option<Verdict>) -> Result<Verdict>
    ensures { IfOk result (λ verdict. (events : List Event)
        → Follows held.now.session held.now.docs held.now.counts events
        → as_given (yes (summary held.now.docs.terms events))
        ≡ yes (summary held.now.docs.terms events)
        → verdict_view verdict ≡ first_verdict [] (option_map verdict_view bad)
        (summary held.now.docs.terms events)) }
{
    match bad {
        Some(verdict) => Ok(verdict),
        None => Ok(Verdict::Yes(summary_of(held.docs.alloc(), held)?)),
    }
}

/// Whether an offence is listed that follows from an earlier one or doesn't.
fn is_listed(listing: Listing, follows: bool) -> bool
    ensures { result ≡ (is_every listing || not follows) }
{
    match listing {
        Listing::Every => true,
        Listing::Causes => !follows,
    }
}

/// Adds the lines of a fault of the log to a text, if it has one.
fn push_bad(bad: &Option<Verdict>, text: &mut String) -> Result<()>
    ensures { OnOk result (string_bytes text.new
        ≡ string_bytes text.old ++ bad_lines (option_map verdict_view bad.now)) }
{
    match bad {
        Some(verdict) => push_report(verdict, text),
        None => Ok(()),
    }
}

/// Adds the report of a verdict to a text.
fn push_report(verdict: &Verdict, text: &mut String) -> Result<()>
    ensures { OnOk result
        (string_bytes text.new ≡ string_bytes text.old ++ report (verdict_view verdict.now)) }
{
    let report = verdict_report(*text.allocator(), verdict)?;
    Ok(text.push_str(report.as_str())?)
}
