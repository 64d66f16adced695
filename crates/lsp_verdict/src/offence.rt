//! An offence of a session, as it is listed and reported.
ghost use Rattle.std.specs.Prelude.{◌≡◌, ◌∷◌, [], List, IfOk, string_bytes, codes, decimal};
ghost use Rattle.std.specs.Prelude.{◌++◌, ℕ};
ghost use Rattle.lsp_verdict.specs.Given.{AreCounts, given_offence, offence_view, verdict_view};
ghost use Rattle.lsp_verdict.specs.Event.{Event};
ghost use Rattle.lsp_verdict.specs.Report.{line};
ghost use Rattle.lsp_verdict.specs.Survey.{follow_words, offence_lines};
ghost use Rattle.lsp_verdict.specs.Verdict.{no_next};

use crate::counts::Counts;
use crate::names::who_name;
use crate::texts::text_of;
use crate::verdict::{Verdict, Who};
use lsp_rpc::Result;
use std::alloc::Global;

/// An offence of a session, and whether it follows from an earlier one.
#[derive(Clone, Copy, Debug, PartialEq, Eq)]
pub struct Offence {
    pub rule: u16,
    pub who: Who,
    /// Its number among the events of `who`, from 1.
    pub number: u64,
    /// Its number among all events, from 1.
    pub event: u64,
    /// Whether it arises only because an earlier offence left the two sides out of step.
    pub follows: bool,
}

impl Offence {
    /// The offence against this rule at the next event.
    pub fn next(counts: &Counts, rule: u16, who: Who, follows: bool) -> Offence
        ensures { (events : List Event) → AreCounts counts.now events
            → offence_view result ≡ given_offence
            (record { no = no_next rule who events; follows = follows }) }
    {
        let (number, event) = counts.next(who);
        Offence {
            rule,
            who,
            number,
            event,
            follows,
        }
    }

    /// The verdict No for this offence.
    pub fn verdict(&self) -> Verdict
        ensures { verdict_view result ≡ (offence_view self.now).no }
    {
        Verdict::No {
            rule: self.rule,
            who: self.who,
            number: self.number,
            event: self.event,
        }
    }
}

/// What is put behind the last word of a line: the word `follows`, where an offence does.
fn follow_end(follows: bool) -> &'static str
    ensures { (word : List ℕ) →
        line ((word ++ result.now) ∷ []) ≡ line (word ∷ follow_words follows) }
{
    if follows { " follows" } else { "" }
}

/// The two lines that list an offence: the rule, whose event it is, its number among theirs, its
/// number among all events, both from 1, the word `follows` if it follows from an earlier one; and
/// the rule's fixed text.
///
/// # Errors
/// `Memory` where memory was refused.
pub fn offence_report(alloc: Global, offence: &Offence) -> Result<String>
    ensures { IfOk result (λ written. string_bytes written
        ≡ offence_lines (offence_view offence.now)) }
{
    let Offence {
        rule,
        who,
        number,
        event,
        follows,
    } = *offence;
    let name = who_name(who);
    let end = follow_end(follows);
    let text = text_of(rule);
    let report = format!(in alloc; "no {rule} {name} {number} event {event}{end}\n{text}\n")?;
    Ok(report)
}

/// The line with the number of offences found, and how many of them follow from earlier ones.
pub fn found_report(alloc: Global, found: u64, following: u64) -> Result<String>
    ensures { IfOk result (λ written. string_bytes written
        ≡ line (codes "offences" ∷ decimal found ∷ codes "following" ∷ decimal following ∷ [])) }
{
    let report = format!(in alloc; "offences {found} following {following}\n")?;
    Ok(report)
}
