//! What is said of the suspects that would make the texts equal.
ghost use Rattle.std.specs.Prelude.{◌≡◌, ◌++◌, List, Some, IfOk, OnOk, option_map};
ghost use Rattle.lsp_trail.specs.Common.{AreMarks, call_rule, call_view, calls, Event, kept_of};
ghost use Rattle.lsp_trail.specs.Common.{made_in, recent, shown_view, StandsAfter, steps, Terms};
ghost use Rattle.lsp_trail.specs.Common.{terms_in};
ghost use Rattle.lsp_docs.specs.Tried.{IsTried};
ghost use Rattle.lsp_origins.specs.Fits.{suspects_view};
ghost use Rattle.lsp_origins.specs.Told as spec;

use crate::fits::{Suspect, Trial, listed, push_fitting, suspects_of};
use crate::other_lines::push_lines_by;
use crate::rearranged::{Way, push_rearranged};
use crate::right_from::push_right_from;
use crate::suspects::Until;
use lsp_docs::{Call, Tried};
use lsp_facts::{Facts, texts_of};
use lsp_lined::Lined;
use lsp_rpc::{Encoding, Result};
use lsp_trail::{Marks, Past, ShownText, VersionEvent};

/// Adds what would have the suspects make the other text of a call that breaks 608 or 702. The past
/// is of the events before it, and this was tried of its changes.
pub(crate) fn push_told(
    facts: &mut Facts,
    past: Past<'_>,
    call: Call<'_>,
    rule: u16,
    until: Until,
    tried: Option<&Tried<Lined>>,
) -> Result<()>
    ensures { OnOk result ((before : List Event) → StandsAfter past.entry before
        → call_rule (terms_in past.entry) (calls (kept_of (terms_in past.entry) before))
        (call_view call.entry) ≡ Some rule
        → IsTried (terms_in past.entry) (calls (kept_of (terms_in past.entry) before))
        (call_view call.entry) (made_in (option_map (λ t. t.now) tried.entry))
        → facts.new ≡ facts.old
        ++ spec.told_facts (terms_in past.entry) before rule until (call_view call.entry)) }
{
    let Past { held, trail } = past;
    let Some(base) = trail.bases.base_of(call.uri()) else {
        return Ok(());
    };
    let Some(text) = &base.text else {
        return Ok(());
    };
    let Some(suspected) = suspects_of(base, until, call) else {
        return Ok(());
    };
    let Some(texts) = texts_of(&held.docs, call, rule, tried) else {
        return Ok(());
    };
    let suspects = listed(facts.alloc(), suspected)?;
    let setters = setters_until(&trail.marks, call.uri(), until)?;
    let trial = Trial {
        docs: &held.docs,
        encoding: held.session.encoding().unwrap_or(Encoding::Utf16),
        text,
        other: texts.in_editor,
    };
    let shown = trail.uncompared.later(call.uri(), base.since);
    push_tried(facts, trial, suspects.as_slice(), setters.as_slice(), shown)
}

/// The messages that may be named: the last ones that set a version, and the call that offends,
/// where the text came about by it.
fn setters_until(marks: &Marks, uri: &str, until: Until) -> Result<Vec<VersionEvent>>
    ensures { IfOk result (λ setters. (terms : Terms) (before : List Event)
        → AreMarks terms marks.now.map.entries before
        → setters.items ≡ spec.setters_until until (recent (steps terms uri.now before))) }
{
    let mut setters = marks.setters(uri)?;
    match until {
        Until::Message { place, version } => {
            let rank = 0;
            setters.push(VersionEvent {
                place,
                version,
                rank,
            })?;
            Ok(setters)
        }
        _ => Ok(setters),
    }
}

/// Adds in which other encodings, and with which other line ends, the suspects make the other text,
/// which of them would have to be taken otherwise, and after which snapshot they are right.
fn push_tried(
    facts: &mut Facts,
    trial: Trial<'_>,
    suspects: &[Suspect<'_>],
    setters: &[VersionEvent],
    shown: Option<&ShownText>,
) -> Result<()>
    ensures { OnOk result (facts.new ≡ facts.old
        ++ spec.told_by trial.entry setters.now (option_map (λ s. shown_view s.now) shown.entry)
        (suspects_view suspects.now)) }
{
    push_fitting(facts, trial, suspects)?;
    push_lines_by(facts, trial, suspects)?;
    push_rearranged(facts, trial, Way::AtOnce, suspects, setters)?;
    push_rearranged(facts, trial, Way::Exchanged, suspects, setters)?;
    push_rearranged(facts, trial, Way::Without, suspects, setters)?;
    push_right_from(facts, trial, suspects, shown)
}
