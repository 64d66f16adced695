//! From which snapshot on the suspects make the text that the editor had.
ghost use Rattle.std.specs.Prelude.{◌≡◌, ◌++◌, ◌∷◌, [], IfOk, OnOk, option_map};
ghost use Rattle.lsp_trail.specs.Common.{later, shown_view};
ghost use Rattle.lsp_origins.specs.Fits.{suspect_view, suspects_view};
ghost use Rattle.lsp_origins.specs.RightFrom as spec;

use crate::fits::{Suspect, Trial, gives};
use lsp_facts::Facts;
use lsp_lined::Lined;
use lsp_rpc::Result;
use lsp_text::TextStore;
use lsp_trail::ShownText;
use std::alloc::Global;

/// Adds the snapshot, if there is one, of whose text the suspects after it make the other text.
pub(crate) fn push_right_from(
    facts: &mut Facts,
    trial: Trial<'_>,
    suspects: &[Suspect<'_>],
    shown: Option<&ShownText>,
) -> Result<()>
    ensures { OnOk result (facts.new ≡ facts.old ++ spec.facts_by trial.entry
        (option_map (λ s. shown_view s.now) shown.entry) (suspects_view suspects.now)) }
{
    let Some(shown) = shown else {
        return Ok(());
    };
    if !is_right_from(trial, suspects, shown)? {
        return Ok(());
    }
    facts.version_by("right-from", shown.version, shown.place)
}

/// Whether the suspects after a snapshot, if there are some, make the other text of its text.
fn is_right_from(trial: Trial<'_>, suspects: &[Suspect<'_>], shown: &ShownText) -> Result<bool>
    ensures { IfOk result (λ is_right. is_right
        ≡ spec.is_right_by trial.entry (suspects_view suspects.now) (shown_view shown.now)) }
{
    let alloc = trial.docs.alloc();
    let after = later_ones(alloc, suspects, shown)?;
    let text = Lined::from_text(alloc, shown.text.as_str())?;
    some_give(trial, &text, after.as_slice())
}

/// Whether there are suspects, and they make the other text of this one.
fn some_give(trial: Trial<'_>, text: &Lined, suspects: &[Suspect<'_>]) -> Result<bool>
    ensures { IfOk result (λ is_given. is_given ≡ spec.some_by trial.entry text.now.content
        (suspects_view suspects.now)) }
{
    if suspects.is_empty() {
        return Ok(false);
    }
    let Trial {
        docs,
        encoding,
        other,
        ..
    } = trial;
    let trial = Trial {
        docs,
        encoding,
        text,
        other,
    };
    gives(trial, encoding, suspects)
}

/// The suspects that set a version after that of a snapshot.
fn later_ones<'a>(
    alloc: Global,
    suspects: &[Suspect<'a>],
    shown: &ShownText,
) -> Result<Vec<Suspect<'a>>>
    ensures { IfOk result (λ all. suspects_view all.items
        ≡ later shown.now.version (suspects_view suspects.now)) }
{
    let mut after = Vec::new(alloc);
    for suspect in suspects {
        push_if_later(&mut after, *suspect, shown)?;
    }
    Ok(after)
}

/// Adds a suspect, if it is one of them.
fn push_if_later<'a>(
    after: &mut Vec<Suspect<'a>>,
    suspect: Suspect<'a>,
    shown: &ShownText,
) -> Result<()>
    ensures { OnOk result (suspects_view after.new.items ≡ suspects_view after.old.items
        ++ later shown.now.version (suspect_view suspect.entry ∷ [])) }
{
    if shown.version < suspect.version {
        after.push(suspect)?;
    }
    Ok(())
}
