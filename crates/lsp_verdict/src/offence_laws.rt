//! Laws about the list of offences of a session. Each is the contract of a function that does
//! nothing.
#![tactic(auto, using(crate::proofs::Theorems::offence_laws))]

ghost use Rattle.lsp_verdict.specs.Laws.{AllAreKept, FirstListed, KeptAreOthers, KeptOffendNowhere};
ghost use Rattle.lsp_verdict.specs.Laws.{ListedOffend, NothingListed, OneSurvey, SomeSurvey};
ghost use Rattle.lsp_verdict.specs.Laws.{SurveyAgrees};

/// The kept events, from which those that offend are left out, by themselves break no rule.
pub fn kept_offend_nowhere()
    ensures { KeptOffendNowhere }
{}

/// They are exactly the events that do not offend after the kept ones before them.
pub fn kept_are_others()
    ensures { KeptAreOthers }
{}

/// If no event offends, all are kept.
pub fn all_are_kept()
    ensures { AllAreKept }
{}

/// An offence is listed exactly if an event offends after the kept ones before it.
pub fn listed_offend()
    ensures { ListedOffend }
{}

/// The first offence listed is the No of the verdict, and it follows from no other.
pub fn first_listed()
    ensures { FirstListed }
{}

/// Nothing is listed exactly if no event offends.
pub fn nothing_listed()
    ensures { NothingListed }
{}

/// The verdict on a log is its first listed offence. If nothing is listed, it is the fault of the
/// log, else Yes with the same summary.
pub fn survey_agrees()
    ensures { SurveyAgrees }
{}

/// Every log has a list of its offences.
pub fn some_survey()
    ensures { SomeSurvey }
{}

/// It has only one.
pub fn one_survey()
    ensures { OneSurvey }
{}
