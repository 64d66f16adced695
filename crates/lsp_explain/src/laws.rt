//! Laws of what is explained.
ghost use Rattle.lsp_explain.specs.ExplainLaws.{AllAnswersVerdict, BeginsWithReport};
ghost use Rattle.lsp_explain.specs.ExplainLaws.{CausesAreExplained, ComparedAtItsEnd};
ghost use Rattle.lsp_explain.specs.ExplainLaws.{ComparedTextIsOfSurvey};
ghost use Rattle.lsp_explain.specs.ExplainLaws.{ExplanationAnswersVerdict, ExplanationAtItsEnd};
ghost use Rattle.lsp_explain.specs.ExplainLaws.{FirstIsVerdict, NotedAnswersVerdict};
ghost use Rattle.lsp_explain.specs.ExplainLaws.{OneComparedText, OneExplanation};
ghost use Rattle.lsp_explain.specs.ExplainLaws.{OneExplanationOfAll, OneNotedExplanation, YesIsReport};
ghost use Rattle.lsp_explain.specs.NotedRun.{NotesAreBeside};
ghost use Rattle.lsp_trail.specs.StandardMethods.{MethodsHaveRows, RowsAreStandard};

/// An explanation begins with the report of the verdict.
pub fn explanation_begins_with_report()
    ensures { BeginsWithReport }
{}

/// The explanation of Yes is the report, and after it the notes.
pub fn explanation_of_yes_is_report()
    ensures { YesIsReport }
{}

/// Of all that is wrong with a log, exactly the offences that follow from no other are explained.
pub fn all_explained_are_causes()
    ensures { CausesAreExplained }
{}

/// The first of them is the verdict on the log.
pub fn first_explained_is_verdict()
    ensures { FirstIsVerdict }
{}

/// Each log has exactly one explanation.
pub fn one_explanation()
    ensures { OneExplanation }
{}

/// Each log has exactly one explanation of all that is wrong with it.
pub fn one_explanation_of_all()
    ensures { OneExplanationOfAll }
{}

/// Each log has exactly one explanation of all that is wrong with it and of the notes.
pub fn one_noted_explanation()
    ensures { OneNotedExplanation }
{}

/// Without its notes, what `explain --all --notes` writes of a log is what `explain --all` does.
pub fn notes_are_beside()
    ensures { NotesAreBeside }
{}

/// A log has exactly one answer for each of the two texts of a verdict that says that they differ.
pub fn one_compared_text()
    ensures { OneComparedText }
{}

/// It is that of the two texts which differ at the first event that offends.
pub fn compared_text_is_of_survey()
    ensures { ComparedTextIsOfSurvey }
{}

/// The answer that comes with an explanation is the verdict on the log.
pub fn explanation_answers_verdict()
    ensures { ExplanationAnswersVerdict }
{}

/// So is the one that comes with an explanation of all that is wrong.
pub fn all_explained_answers_verdict()
    ensures { AllAnswersVerdict }
{}

/// With the notes too.
pub fn noted_explanation_answers_verdict()
    ensures { NotedAnswersVerdict }
{}

/// Nothing of an explanation is written before its run ends.
pub fn explanation_at_its_end()
    ensures { ExplanationAtItsEnd }
{}

/// Nor of one of the two texts.
pub fn compared_at_its_end()
    ensures { ComparedAtItsEnd }
{}

/// Each method of LSP 3.17 has a row of the table by which notes are made, with its kind and side.
pub fn standard_methods_have_rows()
    ensures { MethodsHaveRows }
{}

/// Each row of that table is that of a method of LSP 3.17.
pub fn rows_are_standard_methods()
    ensures { RowsAreStandard }
{}
