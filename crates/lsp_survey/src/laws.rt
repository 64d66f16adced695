//! Laws of the runs, each the contract of a function that does nothing.
ghost use Rattle.lsp_survey.specs.SurveyLaws.{AllShownAnswersVerdict, KeptTextAtItsEnd};
ghost use Rattle.lsp_survey.specs.SurveyLaws.{KeptTextIsOfSurvey};
ghost use Rattle.lsp_survey.specs.SurveyLaws.{OneAllShown, OneKeptText, OneReport};
ghost use Rattle.lsp_survey.specs.SurveyLaws.{ReportAnswersVerdict, ReportsSurvey, ShowsReport};

/// Each log has exactly one report of all that is wrong with it.
pub fn one_report()
    ensures { OneReport }
{}

/// All events of a log are shown in exactly one way for each kind of line.
pub fn one_all_shown()
    ensures { OneAllShown }
{}

/// A log has exactly one answer for the text after a message, where each event that offends is
/// skipped.
pub fn one_kept_text()
    ensures { OneKeptText }
{}

/// The answer that comes with the report is the verdict on the log.
pub fn report_answers_verdict()
    ensures { ReportAnswersVerdict }
{}

/// So is the one that comes where all events are shown.
pub fn all_shown_answers_verdict()
    ensures { AllShownAnswersVerdict }
{}

/// Nothing of such a text is written before its run ends.
pub fn kept_text_at_its_end()
    ensures { KeptTextAtItsEnd }
{}

/// It is the text that the kept events make of the document, up to that message.
pub fn kept_text_is_of_survey()
    ensures { KeptTextIsOfSurvey }
{}

/// The report is that of the survey of the log.
pub fn report_is_of_survey()
    ensures { ReportsSurvey }
{}

/// Without the lines of the kept events, what shows all events is the report of every offence.
pub fn all_shown_is_report()
    ensures { ShowsReport }
{}
