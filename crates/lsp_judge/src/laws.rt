//! Laws of `check` and `show`, and of what is due where a log is shown, each the contract of a
//! function that does nothing.
ghost use Rattle.lsp_judge.specs.JudgingLaws.{JudgingAnswersVerdict, OneJudgingOutput};
ghost use Rattle.lsp_judge.specs.ShownLog.{OneShown, SomeShown};

/// Every log has an output for each kind of line.
pub fn some_shown()
    ensures { SomeShown }
{}

/// It has only one, and with it only one verdict.
pub fn one_shown()
    ensures { OneShown }
{}

/// What `check` and `show` answer is the verdict on the log, with lines and with JSON.
pub fn judging_answers_verdict()
    ensures { JudgingAnswersVerdict }
{}

/// Each log has exactly one output of `check` and of `show`, with lines and with JSON.
pub fn one_judging_output()
    ensures { OneJudgingOutput }
{}
