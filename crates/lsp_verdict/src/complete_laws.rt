//! Laws about the verdict if the session must be complete.
#![tactic(auto, using(crate::proofs::Theorems::complete_laws))]

ghost use Rattle.lsp_verdict.specs.Laws.{CompleteMeansEnded, EndedMeansComplete, LackIsNamed};
ghost use Rattle.lsp_verdict.specs.Laws.{CompleteMeansFault, OneCompleteVerdict};
ghost use Rattle.lsp_verdict.specs.Laws.{SomeCompleteVerdict};

/// Every byte sequence has a verdict if the session must be complete.
pub fn some_complete_verdict()
    ensures { SomeCompleteVerdict }
{}

/// It has only one.
pub fn one_complete_verdict()
    ensures { OneCompleteVerdict }
{}

/// Yes means: the log keeps the rules, each request of the editor is answered, and the editor sent
/// `exit`.
pub fn complete_means_ended()
    ensures { CompleteMeansEnded }
{}

/// The verdict is Yes if it is Yes without that condition, each request of the editor is answered,
/// and the editor sent `exit`.
pub fn ended_means_complete()
    ensures { EndedMeansComplete }
{}

/// No names the first event that offends, or the stream that ends inside a frame. If the log keeps
/// the rules, it names an unanswered request of the editor, else the missing `exit`.
pub fn lack_is_named()
    ensures { LackIsNamed }
{}

/// If the verdict is a bad log, the log has that fault, and no event before it offends.
pub fn complete_means_fault()
    ensures { CompleteMeansFault }
{}
