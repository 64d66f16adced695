//! Explains a No: a run that writes what is wrong after the report of the verdict, and one that
//! writes all that is wrong.
//!
//! [`run_explain`] reads a log and explains the verdict on it, and [`run_explain_all`] all that is
//! wrong with it; [`run_explain_noted`] also tells the notes on the way. What is said about an
//! offence is in `lsp_origins`, and the notes are in `lsp_notes`. [`run_compared`] writes one of
//! two whole texts, if the verdict says that they differ. The others also write JSON. Each is an
//! account (`FirstOffence`, `AllCauses`, `NotedCauses`, `OneText`) over the one `pass` of
//! `lsp_replay`, and the `Trail` of `lsp_trail` keeps on the way which events led to what.
#![tactic(auto)]

mod compared;
mod laws;
mod run;
mod run_all;
mod run_noted;

pub use compared::run_compared;
pub use laws::{
    all_explained_answers_verdict, all_explained_are_causes, compared_at_its_end,
    compared_text_is_of_survey, explanation_answers_verdict, explanation_at_its_end,
    explanation_begins_with_report, explanation_of_yes_is_report, first_explained_is_verdict,
    noted_explanation_answers_verdict, notes_are_beside, one_compared_text, one_explanation,
    one_explanation_of_all, one_noted_explanation, rows_are_standard_methods,
    standard_methods_have_rows,
};
pub use run::run_explain;
pub use run_all::run_explain_all;
pub use run_noted::run_explain_noted;
