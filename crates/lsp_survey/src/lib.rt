//! All that is wrong with a session, and not only the first offence: an event that offends is
//! skipped, as if it had not been sent, and the next is judged after those that keep the rules.
//!
//! `run_survey` reads a log and writes a report of all its offences, and `run_show_all` also shows
//! the events between them, both in lines or as JSON. `run_text_all` writes the text that is held
//! after a message of the editor's. Each is an account (`Survey`, and `HeldText` of `lsp_replay`)
//! over the one `pass` of `lsp_replay`. An offence may follow from an earlier one, after which the
//! two sides no longer agree on a document or on the handshake; what is an offence, and what
//! follows, is defined in `lsp_verdict`.
#![tactic(auto)]

mod end_of_session;
mod laws;
mod losses;
mod notes;
mod offence_count;
mod run;
mod survey;
mod text;

pub use end_of_session::{SessionEnd, session_end};
pub use laws::{
    all_shown_answers_verdict, all_shown_is_report, kept_text_at_its_end, kept_text_is_of_survey,
    one_all_shown, one_kept_text, one_report, report_answers_verdict, report_is_of_survey,
};
pub use losses::Losses;
pub use lsp_verdict::Listing;
pub use offence_count::OffenceCount;
pub use run::{run_show_all, run_survey};
pub use text::run_text_all;
