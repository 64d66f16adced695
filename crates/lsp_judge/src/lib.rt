//! The judge of a recorded session: its events, which of them offends, and the verdict.
//!
//! `run_check` reads a log and writes the report of the verdict on it. `run_check_complete` does so
//! for a session that must be complete, `run_check_line` writes no more than the first line of it,
//! after a name, and `run_show` first writes a line for each event before the verdict. `run_text`
//! writes the text that is held after a message. `run_check_json`, `run_check_object` and
//! `run_show_json` write the same as JSON. Each is an account (`Judging`, and `HeldText` of
//! `lsp_replay`) over the one `pass` of `lsp_replay`. `run_upgrade` writes a log again in format 2,
//! up to its verdict. `Judge` takes the records of a log one by one, and `report_of` prints a
//! verdict.
//!
//! What a session is and means is defined in `lsp_verdict`, and how its events are heard in
//! `lsp_replay`. The public names of `lsp_verdict` are exported again here, and so are those of
//! `lsp_extract`, whose runs judge nothing.
#![tactic(auto)]

mod as_json;
mod check;
mod check_line;
mod check_object;
mod contents;
mod ending;
mod in_memory;
mod judge;
mod judging;
mod laws;
mod ruling;
mod show;
mod text;
mod upgrade;

pub use as_json::{run_check_json, run_show_json};
pub use check::{run_check, run_check_complete};
pub use check_line::{compared_nothing, run_check_line};
pub use check_object::run_check_object;
pub use ending::verdict_at;
pub use in_memory::verdict_of;
pub use judge::Judge;
pub use laws::{judging_answers_verdict, one_judging_output, one_shown, some_shown};
pub use lsp_extract::{
    EventOutcome, event_is_numbered, normal_form_keeps_events, normal_form_keeps_verdict,
    normal_form_stays, one_event, one_normal_form, one_run, run_event, run_frames, run_normal,
    some_event, some_normal_form, some_run,
};
pub use lsp_frame::{Format, Input, Limits, Output};
pub use lsp_log::LogCode;
pub use lsp_replay::TextAnswer;
pub use lsp_verdict::{
    Completeness, Lines, Mode, OpenDocument, Outcome, RunFault, StreamFault, Summary, Verdict, Who,
    bad_log_means_fault, both_yes_agree, complete_means_ended, complete_means_fault,
    cuts_dont_matter, cuts_leave_verdict, ended_means_complete, events_are_streams, events_first,
    exact_means_equal, handshake_in_turn, kept_means_yes, lack_is_named, no_names_the_first,
    offence_decides, one_complete_verdict, one_session, one_text, one_upgrade, one_verdict,
    only_order_offends, report_of, sessions_are_read, some_complete_verdict, some_final,
    some_session, some_text, some_upgrade, some_verdict, stream_report, upgrade_keeps_yes,
    upgrade_stays, yes_means_kept,
};
pub use show::{run_show, run_show_long};
pub use text::{run_text, text_after};
pub use upgrade::run_upgrade;
