//! What a recorded session is, and what the verdict on it means: its events, which of them offends,
//! and the reports.
//!
//! Nothing is judged here. The definitions say which events the records of a log make, which of
//! them offends and by which rule, and thus which verdict a log has. The laws say what the verdicts
//! mean.
#![tactic(auto)]

mod complete_laws;
mod completeness;
mod counts;
mod interleaving_laws;
mod laws;
mod lines;
mod listing;
mod names;
mod offence;
mod offence_laws;
mod outcome;
mod raw;
mod report;
mod texts;
mod verdict;

pub use complete_laws::{
    complete_means_ended, complete_means_fault, ended_means_complete, lack_is_named,
    one_complete_verdict, some_complete_verdict,
};
pub use completeness::Completeness;
pub use counts::Counts;
pub use interleaving_laws::{
    both_yes_agree, handshake_in_turn, only_order_offends, sessions_are_read,
};
pub use laws::{
    bad_log_means_fault, cuts_dont_matter, cuts_leave_verdict, events_are_streams, events_first,
    exact_means_equal, format_one_keeps_none, kept_means_yes, no_names_the_first, offence_decides,
    one_session, one_text, one_upgrade, one_verdict, some_final, some_session, some_text,
    some_upgrade, some_verdict, upgrade_keeps_yes, upgrade_stays, yes_means_kept,
};
pub use lines::Lines;
pub use listing::Listing;
pub use names::{encoding_name, kind_name, side_name, who_name};
pub use offence::{Offence, found_report, offence_report};
pub use offence_laws::{
    all_are_kept, first_listed, kept_are_others, kept_offend_nowhere, listed_offend,
    nothing_listed, one_survey, some_survey, survey_agrees,
};
pub use outcome::{Mode, Outcome, RunFault, StreamFault};
pub use raw::Raw;
pub use report::{frame_report, report_of, stream_report, verdict_report};
pub use verdict::{OpenDocument, Summary, Verdict, Who, who_of};
