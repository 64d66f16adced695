//! Facts on an event that offends, read off the events before it, and the line of each. No run
//! reads a log here, and nothing is written to a sink.
//!
//! [`Facts`] are the lines that an explanation says about an event. [`session_facts`] are on a
//! message that breaks a rule of the session, and [`call_facts`] on a call that breaks one on
//! documents. [`content_facts`] are on a content that is not a message or has params of another
//! shape, [`frame_facts`] on a stream whose frames have a fault, [`header_facts`] on one that ends
//! inside a frame, [`flaw_facts`] on a log that has a fault.
//! [`refuting`] finds the snapshots whose texts refute a call, and [`texts_of`] and [`texts_at`]
//! give two whole texts that differ. [`push_details`] adds facts to a text, and
//! [`push_message_event`] and those next to it the line of an event.
#![tactic(auto)]

mod blame;
mod contents;
mod difference;
mod documents;
mod earlier;
mod edges;
mod ends;
mod facts;
mod faults;
mod frame_fronts;
mod grammar;
mod json_text;
mod laws;
mod lent_text;
mod lines;
mod made;
mod members;
mod messages;
mod part;
mod refused_change;
mod sentences;
mod shapes;
mod text_facts;
mod two_texts;
mod waiting;
mod whole;

pub use blame::{usual, usual_inside};
pub use contents::content_facts;
pub use documents::call_facts;
pub use earlier::Earlier;
pub use edges::is_past;
pub use facts::{Facts, push_facts};
pub use faults::{flaw_facts, frame_facts, header_facts};
pub use laws::{
    bad_params_have_a_member, bad_result_has_a_member, compared_texts_differ, whole_texts_are_json,
};
pub use lent_text::LentText;
pub use lines::{
    push_bare_event, push_content_event, push_details, push_end_event, push_message_event,
};
pub use messages::{id_in, session_facts};
pub use text_facts::push_encodings;
pub use two_texts::{ComparedText, TwoTexts, texts_at, texts_of};
pub use waiting::refuting;
