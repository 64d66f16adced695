//! What is said about an offence: the report of its No, the line of its event, and the facts on it,
//! with the earlier events that led to it. No run reads a log here.
//!
//! [`push_offence`] adds what is said about an event that offends, [`push_end`] what is said of the
//! end of a session that is not complete, and [`push_flaw`] what is said of the fault of a log. The
//! facts of `lsp_facts` are read off the session and the documents, and the `Trail` of `lsp_trail`
//! says which events led there. Where two texts differ, the messages that can have made them differ
//! are the suspects: their changes are made again in other encodings, with other line ends, or in
//! another order, to see which of these give the text that the editor had.
#![tactic(auto)]

mod fits;
mod offence_facts;
mod older_encoding;
mod other_lines;
mod rearranged;
mod right_from;
mod suspects;
mod told;
mod trace;
mod twins;
mod unopened;
mod unrisen;

pub use offence_facts::{push_end, push_flaw, push_offence};
