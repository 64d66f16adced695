//! The notes on a session, which change no verdict: what breaks no rule, and may still be wrong.
//!
//! [`push_notes`] adds the notes on the events so far to an explanation, and [`NotesAlong`] tells
//! those on each event when they are found. What is noted of messages is in [`MessageNotes`]: which
//! requests the server refused, which documents are named under another spelling, and which edits
//! and versions of the server do not fit. [`Misfits`] has what changes find that does not fit their
//! text. What else they say is kept by `lsp_trail`.
#![tactic(auto)]

mod along;
mod at_once;
mod behind;
mod document_notes;
mod edit_requests;
mod edited;
mod late_edits;
mod messages;
mod misfits;
mod notes;
mod refusals;
mod requests;
mod server_edits;
mod spellings;
mod text_edits;
mod texts_since;
mod unsent;

pub use along::NotesAlong;
pub use messages::MessageNotes;
pub use misfits::Misfits;
pub use notes::push_notes;
