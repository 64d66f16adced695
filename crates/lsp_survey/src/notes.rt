//! What is noted of the events of a session, in addition to what session and documents hold. No
//! event is judged here, and no log is read.
//!
//! [`Notes`] says which documents are lost: an offence left the held text another than the
//! sender's. [`Sides`] says how the bytes of the two sides failed. Of an offence,
//! [`wants_handshake`] and [`wants_text`] say whether it may follow from an earlier one, and
//! [`breaks_handshake`] whether it leaves the handshake lost.

mod documents;
mod malformed;
mod note;
mod passed;
mod rules;
mod sides;

pub(crate) use documents::{note_kept, note_malformed, note_refused};
pub(crate) use malformed::{Malformed, meant_again};
pub(crate) use note::Notes;
pub(crate) use passed::Passed;
pub(crate) use rules::{breaks_handshake, wants_handshake, wants_text};
pub(crate) use sides::Sides;
