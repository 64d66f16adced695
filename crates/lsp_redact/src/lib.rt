//! A log with its words replaced, for those who may not show their sources: of each message what
//! the rules read, names as numbers, and characters as others of their kind.
//!
//! [`run_redact`] reads a log up to its verdict, and writes one that shows it. It is an account
//! (`Redacting`) over the one `pass` of `lsp_replay`, which keeps what is read of each message
//! (`Kept`). Only the verdict tells which two texts must stay apart (`apart_of`), so nothing is
//! written before it is known; then what is left of each is put together (`Redaction`), judged once
//! more (`put_checked`), and written if it shows the verdict. What is left is a `Shape` of
//! `specs/`, which has no place for a word of the log.
#![tactic(auto)]

mod apart;
mod broken;
mod characters;
mod check;
mod copies;
mod documents;
mod handshake;
mod kept;
mod laws;
mod messages;
mod names;
mod records;
mod redacting;
mod redaction;
mod run;
mod values;

pub use laws::{one_redacted, redacted_at_its_end, redacted_has_no_word, redacted_shows_verdict};
pub use run::run_redact;
