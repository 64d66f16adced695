//! A store of a text in blocks, so that an edit moves few bytes and copies share the rest.
//!
//! [`Lined`] is a [`lsp_text::TextStore`]. It counts the bytes that its edits look at and insert
//! ([`Lined::steps`]), and tells how a position fits its text ([`Lined::fit_of`]).
#![tactic(auto)]

mod block;
mod chunk;
mod edit;
mod ends;
mod lined;
mod marks;
mod part;
mod removed;
mod sums;
mod walk;

pub use lined::Lined;
