//! The documents that an editor has open, as its messages leave them, and snapshots of what it
//! really had.
//!
//! [`Docs`] follows `didOpen`, `didChange`, `didClose` and `didSave` (LSP 3.17, "Text Document
//! Synchronization") over any store of texts. A snapshot is a URI, a version and a text: it is
//! compared with what is held at that version, at once or when the version comes, or with a kept
//! version, and otherwise counted as unmatched. A call that breaks a rule is refused with the
//! rule's number and changes nothing.
#![tactic(auto)]

mod call;
mod docs;
mod document;
mod history;
mod kind;
mod laws;
mod open_uris;
mod opened;
mod queue;
mod revision;
mod snapshot;
mod terms;
mod tried;
mod waiting;

pub use call::{Call, Took};
pub use docs::Docs;
pub use kind::is_of_kind;
pub use laws::{
    documents_are_held, held_is_shown, kept_versions_rise, nothing_kept, setters_compare,
    snapshots_agree, versions_rise,
};
pub use open_uris::OpenUris;
pub use revision::has_text;
pub use snapshot::{Match, is_other_text};
pub use tried::Tried;

/// Why a call is refused: the lowest of the rules 601 to 608, 701 and 702 that it breaks.
pub type DocFault = lsp_types::Fault;
