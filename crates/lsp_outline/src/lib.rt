//! Messages read from the contents of a stream, without building what nothing needs.
//!
//! A `MessageReader` walks over the bytes of a content once. It reads a message without its params
//! and without the value of its result; where the params of a notification are read, it also says
//! what they mean. It answers exactly what `lsp_rpc` would, and leaves the contents that it
//! declines to `lsp_rpc`. `document_of` tells in the same way which document a content names in its
//! params, and `version_of` which version of one.
#![tactic(auto)]

mod document;
mod edits;
mod members;
mod message;
mod negative_numbers;
mod outline;
mod params;

pub use document::{DocumentVersion, document_of, version_of};
pub use outline::{MessageReader, Results};
