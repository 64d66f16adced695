//! Frames of the Language Server Protocol (LSP 3.17, "Base Protocol").
//!
//! A frame is a header part, which gives the length of the content in bytes, and the content. A
//! [`Decoder`] takes the bytes of a stream in pieces of any size and lends the contents of its
//! frames; [`write_frame`] writes the canonical frame of a content. [`Limits`] bound what is
//! accepted. [`Source`] and [`Sink`] are where bytes come from and where they go, with [`Input`]
//! and [`Output`] over a reader and a writer of std.
//!
//! What is true of all frames and streams is stated in the contracts of functions that do nothing,
//! such as [`one_reading`].
#![tactic(auto)]

mod bytes;
mod decoder;
mod field;
mod format;
mod front;
mod header;
mod io;
mod laws;
mod limits;
mod start;
mod write;

pub use bytes::{after_byte, all_digits, number_up_to};
pub use decoder::{Decoder, FrameFault, Missing, PullFault};
pub use format::Format;
pub use front::header_front;
pub use io::{Failed, Input, Output, Sink, Source};
pub use laws::{
    canonical_is_frame, canonical_is_read, contents_stay, fault_stays, frames_come_first,
    front_stays, no_frame_begins_another, one_reading, some_reading,
};
pub use limits::Limits;
pub use lsp_types::Memory;
pub use write::{WriteFault, put_all, write_frame};
