//! A walk over the bytes of a JSON text, without a tree of values (RFC 8259).
//!
//! Each function is told where something begins, a value, a string, a number or a key, and answers
//! where it ends, with what is wanted of it. Places are counted in bytes from the start of a text.
//! `None` means that `serde_json` would not read it, or that the walk leaves its form or its size
//! to `serde_json`. [`skipped`] passes a value of any kind, and [`range_at`] reads a range as most
//! programs write it.
#![tactic(auto)]

mod bytes;
mod number_blocks;
mod numbers;
mod positions;
mod runs;
mod texts;
mod tries;
mod walk;

pub use bytes::{byte_at, spaces_end};
pub use numbers::{digit_at, has_minus, natural_at, number_end};
pub use positions::{Kept, range_at};
pub use walk::{
    Kind, MAX_DEPTH, key, kind_at, literal_end, plain_string, skipped, string_copy, string_end,
};
