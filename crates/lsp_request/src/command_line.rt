//! What the words of the command line ask for, by what `lsp_words` finds in them.
//!
//! `request_of` reads the words: a [`Request`] is a [`Task`] and the inputs to do it on. A [`Slip`]
//! says what the words may have left out, and a [`Conflict`] what is asked and cannot be done.

mod several;
mod slip;
mod task;
mod words;

pub use several::{Conflict, conflict_of, quoted_name};
pub use slip::{Slip, only_word, uri_alone};
pub use task::{Explanation, Extent, Report, Request, Rewrite, Task};
pub use words::{file_of, request_of};
