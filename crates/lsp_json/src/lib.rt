//! The lines of a report as JSON: an object for each line, in the order of the lines.
//!
//! `words` cuts a line into words, and `field` tells whether the pattern of a row takes them.
//! `members` writes what they become, and `lines` the objects. `rows` has the rows. `files` writes
//! the object of one of several logs. `laws` has what is true of the rows.
#![tactic(auto)]

mod field;
mod files;
mod laws;
mod lines;
mod members;
mod rows;
mod words;

pub use files::push_file_json;
pub use lines::push_json;
