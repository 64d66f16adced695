//! The commands and options of the command line, and what `clap` finds by them in words.
//!
//! `found_in` reads the words; which commands there are, and with which options, is its contract.
//! Nothing here names a run: what the words request is read off what is found (`lsp_command`).
#![tactic(auto)]

mod commands;
mod finding;

pub use finding::{command_required, found_in};
