//! What words may have left out.
ghost use Rattle.std.specs.Prelude.{◌≡◌, map, option_map, string_bytes};
ghost use Rattle.lsp_request.specs.Slips.{only_word, uri_alone};

use crate::command_line::task::{Request, Task};
use std::fmt;

/// What words left out, where a word that should be something else names a file.
#[derive(Clone, Copy, Debug, PartialEq, Eq)]
pub enum Slip {
    /// The command.
    Command,
    /// The URI, or the file.
    Uri,
}

impl fmt::Display for Slip {
    ghost use Rattle.std.specs.Prelude.{Some};
    ghost use Rattle.lsp_request.specs.Slips.{slip_text};

    ghost output = { λ slip. Some (slip_text slip) };

    fn fmt<W: fmt::Write>(&self, f: &mut fmt::Formatter<W>) -> fmt::Result {
        f.write_str(match self {
            Slip::Command => "that is a file: did you mean 'lspcheck check FILE'?",
            Slip::Uri => "the URI is the name of a file: did you mean 'text N URI FILE'?",
        })
    }
}

/// The word that stands where a command should, if it is the only one.
pub fn only_word(words: &[String]) -> Option<&str>
    ensures { option_map (λ word. word.now) result ≡ only_word (map string_bytes words.now) }
{
    match words {
        [_, word] => Some(word.as_str()),
        _ => None,
    }
}

/// The URI whose document is asked for, if standard input is read.
pub fn uri_alone<'a>(request: &Request<'a>) -> Option<&'a str>
    ensures { option_map (λ uri. uri.now) result ≡ uri_alone request.now }
{
    if request.standard_inputs() == 0 {
        return None;
    }
    match request.task {
        Task::Text { uri, .. } => Some(uri),
        _ => None,
    }
}
