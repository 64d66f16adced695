//! What is asked and cannot be done, and how each of several inputs is named.
ghost use Rattle.std.specs.Prelude.{◌≡◌, IfOk, option_map, string_bytes};
ghost use Rattle.std.specs.List.{list_any};
ghost use Rattle.std.specs.Str.{chars};
ghost use Rattle.lsp_request.specs.Several.{conflict_of, is_listing, is_text, quoted_name};
ghost use Rattle.lsp_request.specs.ShownText as shown;

use crate::command_line::task::{Report, Request, Task};
use crate::shown::{is_control, shown_text};
use lsp_rpc::{Memory, push_quoted};
use std::alloc::Global;
use std::fmt;

/// What is asked and cannot be done.
#[derive(Clone, Copy, Debug, PartialEq, Eq)]
pub enum Conflict {
    /// A list of the violations of several logs, each of which has one line.
    ListOfSeveral,
    /// Standard input twice, since it can be read only once.
    InputTwice,
    /// Both of the texts that differ, since one is written.
    BothTexts,
    /// One of them as JSON, since it is written as it is.
    JsonText,
}

impl fmt::Display for Conflict {
    ghost use Rattle.std.specs.Prelude.{Some};
    ghost use Rattle.lsp_request.specs.Several.{conflict_text};

    ghost output = { λ conflict. Some (conflict_text conflict) };

    fn fmt<W: fmt::Write>(&self, f: &mut fmt::Formatter<W>) -> fmt::Result {
        f.write_str(match self {
            Conflict::ListOfSeveral => "--all and --every list the violations of one FILE",
            Conflict::InputTwice => "standard input ('-') can be read only once",
            Conflict::BothTexts => "the argument '--by-messages' cannot be used with '--in-editor'",
            Conflict::JsonText => "--json cannot be used with --by-messages or --in-editor",
        })
    }
}

/// Whether the task is to list violations.
fn is_listing(task: Task<'_>) -> bool
    ensures { result ≡ is_listing task.entry }
{
    matches!(task, Task::Check(_, Report::Offences(_), _))
}

/// Whether the task is to write one of two texts.
fn is_text(task: Task<'_>) -> bool
    ensures { result ≡ is_text task.entry }
{
    matches!(task, Task::Compared(_))
}

/// What the request asks that cannot be done.
pub fn conflict_of(request: &Request<'_>) -> Option<Conflict>
    ensures { result ≡ conflict_of request.now }
{
    if request.is_several() && is_listing(request.task) {
        return Some(Conflict::ListOfSeveral);
    }
    if request.standard_inputs() > 1 {
        return Some(Conflict::InputTwice);
    }
    if request.both_texts {
        return Some(Conflict::BothTexts);
    }
    if request.json && is_text(request.task) {
        return Some(Conflict::JsonText);
    }
    None
}

/// Whether a control character is in the name, such as LF.
fn has_control(name: &str) -> bool
    ensures { result ≡ list_any shown.is_control (chars name.now) }
{
    name.chars().any(is_control)
}

/// The name of a file as JSON text, where a control character is in it: so it is one line, and no
/// terminal takes a part of it for a command.
///
/// # Errors
/// `Memory` where memory was refused.
pub fn quoted_name(alloc: Global, name: &str) -> Result<Option<String>, Memory>
    ensures { IfOk result (λ written. option_map (λ text. string_bytes text) written
        ≡ quoted_name name.now) }
{
    if !has_control(name) {
        return Ok(None);
    }
    let mut text = String::new(alloc);
    push_quoted(alloc, &mut text, name)?;
    Ok(Some(shown_text(alloc, text.as_str())?))
}
