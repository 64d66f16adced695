//! What is said about words that ask for nothing that can be done.
use crate::{status_of_task, status_shown};
use clap::Error;
use clap::error::ErrorKind;
use lsp_command::{Conflict, Slip, only_word, shown_text, status_of_words};
use lsp_judge::RunFault;
use std::alloc::Global;
use std::rt::Files;
use std::{fs, io};

/// How the advice begins that an option can be the name of a file. It is left out: whoever writes
/// an option that does not exist means an option.
const AS_A_VALUE: &str = "\n\n  tip: to pass '";

/// What follows the advice.
const USAGE: &str = "\n\nUsage: ";

/// Says on standard error what is wrong with the words, which this text may repeat.
fn show_fault<R: Eprint>(rt: &R, text: &str) {
    let _ = match parts_of(text) {
        Some((fault, usage)) => eprint!(rt; "lspcheck: {fault}{USAGE}{usage}"),
        None => eprint!(rt; "lspcheck: {text}"),
    };
}

/// What is wrong, and the usage: the text without the advice between them, where it has that.
fn parts_of(text: &str) -> Option<(&str, &str)> {
    let (fault, advice) = text.split_once(AS_A_VALUE)?;
    let (_, usage) = advice.split_once(USAGE)?;
    Some((fault, usage))
}

/// The text of the error as it is shown, since it repeats words.
fn text_of(alloc: Global, error: &Error) -> Option<String> {
    let text = error.to_string(alloc).ok()?;
    shown_text(alloc, text.as_str()).ok()
}

/// Prints the help or the version, and answers the status. A reader that is gone wants no more of
/// it, so nothing is said of that.
fn status_of_help<R: Print + Eprint>(rt: &R, error: &Error) -> u8 {
    match error.print(rt) {
        Err(cause) if !error.use_stderr() && cause.kind() == io::ErrorKind::BrokenPipe => {
            status_of_task(&Err(RunFault::Write))
        }
        Err(_) if !error.use_stderr() => status_shown(rt, RunFault::Write),
        _ => status_of_words(error.kind()),
    }
}

/// Shows what is wrong with the words, or the help that they ask for.
fn status_without_run<R: Print + Eprint + AllocGlobal>(rt: &R, error: &Error) -> u8 {
    match error.kind() {
        ErrorKind::OutOfMemory => status_shown(rt, RunFault::Memory),
        ErrorKind::DisplayHelp
        | ErrorKind::DisplayVersion
        | ErrorKind::DisplayHelpOnMissingArgumentOrSubcommand => status_of_help(rt, error),
        kind => match text_of(rt.alloc(), error) {
            Some(text) => {
                show_fault(rt, text.as_str());
                status_of_words(kind)
            }
            None => status_shown(rt, RunFault::Memory),
        },
    }
}

/// Says why the words cannot be obeyed.
pub(crate) fn status_of_conflict<R: Eprint>(rt: &R, conflict: Conflict) -> u8 {
    let _ = eprintln!(rt; "lspcheck: error: {conflict}\n\nFor more information, try '--help'.");
    status_of_words(ErrorKind::ArgumentConflict)
}

/// Says on standard error what the words may have left out, where this word names a file, and
/// answers whether it does.
pub(crate) fn show_slip<R: Files + Eprint>(rt: &R, slip: Slip, word: Option<&str>) -> bool {
    if let Some(path) = word
        && fs::open(rt, path).is_ok()
    {
        let _ = eprintln!(rt; "lspcheck: hint: {slip}");
        return true;
    }
    false
}

/// Shows what is wrong with the words, and what they may have left out.
pub(crate) fn status_of_wrong_words<R: Files + Print + Eprint + AllocGlobal>(
    rt: &R,
    words: &[String],
    error: &Error,
) -> u8 {
    let status = status_without_run(rt, error);
    if let ErrorKind::InvalidSubcommand | ErrorKind::UnknownArgument = error.kind() {
        show_slip(rt, Slip::Command, only_word(words));
    }
    status
}
