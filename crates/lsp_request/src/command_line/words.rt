//! What the words of the command line ask for.
ghost use Rattle.std.specs.Prelude.{◌≡◌, IfErr, IfOk, codes, map, option_map, string_bytes};
ghost use Rattle.clap.specs.Words.{App, all_of, one_of, subcommand_rows_of};
ghost use Rattle.lsp_words.specs.CommandLine.{IsCommandLine};
ghost use Rattle.lsp_request.specs.Words.{Asks, AsksBoth, HasTask, IsFlag, NumberIn, Refuses, RequestIn};
ghost use Rattle.lsp_request.specs.Words.{TaskIn, report_of, compared_of, completeness_of};
ghost use Rattle.lsp_request.specs.Words.{explanation_of, extent_of, file_of, form_of, inputs_of};
ghost use Rattle.lsp_request.specs.Words.{line_ends_of, lines_of};
ghost use Rattle.lsp_request.specs.Words.{listing_of, mode_of, rows_in};

use crate::command_line::task::{Explanation, Extent, Report, Request, Rewrite, Task};
use clap::{ArgMatches, Error};
use lsp_facts::ComparedText;
use lsp_replay::Form;
use lsp_types::LineEnds;
use lsp_verdict::{Completeness, Lines, Listing, Mode};
use lsp_words::{command_required, found_in};
use std::alloc::{AllocError, Global};
use std::num::NonZeroU64;

/// The mode of this name; the parser of the option lets no other name pass.
fn mode_of(name: Option<&str>) -> Mode
    ensures { result ≡ mode_of (option_map (λ s. s.now) name.entry) }
{
    match name {
        Some("canonical") => Mode::Canonical,
        Some("kinds") => Mode::Kinds,
        _ => Mode::Lengths,
    }
}

/// Whether a session must be complete, where the option for it is set or not.
fn completeness_of(set: bool) -> Completeness
    ensures { result ≡ completeness_of set }
{
    if set {
        Completeness::Required
    } else {
        Completeness::Ignored
    }
}

/// Which offences are listed, where any but the first are: the options for all and for every one
/// are set or not.
fn listing_of(all: bool, every: bool) -> Option<Listing>
    ensures { result ≡ listing_of all every }
{
    if every {
        Some(Listing::Every)
    } else if all {
        Some(Listing::Causes)
    } else {
        None
    }
}

/// Which of two texts that differ is written, where one is: the options for these are set or not.
fn compared_of(by_messages: bool, in_editor: bool) -> Option<ComparedText>
    ensures { result ≡ compared_of by_messages in_editor }
{
    if by_messages {
        Some(ComparedText::ByMessages)
    } else if in_editor {
        Some(ComparedText::InEditor)
    } else {
        None
    }
}

/// What is explained, where the options for all that is wrong and for the notes are set or not.
fn explanation_of(all: bool, notes: bool) -> Explanation
    ensures { result ≡ explanation_of all notes }
{
    if !all {
        Explanation::Verdict
    } else if notes {
        Explanation::AllWithNotes
    } else {
        Explanation::All
    }
}

/// What the lines of events tell, where the option for long ones is set or not.
fn lines_of(set: bool) -> Lines
    ensures { result ≡ lines_of set }
{
    if set { Lines::Long } else { Lines::Short }
}

/// Whether line ends count, where the option for ignoring them is set or not.
fn line_ends_of(set: bool) -> LineEnds
    ensures { result ≡ line_ends_of set }
{
    if set {
        LineEnds::Ignored
    } else {
        LineEnds::Exact
    }
}

/// How far a session is followed, where the option for all of it is set or not.
fn extent_of(set: bool) -> Extent
    ensures { result ≡ extent_of set }
{
    if set { Extent::All } else { Extent::First }
}

/// The form of what is written, where the option for JSON is set or not.
fn form_of(set: bool) -> Form
    ensures { result ≡ form_of set }
{
    if set { Form::Json } else { Form::Lines }
}

/// Whether this option is set.
fn is_set(arguments: &ArgMatches<'_>, name: &str) -> bool
    ensures { IsFlag (one_of name.now (rows_in arguments.now)) result }
{
    arguments.get_flag(name)
}

/// The number of a message or an event.
fn number_of(arguments: &ArgMatches<'_>) -> Option<NonZeroU64>
    ensures { NumberIn (rows_in arguments.now) result }
{
    NonZeroU64::new(arguments.get_one::<u64>("number")?)
}

/// Whether both texts that differ are asked for.
fn asks_both(arguments: &ArgMatches<'_>) -> bool
    ensures { AsksBoth (rows_in arguments.now) result }
{
    let by_messages = is_set(arguments, "by-messages");
    let in_editor = is_set(arguments, "in-editor");
    by_messages && in_editor
}

/// The report of a session: that of its verdict, or these of its offences.
fn report_of<'a>(listing: Option<Listing>) -> Report<'a>
    ensures { result ≡ report_of listing }
{
    match listing {
        Some(listing) => Report::Offences(listing),
        None => Report::Verdict,
    }
}

fn check_task<'a>(arguments: &ArgMatches<'_>) -> Task<'a>
    ensures { HasTask (codes "check") (rows_in arguments.now) result }
{
    let complete = is_set(arguments, "complete");
    let all = is_set(arguments, "all");
    let every = is_set(arguments, "every");
    let json = is_set(arguments, "json");
    let listing = listing_of(all, every);
    Task::Check(completeness_of(complete), report_of(listing), form_of(json))
}

fn explain_task<'a>(arguments: &ArgMatches<'_>) -> Task<'a>
    ensures { HasTask (codes "explain") (rows_in arguments.now) result }
{
    let by_messages = is_set(arguments, "by-messages");
    let in_editor = is_set(arguments, "in-editor");
    if let Some(which) = compared_of(by_messages, in_editor) {
        return Task::Compared(which);
    }
    let complete = is_set(arguments, "complete");
    let all = is_set(arguments, "all");
    let notes = is_set(arguments, "notes");
    let json = is_set(arguments, "json");
    let explanation = explanation_of(all, notes);
    Task::Explain(completeness_of(complete), explanation, form_of(json))
}

fn show_task<'a>(arguments: &ArgMatches<'_>) -> Task<'a>
    ensures { HasTask (codes "show") (rows_in arguments.now) result }
{
    let long = is_set(arguments, "long");
    let all = is_set(arguments, "all");
    let json = is_set(arguments, "json");
    Task::Show(lines_of(long), extent_of(all), form_of(json))
}

fn text_task<'a>(arguments: &ArgMatches<'a>) -> Option<Task<'a>>
    ensures { TaskIn (codes "text") (rows_in arguments.now) result }
{
    let number = number_of(arguments)?;
    let uri = arguments.get_str("uri")?;
    let all = is_set(arguments, "all");
    Some(Task::Text {
        number,
        uri,
        extent: extent_of(all),
    })
}

fn event_task<'a>(arguments: &ArgMatches<'_>) -> Option<Task<'a>>
    ensures { TaskIn (codes "event") (rows_in arguments.now) result }
{
    let number = number_of(arguments)?;
    Some(Task::Event { number })
}

fn frames_task<'a>(arguments: &ArgMatches<'_>) -> Task<'a>
    ensures { HasTask (codes "frames") (rows_in arguments.now) result }
{
    Task::Frames(mode_of(arguments.get_str("as")))
}

/// The task of the command of this name, with its arguments.
fn task_of<'a>(name: &str, arguments: &ArgMatches<'a>) -> Option<Task<'a>>
    ensures { TaskIn name.now (rows_in arguments.now) result }
{
    match name {
        "check" => Some(check_task(arguments)),
        "explain" => Some(explain_task(arguments)),
        "show" => Some(show_task(arguments)),
        "text" => text_task(arguments),
        "event" => event_task(arguments),
        "normal" => Some(Task::Rewrite(Rewrite::Normal)),
        "upgrade" => Some(Task::Rewrite(Rewrite::Upgrade)),
        "redact" => Some(Task::Rewrite(Rewrite::Redact)),
        "frames" => Some(frames_task(arguments)),
        _ => None,
    }
}

/// The file of this name, unless it names standard input.
pub fn file_of(name: &str) -> Option<&str>
    ensures { option_map (λ file. file.now) result ≡ file_of name.now }
{
    match name {
        "-" => None,
        _ => Some(name),
    }
}

/// What is to be read: what is named, or standard input.
fn inputs_in<'a>(alloc: Global, arguments: &ArgMatches<'a>) -> Result<Vec<&'a str>, AllocError>
    ensures { IfOk result (λ inputs. map (λ input. input.now) inputs.items
        ≡ inputs_of (all_of (codes "file") (rows_in arguments.now))) }
{
    let mut inputs = Vec::new(alloc);
    let Some(named) = arguments.get_strs("file") else {
        inputs.push("-")?;
        return Ok(inputs);
    };
    inputs.extend_from_slice(named)?;
    Ok(inputs)
}

/// The request of the command that was found, with its arguments.
fn request_in<'a>(
    alloc: Global,
    matches: &ArgMatches<'a>,
) -> Result<Option<Request<'a>>, AllocError>
    ensures { IfOk result (RequestIn (subcommand_rows_of matches.now)) }
{
    let Some((name, arguments)) = matches.subcommand() else {
        return Ok(None);
    };
    let Some(task) = task_of(name, arguments) else {
        return Ok(None);
    };
    let inputs = inputs_in(alloc, arguments)?;
    let quiet = is_set(arguments, "quiet");
    let compared = is_set(arguments, "compared");
    let both_texts = asks_both(arguments);
    let ignored = is_set(arguments, "ignore-line-ends");
    let json = is_set(arguments, "json");
    Ok(Some(Request {
        task,
        inputs,
        quiet,
        compared,
        both_texts,
        line_ends: line_ends_of(ignored),
        json,
    }))
}

/// Reads the words of a command line, the program's name first.
///
/// # Errors
/// `OutOfMemory` where memory was refused; `DisplayHelp` and `DisplayVersion` where the words ask
/// for these; any other kind for bad arguments.
pub fn request_of<'a>(alloc: Global, words: &'a [String]) -> Result<Request<'a>, Error>
    // The words parse by the command line, and the command found in them asks for the request.
    ensures ok { IfOk result (λ request.
        (app : App) × IsCommandLine app × Asks app (map string_bytes words.entry.now) request) }
    // The error is one that these words have by the command line, or memory was refused.
    ensures err { IfErr result (λ error.
        (app : App) × IsCommandLine app × Refuses app (map string_bytes words.entry.now) error) }
{
    let found = found_in(alloc, words)?;
    let requested = request_in(alloc, &found)?;
    match requested {
        Some(request) => Ok(request),
        None => Err(command_required(alloc)?),
    }
}
