//! The commands and options of the command line, and the words of their help.
ghost use Rattle.std.specs.Prelude.{◌≡◌, [], IfOk, IsOkAnd, true};
ghost use Rattle.clap.specs.Words.{AddsSubcommand, app_of, shape_of};
ghost use Rattle.lsp_words.specs.CommandLine.{AreModes, IsArg, IsCommandLine, Modes, check};
ghost use Rattle.lsp_words.specs.CommandLine.{check_options, event, text_options, explain, file};
ghost use Rattle.lsp_words.specs.CommandLine.{files, flag, frames, mode, normal, explain_options};
ghost use Rattle.lsp_words.specs.CommandLine.{explained_options, ignore_line_ends, json};
ghost use Rattle.lsp_words.specs.CommandLine.{show_options, number, program, quiet, redact, show};
ghost use Rattle.lsp_words.specs.CommandLine.{text, upgrade, uri};

use clap::{Arg, ArgAction, Command, value_parser};
use std::alloc::{AllocError, Global};

static MODES: [&str; 3] = ["lengths", "canonical", "kinds"];

/// The version of the program.
const VERSION: &str = "1.0.0";

/// What the help of the program ends with.
const MORE: &str = "\
Examples:
  lspcheck check session.log                 the verdict on a recorded session
  lspcheck check logs/*.log                  a line for each of several sessions
  lspcheck check --all session.log           every independent violation
  lspcheck explain session.log               why the verdict is no
  lspcheck explain --all session.log         the same for every independent violation
  lspcheck explain --json session.log        the same as JSON, an object for each line
  lspcheck show session.log | tail           the last events before the verdict
  lspcheck text 12 file:///a.c session.log   what the server should hold after message 12
  lspcheck event 8 session.log               the content of event 8
  lspcheck redact session.log                the session without its words
  lspcheck frames --as kinds server.bin      what each message of a raw stream is

Exit status:
  0 yes or done        3 read or write fault
  1 no                 4 out of memory
  2 bad log or stream  5 nothing to write (text, event, explain --by-messages, --in-editor)
  6 can't be redacted  64 bad arguments

The repository describes the rules in docs/RULES.md, the lines of a report in docs/REPORT.md, how to
record a session in docs/RECORDERS.md, and the format of a log in docs/LOG_FORMAT.md. In a package,
'man lspcheck' says where these are.";

/// The greatest number of a message or an event that can be asked for: no log has more of them than
/// bytes.
const MOST_EVENTS: i64 = 1_099_511_627_776;

/// The argument that names the file to read.
fn file<'a>(alloc: Global, help: &'static str) -> Arg<'a>
    ensures { IsArg file result }
{
    Arg::new(alloc, "file").value_name("FILE").help(help)
}

/// The argument that names the log.
fn log_file<'a>(alloc: Global) -> Arg<'a>
    ensures { IsArg file result }
{
    file(alloc, "The log; standard input if absent or '-'")
}

/// The argument that names one log or several.
fn log_files<'a>(alloc: Global) -> Arg<'a>
    ensures { IsArg files result }
{
    file(
        alloc,
        "The log; standard input if absent or '-'. For several, a line for each",
    )
    .action(ArgAction::Append)
}

/// An option that is set or not.
fn flag<'a>(alloc: Global, name: &'static str, help: &'static str) -> Arg<'a>
    ensures { IsArg (flag name.now) result }
{
    Arg::new(alloc, name)
        .long(name)
        .action(ArgAction::SetTrue)
        .help(help)
}

/// The option that turns off the progress line.
fn quiet<'a>(alloc: Global) -> Arg<'a>
    ensures { IsArg quiet result }
{
    flag(alloc, "quiet", "Shows no progress on a terminal")
}

/// The option under which JSON is written.
fn json<'a>(alloc: Global) -> Arg<'a>
    ensures { IsArg json result }
{
    flag(alloc, "json", "Writes each line as a JSON object")
}

/// The option under which line ends do not count.
fn ignore_line_ends<'a>(alloc: Global) -> Arg<'a>
    ensures { IsArg ignore_line_ends result }
{
    flag(
        alloc,
        "ignore-line-ends",
        "Compares texts line by line; neither line ends nor a last empty line count",
    )
}

/// The argument that numbers a message or an event, from 1.
fn number<'a>(alloc: Global, help: &'static str) -> Arg<'a>
    ensures { IsArg number result }
{
    Arg::new(alloc, "number")
        .value_name("N")
        .required(true)
        .value_parser(value_parser!(u64).range(1..=MOST_EVENTS))
        .help(help)
}

/// The argument that names a document.
fn uri<'a>(alloc: Global) -> Arg<'a>
    ensures { IsArg uri result }
{
    Arg::new(alloc, "uri")
        .value_name("URI")
        .required(true)
        .help("The document")
}

/// The option that says what to write for each frame.
fn mode<'a>(alloc: Global) -> Arg<'a>
    ensures { (modes : Modes) × AreModes modes × IsArg (mode modes) result }
{
    Arg::new(alloc, "as")
        .long("as")
        .value_name("MODE")
        .value_parser(MODES.as_slice())
        .default_value("lengths")
        .help("What to write for each frame")
}

/// The command with the first of its options.
fn check_options<'a>(alloc: Global) -> Result<Command<'a>, AllocError>
    ensures { IfOk result (λ command. shape_of command ≡ check_options) }
{
    Command::new(alloc, "check")
        .about("Judges a recorded session and reports the verdict")
        .arg(flag(
            alloc,
            "complete",
            "Says yes only if every request of the editor was answered and exit was sent",
        ))?
        .arg(flag(
            alloc,
            "all",
            "Lists every independent violation; leaves out consequences of earlier ones",
        ))?
        .arg(flag(
            alloc,
            "every",
            "Lists every violation, consequences included",
        ))?
        .arg(flag(
            alloc,
            "compared",
            "Ends with status 1 after a yes for which no snapshot was compared",
        ))
}

fn check<'a>(alloc: Global) -> Result<Command<'a>, AllocError>
    ensures { IfOk result (λ command. shape_of command ≡ check) }
{
    check_options(alloc)?
        .arg(ignore_line_ends(alloc))?
        .arg(json(alloc))?
        .arg(quiet(alloc))?
        .arg(log_files(alloc))
}

/// The command with the options that say what is explained.
fn explained_options<'a>(alloc: Global) -> Result<Command<'a>, AllocError>
    ensures { IfOk result (λ command. shape_of command ≡ explained_options) }
{
    Command::new(alloc, "explain")
        .about("Judges a recorded session and explains a no")
        .arg(flag(
            alloc,
            "complete",
            "Requires a complete session, as for check",
        ))?
        .arg(flag(
            alloc,
            "all",
            "Explains every violation that check --all lists",
        ))?
        .arg(flag(
            alloc,
            "notes",
            "With --all: writes the notes too, each as soon as it is found",
        ))
}

/// The same with those on the two texts.
fn explain_options<'a>(alloc: Global) -> Result<Command<'a>, AllocError>
    ensures { IfOk result (λ command. shape_of command ≡ explain_options) }
{
    explained_options(alloc)?
        .arg(ignore_line_ends(alloc))?
        .arg(flag(
            alloc,
            "by-messages",
            "Writes only the text that the messages produce (608, 702)",
        ))?
        .arg(flag(
            alloc,
            "in-editor",
            "Writes only the editor's own text, saved or of a snapshot (608, 702)",
        ))
}

fn explain<'a>(alloc: Global) -> Result<Command<'a>, AllocError>
    ensures { IfOk result (λ command. shape_of command ≡ explain) }
{
    explain_options(alloc)?
        .arg(json(alloc))?
        .arg(quiet(alloc))?
        .arg(log_file(alloc))
}

/// The command with its own options, and without those that other commands have too.
fn show_options<'a>(alloc: Global) -> Result<Command<'a>, AllocError>
    ensures { IfOk result (λ command. shape_of command ≡ show_options) }
{
    Command::new(alloc, "show")
        .about("Lists the events of a recorded session, then reports the verdict")
        .arg(flag(
            alloc,
            "all",
            "Continues past each violation, and lists it in its place",
        ))?
        .arg(flag(
            alloc,
            "long",
            "Adds each side's own numbers, and the URI and version of documents",
        ))
}

fn show<'a>(alloc: Global) -> Result<Command<'a>, AllocError>
    ensures { IfOk result (λ command. shape_of command ≡ show) }
{
    show_options(alloc)?
        .arg(json(alloc))?
        .arg(quiet(alloc))?
        .arg(log_file(alloc))
}

/// The command with its own arguments and options, and without those that every command has.
fn text_options<'a>(alloc: Global) -> Result<Command<'a>, AllocError>
    ensures { IfOk result (λ command. shape_of command ≡ text_options) }
{
    Command::new(alloc, "text")
        .about("Writes the text that the server should hold after a message of the editor")
        .arg(number(alloc, "The number of the editor's message, from 1"))?
        .arg(uri(alloc))?
        .arg(flag(
            alloc,
            "all",
            "Skips each message that breaks a rule, as check --all does",
        ))
}

fn text<'a>(alloc: Global) -> Result<Command<'a>, AllocError>
    ensures { IfOk result (λ command. shape_of command ≡ text) }
{
    text_options(alloc)?.arg(quiet(alloc))?.arg(log_file(alloc))
}

fn event<'a>(alloc: Global) -> Result<Command<'a>, AllocError>
    ensures { IfOk result (λ command. shape_of command ≡ event) }
{
    Command::new(alloc, "event")
        .about("Writes the content of one event of a recorded session")
        .arg(number(alloc, "The number of the event, from 1"))?
        .arg(quiet(alloc))?
        .arg(log_file(alloc))
}

fn normal<'a>(alloc: Global) -> Result<Command<'a>, AllocError>
    ensures { IfOk result (λ command. shape_of command ≡ normal) }
{
    Command::new(alloc, "normal")
        .about("Writes the normal form of a log")
        .arg(quiet(alloc))?
        .arg(log_file(alloc))
}

fn upgrade<'a>(alloc: Global) -> Result<Command<'a>, AllocError>
    ensures { IfOk result (λ command. shape_of command ≡ upgrade) }
{
    Command::new(alloc, "upgrade")
        .about("Writes a log in format 2")
        .arg(quiet(alloc))?
        .arg(log_file(alloc))
}

fn redact<'a>(alloc: Global) -> Result<Command<'a>, AllocError>
    ensures { IfOk result (λ command. shape_of command ≡ redact) }
{
    Command::new(alloc, "redact")
        .about("Writes a log with its words replaced, which has the same verdict")
        .arg(ignore_line_ends(alloc))?
        .arg(quiet(alloc))?
        .arg(log_file(alloc))
}

fn frames<'a>(alloc: Global) -> Result<Command<'a>, AllocError>
    ensures { IfOk result (λ command.
        (modes : Modes) × AreModes modes × (shape_of command ≡ frames modes)) }
{
    Command::new(alloc, "frames")
        .about("Reads one raw stream of frames")
        .arg(mode(alloc))?
        .arg(quiet(alloc))?
        .arg(file(alloc, "The stream; standard input if absent or '-'"))
}

/// Adds a command, where there was memory for it.
fn with<'a>(
    program: Command<'a>,
    command: Result<Command<'a>, AllocError>,
) -> Result<Command<'a>, AllocError>
    ensures { IfOk result (λ r.
        IsOkAnd command.entry (λ c. AddsSubcommand program.entry c r)) }
{
    program.subcommand(command?)
}

/// The program with no command yet.
fn program<'a>(alloc: Global) -> Command<'a>
    ensures { app_of result ≡ record { top = record program { is_leaf = true }; subs = [] } }
{
    Command::new(alloc, "lspcheck")
        .about("Judges recorded sessions between an editor and a language server")
        .version(VERSION)
        .after_help(MORE)
        .subcommand_required(true)
        .arg_required_else_help(true)
}

/// All of the command line.
pub(crate) fn command_line<'a>(alloc: Global) -> Result<Command<'a>, AllocError>
    ensures { IfOk result (λ command. IsCommandLine (app_of command)) }
{
    let program = program(alloc);
    let program = with(program, check(alloc))?;
    let program = with(program, explain(alloc))?;
    let program = with(program, show(alloc))?;
    let program = with(program, text(alloc))?;
    let program = with(program, event(alloc))?;
    let program = with(program, normal(alloc))?;
    let program = with(program, upgrade(alloc))?;
    let program = with(program, redact(alloc))?;
    with(program, frames(alloc))
}
