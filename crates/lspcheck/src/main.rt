//! `lspcheck` judges what passed between an editor and a language server.
//!
//! `lspcheck check` reads the log of a recorded session and reports the verdict on it, or writes a
//! line for each of several logs. `explain` adds the details of the event that breaks a rule, and
//! `show` lists the events before it. `text` writes the text of a document after a message, and
//! `event` the content of one event. `normal` writes the log in its normal form, `upgrade` in
//! format 2, and `redact` without its words. `frames` reads one raw stream, one direction of such a
//! session, and lists its frames, or writes them in canonical form.
//!
//! `lsp_command` has what the words request, how it is done and what its end means; here the
//! words, the input and the two outputs come from the system.
#![tactic(auto)]

mod explaining;
mod inputs;
mod progress;
mod shown_name;
mod wrong_words;

use clap::error::ErrorKind;
use explaining::show_explaining;
use inputs::status_of_inputs;
pub use lsp_command::status_of;
use lsp_command::{
    BufferedInput, BufferedOutput, Hint, Pace, Request, Supply, Task, TaskOutcome, Watch,
    conflict_of, file_of, hint_of, remark_of, report_apart, request_of, run_through,
    status_of_task, status_of_words,
};
use lsp_judge::RunFault;
use progress::Progress;
use shown_name::ShownName;
use std::alloc::Global;
use std::fs::OpenFile;
use std::io::{IsTerminal, Read, Write};
use std::process::ExitCode;
use std::rt::{Clock, Env, Files};
use std::{env, fs, io};
use wrong_words::{status_of_conflict, status_of_wrong_words};

/// The status where the verdict is a No.
const NO: u8 = 1;

/// Which of the two outputs are terminals.
#[derive(Clone, Copy)]
struct Terminals {
    output: bool,
    error: bool,
}

/// What may help a user beyond the fixed words.
#[derive(Clone, Copy)]
enum Advice {
    /// Why the input could not be read.
    Input(io::Error),
    /// Why standard output could not be written.
    Output(io::Error),
    /// What the input seems to be.
    Hint(Hint),
}

/// How a run ended, and what may help beyond that.
#[derive(Drop)]
struct Ended {
    answer: Result<TaskOutcome, RunFault>,
    advice: Option<Advice>,
}

impl Ended {
    fn by(fault: RunFault) -> Ended {
        Ended {
            answer: Err(fault),
            advice: None,
        }
    }

    /// Whether the verdict is a No.
    fn is_no(&self) -> bool {
        status_of_task(&self.answer) == NO
    }
}

/// What may help beyond the fixed words for how a run ended.
fn advice_on<I: Read + Drop, W: Write + Drop, V: Watch>(
    answer: &Result<TaskOutcome, RunFault>,
    input: &BufferedInput<'_, I, V>,
    output: &BufferedOutput<'_, W, V>,
) -> Option<Advice> {
    match answer {
        Err(RunFault::Read) => input.cause().map(Advice::Input),
        Err(RunFault::Write) => output.cause().map(Advice::Output),
        _ => hint_of(answer, input.beginning().as_slice()).map(Advice::Hint),
    }
}

/// Runs from an input to an output.
fn run_between<'a, I: Read + Drop, W: Write + Drop, V: Watch>(
    alloc: Global,
    request: &Request<'_>,
    task: Task<'_>,
    input: &mut BufferedInput<'a, I, V>,
    output: &mut BufferedOutput<'a, W, V>,
) -> Ended {
    let answer = run_through(alloc, task, input, output, request.limits());
    let advice = advice_on(&answer, input, output);
    Ended { answer, advice }
}

/// Runs from an input to standard output.
fn run_from<'a, R: Print + AllocGlobal, I: Read + Drop, V: Watch>(
    rt: &R,
    request: &Request<'_>,
    task: Task<'_>,
    input: &mut BufferedInput<'a, I, V>,
    supply: &'a Supply<V>,
) -> Ended {
    let pace = Pace::of(&task, supply);
    match BufferedOutput::new(rt.alloc(), io::writer(rt), pace) {
        Ok(mut output) => run_between(rt.alloc(), request, task, input, &mut output),
        Err(_) => Ended::by(RunFault::Memory),
    }
}

/// Runs over one open input, and tells meanwhile how far it was read.
fn run_on<R: Clock + Print + Eprint + AllocGlobal, I: Read + Drop>(
    rt: &R,
    input: I,
    request: &Request<'_>,
    task: Task<'_>,
    progress: &Progress<'_, R>,
) -> Ended {
    let supply = Supply::watched_by(progress);
    match BufferedInput::new(rt.alloc(), input, &task, &supply) {
        Ok(mut input) => run_from(rt, request, task, &mut input, &supply),
        Err(_) => Ended::by(RunFault::Memory),
    }
}

/// Runs over an input of this many bytes, where they are known.
fn run_watched<R: Clock + Print + Eprint + AllocGlobal, I: Read + Drop>(
    rt: &R,
    input: I,
    size: Option<u64>,
    request: &Request<'_>,
    task: Task<'_>,
    terminals: Terminals,
) -> Ended {
    let is_on = terminals.error && !request.quiet;
    let progress = Progress::new(rt, size, is_on, terminals.output);
    let ended = run_on(rt, input, request, task, &progress);
    progress.clear();
    ended
}

/// The bytes of a file, where the system knows them: it tells none of a pipe or a device.
fn size_of<F: OpenFile>(file: &F) -> Option<u64> {
    match file.metadata() {
        Ok(metadata) if metadata.len() > 0 => Some(metadata.len()),
        _ => None,
    }
}

/// Does the task of a request on one of its inputs.
fn run<R: Clock + Files + io::Input + Print + Eprint + AllocGlobal>(
    rt: &R,
    request: &Request<'_>,
    task: Task<'_>,
    input: &str,
    terminals: Terminals,
) -> Ended {
    let Some(path) = file_of(input) else {
        return run_watched(rt, rt.reader(), None, request, task, terminals);
    };
    match fs::open(rt, path) {
        Ok(file) => {
            let size = size_of(&file);
            run_watched(rt, file, size, request, task, terminals)
        }
        Err(cause) => Ended {
            answer: Err(RunFault::Read),
            advice: Some(Advice::Input(cause)),
        },
    }
}

/// Shows on standard error the report that is not part of what the task writes.
fn show_report<R: Eprint + AllocGlobal>(
    rt: &R,
    request: &Request<'_>,
    answer: Result<TaskOutcome, RunFault>,
) -> Result<TaskOutcome, RunFault> {
    let outcome = answer?;
    if let Some(report) = report_apart(rt.alloc(), request.task, &outcome)? {
        let _ = rt.eprint(report.as_str());
    }
    Ok(outcome)
}

/// Says on standard error what may help with an input. Of several, a hint names the one.
fn show_advice<R: Eprint>(
    rt: &R,
    request: &Request<'_>,
    file: Option<&ShownName<'_>>,
    advice: Option<Advice>,
) {
    let is_several = request.is_several();
    let _ = match advice {
        None => Ok(()),
        Some(Advice::Input(cause)) => match file {
            Some(name) => eprintln!(rt; "lspcheck: {name}: {cause}"),
            None => eprintln!(rt; "lspcheck: standard input: {cause}"),
        },
        Some(Advice::Output(cause)) => eprintln!(rt; "lspcheck: standard output: {cause}"),
        Some(Advice::Hint(hint)) => match file {
            Some(name) if is_several => eprintln!(rt; "lspcheck: hint: {name}: {hint}"),
            _ => eprintln!(rt; "lspcheck: hint: {hint}"),
        },
    };
}

/// Says on standard error the fixed words for how a run ended. A failure of standard error changes
/// nothing.
fn show_remark<R: Eprint>(rt: &R, answer: &Result<TaskOutcome, RunFault>) {
    if let Some(remark) = remark_of(answer) {
        let _ = rt.eprintln(remark);
    }
}

/// Says on standard error why a Yes has the status of a No.
fn show_lack<R: Eprint>(rt: &R) {
    let _ = eprintln!(rt; "lspcheck: --compared: no snapshot was compared");
}

/// The status of a fault, which is said on standard error.
fn status_shown<R: Eprint>(rt: &R, fault: RunFault) -> u8 {
    let answer = Err(fault);
    show_remark(rt, &answer);
    status_of_task(&answer)
}

/// The words of the command line.
fn words_of<R: Env + AllocGlobal>(rt: &R) -> io::Result<Vec<String>> {
    Ok(env::args(rt)?.collect(rt.alloc())?)
}

fn answer<R: Clock + Env + Files + io::Input + Print + Eprint + AllocGlobal>(
    rt: &R,
    terminals: Terminals,
) -> u8 {
    match words_of(rt) {
        Ok(words) => answer_to(rt, words.as_slice(), terminals),
        Err(error) => status_without_words(rt, error.kind()),
    }
}

/// Tells why the words of the command line cannot be read.
fn status_without_words<R: Eprint>(rt: &R, kind: io::ErrorKind) -> u8 {
    if kind == io::ErrorKind::OutOfMemory {
        return status_shown(rt, RunFault::Memory);
    }
    let _ = eprintln!(rt; "lspcheck: error: a word of the command line is not UTF-8");
    status_of_words(ErrorKind::InvalidValue)
}

/// Does what these words ask for, or tells why it cannot be done.
fn answer_to<R: Clock + Files + io::Input + Print + Eprint + AllocGlobal>(
    rt: &R,
    words: &[String],
    terminals: Terminals,
) -> u8 {
    match request_of(rt.alloc(), words) {
        Err(error) => status_of_wrong_words(rt, words, &error),
        Ok(request) => status_of_what_is_asked(rt, &request, terminals),
    }
}

/// Does what is asked, if it can be done.
fn status_of_what_is_asked<R: Clock + Files + io::Input + Print + Eprint + AllocGlobal>(
    rt: &R,
    request: &Request<'_>,
    terminals: Terminals,
) -> u8 {
    if let Some(conflict) = conflict_of(request) {
        return status_of_conflict(rt, conflict);
    }
    status_of_inputs(rt, request, terminals)
}

fn main(rt: HostRuntime) -> ExitCode {
    let terminals = Terminals {
        output: rt.stdout().is_terminal(),
        error: rt.stderr().is_terminal(),
    };
    ExitCode::from(answer(&rt, terminals))
}
