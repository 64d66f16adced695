//! What is asked is done on each input in turn. Of several, each has one line or object, and the
//! status is the worst of theirs.
use crate::shown_name::ShownName;
use crate::wrong_words::show_slip;
use crate::{
    Advice, Ended, Terminals, run, show_advice, show_explaining, show_lack, show_remark,
    show_report,
};
use lsp_command::{
    Request, Slip, TaskOutcome, file_of, lacks_comparison, status_of_request, uri_alone, worse_of,
};
use lsp_json::push_file_json;
use lsp_judge::RunFault;
use std::alloc::Global;
use std::io;
use std::rt::{Clock, Files};

/// An input as messages show it, unless it is standard input alone.
fn shown_input<'a>(alloc: Global, request: &Request<'_>, input: &'a str) -> Option<ShownName<'a>> {
    if request.is_several() || file_of(input).is_some() {
        Some(ShownName::new(alloc, input))
    } else {
        None
    }
}

/// What messages say instead of an input, where one stands for all.
fn shown_inputs<'a>(alloc: Global, request: &Request<'a>) -> Option<ShownName<'a>> {
    match request.inputs.as_slice() {
        [input] => shown_input(alloc, request, input),
        _ => Some(ShownName::new(alloc, "FILE")),
    }
}

/// A run after which a line was written, or not.
fn after_line(ended: Ended, written: io::Result<()>) -> Ended {
    match written {
        Ok(()) => ended,
        Err(cause) => Ended {
            answer: Err(RunFault::Write),
            advice: Some(Advice::Output(cause)),
        },
    }
}

/// The object of an input that could not be judged, where there was memory for it.
fn fault_object(alloc: Global, file: &str, fault: RunFault) -> Option<String> {
    let line = format!(in alloc; "{fault}\n").ok()?;
    let mut object = String::new(alloc);
    push_file_json(&mut object, file, line.as_str()).ok()?;
    Some(object)
}

/// Writes the line or the object of an input that could not be judged.
fn show_unjudged<R: Print + AllocGlobal>(
    rt: &R,
    request: &Request<'_>,
    input: &str,
    shown: &ShownName<'_>,
    fault: RunFault,
) -> io::Result<()> {
    if !request.json {
        return println!(rt; "{shown}: {fault}");
    }
    match fault_object(rt.alloc(), input, fault) {
        Some(object) => rt.print(object.as_str()),
        None => println!(rt; "{{\"is\":\"{fault}\"}}"),
    }
}

/// What the line of one input of several calls it. An object has the name as it is given.
fn line_name<'a>(
    request: &Request<'_>,
    input: &'a str,
    shown: &'a ShownName<'_>,
) -> Option<&'a str> {
    if request.json {
        Some(input)
    } else {
        shown.as_str()
    }
}

/// Judges one input of several, and writes its line or its object. Where there is no verdict, that
/// says why, so that each input has one.
fn run_line<R: Clock + Files + io::Input + Print + Eprint + AllocGlobal>(
    rt: &R,
    request: &Request<'_>,
    input: &str,
    shown: &ShownName<'_>,
    terminals: Terminals,
) -> Ended {
    let ended = match line_name(request, input, shown) {
        Some(name) => {
            let task = request.task.for_line(name);
            run(rt, request, task, input, terminals)
        }
        None => Ended::by(RunFault::Memory),
    };
    let fault = match ended.answer {
        Ok(_) | Err(RunFault::Write) => return ended,
        Err(fault) => fault,
    };
    after_line(ended, show_unjudged(rt, request, input, shown, fault))
}

/// Does what is asked on one input.
fn run_one<R: Clock + Files + io::Input + Print + Eprint + AllocGlobal>(
    rt: &R,
    request: &Request<'_>,
    input: &str,
    shown: Option<&ShownName<'_>>,
    terminals: Terminals,
) -> Ended {
    let has_line = request.is_several();
    match shown {
        Some(shown) if has_line => run_line(rt, request, input, shown, terminals),
        _ => run(rt, request, request.task, input, terminals),
    }
}

/// How the run on an input ended, as far as the end of the command depends on it.
#[derive(Clone, Copy)]
struct Told {
    status: u8,
    /// Whether the verdict is a No.
    is_no: bool,
    /// Whether a Yes has the status of a No.
    has_lack: bool,
    /// Whether standard output failed, so that nothing more can be written.
    is_last: bool,
}

impl Told {
    fn of(request: &Request<'_>, answer: &Result<TaskOutcome, RunFault>, is_no: bool) -> Told {
        Told {
            status: status_of_request(request, answer),
            is_no,
            has_lack: lacks_comparison(request, answer),
            is_last: matches!(answer, Err(RunFault::Write)),
        }
    }

    /// The worse status, and what holds of one of them.
    fn and(self, other: Told) -> Told {
        Told {
            status: worse_of(self.status, other.status),
            is_no: self.is_no || other.is_no,
            has_lack: self.has_lack || other.has_lack,
            is_last: self.is_last || other.is_last,
        }
    }
}

/// Says on standard error what there is to report of the run on an input. Where the words left
/// something out, and that was said, there is no hint.
fn tell<R: Eprint + AllocGlobal>(
    rt: &R,
    request: &Request<'_>,
    shown: Option<&ShownName<'_>>,
    ended: Ended,
    has_slip: bool,
) -> Told {
    let is_no = ended.is_no();
    let advice = match ended.advice {
        Some(Advice::Hint(_)) if has_slip => None,
        advice => advice,
    };
    let answer = show_report(rt, request, ended.answer);
    show_remark(rt, &answer);
    show_advice(rt, request, shown, advice);
    Told::of(request, &answer, is_no)
}

/// Does what is asked on one input, and says on standard error what there is to report.
fn tell_of_input<R: Clock + Files + io::Input + Print + Eprint + AllocGlobal>(
    rt: &R,
    request: &Request<'_>,
    input: &str,
    terminals: Terminals,
    has_slip: bool,
) -> Told {
    let shown = shown_input(rt.alloc(), request, input);
    let ended = run_one(rt, request, input, shown.as_ref(), terminals);
    tell(rt, request, shown.as_ref(), ended, has_slip)
}

/// Does what is asked on each input in turn, and says on standard error what there is to report,
/// before the next is opened. Only one is open at a time. It stops where standard output fails,
/// since nothing more could be written either.
pub(crate) fn status_of_inputs<R: Clock + Files + io::Input + Print + Eprint + AllocGlobal>(
    rt: &R,
    request: &Request<'_>,
    terminals: Terminals,
) -> u8 {
    let has_slip = show_slip(rt, Slip::Uri, uri_alone(request));
    let mut all = Told {
        status: 0,
        is_no: false,
        has_lack: false,
        is_last: false,
    };
    for input in request.inputs.as_slice() {
        all = all.and(tell_of_input(rt, request, input, terminals, has_slip));
        if all.is_last {
            return all.status;
        }
    }
    if all.has_lack {
        show_lack(rt);
    }
    if all.is_no && terminals.error {
        show_explaining(rt, request, shown_inputs(rt.alloc(), request).as_ref());
    }
    all.status
}
