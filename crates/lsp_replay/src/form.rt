//! The forms in which what a run says is written.
ghost use Rattle.std.specs.Prelude.{[]};
ghost use Rattle.lsp_docs.specs.Documents.{Terms};
ghost use Rattle.lsp_replay.specs.JsonRun.{IsQuiet, run_in};
ghost use Rattle.lsp_replay.specs.Run.{PassesOn};
ghost use Rattle.lsp_verdict.specs.Runs.{ports};

use crate::account::Account;
use crate::as_json::Json;
use crate::one_pass::pass;
use lsp_frame::{Limits, Sink, Source};
use lsp_verdict::{Outcome, RunFault};
use std::alloc::Global;

/// How what a run says is written.
#[derive(Clone, Copy, Debug, PartialEq, Eq)]
pub enum Form {
    /// In the lines in which it says it.
    Lines,
    /// As JSON: an object for each line.
    Json,
}

/// Reads a log, and writes in a form what an account says of it.
///
/// # Errors
/// Those of [`pass`].
pub fn pass_in<R: Source, W: Sink, A: Account + Drop>(
    alloc: Global,
    reader: &mut R,
    writer: &mut W,
    limits: Limits,
    account: A,
    form: Form,
) -> Result<Outcome, RunFault>
    requires begins { (terms : Terms) → A.stands account terms [] }
    requires quiet { IsQuiet (A.run (A.asked account)) }
    ensures passes { PassesOn (run_in form (A.run (A.asked account))) limits
        (ports (R.told reader.old) (R.told reader.new) (W.told writer.old) (W.told writer.new))
        result }
{
    match form {
        Form::Lines => {
            let mut account = account;
            pass(alloc, reader, writer, limits, &mut account)
        }
        Form::Json => {
            let mut account = Json::new(alloc, account);
            pass(alloc, reader, writer, limits, &mut account)
        }
    }
}
