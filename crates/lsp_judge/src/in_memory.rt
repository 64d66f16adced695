//! The verdict on a log that is held in memory.
ghost use Rattle.std.specs.Prelude.{◌≡◌, IfOk, IfSome, Some, length};
ghost use Rattle.lsp_replay.specs.Common.{IsVerdict, verdict_view};
ghost use Rattle.lsp_verdict.specs.declared.outcome.Outcome.TheVariants.{Judged};

use crate::check::check_held;
use lsp_frame::{Failed, Input, Limits, Sink};
use lsp_rpc::{Memory, Result};
use lsp_verdict::{Outcome, Verdict};
use std::alloc::Global;

/// What was written, in memory.
#[derive(Drop)]
pub(crate) struct Written {
    pub(crate) bytes: Vec<u8>,
    pub(crate) failures: u64,
}

impl Sink for Written {
    ghost told = { λ written. record {
      bytes = Some written.bytes.items;
      count = length written.bytes.items;
      failures = written.failures;
    } };

    fn put(&mut self, bytes: &[u8]) -> Result<usize, Failed> {
        match self.bytes.extend_from_slice(bytes) {
            Ok(()) => Ok(bytes.len()),
            Err(_) => {
                self.failures = self.failures.saturating_add(1);
                Err(Failed)
            }
        }
    }
}

/// The verdict that a run ended with, if it did.
fn judged(outcome: Outcome) -> Option<Verdict>
    ensures { IfSome result (λ verdict. outcome ≡ Judged verdict) }
{
    match outcome {
        Outcome::Judged(verdict) => Some(verdict),
        _ => None,
    }
}

/// The verdict on a log that is held in memory: that which `run_check` reports.
///
/// # Errors
/// `Memory` where memory was refused.
pub fn verdict_of(alloc: Global, log: &[u8], limits: Limits) -> Result<Verdict>
    ensures { IfOk result (λ verdict. IsVerdict limits log.now (verdict_view verdict)) }
{
    let mut source = Input::new(log);
    let bytes = Vec::new(alloc);
    let mut report = Written { bytes, failures: 0 };
    let Ok(outcome) = check_held(alloc, &mut source, &mut report, limits) else {
        return Err(Memory);
    };
    let Some(verdict) = judged(outcome) else {
        return Err(Memory);
    };
    Ok(verdict)
}
