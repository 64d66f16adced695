//! What came of the calls of a reader or a writer.
ghost use Rattle.std.specs.Prelude.{◌≡◌, ◌<◌, ◌↔◌, Ok, Some, IfOk, IfErr, OnOk, OnErr, IsErr};
ghost use Rattle.std.specs.Prelude.{IsSome};
ghost use Rattle.lsp_frame.specs.Told.{CountsFailure, Raises};

use lsp_frame::Failed;
use std::io;

/// How many bytes were moved and how many calls have failed, each up to the greatest `u64`, and the
/// error of the last call that did.
#[derive(Drop)]
pub(crate) struct IoState {
    bytes: u64,
    failures: u64,
    cause: Option<io::Error>,
    ghost explained: { IsSome cause ↔ (0 < failures) },
}

impl IoState {
    /// Of a reader or a writer that was not called yet.
    pub(crate) fn new() -> IoState
        ensures bytes { result.bytes ≡ 0 }
        ensures failures { result.failures ≡ 0 }
    {
        IoState {
            bytes: 0,
            failures: 0,
            cause: None,
        }
    }

    /// The error of the last call that failed, where one did.
    pub(crate) fn cause(&self) -> Option<io::Error>
        ensures value { result ≡ self.now.cause }
        ensures failed { IsSome result ↔ (0 < self.now.failures) }
    {
        self.cause
    }

    /// Takes note of a call that was answered so, and answers the same: it fails where the call
    /// did.
    pub(crate) fn heed<T>(&mut self, answer: io::Result<T>) -> Result<T, Failed>
        ensures ok { IfOk answer (λ value. result ≡ Ok value) }
        ensures err { OnErr answer (IsErr result) }
        ensures bytes { self.new.bytes ≡ self.old.bytes }
        ensures failures { CountsFailure self.old.failures self.new.failures answer }
        ensures cause { IfErr answer (λ error. self.new.cause ≡ Some error) }
        ensures same_cause { OnOk answer (self.new.cause ≡ self.old.cause) }
    {
        match answer {
            Ok(value) => Ok(value),
            Err(error) => {
                self.cause = Some(error);
                self.failures = self.failures.saturating_add(1);
                Err(Failed)
            }
        }
    }

    /// Takes note of bytes that were moved, this many.
    pub(crate) fn raise(&mut self, count: usize)
        ensures bytes { Raises self.old.bytes self.new.bytes count }
        ensures failures { self.new.failures ≡ self.old.failures }
        ensures cause { self.new.cause ≡ self.old.cause }
    {
        self.bytes = self.bytes.saturating_add(count as u64);
    }

    /// Takes note of a call that moved bytes or failed, and answers the same: it fails where the
    /// call did.
    pub(crate) fn count(&mut self, answer: io::Result<usize>) -> Result<usize, Failed>
        ensures ok { IfOk answer (λ n. result ≡ Ok n) }
        ensures err { OnErr answer (IsErr result) }
        ensures bytes { IfOk answer (λ n. Raises self.old.bytes self.new.bytes n) }
        ensures no_bytes { OnErr answer (self.new.bytes ≡ self.old.bytes) }
        ensures failures { CountsFailure self.old.failures self.new.failures answer }
        ensures cause { IfErr answer (λ error. self.new.cause ≡ Some error) }
        ensures same_cause { OnOk answer (self.new.cause ≡ self.old.cause) }
    {
        let count = self.heed(answer)?;
        self.raise(count);
        Ok(count)
    }
}
