//! What a run is asked to do, and how it ends.
use crate::verdict::Verdict;
use lsp_frame::{PullFault, WriteFault};
use lsp_rpc::Memory;
use std::alloc::AllocError;
use std::error::Error;
use std::fmt;

/// What a run writes for the frames of a stream.
#[derive(Clone, Copy, Debug, PartialEq, Eq)]
pub enum Mode {
    /// A line for each frame: its number, from 1, and the size of its content in bytes.
    Lengths,
    /// Each content after its canonical header part.
    Canonical,
    /// A line for each frame: its number, from 1, the size of its content in bytes, and the words
    /// that name its message.
    Kinds,
}

/// What is wrong with a stream.
#[derive(Clone, Copy, Debug, PartialEq, Eq)]
pub enum StreamFault {
    /// A frame, or the unfinished rest of the stream, breaks this rule.
    Rule(u16),
    /// The stream is longer than the limit, and its bytes up to the limit have no other fault.
    TooLong,
}

/// How a run ended, if not by a fault of reading, writing or memory.
#[derive(Drop)]
pub enum Outcome {
    /// All that was asked for was written, and nothing was wrong with it.
    Done,
    /// The session has this verdict.
    Judged(Verdict),
    /// The frame of this number, from 1, has the fault.
    Stream { frame: u64, fault: StreamFault },
    /// No document of the URI is open after the requested message.
    NoDocument,
    /// The editor sent fewer messages than the requested number.
    TooFew,
    /// The verdict is not that two texts differ.
    NoDifference,
    /// What was to be written does not show the verdict on the log, so nothing is written.
    Unlike,
}

/// Why a run stopped before its end.
#[derive(Clone, Copy, Debug, PartialEq, Eq)]
pub enum RunFault {
    /// The source failed.
    Read,
    /// The sink failed.
    Write,
    /// Memory was refused.
    Memory,
}

impl fmt::Display for RunFault {
    ghost use Rattle.std.specs.Prelude.{Some};
    ghost use Rattle.lsp_verdict.specs.Texts.{fault_text};

    ghost output = { λ fault. Some (fault_text fault) };

    fn fmt<W: fmt::Write>(&self, f: &mut fmt::Formatter<W>) -> fmt::Result {
        f.write_str(match self {
            Self::Read => "read fault",
            Self::Write => "write fault",
            Self::Memory => "out of memory",
        })
    }
}

impl Error for RunFault {}

impl From<Memory> for RunFault {
    ghost use Rattle.std.specs.Prelude.{◌≡◌};
    ghost use Rattle.lsp_verdict.specs.declared.outcome.RunFault.TheVariants as faults;

    ghost from_gives = { λ _ fault. fault ≡ faults.Memory };

    fn from(_memory: Memory) -> RunFault {
        RunFault::Memory
    }
}

impl From<AllocError> for RunFault {
    ghost use Rattle.std.specs.Prelude.{◌≡◌};
    ghost use Rattle.lsp_verdict.specs.declared.outcome.RunFault.TheVariants as faults;

    ghost from_gives = { λ _ fault. fault ≡ faults.Memory };

    fn from(_error: AllocError) -> RunFault {
        RunFault::Memory
    }
}

impl From<PullFault> for RunFault {
    ghost use Rattle.std.specs.Prelude.{◌≡◌};
    ghost use Rattle.lsp_verdict.specs.Runs.{of_pull};

    ghost from_gives = { λ pull fault. fault ≡ of_pull pull };

    fn from(fault: PullFault) -> RunFault {
        match fault {
            PullFault::Read => RunFault::Read,
            PullFault::Memory => RunFault::Memory,
        }
    }
}

impl From<WriteFault> for RunFault {
    ghost use Rattle.std.specs.Prelude.{◌≡◌};
    ghost use Rattle.lsp_verdict.specs.declared.outcome.RunFault.TheVariants as faults;

    ghost from_gives = { λ _ fault. fault ≡ faults.Write };

    fn from(_fault: WriteFault) -> RunFault {
        RunFault::Write
    }
}
