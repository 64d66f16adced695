//! The final answer of a judge.
ghost use Rattle.std.specs.Prelude.{◌≡◌, List, IfOk, OnErr, Some};
ghost use Rattle.lsp_replay.specs.Common.{AreCounts, as_given, Event, no_next, verdict_view};
ghost use Rattle.lsp_judge.specs.Standing.{verdict_in};

use lsp_log::LogCode;
use lsp_rpc::{Memory, Result};
use lsp_verdict::{Counts, Offence, Verdict, Who};

/// What a judge gives from some record on: a verdict that no later record changes, or that memory
/// was refused.
#[derive(Clone, Copy, Debug, PartialEq, Eq)]
pub(crate) enum Ruling {
    No(Offence),
    BadLog { number: u64, fault: LogCode },
    Memory,
}

impl Ruling {
    /// No, at the event that comes next.
    pub(crate) fn no_next(counts: &Counts, rule: u16, who: Who) -> Ruling
        ensures no { (events : List Event) → AreCounts counts.now events
            → verdict_in result ≡ Some (as_given (no_next rule who events)) }
        ensures decided { result ≡ Ruling.Memory → ⊥ }
    {
        Ruling::No(Offence::next(counts, rule, who, false))
    }

    pub(crate) fn answer(self) -> Result<Verdict>
        ensures ok { IfOk result (λ answer. verdict_in self ≡ Some (verdict_view answer)) }
        ensures err { OnErr result (self ≡ Ruling.Memory) }
    {
        match self {
            Ruling::No(offence) => Ok(offence.verdict()),
            Ruling::BadLog { number, fault } => Ok(Verdict::BadLog { number, fault }),
            Ruling::Memory => Err(Memory),
        }
    }
}

impl From<Memory> for Ruling {
    ghost use Rattle.lsp_judge.specs.declared.ruling.Ruling.TheVariants as rulings;

    ghost from_gives = { λ _ ruling. ruling ≡ rulings.Memory };

    fn from(_memory: Memory) -> Ruling {
        Ruling::Memory
    }
}
