//! Why a call is refused.
ghost use Rattle.std.specs.Prelude.{◌≡◌, IfOk, OnErr};
ghost use Rattle.lsp_types.specs.declared.fault.Fault.TheVariants as faults;

use crate::memory::Memory as OutOfMemory;
use std::alloc::{AllocError, AllocFailed};
use thiserror::Error;

/// Why a call is refused: the lowest rule that it breaks, by its number, or memory was refused.
#[derive(Clone, Copy, Debug, Drop, PartialEq, Eq, Error)]
pub enum Fault {
    /// It breaks this rule, and none of a lower number.
    #[error("rule {0}")]
    Rule(u16),
    /// Memory was refused.
    #[error("out of memory")]
    Memory,
}

impl Fault {
    /// The rule that is broken.
    ///
    /// # Errors
    /// `Memory` where memory was refused.
    pub fn rule(self) -> Result<u16, OutOfMemory>
        ensures rule { IfOk result (λ rule. self ≡ Fault.Rule rule) }
        ensures memory { OnErr result (self ≡ Fault.Memory) }
    {
        match self {
            Fault::Rule(rule) => Ok(rule),
            Fault::Memory => Err(OutOfMemory),
        }
    }
}

impl From<OutOfMemory> for Fault {
    ghost from_gives = { λ _ fault. fault ≡ faults.Memory };

    fn from(_refused: OutOfMemory) -> Fault {
        Fault::Memory
    }
}

impl From<AllocError> for Fault {
    ghost from_gives = { λ _ fault. fault ≡ faults.Memory };

    fn from(_refused: AllocError) -> Fault {
        Fault::Memory
    }
}

impl<T: Drop> From<AllocFailed<T>> for Fault {
    ghost from_gives = { λ _ fault. fault ≡ faults.Memory };

    fn from(_refused: AllocFailed<T>) -> Fault {
        Fault::Memory
    }
}
