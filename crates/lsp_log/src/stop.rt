//! Why no record was found.
use lsp_frame::Failed;
use std::alloc::AllocError;

/// Why no record was found where one may stand.
#[derive(Clone, Copy)]
pub(crate) enum Stop {
    /// The log doesn't begin with its first line.
    FirstLine,
    /// No byte is left.
    Nothing,
    /// The record's first line has none of the forms.
    Form,
    /// A number is outside its range.
    Number,
    /// Bytes are missing.
    Short,
    /// Another byte is where a line end belongs.
    End,
    /// A URI or a text is not UTF-8.
    Text,
    /// The reader failed.
    Read,
    /// Memory was refused.
    Memory,
}

impl From<Failed> for Stop {
    ghost use Rattle.std.specs.Prelude.{◌≡◌};
    ghost use Rattle.lsp_log.specs.declared.stop.Stop.TheVariants.{Read};

    ghost from_gives = { λ _ stop. stop ≡ Read };

    fn from(_failed: Failed) -> Stop {
        Stop::Read
    }
}

impl From<AllocError> for Stop {
    ghost use Rattle.std.specs.Prelude.{◌≡◌};
    ghost use Rattle.lsp_log.specs.declared.stop.Stop.TheVariants.{Memory};

    ghost from_gives = { λ _ stop. stop ≡ Memory };

    fn from(_error: AllocError) -> Stop {
        Stop::Memory
    }
}
